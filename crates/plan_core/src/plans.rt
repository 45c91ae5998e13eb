// Plans, and who takes part in them.
#![tactic(auto, unfolding(crate::specs::PlanContents::plan_contents, crate::specs::Parts::contents_of))]

ghost use Rattle.std.specs.Prelude.{◌≡◌, ◌<◌, length, slice_get, Some, All};
ghost use Rattle.std.specs.Map.{keys_of, values_of};
ghost use Rattle.message_tree.specs.Trees.{frame_tree};
ghost use Rattle.plan_core.specs.NameBytes.{name_bytes};
ghost use Rattle.plan_core.specs.Parts.{contents_of};
ghost use Rattle.plan_core.specs.Limits.{IsKnown, IsWithinLimits};
ghost use Rattle.plan_core.specs.Participants.{participants_of, participant_count, forbidden, same_controller};
ghost use Rattle.plan_core.specs.PairTables.{IsPairTable};

use crate::names::Name;
use crate::pairs::{PairTable, forbids_both, is_one_controller, last_begun};
use indexmap::IndexMap;
use message_tree::Frame;

/// One who may take part in a run.
#[derive(Clone, Copy, PartialEq, Eq)]
pub enum Participant {
    /// A controller with one of its messages, both by number.
    Sending { controller: u32, message: u32 },
    /// An interrupt, by number.
    Interrupt(u32),
}

/// A plan: messages, controllers with the messages that each may send, interrupts, and which controllers never start
/// together. Messages, controllers and interrupts are numbered from 0, each kind in the order in which they were added.
///
/// Participants are numbered from 0: first each controller with each of its messages, controller by controller and in
/// the order of its list, and then the interrupts. Two participants that may start together are a pair. Pairs are
/// numbered from 0 in dictionary order, the lower number first.
///
/// A plan has at most 256 messages, of at most 4096 nodes and 256 bytes on a path each, 32 controllers, 32 interrupts and
/// 512 sendings.
pub struct Plan {
    pub(crate) messages: IndexMap<Name, Frame>,
    pub(crate) controllers: IndexMap<Name, Vec<u32>>,
    pub(crate) interrupts: IndexMap<Name, u8>,
    pub(crate) nevers: Vec<(u32, u32)>,
    pub(crate) participants: Vec<Participant>,
    pub(crate) pairs: PairTable,
    pub ghost limits: { IsWithinLimits (contents_of messages.entries controllers.entries interrupts.entries nevers.items) },
    pub ghost numbered: { participants.items ≡
        participants_of (contents_of messages.entries controllers.entries interrupts.entries nevers.items) },
    pub ghost paired: { IsPairTable (contents_of messages.entries controllers.entries interrupts.entries nevers.items) pairs },
}

// Written out, so that one call lets it go.
impl Drop for Plan {
    fn drop(self) {
        let Self {
            messages: _,
            controllers: _,
            interrupts: _,
            nevers: _,
            participants: _,
            pairs: _,
        } = self;
    }
}

impl Plan {
    ghost use Rattle.plan_core.specs.PlanContents.{plan_contents};
    ghost use Rattle.plan_core.specs.Pairs.{pairs_of};

    /// The number of messages.
    pub fn messages(&self) -> u32
        ensures { result ≡ length (plan_contents self.now).messages }
    {
        self.messages.len() as u32
    }

    /// The message with this number.
    pub fn message(&self, k: u32) -> &Frame
        requires { k < length (plan_contents self.now).messages }
        ensures { slice_get (values_of (plan_contents self.now).messages) k ≡ Some (frame_tree result.now) }
    {
        self.messages.get_index(k as usize).unwrap().1
    }

    /// The name of the message with this number.
    pub fn message_name(&self, k: u32) -> &Name
        requires { k < length (plan_contents self.now).messages }
        ensures { slice_get (keys_of (plan_contents self.now).messages) k ≡ Some (name_bytes result.now) }
    {
        self.messages.get_index(k as usize).unwrap().0
    }

    /// The number of controllers.
    pub fn controllers(&self) -> u32
        ensures { result ≡ length (plan_contents self.now).controllers }
    {
        self.controllers.len() as u32
    }

    /// The name of the controller with this number.
    pub fn controller_name(&self, k: u32) -> &Name
        requires { k < length (plan_contents self.now).controllers }
        ensures { slice_get (keys_of (plan_contents self.now).controllers) k ≡ Some (name_bytes result.now) }
    {
        self.controllers.get_index(k as usize).unwrap().0
    }

    /// The numbers of the messages that the controller with this number may send, in its own order.
    pub fn controller_messages(&self, k: u32) -> &[u32]
        requires { k < length (plan_contents self.now).controllers }
        ensures value { slice_get (values_of (plan_contents self.now).controllers) k ≡ Some result.now }
        ensures known { All (λ m. m < length (plan_contents self.now).messages) result.now }
    {
        self.controllers.get_index(k as usize).unwrap().1.as_slice()
    }

    /// The number of interrupts.
    pub fn interrupts(&self) -> u32
        ensures { result ≡ length (plan_contents self.now).interrupts }
    {
        self.interrupts.len() as u32
    }

    /// The name of the interrupt with this number.
    pub fn interrupt_name(&self, k: u32) -> &Name
        requires { k < length (plan_contents self.now).interrupts }
        ensures { slice_get (keys_of (plan_contents self.now).interrupts) k ≡ Some (name_bytes result.now) }
    {
        self.interrupts.get_index(k as usize).unwrap().0
    }

    /// The address of the interrupt with this number, in seven bits.
    pub fn interrupt_address(&self, k: u32) -> u8
        requires { k < length (plan_contents self.now).interrupts }
        ensures { slice_get (values_of (plan_contents self.now).interrupts) k ≡ Some result }
    {
        *self.interrupts.get_index(k as usize).unwrap().1
    }

    /// The number of `never` items, each of which names two controllers that never start together.
    pub fn nevers(&self) -> u32
        ensures { result ≡ length (plan_contents self.now).nevers }
    {
        self.nevers.len() as u32
    }

    /// The numbers of the two controllers of the `never` with this number, in the order in which it names them.
    pub fn never(&self, k: u32) -> (u32, u32)
        requires { k < length (plan_contents self.now).nevers }
        ensures value { slice_get (plan_contents self.now).nevers k ≡ Some result }
        ensures known { (result.0 < length (plan_contents self.now).controllers) ×
            (result.1 < length (plan_contents self.now).controllers) }
    {
        self.nevers[k as usize]
    }

    /// The number of participants.
    pub fn participants(&self) -> u32
        ensures { result ≡ participant_count (plan_contents self.now) }
    {
        self.participants.len() as u32
    }

    /// The participant with this number.
    pub fn participant(&self, i: u32) -> Participant
        requires { i < participant_count (plan_contents self.now) }
        ensures value { slice_get (participants_of (plan_contents self.now)) i ≡ Some result }
        ensures known { IsKnown (plan_contents self.now) result }
    {
        self.participants[i as usize]
    }

    /// Whether both are sendings of one controller.
    #[tactic(auto, unfolding(crate::specs::Participants::same_controller))]
    pub fn same_controller(&self, x: u32, y: u32) -> bool
        requires x_within { x < participant_count (plan_contents self.now) }
        requires y_within { y < participant_count (plan_contents self.now) }
        ensures { result ≡ same_controller (plan_contents self.now) x y }
    {
        is_one_controller(self.participant(x), self.participant(y))
    }

    /// Whether both are sendings whose controllers one `never` names.
    #[tactic(auto, unfolding(crate::specs::PlanContents::plan_contents, crate::specs::Parts::contents_of, crate::specs::Participants::forbidden))]
    pub fn forbids(&self, x: u32, y: u32) -> bool
        requires x_within { x < participant_count (plan_contents self.now) }
        requires y_within { y < participant_count (plan_contents self.now) }
        ensures { result ≡ forbidden (plan_contents self.now) x y }
    {
        forbids_both(&self.nevers, self.participant(x), self.participant(y))
    }

    /// The number of pairs.
    pub fn pair_count(&self) -> u32
        ensures { result ≡ length (pairs_of (plan_contents self.now)) }
    {
        self.pairs.count
    }

    /// The two participants of the pair with this number, the lower number first.
    pub fn pair(&self, i: u32) -> (u32, u32)
        requires { i < length (pairs_of (plan_contents self.now)) }
        ensures { slice_get (pairs_of (plan_contents self.now)) i ≡ Some result }
    {
        let x = last_begun(&self.pairs.rows, i);
        let row = self.pairs.rows[x];
        let y = self.pairs.partners[(row.partners + (i - row.first)) as usize];
        (x as u32, y)
    }
}
