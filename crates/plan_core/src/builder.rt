// How a plan is put together.
#![tactic(auto, unfolding(crate::specs::BuilderContents::builder_contents, crate::specs::PlanContents::plan_contents, crate::specs::Parts::contents_of))]

ghost use Rattle.std.specs.Prelude.{◌≡◌, ◌%◌, ◌≤◌, [], ◌∷◌, ◌++◌, length, map, position, ℕ, List, ◌<◌, None, OnOk};
ghost use Rattle.std.specs.Prelude.{OnErr, IfOk};
ghost use Rattle.std.specs.List.{range_with_len};
ghost use Rattle.std.specs.Str.{bytes_eq};
ghost use Rattle.indexmap.specs.IndexMap.{index_map_len, keys};
ghost use Rattle.message_tree.specs.Trees.{frame_tree};
ghost use Rattle.plan_core.specs.Contents.{empty};
ghost use Rattle.plan_core.specs.NameBytes.{name_bytes};
ghost use Rattle.plan_core.specs.declared.builder.BuildError.TheVariants.{NoMemory};
ghost use Rattle.plan_core.specs.Building.{RefusesExactly, number_of, numbers_of, has_name, message_name_refusal};
ghost use Rattle.plan_core.specs.Building.{message_refusal, with_message, controller_name_refusal, controller_refusal};
ghost use Rattle.plan_core.specs.Building.{list_refusal, with_controller, with_sender, interrupt_refusal};
ghost use Rattle.plan_core.specs.Building.{with_interrupt, never_refusal, with_never};
ghost use Rattle.plan_core.specs.Limits.{sending_count};
ghost use Rattle.plan_core.specs.Participants.{participants_of};
ghost use Rattle.plan_core.specs.declared.plans.Participant.TheVariants.{Sending, Interrupt};

use crate::limits::{
    MOST_BYTES, MOST_CONTROLLERS, MOST_INTERRUPTS, MOST_MESSAGES, MOST_NODES, MOST_SENDINGS,
};
use crate::names::Name;
use crate::pairs::{PairTable, is_never};
use crate::plans::{Participant, Plan};
use indexmap::IndexMap;
use message_tree::Frame;
use std::alloc::{AllocError, Global};
use thiserror::Error;

/// Why a call of a builder was refused. The builder is then as it was before the call.
#[derive(Clone, Copy, PartialEq, Eq, Debug, Error)]
pub enum BuildError {
    /// The item stands already.
    #[error("the item stands already")]
    Twice,
    /// There is no item of this name.
    #[error("there is no item of this name")]
    Unknown,
    /// The plan has as many of these as it may have.
    #[error("there are too many of these")]
    TooMany,
    /// The message has too many nodes, or too many bytes on one path.
    #[error("the message is too long")]
    TooLong,
    /// There is no memory.
    #[error("out of memory")]
    NoMemory,
}

/// A plan in the making.
#[derive(Drop)]
pub struct Builder {
    alloc: Global,
    plan: Plan,
}

impl Builder {
    ghost use Rattle.plan_core.specs.PlanContents.{plan_contents};
    ghost use Rattle.plan_core.specs.BuilderContents.{builder_contents};

    /// The empty plan, which takes no memory. Later calls take theirs from `alloc`.
    pub fn new(alloc: Global) -> Builder
        ensures { builder_contents result ≡ empty }
    {
        Builder {
            alloc,
            plan: Plan {
                messages: IndexMap::new(alloc),
                controllers: IndexMap::new(alloc),
                interrupts: IndexMap::new(alloc),
                nevers: Vec::new(alloc),
                participants: Vec::new(alloc),
                pairs: PairTable::empty(alloc),
            },
        }
    }

    /// Adds a message at the end of the messages.
    ///
    /// # Errors
    ///
    /// `Twice` where a message has this name, then `TooMany` where there are 256 messages, then `TooLong` where `frame`
    /// has more than 256 bytes on a path or more than 4096 nodes, then `NoMemory`.
    pub fn message(&mut self, name: Name, frame: Frame) -> Result<(), BuildError>
        ensures answer { RefusesExactly (message_refusal (builder_contents self.old) (name_bytes name)
            (frame_tree frame)) result }
        ensures added { OnOk result (builder_contents self.new ≡
            with_message (builder_contents self.old) (name_bytes name) (frame_tree frame)) }
        ensures unchanged { OnErr result (builder_contents self.new ≡ builder_contents self.old) }
    {
        match self.message_refusal(&name, &frame) {
            Some(refusal) => Err(refusal),
            None => {
                self.add_message(name, frame)?;
                Ok(())
            }
        }
    }

    /// Adds a message that is not refused, as `message` does, without asking again.
    ///
    /// # Errors
    ///
    /// Where an allocation fails. The builder is then as it was.
    pub fn add_message(&mut self, name: Name, frame: Frame) -> Result<(), AllocError>
        requires { message_refusal (builder_contents self.old) (name_bytes name) (frame_tree frame) ≡ None }
        ensures added { OnOk result (builder_contents self.new ≡
            with_message (builder_contents self.old) (name_bytes name) (frame_tree frame)) }
        ensures unchanged { OnErr result (builder_contents self.new ≡ builder_contents self.old) }
    {
        push_entry(&mut self.plan.messages, name, frame)?;
        Ok(())
    }

    /// Why a message of this name would be refused, whatever its frame: `Twice` where a message has this name, then
    /// `TooMany` where there are 256 messages. It takes no memory and changes nothing.
    #[tactic(auto, unfolding(crate::specs::BuilderContents::builder_contents, crate::specs::Building::message_name_refusal))]
    pub fn message_name_refusal(&self, name: &Name) -> Option<BuildError>
        ensures { result ≡ message_name_refusal (builder_contents self.now) (name_bytes name.now) }
    {
        if self.message_number(name).is_some() {
            Some(BuildError::Twice)
        } else if self.plan.messages() >= MOST_MESSAGES {
            Some(BuildError::TooMany)
        } else {
            None
        }
    }

    /// Adds a controller that may send these messages, in this order, at the end of the controllers.
    ///
    /// # Errors
    ///
    /// `Twice` where a controller has this name, then `TooMany` where there are 32 controllers. Then for each name in
    /// turn `Unknown` where there is no such message, `Twice` where the name stands before in `messages`, and `TooMany`
    /// where the plan would have more than 512 sendings. At last `NoMemory`.
    pub fn controller(&mut self, name: Name, messages: &[Name]) -> Result<(), BuildError>
        ensures answer { RefusesExactly (controller_refusal (builder_contents self.old) (name_bytes name)
            (map name_bytes messages.now)) result }
        ensures added { OnOk result (builder_contents self.new ≡
            with_controller (builder_contents self.old) (name_bytes name) (map name_bytes messages.now)) }
        ensures unchanged { OnErr result (builder_contents self.new ≡ builder_contents self.old) }
    {
        match self.controller_refusal(&name, messages) {
            Some(refusal) => Err(refusal),
            None => {
                self.add_controller(name, messages)?;
                Ok(())
            }
        }
    }

    /// Adds a controller that is not refused, as `controller` does, without asking again.
    ///
    /// # Errors
    ///
    /// Where an allocation fails. The builder is then as it was.
    pub fn add_controller(&mut self, name: Name, messages: &[Name]) -> Result<(), AllocError>
        requires { controller_refusal (builder_contents self.old) (name_bytes name) (map name_bytes messages.now) ≡
            None }
        ensures added { OnOk result (builder_contents self.new ≡
            with_controller (builder_contents self.old) (name_bytes name) (map name_bytes messages.now)) }
        ensures unchanged { OnErr result (builder_contents self.new ≡ builder_contents self.old) }
    {
        let numbers = self.numbers_of(messages)?;
        let participants = self.participants_with(&numbers)?;
        let pairs = PairTable::new(self.alloc, &participants, &self.plan.nevers)?;
        let plan = &mut self.plan;
        push_entry(&mut plan.controllers, name, numbers)?;
        plan.participants = participants;
        plan.pairs = pairs;
        Ok(())
    }

    /// Why a controller of this name would be refused, whatever its messages: `Twice` where a controller has this name,
    /// then `TooMany` where there are 32 controllers. It takes no memory and changes nothing.
    #[tactic(auto, unfolding(crate::specs::BuilderContents::builder_contents, crate::specs::Building::controller_name_refusal))]
    pub fn controller_name_refusal(&self, name: &Name) -> Option<BuildError>
        ensures { result ≡ controller_name_refusal (builder_contents self.now) (name_bytes name.now) }
    {
        if self.controller_number(name).is_some() {
            Some(BuildError::Twice)
        } else if self.plan.controllers() >= MOST_CONTROLLERS {
            Some(BuildError::TooMany)
        } else {
            None
        }
    }

    /// Whether a controller has this name. It takes no memory and changes nothing.
    pub fn has_controller(&self, name: &Name) -> bool
        ensures { result ≡ has_name (name_bytes name.now) (builder_contents self.now).controllers }
    {
        self.controller_number(name).is_some()
    }

    /// Why the message of this name would be refused to a further controller that may send those in `before`: `Unknown`
    /// where there is no such message, then `Twice` where the name stands in `before`, then `TooMany` where the plan
    /// would have more than 512 sendings. It takes no memory and changes nothing.
    pub fn sending_refusal(&self, before: &[Name], name: &Name) -> Option<BuildError>
        ensures { result ≡ list_refusal (builder_contents self.now) (map name_bytes before.now)
            (name_bytes name.now ∷ []) }
    {
        if self.message_number(name).is_none() {
            Some(BuildError::Unknown)
        } else if before.contains(name) {
            Some(BuildError::Twice)
        } else if self.sendings() + before.len() >= MOST_SENDINGS as usize {
            Some(BuildError::TooMany)
        } else {
            None
        }
    }

    /// Adds an interrupt at the end of the interrupts. The low seven bits of `address` count.
    ///
    /// # Errors
    ///
    /// `Twice` where an interrupt has this name, then `TooMany` where there are 32 interrupts, then `NoMemory`.
    pub fn interrupt(&mut self, name: Name, address: u8) -> Result<(), BuildError>
        ensures answer { RefusesExactly (interrupt_refusal (builder_contents self.old) (name_bytes name)) result }
        ensures added { OnOk result (builder_contents self.new ≡
            with_interrupt (builder_contents self.old) (name_bytes name) (address % 128)) }
        ensures unchanged { OnErr result (builder_contents self.new ≡ builder_contents self.old) }
    {
        match self.interrupt_refusal(&name) {
            Some(refusal) => Err(refusal),
            None => {
                self.add_interrupt(name, address)?;
                Ok(())
            }
        }
    }

    /// Adds an interrupt that is not refused, as `interrupt` does, without asking again.
    ///
    /// # Errors
    ///
    /// Where an allocation fails. The builder is then as it was.
    pub fn add_interrupt(&mut self, name: Name, address: u8) -> Result<(), AllocError>
        requires { interrupt_refusal (builder_contents self.old) (name_bytes name) ≡ None }
        ensures added { OnOk result (builder_contents self.new ≡
            with_interrupt (builder_contents self.old) (name_bytes name) (address % 128)) }
        ensures unchanged { OnErr result (builder_contents self.new ≡ builder_contents self.old) }
    {
        let interrupt = Participant::Interrupt(self.plan.interrupts());
        let participants = copied_with(self.alloc, &self.plan.participants, interrupt)?;
        let pairs = PairTable::new(self.alloc, &participants, &self.plan.nevers)?;
        let plan = &mut self.plan;
        push_entry(&mut plan.interrupts, name, address % 128)?;
        plan.participants = participants;
        plan.pairs = pairs;
        Ok(())
    }

    /// Why an interrupt of this name would be refused, whatever its address: `Twice` where an interrupt has this name,
    /// then `TooMany` where there are 32 interrupts. It takes no memory and changes nothing.
    #[tactic(auto, unfolding(crate::specs::BuilderContents::builder_contents, crate::specs::Building::interrupt_refusal))]
    pub fn interrupt_refusal(&self, name: &Name) -> Option<BuildError>
        ensures { result ≡ interrupt_refusal (builder_contents self.now) (name_bytes name.now) }
    {
        if self.interrupt_number(name).is_some() {
            Some(BuildError::Twice)
        } else if self.plan.interrupts() >= MOST_INTERRUPTS {
            Some(BuildError::TooMany)
        } else {
            None
        }
    }

    /// Adds that these two controllers never start together.
    ///
    /// # Errors
    ///
    /// `Unknown` where no controller has the name `first`, then `Twice` where the names are equal, then `Unknown` where
    /// no controller has the name `second`, then `Twice` where the two stand together already, in either order, then
    /// `NoMemory`.
    pub fn never(&mut self, first: &Name, second: &Name) -> Result<(), BuildError>
        ensures answer { RefusesExactly (never_refusal (builder_contents self.old) (name_bytes first.now)
            (name_bytes second.now)) result }
        ensures added { OnOk result (builder_contents self.new ≡
            with_never (builder_contents self.old) (name_bytes first.now) (name_bytes second.now)) }
        ensures unchanged { OnErr result (builder_contents self.new ≡ builder_contents self.old) }
    {
        match self.never_refusal(first, second) {
            Some(refusal) => Err(refusal),
            None => {
                self.add_never(first, second)?;
                Ok(())
            }
        }
    }

    /// Adds a `never` that is not refused, as `never` does, without asking again.
    ///
    /// # Errors
    ///
    /// Where an allocation fails. The builder is then as it was.
    pub fn add_never(&mut self, first: &Name, second: &Name) -> Result<(), AllocError>
        requires { never_refusal (builder_contents self.old) (name_bytes first.now) (name_bytes second.now) ≡ None }
        ensures added { OnOk result (builder_contents self.new ≡
            with_never (builder_contents self.old) (name_bytes first.now) (name_bytes second.now)) }
        ensures unchanged { OnErr result (builder_contents self.new ≡ builder_contents self.old) }
    {
        let c = self.controller_number(first).unwrap();
        let d = self.controller_number(second).unwrap();
        let nevers = copied_with(self.alloc, &self.plan.nevers, (c, d))?;
        let pairs = PairTable::new(self.alloc, &self.plan.participants, &nevers)?;
        let plan = &mut self.plan;
        plan.nevers = nevers;
        plan.pairs = pairs;
        Ok(())
    }

    /// Why a `never` of these two would be refused: `Unknown` where no controller has the name `first`, then `Twice` where
    /// the names are equal, then `Unknown` where no controller has the name `second`, then `Twice` where the two stand
    /// together already, in either order. It takes no memory and changes nothing.
    #[tactic(auto, unfolding(crate::specs::BuilderContents::builder_contents, crate::specs::PlanContents::plan_contents, crate::specs::Parts::contents_of, crate::specs::Building::never_refusal))]
    pub fn never_refusal(&self, first: &Name, second: &Name) -> Option<BuildError>
        ensures { result ≡ never_refusal (builder_contents self.now) (name_bytes first.now) (name_bytes second.now) }
    {
        match self.controller_number(first) {
            None => Some(BuildError::Unknown),
            Some(_) if first == second => Some(BuildError::Twice),
            Some(c) => match self.controller_number(second) {
                None => Some(BuildError::Unknown),
                Some(d) if is_never(&self.plan.nevers, c, d) => Some(BuildError::Twice),
                Some(_) => None,
            },
        }
    }

    /// The plan. It takes no memory.
    pub fn finish(self) -> Plan
        ensures { plan_contents result ≡ builder_contents self }
    {
        self.plan
    }

    #[tactic(auto, using(crate::proofs::EntryLemmas::names_of_messages), unfolding(crate::specs::BuilderContents::builder_contents, crate::specs::PlanContents::plan_contents, crate::specs::Parts::contents_of))]
    fn message_number(&self, name: &Name) -> Option<u32>
        ensures { result ≡ number_of (name_bytes name.now) (builder_contents self.now).messages }
    {
        index_of(&self.plan.messages, name)
    }

    #[tactic(auto, using(crate::proofs::EntryLemmas::names_of_controllers), unfolding(crate::specs::BuilderContents::builder_contents, crate::specs::PlanContents::plan_contents, crate::specs::Parts::contents_of))]
    fn controller_number(&self, name: &Name) -> Option<u32>
        ensures { result ≡ number_of (name_bytes name.now) (builder_contents self.now).controllers }
    {
        index_of(&self.plan.controllers, name)
    }

    #[tactic(auto, using(crate::proofs::EntryLemmas::names_of_interrupts), unfolding(crate::specs::BuilderContents::builder_contents, crate::specs::PlanContents::plan_contents, crate::specs::Parts::contents_of))]
    fn interrupt_number(&self, name: &Name) -> Option<u32>
        ensures { result ≡ number_of (name_bytes name.now) (builder_contents self.now).interrupts }
    {
        index_of(&self.plan.interrupts, name)
    }

    // Why this message is refused, apart from out of memory.
    #[tactic(auto, unfolding(crate::specs::Building::message_refusal, crate::specs::Building::message_name_refusal, crate::specs::Building::size_refusal))]
    fn message_refusal(&self, name: &Name, frame: &Frame) -> Option<BuildError>
        ensures { result ≡ message_refusal (builder_contents self.now) (name_bytes name.now) (frame_tree frame.now) }
    {
        match self.message_name_refusal(name) {
            Some(refusal) => Some(refusal),
            None if frame.room_left(MOST_NODES).is_none() || frame.longest() > MOST_BYTES => {
                Some(BuildError::TooLong)
            }
            None => None,
        }
    }

    // Why this controller is refused, apart from out of memory.
    #[tactic(auto, unfolding(crate::specs::Building::controller_refusal, crate::specs::Building::controller_name_refusal))]
    fn controller_refusal(&self, name: &Name, messages: &[Name]) -> Option<BuildError>
        ensures { result ≡ controller_refusal (builder_contents self.now) (name_bytes name.now)
            (map name_bytes messages.now) }
    {
        match self.controller_name_refusal(name) {
            Some(refusal) => Some(refusal),
            None => self.list_refusal(messages),
        }
    }

    // Why this list of messages is refused, name by name.
    fn list_refusal(&self, messages: &[Name]) -> Option<BuildError>
        ensures { result ≡ list_refusal (builder_contents self.now) [] (map name_bytes messages.now) }
    {
        for (i, name) in messages.iter().enumerate() {
            if let Some(refusal) = self.sending_refusal(&messages[..i], name) {
                return Some(refusal);
            }
        }
        None
    }

    // The number of sendings of all controllers.
    fn sendings(&self) -> usize
        ensures { result ≡ sending_count (builder_contents self.now).controllers }
    {
        self.plan.participants.len() - self.plan.interrupts.len()
    }

    // The numbers of these messages.
    fn numbers_of(&self, messages: &[Name]) -> Result<Vec<u32>, AllocError>
        ensures { IfOk result (λ numbers. numbers.items ≡ numbers_of (builder_contents self.now)
            (map name_bytes messages.now)) }
    {
        let mut numbers = Vec::new(self.alloc);
        for name in messages {
            if let Some(k) = self.message_number(name) {
                numbers.push(k)?;
            }
        }
        Ok(numbers)
    }

    // The participants, with those of a further controller that may send these messages.
    fn participants_with(&self, messages: &[u32]) -> Result<Vec<Participant>, AllocError>
        ensures { IfOk result (λ participants. (name : List ℕ) →
            participants.items ≡ participants_of (with_sender (builder_contents self.now) name messages.now)) }
    {
        let sendings = self.sendings();
        let mut participants = Vec::from_slice(self.alloc, &self.plan.participants[..sendings])?;
        push_sendings(&mut participants, self.plan.controllers(), messages)?;
        push_interrupts(&mut participants, self.plan.interrupts())?;
        Ok(participants)
    }
}

impl From<AllocError> for BuildError {
    ghost from_gives = { λ _ e. e ≡ NoMemory };

    fn from(_error: AllocError) -> BuildError {
        BuildError::NoMemory
    }
}

// The number of the entry with this name.
fn index_of<V>(entries: &IndexMap<Name, V>, name: &Name) -> Option<u32>
    requires { index_map_len entries.now ≤ MOST_MESSAGES }
    ensures { result ≡ position (bytes_eq (name_bytes name.now)) (map name_bytes (keys entries.now)) }
{
    match entries.get_index_of(name) {
        Some(k) => Some(k as u32),
        None => None,
    }
}

// The entry goes after the others.
fn push_entry<V: Drop>(
    entries: &mut IndexMap<Name, V>,
    name: Name,
    value: V,
) -> Result<(), AllocError>
    requires { position (bytes_eq (name_bytes name)) (map name_bytes (keys entries.old)) ≡ None }
    ensures added { OnOk result (entries.new.entries ≡ entries.old.entries ++ (name, value) ∷ []) }
    ensures unchanged { OnErr result (entries.new.entries ≡ entries.old.entries) }
{
    entries.insert(name, value)?;
    Ok(())
}

// The controller's sendings go after the others.
fn push_sendings(
    participants: &mut Vec<Participant>,
    controller: u32,
    messages: &[u32],
) -> Result<(), AllocError>
    ensures { OnOk result (participants.new.items ≡ participants.old.items ++ map (Sending controller) messages.now) }
{
    for message in messages {
        participants.push(Participant::Sending {
            controller,
            message: *message,
        })?;
    }
    Ok(())
}

// The first `n` interrupts go after the others.
fn push_interrupts(participants: &mut Vec<Participant>, n: u32) -> Result<(), AllocError>
    ensures { OnOk result (participants.new.items ≡ participants.old.items ++ map Interrupt (range_with_len 0 n)) }
{
    for k in 0..n {
        participants.push(Participant::Interrupt(k))?;
    }
    Ok(())
}

// These items and one more.
fn copied_with<T: Copy>(alloc: Global, items: &[T], item: T) -> Result<Vec<T>, AllocError>
    ensures { IfOk result (λ copied. copied.items ≡ items.now ++ item ∷ []) }
{
    let mut copied = Vec::from_slice(alloc, items)?;
    copied.push(item)?;
    Ok(copied)
}
