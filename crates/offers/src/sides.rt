// The two sides of a group: what its participants send, and the items that give that.

use crate::paths::{Sent, Step, header, known_address, path_of, step_at};
use causes::Group;
use edits::{MessageText, Place};
use given_plans::Provenance;
use origins::{Kind, NameAt, NamedTexts, Spans};
use plan_core::{Participant, Plan};
use plan_words::PlanWords;
use remedies::both_of;
use std::alloc::{AllocError, Global};
use verdicts::Faults;

/// The texts that give a plan, and the items of what its participants send: its messages, and then its interrupts, by number.
pub struct Given<'a> {
    plan: &'a Plan,
    spans: &'a Spans,
    names: NamedTexts<'a>,
    senders: Vec<Option<NameAt>>,
}

// Written out, so that one call lets it go.
impl Drop for Given<'_> {
    fn drop(self) {
        let Self {
            plan: _,
            spans: _,
            names: _,
            senders: _,
        } = self;
    }
}

/// An item of a side.
pub struct SideItem<'a> {
    // how many items of the texts stand before it
    number: usize,
    pub name: String,
    /// The number of the interrupt, where it is one.
    pub interrupt: Option<u32>,
    /// Whether it makes one message of the plan, and no other.
    pub is_alone: bool,
    pub text: MessageText<'a>,
    /// What it sends on this side, one at least.
    pub paths: Vec<Sending>,
}

// Written out, so that one call lets it go.
impl Drop for SideItem<'_> {
    fn drop(self) {
        let Self {
            number: _,
            name: _,
            interrupt: _,
            is_alone: _,
            text: _,
            paths: _,
        } = self;
    }
}

// A message or an interrupt by its number, and its path.
type Sending = (u32, Vec<Step>);

/// The items of the two sides of a group.
#[derive(Drop)]
pub struct BothSides<'a> {
    pub first: Vec<SideItem<'a>>,
    pub second: Vec<SideItem<'a>>,
}

impl<'a> Given<'a> {
    /// Those of the plan that has these words.
    pub fn new(
        alloc: Global,
        words: PlanWords<'a>,
        provenance: &'a Provenance,
    ) -> Result<Given<'a>, AllocError> {
        let mut names = NamedTexts::new(alloc, &provenance.spans)?;
        for text in provenance.texts.iter() {
            names.add(text.as_slice())?;
        }
        let senders = senders_in(alloc, words, &names)?;
        Ok(Given {
            plan: words.plan(),
            spans: &provenance.spans,
            names,
            senders,
        })
    }

    /// The sides of a group, of which these are the numbers and the places among the faults: the first is that of the first participant
    /// of its example. None where an item stands on both.
    pub fn sides(
        &self,
        alloc: Global,
        faults: &Faults,
        group: Group,
        members: &[(usize, usize)],
    ) -> Result<Option<BothSides<'a>>, AllocError> {
        if faults.len() <= group.example {
            return Ok(None);
        }
        let (_, example) = faults.get(group.example);
        let mut sides = BothSides {
            first: Vec::new(alloc),
            second: Vec::new(alloc),
        };
        for (_, k) in members {
            if *k < faults.len() {
                let (pair, fault) = faults.get(*k);
                let (x, y) = both_of(self.plan, pair);
                let is_in_order = fault.first == example.first;
                let (x, y) = if is_in_order { (x, y) } else { (y, x) };
                self.push_sender(alloc, &mut sides.first, x)?;
                self.push_sender(alloc, &mut sides.second, y)?;
            }
        }
        Ok(if sides.are_apart() { Some(sides) } else { None })
    }

    // Adds what a participant sends, if it is new.
    fn push_sender(
        &self,
        alloc: Global,
        items: &mut Vec<SideItem<'a>>,
        p: u32,
    ) -> Result<(), AllocError> {
        let sender = sender_of(self.plan, p);
        match self.senders.get(sender as usize) {
            Some(Some(name)) if !has_sender(items, sender) => {
                let path = self.path_of(alloc, sender)?;
                self.push_path(alloc, items, *name, (sender, path))
            }
            _ => Ok(()),
        }
    }

    // Adds what an item sends, and the item, if it is a new one.
    fn push_path(
        &self,
        alloc: Global,
        items: &mut Vec<SideItem<'a>>,
        name: NameAt,
        path: Sending,
    ) -> Result<(), AllocError> {
        for item in items.iter_mut() {
            if item.number == name.item {
                item.paths.push(path)?;
                return Ok(());
            }
        }
        let (sender, _) = path;
        let mut paths = Vec::new(alloc);
        paths.push(path)?;
        items.push(SideItem {
            number: name.item,
            name: String::from_utf8_lossy(alloc, self.names.word(name))?,
            interrupt: sender.checked_sub(self.plan.messages()),
            is_alone: self.makes_one(name),
            text: MessageText::read(alloc, &self.names, self.spans, name)?,
            paths,
        })?;
        Ok(())
    }

    fn path_of(&self, alloc: Global, sender: u32) -> Result<Vec<Step>, AllocError> {
        let messages = self.plan.messages();
        if sender < messages {
            return path_of(alloc, self.plan.message(sender));
        }
        let mut path = Vec::new(alloc);
        let interrupt = sender.saturating_sub(messages);
        if interrupt < self.plan.interrupts() {
            let address = known_address(self.plan.interrupt_address(interrupt));
            path.push(header(0, Sent::Header, address))?;
        }
        Ok(path)
    }

    fn makes_one(&self, name: NameAt) -> bool {
        let mut made = 0u32;
        for other in self.senders.iter() {
            if matches!(other, Some(other) if other.item == name.item) {
                made = made.saturating_add(1);
            }
        }
        made == 1
    }
}

impl BothSides<'_> {
    // Whether each side has an item, and none stands on both.
    fn are_apart(&self) -> bool {
        for one in self.first.iter() {
            for other in self.second.iter() {
                if one.number == other.number {
                    return false;
                }
            }
        }
        !self.first.is_empty() && !self.second.is_empty()
    }
}

/// The bits that are open, 0 and 1 in all on a side, and the first one that is sent.
#[derive(Clone, Copy)]
pub struct Common {
    pub open: u8,
    pub zeros: u8,
    pub ones: u8,
    pub first: u8,
}

/// What all on a side have in a place. None where not all have it.
pub fn common_at(side: &[SideItem<'_>], place: Place) -> Option<Common> {
    let mut common = Common {
        open: u8::MAX,
        zeros: u8::MAX,
        ones: u8::MAX,
        first: 0,
    };
    for item in side {
        for (_, path) in item.paths.iter() {
            let bits = step_at(path.as_slice(), place)?.bits;
            common = Common {
                open: common.open & bits.open,
                zeros: common.zeros & bits.zeros(),
                ones: common.ones & bits.ones,
                first: bits.first,
            };
        }
    }
    Some(common)
}

// The number of what a participant sends.
fn sender_of(plan: &Plan, p: u32) -> u32 {
    if plan.participants() <= p {
        return u32::MAX;
    }
    match plan.participant(p) {
        Participant::Sending { message, .. } => message,
        Participant::Interrupt(k) => plan.messages().saturating_add(k),
    }
}

fn has_sender(items: &[SideItem<'_>], sender: u32) -> bool {
    for item in items {
        for (known, _) in item.paths.iter() {
            if *known == sender {
                return true;
            }
        }
    }
    false
}

// The item of each message, by the name that it gives, and of each interrupt.
fn senders_in(
    alloc: Global,
    words: PlanWords<'_>,
    names: &NamedTexts<'_>,
) -> Result<Vec<Option<NameAt>>, AllocError> {
    let plan = words.plan();
    let mut found = Vec::new(alloc);
    for m in 0..plan.messages() {
        let name = words.message_name(m).as_bytes();
        found.push(names.definition(Kind::Message, name))?;
    }
    for k in 0..plan.interrupts() {
        let name = plan.interrupt_name(k).as_str().as_bytes();
        found.push(names.given(Kind::Interrupt, name))?;
    }
    Ok(found)
}
