//! Where what stands in a plan comes from: for people, who know the briefs and not the plan. These are values alone, so
//! who only speaks of texts does not stand on what reads them. No clause speaks of them.
//!
//! `Origins` says of what a plan has where that stands. `spans` has all items of the texts, and the names in them, each
//! with its bytes; `recording` finds them among the tokens that a reader takes, and `texts` says what they are the names
//! of, and which names a family or a label makes.
#![tactic(auto)]

mod recording;
mod spans;
mod texts;

use message_tree::{Address, Pattern};
use plan_core::Name;
pub use recording::{Part, TokenAt};
pub use spans::{Head, Item, ItemKind, Kind, Language, NameAt, Role, Span, Spans};
pub use texts::{NamedTexts, halves, has_member};

/// A place in briefs.
#[derive(Clone, Copy, PartialEq, Eq, Drop)]
pub struct Spot {
    /// The number of the brief, from 0 on.
    pub file: u32,
    /// The line in it, from 1 on.
    pub line: u64,
}

/// What a controller of a plan is in the briefs: a controller, or what one of its labels stands for.
#[derive(Drop)]
pub struct ControllerOrigin {
    /// The controller.
    pub controller: Name,
    /// The label of the part, as `set` in `bmc/set`; nothing where it is the controller itself, or what is left of it.
    pub label: Option<Name>,
    /// Where the controller stands.
    pub spot: Spot,
}

/// A family of briefs.
#[derive(Drop)]
pub struct FamilyOrigin {
    pub name: Name,
    /// The messages that it makes, as the plan names them.
    pub messages: Vec<Name>,
}

/// A device of briefs.
#[derive(Drop)]
pub struct Device {
    pub name: Name,
    pub address: Address,
    /// Where it stands.
    pub spot: Spot,
    /// Whether a message or an interrupt names it.
    pub is_used: bool,
}

/// A data byte of briefs that has a name.
#[derive(Drop)]
pub struct NamedByte {
    pub name: Name,
    pub bits: Pattern,
    /// Where it stands.
    pub spot: Spot,
    /// Whether a message names it.
    pub is_used: bool,
}

/// Where the controllers, the messages and the interrupts of a plan come from, by their numbers in the plan.
pub struct Origins {
    pub controllers: Vec<ControllerOrigin>,
    /// Where each message stands. Those of a family stand where the family stands.
    pub messages: Vec<Spot>,
    /// Where each interrupt stands.
    pub interrupts: Vec<Spot>,
    /// The families, in the order of the briefs.
    pub families: Vec<FamilyOrigin>,
    /// The devices and the data bytes with names, in the order of the briefs.
    pub devices: Vec<Device>,
    pub bytes: Vec<NamedByte>,
}

// Written out, so that one call lets it go.
impl Drop for Origins {
    fn drop(self) {
        let Self {
            controllers: _,
            messages: _,
            interrupts: _,
            families: _,
            devices: _,
            bytes: _,
        } = self;
    }
}
