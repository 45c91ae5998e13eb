// Which names count as known because an item that was refused would have given them, and what follows from that.

use crate::naming::Named;
use crate::passing::{Gives, PassedOver};
use message_tree::Address;
use origins::{Kind, halves};
use plan_text::{Expected, Place, PlanError};
use std::alloc::{AllocError, Global};
use std::mem;

/// A name that a refused item would have given.
#[derive(Clone, Copy)]
struct PassedName<'a> {
    // to what, where its first word says so
    kind: Option<Kind>,
    name: &'a [u8],
    // whether something of this name stands on the board in its place
    stands: bool,
}

/// The names that refused items would have given.
#[derive(Drop)]
pub(crate) struct Passed<'a> {
    names: Vec<PassedName<'a>>,
    // whether there are others, of which nothing is known, or groups
    has_others: bool,
    has_groups: bool,
    told: Limits,
}

/// Which limits are told that are passed. One is told once.
#[derive(Clone, Copy)]
struct Limits {
    messages: bool,
    controllers: bool,
    interrupts: bool,
    sendings: bool,
}

/// The refusal of a token of an item that is passed over.
#[derive(Clone, Copy)]
pub(crate) struct Wrong<'a> {
    pub(crate) error: PlanError,
    pub(crate) place: Place,
    /// The token.
    pub(crate) word: &'a [u8],
    pub(crate) over: PassedOver<'a>,
    /// Whether the item began with what may be a name that was meant for the item before.
    pub(crate) may_be_name: bool,
}

impl<'a> Passed<'a> {
    /// None.
    pub(crate) fn new(alloc: Global) -> Passed<'a> {
        Passed {
            names: Vec::new(alloc),
            has_others: false,
            has_groups: false,
            told: Limits {
                messages: false,
                controllers: false,
                interrupts: false,
                sendings: false,
            },
        }
    }

    /// A further one, where there is a name, which stands on the board or not.
    pub(crate) fn add(
        &mut self,
        kind: Option<Kind>,
        name: &'a [u8],
        stands: bool,
    ) -> Result<(), AllocError> {
        if !name.is_empty() {
            self.names.push(PassedName { kind, name, stands })?;
        }
        Ok(())
    }

    /// And others, which are not known.
    pub(crate) fn add_others(&mut self) {
        self.has_others = true;
    }

    /// And a group: what messages make by it is not known.
    pub(crate) fn add_group(&mut self) {
        self.has_groups = true;
    }

    /// Whether a refusal follows from what was passed over, or from one that was told. Messages make names by devices.
    pub(crate) fn explains(&mut self, wrong: &Wrong<'_>, devices: &Named<Address>) -> bool {
        match wrong.error {
            PlanError::Unknown(_) => self.has_others || self.has_unknown(wrong, devices),
            PlanError::Twice(_) => self.has_twice(wrong, devices),
            PlanError::TooMany(_) => self.has_limit(wrong),
            PlanError::Unexpected(_) => { wrong.may_be_name && is_for_a_name(wrong.place.expected) }
            _ => false,
        }
    }

    // ---- P8

    fn has_unknown(&self, wrong: &Wrong<'_>, devices: &Named<Address>) -> bool {
        let word = wrong.word;
        match wrong.place.expected {
            Some(Expected::Sending) => self.has_message(word, devices),
            Some(Expected::Target | Expected::KnownTarget | Expected::Device { .. }) => {
                self.has(Kind::Device, word)
            }
            Some(Expected::Party) => match halves(word) {
                Some((controller, label)) => {
                    self.has(Kind::Controller, controller) || self.has_message(label, devices)
                }
                None => self.has(Kind::Controller, word),
            },
            Some(Expected::Name(kind)) => self.has(kind, word),
            Some(Expected::Controller) => self.has(Kind::Controller, word),
            _ => self.has(Kind::Byte, word),
        }
    }

    // Whether one of this kind would have had this name.
    fn has(&self, kind: Kind, word: &[u8]) -> bool {
        for one in self.names.iter() {
            if is_of(one.kind, kind) && one.name == word {
                return true;
            }
        }
        false
    }

    // Whether a message would have had this name, or would have made it.
    fn has_message(&self, word: &[u8], devices: &Named<Address>) -> bool {
        if self.has_groups && word.contains(&b'_') {
            return true;
        }
        for one in self.names.iter() {
            if is_of(one.kind, Kind::Message)
                && (one.name == word || is_made(one.name, word, devices))
            {
                return true;
            }
        }
        false
    }

    // ---- P7

    // Whether what stands already stands there only in the place of what was passed over.
    fn has_twice(&self, wrong: &Wrong<'_>, devices: &Named<Address>) -> bool {
        for one in self.names.iter() {
            if one.stands && is_twice(wrong, one.kind, one.name, devices) {
                return true;
            }
        }
        false
    }

    // ---- P6

    // Whether the same limit was told before.
    fn has_limit(&mut self, wrong: &Wrong<'_>) -> bool {
        let told = &mut self.told;
        let limit = match (wrong.place.expected, wrong.over.gives) {
            (Some(Expected::Sending), _) => &mut told.sendings,
            (_, Gives::One(Kind::Message)) => &mut told.messages,
            (_, Gives::One(Kind::Interrupt)) => &mut told.interrupts,
            _ => &mut told.controllers,
        };
        mem::replace(limit, true)
    }
}

// Whether an item has its name there, or that of the controller to which it adds.
fn is_for_a_name(expected: Option<Expected>) -> bool {
    matches!(expected, Some(Expected::Name(_) | Expected::Controller))
}

// Whether this is refused because one of this kind has this name.
fn is_twice(wrong: &Wrong<'_>, kind: Option<Kind>, name: &[u8], devices: &Named<Address>) -> bool {
    match (wrong.place.expected, wrong.over.gives) {
        (Some(Expected::Name(given)), _) => kind == Some(given) && name == wrong.word,
        (Some(Expected::Party), _) => {
            kind == Some(Kind::Controller) && is_part(wrong.word, name)
        }
        // (of a family)
        (_, Gives::One(Kind::Message)) => {
            kind == Some(Kind::Message) && is_made(wrong.over.second, name, devices)
        }
        _ => false,
    }
}

// Whether something of which this much is known is of a kind.
fn is_of(known: Option<Kind>, kind: Kind) -> bool {
    match known {
        Some(other) => other == kind,
        None => true,
    }
}

// Whether a message of this name may make that one: by a number, by a device, or by both.
fn is_made(message: &[u8], name: &[u8], devices: &Named<Address>) -> bool {
    match after(message, name) {
        Some(rest) => is_number(rest) || devices.has_front_of(rest),
        None => false,
    }
}

/// Whether these are digits.
pub(crate) fn is_number(text: &[u8]) -> bool {
    !text.is_empty() && text.iter().all(u8::is_ascii_digit)
}

// Whether the part that a label makes has this name.
fn is_part(label: &[u8], name: &[u8]) -> bool {
    match halves(label) {
        Some((controller, message)) => after(controller, name) == Some(message),
        None => false,
    }
}

/// What stands in a name after this one and `_`.
pub(crate) fn after<'n>(front: &[u8], name: &'n [u8]) -> Option<&'n [u8]> {
    name.strip_prefix(front)?.strip_prefix(b"_")
}
