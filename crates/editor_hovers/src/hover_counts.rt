// Whom what is said of a plan speaks of: which of its participants, and in how many pairs they are.

use crate::hover_words::{end_list, push_counted, push_listed};
use growing_text::Text;
use origins::{FamilyOrigin, ItemKind, NameAt, NamedTexts, Origins, Role};
use plan_words::PlanWords;
use remedies::{both_of, controller_of, name_of};
use std::alloc::{AllocError, Global};
use verdicts::Checked;

/// A side of a `never`: a controller, or what one sends.
#[derive(Clone, Copy)]
pub(crate) struct Side<'a> {
    pub(crate) controller: &'a [u8],
    pub(crate) label: Option<&'a [u8]>,
}

/// The sides that the item with this number names, where it is a `never`.
pub(crate) fn sides_in<'a>(names: &NamedTexts<'a>, item: usize) -> Option<(Side<'a>, Side<'a>)> {
    let (mut first, mut second) = (None, None);
    for at in names.names() {
        if at.item == item && is_in_never(names, *at) {
            let word = names.word(*at);
            if at.role == Role::Label {
                second = with_label(second, word);
            } else {
                first = second;
                second = Some(Side {
                    controller: word,
                    label: None,
                });
            }
        }
    }
    Some((first?, second?))
}

fn with_label<'a>(side: Option<Side<'a>>, label: &'a [u8]) -> Option<Side<'a>> {
    let Side { controller, .. } = side?;
    Some(Side {
        controller,
        label: Some(label),
    })
}

/// Whether a name stands in a `never`.
pub(crate) fn is_in_never(names: &NamedTexts<'_>, at: NameAt) -> bool {
    match names.item(at) {
        Some(item) => item.kind == ItemKind::Never,
        None => false,
    }
}

/// Some of the participants of a plan.
#[derive(Drop)]
pub(crate) struct Senders {
    // by the number of the participant: whether it is one of them
    are: Vec<bool>,
}

impl Senders {
    /// Those that send these messages.
    ///
    /// # Errors
    ///
    /// Where an allocation fails.
    pub(crate) fn of_messages(
        alloc: Global,
        words: PlanWords<'_>,
        messages: &[u32],
    ) -> Result<Senders, AllocError> {
        let mut are = Vec::new(alloc);
        for p in 0..words.plan().participants() {
            are.push(match words.message_of(p) {
                Some(message) => messages.contains(&message),
                None => false,
            })?;
        }
        Ok(Senders { are })
    }

    /// Those whom a side of a `never` means, in a plan that has this origin.
    ///
    /// # Errors
    ///
    /// Where an allocation fails.
    pub(crate) fn of_side(
        alloc: Global,
        words: PlanWords<'_>,
        origins: Option<&Origins>,
        side: Side<'_>,
    ) -> Result<Senders, AllocError> {
        let mut are = Vec::new(alloc);
        for p in 0..words.plan().participants() {
            are.push(is_of(words, origins, side, p))?;
        }
        Ok(Senders { are })
    }

    /// This participant alone.
    ///
    /// # Errors
    ///
    /// Where an allocation fails.
    pub(crate) fn one(alloc: Global, words: PlanWords<'_>, p: u32) -> Result<Senders, AllocError> {
        let mut are = Vec::new(alloc);
        for other in 0..words.plan().participants() {
            are.push(other == p)?;
        }
        Ok(Senders { are })
    }

    /// Whether this participant is one of them.
    pub(crate) fn has(&self, p: u32) -> bool {
        match self.are.get(p as usize) {
            Some(is) => *is,
            None => false,
        }
    }

    /// The first one.
    pub(crate) fn first(&self) -> Option<usize> {
        self.are.iter().position(|is| *is)
    }

    /// How many they are.
    pub(crate) fn count(&self) -> u64 {
        let mut count = 0u64;
        for is in self.are.iter() {
            if *is {
                count = count.saturating_add(1);
            }
        }
        count
    }

    /// Adds the names of the messages that they send.
    pub(crate) fn push_messages(&self, text: &mut Text, words: PlanWords<'_>) {
        let plan = words.plan();
        let mut count = 0usize;
        for p in 0..plan.participants() {
            if self.has(p) {
                if let Some(message) = words.message_of(p) {
                    push_listed(text, count, name_of(plan, message).as_bytes());
                    count = count.saturating_add(1);
                }
            }
        }
        end_list(text, count);
    }
}

// Whether a side means this participant.
fn is_of(words: PlanWords<'_>, origins: Option<&Origins>, side: Side<'_>, p: u32) -> bool {
    let plan = words.plan();
    let (Some(controller), Some(message)) = (controller_of(plan, p), words.message_of(p)) else {
        return false;
    };
    if words.name(controller).as_bytes() != side.controller {
        return false;
    }
    match side.label {
        Some(label) => is_labelled(origins, label, name_of(plan, message)),
        None => true,
    }
}

// Whether a label means the message of this name: it has that itself, or the name of a family that makes it.
fn is_labelled(origins: Option<&Origins>, label: &[u8], name: &str) -> bool {
    if name.as_bytes() == label {
        return true;
    }
    let Some(origins) = origins else {
        return false;
    };
    for family in origins.families.iter() {
        if family.name.as_str().as_bytes() == label && has_message(family, name) {
            return true;
        }
    }
    false
}

fn has_message(family: &FamilyOrigin, name: &str) -> bool {
    family
        .messages
        .iter()
        .any(|message| message.as_str() == name)
}

/// In how many pairs some participants are, and how many of these are unsafe.
#[derive(Clone, Copy)]
pub(crate) struct Tally {
    pub(crate) pairs: u64,
    pub(crate) unsafe_pairs: u64,
}

/// In how many pairs these are. One in which both are of them counts once.
pub(crate) fn tally_of(checked: &Checked, senders: &Senders) -> Tally {
    let Checked { plan, faults } = checked;
    let mut tally = Tally {
        pairs: 0,
        unsafe_pairs: 0,
    };
    for pair in 0..plan.pair_count() {
        if is_one_of(both_of(plan, pair), senders) {
            tally.pairs = tally.pairs.saturating_add(1);
        }
    }
    for k in 0..faults.len() {
        let (pair, _) = faults.get(k);
        if is_one_of(both_of(plan, pair), senders) {
            tally.unsafe_pairs = tally.unsafe_pairs.saturating_add(1);
        }
    }
    tally
}

/// Whether one of two is one of these.
pub(crate) fn is_one_of(both: (u32, u32), senders: &Senders) -> bool {
    senders.has(both.0) || senders.has(both.1)
}

/// Adds in how many pairs they are.
pub(crate) fn push_tally(text: &mut Text, tally: Tally) {
    let Tally {
        pairs,
        unsafe_pairs,
    } = tally;
    if pairs == 0 {
        return text.push("in no pair");
    }
    text.push("in ");
    push_counted(text, pairs, "pair", "pairs");
    if unsafe_pairs == 0 {
        text.push(", none unsafe");
    } else {
        text.push(", ");
        text.push_number(unsafe_pairs);
        text.push(" unsafe");
    }
}
