// The names by which a controller may list messages: those of messages, and what a message makes by a range, a choice or a group.

use editor_texts::{group_in, names_of_item, numbers_of};
use origins::{Item, ItemKind, Kind, Language, NameAt, NamedTexts, Role, Spans};
use std::alloc::{AllocError, Global};

/// A name that stands for one message of the plan, or for several.
#[derive(Drop)]
pub(crate) struct Sending {
    pub(crate) name: String,
    /// The number of the one that stands for this one and others.
    pub(crate) parent: Option<usize>,
    /// What it stands for, where that is more than itself: the first and the last.
    pub(crate) ends: Option<Ends>,
}

/// The numbers of the first and the last message for which a name stands.
#[derive(Clone, Copy)]
pub(crate) struct Ends {
    pub(crate) first: usize,
    pub(crate) last: usize,
}

/// What a list has of what a name stands for.
#[derive(Clone, Copy, PartialEq, Eq)]
pub(crate) enum Listed {
    Nothing,
    Some,
    All,
}

// So many are made at most. A plan has 256 messages.
const MOST: usize = 1_024;

/// All of them, in the order of the texts. What a name stands for comes after it.
///
/// # Errors
///
/// Where an allocation fails.
pub(crate) fn all_sendings(
    alloc: Global,
    names: &NamedTexts<'_>,
    spans: &Spans,
) -> Result<Vec<Sending>, AllocError> {
    let mut all = Vec::new(alloc);
    for at in names.names() {
        if all.len() >= MOST {
            break;
        }
        if at.gives(Kind::Message) {
            push_message(alloc, &mut all, names, spans, *at)?;
        }
    }
    Ok(all)
}

// What the message stands for that gets its name there.
fn push_message(
    alloc: Global,
    all: &mut Vec<Sending>,
    names: &NamedTexts<'_>,
    spans: &Spans,
    at: NameAt,
) -> Result<(), AllocError> {
    let name = str::from_utf8(names.word(at)).unwrap_or("");
    let numbers = numbers_of(names, spans, at);
    let own = push(alloc, all, name, None)?;
    let Some(group) = group_in(names, names_of_item(spans, at.item)) else {
        push_numbers(alloc, all, own, name, numbers)?;
        set_ends(all, own);
        return Ok(());
    };
    for device in names_of_item(spans, group.item) {
        if device.role == Role::Used {
            let device = str::from_utf8(names.word(*device)).unwrap_or("");
            let name = format!(in alloc; "{name}_{device}")?;
            let one = push(alloc, all, name.as_str(), Some(own))?;
            push_numbers(alloc, all, one, name.as_str(), numbers)?;
            set_ends(all, one);
        }
    }
    set_ends(all, own);
    Ok(())
}

// One more, and its number.
fn push(
    alloc: Global,
    all: &mut Vec<Sending>,
    name: &str,
    parent: Option<usize>,
) -> Result<usize, AllocError> {
    let number = all.len();
    let sending = Sending {
        name: String::from_str(alloc, name)?,
        parent,
        ends: None,
    };
    match all.push(sending) {
        Ok(()) => Ok(number),
        Err(_) => Err(AllocError),
    }
}

// The messages of a family, by these numbers.
fn push_numbers(
    alloc: Global,
    all: &mut Vec<Sending>,
    parent: usize,
    name: &str,
    numbers: Option<(u32, u32)>,
) -> Result<(), AllocError> {
    let Some((least, greatest)) = numbers else {
        return Ok(());
    };
    for number in least..greatest.saturating_add(1) {
        let name = format!(in alloc; "{name}_{number}")?;
        let _ = push(alloc, all, name.as_str(), Some(parent))?;
    }
    Ok(())
}

// What was made after this one it stands for.
fn set_ends(all: &mut Vec<Sending>, number: usize) {
    let last = all.len().saturating_sub(1);
    let Some(first) = first_message(all.as_slice(), number) else {
        return;
    };
    if let Some(sending) = all.get_mut(number) {
        sending.ends = Some(Ends { first, last });
    }
}

// The first message of the plan after this name, where that is none itself.
fn first_message(all: &[Sending], number: usize) -> Option<usize> {
    let next = number.saturating_add(1);
    let after = all.get(next)?;
    match after.ends {
        Some(ends) => Some(ends.first),
        None => Some(next),
    }
}

// ---- lists

/// The words by which the controller of this name lists messages, here and where it is extended.
///
/// # Errors
///
/// Where an allocation fails.
pub(crate) fn words_listed<'a>(
    alloc: Global,
    names: &NamedTexts<'a>,
    spans: &Spans,
    controller: &[u8],
) -> Result<Vec<&'a [u8]>, AllocError> {
    let mut words = Vec::new(alloc);
    for (number, item) in spans.items().iter().enumerate() {
        if lists_messages(*item) {
            if let Some((name, messages)) = names_of_item(spans, number).split_first() {
                if names.word(*name) == controller {
                    push_words(&mut words, names, messages)?;
                }
            }
        }
    }
    Ok(words)
}

fn push_words<'a>(
    words: &mut Vec<&'a [u8]>,
    names: &NamedTexts<'a>,
    messages: &[NameAt],
) -> Result<(), AllocError> {
    for message in messages {
        if message.kind == Kind::Message && message.role == Role::Used {
            words.push(names.word(*message))?;
        }
    }
    Ok(())
}

fn lists_messages(item: Item) -> bool {
    matches!(
        item.kind,
        ItemKind::Gives(Kind::Controller) | ItemKind::Extends
    )
}

/// What these words list of what each of these names stands for.
///
/// # Errors
///
/// Where an allocation fails.
pub(crate) fn listed_of(
    alloc: Global,
    all: &[Sending],
    words: &[&[u8]],
) -> Result<Vec<Listed>, AllocError> {
    let mut listed = Vec::new(alloc);
    for sending in all {
        let is_whole = has_word(words, sending.name.as_bytes())
            || listed_at(listed.as_slice(), sending.parent) == Listed::All;
        listed.push(if is_whole {
            Listed::All
        } else {
            Listed::Nothing
        })?;
    }
    for (number, sending) in all.iter().enumerate() {
        if listed_at(listed.as_slice(), Some(number)) == Listed::All {
            begin(&mut listed, sending.parent);
            begin(&mut listed, parent_of(all, sending.parent));
        }
    }
    Ok(listed)
}

/// Whether this name is one of these words.
pub(crate) fn has_word(words: &[&[u8]], name: &[u8]) -> bool {
    for word in words {
        if *word == name {
            return true;
        }
    }
    false
}

/// What is listed of the one with this number.
pub(crate) fn listed_at(listed: &[Listed], number: Option<usize>) -> Listed {
    match number {
        Some(number) => listed.get(number).copied().unwrap_or(Listed::Nothing),
        None => Listed::Nothing,
    }
}

fn parent_of(all: &[Sending], number: Option<usize>) -> Option<usize> {
    all.get(number?)?.parent
}

// Some of it is listed, at least.
fn begin(listed: &mut Vec<Listed>, number: Option<usize>) {
    if let Some(number) = number {
        if let Some(one) = listed.get_mut(number) {
            if *one == Listed::Nothing {
                *one = Listed::Some;
            }
        }
    }
}

/// How many messages of the plan are listed.
pub(crate) fn count_listed(all: &[Sending], listed: &[Listed]) -> u64 {
    let mut count = 0u64;
    for (number, sending) in all.iter().enumerate() {
        if sending.ends.is_none() && listed_at(listed, Some(number)) == Listed::All {
            count = count.saturating_add(1);
        }
    }
    count
}
