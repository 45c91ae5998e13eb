// The names of messages.

use crate::before::BriefBefore;
use crate::families::Item;
use crate::paths::Sent;
use crate::trees::{After, Tree};
use growing_text::Text;
use std::alloc::{AllocError, Global};

/// The name of a message: its first two headers with the register of a write, which of the messages with these it is, and whether
/// it is a family.
#[derive(Clone, Copy)]
pub(crate) struct Name {
    base: Base,
    number: u64,
    is_family: bool,
}

// The first two headers of a message, and the register of the first one that is a write.
#[derive(Clone, Copy, PartialEq, Eq)]
struct Base {
    first: Option<Sent>,
    second: Option<Sent>,
    register: Option<u8>,
}

impl Name {
    /// It as a word. The first message with these headers has no number.
    pub(crate) fn word(&self, alloc: Global) -> Result<String, AllocError> {
        self.text(alloc).finish()
    }

    fn text(&self, alloc: Global) -> Text {
        let mut text = Text::new(alloc);
        self.base.push(&mut text);
        if self.number > 1 {
            text.push("_");
            text.push_number(self.number);
        }
        if self.is_family {
            text.push("_any");
        }
        text
    }

    // The name of the message of this length, where it is a family.
    fn member(&self, alloc: Global, length: u64) -> Result<String, AllocError> {
        let mut text = self.text(alloc);
        text.push("_");
        text.push_number(length);
        text.finish()
    }
}

impl Base {
    fn push(self, text: &mut Text) {
        match (self.first, self.second, self.register) {
            (Some(Sent::Write(to)), Some(Sent::Read(from, _)), Some(register)) if to == from => {
                text.push("read_");
                push_target(text, to, Some(register));
            }
            (first, second, register) if is_write(first) => {
                push_header(text, "", first, register);
                push_header(text, "_", second, None);
            }
            (first, second, register) => {
                push_header(text, "", first, None);
                push_header(text, "_", second, register);
            }
        }
    }
}

fn push_header(text: &mut Text, before: &str, header: Option<Sent>, register: Option<u8>) {
    let (word, address) = match header {
        Some(Sent::Write(address)) => ("write_", address),
        Some(Sent::Read(address, _)) => ("read_", address),
        _ => return,
    };
    text.push(before);
    text.push(word);
    push_target(text, address, register);
}

// An address and a register. After a header of ten-bit addresses the first byte is no register: it has the rest of the address
// (UM10204, 3.1.11).
fn push_target(text: &mut Text, address: u8, register: Option<u8>) {
    match register {
        Some(low) if matches!(address, 0x78..=0x7B) => {
            text.push_number(u64::from(address & 3));
            text.push_hex(low);
        }
        Some(register) => {
            text.push_hex(address);
            text.push("_r");
            text.push_hex(register);
        }
        None => text.push_hex(address),
    }
}

fn is_write(header: Option<Sent>) -> bool {
    matches!(header, Some(Sent::Write(_)))
}

/// A name for each message or family, which nothing in the brief before has.
pub(crate) fn names_of(
    alloc: Global,
    trees: &Vec<Tree>,
    items: &Vec<Item>,
    before: Option<&BriefBefore<'_>>,
) -> Result<Vec<Name>, AllocError> {
    let mut names = Vec::new(alloc);
    for item in items.iter() {
        let mut name = name_of(item, trees, names.as_slice());
        if let Some(before) = before {
            name = free_name(alloc, name, item, before)?;
        }
        names.push(name)?;
    }
    Ok(names)
}

// The name of a message after those with these names.
fn name_of(item: &Item, trees: &Vec<Tree>, names: &[Name]) -> Name {
    let base = base_of(item, trees);
    let mut number = 1u64;
    for name in names {
        if name.base == base {
            number = name.number.saturating_add(1);
        }
    }
    Name {
        base,
        number,
        is_family: item.is_family(),
    }
}

// A brief has fewer names of messages than this.
const MOST_NAMES: u32 = 1_024;

// The name with the next number that is free, also for all messages of a family.
fn free_name(
    alloc: Global,
    mut name: Name,
    item: &Item,
    before: &BriefBefore<'_>,
) -> Result<Name, AllocError> {
    for _ in 0..MOST_NAMES {
        if is_free(alloc, name, item, before)? {
            break;
        }
        name.number = name.number.saturating_add(1);
    }
    Ok(name)
}

fn is_free(
    alloc: Global,
    name: Name,
    item: &Item,
    before: &BriefBefore<'_>,
) -> Result<bool, AllocError> {
    if before.has_message(name.word(alloc)?.as_str()) {
        return Ok(false);
    }
    if name.is_family {
        for length in item.least..=item.most {
            if before.has_message(name.member(alloc, length)?.as_str()) {
                return Ok(false);
            }
        }
    }
    Ok(true)
}

// A family that has two writes is named without a register, so that the names of its messages are short enough.
fn base_of(item: &Item, trees: &Vec<Tree>) -> Base {
    let mut base = Base {
        first: None,
        second: None,
        register: None,
    };
    if let Some(tree) = trees.get(item.written) {
        base = headers_of(tree);
    }
    if item.is_family() && is_write(base.first) && is_write(base.second) {
        base.register = None;
    }
    base
}

// As far as what the message sends is acknowledged.
fn headers_of(tree: &Tree) -> Base {
    let mut base = Base {
        first: None,
        second: None,
        register: None,
    };
    let mut place = 0usize;
    for _ in 0..tree.nodes.len() {
        let Some(node) = tree.nodes.get(place) else {
            break;
        };
        match node.sent {
            Sent::Register(byte) if base.second.is_none() || !is_write(base.first) => {
                base.register = Some(byte);
            }
            Sent::Register(_) | Sent::Data(_) => {}
            header if base.first.is_none() => base.first = Some(without_count(header)),
            header if base.second.is_none() => base.second = Some(without_count(header)),
            _ => break,
        }
        match node.acked {
            After::On(next) => place = next,
            _ => break,
        }
    }
    base
}

// A header, of a read without how many bytes are read.
fn without_count(header: Sent) -> Sent {
    match header {
        Sent::Read(address, _) => Sent::Read(address, None),
        other => other,
    }
}
