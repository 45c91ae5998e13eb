// Names in texts: which they are, where they are given, and what they stand for.

use crate::spans::{Item, ItemKind, Kind, NameAt, Role, Spans};
use std::alloc::{AllocError, Global};

/// Texts, and the names in them.
#[derive(Drop)]
pub struct NamedTexts<'a> {
    spans: &'a Spans,
    texts: Vec<&'a [u8]>,
}

impl<'a> NamedTexts<'a> {
    /// The names of these, whose texts are added in their order.
    ///
    /// # Errors
    ///
    /// Where an allocation had failed for the names.
    pub fn new(alloc: Global, spans: &'a Spans) -> Result<NamedTexts<'a>, AllocError> {
        spans.check()?;
        Ok(NamedTexts {
            spans,
            texts: Vec::new(alloc),
        })
    }

    /// A further text.
    ///
    /// # Errors
    ///
    /// Where an allocation fails.
    pub fn add(&mut self, text: &'a [u8]) -> Result<(), AllocError> {
        self.texts.push(text)?;
        Ok(())
    }

    /// All names.
    pub fn names(&self) -> &'a [NameAt] {
        self.spans.names()
    }

    /// The item in which a name stands.
    pub fn item(&self, at: NameAt) -> Option<Item> {
        self.spans.item(at)
    }

    /// The text of this number.
    pub fn text(&self, file: u32) -> &'a [u8] {
        match self.texts.get(file as usize) {
            Some(text) => *text,
            None => &[],
        }
    }

    /// The bytes of a name.
    pub fn word(&self, at: NameAt) -> &'a [u8] {
        at.span.of(self.text(at.span.file))
    }

    /// What stands after a name that an item gives to a device or a byte.
    pub fn value(&self, at: NameAt) -> &'a [u8] {
        match self.spans.item(at) {
            Some(
                Item {
                    value: Some(value),
                    ..
                },
            ) => value.of(self.text(value.file)),
            _ => &[],
        }
    }

    /// Where what is named so gets its name. Where nothing of this kind has it, a message may be one of a family.
    pub fn definition(&self, kind: Kind, name: &[u8]) -> Option<NameAt> {
        match self.given(kind, name) {
            None if kind == Kind::Message => self.family(name),
            given => given,
        }
    }

    /// Where one of this kind gets this name: it is the first one.
    pub fn given(&self, kind: Kind, name: &[u8]) -> Option<NameAt> {
        for at in self.names() {
            if at.gives(kind) && self.word(*at) == name {
                return Some(*at);
            }
        }
        None
    }

    // Where the family gets its name that makes the message of this one, or a family of it for a device.
    fn family(&self, name: &[u8]) -> Option<NameAt> {
        let mut message: Option<NameAt> = None;
        for at in self.names() {
            if at.gives(Kind::Message) {
                if has_member(self.word(*at), self.range(*at), name) {
                    return Some(*at);
                }
                message = Some(*at);
            } else if let Some(given) = message
                && self.makes_by(given, *at, name)
            {
                return Some(given);
            }
        }
        None
    }

    // Whether a message has the name of a group there, and makes one of this name by that.
    fn makes_by(&self, message: NameAt, used: NameAt, name: &[u8]) -> bool {
        if used.item != message.item || used.kind != Kind::Device {
            return false;
        }
        let Some(rest) = after(self.word(message), name) else {
            return false;
        };
        match self.group(self.word(used)) {
            Some(group) => self.has_device(group, self.range(message), rest),
            None => false,
        }
    }

    /// Where a group gets this name.
    pub fn group(&self, name: &[u8]) -> Option<NameAt> {
        let at = self.given(Kind::Device, name)?;
        self.is_group(at).then_some(at)
    }

    /// Whether a name is given to a group there.
    pub fn is_group(&self, at: NameAt) -> bool {
        match self.spans.item(at) {
            Some(item) => item.kind == ItemKind::Groups && at.role == Role::Given,
            None => false,
        }
    }

    // Whether this is the name of a device of the group, or that and a number of the range.
    fn has_device(&self, group: NameAt, range: &[u8], name: &[u8]) -> bool {
        for at in self.names() {
            let device = self.word(*at);
            if at.item == group.item
                && at.role == Role::Used
                && (device == name || has_member(device, range, name))
            {
                return true;
            }
        }
        false
    }

    /// The range of the message in whose item a name stands. Without one it is no family.
    pub fn range(&self, at: NameAt) -> &'a [u8] {
        match self.spans.item(at) {
            Some(
                Item {
                    range: Some(range),
                    ..
                },
            ) => range.of(self.text(range.file)),
            _ => &[],
        }
    }
}

/// What stands before and after the `/` of a label.
pub fn halves(label: &[u8]) -> Option<(&[u8], &[u8])> {
    let at = label.iter().position(is_slash)?;
    Some((label.get(..at)?, label.get(at.saturating_add(1)..)?))
}

fn is_slash(byte: &u8) -> bool {
    *byte == b'/'
}

/// Whether a family with this range has a message of this name.
pub fn has_member(family: &[u8], range: &[u8], name: &[u8]) -> bool {
    match (range_of(range), number_after(family, name)) {
        (Some((least, greatest)), Some(number)) => least <= number && number <= greatest,
        _ => false,
    }
}

// The numbers of a range.
fn range_of(word: &[u8]) -> Option<(u8, u8)> {
    let (least, greatest) = str::from_utf8(word).ok()?.split_once("..")?;
    Some((least.parse::<u8>().ok()?, greatest.parse::<u8>().ok()?))
}

// What stands in a name after this one and `_`.
fn after<'n>(front: &[u8], name: &'n [u8]) -> Option<&'n [u8]> {
    name.strip_prefix(front)?.strip_prefix(b"_")
}

// The number that stands after the name of a family and `_`, without leading zeros.
fn number_after(family: &[u8], name: &[u8]) -> Option<u8> {
    let digits = after(family, name)?;
    if !digits.iter().all(u8::is_ascii_digit)
        || digits.len() != 1 && digits.first() == Some(&b'0')
    {
        return None;
    }
    str::from_utf8(digits).ok()?.parse::<u8>().ok()
}
