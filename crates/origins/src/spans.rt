// What stands in texts: their items, and the names in these, each with its bytes.

use crate::recording::Open;
use std::alloc::{AllocError, Global};

/// The two languages in which people write plans.
#[derive(Clone, Copy, PartialEq, Eq)]
pub enum Language {
    Plan,
    Brief,
}

/// What a text begins with.
#[derive(Clone, Copy, PartialEq, Eq)]
pub struct Head {
    pub language: Language,
    pub version: u8,
}

/// What a name is given to.
#[derive(Clone, Copy, PartialEq, Eq)]
pub enum Kind {
    Message,
    Controller,
    Interrupt,
    /// Of a brief.
    Device,
    /// A data byte of a brief.
    Byte,
}

/// What an item does.
#[derive(Clone, Copy, PartialEq, Eq)]
pub enum ItemKind {
    /// It gives a name to this.
    Gives(Kind),
    /// It adds to a controller that has its name from another one.
    Extends,
    /// It gives a name to a group of devices, which stands wherever a device does.
    Groups,
    /// It names two sides.
    Never,
}

/// Bytes of one of the texts that give a plan, of this number from 0 on: from so many bytes on, up to so many.
#[derive(Clone, Copy, PartialEq, Eq)]
pub struct Span {
    pub file: u32,
    pub start: usize,
    pub end: usize,
}

impl Span {
    /// The bytes, where this is their text.
    pub fn of(self, text: &[u8]) -> &[u8] {
        text.get(self.start..self.end).unwrap_or(&[])
    }
}

/// An item.
#[derive(Clone, Copy)]
pub struct Item {
    pub kind: ItemKind,
    /// From its first word up to its `;`, or up to its last token where it has none.
    pub span: Span,
    /// What stands after the name of a device or a byte.
    pub value: Option<Span>,
    /// The range of a message, which makes it a family.
    pub range: Option<Span>,
}

/// What a name does in its item.
#[derive(Clone, Copy, PartialEq, Eq)]
pub enum Role {
    /// The item gives it.
    Given,
    /// The item uses it.
    Used,
    /// The item uses it after the `/` of a label: it is a message, of the controller that the name before it names.
    Label,
}

/// A name in an item.
#[derive(Clone, Copy)]
pub struct NameAt {
    pub span: Span,
    pub line: u64,
    /// What it is the name of.
    pub kind: Kind,
    pub role: Role,
    /// How many items stand before its own.
    pub item: usize,
}

impl NameAt {
    /// Whether its item gives it to one of this kind.
    pub fn gives(self, kind: Kind) -> bool {
        self.role == Role::Given && self.kind == kind
    }
}

/// The items and the names of texts, in the order of the texts. Where a text is refused, they are those before that, and
/// those after it up to what is no token.
pub struct Spans {
    pub(crate) heads: Vec<Option<Head>>,
    pub(crate) items: Vec<Item>,
    pub(crate) names: Vec<NameAt>,
    // whether more is kept, and whether no allocation has failed
    pub(crate) is_kept: bool,
    pub(crate) is_whole: bool,
    // the item that is read
    pub(crate) open: Open,
}

// Written out, so that one call lets it go.
impl Drop for Spans {
    fn drop(self) {
        let Self {
            heads: _,
            items: _,
            names: _,
            is_kept: _,
            is_whole: _,
            open: _,
        } = self;
    }
}

impl Spans {
    /// Those of no text.
    pub fn new(alloc: Global) -> Spans {
        Spans::kept(alloc, true)
    }

    /// For who asks for none: nothing is kept, and no memory is taken.
    pub fn unasked(alloc: Global) -> Spans {
        Spans::kept(alloc, false)
    }

    fn kept(alloc: Global, is_kept: bool) -> Spans {
        Spans {
            heads: Vec::new(alloc),
            items: Vec::new(alloc),
            names: Vec::new(alloc),
            is_kept,
            is_whole: true,
            open: Open::nothing(),
        }
    }

    /// Whether all was kept.
    ///
    /// # Errors
    ///
    /// Where an allocation has failed.
    pub fn check(&self) -> Result<(), AllocError> {
        if self.is_whole {
            Ok(())
        } else {
            Err(AllocError)
        }
    }

    /// What the text of this number begins with. None where its head is refused.
    pub fn head(&self, file: u32) -> Option<Head> {
        *self.heads.get(file as usize)?
    }

    /// All items.
    pub fn items(&self) -> &[Item] {
        self.items.as_slice()
    }

    /// All names.
    pub fn names(&self) -> &[NameAt] {
        self.names.as_slice()
    }

    /// The item in which a name stands.
    pub fn item(&self, at: NameAt) -> Option<Item> {
        self.items.get(at.item).copied()
    }

    /// Whether the text of this number has an item. The items stand in the order of the texts.
    pub fn has_items(&self, file: u32) -> bool {
        let before = self.items.partition_point(|item| item.span.file < file);
        match self.items.get(before) {
            Some(item) => item.span.file == file,
            None => false,
        }
    }

    /// The name that stands at this place of a text: around it, or right before it.
    pub fn name_at(&self, file: u32, offset: usize) -> Option<NameAt> {
        let mut found = None;
        for at in self.names.iter() {
            let Span {
                file: of,
                start,
                end,
            } = at.span;
            if of == file && start <= offset && offset <= end {
                found = Some(*at);
            }
        }
        found
    }
}
