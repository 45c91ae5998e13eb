// Which words of a text are names, and of what: read off its tokens, one after another. It is not asked whether the text is a
// plan or a brief, so it goes on where that is refused.

use crate::spans::{Head, Item, ItemKind, Kind, Language, NameAt, Role, Span, Spans};
use crate::texts::halves;

/// What a token is to the names of a text.
#[derive(Clone, Copy)]
pub enum Part<'a> {
    /// The word with which an item begins.
    Item(ItemKind),
    /// What stands before an address: `write`, `read` or `(`.
    Direction,
    /// `*`
    Star,
    /// `;`
    End,
    /// A word that is no keyword.
    Word(&'a [u8]),
    Other,
}

/// Where a token stands in its text: how many bytes stand before it and before what follows it, and its line.
#[derive(Clone, Copy)]
pub struct TokenAt {
    pub start: usize,
    pub end: usize,
    pub line: u64,
}

/// The item that is read, if one is, how many words of it were taken, and what the last token was.
#[derive(Clone, Copy)]
pub(crate) struct Open {
    kind: Option<ItemKind>,
    words: usize,
    after: After,
}

impl Open {
    pub(crate) fn nothing() -> Open {
        Open {
            kind: None,
            words: 0,
            after: After::Other,
        }
    }
}

#[derive(Clone, Copy, PartialEq, Eq)]
enum After {
    Direction,
    Star,
    Other,
}

impl Spans {
    /// A further text begins, with this head where that is not refused.
    pub fn begin(&mut self, head: Option<Head>) {
        self.open = Open::nothing();
        if self.is_kept && self.heads.push(head).is_err() {
            self.fail();
        }
    }

    /// A further token of the text.
    pub fn take(&mut self, part: Part<'_>, at: TokenAt) {
        if !self.is_kept {
            return;
        }
        match (part, self.open.kind) {
            (Part::Item(kind), _) => self.begin_item(kind, at),
            (_, Some(kind)) => self.take_in(kind, part, at),
            (_, None) => {}
        }
    }

    // What could not be kept makes the rest worthless.
    fn fail(&mut self) {
        self.is_kept = false;
        self.is_whole = false;
    }

    fn begin_item(&mut self, kind: ItemKind, at: TokenAt) {
        let item = Item {
            kind,
            span: self.span(at.start, at.end),
            value: None,
            range: None,
        };
        self.open = Open {
            kind: Some(kind),
            ..Open::nothing()
        };
        if self.items.push(item).is_err() {
            self.fail();
        }
    }

    // A token in an item of this kind.
    fn take_in(&mut self, kind: ItemKind, part: Part<'_>, at: TokenAt) {
        if let Some(item) = self.items.last_mut() {
            item.span.end = at.end;
        }
        let after = self.open.after;
        self.open.after = match part {
            Part::Direction => After::Direction,
            Part::Star => After::Star,
            _ => After::Other,
        };
        match part {
            Part::Word(word) if after == After::Star => self.take_times(kind, word, at),
            Part::Word(word) => self.take_word(kind, after, word, at),
            Part::End => self.open.kind = None,
            _ => {}
        }
    }

    // How often a byte is sent. A range makes its message a family.
    fn take_times(&mut self, kind: ItemKind, word: &[u8], at: TokenAt) {
        let range = self.span(at.start, at.end);
        if kind == ItemKind::Gives(Kind::Message) && word.contains(&b'.') {
            if let Some(item) = self.items.last_mut() {
                item.range = Some(range);
            }
        }
    }

    fn take_word(&mut self, kind: ItemKind, after: After, word: &[u8], at: TokenAt) {
        let words = self.open.words;
        self.open.words = words.saturating_add(1);
        match kind {
            ItemKind::Never => self.add_side(word, at),
            ItemKind::Extends if words == 0 => self.add(word, at, Kind::Controller, Role::Used),
            ItemKind::Extends => self.add(word, at, Kind::Message, Role::Used),
            ItemKind::Groups if words == 0 => self.add(word, at, Kind::Device, Role::Given),
            ItemKind::Groups => self.add(word, at, Kind::Device, Role::Used),
            ItemKind::Gives(given) if words == 0 => self.add(word, at, given, Role::Given),
            ItemKind::Gives(given) => {
                if words == 1 {
                    self.set_value(given, at);
                }
                if let Some(used) = self.used_in(given, after) {
                    self.add(word, at, used, Role::Used);
                }
            }
        }
    }

    // What stands after the name that an item gives.
    fn set_value(&mut self, given: Kind, at: TokenAt) {
        let value = self.span(at.start, at.end);
        if !matches!(given, Kind::Device | Kind::Byte) {
            return;
        }
        if let Some(item) = self.items.last_mut() {
            item.value = Some(value);
        }
    }

    // What a further word names, in an item that gives a name to this.
    fn used_in(&self, given: Kind, after: After) -> Option<Kind> {
        match given {
            Kind::Controller => Some(Kind::Message),
            Kind::Device | Kind::Byte => None,
            Kind::Interrupt | Kind::Message if self.is_plan() => None,
            Kind::Interrupt => Some(Kind::Device),
            Kind::Message if after == After::Direction => Some(Kind::Device),
            Kind::Message => Some(Kind::Byte),
        }
    }

    // Whether the last text is a plan, whose messages and interrupts have no names in them.
    fn is_plan(&self) -> bool {
        match self.heads.last() {
            Some(Some(head)) => head.language == Language::Plan,
            _ => false,
        }
    }

    // A controller, or a label: a controller and what it sends. Of no controller there is no label.
    fn add_side(&mut self, word: &[u8], at: TokenAt) {
        let Some((controller, label)) = halves(word) else {
            return self.add(word, at, Kind::Controller, Role::Used);
        };
        if !begins_name(controller) {
            return;
        }
        let end = at.start.saturating_add(controller.len());
        let start = end.saturating_add(1);
        self.add(
            controller,
            TokenAt { end, ..at },
            Kind::Controller,
            Role::Used,
        );
        self.add(label, TokenAt { start, ..at }, Kind::Message, Role::Label);
    }

    // A name. What begins with no letter is none.
    fn add(&mut self, word: &[u8], at: TokenAt, kind: Kind, role: Role) {
        if !begins_name(word) {
            return;
        }
        let name = NameAt {
            span: self.span(at.start, at.end),
            line: at.line,
            kind,
            role,
            item: self.items.len().saturating_sub(1),
        };
        if self.names.push(name).is_err() {
            self.fail();
        }
    }

    // These bytes of the last text.
    fn span(&self, start: usize, end: usize) -> Span {
        let before = self.heads.len().saturating_sub(1);
        Span {
            file: u32::try_from(before).unwrap_or(u32::MAX),
            start,
            end,
        }
    }
}

fn begins_name(word: &[u8]) -> bool {
    match word.first() {
        Some(first) => first.is_ascii_alphabetic(),
        None => false,
    }
}
