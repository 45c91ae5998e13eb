// The tokens of an item, and which bytes of the path of a message have a place in it.

use brief_tokens::{Keyword, Sign, Symbol, Tokens};
use lexer::Letters;
use origins::{Language, NameAt, NamedTexts, Span, Spans};
use plan_text::places::token_at;
use std::alloc::{AllocError, Global};

/// A byte on the path on which each byte is acknowledged.
#[derive(Clone, Copy, PartialEq, Eq)]
pub struct Place {
    /// The number of its frame, from 0 on.
    pub frame: u32,
    /// Its number among the data bytes of the frame, from 0 on. None is the header.
    pub byte: Option<u32>,
}

/// What a token is on that path.
#[derive(Clone, Copy)]
pub(crate) enum Part {
    /// The address of one device.
    Address,
    Count,
    /// So many equal data bytes with a place, after this many others of their frame. The word of one ends here.
    Bytes {
        before: u32,
        times: u32,
        word: usize,
    },
    /// A `pec` or a `sum`.
    Check,
    /// What else stands on the path.
    Other,
    /// `else` and what is sent after a NACK. In a plan text also the first `stop`.
    Nack,
}

#[derive(Clone, Copy)]
pub(crate) struct Token {
    pub(crate) span: Span,
    pub(crate) part: Part,
    /// The number of its frame, from 0 on. In a plan text what stands after the path has that of the last one.
    pub(crate) frame: u32,
}

/// What stands after the name in the item of a message or of an interrupt.
#[derive(Drop)]
pub struct MessageText<'a> {
    pub(crate) text: &'a [u8],
    pub(crate) is_plan: bool,
    pub(crate) tokens: Vec<Token>,
    /// Whether no `else` but `else stop` stands in it.
    pub(crate) has_stops_alone: bool,
}

impl<'a> MessageText<'a> {
    /// That of the item that gives this name in these texts.
    ///
    /// # Errors
    ///
    /// Where an allocation fails.
    pub fn read(
        alloc: Global,
        names: &NamedTexts<'a>,
        spans: &Spans,
        name: NameAt,
    ) -> Result<MessageText<'a>, AllocError> {
        let text = names.text(name.span.file);
        let is_plan = is_plan(spans, name.span.file);
        let mut reader = Reader::new(alloc, names, is_plan);
        reader.read(text, letters_of(spans, name.span.file), name);
        if !reader.is_whole {
            return Err(AllocError);
        }
        Ok(MessageText {
            text,
            is_plan,
            has_stops_alone: reader.has_stops_alone,
            tokens: reader.tokens,
        })
    }

    /// Whether the item is one of a plan text.
    pub fn is_plan(&self) -> bool {
        self.is_plan
    }

    // The token in which a byte of the path stands, and how many equal ones stand before it there.
    pub(crate) fn token_of(&self, place: Place) -> Option<(Token, u32)> {
        for token in self.tokens.iter() {
            if token.frame == place.frame {
                if let Some(nth) = nth_in(token.part, place.byte) {
                    return Some((*token, nth));
                }
            }
        }
        None
    }

    // The token of the COUNT of a frame.
    pub(crate) fn count_of(&self, frame: u32) -> Option<Token> {
        for token in self.tokens.iter() {
            if token.frame == frame && matches!(token.part, Part::Count) {
                return Some(*token);
            }
        }
        None
    }
}

fn nth_in(part: Part, byte: Option<u32>) -> Option<u32> {
    match (part, byte) {
        (Part::Address, None) => Some(0),
        (Part::Bytes { before, times, .. }, Some(byte)) => {
            let nth = byte.checked_sub(before)?;
            (nth < times).then_some(nth)
        }
        _ => None,
    }
}

// The letters of a text. The words of a plan text are words of a brief, too.
fn letters_of(spans: &Spans, file: u32) -> Letters {
    match spans.head(file) {
        Some(head) if head.language == Language::Brief && head.version == 2 => Letters::Board,
        _ => Letters::Brief,
    }
}

fn is_plan(spans: &Spans, file: u32) -> bool {
    match spans.head(file) {
        Some(head) => head.language == Language::Plan,
        None => false,
    }
}

// ---- what each token is

// What the token before asks for.
#[derive(Clone, Copy)]
enum After {
    // an address, of a write or of a read, and then a count
    Write,
    Read,
    Count,
    // a number or a range
    Star,
    // what a choice leaves out
    But,
    // an address between brackets
    Made,
    // `stop` or a bracket
    Else,
    // so many brackets are open in what follows a NACK
    Inner(u32),
    Other,
}

// How far an item was read.
#[derive(Drop)]
struct Reader<'n, 'a> {
    names: &'n NamedTexts<'a>,
    tokens: Vec<Token>,
    is_whole: bool,
    after: After,
    // how many frames of the path have begun
    frames: u32,
    // how many data bytes stand before the next one of this frame, where that has a place
    before: Option<u32>,
    is_plan: bool,
    // whether the path of a plan text has ended
    is_past: bool,
    has_stops_alone: bool,
}

impl<'n, 'a> Reader<'n, 'a> {
    fn new(alloc: Global, names: &'n NamedTexts<'a>, is_plan: bool) -> Reader<'n, 'a> {
        Reader {
            names,
            tokens: Vec::new(alloc),
            is_whole: true,
            after: After::Other,
            frames: 0,
            before: None,
            is_plan,
            is_past: false,
            has_stops_alone: true,
        }
    }

    // The tokens of the item after this name.
    fn read(&mut self, text: &[u8], letters: Letters, name: NameAt) {
        let Span { file, end, .. } = name.span;
        let mut tokens = Tokens::from(text, letters, end, name.line);
        for _ in end..text.len() {
            let token = tokens.next();
            if token.is_semicolon() {
                return;
            }
            let at = token_at(text, tokens.spot(), token.line);
            let span = Span {
                file,
                start: at.start,
                end: at.end,
            };
            self.take(token.symbol, span);
        }
    }

    fn take(&mut self, symbol: Symbol<'_>, span: Span) {
        match self.after {
            After::Write => self.take_address(symbol, span, After::Other),
            After::Read => self.take_address(symbol, span, After::Count),
            After::Count => self.push(Part::Count, span, After::Other),
            After::Star => self.take_times(symbol, span),
            After::But => self.grow(span, After::Other),
            After::Made => self.grow(span, made_after(symbol)),
            After::Else => self.take_after_else(symbol, span),
            After::Inner(open) => self.push(Part::Nack, span, inner_after(open, symbol)),
            After::Other => self.take_next(symbol, span),
        }
    }

    // A token that nothing before it asks for.
    fn take_next(&mut self, symbol: Symbol<'_>, span: Span) {
        match symbol {
            Symbol::Keyword(Keyword::Write) => self.begin(span, After::Write),
            Symbol::Keyword(Keyword::Read) => self.begin(span, After::Read),
            Symbol::Keyword(Keyword::Else) => self.take_else(span),
            Symbol::Keyword(Keyword::Stop) => {
                self.is_past = true;
                self.push(Part::Nack, span, After::Other);
            }
            Symbol::Keyword(Keyword::Any) => self.take_byte(span),
            Symbol::Word(word) if word != b"again".as_slice() => self.take_byte(span),
            Symbol::Keyword(Keyword::But) => {
                self.unplace();
                self.grow(span, After::But);
            }
            Symbol::Sign(Sign::Star) => self.grow(span, After::Star),
            Symbol::Keyword(Keyword::Wr | Keyword::Rd) => self.take_other(span, After::Made),
            Symbol::Keyword(Keyword::Pec | Keyword::Sum) => {
                self.pass(1);
                self.push(Part::Check, span, After::Other);
            }
            _ => self.take_other(span, After::Other),
        }
    }

    // A byte that has no place, or a word between frames.
    fn take_other(&mut self, span: Span, after: After) {
        self.pass(1);
        self.push(Part::Other, span, after);
    }

    fn begin(&mut self, span: Span, after: After) {
        if self.is_past {
            self.has_stops_alone = false;
        } else {
            self.frames = self.frames.saturating_add(1);
            self.before = Some(0);
        }
        self.push(Part::Other, span, after);
    }

    // The address of a group of devices has no place.
    fn take_address(&mut self, symbol: Symbol<'_>, span: Span, after: After) {
        let part = match symbol {
            Symbol::Word(word) if self.names.group(word).is_some() => Part::Other,
            _ => Part::Address,
        };
        self.push(part, span, after);
    }

    fn take_byte(&mut self, span: Span) {
        let part = match self.before {
            Some(before) => Part::Bytes {
                before,
                times: 1,
                word: span.end,
            },
            None => Part::Other,
        };
        self.pass(1);
        self.push(part, span, After::Other);
    }

    // How often the last byte is sent. A range is no number.
    fn take_times(&mut self, symbol: Symbol<'_>, span: Span) {
        let number = match symbol {
            Symbol::Word(word) => number_of(word),
            _ => None,
        };
        match number {
            Some(number) => {
                self.repeat(number);
                self.pass(number.saturating_sub(1));
            }
            None => {
                self.before = None;
                self.unplace();
            }
        }
        self.grow(span, After::Other);
    }

    // The last byte is sent so often.
    fn repeat(&mut self, number: u32) {
        if let Some(last) = self.tokens.last_mut() {
            if let Part::Bytes { before, word, .. } = last.part {
                last.part = Part::Bytes {
                    before,
                    times: number,
                    word,
                };
            }
        }
    }

    fn pass(&mut self, bytes: u32) {
        self.before = match self.before {
            Some(before) => before.checked_add(bytes),
            None => None,
        };
    }

    fn take_else(&mut self, span: Span) {
        let after = if self.is_plan {
            After::Other
        } else {
            After::Else
        };
        self.push(Part::Nack, span, after);
    }

    // `stop`, or a bracket: before that a byte that is sent several times has no place.
    fn take_after_else(&mut self, symbol: Symbol<'_>, span: Span) {
        match symbol {
            Symbol::Sign(Sign::Open) => {
                self.has_stops_alone = false;
                self.unplace_repeated();
                self.push(Part::Nack, span, After::Inner(1));
            }
            _ => self.push(Part::Nack, span, After::Other),
        }
    }

    // The token before the last one.
    fn unplace_repeated(&mut self) {
        let before = self.tokens.len().saturating_sub(2);
        if let Some(token) = self.tokens.get_mut(before) {
            if matches!(token.part, Part::Bytes { word, .. } if word != token.span.end) {
                token.part = Part::Other;
            }
        }
    }

    // The last token has no place.
    fn unplace(&mut self) {
        if let Some(last) = self.tokens.last_mut() {
            last.part = Part::Other;
        }
    }

    // A further word of the last token.
    fn grow(&mut self, span: Span, after: After) {
        self.after = after;
        if let Some(last) = self.tokens.last_mut() {
            last.span.end = span.end;
        }
    }

    fn push(&mut self, part: Part, span: Span, after: After) {
        self.after = after;
        let token = Token {
            span,
            part: if self.is_past { Part::Nack } else { part },
            frame: self.frames.saturating_sub(1),
        };
        if self.tokens.push(token).is_err() {
            self.is_whole = false;
        }
    }
}

fn inner_after(open: u32, symbol: Symbol<'_>) -> After {
    match symbol {
        Symbol::Sign(Sign::Open) => After::Inner(open.saturating_add(1)),
        Symbol::Sign(Sign::Close) if open <= 1 => After::Other,
        Symbol::Sign(Sign::Close) => After::Inner(open.saturating_sub(1)),
        _ => After::Inner(open),
    }
}

fn made_after(symbol: Symbol<'_>) -> After {
    match symbol {
        Symbol::Sign(Sign::Close) => After::Other,
        _ => After::Made,
    }
}

fn number_of(word: &[u8]) -> Option<u32> {
    str::from_utf8(word).ok()?.parse::<u32>().ok()
}
