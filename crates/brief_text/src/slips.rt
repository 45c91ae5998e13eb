// What else is refused in briefs that are refused: for people. No clause speaks of it.
//
// The reader of items goes on where the next one begins, over the same board. What a refused item would have named counts as
// known from then on: on the board something of that name stands for it, and what follows from it is not told.

use crate::boards::Board;
use crate::items::{head_with, read_item};
use crate::passed::{Passed, Wrong};
use crate::passing::{Gives, Next, PassedOver, Point, Text};
use crate::sources::Source;
use crate::syntax::{FrameSyntax, NameFound, TailSyntax, Value};
use brief_tokens::{Keyword, Symbol, Token, Tokens, after_head, record};
use lexer::Letters;
use message_tree::{Address, Count, Pattern};
use origins::{Kind, Spans};
use plan_core::{Name, NameError};
use plan_text::{PlanError, Refused};
use std::alloc::{AllocError, Global};

/// A refusal in the text of this number, from 0 on.
#[derive(Clone, Copy)]
pub struct Slip {
    pub file: u32,
    pub refused: Refused,
}

/// What is refused in texts.
#[derive(Drop)]
pub struct Slips {
    /// In the order of the texts. The first one is that of the briefs.
    pub all: Vec<Slip>,
    /// The items and the names of the texts that were read, to their ends.
    pub spans: Spans,
}

// So many are found.
const MOST: usize = 20;

// So many items are passed over.
const MOST_PASSED: usize = 1_000;

/// What is refused in these briefs: the first refusal, and others that follow from none of those before, 20 in all. What an item
/// would have named that is refused counts as known.
///
/// # Errors
///
/// Where an allocation fails.
pub fn slips_in(alloc: Global, texts: &[&[u8]]) -> Result<Slips, AllocError> {
    let mut finder = Finder::new(alloc);
    let mut file = 0u32;
    for text in texts {
        let earlier = texts.get(..file as usize).unwrap_or(&[]);
        finder.read(file, text, earlier.contains(text))?;
        file = file.saturating_add(1);
    }
    let Finder { slips, .. } = finder;
    slips.spans.check()?;
    Ok(slips)
}

// An item that is refused, after others that are not: where the first of them and where it begins itself, and how many labels stood
// before it.
#[derive(Clone, Copy)]
struct RefusedItem {
    first: Point,
    begins: Point,
    labels: usize,
    refused: Refused,
}

// Leaves so many labels: an item that is refused adds none.
fn forget_labels(board: &mut Board, left: usize) {
    board.labels.truncate(left);
}

#[derive(Drop)]
struct Finder<'a> {
    alloc: Global,
    board: Board,
    passed: Passed<'a>,
    // how many items were passed over
    count: usize,
    // the token that was refused last
    last: Option<Refusal>,
    slips: Slips,
}

// A token: the number of its text, and how many bytes stand before it.
#[derive(Clone, Copy)]
struct Refusal {
    file: u32,
    start: usize,
}

impl<'a> Finder<'a> {
    fn new(alloc: Global) -> Finder<'a> {
        Finder {
            alloc,
            board: Board::new(alloc),
            passed: Passed::new(alloc),
            count: 0,
            last: None,
            slips: Slips {
                all: Vec::new(alloc),
                spans: Spans::new(alloc),
            },
        }
    }

    fn is_done(&self) -> bool {
        self.slips.all.len() >= MOST || self.count >= MOST_PASSED
    }

    fn add(&mut self, file: u32, refused: Refused) -> Result<(), AllocError> {
        self.slips.all.push(Slip { file, refused })?;
        Ok(())
    }

    // Reads a further text. Of one that begins as no brief nothing else is told, and no names are known. Of the copy of an
    // earlier one its first refusal is told.
    fn read(&mut self, file: u32, text: &'a [u8], is_copy: bool) -> Result<(), AllocError> {
        if self.is_done() {
            return Ok(());
        }
        let opened = match after_head(text) {
            Ok(tokens) => Some(tokens),
            Err(refused) => {
                self.add(file, refused)?;
                after_slips(text)
            }
        };
        let Some(tokens) = opened else {
            record(text, &mut self.slips.spans);
            self.passed.add_others();
            return Ok(());
        };
        let text = Text {
            file,
            bytes: text,
            letters: tokens.letters(),
        };
        self.record(text, &tokens);
        let next = self.read_from(text, tokens, false)?;
        if is_copy {
            return Ok(());
        }
        self.read_on(text, next)
    }

    // Keeps the names of a text after its head.
    fn record(&mut self, text: Text<'a>, head: &Tokens<'a>) {
        let spans = &mut self.slips.spans;
        spans.begin(Some(head_with(text.letters)));
        let mut tokens = text.tokens_from(end_of(text, head));
        for _ in 0..text.bytes.len() {
            let token = tokens.next();
            if let Symbol::End = token.symbol {
                return;
            }
            if !tokens.record(token, spans) {
                tokens = text.tokens_from(text.point_after(&tokens, token));
            }
        }
    }

    // Reads items after the first one that is refused.
    fn read_on(&mut self, text: Text<'a>, after: Option<Next>) -> Result<(), AllocError> {
        let mut next = after;
        for _ in 0..text.bytes.len() {
            let Some(Next { point, may_be_name }) = next else {
                return Ok(());
            };
            if self.is_done() {
                return Ok(());
            }
            next = self.read_from(text, text.tokens_from(point), may_be_name)?;
        }
        Ok(())
    }

    // Reads items up to the first one that is refused, and answers where the next one begins. None, where none is refused or no
    // other begins.
    fn read_from(
        &mut self,
        text: Text<'a>,
        tokens: Tokens<'a>,
        may_be_name: bool,
    ) -> Result<Option<Next>, AllocError> {
        let Some(item) = self.refused_among(text, tokens) else {
            return Ok(None);
        };
        let RefusedItem {
            first,
            begins,
            labels,
            refused,
        } = item;
        forget_labels(&mut self.board, labels);
        let may_be_name = may_be_name && begins.start == first.start;
        self.pass(text, begins, refused, may_be_name)
    }

    // The first one of these items that is refused.
    fn refused_among(&mut self, text: Text<'a>, tokens: Tokens<'a>) -> Option<RefusedItem> {
        let mut source = Source::new(self.alloc, tokens, Spans::unasked(self.alloc));
        let first = text.point_before(&source.tokens, source.token);
        for _ in 0..text.bytes.len() {
            let begins = text.point_before(&source.tokens, source.token);
            let labels = self.board.labels.len();
            match read_item(&mut source, &mut self.board, text.letters) {
                Ok(true) => {}
                Ok(false) => return None,
                Err(error) => {
                    return Some(RefusedItem {
                        first,
                        begins,
                        labels,
                        refused: source.refusal(error),
                    });
                }
            }
        }
        None
    }

    // Passes over the item that begins here and is refused, and tells that, unless it follows from what was passed over before.
    fn pass(
        &mut self,
        text: Text<'a>,
        item: Point,
        refused: Refused,
        may_be_name: bool,
    ) -> Result<Option<Next>, AllocError> {
        let Some(place) = refused.place else {
            return Err(AllocError);
        };
        let over = text.pass_over(item, place);
        self.count = self.count.saturating_add(1);
        let is_again = self.is_again(Refusal {
            file: text.file,
            start: place.start,
        });
        let wrong = Wrong {
            error: refused.error,
            place,
            word: text.bytes.get(place.start..place.end).unwrap_or(&[]),
            over,
            may_be_name,
        };
        if !is_again && !self.passed.explains(&wrong, &self.board.devices) {
            self.add(text.file, refused)?;
        }
        self.keep(over, item.line)?;
        Ok(over.next)
    }

    // Whether this token was refused last, in the item before. From now on it was.
    fn is_again(&mut self, refusal: Refusal) -> bool {
        match self.last.replace(refusal) {
            Some(last) => last.file == refusal.file && last.start == refusal.start,
            None => false,
        }
    }

    // What an item on this line would have named counts as known.
    fn keep(&mut self, over: PassedOver<'a>, line: u64) -> Result<(), AllocError> {
        match over.gives {
            Gives::Nothing => Ok(()),
            Gives::File => {
                self.passed.add_others();
                Ok(())
            }
            Gives::Anything => {
                self.passed.add(None, over.first, false)?;
                self.passed.add(None, over.second, false)
            }
            Gives::One(kind) => self.keep_one(kind, over.second, line),
            Gives::Group => {
                self.passed.add_group();
                self.keep_one(Kind::Device, over.second, line)
            }
        }
    }

    // Of this kind and this name.
    fn keep_one(&mut self, kind: Kind, word: &'a [u8], line: u64) -> Result<(), AllocError> {
        match name_of(self.alloc, word)? {
            Some(name) => {
                let stands = self.board.stand_in(kind, NameFound { name, line })?;
                self.passed.add(Some(kind), word, stands)
            }
            None => Ok(()),
        }
    }
}

// What follows the head that was read.
fn end_of<'a>(text: Text<'a>, head: &Tokens<'a>) -> Point {
    let mut tokens = text.tokens_from(Point { start: 0, line: 1 });
    let _ = next_token(text, &mut tokens);
    let last = next_token(text, &mut tokens);
    text.point_after(&tokens, last)
}

// The name that these bytes are.
fn name_of(alloc: Global, word: &[u8]) -> Result<Option<Name>, AllocError> {
    let Ok(text) = str::from_utf8(word) else {
        return Ok(None);
    };
    match Name::new(alloc, text) {
        Ok(name) => Ok(Some(name)),
        Err(NameError::BadName) => Ok(None),
        Err(NameError::NoMemory) => Err(AllocError),
    }
}

// The tokens after the head of a text, where that has characters between its words that belong to no token.
fn after_slips(text: &[u8]) -> Option<Tokens<'_>> {
    match after_words(text, Letters::Board, b"2") {
        None => after_words(text, Letters::Brief, b"1"),
        tokens => tokens,
    }
}

// The tokens after `brief` and this version.
fn after_words<'a>(text: &'a [u8], letters: Letters, version: &[u8]) -> Option<Tokens<'a>> {
    let text = Text {
        file: 0,
        bytes: text,
        letters,
    };
    let mut tokens = text.tokens_from(Point { start: 0, line: 1 });
    let Symbol::Keyword(Keyword::Brief) = next_token(text, &mut tokens).symbol else {
        return None;
    };
    match next_token(text, &mut tokens).symbol {
        Symbol::Word(word) if word == version => Some(tokens),
        _ => None,
    }
}

// The next token, after what is none.
fn next_token<'a>(text: Text<'a>, tokens: &mut Tokens<'a>) -> Token<'a> {
    let mut token = tokens.next();
    for _ in 0..text.bytes.len() {
        let (Symbol::Stray | Symbol::Foreign) = token.symbol else {
            return token;
        };
        *tokens = text.tokens_from(text.point_after(tokens, token));
        token = tokens.next();
    }
    token
}

// An address whose bits are all known, as that of an interrupt has to be.
fn no_address() -> Address {
    Address::new(127, 0)
}

impl Board {
    // Something of this name, where nothing of this kind has it. It stands in the place of an item that is refused.
    fn stand_in(&mut self, kind: Kind, named: NameFound) -> Result<bool, AllocError> {
        match kind {
            Kind::Device => self.device_in_place(named),
            Kind::Byte => self.byte_in_place(named),
            Kind::Message => self.message_in_place(named),
            Kind::Controller => self.controller_in_place(named),
            Kind::Interrupt => self.interrupt_in_place(named),
        }
    }

    fn device_in_place(&mut self, named: NameFound) -> Result<bool, AllocError> {
        if self.has_device(&named.name) {
            return Ok(false);
        }
        self.devices.add(named.name, no_address())?;
        Ok(true)
    }

    fn byte_in_place(&mut self, named: NameFound) -> Result<bool, AllocError> {
        if self.has_byte(&named.name) {
            return Ok(false);
        }
        self.bytes.add(named.name, Pattern::new(255, 0))?;
        Ok(true)
    }

    fn message_in_place(&mut self, named: NameFound) -> Result<bool, AllocError> {
        let (None, Some(count)) = (self.message_refusal(&named.name), Count::new(1)) else {
            return Ok(false);
        };
        let frame = FrameSyntax::Read {
            to: Value::Spelled(no_address()),
            count,
            refused: TailSyntax::Stop,
            after: TailSyntax::Stop,
        };
        self.add_messages(named, None, &frame)?;
        Ok(true)
    }

    fn controller_in_place(&mut self, named: NameFound) -> Result<bool, AllocError> {
        if self.controller_refusal(&named.name)?.is_some() {
            return Ok(false);
        }
        let none = Vec::new(self.alloc);
        self.add_controller(named, none)?;
        Ok(true)
    }

    fn interrupt_in_place(&mut self, named: NameFound) -> Result<bool, AllocError> {
        match self.builder.interrupt_refusal(&named.name) {
            Some(_) => Ok(false),
            None => {
                self.add_interrupt(named, 0)?;
                Ok(true)
            }
        }
    }
}
