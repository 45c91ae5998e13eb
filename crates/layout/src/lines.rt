// A text as lines of tokens and comments.

use lexer::{Letters, Lexeme, Lexer, Symbol};
use std::alloc::{AllocError, Global};

// How many blanks a line begins with that begins inside an item, at least.
const INDENT: usize = 2;

// How many blanks a tab counts as.
const TAB: usize = 2;

/// A token of a text.
#[derive(Clone, Copy)]
pub(crate) struct Token<'a> {
    pub(crate) bytes: &'a [u8],
    /// How many tokens of its item stand before it. The first two tokens of a text are an item.
    pub(crate) number: usize,
    /// Whether two blanks or more stand before it.
    pub(crate) is_wide: bool,
}

impl Token<'_> {
    /// Whether it stands by itself, as `;` does.
    pub(crate) fn is_sign(self) -> bool {
        matches!(self.bytes, b";" | b"(" | b")" | b"*")
    }
}

/// A line that is not empty.
#[derive(Clone, Copy)]
pub(crate) struct Line<'a> {
    /// How many tokens of the text stand before it.
    pub(crate) start: usize,
    /// How many of them end with it.
    pub(crate) end: usize,
    /// The comment at its end, from `#` on and without blanks at its end.
    pub(crate) comment: Option<&'a [u8]>,
    /// How many blanks it begins with.
    pub(crate) indent: usize,
    /// Whether empty lines stand before it, and other lines before these.
    pub(crate) is_parted: bool,
}

/// The lines of a text. From the first part on for which an allocation failed, no more is added.
#[derive(Drop)]
pub(crate) struct Lines<'a> {
    tokens: Vec<Token<'a>>,
    lines: Vec<Line<'a>>,
    is_whole: bool,
    // of the line that is read
    start: usize,
    comment: Option<&'a [u8]>,
    is_inside: bool,
    is_parted: bool,
    // how wide the white space is that it begins with
    margin: usize,
    // that of the first line with a token, among those that follow one another and begin inside an item
    first_margin: Option<usize>,
    // how many tokens of the item stand before
    number: usize,
}

impl<'a> Lines<'a> {
    fn new(alloc: Global) -> Lines<'a> {
        Lines {
            tokens: Vec::new(alloc),
            lines: Vec::new(alloc),
            is_whole: true,
            start: 0,
            comment: None,
            is_inside: false,
            is_parted: false,
            margin: 0,
            first_margin: None,
            number: 0,
        }
    }

    /// All lines that are not empty, in order.
    pub(crate) fn all(&self) -> &[Line<'a>] {
        self.lines.as_slice()
    }

    /// The tokens of a line.
    pub(crate) fn tokens_of(&self, line: Line<'_>) -> &[Token<'a>] {
        let all = self.tokens.as_slice();
        all.get(line.start..line.end).unwrap_or(&all[..0])
    }

    // What stands between two tokens: blanks, comments and ends of lines.
    fn read_between(&mut self, between: &'a [u8]) {
        let mut start = 0usize;
        for (place, byte) in between.iter().enumerate() {
            if *byte == b'\n' {
                self.read_blank(between.get(start..place).unwrap_or(&[]));
                self.end_line();
                start = place.saturating_add(1);
            }
        }
        self.read_blank(between.get(start..).unwrap_or(&[]));
    }

    // Blanks, and a comment after them where there is one.
    fn read_blank(&mut self, bytes: &'a [u8]) {
        if self.start == self.tokens.len() {
            self.margin = width_of(bytes);
        }
        if let Some(comment) = comment_in(bytes) {
            self.comment = Some(comment);
        }
    }

    fn read_token(&mut self, bytes: &'a [u8], is_wide: bool) {
        let token = Token {
            bytes,
            number: self.number,
            is_wide,
        };
        if self.tokens.push(token).is_err() {
            self.is_whole = false;
        }
        let ends_item = bytes == b";".as_slice() || self.tokens.len() == 2;
        self.number = if ends_item {
            0
        } else {
            self.number.saturating_add(1)
        };
    }

    fn end_line(&mut self) {
        let end = self.tokens.len();
        if self.start < end || self.comment.is_some() {
            self.add_line(end);
            self.is_parted = false;
        } else {
            self.is_parted = !self.lines.is_empty();
        }
        self.start = end;
        self.comment = None;
        self.is_inside = self.number > 0;
        if !self.is_inside {
            self.first_margin = None;
        }
    }

    fn add_line(&mut self, end: usize) {
        let indent = self.indent(end);
        let line = Line {
            start: self.start,
            end,
            comment: self.comment,
            indent,
            is_parted: self.is_parted,
        };
        if self.lines.push(line).is_err() {
            self.is_whole = false;
        }
    }

    // How many blanks the line begins with: inside an item so many more than the first one as it did, and two at least.
    fn indent(&mut self, end: usize) -> usize {
        if !self.is_inside {
            return 0;
        }
        if self.start < end && self.first_margin.is_none() {
            self.first_margin = Some(self.margin);
        }
        match self.first_margin {
            Some(first) => self.margin.saturating_sub(first).saturating_add(INDENT),
            None => INDENT,
        }
    }
}

/// The lines of this text, which has these letters after its first two tokens, up to what belongs to no token.
///
/// # Errors
///
/// Where an allocation fails.
pub(crate) fn lines_in<'a>(
    alloc: Global,
    text: &'a [u8],
    letters: Letters,
) -> Result<Lines<'a>, AllocError> {
    let mut lines = Lines::new(alloc);
    let mut lexer = Lexer::new(text, letters_at_first(letters));
    for number in 0..text.len().saturating_add(1) {
        let lexeme = next_in(&mut lexer, number, letters);
        let spot = lexer.spot();
        let between = piece(text, spot.before, spot.start);
        lines.read_between(between);
        match lexeme.symbol {
            Symbol::Word(_) | Symbol::Sign(_) => {
                lines.read_token(piece(text, spot.start, spot.end), between.len() > 1);
            }
            Symbol::Stray | Symbol::Foreign | Symbol::End => break,
        }
    }
    lines.end_line();
    if lines.is_whole {
        Ok(lines)
    } else {
        Err(AllocError)
    }
}

// The lexeme of this number, from 0 on.
fn next_in<'a>(lexer: &mut Lexer<'a>, number: usize, letters: Letters) -> Lexeme<'a> {
    if number == 2 {
        lexer.letters = letters;
    }
    lexer.next()
}

// `.` is a part of words only after the second token.
fn letters_at_first(letters: Letters) -> Letters {
    match letters {
        Letters::Dots => Letters::Plain,
        _ => letters,
    }
}

// What stands between two places, each given by how many bytes are left there.
fn piece(text: &[u8], start: usize, end: usize) -> &[u8] {
    let start = text.len().saturating_sub(start);
    let end = text.len().saturating_sub(end);
    text.get(start..end).unwrap_or(&[])
}

// How wide the white space is at the front.
fn width_of(bytes: &[u8]) -> usize {
    let mut width = 0usize;
    for byte in bytes {
        match *byte {
            b' ' => width = width.saturating_add(1),
            b'\t' => width = width.saturating_add(TAB),
            b'\r' => {}
            _ => break,
        }
    }
    width
}

// The comment in these bytes, without blanks at its end.
fn comment_in(bytes: &[u8]) -> Option<&[u8]> {
    for (place, byte) in bytes.iter().enumerate() {
        if *byte == b'#' {
            return Some(without_blanks(bytes.get(place..).unwrap_or(&[])));
        }
    }
    None
}

fn without_blanks(bytes: &[u8]) -> &[u8] {
    let is_blank = |byte: &&u8| matches!(**byte, b' ' | b'\t' | b'\r');
    let blanks = bytes.iter().rev().take_while(is_blank).count();
    bytes
        .get(..bytes.len().saturating_sub(blanks))
        .unwrap_or(bytes)
}
