// What may be changed in an item.

use crate::messages::{MessageText, Part, Place, Token};
use crate::replacing::Edits;
use crate::spelling::{Bits, push_bits, spelled_bits, spelled_count};
use brief_tokens::Tokens;
use growing_text::Text;
use message_tree::Count;
use origins::Span;
use plan_text::places::token_at;
use std::alloc::{AllocError, Global};

impl MessageText<'_> {
    /// The read of this frame has this count.
    pub fn narrow(&self, alloc: Global, edits: &mut Edits, frame: u32, count: Count) {
        match self.count_of(frame) {
            Some(token) => edits.add(token.span, spelled_count(alloc, count)),
            None => edits.refuse(),
        }
    }

    /// The byte in this place has these bits.
    pub fn fix(&self, alloc: Global, edits: &mut Edits, place: Place, bits: Bits) {
        match self.token_of(place) {
            Some((token, nth)) => {
                let text = self.with_bits(alloc, token, nth, bits);
                self.replace(alloc, edits, token, text);
            }
            None => edits.refuse(),
        }
    }

    // This text stands in the place of a token. Comments between the words of that stay behind it.
    fn replace(
        &self,
        alloc: Global,
        edits: &mut Edits,
        token: Token,
        text: Result<String, AllocError>,
    ) {
        let words = token.span;
        let first = match token.part {
            Part::Bytes { word, .. } => word,
            _ => words.end,
        };
        let rest = Span {
            start: first,
            ..words
        };
        if self.has_comment(rest) {
            edits.add(
                Span {
                    end: first,
                    ..words
                },
                text,
            );
            self.leave_out(alloc, edits, rest);
        } else {
            edits.add(words, text);
        }
    }

    fn has_comment(&self, span: Span) -> bool {
        let words = self.text.get(span.start..span.end).unwrap_or(&[]);
        words.contains(&b'#')
    }

    // All of a span is left out but its comments, with the blanks before them and the line feeds after them. It ends in no comment.
    fn leave_out(&self, alloc: Global, edits: &mut Edits, span: Span) {
        let mut out = Span {
            end: span.start,
            ..span
        };
        let mut is_comment = false;
        for at in span.start..span.end {
            let next = at.saturating_add(1);
            match self.text.get(at).copied() {
                Some(b'\n') if is_comment => {
                    is_comment = false;
                    out = Span {
                        start: next,
                        end: next,
                        ..span
                    };
                }
                _ if is_comment => {}
                Some(b'#') => {
                    is_comment = true;
                    push_out(alloc, edits, out);
                }
                Some(b' ' | b'\t' | b'\r' | b'\n') => {}
                _ => out.end = next,
            }
        }
        push_out(
            alloc,
            edits,
            Span {
                end: span.end,
                ..out
            },
        );
    }

    // A token whose byte after so many has these bits.
    fn with_bits(
        &self,
        alloc: Global,
        token: Token,
        nth: u32,
        bits: Bits,
    ) -> Result<String, AllocError> {
        let mut text = Text::new(alloc);
        match token.part {
            Part::Bytes { times, word, .. } => {
                let word = word_in(self.text, token.span.start, word);
                if 0 < nth {
                    push_times(&mut text, word, nth);
                    text.push(" ");
                }
                push_bits(alloc, &mut text, bits, self.is_plan);
                let rest = times.saturating_sub(nth).saturating_sub(1);
                if 0 < rest {
                    text.push(" ");
                    push_times(&mut text, word, rest);
                }
            }
            _ => push_bits(alloc, &mut text, bits, self.is_plan),
        }
        text.finish()
    }

    /// A header alone becomes a read of one byte.
    pub fn read_one(&self, alloc: Global, edits: &mut Edits) {
        match (self.tokens.first(), self.tokens.get(1)) {
            (Some(direction), Some(address)) if self.is_one_header() => {
                edits.add(direction.span, String::from_str(alloc, "read"));
                edits.add(after(*address), String::from_str(alloc, " 1"));
            }
            _ => edits.refuse(),
        }
    }

    // Whether nothing stands on the path behind the address of the first frame.
    fn is_one_header(&self) -> bool {
        match self.tokens.get(2) {
            Some(token) => matches!(token.part, Part::Nack),
            None => true,
        }
    }

    /// The first frame is left out, and the blanks after its words.
    pub fn leave_out_first(&self, alloc: Global, edits: &mut Edits) {
        if !self.has_stops_alone {
            return edits.refuse();
        }
        let mut stops = 0usize;
        for token in self.tokens.iter() {
            if token.frame == 0 && !(self.is_plan && matches!(token.part, Part::Nack)) {
                self.leave_out(alloc, edits, self.with_blanks(token.span));
                if self.is_plan && matches!(token.part, Part::Address | Part::Bytes { .. }) {
                    stops = stops.saturating_add(2);
                }
            }
        }
        for token in self.tokens.iter().rev().take(stops) {
            self.leave_out(alloc, edits, self.with_blanks(token.span));
        }
    }

    fn with_blanks(&self, span: Span) -> Span {
        let mut end = span.end;
        for byte in self.text.get(span.end..).unwrap_or(&[]) {
            if !matches!(*byte, b' ' | b'\t') {
                break;
            }
            end = end.saturating_add(1);
        }
        Span { end, ..span }
    }

    /// So many open bytes stand after the last byte of the path, which is no checksum.
    pub fn lengthen(&self, alloc: Global, edits: &mut Edits, bytes: u32) {
        match (self.last_on_path(), self.tokens.last()) {
            (Some(byte), _) if matches!(byte.part, Part::Check) => edits.refuse(),
            (Some(byte), Some(stop)) if self.has_stops_alone && self.is_plan => {
                edits.add(after(byte), repeated(alloc, " xxxxxxxx", bytes));
                edits.add(after(*stop), repeated(alloc, " else stop", bytes));
            }
            (Some(byte), _) if self.has_stops_alone => {
                edits.add(after(byte), open_bytes(alloc, bytes));
            }
            _ => edits.refuse(),
        }
    }

    fn last_on_path(&self) -> Option<Token> {
        for token in self.tokens.iter().rev() {
            if !matches!(token.part, Part::Nack) {
                return Some(*token);
            }
        }
        None
    }

    /// The interrupt has this address.
    pub fn readdress(&self, alloc: Global, edits: &mut Edits, bits: Bits) {
        match self.tokens.first() {
            Some(token) => edits.add(token.span, spelled_bits(alloc, bits, self.is_plan)),
            None => edits.refuse(),
        }
    }
}

fn push_out(alloc: Global, edits: &mut Edits, span: Span) {
    if span.start < span.end {
        edits.add(span, Ok(String::new(alloc)));
    }
}

fn word_in(text: &[u8], start: usize, end: usize) -> &str {
    let word = text.get(start..end).unwrap_or(&[]);
    str::from_utf8(word).unwrap_or("")
}

// What follows a token.
fn after(token: Token) -> Span {
    Span {
        start: token.span.end,
        ..token.span
    }
}

fn push_times(text: &mut Text, word: &str, times: u32) {
    text.push(word);
    if 1 < times {
        text.push("*");
        text.push_number(u64::from(times));
    }
}

fn open_bytes(alloc: Global, bytes: u32) -> Result<String, AllocError> {
    let mut text = Text::new(alloc);
    push_times(&mut text, " any", bytes);
    text.finish()
}

fn repeated(alloc: Global, words: &str, times: u32) -> Result<String, AllocError> {
    let mut text = Text::new(alloc);
    for _ in 0..times {
        text.push(words);
    }
    text.finish()
}

/// The last of the texts has this `never` item at its end, on a line of its own. That ends as the last line of the text does which
/// is ended.
pub fn push_never(alloc: Global, edits: &mut Edits, texts: &[Vec<u8>], sides: (&str, &str)) {
    let Some(text) = texts.last() else {
        return edits.refuse();
    };
    let is_ended = text.last() == Some(&b'\n');
    let end = line_end_of(text.as_slice());
    let (first, second) = sides;
    let mut item = Text::new(alloc);
    item.push(if is_ended { "" } else { end });
    item.push("never ");
    item.push(first);
    item.push(" ");
    item.push(second);
    item.push(" ;");
    item.push(if is_ended { end } else { "" });
    let span = Span {
        file: u32::try_from(texts.len().saturating_sub(1)).unwrap_or(u32::MAX),
        start: text.len(),
        end: text.len(),
    };
    edits.add(span, item.finish());
}

// What ends the last line that is ended.
fn line_end_of(text: &[u8]) -> &'static str {
    let mut before = None;
    let mut end = "\n";
    for byte in text {
        if *byte == b'\n' {
            end = if before == Some(b'\r') { "\r\n" } else { "\n" };
        }
        before = Some(*byte);
    }
    end
}

/// The plan text, which is the first of these texts, is one of the second version.
pub fn push_second_version(alloc: Global, edits: &mut Edits, texts: &[Vec<u8>]) {
    let Some(text) = texts.first() else {
        return edits.refuse();
    };
    let mut tokens = Tokens::new(text.as_slice());
    tokens.next();
    let version = tokens.next();
    let at = token_at(text.as_slice(), tokens.spot(), version.line);
    let span = Span {
        file: 0,
        start: at.start,
        end: at.end,
    };
    edits.add(span, String::from_str(alloc, "2"));
}
