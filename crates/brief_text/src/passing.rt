// What stands between an item that is refused and the next one.

use brief_tokens::{Keyword, Sign, Symbol, Token, Tokens};
use lexer::{Letters, Spot};
use origins::Kind;
use plan_text::Place;

/// A brief whose head was read, of this number among those that give the plan.
#[derive(Clone, Copy)]
pub(crate) struct Text<'a> {
    pub(crate) file: u32,
    pub(crate) bytes: &'a [u8],
    pub(crate) letters: Letters,
}

/// A place in a text, in no comment: how many bytes stand before it, and its line.
#[derive(Clone, Copy)]
pub(crate) struct Point {
    pub(crate) start: usize,
    pub(crate) line: u64,
}

/// Where the next item begins.
#[derive(Clone, Copy)]
pub(crate) struct Next {
    pub(crate) point: Point,
    /// Whether its first word may be a name that was meant for the item before: it stands on a line with that, and after no `;`.
    pub(crate) may_be_name: bool,
}

/// What an item gives a name to.
#[derive(Clone, Copy)]
pub(crate) enum Gives {
    Nothing,
    One(Kind),
    /// A group of devices.
    Group,
    /// Its first word is none of items.
    Anything,
    /// All that another file gives names to.
    File,
}

/// An item that is passed over: its first two words, where these are no keywords, and where the next item begins.
#[derive(Clone, Copy)]
pub(crate) struct PassedOver<'a> {
    pub(crate) gives: Gives,
    pub(crate) first: &'a [u8],
    pub(crate) second: &'a [u8],
    pub(crate) next: Option<Next>,
}

impl<'a> Text<'a> {
    /// The tokens from this place on.
    pub(crate) fn tokens_from(self, point: Point) -> Tokens<'a> {
        Tokens::from(self.bytes, self.letters, point.start, point.line)
    }

    /// Where the token begins that was taken last.
    fn point_of(self, tokens: &Tokens<'a>, token: Token<'_>) -> Point {
        Point {
            start: self.place(tokens.spot().start),
            line: token.line,
        }
    }

    /// What stands between the token that was taken last and the one before it: white space and comments.
    fn blank_before(self, tokens: &Tokens<'a>) -> &'a [u8] {
        let Spot { before, start, .. } = tokens.spot();
        self.bytes
            .get(self.place(before)..self.place(start))
            .unwrap_or(&[])
    }

    /// Where that begins.
    pub(crate) fn point_before(self, tokens: &Tokens<'a>, token: Token<'_>) -> Point {
        let lines = self
            .blank_before(tokens)
            .iter()
            .filter(|byte| **byte == b'\n')
            .count();
        Point {
            start: self.place(tokens.spot().before),
            line: token.line.saturating_sub(lines as u64),
        }
    }

    /// What follows the token that was taken last. Of what is no token that is what follows its character, or the comment in
    /// which it stands.
    pub(crate) fn point_after(self, tokens: &Tokens<'a>, token: Token<'_>) -> Point {
        let Spot { start, end, .. } = tokens.spot();
        let start = match token.symbol {
            Symbol::Stray | Symbol::Foreign => {
                let rest = self.bytes.get(self.place(start)..).unwrap_or(&[]);
                let bytes = untaken(rest, is_in_comment(self.blank_before(tokens)));
                self.place(start).saturating_add(bytes)
            }
            _ => self.place(end),
        };
        Point {
            start,
            line: token.line,
        }
    }

    // How many bytes of the text stand before what has so many left.
    fn place(self, left: usize) -> usize {
        self.bytes.len().saturating_sub(left)
    }

    /// The item that begins here and is refused at this place. The next one begins after the next `;`, or with the next word
    /// that begins one. After what is no token and has nothing beside it on its line it begins on the next line.
    pub(crate) fn pass_over(self, item: Point, place: Place) -> PassedOver<'a> {
        let mut over = PassedOver {
            gives: Gives::Anything,
            first: &[],
            second: &[],
            next: None,
        };
        let mut tokens = self.tokens_from(item);
        let mut is_alone = true;
        for number in 0..self.bytes.len() {
            let token = tokens.next();
            let point = self.point_of(&tokens, token);
            if is_alone && number != 0 && self.begins_line(&tokens) {
                over.next = Some(Next {
                    point,
                    may_be_name: false,
                });
                return over;
            }
            let is_behind = point.start >= place.start;
            match token.symbol {
                Symbol::End => return over,
                Symbol::Stray | Symbol::Foreign => {
                    tokens = self.tokens_from(self.point_after(&tokens, token));
                    continue;
                }
                Symbol::Sign(Sign::Semicolon) if is_behind => {
                    over.next = Some(Next {
                        point: self.point_after(&tokens, token),
                        may_be_name: false,
                    });
                    return over;
                }
                _ if is_behind && number != 0 && begins_item(token) => {
                    over.next = Some(Next {
                        point,
                        may_be_name: !self.begins_line(&tokens),
                    });
                    return over;
                }
                _ => over.take(number, token),
            }
            is_alone = false;
        }
        over
    }

    // Whether the token that was taken last is the first one of its line.
    fn begins_line(self, tokens: &Tokens<'a>) -> bool {
        self.blank_before(tokens).contains(&b'\n')
    }
}

impl<'a> PassedOver<'a> {
    // Its token of this number, from 0 on.
    fn take(&mut self, number: usize, token: Token<'a>) {
        let word: &'a [u8] = match token.symbol {
            Symbol::Word(word) => word,
            _ => &[],
        };
        if number == 0 {
            self.gives = given_by(token);
            self.first = word;
        } else if number == 1 {
            self.second = word;
        }
    }
}

// What an item that begins with this token gives a name to.
fn given_by(token: Token<'_>) -> Gives {
    match token.symbol {
        Symbol::Keyword(Keyword::Never) => Gives::Nothing,
        Symbol::Keyword(Keyword::With) => Gives::File,
        Symbol::Keyword(Keyword::Group) => Gives::Group,
        // (it gives none, but says more of it)
        Symbol::Keyword(Keyword::Extend) => Gives::One(Kind::Controller),
        _ => match token.kind() {
            Some(kind) => Gives::One(kind),
            None => Gives::Anything,
        },
    }
}

fn begins_item(token: Token<'_>) -> bool {
    matches!(
        token.symbol,
        Symbol::Keyword(
            Keyword::Device
                | Keyword::Byte
                | Keyword::Message
                | Keyword::Controller
                | Keyword::Interrupt
                | Keyword::Never
                | Keyword::With
                | Keyword::Group
                | Keyword::Extend
        )
    )
}

// How many bytes at the front belong to what is no token, or to the comment in which it stands.
fn untaken(rest: &[u8], is_in_comment: bool) -> usize {
    if is_in_comment {
        return rest.iter().take_while(|byte| **byte != b'\n').count();
    }
    let foreign = rest.iter().take_while(|byte| !byte.is_ascii()).count();
    foreign.max(1)
}

// Whether what follows white space and comments belongs to the last of these.
fn is_in_comment(blank: &[u8]) -> bool {
    let line = blank.rsplit(is_line_feed).next().unwrap_or(&[]);
    line.contains(&b'#')
}

fn is_line_feed(byte: &u8) -> bool {
    *byte == b'\n'
}
