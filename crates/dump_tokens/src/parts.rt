// What each token of a dump says where it stands (IEEE 1364-2005, 18.2). Whether it can stand there is for the reader of
// `vcd_read` to decide.

use std::str;
use vcd_read::Level;

/// What a token says.
#[derive(Clone, Copy)]
pub enum Part<'t> {
    /// A scope of this name begins; of no name, where it is empty.
    Scope(&'t [u8]),
    /// The scope that began last ends.
    Upscope,
    /// A token of a `$var`, with its index there: 0 to 3 are its type, size, code and reference.
    Var(u32, &'t [u8]),
    /// The end of a `$var` that has these four.
    VarEnd,
    /// A token of a `$timescale`.
    Timescale(&'t [u8]),
    /// The end of the definitions.
    Defined,
    /// Nothing that can stand among definitions.
    Wrong,
    /// A time.
    Time(u64),
    /// The signals with this code come to this level.
    Change(Level, &'t [u8]),
}

// What the next token belongs to.
#[derive(Clone, Copy)]
enum Context {
    Nothing,
    Skipped,
    // so many tokens of a `$scope`, of a `$var` have come
    Scope(u32),
    Var(u32),
    Upscope,
    Timescale,
    EndDefinitions,
    // the code of a change comes next: with the level of a vector, or none of a real or string change
    Code(Option<Level>),
}

/// Where the next token of a dump stands.
#[derive(Clone, Copy)]
pub struct Parts {
    context: Context,
    // whether the definitions have ended
    defined: bool,
}

impl Parts {
    /// Before the first token.
    pub fn new() -> Parts {
        Parts {
            context: Context::Nothing,
            defined: false,
        }
    }

    /// Whether the `$end` of `$enddefinitions` comes next.
    pub fn ends_definitions(&self) -> bool {
        matches!(self.context, Context::EndDefinitions)
    }

    /// What the next token says, if it says something by itself.
    pub fn next<'t>(&mut self, token: &'t [u8]) -> Option<Part<'t>> {
        match self.context {
            Context::Nothing if self.defined => self.change(token),
            Context::Nothing => self.define(token),
            Context::Code(level) => {
                self.context = Context::Nothing;
                Some(Part::Change(level?, token))
            }
            _ if token == b"$end".as_slice() => self.close(),
            _ => self.inside(token),
        }
    }

    // A token among the definitions opens a command.
    fn define<'t>(&mut self, token: &'t [u8]) -> Option<Part<'t>> {
        if !token.starts_with(b"$") || token == b"$end".as_slice() {
            return Some(Part::Wrong);
        }
        self.context = context_after(token);
        None
    }

    // The `$end` of a command.
    fn close<'t>(&mut self) -> Option<Part<'t>> {
        let closed = self.context;
        self.context = Context::Nothing;
        match closed {
            Context::Scope(0 | 1) => Some(Part::Scope(b"".as_slice())),
            Context::Upscope => Some(Part::Upscope),
            Context::Var(0..=3) => Some(Part::Wrong),
            Context::Var(_) => Some(Part::VarEnd),
            Context::EndDefinitions => {
                self.defined = true;
                Some(Part::Defined)
            }
            _ => None,
        }
    }

    // One more token of a command.
    fn inside<'t>(&mut self, token: &'t [u8]) -> Option<Part<'t>> {
        match self.context {
            Context::Scope(seen) => {
                self.context = Context::Scope(seen.saturating_add(1));
                (seen == 1).then_some(Part::Scope(token))
            }
            Context::Var(seen) => {
                self.context = Context::Var(seen.saturating_add(1));
                Some(Part::Var(seen, token))
            }
            Context::Timescale => Some(Part::Timescale(token)),
            _ => None,
        }
    }

    // A token among the changes, outside commands.
    fn change<'t>(&mut self, token: &'t [u8]) -> Option<Part<'t>> {
        let (first, rest) = token.split_first()?;
        match *first {
            b'#' => return Some(Part::Time(str::from_utf8(rest).ok()?.parse::<u64>().ok()?)),
            b'$' if is_mark(token) => {}
            b'$' => self.context = Context::Skipped,
            b'b' | b'B' => self.context = Context::Code(rest.last().and_then(level_of)),
            b'r' | b'R' | b's' | b'S' => self.context = Context::Code(None),
            _ => return Some(Part::Change(level_of(first)?, rest)),
        }
        None
    }
}

// What the tokens after this keyword belong to.
fn context_after(keyword: &[u8]) -> Context {
    match str::from_utf8(keyword) {
        Ok("$scope") => Context::Scope(0),
        Ok("$var") => Context::Var(0),
        Ok("$upscope") => Context::Upscope,
        Ok("$timescale") => Context::Timescale,
        Ok("$enddefinitions") => Context::EndDefinitions,
        _ => Context::Skipped,
    }
}

// Whether a block of changes begins or ends.
fn is_mark(token: &[u8]) -> bool {
    const MARKS: [&[u8]; 5] = [b"$end", b"$dumpvars", b"$dumpall", b"$dumpoff", b"$dumpon"];
    MARKS.contains(&token)
}

fn level_of(value: &u8) -> Option<Level> {
    match *value {
        b'0' => Some(Level::Low),
        b'1' | b'z' | b'Z' => Some(Level::High),
        b'x' | b'X' => Some(Level::Unknown),
        _ => None,
    }
}
