// What a name says of the signals of a dump: which of them it names, and in which way.

use crate::definitions::Found;
use std::str;

/// How a name fits a signal. Of several signals the first that fits in the best way counts.
#[derive(Clone, Copy, PartialEq, Eq)]
pub enum Fit {
    /// It is the reference, or the whole of the name, of a signal of one bit.
    Name,
    /// It is the path of a signal of one bit: its scopes and its name, joined by points.
    Path,
    /// It is the identifier code of a signal of one bit, where a code may be given in the place of a name.
    Code,
    /// It is a name or a path, and after it in brackets one of the bits of the signal, which stands so many places to the left
    /// of the rightmost.
    Bit(u32),
}

impl Fit {
    /// Whether it is a better way than the other.
    pub(crate) fn is_better_than(self, other: Fit) -> bool {
        self.rank() < other.rank()
    }

    fn rank(self) -> u8 {
        match self {
            Fit::Name => 0,
            Fit::Path => 1,
            Fit::Bit(_) => 2,
            Fit::Code => 3,
        }
    }
}

/// How this name fits the signal, if it does. Where a scope is given, the signal stands there, or below it where the name is a
/// path that goes on from there.
pub fn fit_of(found: Found<'_>, name: &str, scope: Option<&str>) -> Option<Fit> {
    let name = name.trim();
    if found.can_be_line() {
        if stands_in(found, scope) && found.is_called(name) {
            return Some(Fit::Name);
        }
        if let Some(rest) = after_scopes(found, name, scope)
            && found.is_called(rest)
        {
            return Some(Fit::Path);
        }
    }
    let (base, index) = indexed(name)?;
    if found.is_cut || !is_bare_name(found, base, scope) {
        return None;
    }
    Some(Fit::Bit(found.place_of(index)?))
}

/// Whether a name can only be found by reading the definitions: it may be a path, or a bit of a vector, or it has white space.
pub(crate) fn may_be_more_than_reference(name: &str) -> bool {
    name.bytes().any(|byte| byte.is_ascii_whitespace() || byte == b'.' || byte == b']')
}

// Whether the signal stands in this scope, or anywhere where none is given.
fn stands_in(found: Found<'_>, scope: Option<&str>) -> bool {
    match scope {
        Some(scope) => found.scope == scope.as_bytes(),
        None => true,
    }
}

// Whether this is the name of the signal, or its path, without the range of its bits.
fn is_bare_name(found: Found<'_>, base: &str, scope: Option<&str>) -> bool {
    if stands_in(found, scope) && found.is_bare(base) {
        return true;
    }
    match after_scopes(found, base, scope) {
        Some(rest) => found.is_bare(rest),
        None => false,
    }
}

// What follows the scopes of the signal in a name that begins with them.
fn after_scopes<'n>(found: Found<'_>, name: &'n str, scope: Option<&str>) -> Option<&'n str> {
    let scopes = str::from_utf8(scopes_below(found.scope, scope)?).ok()?;
    if scopes.is_empty() {
        return None;
    }
    name.strip_prefix(scopes)?.strip_prefix(".")
}

// The scopes below the one that is given; all of them where none is.
fn scopes_below<'f>(scopes: &'f [u8], scope: Option<&str>) -> Option<&'f [u8]> {
    match scope {
        Some(scope) => scopes
            .strip_prefix(scope.as_bytes())?
            .strip_prefix(b".".as_slice()),
        None => Some(scopes),
    }
}

/// What stands before the index in brackets, where a name ends with one.
pub fn base_of(name: &str) -> &str {
    match indexed(name) {
        Some((base, _)) => base,
        None => name,
    }
}

// A name and the index in brackets after it.
fn indexed(name: &str) -> Option<(&str, i64)> {
    let (base, index) = name.strip_suffix("]")?.rsplit_once("[")?;
    Some((base, number(index)?))
}

/// The bits of a signal, as its definition counts them: those of the leftmost and of the rightmost.
#[derive(Clone, Copy)]
pub(crate) struct Range {
    pub(crate) left: i64,
    pub(crate) right: i64,
}

impl Range {
    /// A range as `7:0`, or one bit as `3`.
    pub(crate) fn read(text: &[u8]) -> Option<Range> {
        let text = str::from_utf8(text).ok()?;
        let (left, right) = text.split_once(":").unwrap_or((text, text));
        Some(Range {
            left: number(left)?,
            right: number(right)?,
        })
    }

    /// How many places to the left of the rightmost bit the one of this index stands, where the signal has that bit.
    pub(crate) fn place_of(self, index: i64) -> Option<u32> {
        let Range { left, right } = self;
        let (least, most, place) = if left < right {
            (left, right, right.checked_sub(index)?)
        } else {
            (right, left, index.checked_sub(right)?)
        };
        if index < least || most < index {
            return None;
        }
        u32::try_from(place).ok()
    }
}

fn number(text: &str) -> Option<i64> {
    text.trim_matches(' ').parse::<i64>().ok()
}
