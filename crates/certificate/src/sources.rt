// What is left of a certificate text, byte by byte.

ghost use Rattle.std.specs.Prelude.{◌≡◌, ◌<◌, ◌≤◌, ◌+◌, ◌-◌, ◌^◌, ◌==◌, ◌++◌, length, take, drop, OnOk, IfSome, IfNone};
ghost use Rattle.certificate.specs.declared.errors.CertFault.TheVariants.{Format, TooDeep};

use crate::errors::{CertError, CertFault};
use crate::places::{Asked, Expected, Stop};

/// What is left of a certificate text.
#[derive(Clone, Copy)]
pub(crate) struct Source<'a> {
    rest: &'a [u8],
    line: u64,
    // for refusals: what was asked for last, and how many bytes were left before the one that was taken last
    pub(crate) asked: Asked,
    last: usize,
    ghost lines_fit: { line + length rest.now < 2 ^ 64 },
}

impl<'a> Source<'a> {
    ghost use Rattle.certificate.specs.Places.{place, unread, Gives, Passes};
    ghost use Rattle.certificate.specs.Reader.{byte_at, this_at, each_at};

    /// A whole text.
    pub(crate) fn new(text: &'a [u8]) -> Self
        ensures { place result ≡ record { line = 1; rest = text.now } }
    {
        Source {
            rest: text,
            line: 1,
            asked: Asked::first(text.len()),
            last: text.len(),
        }
    }

    /// What is left of a text from this line on. None comes where the lines could not be counted to its end.
    pub(crate) fn at_line(rest: &'a [u8], line: u64) -> Option<Self>
        ensures place { IfSome result (λ source. place source ≡ record { line = line; rest = rest.now }) }
        ensures none { IfNone result (2 ^ 64 ≤ line + length rest.now) }
    {
        line.checked_add(rest.len() as u64)?;
        Some(Source {
            rest,
            line,
            asked: Asked::first(rest.len()),
            last: rest.len(),
        })
    }

    /// Whether nothing is left.
    pub(crate) fn is_at_end(&self) -> bool
        ensures { result ≡ (unread self.now == 0) }
    {
        self.rest.is_empty()
    }

    /// What cannot stand here.
    pub(crate) fn format(&self) -> CertError
        ensures { result ≡ CertError.Wrong (Format (place self.now).line) }
    {
        CertError::Wrong(CertFault::Format(self.line))
    }

    /// A token for which its path has no room.
    pub(crate) fn too_deep(&self) -> CertError
        ensures { result ≡ CertError.Wrong (TooDeep (place self.now).line) }
    {
        CertError::Wrong(CertFault::TooDeep(self.line))
    }

    /// This is expected here, and then that.
    pub(crate) fn asks(&self, expected: Expected, then: Expected) -> Asked {
        Asked {
            expected,
            then,
            left: self.rest.len(),
        }
    }

    /// Where reading stopped that was refused.
    pub(crate) fn stop(&self) -> Stop {
        Stop {
            asked: self.asked,
            refused: self.last.min(self.asked.left),
            left: self.rest.len(),
        }
    }

    /// Takes the next byte.
    pub(crate) fn take(&mut self) -> Result<u8, CertError>
        ensures read { Gives (λ b. b) result (byte_at (place self.old)) (place self.new) }
        ensures less { OnOk result (unread self.new < unread self.old) }
        ensures left { unread self.new ≤ unread self.old }
    {
        self.last = self.rest.len();
        let [first, rest @ ..] = self.rest else {
            return Err(self.format());
        };
        if *first == b'\n' {
            self.line += 1;
        }
        self.rest = rest;
        Ok(*first)
    }

    /// This byte.
    pub(crate) fn this(&mut self, byte: u8) -> Result<(), CertError>
        ensures read { Passes result (this_at byte (place self.old)) (place self.new) }
        ensures less { OnOk result (unread self.new < unread self.old) }
        ensures left { unread self.new ≤ unread self.old }
    {
        let refusal = self.format();
        if self.take()? != byte {
            return Err(refusal);
        }
        Ok(())
    }

    /// What is left.
    pub(crate) fn rest(&self) -> &'a [u8]
        ensures { result.now ≡ self.now.rest.now }
    {
        self.rest
    }

    /// The bytes before a later place.
    pub(crate) fn until(&self, later: &Source<'a>) -> &'a [u8]
        requires { unread later.now ≤ unread self.now }
        ensures { result.now ≡ take (unread self.now - unread later.now) self.now.rest.now }
    {
        &self.rest[..self.rest.len() - later.rest.len()]
    }

    /// The place after these bytes, where they stand next: a line with its line feed.
    pub(crate) fn after_line(&self, bytes: &[u8]) -> Option<Source<'a>>
        requires { 0 < length bytes.now }
        ensures bytes { IfSome result (λ after. self.now.rest.now ≡ bytes.now ++ after.rest.now) }
        ensures line { IfSome result (λ after. after.line ≡ self.now.line + 1) }
    {
        let rest = self.rest.strip_prefix(bytes)?;
        Some(Source {
            rest,
            line: self.line + 1,
            asked: self.asked,
            last: self.last,
        })
    }

    /// The place after a line of so many bytes, its line feed among them.
    pub(crate) fn past_line(&self, size: usize) -> Source<'a>
        requires some { 0 < size }
        requires within { size ≤ unread self.now }
        ensures rest { result.rest.now ≡ drop size self.now.rest.now }
        ensures line { result.line ≡ self.now.line + 1 }
    {
        Source {
            rest: &self.rest[size..],
            line: self.line + 1,
            asked: self.asked,
            last: self.last,
        }
    }

    /// Each of these bytes.
    pub(crate) fn each(&mut self, bytes: &[u8]) -> Result<(), CertError>
        ensures read { Passes result (each_at bytes.now (place self.old)) (place self.new) }
        ensures left { unread self.new ≤ unread self.old }
    {
        for byte in bytes {
            self.this(*byte)?;
        }
        Ok(())
    }
}
