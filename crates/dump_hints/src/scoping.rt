// The scopes in which the name of a line stands, for those who gave another.

use crate::naming::{Names, is_named, word_of};
use hints::{Lines, push_name};
use run_parts::Watched;
use signals::{Found, Listing, read_beginning};
use std::alloc::{AllocError, Global};
use std::io::{Read, Seek, SeekFrom};
use vcd_read::{Probe, Signal};

// How many scopes are told.
const TOLD: usize = 4;

/// Says where a signal of one bit has the name of this line, which none has in the scope that was given. Whether one has it.
pub(crate) fn push_scopes<F: Read + Seek>(
    alloc: Global,
    lines: &mut Lines,
    file: &mut F,
    names: Names<'_>,
    signal: Signal,
) -> bool {
    let probe = names.of(signal);
    if names.scope.is_none() || !matches!(probe, Probe::Named(_)) {
        return false;
    }
    if file.seek(SeekFrom::Start(0)).is_err() {
        return false;
    }
    let scopes = Scopes {
        alloc,
        probe,
        told: Vec::new(alloc),
        is_outside: false,
        are_more: false,
    };
    match read_beginning(alloc, &mut Watched::new(file), scopes) {
        Ok((_, scopes, _)) => scopes.push_to(lines),
        Err(_) => false,
    }
}

// The scopes that have a signal of this name.
#[derive(Drop)]
struct Scopes<'a> {
    alloc: Global,
    probe: Probe<'a>,
    // the first of them
    told: Vec<Vec<u8>>,
    // whether one stands outside all scopes
    is_outside: bool,
    are_more: bool,
}

impl Scopes<'_> {
    // Whether there was one.
    fn push_to(&self, lines: &mut Lines) -> bool {
        let has_told = !self.told.is_empty();
        let name = word_of(self.probe).as_bytes();
        if has_told {
            push_name(lines, name);
            self.push_told(lines);
        } else if self.is_outside {
            push_name(lines, name);
            lines.say(" stands outside all scopes: leave --scope out");
        }
        has_told || self.is_outside
    }

    fn push_told(&self, lines: &mut Lines) {
        let mut before = if self.told.len() == 1 {
            " is in this scope: "
        } else {
            " is in these scopes: "
        };
        for scope in self.told.iter() {
            lines.part(before);
            push_name(lines, scope.as_slice());
            before = ", ";
        }
        if self.are_more {
            lines.part(", ..");
        }
        lines.say("; the whole path has to be given");
    }

    fn has(&self, scope: &[u8]) -> bool {
        for told in self.told.iter() {
            if told.as_slice() == scope {
                return true;
            }
        }
        false
    }
}

impl Listing for Scopes<'_> {
    fn signal(&mut self, found: Found<'_>) -> Result<(), AllocError> {
        if !found.can_be_line() || !is_named(found, self.probe) {
            return Ok(());
        }
        if found.scope.is_empty() {
            self.is_outside = true;
        } else if !self.has(found.scope) {
            if self.told.len() < TOLD {
                self.told.push(found.scope.to_vec(self.alloc)?)?;
            } else {
                self.are_more = true;
            }
        }
        Ok(())
    }
}
