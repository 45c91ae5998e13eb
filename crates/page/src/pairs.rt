// The pairs, as the page has them: their participants with the way in which they end, and their faults.

use crate::ways::Run;
use certificate::{Fault, push_wire};
use remedies::Grouped;
use serde::{Described, Serialize, Serializer};
use std::alloc::{AllocError, Global};
use verdicts::Faults;

/// The pairs of a plan, in the order of their numbers, by runs: the number of a participant and that of the first that it
/// meets, how many it meets from there on, and the number of the way in which these pairs end, which is left out where
/// they have faults.
#[derive(Clone, Copy)]
pub(crate) struct Pairs<'a>(pub(crate) &'a [Run]);

/// The faults of a plan, one after the other.
#[derive(Clone, Copy)]
pub(crate) struct Unsafe<'a> {
    pub(crate) alloc: Global,
    pub(crate) faults: &'a Faults,
    pub(crate) groups: &'a Grouped,
}

// The pair with this number: which kinds of item meet, after which wire, and the number of the group in which it stands.
#[derive(Clone, Copy, Serialize)]
struct Met<'a> {
    pair: u32,
    kinds: (&'a str, &'a str),
    wire: &'a str,
    group: Option<usize>,
}

impl Described for Pairs<'_> {}

impl Serialize for Pairs<'_> {
    fn serialize<S: Serializer>(&self, out: &mut S) -> Result<(), S::Error> {
        out.begin_seq(None)?;
        for run in self.0 {
            let (x, y) = run.pair;
            match run.way {
                Some(way) => (x, y, run.len, way).serialize(out)?,
                None => (x, y, run.len).serialize(out)?,
            }
        }
        out.end_seq()
    }
}

impl Described for Unsafe<'_> {}

impl Serialize for Unsafe<'_> {
    fn serialize<S: Serializer>(&self, out: &mut S) -> Result<(), S::Error> {
        out.begin_seq(None)?;
        for k in 0..self.faults.len() {
            let (pair, fault) = self.faults.get(k);
            match wire_of(self.alloc, fault) {
                Ok(wire) => Met {
                    pair,
                    kinds: (fault.first.word(), fault.second.word()),
                    wire: wire.as_str(),
                    group: self.groups.number_of(k),
                }
                .serialize(out)?,
                Err(_) => return Err(out.custom("out of memory")),
            }
        }
        out.end_seq()
    }
}

fn wire_of(alloc: Global, fault: &Fault) -> Result<String, AllocError> {
    let mut wire = String::new(alloc);
    push_wire(&mut wire, &fault.wire)?;
    Ok(wire)
}
