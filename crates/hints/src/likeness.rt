// How like one another two names are.

use crate::lines::Lines;
use crate::marking::push_quoted;
use std::alloc::{AllocError, Global};
use strsim::{generic_levenshtein, osa_distance};

// How many names are kept, and how many bytes of a name are compared.
const MOST: usize = 10;

const COMPARED: usize = 64;

// How many names mend a text, each in its own way.
const MENDING: usize = 3;

// Names that have the wanted one in them come before all others.
const OTHERS: usize = 1_000;

// A name, and how far it is from the wanted one.
#[derive(Drop)]
struct Near {
    name: Vec<u8>,
    far: usize,
}

/// The names that are nearest to a wanted one: of all that are added, or of those that are near it.
#[derive(Drop)]
pub struct Nearest<'a> {
    wanted: &'a [u8],
    // the nearest first
    found: Vec<Near>,
    others: u64,
}

impl<'a> Nearest<'a> {
    /// No name yet.
    pub fn new(alloc: Global, wanted: &'a [u8]) -> Nearest<'a> {
        Nearest {
            wanted,
            found: Vec::new(alloc),
            others: 0,
        }
    }

    /// One more name. One that is there already is not kept twice.
    pub fn add(&mut self, alloc: Global, name: &[u8]) -> Result<(), AllocError> {
        self.add_as(alloc, name, name)
    }

    /// The same of a name that is told in other words.
    pub fn add_as(&mut self, alloc: Global, name: &[u8], told: &[u8]) -> Result<(), AllocError> {
        if self.has(told) {
            return Ok(());
        }
        let far = distance(alloc, self.wanted, name)?;
        self.keep(alloc, told, far)
    }

    // A further name, which is so far from the wanted one.
    fn keep(&mut self, alloc: Global, name: &[u8], far: usize) -> Result<(), AllocError> {
        let at = self.place_of(far);
        if at < MOST && at <= self.found.len() {
            let name = name.to_vec(alloc)?;
            self.found.insert(at, Near { name, far })?;
            if self.found.len() <= MOST {
                return Ok(());
            }
            let _ = self.found.pop();
        }
        self.others = self.others.saturating_add(1);
        Ok(())
    }

    /// By how many edits a name parts from the wanted one, where it is near.
    pub(crate) fn nearness(&self, alloc: Global, name: &[u8]) -> Result<Option<usize>, AllocError> {
        nearness(alloc, self.wanted, name)
    }

    /// One more name, which is so far from the wanted one. One that is there already is not kept twice.
    pub(crate) fn add_at(
        &mut self,
        alloc: Global,
        name: &[u8],
        far: usize,
    ) -> Result<(), AllocError> {
        if self.has(name) {
            return Ok(());
        }
        self.keep(alloc, name, far)
    }

    fn has(&self, name: &[u8]) -> bool {
        self.found.iter().any(|near| near.name.as_slice() == name)
    }

    // Where a name belongs that is so far from the wanted one: after all that are as near.
    fn place_of(&self, far: usize) -> usize {
        self.found.iter().take_while(|near| near.far <= far).count()
    }

    /// Whether no name was added.
    pub fn is_empty(&self) -> bool {
        self.found.is_empty()
    }

    /// Tells the nearest names, each on a line of its own.
    pub fn tell(&self, lines: &mut Lines) {
        for near in self.found.iter() {
            push_quoted(lines, near.name.as_slice());
        }
        if self.others != 0 {
            lines.detail("..");
        }
    }

    /// Those of the told names that are near.
    pub(crate) fn near_ones(&self, alloc: Global) -> Result<Nearest<'a>, AllocError> {
        let mut near = Nearest::new(alloc, self.wanted);
        for told in self.found.iter() {
            let name = told.name.as_slice();
            if let Some(far) = self.nearness(alloc, name)? {
                near.add_at(alloc, name, far)?;
            }
        }
        Ok(near)
    }

    /// Notes that each of the first names mends the refused text: between these words, in the place of these bytes.
    pub(crate) fn mend(&self, lines: &mut Lines, place: (usize, usize), around: (&[u8], &[u8])) {
        let (start, end) = place;
        let (before, after) = (shown(around.0), shown(around.1));
        for near in self.found.iter().take(MENDING) {
            let name = shown(near.name.as_slice());
            lines.fix(start, end, format_args!("{before}{name}{after}"));
        }
    }
}

// The letters of a name.
fn shown(name: &[u8]) -> &str {
    str::from_utf8(name).unwrap_or("")
}

// By how many edits a name parts from the wanted one, where it is near. Case and `_` do not count. It is near where the edits
// are a third of the letters of the shorter one at most, or where the longer one begins or ends with the shorter one, which has
// three letters or more.
fn nearness(alloc: Global, wanted: &[u8], name: &[u8]) -> Result<Option<usize>, AllocError> {
    let wanted = folded(alloc, wanted)?;
    let name = folded(alloc, name)?;
    nearness_of(alloc, wanted.as_slice(), name.as_slice())
}

fn nearness_of(alloc: Global, one: &[u8], other: &[u8]) -> Result<Option<usize>, AllocError> {
    let far = match (str::from_utf8(one), str::from_utf8(other)) {
        (Ok(one), Ok(other)) => osa_distance(alloc, one, other)?,
        _ => return Ok(None),
    };
    let shorter = one.len().min(other.len());
    let is_near = far <= shorter / 3 || 3 <= shorter && (is_end(one, other) || is_end(other, one));
    Ok(is_near.then_some(far))
}

// Whether the second one begins or ends with the first one.
fn is_end(part: &[u8], whole: &[u8]) -> bool {
    whole.starts_with(part) || whole.ends_with(part)
}

// What counts of a name: its first letters and digits, in small letters.
fn folded(alloc: Global, name: &[u8]) -> Result<Vec<u8>, AllocError> {
    let mut letters = Vec::new(alloc);
    for byte in name.get(..COMPARED).unwrap_or(name) {
        if *byte != b'_' {
            letters.push(byte.to_ascii_lowercase())?;
        }
    }
    Ok(letters)
}

// How far a name is from the wanted one: by how many bytes it is longer where it has the wanted name in it, in letters of
// either case, and else by how many bytes would have to be put in, taken out or changed.
fn distance(alloc: Global, wanted: &[u8], name: &[u8]) -> Result<usize, AllocError> {
    if has_within(wanted, name) {
        return Ok(name.len().saturating_sub(wanted.len()).min(OTHERS));
    }
    Ok(OTHERS.saturating_add(edits(alloc, wanted, name)?))
}

fn has_within(wanted: &[u8], name: &[u8]) -> bool {
    if wanted.is_empty() {
        return false;
    }
    for from in 0..name.len() {
        let rest = name.get(from..).unwrap_or(&[]);
        match rest.get(..wanted.len()) {
            Some(part) if part.eq_ignore_ascii_case(wanted) => return true,
            _ => {}
        }
    }
    false
}

// The least number of edits that make one name the other, in letters of either case.
fn edits(alloc: Global, wanted: &[u8], name: &[u8]) -> Result<usize, AllocError> {
    let wanted = compared(alloc, wanted)?;
    let name = compared(alloc, name)?;
    generic_levenshtein(alloc, wanted.as_slice(), name.as_slice())
}

// What is compared of a name.
fn compared(alloc: Global, name: &[u8]) -> Result<Vec<u8>, AllocError> {
    let mut letters = name.get(..COMPARED).unwrap_or(name).to_vec(alloc)?;
    letters.as_mut_slice().make_ascii_lowercase();
    Ok(letters)
}
