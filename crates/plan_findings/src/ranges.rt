// Runs of slots, in words.

use growing_text::{Part, Sentence};

// How many runs are named.
const NAMED: usize = 6;

/// Adds runs of slots, the first of them by first and last ones.
pub fn tell_ranges(said: &mut Sentence, ranges: &[(usize, usize)]) {
    for (k, range) in ranges.iter().take(NAMED).enumerate() {
        said.tell(if k == 0 { " " } else { ", " }, &[]);
        tell_range(said, *range);
    }
    if NAMED < ranges.len() {
        let more = ranges.len().saturating_sub(NAMED) as u64;
        said.tell(" and {} more", &[Part::Number(more)]);
    }
}

fn tell_range(said: &mut Sentence, range: (usize, usize)) {
    let (from, to) = (Part::Number(range.0 as u64), Part::Number(range.1 as u64));
    if range.0 == range.1 {
        said.tell("{}", &[from]);
    } else {
        said.tell("{}..{}", &[from, to]);
    }
}
