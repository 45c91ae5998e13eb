// Colours in a report for people.

use growing_text::Text;
use std::alloc::AllocError;

const RED: &str = "\x1b[31m";

const GREEN: &str = "\x1b[32m";

const PLAIN: &str = "\x1b[0m";

/// Whether the words of a verdict are in colours.
#[derive(Clone, Copy, PartialEq, Eq)]
pub enum Paint {
    Plain,
    Colored,
}

impl Paint {
    /// Adds a line that was made elsewhere, with one word in the colour of this verdict: its offset and length are in bytes.
    pub fn push_verdict(
        self,
        text: &mut Text,
        line: Result<String, AllocError>,
        word: (usize, usize),
        is_safe: bool,
    ) {
        match line {
            Ok(line) if self == Paint::Colored => push_colored(text, line.as_str(), word, is_safe),
            line => text.push_made(line),
        }
    }
}

impl Paint {
    /// Adds a word in the colour of this verdict.
    pub fn push_word(self, text: &mut Text, word: &str, is_safe: bool) {
        match self {
            Paint::Plain => text.push(word),
            Paint::Colored => push_colored(text, word, (0, word.len()), is_safe),
        }
    }
}

fn push_colored(text: &mut Text, line: &str, word: (usize, usize), is_safe: bool) {
    let (from, count) = word;
    let to = from.saturating_add(count);
    text.push(line.get(..from).unwrap_or(""));
    text.push(if is_safe { GREEN } else { RED });
    text.push(line.get(from..to).unwrap_or(""));
    text.push(PLAIN);
    text.push(line.get(to..).unwrap_or(""));
}
