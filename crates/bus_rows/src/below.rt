// Lines below a line of a report: each begins with four spaces, and one that would be too long is broken between words.

use growing_text::{COLUMNS, Lines, Part, Sentence, Text};

// What stands before the space of the first word of a line, and the same with the columns of a title, of which there are at
// most 24.
const MARGIN: &str = "   ";

const WIDE_MARGIN: &str = "                           ";

// Begins a line.
fn begin(lines: &mut Lines) {
    lines.begin(MARGIN, MARGIN);
}

/// Begins a line with a title. The words of the line stand in the columns after so many; a title for which these do not
/// suffice has a line of its own.
pub fn begin_titled(lines: &mut Lines, title: &str, columns: usize) {
    let margin = WIDE_MARGIN
        .get(..columns.saturating_add(MARGIN.len()))
        .unwrap_or(WIDE_MARGIN);
    lines.begin(MARGIN, margin);
    lines.word(title);
    if columns <= title.len() {
        lines.end();
        lines.begin(margin, margin);
    }
    for _ in title.len().saturating_add(1)..columns {
        lines.word("");
    }
}

/// The words of a template and its parts, on as many lines as they need.
pub fn say(lines: &mut Lines, template: &'static str, parts: &[Part<'_>]) {
    begin(lines);
    lines.tell(template, parts);
    lines.end();
}

/// The same with a sentence.
pub fn say_all(lines: &mut Lines, sentence: &Sentence) {
    begin(lines);
    lines.sentence(sentence);
    lines.end();
}

/// How many columns are left on a line after the margin and so many more.
pub fn room_after(columns: usize) -> usize {
    COLUMNS
        .saturating_sub(MARGIN.len())
        .saturating_sub(1)
        .saturating_sub(columns)
}

/// Spaces up to so many bytes.
pub fn pad(text: &mut Text, columns: usize) {
    for _ in text.len()..columns {
        text.push(" ");
    }
}

/// Adds a part in the columns after so many, if it says anything.
pub fn put(text: &mut Text, columns: usize, part: &str) {
    if !part.is_empty() {
        pad(text, columns);
        text.push(part);
    }
}
