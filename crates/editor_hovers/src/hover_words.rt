// Words that stand in what is said of names and of other tokens.

use growing_text::Text;
use order::Score;

// So many names stand in a list.
const NAMED: usize = 10;

/// Adds this as code.
pub(crate) fn push_code(text: &mut Text, word: &[u8]) {
    text.push("`");
    text.push(str::from_utf8(word).unwrap_or(""));
    text.push("`");
}

/// Adds a byte as code, as briefs write it.
pub(crate) fn push_byte(text: &mut Text, byte: u8) {
    text.push("`0x");
    push_digit(text, byte >> 4);
    push_digit(text, byte & 0x0F);
    text.push("`");
}

fn push_digit(text: &mut Text, digit: u8) {
    let at = usize::from(digit);
    text.push(
        "0123456789ABCDEF"
            .get(at..at.saturating_add(1))
            .unwrap_or(""),
    );
}

/// Adds the next name of a list, before which so many stand in it.
pub(crate) fn push_listed(text: &mut Text, before: usize, word: &[u8]) {
    if before < NAMED {
        if before != 0 {
            text.push(", ");
        }
        push_code(text, word);
    }
}

/// Ends a list of so many names.
pub(crate) fn end_list(text: &mut Text, count: usize) {
    let more = count.saturating_sub(NAMED);
    if more != 0 {
        text.push(" and ");
        text.push_number(more as u64);
        text.push(" more");
    }
}

/// Adds how many there are of what has these names: of one, and of several.
pub(crate) fn push_counted(text: &mut Text, count: u64, one: &'static str, several: &'static str) {
    text.push_number(count);
    text.push(" ");
    text.push(if count == 1 { one } else { several });
}

/// Adds how the pairs of one with another one end, as an item of a list.
pub(crate) fn push_against(text: &mut Text, one: &str, other: &str, score: Score) {
    text.push("- ");
    push_code(text, one.as_bytes());
    text.push(" against ");
    push_code(text, other.as_bytes());
    text.push(": ");
    push_counted(text, u64::from(score.pairs()), "pair", "pairs");
    let next = push_part(text, "; ", "wins", score.wins);
    let next = push_part(text, next, "loses", score.loses);
    let next = push_part(text, next, "either may win", score.may_win);
    let next = push_part(text, next, "both always end together", score.alike);
    push_part(text, next, "unsafe", score.unsafe_pairs);
    text.push("\n");
}

// What stands before the next part.
fn push_part(
    text: &mut Text,
    before: &'static str,
    words: &'static str,
    pairs: u32,
) -> &'static str {
    if pairs == 0 {
        return before;
    }
    text.push(before);
    text.push(words);
    text.push(" ");
    text.push_number(u64::from(pairs));
    ", "
}
