// Fields that several objects have.

use object_lines::{ObjectLines, both_at, one_at};
use plan_words::PlanWords;

/// A field with two words.
pub(crate) fn add_words(lines: &mut ObjectLines, name: &str, first: &str, second: &str) {
    lines.open_list(name);
    lines.word_element(first);
    lines.word_element(second);
    lines.close_list();
}

/// A field with two numbers.
pub(crate) fn add_numbers(lines: &mut ObjectLines, name: &str, first: u32, second: u32) {
    lines.open_list(name);
    lines.text.push_number(first as u64);
    lines.text.push(",");
    lines.text.push_number(second as u64);
    lines.close_list();
}

/// The field that says where the two of a pair stand, if briefs mean the plan.
pub(crate) fn add_both_at(lines: &mut ObjectLines, words: PlanWords<'_>, both: (u32, u32)) {
    match both_at(lines.alloc, words, both) {
        Ok(places) => lines.field_if("places", &places),
        Err(_) => lines.cut(),
    }
}

/// The field that says where a participant stands, if briefs mean the plan.
pub(crate) fn add_one_at(lines: &mut ObjectLines, words: PlanWords<'_>, p: u32) {
    match one_at(lines.alloc, words, p) {
        Ok(places) => lines.field_if("places", &places),
        Err(_) => lines.cut(),
    }
}
