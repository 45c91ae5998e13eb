// Names of files, as they can be pasted into a shell. What a terminal does not show as it is is escaped.

use crate::lines::Lines;
use growing_text::{Text, is_hidden, push_visible};
use std::alloc::{AllocError, Global};

/// A file as a word of a command.
pub fn file_word(alloc: Global, path: &str) -> Result<String, AllocError> {
    let mut text = Text::new(alloc);
    if !path.is_empty() && path.chars().all(is_plain) {
        push_start(&mut text, path);
        text.push(path);
    } else {
        push_quoted(&mut text, path);
    }
    text.finish()
}

// Before a file that could be taken for an option.
fn push_start(text: &mut Text, path: &str) {
    if path.starts_with('-') && path != "-" {
        text.push("./");
    }
}

// What no shell takes for anything but itself.
fn is_plain(c: char) -> bool {
    c.is_ascii_alphanumeric() || "-_./:@%+,".contains(c)
}

/// Says a file in a sentence, where it stands in quotation marks, as one word.
pub(crate) fn push_path(alloc: Global, lines: &mut Lines, path: &str) {
    let mut text = Text::new(alloc);
    push_quoted(&mut text, path);
    match text.finish() {
        Ok(path) => lines.word(path.as_str()),
        Err(_) => lines.fail(),
    }
}

fn push_quoted(text: &mut Text, path: &str) {
    let has_special = path.chars().any(is_special);
    let (before, after) = if path.chars().any(is_hidden) || has_special && path.contains('\'') {
        ("$'", "'")
    } else if has_special {
        ("'", "'")
    } else {
        ("\"", "\"")
    };
    text.push(before);
    push_start(text, path);
    for c in path.chars() {
        match c {
            '\'' | '\\' if before == "$'" => {
                text.push_char('\\');
                text.push_char(c);
            }
            _ => push_visible(text, c),
        }
    }
    text.push(after);
}

// What double quotation marks do not keep from a shell.
fn is_special(c: char) -> bool {
    matches!(c, '"' | '$' | '`' | '\\' | '!')
}
