// Words as people see them: what a terminal does not show as it is is escaped.

use crate::texts::Text;
use std::alloc::{AllocError, Global};

/// What a terminal does not show as it is: control characters, ends of lines, and marks without a width, as those of
/// directions.
pub fn is_hidden(c: char) -> bool {
    c.is_control()
        || matches!(
            c,
            '\u{ad}' | '\u{61c}' | '\u{200b}'..='\u{200f}' | '\u{2028}'..='\u{202e}'
                | '\u{2060}'..='\u{206f}' | '\u{feff}'
        )
}

/// Adds a character, or where it is hidden what a shell reads as it between `$'` and `'`: its bytes, in any locale.
pub fn push_visible(text: &mut Text, c: char) {
    if c == '\n' {
        text.push("\\n");
    } else if is_hidden(c) {
        let mut room = [0u8; 4];
        for byte in c.encode_utf8(&mut room).bytes() {
            text.push("\\x");
            text.push_hex(byte);
        }
    } else {
        text.push_char(c);
    }
}

/// Adds a name as it stands in a line, as that of a file, with what is hidden in it escaped.
pub fn push_shown(text: &mut Text, name: &str) {
    for c in name.chars() {
        push_visible(text, c);
    }
}

/// The same by itself.
///
/// # Errors
///
/// Where an allocation fails.
pub fn shown(alloc: Global, name: &str) -> Result<String, AllocError> {
    let mut text = Text::new(alloc);
    push_shown(&mut text, name);
    text.finish()
}

/// A text of several lines, with all else that is hidden in it escaped.
///
/// # Errors
///
/// Where an allocation fails.
pub fn visible(alloc: Global, words: &str) -> Result<String, AllocError> {
    let mut text = Text::new(alloc);
    for c in words.chars() {
        match c {
            '\n' => text.push_char(c),
            _ => push_visible(&mut text, c),
        }
    }
    text.finish()
}
