// What a byte is, and how much of a comment or of a string stands at the front.

ghost use Rattle.std.specs.Prelude.{◌≡◌, ◌≤◌, ◌+◌, length, IfSome};
ghost use Rattle.std.specs.List.{prefix_len};
ghost use Rattle.lexer.specs.Fronts.{is_comment_part, string_length};
ghost use Rattle.lexer.specs.Lexemes.{is_word_part, is_sign, is_of_brief, is_quote, is_string_part};

use crate::lexemes::Letters;

/// How many bytes of a comment stand at the front: all up to the end of its line, or to a foreign byte where it has none.
pub(crate) fn comment_end(bytes: &[u8], letters: Letters) -> usize
    ensures end { result ≡ prefix_len (is_comment_part letters) bytes.now }
    ensures within { result ≤ length bytes.now }
{
    bytes
        .iter()
        .take_while(|byte| is_part_of_comment(**byte, letters))
        .count()
}

fn is_part_of_comment(byte: u8, letters: Letters) -> bool
    ensures { result ≡ is_comment_part letters byte }
{
    byte != b'\n' && (byte.is_ascii() || letters == Letters::Board)
}

/// How many bytes a string has with both of its quotes, where these follow the first of them.
pub(crate) fn string_end(bytes: &[u8]) -> Option<usize>
    ensures end { result ≡ string_length bytes.now }
    ensures within { IfSome result (λ end. end ≤ 1 + length bytes.now) }
{
    let inside = string_inside(bytes);
    match bytes.get(inside) {
        Some(b'"') => Some(inside + 2),
        _ => None,
    }
}

// How many bytes at the front are inside of a string.
fn string_inside(bytes: &[u8]) -> usize
    ensures end { result ≡ prefix_len is_string_part bytes.now }
    ensures within { result ≤ length bytes.now }
{
    bytes
        .iter()
        .take_while(|byte| is_part_of_string(**byte))
        .count()
}

fn is_part_of_string(byte: u8) -> bool
    ensures { result ≡ is_string_part byte }
{
    matches!(byte, b' '..=b'~') && byte != b'"' && byte != b'\\'
}

pub(crate) fn is_quote(byte: u8, letters: Letters) -> bool
    ensures { result ≡ is_quote letters byte }
{
    byte == b'"' && letters == Letters::Board
}

pub(crate) fn is_part_of_word(byte: u8, letters: Letters) -> bool
    ensures { result ≡ is_word_part letters byte }
{
    let is_dot = byte == b'.' && letters != Letters::Plain;
    let is_slash = byte == b'/' && is_of_brief(letters);
    byte.is_ascii_alphanumeric() || byte == b'_' || is_dot || is_slash
}

pub(crate) fn is_sign(byte: u8, letters: Letters) -> bool
    ensures { result ≡ is_sign letters byte }
{
    byte == b';' || is_of_brief(letters) && matches!(byte, b'(' | b')' | b'*')
}

fn is_of_brief(letters: Letters) -> bool
    ensures { result ≡ is_of_brief letters }
{
    letters == Letters::Brief || letters == Letters::Board
}
