// Where names get what they stand for: also those of the messages that one message makes by a choice, which nobody writes down.

use crate::readings::names_of_item;
use brief_tokens::{Keyword, Symbol, Tokens};
use lexer::Letters;
use origins::{Kind, Language, NameAt, NamedTexts, Role, Spans};

/// Where what is named so gets its name. Of a message that may be the one that makes it by a range, a choice or a group.
pub fn definition_in(
    names: &NamedTexts<'_>,
    spans: &Spans,
    kind: Kind,
    word: &[u8],
) -> Option<NameAt> {
    match names.definition(kind, word) {
        None if kind == Kind::Message => chosen(names, spans, word),
        found => found,
    }
}

// The message that makes this one by a choice.
fn chosen(names: &NamedTexts<'_>, spans: &Spans, word: &[u8]) -> Option<NameAt> {
    for at in names.names() {
        if at.gives(Kind::Message) && makes(names, spans, *at, word) {
            return Some(*at);
        }
    }
    None
}

fn makes(names: &NamedTexts<'_>, spans: &Spans, at: NameAt, word: &[u8]) -> bool {
    let Some(rest) = after(names.word(at), word) else {
        return false;
    };
    let Some(numbers) = numbers_of(names, spans, at) else {
        return false;
    };
    match group_in(names, names_of_item(spans, at.item)) {
        None => is_among(numbers, rest),
        Some(group) => has_device(names, names_of_item(spans, group.item), numbers, rest),
    }
}

// Whether this is the name of one of the devices of a group, and one of these numbers.
fn has_device(
    names: &NamedTexts<'_>,
    of_group: &[NameAt],
    numbers: (u32, u32),
    word: &[u8],
) -> bool {
    for at in of_group {
        if at.role == Role::Used {
            if let Some(rest) = after(names.word(*at), word) {
                if is_among(numbers, rest) {
                    return true;
                }
            }
        }
    }
    false
}

// What stands in a name after this one and `_`.
fn after<'n>(front: &[u8], name: &'n [u8]) -> Option<&'n [u8]> {
    name.strip_prefix(front)?.strip_prefix(b"_")
}

// Whether these are the digits of one of the numbers, without leading zeros.
fn is_among(numbers: (u32, u32), digits: &[u8]) -> bool {
    if digits.first() == Some(&b'0') && digits.len() != 1
        || !digits.iter().all(u8::is_ascii_digit)
    {
        return false;
    }
    match str::from_utf8(digits).unwrap_or("").parse::<u32>() {
        Ok(number) => numbers.0 <= number && number <= numbers.1,
        Err(_) => false,
    }
}

/// The group of devices that stands among these names of a message.
pub fn group_in(names: &NamedTexts<'_>, own: &[NameAt]) -> Option<NameAt> {
    for at in own {
        if at.kind == Kind::Device && at.role == Role::Used {
            if let Some(group) = names.group(names.word(*at)) {
                return Some(group);
            }
        }
    }
    None
}

// ---- numbers

/// The numbers of the messages that the message makes by a range or a choice which gets its name there.
pub fn numbers_of(names: &NamedTexts<'_>, spans: &Spans, at: NameAt) -> Option<(u32, u32)> {
    let range = names.range(at);
    if !range.is_empty() {
        return ends_of(range);
    }
    let item = spans.item(at)?;
    let letters = letters_of(spans, at.span.file)?;
    let text = names.text(item.span.file).get(..item.span.end)?;
    let mut tokens = Tokens::from(text, letters, item.span.start, 1);
    let blocks = blocks_of(&mut tokens, item.span.end)?;
    Some((1, blocks))
}

// The letters of a brief that may have choices.
fn letters_of(spans: &Spans, file: u32) -> Option<Letters> {
    let head = spans.head(file)?;
    (head.language == Language::Brief && head.version == 2).then_some(Letters::Board)
}

// The ends of a range.
fn ends_of(range: &[u8]) -> Option<(u32, u32)> {
    let (least, greatest) = str::from_utf8(range).ok()?.split_once("..")?;
    let least = least.parse::<u8>().ok()?;
    let greatest = greatest.parse::<u8>().ok()?;
    Some((least as u32, greatest as u32))
}

// Into how many blocks the choice is cut that stands among these tokens.
fn blocks_of(tokens: &mut Tokens<'_>, most: usize) -> Option<u32> {
    for _ in 0..most {
        match tokens.next().symbol {
            Symbol::Span { least, greatest } => {
                return Some(blocks_from(least as u32, greatest as u32 + 1));
            }
            Symbol::Keyword(Keyword::But) => return blocks_but(tokens.next().symbol),
            Symbol::End | Symbol::Stray | Symbol::Foreign => return None,
            _ => {}
        }
    }
    None
}

// The blocks of all values but these.
fn blocks_but(symbol: Symbol<'_>) -> Option<u32> {
    let (least, greatest) = match symbol {
        Symbol::Span { least, greatest } => (least, greatest),
        Symbol::Word(word) => {
            let value = value_of(str::from_utf8(word).ok()?)?;
            (value, value)
        }
        _ => return None,
    };
    let before = blocks_from(0, least as u32);
    let after = blocks_from(greatest as u32 + 1, 256);
    Some(before.saturating_add(after))
}

// The value of a byte of which all bits are known.
fn value_of(word: &str) -> Option<u8> {
    if let Some(digits) = word.strip_prefix("0x") {
        return u8::from_str_radix(digits, 16).ok();
    }
    u8::from_str_radix(word.strip_prefix("0b")?, 2).ok()
}

// The fewest blocks that have the values from one up to the one before another.
fn blocks_from(least: u32, end: u32) -> u32 {
    let mut from = least;
    let mut blocks = 0u32;
    for _ in 0..256 {
        if from >= end {
            break;
        }
        from = from.saturating_add(block_at(from, end));
        blocks = blocks.saturating_add(1);
    }
    blocks
}

// How many values the greatest block has that begins here and ends before there.
fn block_at(from: u32, end: u32) -> u32 {
    let mut size = 1u32;
    for _ in 0..8 {
        let double = size.saturating_mul(2);
        if from & double.saturating_sub(1) != 0 || end < from.saturating_add(double) {
            break;
        }
        size = double;
    }
    size
}
