// Words that cannot stand where somebody put them, for a reason of their own.

use crate::kinds::LOOKED_AT;
use crate::lines::Lines;
use crate::numbers::Number;
use crate::texts::{RefusedIn, called};
use crate::wording::mend_version;
use brief_tokens::is_board_word;
use plan_core::Name;
use plan_text::words::count_ends;
use plan_text::{Expected, Language};
use std::alloc::{AllocError, Global};
use strsim::osa_distance;

/// What is said of a range in a plan of the first version.
pub(crate) const RANGES: &str = "ranges, as '2..4', are of 'plan 2': let the text begin with that";

const COMMENTS: &str = "a comment begins with '#', and ends with its line";

const ONE_WORD: &str = "a range is one word, as '1..32'";

const DASH: &str = "'-' is no part of a name: that has letters, digits and '_'";

/// Why this token cannot stand there, where its characters tell.
pub(crate) fn reason_of_characters(
    refused: &RefusedIn<'_>,
    expected: Expected,
) -> Option<&'static str> {
    let (before, rest) = refused.text.split_at_checked(refused.place.start)?;
    if rest.starts_with(b"//") || rest.starts_with(b"/*") {
        return Some(COMMENTS);
    }
    let may_end = rest.starts_with(b"-") || rest.starts_with(b"..");
    if may_end && matches!(expected, Expected::Further(_)) && ends_in_times(before) {
        return Some(ONE_WORD);
    }
    let is_dash = rest.starts_with(b"-") && before.last().is_some_and(|byte| is_of_name(*byte));
    is_dash.then_some(DASH)
}

// Whether a text ends in how often a byte stands: `*`, and a number.
fn ends_in_times(text: &[u8]) -> bool {
    let text = text.trim_ascii_end();
    let mut digits = 0usize;
    for byte in text.iter().rev() {
        if !byte.is_ascii_digit() {
            break;
        }
        digits = digits.saturating_add(1);
    }
    let before = text.get(..text.len().saturating_sub(digits)).unwrap_or(&[]);
    digits != 0 && before.trim_ascii_end().ends_with(b"*")
}

fn is_of_name(byte: u8) -> bool {
    byte.is_ascii_alphanumeric() || byte == b'_'
}

/// Whether a text has words of briefs in its first lines, which no plan has.
pub(crate) fn is_like_brief(text: &[u8]) -> bool {
    let head = text.get(..LOOKED_AT).unwrap_or(text);
    for line in head.split(is_line_feed) {
        let words = line.split(is_hash).next().unwrap_or(&[]);
        if words.split(is_between).any(is_brief_word) {
            return true;
        }
    }
    false
}

fn is_line_feed(byte: &u8) -> bool {
    *byte == b'\n'
}

fn is_hash(byte: &u8) -> bool {
    *byte == b'#'
}

// What stands between words.
fn is_between(byte: &u8) -> bool {
    !is_of_name(*byte)
}

fn is_brief_word(word: &[u8]) -> bool {
    word.starts_with(b"0x")
        || word.starts_with(b"0b")
        || matches!(word, b"device" | b"byte" | b"any")
        || word.eq_ignore_ascii_case(b"brief")
}

/// Says why this word cannot stand there, where these words name what can.
pub(crate) fn push_reason(
    alloc: Global,
    lines: &mut Lines,
    refused: &RefusedIn<'_>,
    expected: Expected,
    words: &[&'static str],
    word: &str,
) {
    let language = refused.language;
    if let Some(reason) = reason_of(expected, word) {
        lines.say(reason);
        if expected == (Expected::Item { never: false }) && word == "never" {
            mend_version(lines, refused);
        }
    } else if let Some(number) = number_of(language, expected, word) {
        number.tell(lines);
        number.mend(lines, refused, expected);
    } else if let Some(reason) = reason_of_bits(language, expected, word) {
        lines.say(reason);
        push_spelled(alloc, lines, refused, expected, word);
    } else if let Some(address) = without_direction(language, expected, word) {
        push_address(lines, refused, expected, word, address);
    } else if let Some(known) = in_small_letters(words, word) {
        lines.say(format_args!("words have small letters: {known}"));
        refused.mend(lines, unquoted(known));
    } else if push_meant(alloc, lines, refused, words, word) {
        // (then it was no name)
    } else if expected == Expected::KnownTarget && is_free_name(alloc, word) {
        lines.say("an interrupt has an address without open bits, and this device has some");
    } else if takes_name(expected) && is_name(word) {
        push_keyword(lines, language, word);
    }
}

// Says of which texts this is a word.
fn push_keyword(lines: &mut Lines, language: Language, word: &str) {
    if is_board_word(word) {
        lines.say(format_args!(
            "'{word}' is a word of every 'brief 2', and cannot be a name there"
        ));
    } else {
        let what = called(language);
        lines.say(format_args!("'{word}' is a word of every {what}, and cannot be a name"));
    }
}

/// Says which of these words is meant, where one is so like it that it can be. Whether there is one.
pub(crate) fn push_meant(
    alloc: Global,
    lines: &mut Lines,
    refused: &RefusedIn<'_>,
    words: &[&'static str],
    word: &str,
) -> bool {
    let meant = match meant(alloc, words, word) {
        Ok(meant) => meant,
        Err(_) => {
            lines.fail();
            None
        }
    };
    if let Some(known) = meant {
        lines.say(format_args!("did you mean {known}?"));
        refused.mend(lines, unquoted(known));
    }
    meant.is_some()
}

// A word of the language, as it stands in texts.
fn unquoted(known: &str) -> &str {
    known.trim_matches('\'')
}

// The nearest of these words that stand there as they are, where the edits that part the two are a third of the letters of the
// shorter one at most.
fn meant(
    alloc: Global,
    words: &[&'static str],
    word: &str,
) -> Result<Option<&'static str>, AllocError> {
    let mut nearest = None;
    let mut least = usize::MAX;
    if !is_name(word) {
        return Ok(None);
    }
    for known in words {
        let letters = unquoted(known);
        let far = osa_distance(alloc, word, letters)?;
        let shorter = word.len().min(letters.len());
        if is_name(letters) && far < least && far <= shorter / 3 {
            nearest = Some(*known);
            least = far;
        }
    }
    Ok(nearest)
}

// What this word is, where it is to be an address or a data byte of a brief.
fn number_of(language: Language, expected: Expected, word: &str) -> Option<Number<'_>> {
    if language != Language::Brief || !takes_bits(expected) {
        return None;
    }
    match Number::of(word, takes_address(expected)) {
        // (no open bits and no data byte can stand in an interrupt)
        Some(Number::AddressSpan | Number::TenBits { .. } | Number::Beyond) if is_known(expected) =>
            None,
        number => number,
    }
}

fn reason_of(expected: Expected, word: &str) -> Option<&'static str> {
    match expected {
        Expected::Item { never } => reason_of_item(never, word),
        Expected::BriefItem if word == "brief" => {
            Some("a brief begins once: further briefs are given as further files")
        }
        Expected::Further(_) => reason_of_further(word),
        Expected::Times { ranges } if is_range(word) => Some(if ranges {
            "with this range a message would have a name of more than 32 characters: shorten its name"
        } else {
            "a message has one range, and this would be its second"
        }),
        Expected::Party if word.contains('/') && word.len() > 32 => {
            Some("a label has 32 characters at most")
        }
        _ => None,
    }
}

fn reason_of_item(never: bool, word: &str) -> Option<&'static str> {
    match word {
        "never" if !never => Some("'never' is of 'plan 2': let the text begin with that"),
        "device" | "byte" => Some("'device' and 'byte' are of briefs, which begin with 'brief 1'"),
        _ => None,
    }
}

fn reason_of_further(word: &str) -> Option<&'static str> {
    match word {
        "again" => Some("in a brief a further 'write' or 'read' repeats START by itself"),
        "stop" => Some("in a brief a message stops where it ends: 'stop' follows 'else' alone"),
        _ => None,
    }
}

fn is_range(word: &str) -> bool {
    word.contains('.') && count_ends(word.as_bytes()).is_some()
}

// Why these bits are none of this language, or of none that can stand there.
fn reason_of_bits(language: Language, expected: Expected, word: &str) -> Option<&'static str> {
    if !takes_bits(expected) {
        return None;
    }
    if is_known(expected) && (is_open(word) || word.contains("..")) {
        return Some("an interrupt has one address, without open bits");
    }
    match language {
        Language::Plan => reason_of_plan_bits(word),
        Language::Brief => reason_of_brief_bits(word),
    }
}

fn reason_of_plan_bits(word: &str) -> Option<&'static str> {
    if word.starts_with("0x") || word.starts_with("0X") {
        Some("a plan has bits alone: hex digits are of briefs")
    } else if has_only(word, "01xX") && word.contains('X') {
        Some(SMALL_X)
    } else {
        None
    }
}

const SMALL_X: &str = "an open bit is a small 'x'";

fn reason_of_brief_bits(word: &str) -> Option<&'static str> {
    if word.starts_with("0X") || word.starts_with("0B") {
        return Some("hex digits begin with '0x' and bits with '0b', in small letters");
    }
    if let Some(digits) = word.strip_prefix("0x") {
        return digits
            .contains('x')
            .then_some("a hex digit whose bits are open is a capital 'X'");
    }
    if let Some(bits) = word.strip_prefix("0b") {
        return (has_only(bits, "01xX") && bits.contains('X')).then_some(SMALL_X);
    }
    let is_bits = matches!(word.len(), 7 | 8) && has_only(word, "01x");
    is_bits.then_some("bits in a brief begin with '0b'")
}

// Notes how these bits or digits are written, where they can stand there then.
fn push_spelled(
    alloc: Global,
    lines: &mut Lines,
    refused: &RefusedIn<'_>,
    expected: Expected,
    word: &str,
) {
    let spelled = match refused.language {
        Language::Plan => spelled_bits(alloc, expected, "", word),
        // (of two slips a reason names one)
        Language::Brief if has_two_slips(word) => Ok(None),
        Language::Brief => spelled_in_brief(alloc, expected, word),
    };
    match spelled {
        Ok(Some(spelled)) => refused.mend(lines, spelled.as_str()),
        Ok(None) => {}
        Err(_) => lines.fail(),
    }
}

// Whether both what stands before digits or bits and an open one are of the other size.
fn has_two_slips(word: &str) -> bool {
    match word.strip_prefix("0X") {
        Some(digits) => digits.contains('x'),
        None => word.starts_with("0B") && word.contains('X'),
    }
}

fn spelled_in_brief(
    alloc: Global,
    expected: Expected,
    word: &str,
) -> Result<Option<String>, AllocError> {
    match after_base(word, "0x", "0X") {
        Some(digits) => spelled_digits(alloc, expected, digits),
        None => {
            let bits = after_base(word, "0b", "0B").unwrap_or(word);
            spelled_bits(alloc, expected, "0b", bits)
        }
    }
}

// What stands after one of the two.
fn after_base<'a>(word: &'a str, base: &'static str, other: &'static str) -> Option<&'a str> {
    match word.strip_prefix(base) {
        None => word.strip_prefix(other),
        rest => rest,
    }
}

// The bits of an address or of a data byte with small `x`, after this.
fn spelled_bits(
    alloc: Global,
    expected: Expected,
    before: &'static str,
    bits: &str,
) -> Result<Option<String>, AllocError> {
    let width = if takes_address(expected) { 7 } else { 8 };
    if bits.len() != width || !has_only(bits, "01xX") || is_too_open(expected, bits) {
        return Ok(None);
    }
    let bits = bits.replace(alloc, 'X', "x")?;
    Ok(Some(format!(in alloc; "{before}{bits}")?))
}

// The two digits of an address or of a data byte with capital `X`, after `0x`.
fn spelled_digits(
    alloc: Global,
    expected: Expected,
    digits: &str,
) -> Result<Option<String>, AllocError> {
    let fits = !takes_address(expected) || has_seven_bits(digits);
    if digits.len() != 2
        || !fits
        || !digits.chars().all(is_digit)
        || is_too_open(expected, digits)
    {
        return Ok(None);
    }
    let digits = digits.replace(alloc, 'x', "X")?;
    Ok(Some(format!(in alloc; "0x{digits}")?))
}

// Whether bits are open that have to be known there.
fn is_too_open(expected: Expected, digits: &str) -> bool {
    is_known(expected) && (digits.contains('x') || digits.contains('X'))
}

// Whether the first of two hex digits has the first three bits of an address, which are not open.
fn has_seven_bits(digits: &str) -> bool {
    matches!(digits.as_bytes().first(), Some(b'0'..=b'7'))
}

fn is_digit(c: char) -> bool {
    c.is_ascii_hexdigit() || c == 'x' || c == 'X'
}

// Whether the word would be an address, were open bits allowed.
fn is_open(word: &str) -> bool {
    if let Some(digits) = word.strip_prefix("0x") {
        return digits.len() == 2 && digits.contains('X');
    }
    let bits = word.strip_prefix("0b").unwrap_or(word);
    bits.len() == 7 && has_only(bits, "01x")
}

fn is_known(expected: Expected) -> bool {
    matches!(expected, Expected::KnownAddress | Expected::KnownTarget)
}

fn takes_bits(expected: Expected) -> bool {
    match expected {
        Expected::Payload | Expected::BriefByte => true,
        Expected::Further(further) => further.bytes,
        _ => takes_address(expected),
    }
}

fn takes_address(expected: Expected) -> bool {
    matches!(
        expected,
        Expected::Address
            | Expected::KnownAddress
            | Expected::Target
            | Expected::KnownTarget
            | Expected::BriefAddress
    )
}

fn takes_name(expected: Expected) -> bool {
    matches!(
        expected,
        Expected::Name(_)
            | Expected::Sending
            | Expected::Controller
            | Expected::Party
            | Expected::Target
            | Expected::KnownTarget
            | Expected::Device { .. }
    )
}

// Whether a word has the form of a name.
fn is_name(word: &str) -> bool {
    let [first, ..] = word.as_bytes() else {
        return false;
    };
    first.is_ascii_alphabetic()
        && word.len() <= 32
        && word.chars().all(|c| c.is_ascii_alphanumeric() || c == '_')
}

// Whether something can have this name in a brief.
fn is_free_name(alloc: Global, word: &str) -> bool {
    !brief_tokens::is_brief_word(word) && Name::new(alloc, word).is_ok()
}

// Which of these words it is, but for capital letters.
fn in_small_letters(words: &[&'static str], word: &str) -> Option<&'static str> {
    words
        .iter()
        .find(|known| unquoted(known).eq_ignore_ascii_case(word))
        .copied()
}

// An address of seven bits.
#[derive(Clone, Copy)]
enum Address<'a> {
    // its bits, after what a language has before them
    Bits(&'static str, &'a str),
    Number(u8),
}

// Says which address it is that this word has with its direction bit.
fn push_address(
    lines: &mut Lines,
    refused: &RefusedIn<'_>,
    expected: Expected,
    word: &str,
    address: Address<'_>,
) {
    lines.part(format_args!("an address has seven bits: {word} is "));
    match address {
        Address::Bits(before, bits) => lines.part(format_args!("{before}{bits}")),
        Address::Number(number) => lines.part(format_args!("0x{number:02X}")),
    }
    lines.say(" with its direction bit");
    match address {
        // (no open bits can stand in an interrupt)
        Address::Bits(_, bits) if is_known(expected) && bits.contains('x') => {}
        Address::Bits(before, bits) => refused.mend(lines, format_args!("{before}{bits}")),
        Address::Number(number) => refused.mend(lines, format_args!("0x{number:02X}")),
    }
}

// The address whose header this word writes, with the direction bit at the end (UM10204, 3.1.10).
fn without_direction(language: Language, expected: Expected, word: &str) -> Option<Address<'_>> {
    if !takes_address(expected) {
        return None;
    }
    if let Language::Plan = language {
        return seven_bits("", word);
    }
    if let Some(bits) = word.strip_prefix("0b") {
        return seven_bits("0b", bits);
    }
    half(word.strip_prefix("0x")?)
}

// The first seven of eight bits.
fn seven_bits<'a>(before: &'static str, bits: &'a str) -> Option<Address<'a>> {
    if bits.len() != 8 || !has_only(bits, "01x") {
        return None;
    }
    Some(Address::Bits(before, bits.get(..7)?))
}

// The byte of two digits without its last bit.
fn half(digits: &str) -> Option<Address<'_>> {
    if digits.len() != 2 || digits.starts_with('+') {
        return None;
    }
    let value = u8::from_str_radix(digits, 16).ok()?;
    Some(Address::Number(value / 2))
}

fn has_only(word: &str, letters: &str) -> bool {
    word.chars().all(|letter| letters.contains(letter))
}
