// Whether two texts have the same words.

ghost use Rattle.std.specs.Prelude.{◌≡◌, true, not, IfOk};
ghost use Rattle.std.specs.List.{filter};
ghost use Rattle.lexer.specs.Lexemes.{Alphabet, letters, later, no_dots, dots_after, briefs, boards, Lexemes};
ghost use Rattle.lexer.specs.Reading.{left_of, with_lexeme};
ghost use Rattle.layout.specs.SameWords.{Alike, SameBy, SameBytes, SameWords, is_white};

use lexer::{Letters, Lexeme, Lexer, Symbol};
use std::alloc::{AllocError, Global};

/// Whether two texts have the same words in each of the languages.
pub(crate) fn have_same_words(one: &[u8], other: &[u8]) -> bool
    ensures { result ≡ true → SameWords one.now other.now }
{
    are_same_by(one, other, Letters::Plain)
        && are_same_with_dots(one, other)
        && are_same_by(one, other, Letters::Brief)
        && are_same_by(one, other, Letters::Board)
}

// By these letters from the first lexeme on.
fn are_same_by(one: &[u8], other: &[u8], by: Letters) -> bool
    ensures { (a : Alphabet) → letters a ≡ by → later a ≡ a → result ≡ true → SameBy a one.now other.now }
{
    let most = one.len();
    let mut one = Lexer::new(one, by);
    let mut other = Lexer::new(other, by);
    are_alike(&mut one, &mut other, most)
}

// By those of the second version of plans, of which `.` is one after the second lexeme.
fn are_same_with_dots(one: &[u8], other: &[u8]) -> bool
    ensures { result ≡ true → SameBy (dots_after 2) one.now other.now }
{
    let most = one.len();
    let mut one = Lexer::new(one, Letters::Plain);
    let mut other = Lexer::new(other, Letters::Plain);
    match take_both(&mut one, &mut other) {
        Comparison::Differs => return false,
        Comparison::Ends => return true,
        Comparison::Goes => {}
    }
    match take_both(&mut one, &mut other) {
        Comparison::Differs => return false,
        Comparison::Ends => return true,
        Comparison::Goes => {}
    }
    one.letters = Letters::Dots;
    other.letters = Letters::Dots;
    are_alike(&mut one, &mut other, most)
}

// Whether what is left of the two differs in lines alone. Lexemes are compared up to so many, and one.
fn are_alike(one: &mut Lexer<'_>, other: &mut Lexer<'_>, most: usize) -> bool
    ensures { (a : Alphabet) → letters a ≡ one.old.letters → letters a ≡ other.old.letters → later a ≡ a →
        result ≡ true → Alike (left_of a one.old) (left_of a other.old) }
{
    for _ in 0..most.saturating_add(1) {
        match take_both(one, other) {
            Comparison::Differs => return false,
            Comparison::Ends => return true,
            Comparison::Goes => {}
        }
    }
    false
}

// How two lexemes compare that come next.
#[derive(Clone, Copy)]
enum Comparison {
    // They differ.
    Differs,
    // They are the same, and others come after them.
    Goes,
    // Both are the end, or both are what is no lexeme.
    Ends,
}

fn take_both(one: &mut Lexer<'_>, other: &mut Lexer<'_>) -> Comparison
    ensures goes { result ≡ Comparison.Goes → (a : Alphabet) → letters a ≡ one.old.letters → letters a ≡ other.old.letters →
        Alike (left_of (later a) one.new) (left_of (later a) other.new) → Alike (left_of a one.old) (left_of a other.old) }
    ensures ends { result ≡ Comparison.Ends → (a : Alphabet) → letters a ≡ one.old.letters → letters a ≡ other.old.letters →
        Alike (left_of a one.old) (left_of a other.old) }
    ensures letters { one.new.letters ≡ one.old.letters }
    ensures others { other.new.letters ≡ other.old.letters }
{
    compared(one.next(), other.next())
}

fn compared(one: Lexeme<'_>, other: Lexeme<'_>) -> Comparison
    ensures goes { result ≡ Comparison.Goes → (rest others : Lexemes) → Alike rest others →
        Alike (with_lexeme one.entry rest) (with_lexeme other.entry others) }
    ensures ends { result ≡ Comparison.Ends → (rest others : Lexemes) →
        Alike (with_lexeme one.entry rest) (with_lexeme other.entry others) }
{
    match (one.symbol, other.symbol) {
        (Symbol::Word(word), Symbol::Word(other)) if word == other => Comparison::Goes,
        (Symbol::Sign(sign), Symbol::Sign(other)) if sign == other => Comparison::Goes,
        (Symbol::Stray, Symbol::Stray) => Comparison::Ends,
        (Symbol::Foreign, Symbol::Foreign) => Comparison::Ends,
        (Symbol::End, Symbol::End) => Comparison::Ends,
        _ => Comparison::Differs,
    }
}

// ---- bytes

/// Whether two texts have the same bytes but for white space.
///
/// # Errors
///
/// Where an allocation fails.
pub(crate) fn have_same_bytes(alloc: Global, one: &[u8], other: &[u8]) -> Result<bool, AllocError>
    ensures { IfOk result (λ it. it ≡ true → SameBytes one.now other.now) }
{
    let one = without_white_space(alloc, one)?;
    let other = without_white_space(alloc, other)?;
    Ok(one.as_slice() == other.as_slice())
}

fn without_white_space(alloc: Global, text: &[u8]) -> Result<Vec<u8>, AllocError>
    ensures { IfOk result (λ it. it.items ≡ filter (λ byte. not (is_white byte)) text.now) }
{
    text.iter()
        .copied()
        .filter(|&byte| !is_white(byte))
        .collect(alloc)
}

fn is_white(byte: u8) -> bool
    ensures { result ≡ is_white byte }
{
    matches!(byte, b' ' | b'\t' | b'\r' | b'\n')
}
