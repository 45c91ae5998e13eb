// What belongs to no token in a text.

ghost use Rattle.std.specs.Prelude.{◌≡◌, ℕ, suc, None, Some};
ghost use Rattle.layout.specs.Refusals.{alphabet_of, stranger};
ghost use Rattle.layout.specs.Strangers.{errors_said, size};
ghost use Rattle.lexer.specs.Lexemes.{Alphabet, letters, later, dots_after, lexemes_of};
ghost use Rattle.lexer.specs.Reading.{left_of};

use crate::heads::{Unread, unread_at};
use lexer::{Letters, Lexer, Symbol};
use plan_text::Language;

/// The refusal of the first of what belongs to no token in this text, which has these letters after its first two tokens. None
/// where all belongs to tokens.
pub(crate) fn stranger_in(text: &[u8], letters: Letters) -> Option<Unread>
    ensures { errors_said result ≡ stranger (lexemes_of (alphabet_of letters) 1 text.now) }
{
    match letters {
        Letters::Plain => stranger_by(text, Language::Plan, Letters::Plain),
        Letters::Dots => stranger_with_dots(text),
        Letters::Brief => stranger_by(text, Language::Brief, Letters::Brief),
        Letters::Board => stranger_by(text, Language::Brief, Letters::Board),
    }
}

// By these letters from the first lexeme on.
fn stranger_by(text: &[u8], language: Language, by: Letters) -> Option<Unread>
    ensures { (a : Alphabet) → letters a ≡ by → later a ≡ a →
        errors_said result ≡ stranger (lexemes_of a 1 text.now) }
{
    let mut lexer = Lexer::new(text, by);
    stranger_from(text, language, &mut lexer)
}

// By those of the second version of plans, of which `.` is one after the second lexeme.
fn stranger_with_dots(text: &[u8]) -> Option<Unread>
    ensures { errors_said result ≡ stranger (lexemes_of (dots_after 2) 1 text.now) }
{
    let mut lexer = Lexer::new(text, Letters::Plain);
    match look(text, Language::Plan, &mut lexer) {
        Step::Goes => {}
        Step::Ends => return None,
        Step::Strange(unread) => return Some(unread),
    }
    match look(text, Language::Plan, &mut lexer) {
        Step::Goes => {}
        Step::Ends => return None,
        Step::Strange(unread) => return Some(unread),
    }
    lexer.letters = Letters::Dots;
    stranger_from(text, Language::Plan, &mut lexer)
}

// In what is left of the text.
fn stranger_from(text: &[u8], language: Language, lexer: &mut Lexer<'_>) -> Option<Unread>
    ensures { (a : Alphabet) → letters a ≡ lexer.old.letters → later a ≡ a →
        errors_said result ≡ stranger (left_of a lexer.old) }
{
    loop {
        match look(text, language, lexer) {
            Step::Goes => {}
            Step::Ends => return None,
            Step::Strange(unread) => return Some(unread),
        }
    }
}

// What a lexeme is.
#[derive(Clone, Copy)]
enum Step {
    // One after which others come.
    Goes,
    // The end of the text.
    Ends,
    // What belongs to no token.
    Strange(Unread),
}

// What the next lexeme is.
fn look(text: &[u8], language: Language, lexer: &mut Lexer<'_>) -> Step
    ensures goes { result ≡ Step.Goes → (a : Alphabet) → letters a ≡ lexer.old.letters →
        stranger (left_of a lexer.old) ≡ stranger (left_of (later a) lexer.new) }
    ensures fewer { result ≡ Step.Goes → (a : Alphabet) → letters a ≡ lexer.old.letters →
        size (left_of a lexer.old) ≡ suc (size (left_of (later a) lexer.new)) }
    ensures ends { result ≡ Step.Ends → (a : Alphabet) → letters a ≡ lexer.old.letters →
        stranger (left_of a lexer.old) ≡ None }
    ensures strange { (unread : Unread) → result ≡ Step.Strange unread → (a : Alphabet) → letters a ≡ lexer.old.letters →
        stranger (left_of a lexer.old) ≡ Some unread.refused.error }
    ensures letters { lexer.new.letters ≡ lexer.old.letters }
{
    let lexeme = lexer.next();
    match lexeme.symbol {
        Symbol::Word(_) | Symbol::Sign(_) => Step::Goes,
        Symbol::End => Step::Ends,
        Symbol::Stray | Symbol::Foreign => Step::Strange(unread_at(
            language,
            text,
            lexer.spot(),
            lexeme,
        )),
    }
}
