// The first two tokens of a text, which say its language, and why a text has no layout.

ghost use Rattle.std.specs.Prelude.{◌≡◌, Ok, Err, Some, IfOk, IfErr};
ghost use Rattle.layout.specs.Refusals.{letters_in, plan_letters, or_board, is_board, is_second_version, brief_head, brief_letters, no_version, stranger};
ghost use Rattle.layout.specs.Strangers.{head_said, IsStranger};
ghost use Rattle.lexer.specs.Lexemes.{Lexemes, no_dots, briefs, boards, lexemes_of};
ghost use Rattle.lexer.specs.Reading.{left_of, with_lexeme};

use lexer::{Letters, Lexeme, Lexer, Spot, Symbol};
use plan_text::{Expected, Language, Place, PlanError, Refused};

/// Why a text has no layout: its first two tokens are those of no plan and of no brief, or it has a character or a byte
/// that belongs to no token. It is refused as the readers of plans and of briefs do.
#[derive(Clone, Copy)]
pub struct Unread {
    pub language: Language,
    pub refused: Refused,
}

impl Unread {
    /// An allocation failed.
    pub(crate) fn memory() -> Unread
        ensures { result.refused.error ≡ PlanError.NoMemory }
    {
        Unread {
            language: Language::Plan,
            refused: Refused::memory(),
        }
    }
}

/// The letters of the text after its first two tokens.
///
/// # Errors
///
/// P2, P1 or P3, as a reader of plans and of briefs refuses these two.
#[tactic(auto, unfolding(crate::specs::Refusals::letters_in))]
pub(crate) fn letters_of(text: &[u8]) -> Result<Letters, Unread>
    ensures found { IfOk result (λ letters. letters_in text.now ≡ Ok letters) }
    ensures refused { IfErr result (λ e. letters_in text.now ≡ Err e.refused.error) }
{
    let brief = head_of_brief(text);
    let mut lexer = Lexer::new(text, Letters::Plain);
    let first = lexer.next();
    match first.symbol {
        Symbol::Word(b"plan") => plan_letters(text, &mut lexer),
        _ => match brief {
            Head::Brief => Ok(Letters::Brief),
            Head::Board => Ok(Letters::Board),
            Head::Unread(unread) => Err(unread),
            Head::Other => Err(no_version(Language::Plan, text, &lexer, first)),
        },
    }
}

// The letters of a plan by its version, which comes next.
fn plan_letters(text: &[u8], lexer: &mut Lexer<'_>) -> Result<Letters, Unread>
    requires { lexer.old.letters ≡ Letters.Plain }
    ensures found { IfOk result (λ letters. plan_letters (left_of no_dots lexer.old) ≡ Ok letters) }
    ensures refused { IfErr result (λ e. plan_letters (left_of no_dots lexer.old) ≡ Err e.refused.error) }
{
    let second = lexer.next();
    match second.symbol {
        Symbol::Word(b"1") => Ok(Letters::Plain),
        Symbol::Word(b"2") => Ok(Letters::Dots),
        _ => Err(no_version(Language::Plan, text, lexer, second)),
    }
}

// How a text begins that is no plan.
#[derive(Clone, Copy)]
enum Head {
    // As a brief of the first version.
    Brief,
    // As one of the second.
    Board,
    // As a brief whose version is no token.
    Unread(Unread),
    // The first word is not `brief`, or its version is another word.
    Other,
}

fn head_of_brief(text: &[u8]) -> Head
    ensures { head_said result ≡ or_board (brief_head (lexemes_of briefs 1 text.now)) (is_board (lexemes_of boards 1 text.now)) }
{
    let is_board = is_board(text);
    match head_of_first_version(text) {
        Head::Brief => Head::Brief,
        Head::Unread(unread) if !is_board => Head::Unread(unread),
        Head::Other if !is_board => Head::Other,
        _ => Head::Board,
    }
}

fn is_board(text: &[u8]) -> bool
    ensures { result ≡ is_board (lexemes_of boards 1 text.now) }
{
    let mut lexer = Lexer::new(text, Letters::Board);
    match lexer.next().symbol {
        Symbol::Word(b"brief") => is_second_version(&mut lexer),
        _ => false,
    }
}

fn is_second_version(lexer: &mut Lexer<'_>) -> bool
    requires { lexer.old.letters ≡ Letters.Board }
    ensures { result ≡ is_second_version (left_of boards lexer.old) }
{
    matches!(lexer.next().symbol, Symbol::Word(b"2"))
}

fn head_of_first_version(text: &[u8]) -> Head
    ensures { head_said result ≡ brief_head (lexemes_of briefs 1 text.now) }
{
    let mut lexer = Lexer::new(text, Letters::Brief);
    let first = lexer.next();
    match first.symbol {
        Symbol::Word(b"brief") => second_of_brief(text, &mut lexer),
        _ => Head::Other,
    }
}

fn second_of_brief(text: &[u8], lexer: &mut Lexer<'_>) -> Head
    requires { lexer.old.letters ≡ Letters.Brief }
    ensures { head_said result ≡ brief_letters (left_of briefs lexer.old) }
{
    let second = lexer.next();
    match second.symbol {
        Symbol::Word(b"1") => Head::Brief,
        Symbol::Stray | Symbol::Foreign => Head::Unread(unread_at(
            Language::Brief,
            text,
            lexer.spot(),
            second,
        )),
        _ => Head::Other,
    }
}

// The refusal of a token in the place of one of the first two.
fn no_version(language: Language, text: &[u8], lexer: &Lexer<'_>, lexeme: Lexeme<'_>) -> Unread
    ensures { (rest : Lexemes) → no_version (with_lexeme lexeme.entry rest) ≡ result.refused.error }
{
    let error = match lexeme.symbol {
        Symbol::Stray => PlanError::Unexpected(lexeme.line),
        Symbol::Foreign => PlanError::NotAscii(lexeme.line),
        _ => PlanError::Version(lexeme.line),
    };
    Unread {
        language,
        refused: Refused::at(error, text, lexer.spot(), Expected::Version, None),
    }
}

/// The refusal of what belongs to no token. What could stand there is not known.
pub(crate) fn unread_at(language: Language, text: &[u8], spot: Spot, lexeme: Lexeme<'_>) -> Unread
    ensures { (rest : Lexemes) → IsStranger lexeme.entry → stranger (with_lexeme lexeme.entry rest) ≡ Some result.refused.error }
{
    let error = match lexeme.symbol {
        Symbol::Foreign => PlanError::NotAscii(lexeme.line),
        _ => PlanError::Unexpected(lexeme.line),
    };
    let Refused { error, place } = Refused::at(error, text, spot, Expected::Version, None);
    Unread {
        language,
        refused: Refused {
            error,
            place: without_expected(place),
        },
    }
}

fn without_expected(place: Option<Place>) -> Option<Place> {
    match place {
        Some(place) => Some(Place {
            expected: None,
            ..place
        }),
        None => None,
    }
}
