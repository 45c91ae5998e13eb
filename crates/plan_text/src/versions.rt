// The first two tokens of a plan text, which say its version.

ghost use Rattle.std.specs.Prelude.{◌≡◌, Ok, Err, IfOk, IfErr};
ghost use Rattle.plan_text.specs.Grammar.{dots_of};
ghost use Rattle.plan_text.specs.Reader.{version_of, version_at, after_one};
ghost use Rattle.plan_text.specs.Reading.{left};
ghost use Rattle.plan_text.specs.Tokens.{tokens_of};
ghost use Rattle.lexer.specs.Lexemes.{no_dots};

use crate::places::{Expected, Refused};
use crate::symbols::{Keyword, Symbol};
use crate::tokens::Tokens;
use origins::{Head, Language};

/// The version of a plan text.
#[derive(Clone, Copy, PartialEq, Eq)]
pub(crate) enum Version {
    /// With neither `never` nor ranges of counts.
    One,
    /// With both.
    Two,
}

impl Version {
    /// The head of a text of this version.
    pub(crate) fn head(self) -> Head {
        Head {
            language: Language::Plan,
            version: match self {
                Version::One => 1,
                Version::Two => 2,
            },
        }
    }
}

/// Whether a text has the first word of a plan. Then it is read as a plan, and never as a brief.
pub fn is_plan(text: &[u8]) -> bool {
    matches!(
        Tokens::new(text).next().symbol,
        Symbol::Keyword(Keyword::Plan)
    )
}

/// Reads `plan` and the version, and gives the tokens after them.
pub(crate) fn read_version(text: &[u8]) -> Result<(Version, Tokens<'_>), Refused>
    ensures version { IfOk result (λ it. version_at (tokens_of no_dots 1 text.now) ≡ Ok it.0) }
    ensures rest { IfOk result (λ it. left it.1 ≡ after_one (after_one (tokens_of (dots_of it.0) 1 text.now))) }
    ensures refused { IfErr result (λ e. version_at (tokens_of no_dots 1 text.now) ≡ Err e.error) }
{
    let mut tokens = Tokens::new(text);
    let first = tokens.next();
    let Symbol::Keyword(Keyword::Plan) = first.symbol else {
        return Err(tokens.refused(first.no_version(), Expected::Version, None));
    };
    let second = tokens.next();
    let Symbol::Word(word) = second.symbol else {
        return Err(tokens.refused(second.no_version(), Expected::Version, None));
    };
    match version_of(word) {
        Some(Version::One) => Ok((Version::One, tokens)),
        Some(Version::Two) => {
            tokens.allow_dots();
            Ok((Version::Two, tokens))
        }
        None => Err(tokens.refused(second.no_version(), Expected::Version, None)),
    }
}

fn version_of(word: &[u8]) -> Option<Version>
    ensures { result ≡ version_of word.now }
{
    match word {
        b"1" => Some(Version::One),
        b"2" => Some(Version::Two),
        _ => None,
    }
}
