// What a brief begins with: `brief` and its version, and in the second version the files that it names.

ghost use Rattle.std.specs.Prelude.{◌≡◌, Some, None, Ok, Err, IfOk, IfErr, IfSome, OnOk};
ghost use Rattle.brief_tokens.specs.Heads.{after_head, after_second_head, begun, opened};
ghost use Rattle.brief_tokens.specs.Heads.{after_files};
ghost use Rattle.brief_tokens.specs.Reading.{left, letters_of};
ghost use Rattle.brief_tokens.specs.Tokens.{tokens_of, board_tokens_of};

use crate::symbols::{Keyword, Symbol};
use crate::tokens::Tokens;
use lexer::Letters;
use plan_text::Refused;

/// Reads the head of a brief: the tokens after it. The files that it names are passed over.
///
/// # Errors
///
/// Those of `begin`, and of `next_file` and `end_file` at the files that it names.
#[tactic(auto, unfolding(crate::specs::Heads::opened))]
pub fn after_head(text: &[u8]) -> Result<Tokens<'_>, Refused>
    ensures rest { IfOk result (λ rest. opened text.now ≡ Ok (letters_of rest, left rest)) }
    ensures refused { IfErr result (λ e. opened text.now ≡ Err e.error) }
{
    let mut tokens = begin(text)?;
    if tokens.letters() == Letters::Board {
        pass_files(&mut tokens)?;
    }
    Ok(tokens)
}

/// Reads `brief` and its version: the tokens after them. In the second version the files that the head names come next.
///
/// # Errors
///
/// `Version` where another word or the end stands in the place of one of them, `Unexpected` where a character stands there
/// that belongs to no token, and `NotAscii` where it is none of ASCII. The place is that of what stands there.
#[tactic(auto, unfolding(crate::specs::Heads::begun))]
pub fn begin(text: &[u8]) -> Result<Tokens<'_>, Refused>
    ensures rest { IfOk result (λ rest. begun text.now ≡ Ok (letters_of rest, left rest)) }
    ensures refused { IfErr result (λ e. begun text.now ≡ Err e.error) }
{
    match after_first_version(text) {
        Ok(tokens) => Ok(tokens),
        Err(refused) => match after_second_version(text) {
            Some(tokens) => Ok(tokens),
            None => Err(refused),
        },
    }
}

// Past all files that a head names.
#[tactic(auto, using(crate::proofs::HeadLemmas::none_left, crate::proofs::HeadLemmas::wrong_left, crate::proofs::HeadLemmas::one_past, crate::proofs::HeadLemmas::unended, crate::proofs::HeadLemmas::fewer))]
fn pass_files(tokens: &mut Tokens<'_>) -> Result<(), Refused>
    ensures rest { OnOk result (after_files (left tokens.old) ≡ Ok (left tokens.new)) }
    ensures refused { IfErr result (λ e. after_files (left tokens.old) ≡ Err e.error) }
    ensures letters { letters_of tokens.new ≡ letters_of tokens.old }
{
    while let Some(_) = tokens.next_file()? {
        tokens.end_file()?;
    }
    Ok(())
}

// `brief` and `1`
fn after_first_version(text: &[u8]) -> Result<Tokens<'_>, Refused>
    ensures rest { IfOk result (λ rest. after_head (tokens_of 1 text.now) ≡ Ok (left rest)) }
    ensures letters { IfOk result (λ rest. letters_of rest ≡ Letters.Brief) }
    ensures refused { IfErr result (λ e. after_head (tokens_of 1 text.now) ≡ Err e.error) }
{
    let mut tokens = Tokens::new(text);
    let first = tokens.next();
    let Symbol::Keyword(Keyword::Brief) = first.symbol else {
        return Err(tokens.no_head(first.no_version()));
    };
    let second = tokens.next();
    match second.symbol {
        Symbol::Word(b"1") => Ok(tokens),
        _ => Err(tokens.no_head(second.no_version())),
    }
}

// `brief` and `2`
fn after_second_version(text: &[u8]) -> Option<Tokens<'_>>
    ensures rest { IfSome result (λ rest. after_second_head (board_tokens_of 1 text.now) ≡ Some (left rest)) }
    ensures letters { IfSome result (λ rest. letters_of rest ≡ Letters.Board) }
    ensures none { result ≡ None → after_second_head (board_tokens_of 1 text.now) ≡ None }
{
    let mut tokens = Tokens::of_board(text);
    let Symbol::Keyword(Keyword::Brief) = tokens.next().symbol else {
        return None;
    };
    match tokens.next().symbol {
        Symbol::Word(b"2") => Some(tokens),
        _ => None,
    }
}
