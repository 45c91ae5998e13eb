// The layout of a text.

ghost use Rattle.std.specs.Prelude.{◌≡◌, ◌⊎◌, true, None, Some, IfOk, IfErr};
ghost use Rattle.layout.specs.Refusals.{refusal_of};
ghost use Rattle.layout.specs.SameWords.{SameBytes, SameWords};

use crate::heads::{Unread, letters_of};
use crate::lines::lines_in;
use crate::strangers::stranger_in;
use crate::words::{have_same_bytes, have_same_words};
use crate::writing::written;
use lexer::Letters;
use plan_text::PlanError;
use std::alloc::{AllocError, Global};

/// The text as it is laid out, with its comments. It has the same words, so that it means the same, and the same bytes but for
/// white space.
///
/// # Errors
///
/// P2 where it begins as no plan and as no brief, P1 or P3 at the first byte that belongs to no token, and where an allocation
/// fails.
pub fn formatted(alloc: Global, text: &[u8]) -> Result<Vec<u8>, Unread>
    ensures words { IfOk result (λ it. SameWords text.now it.items) }
    ensures bytes { IfOk result (λ it. SameBytes text.now it.items) }
    ensures laid_out { IfOk result (λ _. refusal_of text.now ≡ None) }
    ensures refused { IfErr result (λ e.
        (e.refused.error ≡ PlanError.NoMemory) ⊎ (refusal_of text.now ≡ Some e.refused.error)) }
{
    let letters = letters_throughout(text)?;
    match with_letters(alloc, text, letters) {
        Ok(it) => Ok(it),
        Err(_) => Err(Unread::memory()),
    }
}

// The letters of the text after its first two tokens, where all of it belongs to tokens.
#[tactic(auto, unfolding(crate::specs::Refusals::refusal_of))]
fn letters_throughout(text: &[u8]) -> Result<Letters, Unread>
    ensures none { IfOk result (λ _. refusal_of text.now ≡ None) }
    ensures refused { IfErr result (λ e. refusal_of text.now ≡ Some e.refused.error) }
{
    match letters_of(text) {
        Ok(letters) => match stranger_in(text, letters) {
            Some(unread) => Err(unread),
            None => Ok(letters),
        },
        Err(unread) => Err(unread),
    }
}

fn with_letters(alloc: Global, text: &[u8], letters: Letters) -> Result<Vec<u8>, AllocError>
    ensures words { IfOk result (λ it. SameWords text.now it.items) }
    ensures bytes { IfOk result (λ it. SameBytes text.now it.items) }
{
    let lines = lines_in(alloc, text, letters)?;
    let laid_out = written(alloc, &lines)?;
    let is_kept = is_kept(alloc, text, laid_out.as_slice())?;
    if is_kept {
        Ok(laid_out)
    } else {
        as_it_is(alloc, text)
    }
}

// Whether the other text has the same words, and the same bytes but for white space.
fn is_kept(alloc: Global, text: &[u8], other: &[u8]) -> Result<bool, AllocError>
    ensures words { IfOk result (λ it. it ≡ true → SameWords text.now other.now) }
    ensures bytes { IfOk result (λ it. it ≡ true → SameBytes text.now other.now) }
{
    if have_same_words(text, other) {
        have_same_bytes(alloc, text, other)
    } else {
        Ok(false)
    }
}

fn as_it_is(alloc: Global, text: &[u8]) -> Result<Vec<u8>, AllocError>
    ensures { IfOk result (λ it. it.items ≡ text.now) }
{
    text.to_vec(alloc)
}
