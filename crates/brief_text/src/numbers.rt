// Numbers as they are written, however long.

ghost use Rattle.std.specs.Prelude.{◌≡◌, true, is_some, nat_le, IfSome};
ghost use Rattle.plan_text.specs.Words.{is_digits, number};

use plan_text::words::{is_digits, number};

/// A word of digits alone.
#[derive(Clone, Copy)]
pub(crate) struct Digits<'a> {
    word: &'a [u8],
    ghost are_digits: { is_digits word.now ≡ true },
}

impl Digits<'_> {
    /// The number that they write, where it is at most 255.
    pub(crate) fn value(&self) -> Option<u8>
        ensures form { is_some result ≡ nat_le (number self.now.word.now) 255 }
        ensures value { IfSome result (λ n. n ≡ number self.now.word.now) }
    {
        number(self.word)
    }
}

/// The digits that the word is.
pub(crate) fn digits_of(word: &[u8]) -> Option<Digits<'_>>
    ensures form { is_some result ≡ is_digits word.now }
    ensures value { IfSome result (λ it. it.word.now ≡ word.now) }
{
    if is_digits(word) {
        Some(Digits { word })
    } else {
        None
    }
}
