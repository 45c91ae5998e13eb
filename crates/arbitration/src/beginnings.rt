// What two messages may come to within the bytes that they begin with.

ghost use Rattle.std.specs.Prelude.{◌≡◌, [], ◌∷◌, ◌++◌, ◌+◌, ◌*◌, ◌<◌, ◌^◌, List};
ghost use Rattle.message_tree.specs.Patterns.{pattern_bits};
ghost use Rattle.message_tree.specs.Texts.{TailText, PayloadText};
ghost use Rattle.message_tree.specs.Trees.{PayloadTree};
ghost use Rattle.arbitration.specs.Ways.{AreOutcomes, ArePartings, AllHaveRoom};
ghost use Rattle.arbitration.specs.Ways.{Step, with_bytes, NeverPart, IsInByte, IsBeginning};

use crate::spans::Outcomes;

/// How many bytes two messages have sent of which none parts them for certain, and what the two may come to within them:
/// either may win in an open bit, and after a refusal they go on, and may end or part.
#[derive(Clone, Copy)]
pub(crate) struct Beginning {
    pub(crate) bytes: u32,
    pub(crate) outcomes: Outcomes,
}

impl Beginning {
    /// No byte.
    pub(crate) fn none() -> Beginning
        ensures { IsBeginning [] [] result }
    {
        Beginning {
            bytes: 0,
            outcomes: Outcomes::none(),
        }
    }

    /// One more byte of each, within which two come to these.
    pub(crate) fn and(self, here: Outcomes) -> Beginning
        requires slots { 9 * self.bytes + 9 < 2 ^ 32 }
        requires room { AllHaveRoom (9 * self.bytes) here }
        ensures { (ss ts : List Step) (s t : Step) → IsBeginning ss ts self → NeverPart (s ∷ []) (t ∷ []) →
            IsInByte s t here → IsBeginning (ss ++ s ∷ []) (ts ++ t ∷ []) result }
    {
        let here = here.after(9 * self.bytes);
        Beginning {
            bytes: self.bytes + 1,
            outcomes: self.outcomes.union(here),
        }
    }

    /// What two messages come to that begin so, and come to these after it.
    pub(crate) fn followed_by(self, rest: Outcomes) -> Outcomes
        requires slots { 9 * self.bytes < 2 ^ 32 }
        requires room { AllHaveRoom (9 * self.bytes) rest }
        ensures { (ss ts : List Step) (x y : PayloadTree) → IsBeginning ss ts self →
            AreOutcomes (PayloadText x) (PayloadText y) rest →
            AreOutcomes (PayloadText (with_bytes ss x)) (PayloadText (with_bytes ts y)) result }
    {
        self.outcomes.union(rest.after(9 * self.bytes))
    }
}

/// What two may come to in a byte of each, where the bits part them so and they come to `refused` after a refusal.
pub(crate) fn in_byte(parted: Outcomes, refused: Outcomes) -> Outcomes
    requires { AllHaveRoom 9 refused }
    ensures { (s t : Step) → ArePartings (pattern_bits s.bits) (pattern_bits t.bits) parted →
        AreOutcomes (TailText s.refused) (TailText t.refused) refused → IsInByte s t result }
{
    parted.union(refused.after(9))
}
