// What tokens are, which dumps are accepted, which token is refused in another, and when a signal is missing. Each
// function is a law: it does nothing, and its contract is the theorem.

ghost use Rattle.std.specs.Prelude.{◌≡◌, ℕ, List, Some, Ok, Err};
ghost use Rattle.vcd_read.specs.Beginnings.{CanBe, FirstWrong, HasBadToken, HasTimeBack, IsLate, Lacks};
ghost use Rattle.vcd_read.specs.Dumps.{samples_of};
ghost use Rattle.vcd_read.specs.Grammar.{Spells};
ghost use Rattle.vcd_read.specs.Probes.{Finder};
ghost use Rattle.vcd_read.specs.Runs.{AreRuns};
ghost use Rattle.vcd_read.specs.Tokens.{Token, tokens_of};
ghost use Rattle.vcd_read.specs.Words.{command_of};
ghost use Rattle.vcd_read.specs.declared.errors.Refusal.TheVariants.{NoSignal, BadToken, TimeBack};
ghost use Rattle.vcd_read.specs.declared.samples.Sample.{Sample};
ghost use Rattle.run_errors.specs.declared.dumps.Signal.{Signal};
ghost use Rattle.vcd_read.specs.declared.words.Command.TheVariants.{EndDefinitions};

/// The tokens of a text are its runs of bytes that are not white space, as long as they can be, and each stands on the
/// line after the white space before it.
pub fn tokens_are_the_runs_between_white_space()
    ensures { (text : List ℕ) → AreRuns 1 text (tokens_of 1 text) }
{}

/// The texts that are accepted are those that the grammar of docs/CAPTURES.md spells. Their samples are those of their
/// time stamps: the levels of the last changes, where they differ from those of the stamp before.
pub fn accepted_dumps_are_those_that_the_grammar_spells()
    ensures spelled { (scl sda : Finder) (text : List ℕ) (samples : List Sample) →
        samples_of scl sda text ≡ Ok samples → Spells scl sda (tokens_of 1 text) samples }
    ensures accepted { (scl sda : Finder) (text : List ℕ) (samples : List Sample) →
        Spells scl sda (tokens_of 1 text) samples → samples_of scl sda text ≡ Ok samples }
{}

/// The token that is refused, as V2 or V3, is the first with which no accepted dump goes on: some accepted dump begins
/// with the tokens before it, and none with these and it. It is V3 where it is a time and another time would be right.
///
/// One token is not refused where no accepted dump goes on with it: `$enddefinitions` where a signal is missing. V1 comes
/// at its `$end`, or V4 at the end of the text. Where a name or code is none that a `$var` can have, no dump is
/// accepted.
pub fn refused_tokens_are_the_first_wrong_ones()
    ensures names { (scl sda : Finder) (text : List ℕ) (samples : List Sample) →
        Spells scl sda (tokens_of 1 text) samples → CanBe scl × CanBe sda }
    ensures bad { (scl sda : Finder) (text : List ℕ) (line : ℕ) →
        CanBe scl →
        CanBe sda →
        samples_of scl sda text ≡ Err (BadToken line) →
        HasBadToken scl sda (tokens_of 1 text) line }
    ensures bad_is_refused { (scl sda : Finder) (text : List ℕ) (line : ℕ) →
        HasBadToken scl sda (tokens_of 1 text) line → samples_of scl sda text ≡ Err (BadToken line) }
    ensures back { (scl sda : Finder) (text : List ℕ) (line : ℕ) →
        CanBe scl →
        CanBe sda →
        samples_of scl sda text ≡ Err (TimeBack line) →
        HasTimeBack scl sda (tokens_of 1 text) line }
    ensures back_is_refused { (scl sda : Finder) (text : List ℕ) (line : ℕ) →
        HasTimeBack scl sda (tokens_of 1 text) line → samples_of scl sda text ≡ Err (TimeBack line) }
    ensures ending { (scl sda : Finder) (text : List ℕ) (token : Token) →
        FirstWrong scl sda (tokens_of 1 text) token →
        command_of token.bytes ≡ Some EndDefinitions →
        IsLate (samples_of scl sda text) }
{}

/// A dump is refused for want of a signal, V1, where its definitions end, with `$enddefinitions .. $end` or with the
/// text, and give the signal no code.
pub fn dumps_without_a_signal_are_those_whose_definitions_lack_it()
    ensures lacking { (scl sda : Finder) (text : List ℕ) (signal : Signal) →
        samples_of scl sda text ≡ Err (NoSignal signal) → Lacks scl sda (tokens_of 1 text) signal }
    ensures refused { (scl sda : Finder) (text : List ℕ) (signal : Signal) →
        Lacks scl sda (tokens_of 1 text) signal → samples_of scl sda text ≡ Err (NoSignal signal) }
{}
