// A reader of dumps that come in pieces.

ghost use Rattle.std.specs.Prelude.{◌≡◌, ◌+◌, length, Ok, Err, MatchResult, OnOk};
ghost use Rattle.vcd_read.specs.Pieces.{RoomForToken, RoomForSamples, Scans, bytes_read, kept_of, samples_at_end};

use crate::beside::{FurtherLines, Nobody, Tokens};
use crate::errors::Refusal;
use crate::places::{OpenLine, Wrong};
use crate::probes::Probe;
use crate::samples::{Further, Sample};
use crate::scanner::Scanner;
use run_errors::VcdError;
use std::alloc::{AllocError, Global};

/// A reader of a dump that comes in pieces of any size, cut anywhere.
///
/// It keeps the token that has not ended, the command that is open, the codes and levels of the two signals, and the
/// samples that were not cleared. A token counts as read once the white space after it has been fed, the last one at
/// the end. Beside the two signals it may follow further ones, of which nothing is proved.
pub struct Reader {
    scanner: Scanner,
    further: Option<FurtherLines>,
    refused: Option<Refusal>,
    // the line that was fed last, and what is wrong where the dump was refused
    line: OpenLine,
    wrong: Option<Wrong>,
    ghost held_fits: { RoomForToken 0 scanner },
    ghost last_samples_fit: { RoomForSamples 2 scanner },
}

/// What the end of a dump gives, without what was cleared.
#[derive(Drop)]
pub struct Last {
    pub samples: Vec<Sample>,
    further: Option<FurtherLines>,
}

impl Last {
    /// What the further lines are.
    pub fn further(&self) -> &[Further] {
        given_in(&self.further)
    }
}

/// Why a dump has no samples at its end.
#[derive(Drop)]
pub struct EndError {
    pub error: VcdError,
    left: Left,
}

// What is left of a reader whose dump is refused.
#[derive(Drop)]
enum Left {
    // by a piece: what is wrong is known
    Known(Option<Wrong>),
    // at its end, in this line
    Ended(Scanner, Refusal, OpenLine),
}

impl EndError {
    /// What is wrong with the dump, beside the refusal, where there is memory to say it.
    pub fn wrong(self) -> Option<Wrong> {
        match self.left {
            Left::Known(wrong) => wrong,
            Left::Ended(scanner, refusal, line) => scanner.wrong(refusal, &[], &line),
        }
    }
}

// Written out, so that one call lets it go.
impl Drop for Reader {
    fn drop(self) {
        let Self {
            scanner: _,
            further: _,
            refused: _,
            line: _,
            wrong: _,
        } = self;
    }
}

impl Reader {
    ghost use Rattle.std.specs.Prelude.{◌≡◌, ℕ, List, [], ◌++◌, IfOk, Ok, Err, MatchResult};
    ghost use Rattle.run_errors.specs.declared.dumps.VcdError.TheVariants.{NoMemory};
    ghost use Rattle.vcd_read.specs.declared.samples.Sample.{Sample};
    ghost use Rattle.vcd_read.specs.Dumps.{samples_of, said_so_far, given_so_far};
    ghost use Rattle.vcd_read.specs.Probes.{Finder, by_name};
    ghost use Rattle.vcd_read.specs.Views.{asked};
    ghost use Rattle.vcd_read.specs.Readers.{Fed, UnlessMemory, Answers, IsRefusal, reading_of, samples_in};
    ghost use Rattle.vcd_read.specs.Refusals.{error_of};

    /// A reader of the lines that a dump calls by these names.
    ///
    /// # Errors
    ///
    /// V5 where an allocation fails.
    pub fn new(alloc: Global, scl: &str, sda: &str) -> Result<Reader, AllocError>
        ensures { IfOk result (λ r. Fed (by_name scl.now) (by_name sda.now) [] [] (reading_of r)) }
    {
        Reader::of(alloc, Probe::Named(scl), Probe::Named(sda))
    }

    /// A reader of the lines that are found so in the definitions of a dump.
    ///
    /// # Errors
    ///
    /// V5 where an allocation fails.
    pub fn of(alloc: Global, scl: Probe<'_>, sda: Probe<'_>) -> Result<Reader, AllocError>
        ensures { IfOk result (λ r. Fed (asked scl.entry) (asked sda.entry) [] [] (reading_of r)) }
    {
        Reader::with(alloc, scl, sda, &[])
    }

    /// The same, beside up to 32 further lines, which are found there too; one that is not found stays unknown.
    ///
    /// # Errors
    ///
    /// V5 where an allocation fails.
    pub fn with(
        alloc: Global,
        scl: Probe<'_>,
        sda: Probe<'_>,
        lines: &[Probe<'_>],
    ) -> Result<Reader, AllocError>
        ensures { IfOk result (λ r. Fed (asked scl.entry) (asked sda.entry) [] [] (reading_of r)) }
    {
        let further = further_of(alloc, lines)?;
        Ok(Reader {
            scanner: Scanner::new(alloc, scl, sda)?,
            further,
            refused: None,
            line: OpenLine::new(alloc),
            wrong: None,
        })
    }

    /// Takes the next piece of the dump.
    ///
    /// # Errors
    ///
    /// V1 to V4 in the call in which their token is read, and then in every later call. V5 where an allocation fails:
    /// the reader is then as before the call, and may be fed the same piece again.
    pub fn feed(&mut self, piece: &[u8]) -> Result<(), VcdError>
        // The text that it was fed grows by the piece, unless an allocation fails.
        ensures fed { (scl sda : Finder) (text : List ℕ) (cleared : List Sample) →
            Fed scl sda text cleared (reading_of self.old) →
            UnlessMemory result (Fed scl sda (text ++ piece.now) cleared (reading_of self.new)) }

        // A refusal comes in the call in which its token is read, and then in every later call.
        ensures told { (scl sda : Finder) (text : List ℕ) (cleared : List Sample) →
            Fed scl sda text cleared (reading_of self.old) → Answers result (said_so_far scl sda (text ++ piece.now)) }
        ensures again { (scl sda : Finder) (text : List ℕ) (cleared : List Sample) →
            Fed scl sda text cleared (reading_of self.old) →
            MatchResult (said_so_far scl sda text) (λ _. Unit {0}) (λ refusal. result ≡ Err (error_of refusal)) }
        ensures memory { result ≡ Err NoMemory → reading_of self.new ≡ reading_of self.old }
    {
        self.feed_with(piece, &mut Nobody)
    }

    /// The same. Another is told of each token that is read and not refused.
    ///
    /// # Errors
    ///
    /// Those of `feed`.
    pub fn feed_with<T: Tokens>(&mut self, piece: &[u8], tokens: &mut T) -> Result<(), VcdError>
        // The text that it was fed grows by the piece, unless an allocation fails.
        ensures fed { (scl sda : Finder) (text : List ℕ) (cleared : List Sample) →
            Fed scl sda text cleared (reading_of self.old) →
            UnlessMemory result (Fed scl sda (text ++ piece.now) cleared (reading_of self.new)) }

        // A refusal comes in the call in which its token is read, and then in every later call.
        ensures told { (scl sda : Finder) (text : List ℕ) (cleared : List Sample) →
            Fed scl sda text cleared (reading_of self.old) → Answers result (said_so_far scl sda (text ++ piece.now)) }
        ensures again { (scl sda : Finder) (text : List ℕ) (cleared : List Sample) →
            Fed scl sda text cleared (reading_of self.old) →
            MatchResult (said_so_far scl sda text) (λ _. Unit {0}) (λ refusal. result ≡ Err (error_of refusal)) }
        ensures memory { result ≡ Err NoMemory → reading_of self.new ≡ reading_of self.old }
    {
        if let Some(refusal) = self.refused {
            return Err(VcdError::from(refusal));
        }
        reserve(&mut self.scanner, &mut self.further, piece.len())?;
        match read(&mut self.scanner, &mut self.further, piece, tokens) {
            Ok(()) => {
                self.line.go_on(piece);
                Ok(())
            }
            Err(refusal) => {
                let wrong = self.scanner.wrong(refusal, piece, &self.line);
                self.wrong = wrong;
                self.refused = Some(refusal);
                Err(VcdError::from(refusal))
            }
        }
    }

    /// The samples so far, without those that were cleared. After a refusal: those of the tokens before it.
    pub fn samples(&self) -> &[Sample]
        ensures samples { result.now ≡ samples_in (reading_of self.now) }
        ensures so_far { (scl sda : Finder) (text : List ℕ) (cleared : List Sample) →
            Fed scl sda text cleared (reading_of self.now) →
            IfOk (said_so_far scl sda text) (λ said. said.1 ≡ cleared ++ result.now) }
        ensures up_to_refusal { (scl sda : Finder) (text : List ℕ) (cleared : List Sample) →
            Fed scl sda text cleared (reading_of self.now) → given_so_far scl sda text ≡ cleared ++ result.now }
    {
        self.scanner.samples.as_slice()
    }

    /// What the further lines are, by the time stamps so far at which one of them changed, without those that were cleared with
    /// the samples. A time stamp gives this as it gives its sample.
    pub fn further(&self) -> &[Further] {
        given_in(&self.further)
    }

    /// Forgets the samples so far, which the caller has used, and what further lines were.
    pub fn clear_samples(&mut self)
        ensures { (scl sda : Finder) (text : List ℕ) (cleared : List Sample) →
            Fed scl sda text cleared (reading_of self.old) →
            Fed scl sda text (cleared ++ samples_in (reading_of self.old)) (reading_of self.new) }
    {
        self.scanner.samples.clear();
        clear(&mut self.further);
    }

    /// What is wrong with the dump, beside the refusal that a call has answered: the first time that it is asked for, and
    /// where there was memory to keep it.
    pub fn take_wrong(&mut self) -> Option<Wrong>
        ensures { reading_of self.new ≡ reading_of self.old }
    {
        self.wrong.take()
    }

    /// The end of the dump: its samples, without those that were cleared. This takes no memory.
    ///
    /// # Errors
    ///
    /// V1 to V4.
    pub fn end(self) -> Result<Vec<Sample>, VcdError>
        ensures { (scl sda : Finder) (text : List ℕ) (cleared : List Sample) →
            Fed scl sda text cleared (reading_of self) →
            MatchResult result (λ samples. samples_of scl sda text ≡ Ok (cleared ++ samples.items))
            (λ e. IsRefusal (samples_of scl sda text) e) }
    {
        match self.close() {
            Ok(samples) => Ok(samples),
            Err(refused) => Err(refused.error),
        }
    }

    /// The same. Of a dump that is refused, what is wrong can be asked for. This takes no memory.
    ///
    /// # Errors
    ///
    /// V1 to V4.
    pub fn close(self) -> Result<Vec<Sample>, EndError>
        ensures { (scl sda : Finder) (text : List ℕ) (cleared : List Sample) →
            Fed scl sda text cleared (reading_of self) →
            MatchResult result (λ samples. samples_of scl sda text ≡ Ok (cleared ++ samples.items))
            (λ e. IsRefusal (samples_of scl sda text) e.error) }
    {
        match self.finish(&mut Nobody) {
            Ok(Last { samples, .. }) => Ok(samples),
            Err(refused) => Err(refused),
        }
    }

    /// The same, with what the further lines are. Another is told of the last token.
    ///
    /// # Errors
    ///
    /// V1 to V4.
    pub fn finish<T: Tokens>(self, tokens: &mut T) -> Result<Last, EndError>
        ensures { (scl sda : Finder) (text : List ℕ) (cleared : List Sample) →
            Fed scl sda text cleared (reading_of self) →
            MatchResult result (λ last. samples_of scl sda text ≡ Ok (cleared ++ last.samples.items))
            (λ e. IsRefusal (samples_of scl sda text) e.error) }
    {
        let Self {
            mut scanner,
            mut further,
            refused,
            line,
            wrong,
        } = self;
        if let Some(refusal) = refused {
            let error = VcdError::from(refusal);
            let left = Left::Known(wrong);
            return Err(EndError { error, left });
        }
        match end(&mut scanner, &mut further, tokens) {
            Ok(()) => {
                let Scanner { samples, .. } = scanner;
                Ok(Last { samples, further })
            }
            Err(refusal) => {
                let error = VcdError::from(refusal);
                let left = Left::Ended(scanner, refusal, line);
                Err(EndError { error, left })
            }
        }
    }
}

// These further lines, if there are some.
fn further_of(alloc: Global, lines: &[Probe<'_>]) -> Result<Option<FurtherLines>, AllocError> {
    if lines.is_empty() {
        return Ok(None);
    }
    Ok(Some(FurtherLines::new(alloc, lines)?))
}

// Makes room for all that a piece of so many bytes can leave. A failure changes nothing.
fn reserve(
    scanner: &mut Scanner,
    further: &mut Option<FurtherLines>,
    bytes: usize,
) -> Result<(), AllocError>
    requires token_room { RoomForToken 0 scanner.old }
    requires samples_room { RoomForSamples 2 scanner.old }
    ensures kept { kept_of scanner.new ≡ kept_of scanner.old }
    ensures token_room { OnOk result (RoomForToken bytes scanner.new) }
    ensures samples_room { OnOk result (RoomForSamples (bytes + 2) scanner.new) }
    ensures least_token_room { RoomForToken 0 scanner.new }
    ensures least_samples_room { RoomForSamples 2 scanner.new }
{
    scanner.reserve(bytes)?;
    match further {
        Some(further) => further.reserve(bytes, scanner.held.capacity()),
        None => Ok(()),
    }
}

// Reads a piece for which there is room.
fn read<T: Tokens>(
    scanner: &mut Scanner,
    further: &mut Option<FurtherLines>,
    piece: &[u8],
    tokens: &mut T,
) -> Result<(), Refusal>
    requires token_room { RoomForToken (length piece.now) scanner.old }
    requires samples_room { RoomForSamples (length piece.now + 2) scanner.old }
    ensures kept { Scans result (bytes_read (kept_of scanner.old) piece.now) (kept_of scanner.new) }
    ensures token_room { RoomForToken 0 scanner.new }
    ensures samples_room { RoomForSamples 2 scanner.new }
{
    match further {
        Some(further) => {
            let read = scanner.read(piece, further, tokens);
            further.reach(scanner.time());
            read
        }
        None => scanner.read(piece, &mut Nobody, tokens),
    }
}

// The end of the dump: its last samples, and what the further lines are then.
fn end<T: Tokens>(
    scanner: &mut Scanner,
    further: &mut Option<FurtherLines>,
    tokens: &mut T,
) -> Result<(), Refusal>
    requires token_room { RoomForToken 0 scanner.old }
    requires samples_room { RoomForSamples 2 scanner.old }
    ensures { MatchResult result (λ _. samples_at_end (kept_of scanner.old) ≡ Ok scanner.new.samples.items)
        (λ refusal. samples_at_end (kept_of scanner.old) ≡ Err refusal) }
{
    match further {
        Some(further) => {
            let ended = scanner.end(further, tokens);
            further.end();
            ended
        }
        None => scanner.end(&mut Nobody, tokens),
    }
}

// What they have been.
fn given_in(further: &Option<FurtherLines>) -> &[Further] {
    match further {
        Some(further) => further.given.as_slice(),
        None => &[],
    }
}

// Forgets what they have been.
fn clear(further: &mut Option<FurtherLines>) {
    if let Some(further) = further {
        further.given.clear();
    }
}
