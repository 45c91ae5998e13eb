// A dump that comes in pieces, from its bytes to its transactions.

ghost use Rattle.std.specs.Prelude.{◌≡◌, ◌≢◌, Err};
ghost use Rattle.run_parts.specs.declared.errors.RunError.TheVariants.{NoMemory};

use crate::runs::Ending;
use crate::sinks::TransactionSink;
use capture_check::Beside;
use pulses::QuietFollower;
use run_parts::RunError;
use std::alloc::{AllocError, Global};
use vcd_read::{Probe, Reader, Wrong};

/// What is read of a dump, and what is known of the bus.
#[derive(Drop)]
pub(crate) struct Decoder {
    pub(crate) reader: Reader,
    pub(crate) follower: QuietFollower,
}

impl Decoder {
    ghost use Rattle.std.specs.Prelude.{ℕ, List, ◌++◌, IfOk, IfErr, OnOk};
    ghost use Rattle.vcd_read.specs.Probes.{Finder};
    ghost use Rattle.vcd_read.specs.Views.{asked};
    ghost use Rattle.decoding.specs.Decoding.{DecodesDump};
    ghost use Rattle.decoding.specs.Dumps.{PassesSoFar};
    ghost use Rattle.decoding.specs.DecoderViews.{IsNew, Follows, FollowsAll, StopsAt, StopsAtPiece, StopsAtEnd};

    /// Nothing of the dump has been read. Levels that last less than this time are left out. Further lines are read beside the
    /// two of the bus.
    pub(crate) fn new(
        alloc: Global,
        scl: Probe<'_>,
        sda: Probe<'_>,
        further: &[Probe<'_>],
        least: u64,
    ) -> Result<Decoder, AllocError>
        ensures { IfOk result (λ decoder. IsNew least (asked scl.entry) (asked sda.entry) decoder) }
    {
        Ok(Decoder {
            reader: Reader::with(alloc, scl, sda, further)?,
            follower: QuietFollower::new(alloc, least),
        })
    }

    /// The next piece of the dump. The sink takes all transactions that end in it, before a refusal too, and another is told of
    /// all that was read, before. What is wrong with the dump then is told beside the refusal.
    pub(crate) fn feed<S: TransactionSink, B: Beside>(
        &mut self,
        alloc: Global,
        piece: &[u8],
        sink: &mut S,
        beside: &mut B,
        wrong: &mut Option<Wrong>,
    ) -> Result<(), RunError>
        requires { S.needs }
        ensures fed { OnOk result ((start : S) (least : ℕ) (scl sda : Finder) (text : List ℕ) →
            Follows S.sink start least scl sda text self.old sink.old →
            FollowsAll S.sink start least scl sda (text ++ piece.now) self.new sink.new) }
        ensures passed { OnOk result ((start : S) (least : ℕ) (scl sda : Finder) (text : List ℕ) →
            Follows S.sink start least scl sda text self.old sink.old → PassesSoFar scl sda (text ++ piece.now)) }
        ensures stops { IfErr result (λ error. (start : S) (least : ℕ) (scl sda : Finder) (text : List ℕ) →
            Follows S.sink start least scl sda text self.old sink.old →
            StopsAtPiece S.sink start least scl sda text piece.now error sink.new) }
    {
        match self.reader.feed_with(piece, beside) {
            Ok(()) => self.hand_on(alloc, sink, beside),
            Err(error) => {
                let found = self.follower.follow(
                    alloc,
                    self.reader.samples(),
                    self.reader.further(),
                    beside,
                )?;
                *wrong = self.reader.take_wrong();
                let taken = sink.take(found.as_slice());
                Err(refused_with(&taken, RunError::from(error)))
            }
        }
    }

    // The sink takes the transactions that end in what was read since.
    fn hand_on<S: TransactionSink, B: Beside>(
        &mut self,
        alloc: Global,
        sink: &mut S,
        beside: &mut B,
    ) -> Result<(), RunError>
        requires { S.needs }
        ensures handed { OnOk result ((start : S) (least : ℕ) (scl sda : Finder) (text : List ℕ) →
            Follows S.sink start least scl sda text self.old sink.old →
            FollowsAll S.sink start least scl sda text self.new sink.new) }
        ensures stops { IfErr result (λ error. (start : S) (least : ℕ) (scl sda : Finder) (text : List ℕ) →
            Follows S.sink start least scl sda text self.old sink.old →
            StopsAt S.sink start least scl sda text sink.old error sink.new) }
    {
        let found = self.follower.follow(
            alloc,
            self.reader.samples(),
            self.reader.further(),
            beside,
        )?;
        sink.take(found.as_slice())?;
        self.reader.clear_samples();
        Ok(())
    }

    /// The end of the dump. The sink takes the transactions that are left.
    pub(crate) fn end<S: TransactionSink, B: Beside>(
        self,
        alloc: Global,
        sink: &mut S,
        beside: &mut B,
        wrong: &mut Option<Wrong>,
    ) -> Result<Ending, RunError>
        requires { S.needs }
        ensures read { IfOk result (λ ending. (start : S) (least : ℕ) (scl sda : Finder) (text : List ℕ) →
            Follows S.sink start least scl sda text self sink.old →
            DecodesDump S.sink start least scl sda text sink.new) }
        ensures stops { IfErr result (λ error. (start : S) (least : ℕ) (scl sda : Finder) (text : List ℕ) →
            FollowsAll S.sink start least scl sda text self sink.old →
            StopsAtEnd S.sink start least scl sda text error sink.new) }
    {
        let Decoder {
            reader,
            mut follower,
        } = self;
        let last = match reader.finish(beside) {
            Ok(last) => last,
            Err(refused) => {
                let error = refused.error;
                *wrong = refused.wrong();
                return Err(RunError::from(error));
            }
        };
        let samples = last.samples.as_slice();
        let found = follower.follow_to_end(alloc, samples, last.further(), beside)?;
        sink.take(found.as_slice())?;
        Ok(Ending {
            short: follower.short(),
            idle: follower.idle(),
            signs: follower.signs(),
        })
    }
}

// What is answered where a dump is refused, and the sink was handed what had ended: the refusal, but where the sink had no
// memory, since some of it may then be missing.
fn refused_with(taken: &Result<(), RunError>, refusal: RunError) -> RunError
    ensures memory { taken.now ≡ Err NoMemory → result ≡ NoMemory }
    ensures refusal { taken.now ≢ Err NoMemory → result ≡ refusal }
{
    match taken {
        Err(error) if *error == RunError::NoMemory => RunError::NoMemory,
        _ => refusal,
    }
}
