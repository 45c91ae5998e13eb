// A certificate that comes in pieces.

ghost use Rattle.std.specs.Prelude.{◌≡◌, ℕ, ◌≤◌, ◌^◌, Some, None, List, [], ◌++◌, length, drop, Err, IfOk, IfSome};
ghost use Rattle.certificate.specs.Proofs.{ProofTree};
ghost use Rattle.certificate.specs.Reading.{ReadSoFar, bytes_left};
ghost use Rattle.plan_core.specs.PlanContents.{plan_contents};
ghost use Rattle.cert_check.specs.Accepts.{IsAnswer};
ghost use Rattle.cert_check.specs.Fed.{IsFed, IsOf, StandsIn, StopsAt};
ghost use Rattle.cert_check.specs.Judged.{IsMemo, Tallies};
ghost use Rattle.cert_check.specs.declared.checkers.FeedError.TheVariants.{NoMemory, TooLong};

use crate::acceptance::{answered, check_certificate_at, judge_rest, located};
use crate::answers::{Answer, Judged};
use crate::memos::Memo;
use crate::remembered::judge_next;
use crate::tallies::Tally;
use certificate::{CertError, Head, ProofLines, Standing, read_head};
use plan_core::Plan;
use std::alloc::{AllocError, Global};
use thiserror::Error;

/// Why a checker goes no further.
#[derive(Clone, Copy, Debug, PartialEq, Eq, Error)]
pub enum FeedError {
    /// An allocation failed.
    #[error("memory")]
    NoMemory,
    /// The text has 2 to the power 63 bytes or more.
    #[error("a certificate of 2^63 bytes or more")]
    TooLong,
}

impl From<AllocError> for FeedError {
    ghost from_gives = { λ _ e. e ≡ NoMemory };

    fn from(_error: AllocError) -> FeedError {
        FeedError::NoMemory
    }
}

/// A checker of a certificate that comes in pieces: its answer is that of `check_certificate` for all of them joined.
///
/// It judges whole lines as they come and lets go of them, so it holds one piece and what is open before it, besides what
/// `check_certificate` takes memory for. From a line on that is refused or that gives a fault, it holds all that comes.
#[derive(Drop)]
pub struct Checker {
    // what has come and is not judged
    held: Vec<u8>,
    // where reading stands before that, once the first two lines are read
    after: Option<Standing>,
    tally: Tally,
    memo: Memo,
    // whether only the end of the text can say more
    waits: bool,
}

impl Checker {
    /// A checker of certificates of this plan, which was fed nothing.
    pub fn new(alloc: Global, plan: &Plan) -> Result<Checker, AllocError>
        ensures plan { IfOk result (IsOf (plan_contents plan.now)) }
        ensures fed { IfOk result (λ checker. IsFed (plan_contents plan.now) checker []) }
    {
        Ok(Checker {
            held: Vec::new(alloc),
            after: None,
            tally: Tally::new(),
            memo: Memo::new(alloc, plan)?,
            waits: false,
        })
    }

    /// The checker, fed the next piece of the text. The plan is the same in each call.
    ///
    /// # Errors
    ///
    /// `NoMemory` where an allocation fails, and `TooLong` only where the text has 2 to the power 63 bytes or more.
    pub fn feed(mut self, alloc: Global, plan: &Plan, piece: &[u8]) -> Result<Checker, FeedError>
        requires { IsOf (plan_contents plan.now) self }
        ensures plan { IfOk result (IsOf (plan_contents plan.now)) }
        ensures fed { IfOk result (λ checker. (text : List ℕ) →
            IsFed (plan_contents plan.now) self text → IsFed (plan_contents plan.now) checker (text ++ piece.now)) }
        ensures too_long { result ≡ Err TooLong → (text : List ℕ) →
            IsFed (plan_contents plan.now) self text → 2 ^ 63 ≤ length (text ++ piece.now) }
    {
        let size = whole_lines(piece);
        let end = self.held.len() + size;
        self.held.extend_from_slice(piece)?;
        if size == 0 || self.waits {
            return Ok(self);
        }
        match self.after {
            Some(standing) => self.judge(alloc, plan, standing, end),
            None => self.begin(alloc, plan, end),
        }
    }

    /// The answer for all that the checker was fed, where no more comes.
    ///
    /// # Errors
    ///
    /// As those of `feed`.
    pub fn end(self, alloc: Global, plan: &Plan) -> Result<Answer, FeedError>
        requires { IsOf (plan_contents plan.now) self }
        ensures answer { IfOk result (λ answer. (text : List ℕ) →
            IsFed (plan_contents plan.now) self text → IsAnswer (plan_contents plan.now) text answer) }
        ensures too_long { result ≡ Err TooLong → (text : List ℕ) →
            IsFed (plan_contents plan.now) self text → 2 ^ 63 ≤ length text }
    {
        let Judged { answer, .. } = self.end_at(alloc, plan)?;
        Ok(answer)
    }

    /// The same, with the place where the text is refused.
    ///
    /// # Errors
    ///
    /// As those of `feed`.
    pub fn end_at(self, alloc: Global, plan: &Plan) -> Result<Judged, FeedError>
        requires { IsOf (plan_contents plan.now) self }
        ensures answer { IfOk result (λ it. (text : List ℕ) →
            IsFed (plan_contents plan.now) self text → IsAnswer (plan_contents plan.now) text it.answer) }
        ensures too_long { result ≡ Err TooLong → (text : List ℕ) →
            IsFed (plan_contents plan.now) self text → 2 ^ 63 ≤ length text }
    {
        let Checker {
            held,
            after,
            tally,
            memo,
            ..
        } = self;
        let Some(standing) = after else {
            return Ok(check_certificate_at(alloc, plan, held.as_slice())?);
        };
        let Some(lines) = ProofLines::resume(standing, held.as_slice()) else {
            return Err(FeedError::TooLong);
        };
        let answer = answered(judge_rest(alloc, plan, lines, tally, memo))?;
        Ok(located(alloc, held.as_slice(), after, answer)?)
    }

    // Reads the first two lines, once both are among the first `end` bytes, and judges the lines after them.
    fn begin(mut self, alloc: Global, plan: &Plan, end: usize) -> Result<Checker, FeedError>
        requires plan { IsOf (plan_contents plan.now) self }
        requires none { self.after ≡ None }
        requires within { end ≤ length self.held.items }
        ensures plan { IfOk result (IsOf (plan_contents plan.now)) }
        ensures fed { IfOk result (λ checker. (text : List ℕ) →
            IsFed (plan_contents plan.now) self text → IsFed (plan_contents plan.now) checker text) }
        ensures too_long { result ≡ Err TooLong → (text : List ℕ) →
            IsFed (plan_contents plan.now) self text → 2 ^ 63 ≤ length text }
    {
        if !has_two_lines(&self.held[..end]) {
            return Ok(self);
        }
        match past_head(alloc, &self.held[..end])? {
            Some(stop) => {
                remove_front(&mut self.held, end - stop.left);
                self.after = Some(stop.standing);
                self.judge(alloc, plan, stop.standing, stop.left)
            }
            None => {
                self.waits = true;
                Ok(self)
            }
        }
    }

    // Judges the whole lines that are the first `end` bytes, up to one that is refused, and lets go of those that are judged.
    fn judge(
        mut self,
        alloc: Global,
        plan: &Plan,
        standing: Standing,
        end: usize,
    ) -> Result<Checker, FeedError>
        requires plan { IsOf (plan_contents plan.now) self }
        requires standing { self.after ≡ Some standing }
        requires within { end ≤ length self.held.items }
        ensures plan { IfOk result (IsOf (plan_contents plan.now)) }
        ensures fed { IfOk result (λ checker. (text : List ℕ) →
            IsFed (plan_contents plan.now) self text → IsFed (plan_contents plan.now) checker text) }
        ensures too_long { result ≡ Err TooLong → (text : List ℕ) →
            IsFed (plan_contents plan.now) self text → 2 ^ 63 ≤ length text }
    {
        let Some(lines) = ProofLines::resume(standing, &self.held[..end]) else {
            return Err(FeedError::TooLong);
        };
        let stop = judge_lines(alloc, plan, lines, &mut self.tally, &mut self.memo)?;
        remove_front(&mut self.held, end - stop.left);
        self.after = Some(stop.standing);
        self.waits = stop.is_refused;
        Ok(self)
    }
}

// Where the judging of lines stops.
#[derive(Clone, Copy)]
struct Stop {
    standing: Standing,
    // how many bytes are left
    left: usize,
    // whether the next line is refused
    is_refused: bool,
}

// Where reading stands after the first two lines of the text. None where they announce no proofs.
fn past_head(alloc: Global, text: &[u8]) -> Result<Option<Stop>, AllocError>
    ensures stands { IfOk result (λ head. IfSome head (λ stop. StandsIn text.now [] stop.standing stop.left)) }
    ensures left { IfOk result (λ head. IfSome head (λ stop. stop.left ≤ length text.now)) }
{
    match read_head(alloc, text) {
        Ok(Head::Proofs(lines)) => Ok(Some(stopped_before(&lines, false))),
        Ok(Head::Flaw(_, _)) | Err(CertError::Wrong(_)) => Ok(None),
        Err(CertError::NoMemory) => Err(AllocError),
    }
}

// Judges these lines, up to one that is refused.
fn judge_lines(
    alloc: Global,
    plan: &Plan,
    mut lines: ProofLines<'_>,
    tally: &mut Tally,
    memo: &mut Memo,
) -> Result<Stop, AllocError>
    requires { IsMemo (plan_contents plan.now) memo.old }
    ensures memo { IsMemo (plan_contents plan.now) memo.new }
    ensures stop { IfOk result (λ stop. (text : List ℕ) (trees : List ProofTree) →
        ReadSoFar text trees lines.entry → Tallies (plan_contents plan.now) trees tally.old →
        StopsAt (plan_contents plan.now) text tally.new stop) }
    ensures left { IfOk result (λ stop. stop.left ≤ bytes_left lines.entry) }
{
    'lines: while !lines.rest().is_empty() {
        match judge_next(alloc, plan, &mut lines, tally, memo) {
            Ok(true) => {}
            Ok(false) => return Ok(stopped_before(&lines, false)),
            Err(CertError::Wrong(_)) => return Ok(stopped_before(&lines, true)),
            Err(CertError::NoMemory) => return Err(AllocError),
        }
    }
    Ok(stopped_before(&lines, false))
}

// Reading stops before what is left.
fn stopped_before(lines: &ProofLines<'_>, is_refused: bool) -> Stop
    ensures stands { (text : List ℕ) (trees : List ProofTree) →
        ReadSoFar text trees lines.now → StandsIn text trees result.standing result.left }
    ensures left { result.left ≡ bytes_left lines.now }
{
    Stop {
        standing: lines.standing(),
        left: lines.rest().len(),
        is_refused,
    }
}

// How many of these bytes are in whole lines.
fn whole_lines(bytes: &[u8]) -> usize
    ensures { result ≤ length bytes.now }
{
    let mut size = bytes.len();
    while size > 0 && bytes[size - 1] != b'\n' {
        size -= 1;
    }
    size
}

// Whether two whole lines are among these bytes.
fn has_two_lines(bytes: &[u8]) -> bool {
    let mut has_one = false;
    for byte in bytes {
        if *byte == b'\n' {
            if has_one {
                return true;
            }
            has_one = true;
        }
    }
    false
}

// Lets go of the first `size` bytes.
fn remove_front(bytes: &mut Vec<u8>, size: usize)
    requires { size ≤ length bytes.old.items }
    ensures { bytes.new.items ≡ drop size bytes.old.items }
{
    let len = bytes.len();
    bytes.as_mut_slice().copy_within(size..len, 0);
    bytes.truncate(len - size);
}
