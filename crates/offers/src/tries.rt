// Tries of edits: what the plan comes to that the edited texts give.

ghost use Rattle.std.specs.Prelude.{◌≡◌, ◌-◌, length, IfOk, IfSome, IsTrue};
ghost use Rattle.edits.specs.Edited.{edited_texts};
ghost use Rattle.given_plans.specs.Sources.{GiveThePlan, bytes_of};
ghost use Rattle.offers.specs.Tried.{IsTried, TriedOn};
ghost use Rattle.plan_core.specs.PlanContents.{plan_contents};
ghost use Rattle.verdicts.specs.Faults.{AreFaults, fault_list};

use edits::{ChangedLine, Edit, changed_lines, edited_texts};
use given_plans::{GivenPlan, Provenance, find_among};
use mending::left_by;
use plan_core::Plan;
use run_parts::{RunError, Watched};
use std::alloc::{AllocError, Global};
use verdicts::{Faults, faults};

// How many steps the tries of all groups have, and then those of the list besides.
const STEPS: u64 = 524_288;

/// A plan, its faults, and the texts that give it.
#[derive(Clone, Copy)]
pub struct Unedited<'a> {
    pub plan: &'a Plan,
    pub faults: &'a Faults,
    pub texts: &'a [Vec<u8>],
}

/// What is left of the unsafe pairs of a plan after an edit that makes no other pair unsafe.
#[derive(Drop)]
pub struct Outcome {
    /// For each of them whether it is still unsafe.
    pub left: Vec<bool>,
    /// How many pairs the edited plan has, and how many of them are unsafe.
    pub pairs: u32,
    pub unsafe_pairs: usize,
    /// How many pairs fewer that are than those of the plan.
    pub price: u32,
}

/// Tries of edits, as long as the steps suffice.
#[derive(Clone, Copy)]
pub struct Tries {
    cost: u64,
    steps: u64,
    is_spent: bool,
    // whether the steps were spent before there were more
    is_cut: bool,
}

impl Tries {
    /// None yet, over this plan.
    pub fn new(was: Unedited<'_>) -> Tries {
        let mut cost = u64::from(was.plan.pair_count());
        for text in was.texts {
            cost = cost.saturating_add(text.len() as u64);
        }
        Tries {
            cost,
            steps: STEPS,
            is_spent: false,
            is_cut: false,
        }
    }

    /// As many steps more.
    pub fn renew(&mut self) {
        self.is_cut = self.are_cut();
        self.is_spent = false;
        self.steps = self.steps.saturating_add(STEPS);
    }

    /// Whether the steps do not suffice for a try.
    pub fn are_spent(&self) -> bool {
        self.is_spent
    }

    /// Whether they ever did not.
    pub fn are_cut(&self) -> bool {
        self.is_cut || self.is_spent
    }

    fn pay(&mut self) -> bool {
        match self.steps.checked_sub(self.cost) {
            Some(steps) if !self.is_spent => {
                self.steps = steps;
                true
            }
            _ => {
                self.is_spent = true;
                false
            }
        }
    }

    /// What comes of edits of the texts of a plan. None where they give no plan then, where a pair without a fault has one in that,
    /// and where the steps do not suffice.
    ///
    /// # Errors
    ///
    /// Where an allocation fails.
    pub fn outcome(
        &mut self,
        alloc: Global,
        was: Unedited<'_>,
        edits: &[Edit],
    ) -> Result<Option<Outcome>, AllocError>
        requires { AreFaults (plan_contents was.plan.now) (fault_list was.faults.now) }
        ensures { IfOk result (λ found. IfSome found (λ outcome.
            IsTried (bytes_of was.entry.texts.now) (plan_contents was.entry.plan.now) (fault_list was.entry.faults.now) edits.now outcome)) }
    {
        if !self.pay() {
            return Ok(None);
        }
        match plan_with(alloc, was.texts, edits)? {
            Some(edited) => outcome_of(alloc, was.plan, was.faults, &edited),
            None => Ok(None),
        }
    }
}

/// The lines of these texts that such edits change.
///
/// # Errors
///
/// Where an allocation fails.
pub fn lines_changed(
    alloc: Global,
    texts: &[Vec<u8>],
    edits: &[Edit],
) -> Result<Vec<ChangedLine>, AllocError> {
    let edited = edited_texts(alloc, texts, edits)?;
    changed_lines(alloc, texts, edited.as_slice())
}

// What the plan with these faults comes to, edited so.
fn outcome_of(
    alloc: Global,
    plan: &Plan,
    before: &Faults,
    edited: &Plan,
) -> Result<Option<Outcome>, AllocError>
    requires { AreFaults (plan_contents plan.now) (fault_list before.now) }
    ensures { IfOk result (λ found. IfSome found (λ outcome.
        TriedOn (plan_contents plan.now) (fault_list before.now) (plan_contents edited.now) outcome)) }
{
    let after = faults(alloc, edited)?;
    let unsafe_pairs = after.len();
    match left_by(alloc, plan, before, edited, &after)? {
        Some(left) => Ok(Some(Outcome {
            left,
            pairs: edited.pair_count(),
            unsafe_pairs,
            price: plan.pair_count().saturating_sub(edited.pair_count()),
        })),
        None => Ok(None),
    }
}

// The plan that the texts give with these edits.
fn plan_with(alloc: Global, texts: &[Vec<u8>], edits: &[Edit]) -> Result<Option<Plan>, AllocError>
    ensures { IfOk result (λ found. IfSome found (λ plan.
        GiveThePlan (edited_texts (bytes_of texts.now) edits.now) (plan_contents plan))) }
{
    let edited = edited_texts(alloc, texts, edits)?;
    plan_given_by(alloc, edited.as_slice())
}

fn plan_given_by(alloc: Global, texts: &[Vec<u8>]) -> Result<Option<Plan>, AllocError>
    ensures { IfOk result (λ found. IfSome found (λ plan. GiveThePlan (bytes_of texts.now) (plan_contents plan))) }
{
    let mut readers = Vec::with_capacity(alloc, texts.len())?;
    for text in texts {
        readers.push(Watched::new(text.as_slice()))?;
    }
    match find_among(alloc, readers.as_mut_slice()) {
        Ok(given) => Ok(read_from(given, texts)),
        Err(halted) if matches!(halted.error, RunError::NoMemory) => Err(AllocError),
        Err(_) => Ok(None),
    }
}

// The plan that these texts give, where they are what was read.
fn read_from(given: GivenPlan, texts: &[Vec<u8>]) -> Option<Plan>
    requires { GiveThePlan (bytes_of given.provenance.texts.items) (plan_contents given.plan) }
    ensures { IfSome result (λ plan. GiveThePlan (bytes_of texts.now) (plan_contents plan)) }
{
    let GivenPlan { plan, provenance } = given;
    if are_read(&provenance, texts) {
        Some(plan)
    } else {
        None
    }
}

fn are_read(provenance: &Provenance, texts: &[Vec<u8>]) -> bool
    ensures { IsTrue result → bytes_of provenance.now.texts.items ≡ bytes_of texts.now }
{
    are_same(provenance.texts.as_slice(), texts)
}

fn are_same(texts: &[Vec<u8>], others: &[Vec<u8>]) -> bool
    ensures { IsTrue result → bytes_of texts.now ≡ bytes_of others.now }
{
    match (texts, others) {
        ([], []) => true,
        ([text, texts @ ..], [other, others @ ..]) => {
            is_same(text.as_slice(), other.as_slice()) && are_same(texts, others)
        }
        _ => false,
    }
}

fn is_same(text: &[u8], other: &[u8]) -> bool
    ensures { IsTrue result → text.now ≡ other.now }
{
    text == other
}
