// What a run is over.

ghost use Rattle.std.specs.Prelude.{IfOk};
ghost use Rattle.brief_text.specs.Briefs.{AllMean};
ghost use Rattle.given_plans.specs.Sources.{GiveThePlan, ReadsTexts, bytes_of};
ghost use Rattle.plan_core.specs.PlanContents.{plan_contents};

use crate::endings::{Halt, Takes};
use given_plans::{GivenPlan, Halted, Provenance, find_among, find_in_briefs};
use origins::{Head, Language};
use plan_core::Plan;
use plan_words::{BriefFiles, PlanWords};
use run_parts::devices::reading::READS;
use run_parts::{Input, RunError, read_within};
use std::alloc::Global;

/// The text that a run is over, or the briefs that give its plan, one after another.
#[derive(Drop)]
pub struct Sources<'a, I> {
    pub readers: Vec<I>,
    /// What people call these.
    pub files: BriefFiles<'a>,
}

impl<'a, I: Input> Sources<'a, I> {
    ghost use Rattle.std.specs.Prelude.{IfOk};
    ghost use Rattle.brief_text.specs.Briefs.{AllMean};
    ghost use Rattle.given_plans.specs.Sources.{GiveThePlan, ReadsTexts, bytes_of};
    ghost use Rattle.plan_core.specs.PlanContents.{plan_contents};

    /// The plan that these give: that of one text, which may be a plan text or a brief, or that of several briefs. Each is read
    /// and judged before the next one is read.
    ///
    /// # Errors
    ///
    /// Those of `find_among`.
    pub fn find(&mut self, alloc: Global) -> Result<GivenPlan, Halt>
        ensures read { IfOk result (λ it.
            ReadsTexts I.reader self.old.readers.items (bytes_of it.provenance.texts.items) self.new.readers.items) }
        ensures given { IfOk result (λ it.
            GiveThePlan (bytes_of it.provenance.texts.items) (plan_contents it.plan)) }
    {
        match find_among(alloc, self.readers.as_mut_slice()) {
            Ok(given) => Ok(given),
            Err(halted) => Err(self.halt(halted)),
        }
    }

    /// The same, where one text has to be a brief too.
    ///
    /// # Errors
    ///
    /// Those of `find_in_briefs`.
    pub fn find_in_briefs(&mut self, alloc: Global) -> Result<GivenPlan, Halt>
        ensures read { IfOk result (λ it.
            ReadsTexts I.reader self.old.readers.items (bytes_of it.provenance.texts.items) self.new.readers.items) }
        ensures meant { IfOk result (λ it.
            AllMean (bytes_of it.provenance.texts.items) (plan_contents it.plan)) }
    {
        match find_in_briefs(alloc, self.readers.as_mut_slice()) {
            Ok(given) => Ok(given),
            Err(halted) => Err(Halt::of(halted, Takes::One)),
        }
    }

    /// The first reader: a run over one text has no other.
    ///
    /// # Errors
    ///
    /// `Read` where there is none.
    pub fn first(&mut self) -> Result<&mut I, Halt> {
        match self.readers.first_mut() {
            Some(first) => Ok(first),
            None => Err(Halt::Run(RunError::Read)),
        }
    }

    /// How a run over these ends that goes no further.
    pub fn halt(&self, halted: Halted) -> Halt {
        Halt::of(
            halted,
            if self.readers.len() == 1 {
                Takes::Either
            } else {
                Takes::One
            },
        )
    }

    /// Reads the texts after a brief that was refused, as far as they can be read, since what is wrong in these is told too.
    pub fn read_on(&mut self, alloc: Global, halt: &mut Halt) {
        let Halt::Text(_, source) = halt else {
            return;
        };
        let Language::Brief = source.refused.language else {
            return;
        };
        let read = (source.refused.file() as usize).saturating_add(1);
        for reader in self.readers.iter_mut().skip(read) {
            let Ok(text) = read_within(alloc, reader, READS) else {
                return;
            };
            if source.later.push(text).is_err() {
                return;
            }
        }
    }

    /// The plan that these give, in the words of people.
    pub fn words<'p>(&self, plan: &'p Plan, provenance: &'p Provenance) -> PlanWords<'p>
    where
        'a: 'p,
    {
        words_of(self.files, plan, provenance)
    }
}

/// The plan that these files give, in the words of people.
pub fn words_of<'p>(
    files: BriefFiles<'p>,
    plan: &'p Plan,
    provenance: &'p Provenance,
) -> PlanWords<'p> {
    let is_first_version = provenance.spans.head(0) == Some(FIRST_VERSION);
    PlanWords::new(plan, provenance.origins.as_ref(), files, is_first_version)
}

// What a plan of the first version begins with, in which no `never` stands.
const FIRST_VERSION: Head = Head {
    language: Language::Plan,
    version: 1,
};
