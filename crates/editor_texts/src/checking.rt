// What is wrong with the texts that give a plan.

ghost use Rattle.std.specs.Prelude.{IfOk};
ghost use Rattle.plan_core.specs.PlanContents.{plan_contents};
ghost use Rattle.verdicts.specs.Faults.{AreFaults, fault_list};

use crate::knowledge::Offered;
use crate::plans::{Given, Part};
use crate::readings::{ReadPlan, Reading, names_after};
use diagnostics::{Diagnostic, Wanted, diagnose_check};
use given_plans::{GivenPlan, Provenance};
use hints::Named;
use lint::oddities;
use offers::{Offers, Reasons, Shown, advice_for_group, reasons_of};
use origins::Spans;
use plan_core::Plan;
use plan_words::{BriefFiles, PlanWords};
use report::check_found;
use run_parts::Watched;
use run_refusals::{NamedSources, RefusedNamed};
use run_values::{Halt, Sources, words_of};
use std::alloc::{AllocError, Global};
use std::thread::Threads;
use verdicts::{Checked, NoGate};

/// The texts of a plan, to be read.
pub type Texts<'a> = Sources<'a, Watched<&'a [u8]>>;

/// What the texts of a plan give, and what is wrong with them.
#[derive(Drop)]
pub(crate) struct Wrong {
    pub(crate) reading: Reading,
    pub(crate) all: Vec<Diagnostic>,
}

impl Wrong {
    fn is_refused(&self) -> bool {
        match &self.reading {
            Reading::Plan(_) => false,
            Reading::Refused(_) => true,
        }
    }
}

/// What people call the texts after the first one.
///
/// # Errors
///
/// Where an allocation fails.
pub fn names_after_first(alloc: Global, parts: &[Part]) -> Result<Vec<&str>, AllocError> {
    let mut names = Vec::new(alloc);
    for part in parts.iter().skip(1) {
        names.push(part.name.as_str())?;
    }
    Ok(names)
}

/// The texts of these parts, to be read. The names are those after the first.
///
/// # Errors
///
/// Where an allocation fails.
pub fn texts_of<'a>(
    alloc: Global,
    parts: &'a [Part],
    names: &'a [&'a str],
) -> Result<Texts<'a>, AllocError> {
    let mut readers = Vec::new(alloc);
    for part in parts {
        if readers.push(Watched::new(part.text.as_slice())).is_err() {
            return Err(AllocError);
        }
    }
    Ok(Sources {
        readers,
        files: BriefFiles {
            first: parts.first().map_or("", |part| part.name.as_str()),
            further: names,
        },
    })
}

/// What the texts of a plan give, and what is wrong with them. Where some cannot be read that is what is refused before the first of
/// them: all else could come of what these have.
///
/// # Errors
///
/// Where an allocation fails.
pub(crate) fn read_and_checked<R: Threads + Sync>(
    rt: &R,
    alloc: Global,
    given: &Given,
) -> Result<Wrong, AllocError> {
    let whole = read_parts(rt, alloc, given.parts.as_slice())?;
    if given.unread.is_empty() {
        return Ok(whole);
    }
    let known = given.known();
    let mut all = Vec::new(alloc);
    if !known.is_empty() {
        let before = read_parts(rt, alloc, known)?;
        if before.is_refused() {
            all = before.all;
        }
    }
    let reading = whole.reading;
    Ok(Wrong { reading, all })
}

// What these parts give, and what is wrong with them.
fn read_parts<R: Threads + Sync>(
    rt: &R,
    alloc: Global,
    parts: &[Part],
) -> Result<Wrong, AllocError> {
    let names = names_after_first(alloc, parts)?;
    let mut texts = texts_of(alloc, parts, names.as_slice())?;
    match texts.find(alloc) {
        Ok(given) => read_plan(rt, alloc, given, texts.files),
        Err(halt) => read_refused(alloc, &mut texts, halt, parts),
    }
}

// What is refused in these parts, where the first refusal is this one.
fn read_refused(
    alloc: Global,
    texts: &mut Texts<'_>,
    mut halt: Halt,
    parts: &[Part],
) -> Result<Wrong, AllocError> {
    texts.read_on(alloc, &mut halt);
    let all = refusals_of(alloc, &halt, named(texts))?;
    let spans = names_at(halt, parts)?;
    Ok(Wrong {
        reading: Reading::Refused(spans),
        all,
    })
}

fn names_at(halt: Halt, parts: &[Part]) -> Result<Spans, AllocError> {
    match halt {
        Halt::Text(_error, source) => Ok(names_after(source, parts)),
        _other => Err(AllocError),
    }
}

// What is refused in texts: the first refusal, and all others.
fn refusals_of(
    alloc: Global,
    halt: &Halt,
    named: NamedSources<'_>,
) -> Result<Vec<Diagnostic>, AllocError> {
    let Halt::Text(error, source) = halt else {
        return Err(AllocError);
    };
    let refused = RefusedNamed {
        error: *error,
        source,
        named,
    };
    let mut all = Vec::new(alloc);
    all.push(refused.diagnose(alloc)?)?;
    for diagnostic in refused.diagnose_further(alloc)? {
        all.push(diagnostic)?;
    }
    Ok(all)
}

/// What people call these texts.
pub fn named<'a>(texts: &Texts<'a>) -> NamedSources<'a> {
    NamedSources {
        first: Named {
            argument: "PLAN",
            what: "plan",
            path: texts.files.first,
        },
        further: texts.files.further,
        argument: "--with",
        several: !texts.files.further.is_empty(),
    }
}

fn read_plan<R: Threads + Sync>(
    rt: &R,
    alloc: Global,
    given: GivenPlan,
    files: BriefFiles<'_>,
) -> Result<Wrong, AllocError> {
    let GivenPlan { plan, provenance } = given;
    let checked = checked(rt, alloc, plan)?;
    let all = wrong_with(alloc, &checked, &provenance, files)?;
    Ok(Wrong {
        reading: Reading::Plan(ReadPlan {
            checked,
            provenance,
        }),
        all,
    })
}

// The plan, and its faults.
fn checked<R: Threads + Sync>(rt: &R, alloc: Global, plan: Plan) -> Result<Checked, AllocError>
    ensures { IfOk result (λ it. AreFaults (plan_contents it.plan) (fault_list it.faults)) }
{
    match check_found(rt, alloc, plan, 1, &NoGate) {
        Ok(checked) => Ok(checked),
        Err(_) => Err(AllocError),
    }
}

// An editor asks for nothing else.
const SAFETY: Wanted = Wanted {
    is_strict: false,
    apart: None,
};

// What is wrong with a plan that was checked, whose texts people call so.
fn wrong_with(
    alloc: Global,
    checked: &Checked,
    provenance: &Provenance,
    files: BriefFiles<'_>,
) -> Result<Vec<Diagnostic>, AllocError>
    requires { AreFaults (plan_contents checked.now.plan) (fault_list checked.now.faults) }
{
    let words = words_of(files, &checked.plan, provenance);
    let Provenance {
        texts,
        spans,
        origins,
    } = provenance;
    let texts = texts.as_slice();
    let odd = oddities(alloc, &checked.plan, origins, texts, spans)?;
    diagnose_check(alloc, words, checked, odd.as_slice(), SAFETY, texts, spans)
}

// ---- what mends it

/// What mends the plan of these texts, where something is unsafe in it.
///
/// # Errors
///
/// Where an allocation fails.
pub(crate) fn offered_in<R: Threads + Sync>(
    rt: &R,
    alloc: Global,
    parts: &[Part],
) -> Result<Option<Offered>, AllocError> {
    let names = names_after_first(alloc, parts)?;
    let mut texts = texts_of(alloc, parts, names.as_slice())?;
    match texts.find(alloc) {
        Ok(GivenPlan { plan, provenance }) => {
            let checked = checked(rt, alloc, plan)?;
            offered_for(alloc, &checked, &provenance, texts.files)
        }
        Err(Halt::Text(..)) => Ok(None),
        Err(_) => Err(AllocError),
    }
}

fn offered_for(
    alloc: Global,
    checked: &Checked,
    provenance: &Provenance,
    files: BriefFiles<'_>,
) -> Result<Option<Offered>, AllocError>
    requires { AreFaults (plan_contents checked.now.plan) (fault_list checked.now.faults) }
{
    let words = words_of(files, &checked.plan, provenance);
    match reasons_of(alloc, checked, words, provenance)? {
        Reasons::Safe(_) => Ok(None),
        Reasons::Unsafe(groups, offers) => {
            let titles = titles_of(alloc, words, &offers, groups.len())?;
            Ok(Some(Offered { offers, titles }))
        }
    }
}

// What each offer does, in words: in the order of the offers.
fn titles_of(
    alloc: Global,
    words: PlanWords<'_>,
    offers: &Offers,
    groups: usize,
) -> Result<Vec<String>, AllocError> {
    let mut titles = Vec::new(alloc);
    for g in 0..groups {
        if !offers.of(g).is_empty() {
            for advice in &advice_for_group(alloc, words, offers, g, Shown::All)? {
                if titles.push(advice.said.text(alloc)?).is_err() {
                    return Err(AllocError);
                }
            }
        }
    }
    Ok(titles)
}
