// What a check finds.

ghost use Rattle.plan_core.specs.PlanContents.{plan_contents};
ghost use Rattle.verdicts.specs.Faults.{AreFaults, fault_list};

use crate::items::Items;
use crate::lints::push_odd;
use crate::meetings::push_unsafe;
use crate::unchecked::{push_left_out, push_unchecked};
use crate::values::Diagnostic;
use lint::Oddity;
use origins::Spans;
use plan_words::PlanWords;
use remedies::{Grouped, grouped_of};
use std::alloc::{AllocError, Global};
use verdicts::Checked;

/// What a check asks for beside safety.
#[derive(Clone, Copy)]
pub struct Wanted {
    /// Whether all is to be looked at.
    pub is_strict: bool,
    /// How many pairs `never` items may leave out: as many as they like, where no number stands here.
    pub apart: Option<u32>,
}

/// What is wrong with the plan that was checked, which these texts give, with these names in them: its unsafe pairs, those that are alike together, in the
/// order of their groups; what is likely a mistake; and what a check asks for beside that is not so.
///
/// # Errors
///
/// Where an allocation fails.
pub fn diagnose_check(
    alloc: Global,
    words: PlanWords<'_>,
    checked: &Checked,
    odd: &[Oddity<'_>],
    wanted: Wanted,
    texts: &[Vec<u8>],
    spans: &Spans,
) -> Result<Vec<Diagnostic>, AllocError>
    requires { AreFaults (plan_contents checked.now.plan) (fault_list checked.now.faults) }
{
    let groups = grouped_of(alloc, &checked.plan, words, &checked.faults)?;
    let items = Items::of(alloc, texts, spans)?;
    diagnose_groups(alloc, words, checked, &groups, odd, wanted, &items, texts)
}

fn diagnose_groups(
    alloc: Global,
    words: PlanWords<'_>,
    checked: &Checked,
    groups: &Grouped,
    odd: &[Oddity<'_>],
    wanted: Wanted,
    items: &Items<'_>,
    texts: &[Vec<u8>],
) -> Result<Vec<Diagnostic>, AllocError> {
    let mut found = Vec::new(alloc);
    push_unsafe(alloc, &mut found, words, checked, groups, items)?;
    push_odd(
        alloc,
        &mut found,
        words,
        odd,
        wanted.is_strict,
        items,
        texts,
    )?;
    if wanted.is_strict {
        push_unchecked(alloc, &mut found, words, items)?;
    }
    push_left_out(alloc, &mut found, words, wanted.apart)?;
    Ok(found)
}
