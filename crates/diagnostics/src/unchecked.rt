// What a strict check fails for, beside what is unsafe.

use crate::items::Items;
use crate::values::{About, BEGINNING, Diagnostic, Severity, Span};
use origins::Kind;
use plan_findings::unsent_in;
use plan_words::PlanWords;
use remedies::kept_apart;
use std::alloc::{AllocError, Global};

/// Adds that there are no pairs, and in a plan text each message that no controller lists. (Those of briefs are among the likely
/// mistakes.)
pub(crate) fn push_unchecked(
    alloc: Global,
    found: &mut Vec<Diagnostic>,
    words: PlanWords<'_>,
    items: &Items<'_>,
) -> Result<(), AllocError> {
    if words.plan().pair_count() == 0 {
        let said = format!(in alloc;
            "no two participants may start together, so nothing was checked"
        )?;
        push_error(alloc, found, "no pair", BEGINNING, said, About::Other)?;
    }
    if words.has_briefs() {
        return Ok(());
    }
    for message in &unsent_in(alloc, words.plan())? {
        let name = words.message_name(*message);
        let span = items.named(Kind::Message, name).unwrap_or(BEGINNING);
        let said = format!(in alloc;
            "no controller lists message '{name}', which was not looked at"
        )?;
        push_error(alloc, found, "unsent message", span, said, About::Unused)?;
    }
    Ok(())
}

/// Adds that `never` items leave out more pairs than they may.
pub(crate) fn push_left_out(
    alloc: Global,
    found: &mut Vec<Diagnostic>,
    words: PlanWords<'_>,
    most: Option<u32>,
) -> Result<(), AllocError> {
    let apart = kept_apart(words);
    match most {
        Some(most) if u64::from(most) < apart => {
            let pairs = apart.saturating_add(u64::from(words.plan().pair_count()));
            let said = format!(in alloc;
                "'never' leaves {apart} of {pairs} pairs unchecked, where {most} are allowed"
            )?;
            push_error(alloc, found, "left out", BEGINNING, said, About::Other)
        }
        _ => Ok(()),
    }
}

fn push_error(
    alloc: Global,
    found: &mut Vec<Diagnostic>,
    code: &'static str,
    span: Span,
    message: String,
    about: About,
) -> Result<(), AllocError> {
    found.push(Diagnostic {
        severity: Severity::Error,
        code,
        span,
        message,
        related: Vec::new(alloc),
        fixes: Vec::new(alloc),
        about,
    })?;
    Ok(())
}
