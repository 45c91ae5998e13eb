// What is wrong with a text that is refused.

use crate::values::{About, Diagnostic, Fix, Related, Severity, Span, one_line};
use growing_text::Text;
use hints::{Cause, RefusedIn, cause_of, first_stand};
use plan_text::PlanError;
use std::alloc::{AllocError, Global};

/// Why this text is refused, which has this number among those that give the plan, and where: also where that stands already
/// which may stand once.
///
/// # Errors
///
/// Where an allocation fails.
pub fn diagnose_refusal(
    alloc: Global,
    refused: RefusedIn<'_>,
    file: u32,
) -> Result<Diagnostic, AllocError> {
    let cause = cause_of(alloc, refused)?;
    Ok(Diagnostic {
        severity: Severity::Error,
        code: code_of(refused.error),
        span: Span {
            file,
            start: cause.start,
            end: cause.end,
        },
        message: words_of(alloc, refused, &cause)?,
        related: earlier_of(alloc, refused)?,
        fixes: fixes_of(alloc, &cause, file)?,
        about: About::Other,
    })
}

// What mends the text of this number, of what is said of it.
fn fixes_of(alloc: Global, cause: &Cause, file: u32) -> Result<Vec<Fix>, AllocError> {
    let mut fixes = Vec::new(alloc);
    for fix in cause.said.fixes() {
        let puts = fix.puts.as_str();
        let does = if fix.start < fix.end { "write" } else { "put" };
        let place = if fix.end < cause.start {
            "above"
        } else {
            "here"
        };
        let span = Span {
            file,
            start: fix.start,
            end: fix.end,
        };
        let title = format!(in alloc; "{does} '{puts}' {place}")?;
        fixes.push(Fix::of(alloc, title, span, String::from_str(alloc, puts)?)?)?;
    }
    Ok(fixes)
}

// What is said of it: of a name that is unknown, or stands already, after the name.
fn words_of(alloc: Global, refused: RefusedIn<'_>, cause: &Cause) -> Result<String, AllocError> {
    let mut text = Text::new(alloc);
    if matches!(refused.error, PlanError::Twice(_) | PlanError::Unknown(_)) {
        let name = refused.text.get(cause.start..cause.end).unwrap_or(&[]);
        text.push("'");
        text.push(str::from_utf8(name).unwrap_or(""));
        text.push("': ");
    }
    text.push_made(one_line(alloc, &cause.said));
    text.finish()
}

fn earlier_of(alloc: Global, refused: RefusedIn<'_>) -> Result<Vec<Related>, AllocError> {
    let mut related = Vec::new(alloc);
    if let Some(stand) = first_stand(alloc, refused)? {
        related.push(Related {
            span: Span {
                file: stand.file,
                start: stand.start,
                end: stand.end,
            },
            message: format!(in alloc; "it stands here already")?,
        })?;
    }
    Ok(related)
}

fn code_of(error: PlanError) -> &'static str {
    match error {
        PlanError::NotAscii(_) => "P1",
        PlanError::Version(_) => "P2",
        PlanError::Unexpected(_) => "P3",
        PlanError::BadCount(_) => "P4",
        PlanError::TooLong(_) => "P5",
        PlanError::TooMany(_) => "P6",
        PlanError::Twice(_) => "P7",
        PlanError::Unknown(_) => "P8",
        PlanError::NoMemory => "memory",
    }
}
