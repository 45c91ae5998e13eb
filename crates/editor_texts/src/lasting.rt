// What was unsafe when texts gave a plan the last time. Until they give one again it is told where its names stand now.

use crate::plans::Given;
use diagnostics::{About, Diagnostic};
use origins::{Kind, NamedTexts, Span};
use std::alloc::{AllocError, Global};

/// What was unsafe at a name.
#[derive(Drop)]
pub struct Lasting {
    name: String,
    pub message: String,
}

impl Lasting {
    /// Where a message or an interrupt has the name now.
    pub fn place(&self, names: &NamedTexts<'_>) -> Option<Span> {
        let name = self.name.as_str().as_bytes();
        let given = names
            .given(Kind::Message, name)
            .or(names.given(Kind::Interrupt, name))?;
        Some(given.span)
    }
}

/// What is unsafe among all that is wrong with the plan of these texts.
///
/// # Errors
///
/// Where an allocation fails.
pub(crate) fn lasting_of(
    alloc: Global,
    given: &Given,
    wrong: &[Diagnostic],
) -> Result<Vec<Lasting>, AllocError> {
    let mut lasting = Vec::new(alloc);
    for diagnostic in wrong {
        if let About::Group(_) = diagnostic.about {
            push_at(
                alloc,
                &mut lasting,
                given,
                diagnostic.span,
                diagnostic.message.as_str(),
            )?;
            for other in diagnostic.related.iter() {
                push_at(
                    alloc,
                    &mut lasting,
                    given,
                    other.span,
                    diagnostic.message.as_str(),
                )?;
            }
        }
    }
    Ok(lasting)
}

fn push_at(
    alloc: Global,
    lasting: &mut Vec<Lasting>,
    given: &Given,
    span: Span,
    message: &str,
) -> Result<(), AllocError> {
    let Some(part) = given.parts.get(span.file as usize) else {
        return Ok(());
    };
    let one = Lasting {
        name: String::from_str(
            alloc,
            str::from_utf8(span.of(part.text.as_slice())).unwrap_or(""),
        )?,
        message: String::from_str(alloc, message)?,
    };
    match lasting.push(one) {
        Ok(()) => Ok(()),
        Err(_) => Err(AllocError),
    }
}
