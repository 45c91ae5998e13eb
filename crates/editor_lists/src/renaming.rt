// Whether another name leaves a plan as it is.

use crate::references::renamed;
use editor_texts::{Known, Part, Reading, named, names_after_first, texts_of};
use origins::{NamedTexts, Span};
use plan_core::{Name, NameError, Plan};
use run_refusals::{NamedSources, RefusedNamed};
use run_values::Halt;
use std::alloc::{AllocError, Global};

/// What comes of another name.
#[derive(Drop)]
pub enum Renamed {
    /// The same plan, but for names.
    Same,
    /// Something else, for this reason.
    Refused(String),
}

/// What comes of the texts of a plan, of which this is known, with this name in these places.
///
/// # Errors
///
/// Where an allocation fails.
pub fn renamed_to(
    alloc: Global,
    known: &Known,
    names: &NamedTexts<'_>,
    uses: &[Span],
    name: &str,
) -> Result<Renamed, AllocError> {
    let Reading::Plan(before) = &known.reading else {
        return refused(alloc, "what is wrong with these texts comes first");
    };
    if !is_name(alloc, name)? {
        return refused(
            alloc,
            "a name is a letter, then letters, digits and '_', 32 at most",
        );
    }
    let given = known.given.parts.as_slice();
    let texts = renamed(alloc, names, uses, given.len(), name)?;
    let parts = parts_with(alloc, given, texts)?;
    compared(alloc, &before.checked.plan, parts.as_slice())
}

fn is_name(alloc: Global, name: &str) -> Result<bool, AllocError> {
    match Name::new(alloc, name) {
        Ok(_name) => Ok(true),
        Err(error) => match error {
            NameError::NoMemory => Err(AllocError),
            _ => Ok(false),
        },
    }
}

// These parts with other texts.
fn parts_with(alloc: Global, given: &[Part], texts: Vec<Vec<u8>>) -> Result<Vec<Part>, AllocError> {
    let mut parts = Vec::new(alloc);
    let mut place = 0usize;
    for text in texts {
        if let Some(part) = given.get(place) {
            if parts.push(part.with_text(alloc, text)?).is_err() {
                return Err(AllocError);
            }
        }
        place = place.saturating_add(1);
    }
    Ok(parts)
}

// What these parts give, beside the plan of before.
fn compared(alloc: Global, before: &Plan, parts: &[Part]) -> Result<Renamed, AllocError> {
    let files = names_after_first(alloc, parts)?;
    let mut texts = texts_of(alloc, parts, files.as_slice())?;
    match texts.find(alloc) {
        Ok(after) => beside(alloc, before, &after.plan),
        Err(halt) => why_refused(alloc, &halt, named(&texts)),
    }
}

fn beside(alloc: Global, before: &Plan, after: &Plan) -> Result<Renamed, AllocError> {
    if are_alike(before, after) {
        Ok(Renamed::Same)
    } else {
        refused(alloc, "this name changes what the texts mean")
    }
}

fn why_refused(alloc: Global, halt: &Halt, named: NamedSources<'_>) -> Result<Renamed, AllocError> {
    let Halt::Text(error, source) = halt else {
        return Err(AllocError);
    };
    let refusal = RefusedNamed {
        error: *error,
        source,
        named,
    };
    let diagnostic = refusal.diagnose(alloc)?;
    Ok(Renamed::Refused(diagnostic.message))
}

fn refused(alloc: Global, why: &str) -> Result<Renamed, AllocError> {
    Ok(Renamed::Refused(String::from_str(alloc, why)?))
}

// Whether two plans have as much of everything, and the same controllers send the same messages.
fn are_alike(one: &Plan, other: &Plan) -> bool {
    one.messages() == other.messages()
        && one.controllers() == other.controllers()
        && one.interrupts() == other.interrupts()
        && one.nevers() == other.nevers()
        && one.pair_count() == other.pair_count()
        && send_alike(one, other)
}

fn send_alike(one: &Plan, other: &Plan) -> bool {
    for c in 0..one.controllers() {
        if other.controllers() <= c || one.controller_messages(c) != other.controller_messages(c) {
            return false;
        }
    }
    true
}
