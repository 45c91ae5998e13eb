// Families of messages: those that a family of the briefs makes, and else those whose names are alike but for a number at the end.

ghost use Rattle.std.specs.Prelude.{◌≡◌, IfOk, length};
ghost use Rattle.plan_core.specs.PlanContents.{plan_contents};

use causes::Family;
use growing_text::Text;
use plan_core::{Participant, Plan};
use plan_words::PlanWords;
use std::alloc::{AllocError, Global};

/// The family of each message of a plan, in these words of it.
pub fn families_of(
    alloc: Global,
    plan: &Plan,
    words: PlanWords<'_>,
) -> Result<Vec<Family>, AllocError>
    ensures { IfOk result (λ families. length families.items ≡ length (plan_contents plan.now).messages) }
{
    let firsts = firsts_of(alloc, plan, words)?;
    let mut families = Vec::with_capacity(alloc, plan.messages() as usize)?;
    for m in 0..plan.messages() {
        families.push(family_at(firsts.as_slice(), m))?;
    }
    Ok(families)
}

// The family of a message, where these are the first messages of the families of all.
fn family_at(firsts: &[u32], m: u32) -> Family {
    let first = match firsts.get(m as usize) {
        Some(first) => *first,
        None => m,
    };
    let mut count = 0u32;
    for other in firsts {
        if *other == first {
            count = count.saturating_add(1);
        }
    }
    Family::Messages { first, count }
}

// For each message the first one of its family.
fn firsts_of(alloc: Global, plan: &Plan, words: PlanWords<'_>) -> Result<Vec<u32>, AllocError> {
    let made = made_by(alloc, plan, words)?;
    let mut firsts = Vec::with_capacity(alloc, plan.messages() as usize)?;
    for m in 0..plan.messages() {
        firsts.push(first_kin(plan, made.as_slice(), m))?;
    }
    Ok(firsts)
}

// For each message the number of the family of the briefs that makes it.
fn made_by(
    alloc: Global,
    plan: &Plan,
    words: PlanWords<'_>,
) -> Result<Vec<Option<usize>>, AllocError> {
    let mut made = Vec::with_capacity(alloc, plan.messages() as usize)?;
    for m in 0..plan.messages() {
        made.push(words.family_of(m))?;
    }
    Ok(made)
}

fn first_kin(plan: &Plan, made: &[Option<usize>], m: u32) -> u32 {
    for n in 0..m {
        if are_kin(plan, made, m, n) {
            return n;
        }
    }
    m
}

fn are_kin(plan: &Plan, made: &[Option<usize>], m: u32, n: u32) -> bool {
    match (maker(made, m), maker(made, n)) {
        (Some(one), Some(other)) => one == other,
        (None, None) => are_alike(name_of(plan, m), name_of(plan, n)),
        _ => false,
    }
}

fn maker(made: &[Option<usize>], m: u32) -> Option<usize> {
    match made.get(m as usize) {
        Some(made) => *made,
        None => None,
    }
}

fn are_alike(one: &str, other: &str) -> bool {
    match (stem_of(one), stem_of(other)) {
        (Some(stem), Some(same)) => stem == same,
        _ => false,
    }
}

/// What stands before the number at the end of a name.
pub fn stem_of(name: &str) -> Option<&str> {
    let mut stem = 0usize;
    for (at, byte) in name.bytes().enumerate() {
        if !byte.is_ascii_digit() {
            stem = at.saturating_add(1);
        }
    }
    if stem == name.len() {
        return None;
    }
    name.get(..stem)
}

/// The name of a message, and nothing for a number that is none.
pub fn name_of(plan: &Plan, m: u32) -> &str {
    if m < plan.messages() {
        plan.message_name(m).as_str()
    } else {
        ""
    }
}

/// What the family of a message is called: `page_*`, or the name of the message where it is alone in it.
pub fn called_of(
    alloc: Global,
    words: PlanWords<'_>,
    families: &[Family],
    m: u32,
) -> Result<String, AllocError> {
    let mut text = Text::new(alloc);
    push_family(&mut text, words, families.get(m as usize));
    text.finish()
}

/// What a participant is called with all of its family: `bmc/page_*`, or its label where the family has it alone.
pub fn party_of(
    alloc: Global,
    words: PlanWords<'_>,
    families: &[Family],
    p: u32,
) -> Result<String, AllocError> {
    let plan = words.plan();
    if plan.participants() <= p {
        return Ok(String::new(alloc));
    }
    match plan.participant(p) {
        Participant::Sending {
            controller,
            message,
        } => {
            let mut text = Text::new(alloc);
            text.push(words.name(controller));
            text.push("/");
            push_family(&mut text, words, families.get(message as usize));
            text.finish()
        }
        Participant::Interrupt(_) => words.label(alloc, p),
    }
}

// One that a family of the briefs makes has the name of that, and each other one what its names have before their numbers.
fn push_family(text: &mut Text, words: PlanWords<'_>, family: Option<&Family>) {
    if let Some(Family::Messages { first, count }) = family {
        let name = name_of(words.plan(), *first);
        if *count < 2 {
            text.push(name);
        } else if words.family_of(*first).is_some() {
            text.push(words.message_name(*first));
            text.push("_*");
        } else {
            text.push(stem_of(name).unwrap_or(name));
            text.push("*");
        }
    }
}
