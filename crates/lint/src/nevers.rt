// Items `never` that keep apart nothing that could meet.

use crate::headers::can_meet;
use crate::{Oddity, Placed};
use origins::{ItemKind, NameAt, NamedTexts, Origins, Role, Span, Spans, halves};
use plan_core::{Name, Plan};
use plan_words::family_of;
use std::alloc::{AllocError, Global};

// A side of a `never`, as it is written: a controller, or a label.
#[derive(Clone, Copy)]
struct Side<'a> {
    word: &'a [u8],
    at: NameAt,
}

impl<'a> Side<'a> {
    fn controller(self) -> &'a [u8] {
        match halves(self.word) {
            Some((controller, _)) => controller,
            None => self.word,
        }
    }

    fn label(self) -> Option<&'a [u8]> {
        let (_, label) = halves(self.word)?;
        Some(label)
    }

    fn text(self) -> &'a str {
        str::from_utf8(self.word).unwrap_or("")
    }

    // Whether it means this controller of the plan.
    fn means(self, origins: &Origins, controller: u32) -> bool {
        let Some(origin) = origins.controllers.get(controller as usize) else {
            return false;
        };
        is_called(&origin.controller, self.controller())
            && self.means_part(origins, origin.label.as_ref())
    }

    // The same of a part of its controller.
    fn means_part(self, origins: &Origins, own: Option<&Name>) -> bool {
        match (self.label(), own) {
            (None, _) => true,
            (Some(_), None) => false,
            (Some(label), Some(own)) => is_called(own, label) || is_made(origins, label, own),
        }
    }
}

fn is_called(name: &Name, word: &[u8]) -> bool {
    name.as_str().as_bytes() == word
}

// Whether the family of this name makes this message.
fn is_made(origins: &Origins, family: &[u8], message: &Name) -> bool {
    let Some(number) = family_of(origins, message) else {
        return false;
    };
    match origins.families.get(number) {
        Some(made_by) => is_called(&made_by.name, family),
        None => false,
    }
}

/// Adds the `never` items whose sides send nothing that could meet.
pub(crate) fn push_nevers<'a>(
    alloc: Global,
    found: &mut Vec<Oddity<'a>>,
    plan: &Plan,
    origins: &Origins,
    texts: &'a [Vec<u8>],
    spans: &'a Spans,
) -> Result<(), AllocError> {
    let mut before: Option<Side<'a>> = None;
    for side in sides_in(alloc, texts, spans)? {
        match before {
            Some(first) if first.at.item == side.at.item => {
                push_never(found, plan, origins, first, side)?;
            }
            _ => {}
        }
        before = Some(side);
    }
    Ok(())
}

// The sides of all `never` items, in order.
fn sides_in<'a>(
    alloc: Global,
    texts: &'a [Vec<u8>],
    spans: &'a Spans,
) -> Result<Vec<Side<'a>>, AllocError> {
    let mut named = NamedTexts::new(alloc, spans)?;
    for text in texts {
        named.add(text.as_slice())?;
    }
    let mut sides = Vec::new(alloc);
    for at in spans.names() {
        match spans.item(*at) {
            Some(item) if item.kind == ItemKind::Never => push_side(&mut sides, &named, *at)?,
            _ => {}
        }
    }
    Ok(sides)
}

// Adds a name. What a label sends belongs to the side before it.
fn push_side<'a>(
    sides: &mut Vec<Side<'a>>,
    named: &NamedTexts<'a>,
    at: NameAt,
) -> Result<(), AllocError> {
    if at.role != Role::Label {
        let word = named.word(at);
        return Ok(sides.push(Side { word, at })?);
    }
    if let Some(side) = sides.last_mut() {
        let whole = Span {
            end: at.span.end,
            ..side.at.span
        };
        side.word = whole.of(named.text(whole.file));
        side.at.span = whole;
    }
    Ok(())
}

fn push_never<'a>(
    found: &mut Vec<Oddity<'a>>,
    plan: &Plan,
    origins: &Origins,
    first: Side<'a>,
    second: Side<'a>,
) -> Result<(), AllocError> {
    if side_meets(plan, origins, first, second) {
        return Ok(());
    }
    Ok(found.push(Oddity::IdleNever {
        first: first.text(),
        second: second.text(),
        sends: sends(plan, origins, first) && sends(plan, origins, second),
        at: Placed {
            span: Span {
                end: second.at.span.end,
                ..first.at.span
            },
            line: first.at.line,
        },
    })?)
}

// Whether a side lists a message.
fn sends(plan: &Plan, origins: &Origins, side: Side<'_>) -> bool {
    for c in 0..plan.controllers() {
        if side.means(origins, c) && !plan.controller_messages(c).is_empty() {
            return true;
        }
    }
    false
}

// Whether some message of one side could meet one of the other.
fn side_meets(plan: &Plan, origins: &Origins, first: Side<'_>, second: Side<'_>) -> bool {
    for c in 0..plan.controllers() {
        if first.means(origins, c) && part_meets(plan, origins, c, second) {
            return true;
        }
    }
    false
}

fn part_meets(plan: &Plan, origins: &Origins, c: u32, second: Side<'_>) -> bool {
    for d in 0..plan.controllers() {
        if second.means(origins, d) && controllers_meet(plan, c, d) {
            return true;
        }
    }
    false
}

fn controllers_meet(plan: &Plan, c: u32, d: u32) -> bool {
    if plan.controllers() <= c || plan.controllers() <= d {
        return false;
    }
    for message in plan.controller_messages(c) {
        if meets_one_of(plan, *message, plan.controller_messages(d)) {
            return true;
        }
    }
    false
}

fn meets_one_of(plan: &Plan, message: u32, others: &[u32]) -> bool {
    for other in others {
        if can_meet(plan, message, *other) {
            return true;
        }
    }
    false
}
