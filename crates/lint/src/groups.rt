// Groups that stand in no message.

use crate::{Oddity, Placed};
use origins::{ItemKind, Kind, NameAt, NamedTexts, Role, Spans};
use std::alloc::{AllocError, Global};

/// Adds the groups that no message names.
pub(crate) fn push_groups<'a>(
    alloc: Global,
    found: &mut Vec<Oddity<'a>>,
    texts: &'a [Vec<u8>],
    spans: &'a Spans,
) -> Result<(), AllocError> {
    let mut named = NamedTexts::new(alloc, spans)?;
    for text in texts {
        named.add(text.as_slice())?;
    }
    for at in spans.names() {
        if named.is_group(*at) && !is_in_message(&named, *at) {
            found.push(Oddity::UnusedGroup {
                name: str::from_utf8(named.word(*at)).unwrap_or(""),
                at: Placed {
                    span: at.span,
                    line: at.line,
                },
            })?;
        }
    }
    Ok(())
}

fn is_in_message(named: &NamedTexts<'_>, group: NameAt) -> bool {
    for at in named.names() {
        if at.kind == Kind::Device
            && at.role == Role::Used
            && gives_message(named, *at)
            && named.word(*at) == named.word(group)
        {
            return true;
        }
    }
    false
}

// Whether the item in which a name stands gives a message its name.
fn gives_message(named: &NamedTexts<'_>, at: NameAt) -> bool {
    match named.item(at) {
        Some(item) => item.kind == ItemKind::Gives(Kind::Message),
        None => false,
    }
}
