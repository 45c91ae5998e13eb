// What is likely a mistake in briefs.

use crate::items::Items;
use crate::mends::mends_of;
use crate::values::{About, Diagnostic, Related, Severity, Span, one_line};
use hints::on_oddity;
use lint::Oddity;
use origins::{Kind, Spot};
use plan_words::PlanWords;
use std::alloc::{AllocError, Global};

/// Adds one for each of these. For a strict check it is an error that a message was not looked at.
pub(crate) fn push_odd(
    alloc: Global,
    found: &mut Vec<Diagnostic>,
    words: PlanWords<'_>,
    odd: &[Oddity<'_>],
    strict: bool,
    items: &Items<'_>,
    texts: &[Vec<u8>],
) -> Result<(), AllocError> {
    for oddity in odd {
        let said = on_oddity(alloc, words, *oddity)?;
        found.push(Diagnostic {
            severity: severity_of(*oddity, strict),
            code: oddity.code(),
            span: span_of(words, *oddity, items, texts),
            message: one_line(alloc, &said)?,
            related: related_of(alloc, *oddity, items)?,
            fixes: mends_of(alloc, *oddity, items)?,
            about: about_of(*oddity),
        })?;
    }
    Ok(())
}

fn severity_of(oddity: Oddity<'_>, strict: bool) -> Severity {
    match oddity {
        Oddity::Unsent { .. } if strict => Severity::Error,
        _ => Severity::Warning,
    }
}

fn about_of(oddity: Oddity<'_>) -> About {
    match oddity {
        Oddity::UnusedDevice(_)
        | Oddity::UnusedGroup { .. }
        | Oddity::UnusedByte(_)
        | Oddity::Unsent { .. }
        | Oddity::Idle { .. }
        | Oddity::IdleNever { .. } => About::Unused,
        Oddity::EmptyBrief(_)
        | Oddity::CarriageReturn(_)
        | Oddity::SameAddress(..)
        | Oddity::ReservedAddress(_)
        | Oddity::AddressByte { .. }
        | Oddity::BareHeader { .. } => About::Other,
    }
}

// The name of what is meant, and else the whole line.
fn span_of(words: PlanWords<'_>, oddity: Oddity<'_>, items: &Items<'_>, texts: &[Vec<u8>]) -> Span {
    let named = match oddity {
        Oddity::EmptyBrief(_) | Oddity::CarriageReturn(_) => None,
        Oddity::SameAddress(_, device)
        | Oddity::ReservedAddress(device)
        | Oddity::UnusedDevice(device) => items.named(Kind::Device, device.name.as_str()),
        Oddity::UnusedByte(byte) => items.named(Kind::Byte, byte.name.as_str()),
        Oddity::Unsent { first: message, .. } | Oddity::BareHeader { message, .. } => {
            items.named(Kind::Message, words.message_name(message))
        }
        Oddity::Idle { controller, .. } => items.named(Kind::Controller, words.name(controller)),
        Oddity::UnusedGroup { at, .. }
        | Oddity::AddressByte { at, .. }
        | Oddity::IdleNever { at, .. } => Some(at.span),
    };
    match named {
        Some(span) => span,
        None => line_of(oddity.spot(), texts),
    }
}

fn related_of(
    alloc: Global,
    oddity: Oddity<'_>,
    items: &Items<'_>,
) -> Result<Vec<Related>, AllocError> {
    let mut related = Vec::new(alloc);
    let (device, what) = match oddity {
        Oddity::SameAddress(first, _) => (first, "the device with the same address"),
        Oddity::AddressByte { device, .. } => (device, "the device with this address"),
        _ => return Ok(related),
    };
    if let Some(span) = items.named(Kind::Device, device.name.as_str()) {
        related.push(Related {
            span,
            message: format!(in alloc; "{what}")?,
        })?;
    }
    Ok(related)
}

// A line of a text, without its line feed.
fn line_of(spot: Spot, texts: &[Vec<u8>]) -> Span {
    let mut start = 0usize;
    let mut line = 1u64;
    if let Some(text) = texts.get(spot.file as usize) {
        for words in text.as_slice().split(is_line_feed) {
            let end = start.saturating_add(words.len());
            if line == spot.line {
                return Span {
                    file: spot.file,
                    start,
                    end,
                };
            }
            start = end.saturating_add(1);
            line = line.saturating_add(1);
        }
    }
    Span {
        file: spot.file,
        start: 0,
        end: 0,
    }
}

fn is_line_feed(byte: &u8) -> bool {
    *byte == b'\n'
}
