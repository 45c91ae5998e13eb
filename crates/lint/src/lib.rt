//! What is allowed in briefs, and is likely a mistake. Nothing of it decides anything, and no clause speaks of it.
//!
//! `headers` says which messages part in their first byte, and which are a header alone; `groups` which groups of devices stand in
//! no message; `nevers` which `never` items keep apart what parts anyway, and `address_bytes` which data bytes are written where
//! others have an address.
#![tactic(auto)]

mod address_bytes;
mod groups;
mod headers;
mod nevers;

use address_bytes::push_address_bytes;
use brief_tokens::begin;
use groups::push_groups;
use headers::push_headers;
use lexer::Letters;
use message_tree::{Address, Bit};
use nevers::push_nevers;
use origins::{Device, NamedByte, Origins, Span, Spans, Spot};
use plan_core::Plan;
use plan_words::family_of;
use std::alloc::{AllocError, Global};

/// What is likely a mistake.
#[derive(Clone, Copy)]
pub enum Oddity<'a> {
    /// This brief has no items, and names no files.
    EmptyBrief(Spot),
    /// Here a comment has a carriage return in it, which does not end it, and words after that.
    CarriageReturn(Spot),
    /// The second device has the address of the first, in all bits.
    SameAddress(&'a Device, &'a Device),
    /// UM10204, 3.1.12 reserves the address: it begins with 0000 or 11111. (With 11110 begins an address of ten bits.)
    ReservedAddress(&'a Device),
    /// No message and no interrupt names the device.
    UnusedDevice(&'a Device),
    /// No message names the group of devices.
    UnusedGroup {
        name: &'a str,
        at: Placed,
    },
    /// No message names the data byte.
    UnusedByte(&'a NamedByte),
    /// No controller lists these messages: so many, from this one of the plan on. Several are of one family.
    Unsent {
        first: u32,
        count: u32,
        spot: Spot,
    },
    /// The controller of this number in the plan lists no message.
    Idle {
        controller: u32,
        spot: Spot,
    },
    /// This data byte is that with which a transaction with the device begins, and stands where such bytes do.
    AddressByte {
        device: &'a Device,
        is_read: bool,
        at: Placed,
    },
    /// This message of the plan writes a header and no data, and another controller writes to that address.
    BareHeader {
        message: u32,
        spot: Spot,
    },
    /// A `never` between these sides keeps apart only messages that part in their first byte. It keeps apart none where one of
    /// the two sends nothing.
    IdleNever {
        first: &'a str,
        second: &'a str,
        sends: bool,
        at: Placed,
    },
}

/// A part of a brief, and the line on which it begins.
#[derive(Clone, Copy)]
pub struct Placed {
    pub span: Span,
    pub line: u64,
}

impl Placed {
    fn spot(self) -> Spot {
        Spot {
            file: self.span.file,
            line: self.line,
        }
    }
}

impl Oddity<'_> {
    /// What it is, in a few words that stay as they are.
    pub fn code(self) -> &'static str {
        match self {
            Oddity::EmptyBrief(_) => "empty brief",
            Oddity::CarriageReturn(_) => "carriage return",
            Oddity::SameAddress(..) => "same address",
            Oddity::ReservedAddress(_) => "reserved address",
            Oddity::UnusedDevice(_) => "unused device",
            Oddity::UnusedGroup { .. } => "unused group",
            Oddity::UnusedByte(_) => "unused byte",
            Oddity::Unsent { .. } => "unsent message",
            Oddity::Idle { .. } => "idle controller",
            Oddity::AddressByte { .. } => "address byte",
            Oddity::BareHeader { .. } => "bare header",
            Oddity::IdleNever { .. } => "idle never",
        }
    }

    /// Where it stands.
    pub fn spot(self) -> Spot {
        match self {
            Oddity::EmptyBrief(spot) | Oddity::CarriageReturn(spot) => spot,
            Oddity::SameAddress(_, device)
            | Oddity::ReservedAddress(device)
            | Oddity::UnusedDevice(device) => device.spot,
            Oddity::UnusedByte(byte) => byte.spot,
            Oddity::Unsent { spot, .. }
            | Oddity::Idle { spot, .. }
            | Oddity::BareHeader { spot, .. } => spot,
            Oddity::UnusedGroup { at, .. }
            | Oddity::AddressByte { at, .. }
            | Oddity::IdleNever { at, .. } => at.spot(),
        }
    }
}

/// What is likely a mistake in the briefs of these texts, where briefs mean this plan: first of the texts, whose items are these,
/// then of devices, groups of these, bytes, messages, data bytes in these, controllers, and `never` items, each in the order of the briefs.
///
/// # Errors
///
/// Where an allocation fails.
pub fn oddities<'a>(
    alloc: Global,
    plan: &Plan,
    origins: &'a Option<Origins>,
    texts: &'a [Vec<u8>],
    spans: &'a Spans,
) -> Result<Vec<Oddity<'a>>, AllocError> {
    let mut found = Vec::new(alloc);
    let Some(origins) = origins else {
        return Ok(found);
    };
    push_texts(&mut found, texts, spans)?;
    push_devices(&mut found, origins.devices.as_slice())?;
    push_groups(alloc, &mut found, texts, spans)?;
    push_bytes(&mut found, origins.bytes.as_slice())?;
    push_messages(&mut found, plan, origins)?;
    push_headers(&mut found, plan, origins)?;
    push_address_bytes(alloc, &mut found, origins.devices.as_slice(), texts, spans)?;
    push_controllers(&mut found, plan, origins)?;
    push_nevers(alloc, &mut found, plan, origins, texts, spans)?;
    Ok(found)
}

fn push_texts(
    found: &mut Vec<Oddity<'_>>,
    texts: &[Vec<u8>],
    spans: &Spans,
) -> Result<(), AllocError> {
    let mut file = 0u32;
    for text in texts {
        if !spans.has_items(file) && !names_files(text.as_slice()) {
            found.push(Oddity::EmptyBrief(Spot { file, line: 1 }))?;
        }
        push_text(found, file, text.as_slice())?;
        file = file.saturating_add(1);
    }
    Ok(())
}

// Whether the head of a text names files.
fn names_files(text: &[u8]) -> bool {
    match begin(text) {
        Ok(mut tokens) => {
            tokens.letters() == Letters::Board && matches!(tokens.next_file(), Ok(Some(_)))
        }
        Err(_) => false,
    }
}

fn push_text(found: &mut Vec<Oddity<'_>>, file: u32, text: &[u8]) -> Result<(), AllocError> {
    let mut line = 1u64;
    for words in text.split(is_line_feed) {
        if has_return(words) {
            found.push(Oddity::CarriageReturn(Spot { file, line }))?;
        }
        line = line.saturating_add(1);
    }
    Ok(())
}

fn is_line_feed(byte: &u8) -> bool {
    *byte == b'\n'
}

// Whether a carriage return stands in the comment of this line, with words after it.
fn has_return(line: &[u8]) -> bool {
    match line.iter().position(|byte| *byte == b'#') {
        Some(at) => line
            .get(at..)
            .unwrap_or(&[])
            .trim_ascii_end()
            .contains(&b'\r'),
        None => false,
    }
}

fn push_devices<'a>(found: &mut Vec<Oddity<'a>>, devices: &'a [Device]) -> Result<(), AllocError> {
    let mut before = 0usize;
    for device in devices {
        if let Some(first) = with_address(devices.get(..before).unwrap_or(&[]), device.address) {
            found.push(Oddity::SameAddress(first, device))?;
        }
        if is_reserved(device.address) {
            found.push(Oddity::ReservedAddress(device))?;
        }
        if !device.is_used {
            found.push(Oddity::UnusedDevice(device))?;
        }
        before = before.saturating_add(1);
    }
    Ok(())
}

// The first of these devices that has this address.
pub(crate) fn with_address(devices: &[Device], address: Address) -> Option<&Device> {
    devices.iter().find(|device| device.address == address)
}

// Whether it begins with 0000 or 11111. What begins with 11110 is the first byte of an address of ten bits.
pub(crate) fn is_reserved(address: Address) -> bool {
    begins_with(address, Bit::Zero, 4) || begins_with(address, Bit::One, 5)
}

// Whether so many bits at its beginning are these.
fn begins_with(address: Address, bit: Bit, count: usize) -> bool {
    address.bits().iter().take(count).all(|own| *own == bit)
}

fn push_bytes<'a>(found: &mut Vec<Oddity<'a>>, bytes: &'a [NamedByte]) -> Result<(), AllocError> {
    for byte in bytes {
        if !byte.is_used {
            found.push(Oddity::UnusedByte(byte))?;
        }
    }
    Ok(())
}

// Messages that no controller lists, those of one family together that stand one after another.
fn push_messages(
    found: &mut Vec<Oddity<'_>>,
    plan: &Plan,
    origins: &Origins,
) -> Result<(), AllocError> {
    let mut open: Option<(u32, u32, Spot)> = None;
    let mut before = None;
    let mut message = 0u32;
    for spot in origins.messages.as_slice() {
        let family = family_in(plan, origins, message);
        if is_sent(plan, message) {
            push_unsent(found, open)?;
            open = None;
        } else {
            open = match open {
                Some((first, count, place)) if family.is_some() && family == before => {
                    Some((first, count.saturating_add(1), place))
                }
                others => {
                    push_unsent(found, others)?;
                    Some((message, 1, *spot))
                }
            };
        }
        before = family;
        message = message.saturating_add(1);
    }
    push_unsent(found, open)
}

// The number of the family that makes this message.
fn family_in(plan: &Plan, origins: &Origins, message: u32) -> Option<usize> {
    if plan.messages() <= message {
        return None;
    }
    family_of(origins, plan.message_name(message))
}

fn push_unsent(
    found: &mut Vec<Oddity<'_>>,
    open: Option<(u32, u32, Spot)>,
) -> Result<(), AllocError> {
    if let Some((first, count, spot)) = open {
        found.push(Oddity::Unsent { first, count, spot })?;
    }
    Ok(())
}

/// Whether a controller of the plan lists this message.
pub fn is_sent(plan: &Plan, message: u32) -> bool {
    for k in 0..plan.controllers() {
        if plan.controller_messages(k).contains(&message) {
            return true;
        }
    }
    false
}

fn push_controllers(
    found: &mut Vec<Oddity<'_>>,
    plan: &Plan,
    origins: &Origins,
) -> Result<(), AllocError> {
    let mut controller = 0u32;
    for origin in origins.controllers.as_slice() {
        if controller < plan.controllers() && plan.controller_messages(controller).is_empty() {
            found.push(Oddity::Idle {
                controller,
                spot: origin.spot,
            })?;
        }
        controller = controller.saturating_add(1);
    }
    Ok(())
}
