// A brief of a plan.

ghost use Rattle.std.specs.Prelude.{◌≡◌, ◌<◌, ◌≤◌, ◌⊎◌, [], ◌∷◌, ◌++◌, IfOk, IfErr, IfSome, OnOk, length};
ghost use Rattle.std.specs.Prelude.{codes, string_bytes, true, false, Some, is_some};
ghost use Rattle.std.specs.List.{find, flat_map, list_all, slice_get};
ghost use Rattle.std.specs.Option.{option_map};
ghost use Rattle.message_tree.specs.Trees.{frame_tree, payload_tree, tail_tree};
ghost use Rattle.plan_core.specs.NameBytes.{name_bytes};
ghost use Rattle.plan_core.specs.PlanContents.{plan_contents};
ghost use Rattle.spellings.specs.Canonical.{Adds};
ghost use Rattle.brief_text.specs.Briefs.{Means};
ghost use Rattle.brief_tokens.specs.Names.{is_brief_word, has_brief_word, first_brief_word, LacksBrief};
ghost use Rattle.spellings.specs.Runs.{run_of, run_before};
ghost use Rattle.spellings.specs.Kinds.{names_of};
ghost use Rattle.spellings.specs.Spelling.{hex_symbol, is_open, digit_symbol, target_word, data_word, run_word};
ghost use Rattle.spellings.specs.Spelling.{run_words, frame_words, bytes_words, refused_words, next_words};
ghost use Rattle.spellings.specs.Spelling.{message_line, interrupt_line, brief_spelled};
ghost use Rattle.brief_text.specs.Words.{known_number};
ghost use Rattle.spellings.specs.Writing.{ended_by, with_byte};

use crate::families::gathered;
use crate::items::{controllers, count, end, in_bits, nevers, word};
use crate::print::print_plan;
use brief_text::expand_brief;
use brief_tokens::is_brief_word;
use message_tree::{Address, Bit, Frame, Pattern, Payload, Tail};
use plan_core::{Name, Plan};
use plan_text::{NoBrief, PlanError};
use std::alloc::{AllocError, Global};

/// A brief that means this plan: addresses and data bytes in hex where their bits allow it, runs of equal bytes with
/// their number, no `else stop`, and families where messages in a row differ in how often one byte stands.
///
/// # Errors
///
/// `Name` exactly where a name of the plan is a word of briefs, before memory is asked for; and `NoMemory`.
pub fn brief_of(alloc: Global, plan: &Plan) -> Result<Vec<u8>, NoBrief>
    ensures meant { IfOk result (λ text. Means text.items (plan_contents plan.now)) }
    ensures names { IfOk result (λ text. has_brief_word (plan_contents plan.now) ≡ false) }
    ensures refused { IfErr result (λ e. (e ≡ NoBrief.NoMemory) ⊎ LacksBrief (plan_contents plan.now) e) }
{
    if brief_word(plan).is_some() {
        return Err(NoBrief::Name);
    }
    if let Some(brief) = gathered(alloc, plan)? {
        if is_brief_of(alloc, brief.as_slice(), plan)? {
            return Ok(brief);
        }
    }
    Ok(written(alloc, plan)?)
}

// Whether the text means this plan: the plan that it means is spelled alike.
fn is_brief_of(alloc: Global, text: &[u8], plan: &Plan) -> Result<bool, NoBrief>
    ensures meant { IfOk result (λ yes. yes ≡ true → Means text.now (plan_contents plan.now)) }
    ensures memory { IfErr result (λ e. e ≡ NoBrief.NoMemory) }
{
    match expand_brief(alloc, text) {
        Ok(meant) => {
            let one = print_plan(alloc, &meant)?;
            let other = print_plan(alloc, plan)?;
            Ok(one.as_slice() == other.as_slice())
        }
        Err(PlanError::NoMemory) => Err(NoBrief::NoMemory),
        Err(_) => Ok(false),
    }
}

/// The first name of the plan that is a word of briefs: of the messages, then of the controllers, then of the
/// interrupts, each in plan order. There is none in a plan whose names a brief can say.
pub fn brief_word(plan: &Plan) -> Option<&Name>
    ensures some { is_some result ≡ has_brief_word (plan_contents plan.now) }
    ensures first { option_map (λ name. name_bytes name.now) result ≡ first_brief_word (plan_contents plan.now) }
{
    word_of(plan, Kind::Message)
        .or(word_of(plan, Kind::Controller))
        .or(word_of(plan, Kind::Interrupt))
}

// What has a name in a plan.
#[derive(Clone, Copy)]
enum Kind {
    Message,
    Controller,
    Interrupt,
}

fn word_of(plan: &Plan, kind: Kind) -> Option<&Name>
    ensures { option_map (λ name. name_bytes name.now) result ≡
        find is_brief_word (names_of kind (plan_contents plan.now)) }
{
    for k in 0..count_in(plan, kind) {
        let name = name_in(plan, kind, k);
        if is_brief_word(name.as_str()) {
            return Some(name);
        }
    }
    None
}

#[tactic(auto, using(crate::proofs::NameLemmas::all_named))]
fn count_in(plan: &Plan, kind: Kind) -> u32
    ensures { result ≡ length (names_of kind (plan_contents plan.now)) }
{
    match kind {
        Kind::Message => plan.messages(),
        Kind::Controller => plan.controllers(),
        Kind::Interrupt => plan.interrupts(),
    }
}

#[tactic(auto, using(crate::proofs::NameLemmas::all_named))]
fn name_in(plan: &Plan, kind: Kind, k: u32) -> &Name
    requires { k < length (names_of kind (plan_contents plan.now)) }
    ensures { slice_get (names_of kind (plan_contents plan.now)) k ≡ Some (name_bytes result.now) }
{
    match kind {
        Kind::Message => plan.message_name(k),
        Kind::Controller => plan.controller_name(k),
        Kind::Interrupt => plan.interrupt_name(k),
    }
}

// The text of a brief that means the plan.
#[tactic(auto, unfolding(crate::specs::Spelling::brief_spelled))]
fn written(alloc: Global, plan: &Plan) -> Result<Vec<u8>, AllocError>
    ensures { IfOk result (λ text. text.items ≡ brief_spelled (plan_contents plan.now)) }
{
    let mut text = String::new(alloc);
    text.push_str("brief 1\n")?;
    messages(&mut text, plan)?;
    controllers(&mut text, plan)?;
    interrupts(&mut text, plan)?;
    nevers(&mut text, plan)?;
    Ok(text.into_bytes())
}

fn messages(text: &mut String, plan: &Plan) -> Result<(), AllocError>
    ensures { OnOk result (string_bytes text.new ≡ string_bytes text.old ++
        flat_map message_line (plan_contents plan.now).messages) }
{
    for k in 0..plan.messages() {
        message(text, plan.message_name(k).as_str(), plan.message(k))?;
    }
    Ok(())
}

pub(crate) fn message(text: &mut String, name: &str, it: &Frame) -> Result<(), AllocError>
    ensures { OnOk result (string_bytes text.new ≡ string_bytes text.old ++
        message_line (name.now, frame_tree it.now)) }
{
    text.push_str("message")?;
    word(text, name)?;
    frames(text, it)?;
    end(text)
}

pub(crate) fn interrupts(text: &mut String, plan: &Plan) -> Result<(), AllocError>
    ensures { OnOk result (string_bytes text.new ≡ string_bytes text.old ++
        flat_map interrupt_line (plan_contents plan.now).interrupts) }
{
    for k in 0..plan.interrupts() {
        let name = plan.interrupt_name(k).as_str();
        interrupt(text, name, plan.interrupt_address(k))?;
    }
    Ok(())
}

fn interrupt(text: &mut String, name: &str, target: u8) -> Result<(), AllocError>
    ensures { OnOk result (string_bytes text.new ≡ string_bytes text.old ++ interrupt_line (name.now, target)) }
{
    text.push_str("interrupt")?;
    word(text, name)?;
    address(text, &Address::new(0x7f, target))?;
    end(text)
}

// A frame, and those that follow it.
#[cycle(frames)]
fn frames(text: &mut String, it: &Frame) -> Result<(), AllocError>
    ensures { OnOk result (Adds (string_bytes text.old) (string_bytes text.new) (frame_words (frame_tree it.now))) }
{
    match it {
        Frame::Write {
            address: target,
            acked,
            refused,
        } => {
            word(text, "write")?;
            address(text, target)?;
            after_refusal(text, refused)?;
            payload(text, acked, None)
        }
        Frame::Read {
            address: target,
            count: bytes,
            after,
            refused,
        } => {
            word(text, "read")?;
            address(text, target)?;
            count(text, bytes)?;
            after_refusal(text, refused)?;
            following(text, after)
        }
    }
}

// Equal bytes that nothing follows where they are refused.
#[derive(Clone, Copy)]
pub(crate) struct Run {
    bits: Pattern,
    length: u8,
}

// What follows this run, of which nothing is written yet.
#[cycle(frames)]
fn payload(text: &mut String, it: &Payload, run: Option<Run>) -> Result<(), AllocError>
    ensures { OnOk result (Adds (string_bytes text.old) (string_bytes text.new)
        (bytes_words (payload_tree it.now) (run_before run))) }
{
    match it {
        Payload::Byte {
            bits,
            acked,
            refused,
        } => match refused {
            Tail::Stop => {
                let longer = with_byte(text, run, *bits)?;
                payload(text, acked, Some(longer))
            }
            Tail::Again(_) => {
                end_run(text, run)?;
                pattern(text, bits)?;
                after_refusal(text, refused)?;
                payload(text, acked, None)
            }
        },
        Payload::Last(tail) => {
            end_run(text, run)?;
            following(text, tail)
        }
    }
}

// `else` and frames, where there are any.
#[cycle(frames)]
fn after_refusal(text: &mut String, it: &Tail) -> Result<(), AllocError>
    ensures { OnOk result (Adds (string_bytes text.old) (string_bytes text.new) (refused_words (tail_tree it.now))) }
{
    match it {
        Tail::Stop => Ok(()),
        Tail::Again(frame) => {
            word(text, "else")?;
            word(text, "(")?;
            frames(text, frame)?;
            word(text, ")")
        }
    }
}

#[cycle(frames)]
fn following(text: &mut String, it: &Tail) -> Result<(), AllocError>
    ensures { OnOk result (Adds (string_bytes text.old) (string_bytes text.new) (next_words (tail_tree it.now))) }
{
    match it {
        Tail::Stop => Ok(()),
        Tail::Again(frame) => frames(text, frame),
    }
}

// The run with one byte more. One of other bytes ends.
pub(crate) fn with_byte(
    text: &mut String,
    run: Option<Run>,
    bits: Pattern,
) -> Result<Run, AllocError>
    ensures run { IfOk result (λ longer. run_of longer ≡ with_byte (run_before run) bits) }
    ensures ended { OnOk result (Adds (string_bytes text.old) (string_bytes text.new)
        (run_words (ended_by (run_before run) bits))) }
{
    let Some(before) = run else {
        return Ok(Run { bits, length: 1 });
    };
    if before.bits == bits && before.length < 255 {
        return Ok(Run {
            bits,
            length: before.length + 1,
        });
    }
    repeated(text, before)?;
    Ok(Run { bits, length: 1 })
}

pub(crate) fn end_run(text: &mut String, run: Option<Run>) -> Result<(), AllocError>
    ensures { OnOk result (Adds (string_bytes text.old) (string_bytes text.new) (run_words (run_before run))) }
{
    match run {
        None => Ok(()),
        Some(run) => repeated(text, run),
    }
}

// A byte with its number.
fn repeated(text: &mut String, run: Run) -> Result<(), AllocError>
    ensures { OnOk result (Adds (string_bytes text.old) (string_bytes text.new) (run_word (run_of run) ∷ [])) }
{
    pattern(text, &run.bits)?;
    if run.length > 1 {
        let length = run.length;
        write!(text, "*{length}")
    } else {
        Ok(())
    }
}

pub(crate) fn pattern(text: &mut String, it: &Pattern) -> Result<(), AllocError>
    ensures { OnOk result (Adds (string_bytes text.old) (string_bytes text.new) (data_word it.now ∷ [])) }
{
    let bits = it.bits();
    let (Some(high), Some(low)) = (digit(&bits[..4]), digit(&bits[4..])) else {
        return in_bits(text, "0b", &bits);
    };
    if high != 'X' {
        return in_hex(text, high, low);
    }
    if low != 'X' {
        return in_hex(text, high, low);
    }
    word(text, "any")
}

pub(crate) fn address(text: &mut String, it: &Address) -> Result<(), AllocError>
    ensures { OnOk result (Adds (string_bytes text.old) (string_bytes text.new) (target_word it.now ∷ [])) }
{
    let bits = it.bits();
    let (Some(high), Some(low)) = (digit(&bits[..3]), digit(&bits[3..])) else {
        return in_bits(text, "0b", &bits);
    };
    in_hex(text, high, low)
}

fn in_hex(text: &mut String, high: char, low: char) -> Result<(), AllocError>
    requires { (high < 128) × (low < 128) }
    ensures { OnOk result (Adds (string_bytes text.old) (string_bytes text.new)
        ((codes "0x" ++ high ∷ low ∷ []) ∷ [])) }
{
    text.push_str(" 0x")?;
    text.push(high)?;
    text.push(low)
}

// The digit of these bits, where all of them are known or all are open.
fn digit(bits: &[Bit]) -> Option<char>
    requires { length bits.now ≤ 4 }
    ensures digit { result ≡ digit_symbol bits.now }
    ensures ascii { IfSome result (λ digit. digit < 128) }
{
    if are_open(bits) {
        return Some('X');
    }
    match known_value(bits) {
        Some(value) => Some(hex_symbol(value)),
        None => None,
    }
}

fn are_open(bits: &[Bit]) -> bool
    ensures { result ≡ list_all is_open bits.now }
{
    for bit in bits {
        if !is_open(*bit) {
            return false;
        }
    }
    true
}

fn is_open(bit: Bit) -> bool
    ensures { result ≡ is_open bit }
{
    match bit {
        Bit::Zero => false,
        Bit::One => false,
        Bit::Either => true,
    }
}

fn known_value(bits: &[Bit]) -> Option<u8>
    requires { length bits.now ≤ 4 }
    ensures value { result ≡ known_number 0 bits.now }
    ensures small { IfSome result (λ n. n < 16) }
{
    let mut value = 0u8;
    for bit in bits {
        value = match *bit {
            Bit::Zero => value * 2,
            Bit::One => value * 2 + 1,
            Bit::Either => return None,
        };
    }
    Some(value)
}

fn hex_symbol(value: u8) -> char
    requires { value < 16 }
    ensures digit { result ≡ hex_symbol value }
    ensures ascii { result < 128 }
{
    if value < 10 {
        (b'0' + value) as char
    } else {
        (b'A' + (value - 10)) as char
    }
}
