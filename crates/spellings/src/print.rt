// The canonical spelling of a plan.

ghost use Rattle.std.specs.Prelude.{◌≡◌, ◌∷◌, ◌++◌, [], IfOk, OnOk, string_bytes};
ghost use Rattle.std.specs.List.{list_any, flat_map};
ghost use Rattle.message_tree.specs.Trees.{frame_tree, payload_tree, tail_tree};
ghost use Rattle.plan_core.specs.PlanContents.{plan_contents};
ghost use Rattle.plan_text.specs.Symbols.{address_word, pattern_word};
ghost use Rattle.spellings.specs.Canonical.{Adds, frame_words, payload_words};
ghost use Rattle.spellings.specs.Canonical.{tail_words, frame_has_range, payload_has_range, tail_has_range};
ghost use Rattle.spellings.specs.Canonical.{message_line, interrupt_line};
ghost use Rattle.spellings.specs.Canonical.{version_line, plan_text};
ghost use Rattle.plan_text.specs.Grammar.{Spells};

use crate::items::{controllers, count, end, in_bits, nevers, word};
use message_tree::{Address, Frame, Pattern, Payload, Tail};
use plan_core::Plan;
use std::alloc::{AllocError, Global};

/// The canonical spelling: the version on the first line, then the messages, the controllers, the interrupts and the
/// `never` items, each on a line of its own and in the order of its kind, with one space between two tokens.
///
/// Reading it gives the plan back.
pub fn print_plan(alloc: Global, plan: &Plan) -> Result<Vec<u8>, AllocError>
    ensures canonical { IfOk result (λ text. text.items ≡ plan_text (plan_contents plan.now)) }
    ensures read_back { IfOk result (λ text. Spells text.items (plan_contents plan.now)) }
{
    print(alloc, plan)
}

// The canonical spelling.
#[tactic(auto, unfolding(crate::specs::Canonical::plan_text))]
fn print(alloc: Global, plan: &Plan) -> Result<Vec<u8>, AllocError>
    ensures { IfOk result (λ text. text.items ≡ plan_text (plan_contents plan.now)) }
{
    let mut text = String::new(alloc);
    text.push_str(version(plan))?;
    messages(&mut text, plan)?;
    controllers(&mut text, plan)?;
    interrupts(&mut text, plan)?;
    nevers(&mut text, plan)?;
    Ok(text.into_bytes())
}

// The first line. The second version is for `never` and for reads with two different ends alone.
fn version(plan: &Plan) -> &'static str
    ensures { result.now ≡ version_line (plan_contents plan.now) }
{
    if plan.nevers() > 0 || has_range(plan) {
        "plan 2\n"
    } else {
        "plan 1\n"
    }
}

fn has_range(plan: &Plan) -> bool
    ensures { result ≡ list_any (λ message. frame_has_range message.1) (plan_contents plan.now).messages }
{
    for k in 0..plan.messages() {
        if frame_has_range(plan.message(k)) {
            return true;
        }
    }
    false
}

fn messages(text: &mut String, plan: &Plan) -> Result<(), AllocError>
    ensures { OnOk result (string_bytes text.new ≡ string_bytes text.old ++
        flat_map message_line (plan_contents plan.now).messages) }
{
    for k in 0..plan.messages() {
        message(text, plan.message_name(k).as_str(), plan.message(k))?;
    }
    Ok(())
}

fn message(text: &mut String, name: &str, it: &Frame) -> Result<(), AllocError>
    ensures { OnOk result (string_bytes text.new ≡ string_bytes text.old ++
        message_line (name.now, frame_tree it.now)) }
{
    text.push_str("message")?;
    word(text, name)?;
    frame(text, it)?;
    end(text)
}

fn interrupts(text: &mut String, plan: &Plan) -> Result<(), AllocError>
    ensures { OnOk result (string_bytes text.new ≡ string_bytes text.old ++
        flat_map interrupt_line (plan_contents plan.now).interrupts) }
{
    for k in 0..plan.interrupts() {
        let name = plan.interrupt_name(k).as_str();
        interrupt(text, name, plan.interrupt_address(k))?;
    }
    Ok(())
}

fn interrupt(text: &mut String, name: &str, target: u8) -> Result<(), AllocError>
    ensures { OnOk result (string_bytes text.new ≡ string_bytes text.old ++ interrupt_line (name.now, target)) }
{
    text.push_str("interrupt")?;
    word(text, name)?;
    address(text, &Address::new(0x7f, target))?;
    end(text)
}

#[cycle(frame)]
fn frame(text: &mut String, it: &Frame) -> Result<(), AllocError>
    ensures { OnOk result (Adds (string_bytes text.old) (string_bytes text.new) (frame_words (frame_tree it.now))) }
{
    match it {
        Frame::Write {
            address: target,
            acked,
            refused,
        } => {
            word(text, "write")?;
            address(text, target)?;
            payload(text, acked)?;
            word(text, "else")?;
            tail(text, refused)
        }
        Frame::Read {
            address: target,
            count: bytes,
            after,
            refused,
        } => {
            word(text, "read")?;
            address(text, target)?;
            count(text, bytes)?;
            tail(text, after)?;
            word(text, "else")?;
            tail(text, refused)
        }
    }
}

#[cycle(frame)]
fn payload(text: &mut String, it: &Payload) -> Result<(), AllocError>
    ensures { OnOk result (Adds (string_bytes text.old) (string_bytes text.new) (payload_words (payload_tree it.now))) }
{
    match it {
        Payload::Byte {
            bits,
            acked,
            refused,
        } => {
            pattern(text, bits)?;
            payload(text, acked)?;
            word(text, "else")?;
            tail(text, refused)
        }
        Payload::Last(last) => tail(text, last),
    }
}

#[cycle(frame)]
fn tail(text: &mut String, it: &Tail) -> Result<(), AllocError>
    ensures { OnOk result (Adds (string_bytes text.old) (string_bytes text.new) (tail_words (tail_tree it.now))) }
{
    match it {
        Tail::Stop => word(text, "stop"),
        Tail::Again(next) => {
            word(text, "again")?;
            frame(text, next)
        }
    }
}

#[cycle(has_range)]
fn frame_has_range(it: &Frame) -> bool
    ensures { result ≡ frame_has_range (frame_tree it.now) }
{
    match it {
        Frame::Write { acked, refused, .. } => payload_has_range(acked) || tail_has_range(refused),
        Frame::Read {
            count,
            after,
            refused,
            ..
        } => count.least() < count.greatest() || tail_has_range(after) || tail_has_range(refused),
    }
}

#[cycle(has_range)]
fn payload_has_range(it: &Payload) -> bool
    ensures { result ≡ payload_has_range (payload_tree it.now) }
{
    match it {
        Payload::Byte { acked, refused, .. } => payload_has_range(acked) || tail_has_range(refused),
        Payload::Last(last) => tail_has_range(last),
    }
}

#[cycle(has_range)]
fn tail_has_range(it: &Tail) -> bool
    ensures { result ≡ tail_has_range (tail_tree it.now) }
{
    match it {
        Tail::Stop => false,
        Tail::Again(next) => frame_has_range(next),
    }
}

fn address(text: &mut String, it: &Address) -> Result<(), AllocError>
    ensures { OnOk result (Adds (string_bytes text.old) (string_bytes text.new) (address_word it.now ∷ [])) }
{
    in_bits(text, "", &it.bits())
}

fn pattern(text: &mut String, it: &Pattern) -> Result<(), AllocError>
    ensures { OnOk result (Adds (string_bytes text.old) (string_bytes text.new) (pattern_word it.now ∷ [])) }
{
    in_bits(text, "", &it.bits())
}
