// What the canonical spelling of a plan and its brief have in common: controllers, `never` items, words, counts and bits.

ghost use Rattle.std.specs.Prelude.{◌≡◌, ◌<◌, ◌∷◌, ◌++◌, [], length, map, codes, All, OnOk, string_bytes};
ghost use Rattle.std.specs.List.{flat_map};
ghost use Rattle.plan_core.specs.Labels.{name_at};
ghost use Rattle.plan_core.specs.PlanContents.{plan_contents};
ghost use Rattle.plan_text.specs.Symbols.{bit_symbol};
ghost use Rattle.spellings.specs.Canonical.{Adds, count_word, item_line, controller_line, never_line};

use message_tree::{Bit, Count};
use plan_core::Plan;
use std::alloc::AllocError;

pub(crate) fn controllers(text: &mut String, plan: &Plan) -> Result<(), AllocError>
    ensures { OnOk result (string_bytes text.new ≡ string_bytes text.old ++
        flat_map (controller_line (plan_contents plan.now)) (plan_contents plan.now).controllers) }
{
    for k in 0..plan.controllers() {
        let name = plan.controller_name(k).as_str();
        controller(text, plan, name, plan.controller_messages(k))?;
    }
    Ok(())
}

fn controller(text: &mut String, plan: &Plan, name: &str, sends: &[u32]) -> Result<(), AllocError>
    requires { All (λ m. m < length (plan_contents plan.now).messages) sends.now }
    ensures { OnOk result (string_bytes text.new ≡ string_bytes text.old ++
        controller_line (plan_contents plan.now) (name.now, sends.now)) }
{
    text.push_str("controller")?;
    word(text, name)?;
    message_names(text, plan, sends)?;
    end(text)
}

// The names of the messages with these numbers.
fn message_names(text: &mut String, plan: &Plan, numbers: &[u32]) -> Result<(), AllocError>
    requires { All (λ m. m < length (plan_contents plan.now).messages) numbers.now }
    ensures { OnOk result (Adds (string_bytes text.old) (string_bytes text.new)
        (map (name_at (plan_contents plan.now).messages) numbers.now)) }
{
    for message in numbers {
        word(text, plan.message_name(*message).as_str())?;
    }
    Ok(())
}

pub(crate) fn nevers(text: &mut String, plan: &Plan) -> Result<(), AllocError>
    ensures { OnOk result (string_bytes text.new ≡ string_bytes text.old ++
        flat_map (never_line (plan_contents plan.now)) (plan_contents plan.now).nevers) }
{
    for k in 0..plan.nevers() {
        let (first, second) = plan.never(k);
        let first = plan.controller_name(first).as_str();
        never(text, first, plan.controller_name(second).as_str())?;
    }
    Ok(())
}

fn never(text: &mut String, first: &str, second: &str) -> Result<(), AllocError>
    ensures { OnOk result (string_bytes text.new ≡ string_bytes text.old ++
        item_line (codes "never") (first.now ∷ (second.now ∷ []))) }
{
    text.push_str("never")?;
    word(text, first)?;
    word(text, second)?;
    end(text)
}

// A space, and the word.
pub(crate) fn word(text: &mut String, it: &str) -> Result<(), AllocError>
    ensures { OnOk result (Adds (string_bytes text.old) (string_bytes text.new) (it.now ∷ [])) }
{
    text.push(' ')?;
    text.push_str(it)
}

// The end of an item.
pub(crate) fn end(text: &mut String) -> Result<(), AllocError>
    ensures { OnOk result (string_bytes text.new ≡ string_bytes text.old ++ codes " ;\n") }
{
    text.push_str(" ;\n")
}

// One number, or the least and the greatest around `..`.
pub(crate) fn count(text: &mut String, it: &Count) -> Result<(), AllocError>
    ensures { OnOk result (Adds (string_bytes text.old) (string_bytes text.new) (count_word it.now ∷ [])) }
{
    let (least, greatest) = (it.least(), it.greatest());
    if least == greatest {
        write!(text, " {least}")
    } else {
        write!(text, " {least}..{greatest}")
    }
}

// These bits, as a word that begins so.
pub(crate) fn in_bits(text: &mut String, front: &str, bits: &[Bit]) -> Result<(), AllocError>
    ensures { OnOk result (Adds (string_bytes text.old) (string_bytes text.new)
        ((front.now ++ map bit_symbol bits.now) ∷ [])) }
{
    word(text, front)?;
    for bit in bits {
        text.push(symbol(*bit))?;
    }
    Ok(())
}

fn symbol(bit: Bit) -> char
    ensures { result ≡ bit_symbol bit }
{
    match bit {
        Bit::Zero => '0',
        Bit::One => '1',
        Bit::Either => 'x',
    }
}
