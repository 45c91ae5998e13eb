// Whether a transaction has a path: its marks followed through the steps.

ghost use Rattle.std.specs.Prelude.{◌≡◌, [], true, option_map};
ghost use Rattle.capture_check.specs.Along.{after_bits, may_be};
ghost use Rattle.lessons.specs.Fitting.{after_acked, after_again, after_answer, after_lead, after_level, after_levels};
ghost use Rattle.lessons.specs.Fitting.{after_read_byte, after_read_bytes, after_step, is_stop, path_fits, steps_fit, then_after};
ghost use Rattle.lessons.specs.Plans.{HasMarks, bytes_before_last, sent_bits};

use crate::paths::{Sent, Step};
use capture_check::Mark;
use message_tree::{Address, Bit, Pattern};

/// Whether a transaction with these marks has the path.
#[tactic(auto, using(crate::proofs::FittingLemmas::has_marks))]
pub(crate) fn has_marks(path: &[Step], marks: &[Mark]) -> bool
    ensures { result ≡ true → HasMarks path.now marks.now }
{
    path_fits(path, marks)
}

fn path_fits(path: &[Step], marks: &[Mark]) -> bool
    ensures { result ≡ path_fits path.now marks.now }
{
    match path {
        [step, steps @ ..] => match after_step(*step, marks) {
            Some(left) => steps_fit(steps, left),
            None => false,
        },
        [] => is_stop(marks),
    }
}

// Whether these are the marks of further steps, and of the STOP.
fn steps_fit(path: &[Step], marks: &[Mark]) -> bool
    ensures { result ≡ steps_fit path.now marks.now }
{
    match path {
        [step, steps @ ..] => match after_further(*step, marks) {
            Some(left) => steps_fit(steps, left),
            None => false,
        },
        [] => is_stop(marks),
    }
}

fn is_stop(marks: &[Mark]) -> bool
    ensures { result ≡ is_stop marks.now }
{
    matches!(marks, [Mark::Stop])
}

// What follows a further step.
fn after_further(step: Step, marks: &[Mark]) -> Option<&[Mark]>
    ensures { option_map (λ rest. rest.now) result ≡ then_after (after_lead step.sent marks.now) (after_step step) }
{
    match after_lead(step.sent, marks) {
        Some(left) => after_step(step, left),
        None => None,
    }
}

// What follows the repeated START before a header.
fn after_lead(sent: Sent, marks: &[Mark]) -> Option<&[Mark]>
    ensures { option_map (λ rest. rest.now) result ≡ after_lead sent marks.now }
{
    match sent {
        Sent::Write(_) | Sent::Read(_, _) => after_again(marks),
        Sent::Register(_) | Sent::Data(_) => Some(marks),
    }
}

fn after_again(marks: &[Mark]) -> Option<&[Mark]>
    ensures { option_map (λ rest. rest.now) result ≡ after_again marks.now }
{
    match marks {
        [Mark::Again, left @ ..] => Some(left),
        _ => None,
    }
}

// What follows what is sent, its answer, and what is read.
fn after_step(step: Step, marks: &[Mark]) -> Option<&[Mark]>
    ensures { option_map (λ rest. rest.now) result ≡ after_step step marks.now }
{
    match after_bits(&bits_of(step.sent), marks) {
        Some(left) => after_answer(step.refused, step.sent, left),
        None => None,
    }
}

fn after_answer(refused: bool, sent: Sent, marks: &[Mark]) -> Option<&[Mark]>
    ensures { option_map (λ rest. rest.now) result ≡ after_answer refused sent marks.now }
{
    if refused {
        return after_level(true, marks);
    }
    match after_level(false, marks) {
        Some(left) => after_acked(sent, left),
        None => None,
    }
}

fn after_acked(sent: Sent, marks: &[Mark]) -> Option<&[Mark]>
    ensures { option_map (λ rest. rest.now) result ≡ after_acked sent marks.now }
{
    match sent {
        Sent::Read(_, count) => match after_read_bytes(before_last(count), marks) {
            Some(left) => after_read_byte(true, left),
            None => None,
        },
        _ => Some(marks),
    }
}

fn before_last(count: Option<u8>) -> u8
    ensures { result ≡ bytes_before_last count }
{
    match count {
        Some(count) => count.saturating_sub(1),
        None => 0,
    }
}

// What follows so many bytes that are read and acknowledged.
fn after_read_bytes(count: u8, marks: &[Mark]) -> Option<&[Mark]>
    ensures { option_map (λ rest. rest.now) result ≡ after_read_bytes count marks.now }
{
    if count == 0 {
        return Some(marks);
    }
    match after_read_byte(false, marks) {
        Some(left) => after_read_bytes(count - 1, left),
        None => None,
    }
}

fn after_read_byte(acknowledge: bool, marks: &[Mark]) -> Option<&[Mark]>
    ensures { option_map (λ rest. rest.now) result ≡ after_read_byte acknowledge marks.now }
{
    match after_levels(8, marks) {
        Some(left) => after_level(acknowledge, left),
        None => None,
    }
}

fn after_levels(count: u8, marks: &[Mark]) -> Option<&[Mark]>
    ensures { option_map (λ rest. rest.now) result ≡ after_levels count marks.now }
{
    if count == 0 {
        return Some(marks);
    }
    match marks {
        [Mark::Level(_), left @ ..] => after_levels(count - 1, left),
        _ => None,
    }
}

fn after_level(level: bool, marks: &[Mark]) -> Option<&[Mark]>
    ensures { option_map (λ rest. rest.now) result ≡ after_level level marks.now }
{
    match marks {
        [Mark::Level(first), left @ ..] if *first == level => Some(left),
        _ => None,
    }
}

// What follows these bits, where the marks begin with them.
fn after_bits<'a>(bits: &[Bit], marks: &'a [Mark]) -> Option<&'a [Mark]>
    ensures { option_map (λ rest. rest.now) result ≡ after_bits bits.now marks.now }
{
    match bits {
        [] => Some(marks),
        [bit, bits @ ..] => match marks {
            [Mark::Level(level), left @ ..] => {
                if may_be(*bit, *level) {
                    after_bits(bits, left)
                } else {
                    None
                }
            }
            _ => None,
        },
    }
}

fn may_be(bit: Bit, level: bool) -> bool
    ensures { result ≡ may_be bit level }
{
    match bit {
        Bit::Zero => !level,
        Bit::One => level,
        Bit::Either => true,
    }
}

// The bits of a header or of a data byte (UM10204, 3.1.5 and 3.1.10).
fn bits_of(sent: Sent) -> [Bit; 8]
    ensures { result ≡ sent_bits sent }
{
    match sent {
        Sent::Write(address) => Address::new(0x7f, address).header(Bit::Zero),
        Sent::Read(address, _) => Address::new(0x7f, address).header(Bit::One),
        Sent::Register(byte) | Sent::Data(byte) => Pattern::new(0xff, byte).bits(),
    }
}
