// What is wrong, in words.

use hints::Lines;
use vcd_read::{Expected, Opened, Place, VcdError};

/// Says why this token cannot stand in its place, and what could.
pub(crate) fn push_token(lines: &mut Lines, refusal: VcdError, place: &Place) {
    match (refusal, place.expected) {
        (VcdError::TimeBack(_), Expected::Change { time, .. }) => {
            lines.say(format_args!("the last time was {time}, and times never go back"));
        }
        (_, expected) => lines.say(cause(expected, place.token())),
    }
}

/// Says that the dump ends within this time, so that it is below the last one.
pub(crate) fn push_broken_time(lines: &mut Lines, place: &Place) {
    if let Expected::Change { time, .. } = place.expected {
        lines.say(format_args!(
            "the last time was {time}, and the dump ends with this one: it breaks off in its last time, as where a simulator was killed"
        ));
        lines.say(
            "what came before is shown by 'twire decode --live', and by 'twire capture --live'",
        );
    }
}

fn cause(expected: Expected, token: &[u8]) -> &'static str {
    match expected {
        Expected::Command => no_command(token),
        Expected::VarToken => {
            "this '$var' lacks something: '$var TYPE SIZE CODE NAME $end' is expected"
        }
        Expected::Code => BAD_CODE,
        Expected::Change { .. } => no_change(token),
    }
}

const BAD_CODE: &str = "a code is made of characters from '!' to '~' alone";

const END_OF_NOTHING: &str = "nothing is open here that '$end' could end";

const NINE_STATES: &str =
    "this is one of VHDL's nine states, and only '0', '1', 'x' and 'z' are read: have the dump written with four states (GHDL: --vcd-4states)";

// What is wrong with a token among the definitions.
fn no_command(token: &[u8]) -> &'static str {
    if token == b"$end".as_slice() {
        END_OF_NOTHING
    } else if token.starts_with(b"$") {
        "value changes can stand only after '$enddefinitions $end'"
    } else {
        "before '$enddefinitions $end' only commands can stand, as '$var wire 1 ! scl $end'"
    }
}

// What is wrong with a token among the changes.
fn no_change(token: &[u8]) -> &'static str {
    let Some((first, rest)) = token.split_first() else {
        return STRAY;
    };
    match *first {
        b'#' => "after '#' a number below 2 to the power 64 is expected, digits alone",
        b'$' if rest == b"end".as_slice() => END_OF_NOTHING,
        b'$' => "the block of value changes before it needs its own '$end' first",
        b'b' | b'B' if has_nine_states(rest) => NINE_STATES,
        b'b' | b'B' => {
            "after 'b' digits '0', '1', 'x' or 'z' are expected, and then a space and a code, as in 'b01 !'"
        }
        b'r' | b'R' => "a value is expected directly after this letter, as in 'r1.5 !'",
        b's' | b'S' => {
            "a text is expected directly after this letter, as in 'sidle !': leave signals out of the dump whose text may be empty"
        }
        b'p' => {
            "this is a port of an extended dump ($dumpports), which is not read: have the lines written with $dumpvars"
        }
        level if is_level(&level) && rest.is_empty() => {
            "a code is expected directly after the level, as in '1!'"
        }
        level if is_level(&level) => BAD_CODE,
        state if is_further_state(state) && is_code(rest) => NINE_STATES,
        _ => STRAY,
    }
}

const STRAY: &str =
    "expected here: a time as '#10', a change as '1!' or 'b01 !', or a command as '$comment'";

fn is_level(letter: &u8) -> bool {
    matches!(*letter, b'0' | b'1' | b'x' | b'X' | b'z' | b'Z')
}

// The levels of VHDL's std_logic that are none of the four states.
fn is_further_state(letter: u8) -> bool {
    matches!(
        letter,
        b'U' | b'u' | b'W' | b'w' | b'L' | b'l' | b'H' | b'h' | b'-'
    )
}

// Whether the digits would be a vector with the nine states.
fn has_nine_states(digits: &[u8]) -> bool {
    for digit in digits {
        if !is_level(digit) && !is_further_state(*digit) {
            return false;
        }
    }
    !digits.is_empty()
}

fn is_code(token: &[u8]) -> bool {
    for byte in token {
        if !matches!(*byte, b'!'..=b'~') {
            return false;
        }
    }
    !token.is_empty()
}

/// Says what the end of a dump leaves open.
pub(crate) fn push_unended(lines: &mut Lines, opened: Opened) {
    lines.say(match opened {
        Opened::Command => "this command goes on to the end of the file: its '$end' is missing",
        Opened::Var => "this '$var' goes on to the end of the file: its '$end' is missing",
        Opened::EndDefinitions => "this needs an '$end' after it",
        Opened::Block => {
            "this block of value changes goes on to the end of the file: its '$end' is missing"
        }
        Opened::Change => "the file ends before the code of this change",
    });
}

/// Says what the refusal of a dump means, where the token is not known. There is nothing to say of a missing signal
/// here, nor of out of memory.
pub(crate) fn push_dump(lines: &mut Lines, refusal: VcdError) {
    match refusal {
        VcdError::BadToken(line) => lines.say(format_args!(
            "on line {line} of the capture something stands that cannot stand in its place"
        )),
        VcdError::TimeBack(line) => lines.say(format_args!(
            "on line {line} of the capture a time is below the one before it"
        )),
        VcdError::Unended(line) => lines.say(format_args!(
            "what begins on line {line} of the capture has no end: an '$end' is missing, or the capture was cut short"
        )),
        VcdError::NoSignal(_) | VcdError::NoMemory => {}
    }
}
