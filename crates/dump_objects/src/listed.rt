// Objects of the signals of a dump.

use object_lines::ObjectLines;
use run_parts::{Output, RunError};
use signals::{Listed, Pair, Signal};
use std::alloc::Global;

/// Writes an object for each signal, one for each pair that looks like a bus, and one that counts them.
///
/// # Errors
///
/// `Write` where the writer failed or took no bytes, and `NoMemory`. A part of the objects may have been written.
pub fn write_signals<O: Output>(
    alloc: Global,
    listed: &Listed,
    out: &mut O,
) -> Result<(), RunError> {
    let mut lines = ObjectLines::new(alloc);
    write_objects(&mut lines, listed, out)
}

fn write_objects<O: Output>(
    lines: &mut ObjectLines,
    listed: &Listed,
    out: &mut O,
) -> Result<(), RunError> {
    for k in 0..listed.signals() {
        add_signal(lines, listed, k);
        lines.write_block(out)?;
    }
    for k in 0..listed.pairs() {
        add_bus(lines, listed, k);
    }
    push_count(lines, listed);
    lines.write_all(out)
}

fn add_signal(lines: &mut ObjectLines, listed: &Listed, k: usize) {
    match listed.signal(lines.alloc, k) {
        Ok(Some(signal)) => push_signal(lines, &signal),
        Ok(None) => {}
        Err(_) => lines.cut(),
    }
}

// The texts are those of the dump, so JSON may escape some of them.
fn push_signal(lines: &mut ObjectLines, signal: &Signal) {
    lines.begin("signal");
    lines.field("code", &signal.code);
    lines.number("changes", signal.changes);
    lines.field_if("scope", &signal.scope);
    lines.field("name", &signal.name);
    lines.end();
}

fn add_bus(lines: &mut ObjectLines, listed: &Listed, k: usize) {
    match listed.pair(lines.alloc, k) {
        Ok(Some(pair)) => push_bus(lines, &pair),
        Ok(None) => {}
        Err(_) => lines.cut(),
    }
}

fn push_bus(lines: &mut ObjectLines, pair: &Pair) {
    lines.begin("bus");
    lines.number("transactions", u64::from(pair.transactions));
    lines.field("scl_code", &pair.scl);
    lines.field("sda_code", &pair.sda);
    lines.end();
}

// How many there are.
fn push_count(lines: &mut ObjectLines, listed: &Listed) {
    lines.begin("signals");
    lines.number("signals", listed.signals() as u64);
    lines.number("buses", listed.pairs() as u64);
    lines.end();
}
