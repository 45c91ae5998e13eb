// The lines of the report.

ghost use Rattle.std.specs.Prelude.{◌≡◌, ◌++◌, string_bytes, OnOk};
ghost use Rattle.byte_lines.specs.Lines.{count_line, decode_line, until_text};
ghost use Rattle.capture_check.specs.Views.{recorded};

use crate::bytes::push_bytes;
use capture_check::{Transaction, Until};
use std::alloc::{AllocError, Global};

/// Adds the line of a transaction: `FROM-TO  BYTES`, `FROM-AT cut BYTES` or `FROM- unfinished BYTES`.
#[tactic(auto, unfolding(crate::specs::Lines::decode_line))]
pub fn push_transaction(
    alloc: Global,
    lines: &mut String,
    transaction: &Transaction,
) -> Result<(), AllocError>
    ensures { OnOk result (
        string_bytes lines.new ≡ string_bytes lines.old ++ decode_line (recorded transaction.now)) }
{
    let from = transaction.from;
    write!(lines, "{from}-")?;
    push_until(lines, transaction.until)?;
    push_bytes(alloc, lines, &transaction.marks)?;
    lines.push_str("\n")
}

// How a transaction ended.
fn push_until(lines: &mut String, until: Until) -> Result<(), AllocError>
    ensures { OnOk result (string_bytes lines.new ≡ string_bytes lines.old ++ until_text until) }
{
    match until {
        Until::Stopped(time) => write!(lines, "{time}  "),
        Until::Cut(time) => write!(lines, "{time} cut "),
        Until::Unfinished => lines.push_str(" unfinished "),
    }
}

/// Adds the line that counts the transactions that a STOP ended: `N transactions`.
#[tactic(auto, unfolding(crate::specs::Lines::count_line))]
pub fn push_count(lines: &mut String, stopped: u64) -> Result<(), AllocError>
    ensures { OnOk result (string_bytes lines.new ≡ string_bytes lines.old ++ count_line stopped) }
{
    writeln!(lines, "{stopped} transactions")
}
