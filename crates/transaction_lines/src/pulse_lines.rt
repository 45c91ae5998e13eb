// The line that says how many levels of a capture were too short to count.

use dump_tokens::Quiet;
use growing_text::Text;
use std::alloc::{AllocError, Global};

/// How many levels were left out; none where each level counts.
pub(crate) fn pulse_line(alloc: Global, quiet: Quiet, short: u64) -> Result<String, AllocError> {
    let mut line = Text::new(alloc);
    if let Some(time) = quiet.given {
        let is_one = short == 1;
        line.push("    ");
        line.push_number(short);
        line.push(if is_one { " pulse" } else { " pulses" });
        line.push(" shorter than ");
        line.push_made(time.told(alloc));
        line.push(if is_one { " was" } else { " were" });
        line.push(" left out\n");
    }
    line.finish()
}
