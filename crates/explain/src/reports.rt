// Reports with lines for people between their own: what is said to people stands below the line that it speaks of. Lines for
// people begin with four spaces; what is left without them is the report. Those of a check, of a certificate and of a
// rehearsal are written from what was found.

mod answers;
mod checks;
mod rehearsals;

pub use answers::explain_answer;
pub use checks::{explain_check, explain_offers};
use growing_text::Text;
pub use rehearsals::explain_rehearsal;
use run_parts::{Output, RunError, write_report};
// How many bytes are gathered before they are written.
pub(crate) const BLOCK: usize = 65_536;

pub(crate) fn write_block<O: Output>(text: Text, out: &mut O) -> Result<(), RunError> {
    let text = text.finish()?;
    write_report(out, text.as_bytes())
}
