// The answer to a certificate, explained.

use crate::certificates::below_mistake;
use crate::reports::write_block;
use bus_rows::Paint;
use cert_check::Answer;
use growing_text::Text;
use plan_findings::Mistake;
use plan_words::PlanWords;
use run_parts::{Output, RunError};
use std::alloc::Global;
use verifying::answer_line;

/// Writes the line of the answer to a certificate of a plan, and below it what is wrong, where that was found.
///
/// # Errors
///
/// `Write` where the writer failed or took no bytes, and `NoMemory`, after which nothing was written.
pub fn explain_answer<O: Output>(
    alloc: Global,
    words: PlanWords<'_>,
    answer: Answer,
    mistake: Option<Mistake>,
    paint: Paint,
    out: &mut O,
) -> Result<(), RunError> {
    let mut text = Text::new(alloc);
    let line = answer_line(alloc, answer);
    match answer {
        Answer::Safe => paint.push_verdict(&mut text, line, (9, 4), true),
        Answer::Unsafe => paint.push_verdict(&mut text, line, (9, 6), false),
        Answer::Wrong(_) => text.push_made(line),
    }
    if let Some(mistake) = &mistake {
        text.push_made(below_mistake(alloc, words, mistake));
    }
    write_block(text, out)
}
