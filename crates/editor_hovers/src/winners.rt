// Who wins against whom, of those who send a message.

use crate::hover_words::push_against;
use growing_text::Text;
use order::{Score, Scores};
use plan_words::{PlanWords, Sides};
use std::alloc::{AllocError, Global};

// So many lines say that.
const MOST: usize = 10;

/// Adds a line for each participant that sends one of these messages, and each other side: how their pairs end.
///
/// # Errors
///
/// Where an allocation fails.
pub(crate) fn push_winners(
    alloc: Global,
    text: &mut Text,
    words: PlanWords<'_>,
    sides: &Sides,
    scores: &Scores,
    messages: &[u32],
) -> Result<(), AllocError> {
    let mut count = 0usize;
    for p in 0..words.plan().participants() {
        if is_sent(words, p, messages) {
            for (side, name) in sides.names.iter().enumerate() {
                let score = scores.against(p as usize, side);
                if score.pairs() != 0 {
                    if count < MOST {
                        push_score(alloc, text, words, p, name.as_str(), score)?;
                    }
                    count = count.saturating_add(1);
                }
            }
        }
    }
    push_end(text, count);
    Ok(())
}

fn push_end(text: &mut Text, count: usize) {
    if count == 0 {
        text.push("\nNobody who sends it meets another one.\n");
    }
    let more = count.saturating_sub(MOST);
    if more != 0 {
        text.push("- and ");
        text.push_number(more as u64);
        text.push(" more\n");
    }
}

// Whether a participant sends one of these messages.
fn is_sent(words: PlanWords<'_>, p: u32, messages: &[u32]) -> bool {
    match words.message_of(p) {
        Some(message) => messages.contains(&message),
        None => false,
    }
}

fn push_score(
    alloc: Global,
    text: &mut Text,
    words: PlanWords<'_>,
    p: u32,
    side: &str,
    score: Score,
) -> Result<(), AllocError> {
    let label = words.label(alloc, p)?;
    push_against(text, label.as_str(), side, score);
    Ok(())
}
