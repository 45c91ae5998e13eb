// Who starts: the controllers of a plan, in the words of people, and its interrupts.

use crate::PlanWords;
use growing_text::Text;
use plan_core::Participant;
use std::alloc::{AllocError, Global};

/// Who starts: the controllers of a plan, of which all parts of one that a brief splits are one side, and its interrupts.
#[derive(Drop)]
pub struct Sides {
    /// What each side is called, in the order of their first participants. A side without one is left out.
    pub names: Vec<String>,
    /// By the number of the participant: the number of its side.
    pub numbers: Vec<usize>,
}

/// The sides of a plan, in these words of it.
///
/// # Errors
///
/// Where an allocation fails.
pub fn sides_of(alloc: Global, words: PlanWords<'_>) -> Result<Sides, AllocError> {
    let mut sides = Sides {
        names: Vec::new(alloc),
        numbers: Vec::new(alloc),
    };
    for p in 0..words.plan().participants() {
        sides.push(name_of(alloc, words, p)?)?;
    }
    Ok(sides)
}

impl Sides {
    // One more participant, whose side is called so.
    fn push(&mut self, name: String) -> Result<(), AllocError> {
        let number = self.number_of(name.as_str());
        if number == self.names.len() {
            self.names.push(name)?;
        }
        self.numbers.push(number)?;
        Ok(())
    }

    // The number of the side that is called so, or that of the next one.
    fn number_of(&self, name: &str) -> usize {
        for (number, other) in self.names.iter().enumerate() {
            if other.as_str() == name {
                return number;
            }
        }
        self.names.len()
    }
}

// What the side of a participant is called.
fn name_of(alloc: Global, words: PlanWords<'_>, p: u32) -> Result<String, AllocError> {
    let plan = words.plan();
    if plan.participants() <= p {
        return Ok(String::new(alloc));
    }
    match plan.participant(p) {
        Participant::Sending { controller, .. } => {
            let mut text = Text::new(alloc);
            text.push(words.name(controller));
            text.finish()
        }
        Participant::Interrupt(_) => words.label(alloc, p),
    }
}
