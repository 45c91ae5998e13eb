// Labels of participants.

use plan_core::Plan;
use plan_words::PlanWords;
use std::alloc::{AllocError, Global};

/// The labels of all participants of a plan.
#[derive(Drop)]
pub struct Labels {
    labels: Vec<String>,
}

impl Labels {
    /// The label of a participant, and nothing for a number that is none.
    pub fn of(&self, p: u32) -> &str {
        match self.labels.get(p as usize) {
            Some(label) => label.as_str(),
            None => "",
        }
    }

    /// All of them, in the order of the participants' numbers.
    pub fn all(&self) -> &[String] {
        self.labels.as_slice()
    }
}

/// The labels of the plan's participants.
///
/// # Errors
///
/// Where an allocation fails.
pub fn labels_of(alloc: Global, plan: &Plan) -> Result<Labels, AllocError> {
    let mut labels = Vec::with_capacity(alloc, plan.participants() as usize)?;
    for p in 0..plan.participants() {
        labels.push(plan.label(alloc, p)?)?;
    }
    Ok(Labels { labels })
}

/// The same in the words of people.
///
/// # Errors
///
/// Where an allocation fails.
pub fn called_by(alloc: Global, words: PlanWords<'_>) -> Result<Labels, AllocError> {
    let participants = words.plan().participants();
    let mut labels = Vec::with_capacity(alloc, participants as usize)?;
    for p in 0..participants {
        labels.push(words.label(alloc, p)?)?;
    }
    Ok(Labels { labels })
}

/// The label of a participant, and nothing for a number that is none.
pub fn label_of(alloc: Global, plan: &Plan, p: u32) -> Result<String, AllocError> {
    if p < plan.participants() {
        plan.label(alloc, p)
    } else {
        Ok(String::new(alloc))
    }
}
