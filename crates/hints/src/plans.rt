// After a plan that has no brief.

use crate::lines::Lines;
use crate::values::Hints;
use plan_core::Name;
use std::alloc::{AllocError, Global};

/// What to say of a plan that has no brief: this name of it is a word of briefs.
pub fn on_no_brief(alloc: Global, name: Option<&Name>) -> Result<Hints, AllocError> {
    let mut lines = Lines::new(alloc);
    if let Some(name) = name {
        let name = name.as_str();
        lines.say(format_args!("the plan has the name '{name}', which is a word of briefs"));
    }
    lines.finish()
}
