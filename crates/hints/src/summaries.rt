// After a plan with many unsafe pairs: the command that shows them in groups.

use crate::lines::Lines;
use crate::paths::file_word;
use growing_text::Text;
use plan_words::BriefFiles;
use std::alloc::{AllocError, Global};

/// Says in how many groups so many unsafe pairs are, and how these files are checked once more so that the groups are shown.
pub(crate) fn push_summary(
    alloc: Global,
    lines: &mut Lines,
    files: BriefFiles<'_>,
    pairs: usize,
    groups: usize,
) -> Result<(), AllocError> {
    let ending = if groups == 1 { "" } else { "s" };
    lines.say(format_args!("{pairs} unsafe pairs in {groups} group{ending}; try"));
    lines.detail(command_for(alloc, files)?);
    Ok(())
}

fn command_for(alloc: Global, files: BriefFiles<'_>) -> Result<String, AllocError> {
    let mut text = Text::new(alloc);
    text.push("twire check --summary ");
    text.push_made(file_word(alloc, files.first));
    for file in files.further {
        text.push(" --with ");
        text.push_made(file_word(alloc, file));
    }
    text.finish()
}
