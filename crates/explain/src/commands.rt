// Commands of twire that go on from a report.

use growing_text::Text;
use hints::file_word;
use plan_words::{BriefFiles, called};
use std::alloc::{AllocError, Global};

/// The command that makes the edits of the list for all in these files. None where one is standard input, which cannot be written.
///
/// # Errors
///
/// Where an allocation fails.
pub(crate) fn command_for_all(
    alloc: Global,
    files: BriefFiles<'_>,
) -> Result<Option<String>, AllocError> {
    if is_input(files.first) || files.further.iter().any(|path| is_input(path)) {
        return Ok(None);
    }
    let mut text = Text::new(alloc);
    text.push("twire mend ");
    text.push_made(file_word(alloc, files.first));
    for path in files.further {
        text.push(" --with ");
        text.push_made(file_word(alloc, path));
    }
    text.push(" --all --in-place");
    Ok(Some(text.finish()?))
}

// Whether this is standard input, by the names that people know no file by.
fn is_input(path: &str) -> bool {
    *called(path) != *path
}
