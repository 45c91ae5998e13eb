// What this program is: a proved one or a trial build, and of which sources.

use builds::{build_in, own_end};
use growing_text::Text;
use std::alloc::AllocError;
use std::rt::Files;

/// The program's name and version, and of which build it is.
pub fn version_of<R: Files + AllocGlobal>(rt: &R, version: &str) -> Result<String, AllocError> {
    let end = own_end(rt);
    let mut text = Text::new(rt.alloc());
    text.push(version.trim_end());
    text.push(" (");
    text.push(build_in(end.as_slice()));
    text.push(")\n");
    text.finish()
}
