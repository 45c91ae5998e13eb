// Lines as compilers write them, which editors and other tools take.

use crate::values::{Diagnostic, Severity, Span};
use growing_text::{Text, push_shown};
use plan_words::BriefFiles;
use std::alloc::{AllocError, Global};

/// Writes what is wrong in these files, line by line: `FILE:LINE:COLUMN: error: MESSAGE [CODE]`, and a line with `note:` for each
/// further place. Lines and columns are counted from 1, columns in bytes.
#[derive(Drop)]
pub struct Messages<'a> {
    files: BriefFiles<'a>,
    // where the lines of each file begin
    starts: Vec<Vec<usize>>,
}

impl<'a> Messages<'a> {
    /// Of no files yet. Their names are these.
    pub fn new(alloc: Global, files: BriefFiles<'a>) -> Messages<'a> {
        Messages {
            files,
            starts: Vec::new(alloc),
        }
    }

    /// With a further file, which has this text.
    ///
    /// # Errors
    ///
    /// Where an allocation fails.
    pub fn add(&mut self, alloc: Global, text: &[u8]) -> Result<(), AllocError> {
        let starts = starts_of(alloc, text)?;
        match self.starts.push(starts) {
            Ok(()) => Ok(()),
            Err(_) => Err(AllocError),
        }
    }

    /// Adds the lines of one of them.
    pub fn push(&self, text: &mut Text, diagnostic: &Diagnostic) {
        self.push_place(text, diagnostic.span);
        text.push(match diagnostic.severity {
            Severity::Error => "error: ",
            Severity::Warning => "warning: ",
        });
        text.push(diagnostic.message.as_str());
        text.push(" [");
        text.push(diagnostic.code);
        text.push("]\n");
        for related in diagnostic.related.iter() {
            self.push_place(text, related.span);
            text.push("note: ");
            text.push(related.message.as_str());
            text.push("\n");
        }
    }

    fn push_place(&self, text: &mut Text, span: Span) {
        push_shown(text, self.files.of(span.file).unwrap_or("<none>"));
        let (line, column) = self.position(span);
        text.push(":");
        text.push_number(line);
        text.push(":");
        text.push_number(column);
        text.push(": ");
    }

    // The line and the column of its first byte.
    fn position(&self, span: Span) -> (u64, u64) {
        let Some(starts) = self.starts.get(span.file as usize) else {
            return (1, 1);
        };
        let mut line = 0u64;
        let mut begins = 0usize;
        for start in starts.iter() {
            if span.start < *start {
                break;
            }
            begins = *start;
            line = line.saturating_add(1);
        }
        let column = span.start.saturating_sub(begins).saturating_add(1);
        (line, column as u64)
    }
}

// Where the lines of a text begin.
fn starts_of(alloc: Global, text: &[u8]) -> Result<Vec<usize>, AllocError> {
    let mut starts = Vec::new(alloc);
    starts.push(0usize)?;
    for (at, byte) in text.iter().enumerate() {
        if *byte == b'\n' {
            starts.push(at.saturating_add(1))?;
        }
    }
    Ok(starts)
}
