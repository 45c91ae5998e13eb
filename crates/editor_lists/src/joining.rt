// What makes a name known that no text of a plan has: the head of the text names a file that has it.

use diagnostics::{Diagnostic, Edit, Fix};
use editor_texts::{Known, path_of};
use growing_text::Text;
use origins::{Head, Kind, Language, Span};
use std::alloc::{AllocError, Global};

// The refusal of a name that is not known.
const UNKNOWN: &str = "P8";

// How many characters a STRING has at most.
const LONGEST: usize = 255;

/// What makes the name known that is refused there. Of the files of these plans those in the folder of the text, and in folders of
/// that, may be named.
///
/// # Errors
///
/// Where an allocation fails.
pub(crate) fn joinings(
    alloc: Global,
    known: &Known,
    plans: &[Known],
    diagnostic: &Diagnostic,
) -> Result<Vec<Fix>, AllocError> {
    let mut fixes = Vec::new(alloc);
    if diagnostic.code != UNKNOWN {
        return Ok(fixes);
    }
    let Some(unknown) = unknown_at(known, diagnostic.span) else {
        return Ok(fixes);
    };
    let mut files = Vec::new(alloc);
    for plan in plans {
        match giver_of(alloc, plan, unknown)? {
            Some(uri) if !known.has(uri) && !files.contains(&uri) => {
                files.push(uri)?;
                push_joining(alloc, &mut fixes, unknown, uri)?;
            }
            _ => {}
        }
    }
    Ok(fixes)
}

// A name that is not known.
#[derive(Clone, Copy)]
struct Unknown<'a> {
    kind: Kind,
    word: &'a [u8],
    // the text in which it stands, and where the first item of that begins
    uri: &'a str,
    begin: Span,
}

// The name that is refused there. None where the head of its text may name no files.
fn unknown_at(known: &Known, span: Span) -> Option<Unknown<'_>> {
    let spans = known.reading.spans();
    if !may_name_files(spans.head(span.file)?) {
        return None;
    }
    let part = known.given.parts.get(span.file as usize)?;
    let at = spans.name_at(span.file, span.start)?;
    let item = spans
        .items()
        .iter()
        .find(|item| item.span.file == span.file)?;
    Some(Unknown {
        kind: at.kind,
        word: span.of(part.text.as_slice()),
        uri: part.uri.as_str(),
        begin: Span {
            file: span.file,
            start: item.span.start,
            end: item.span.start,
        },
    })
}

fn may_name_files(head: Head) -> bool {
    head.language == Language::Brief && head.version == 2
}

// The file in which a plan has the name.
fn giver_of<'p>(
    alloc: Global,
    plan: &'p Known,
    unknown: Unknown<'_>,
) -> Result<Option<&'p str>, AllocError> {
    let parts = plan.given.parts.as_slice();
    let names = plan.reading.names(alloc, parts)?;
    let Some(at) = names.definition(unknown.kind, unknown.word) else {
        return Ok(None);
    };
    match parts.get(at.span.file as usize) {
        Some(part) => Ok(Some(part.uri.as_str())),
        None => Ok(None),
    }
}

fn push_joining(
    alloc: Global,
    fixes: &mut Vec<Fix>,
    unknown: Unknown<'_>,
    uri: &str,
) -> Result<(), AllocError> {
    let Some(name) = name_below(alloc, unknown.uri, uri)? else {
        return Ok(());
    };
    let fix = fix_of(alloc, unknown, name.as_str())?;
    match fixes.push(fix) {
        Ok(()) => Ok(()),
        Err(_) => Err(AllocError),
    }
}

// What a text names another one, which stands in its folder or below that.
fn name_below(alloc: Global, own: &str, other: &str) -> Result<Option<String>, AllocError> {
    let Some(own) = path_of(alloc, own)? else {
        return Ok(None);
    };
    let Some(other) = path_of(alloc, other)? else {
        return Ok(None);
    };
    match after_folder(own.as_str(), other.as_str()) {
        Some(name) => Ok(Some(String::from_str(alloc, name)?)),
        None => Ok(None),
    }
}

fn after_folder<'a>(own: &str, other: &'a str) -> Option<&'a str> {
    let (folder, _) = own.rsplit_once('/')?;
    let name = other.strip_prefix(folder)?.strip_prefix('/')?;
    if name.len() <= LONGEST && name.bytes().all(may_stand) {
        Some(name)
    } else {
        None
    }
}

// Whether a character may stand in a STRING.
fn may_stand(byte: u8) -> bool {
    (b' '..=b'~').contains(&byte) && byte != b'"' && byte != b'\\'
}

fn fix_of(alloc: Global, unknown: Unknown<'_>, name: &str) -> Result<Fix, AllocError> {
    let mut edits = Vec::new(alloc);
    let mut item = Text::new(alloc);
    item.push("with \"");
    item.push(name);
    item.push("\" ;");
    let item = item.finish()?;
    let mut title = Text::new(alloc);
    title.push(item.as_str());
    title.push(" has '");
    title.push(str::from_utf8(unknown.word).unwrap_or(""));
    title.push("'");
    let mut puts = Text::new(alloc);
    puts.push(item.as_str());
    puts.push("\n");
    edits.push(Edit {
        span: unknown.begin,
        puts: puts.finish()?,
    })?;
    Ok(Fix {
        title: title.finish()?,
        edits,
    })
}
