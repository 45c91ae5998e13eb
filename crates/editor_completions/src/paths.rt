// Which files the head of a brief may name: what may stand after `with`.

use brief_tokens::{Keyword, Symbol, begin};
use editor_texts::{Part, path_of, uri_of};
use growing_text::Text;
use lexer::Letters;
use run_parts::devices::reading::READS;
use run_parts::{RunError, Watched, read_within};
use std::alloc::{AllocError, Global};
use std::fs;
use std::rt::Files;

/// A place in the head of a brief of the second version.
#[derive(Clone, Copy, PartialEq, Eq)]
pub(crate) enum HeadPlace {
    /// A `with` may stand there.
    Keyword,
    /// A STRING after one.
    File,
}

/// Where a text ends, if that is in its head, between two items of that or after a `with`.
pub(crate) fn end_in_head(text: &[u8]) -> Option<HeadPlace> {
    let mut tokens = begin(text).ok()?;
    if tokens.letters() != Letters::Board {
        return None;
    }
    for _ in 0..text.len() {
        match tokens.next().symbol {
            Symbol::End => return Some(HeadPlace::Keyword),
            Symbol::Keyword(Keyword::With) => {}
            _ => return None,
        }
        match tokens.next().symbol {
            Symbol::End => return Some(HeadPlace::File),
            Symbol::Quoted(_) => {}
            _ => return None,
        }
        if !tokens.next().is_semicolon() {
            return None;
        }
    }
    None
}

/// Where the name of a file begins that is written at this place of a text, after the `"` of a `with`.
pub(crate) fn start_of_path(text: &[u8], offset: usize) -> Option<usize> {
    let before = text.get(..offset)?;
    let quote = last_quote(before)?;
    let head = before.get(..quote)?;
    if ends_in_comment(head) || end_in_head(head) != Some(HeadPlace::File) {
        return None;
    }
    Some(quote.saturating_add(1))
}

// The last `"` of the last line.
fn last_quote(text: &[u8]) -> Option<usize> {
    let mut place = text.len();
    for byte in text.iter().rev() {
        place = place.saturating_sub(1);
        match *byte {
            b'"' => return Some(place),
            b'\n' => return None,
            _ => {}
        }
    }
    None
}

// Whether the last line of this head is in a comment at its end.
fn ends_in_comment(head: &[u8]) -> bool {
    let mut is_quoted = false;
    let mut is_comment = false;
    for byte in head {
        match *byte {
            b'\n' => {
                is_quoted = false;
                is_comment = false;
            }
            b'"' => is_quoted = !is_quoted,
            b'#' => is_comment = is_comment || !is_quoted,
            _ => {}
        }
    }
    is_comment
}

/// The other files of a board that the head of the part with this number does not name yet, by their paths from its folder.
///
/// # Errors
///
/// Where an allocation fails.
pub(crate) fn other_paths(
    alloc: Global,
    parts: &[Part],
    number: usize,
) -> Result<Vec<String>, AllocError> {
    let mut paths = Vec::new(alloc);
    let Some(own) = parts.get(number) else {
        return Ok(paths);
    };
    let Some(path) = path_of(alloc, own.uri.as_str())? else {
        return Ok(paths);
    };
    let folder = folder_in(path.as_str());
    let named = uris_named(alloc, folder, own.text.as_slice())?;
    for (place, part) in parts.iter().enumerate() {
        if place != number {
            push_path(alloc, &mut paths, named.as_slice(), folder, part)?;
        }
    }
    Ok(paths)
}

// A path up to its last `/`.
fn folder_in(path: &str) -> &str {
    match path.rsplit_once('/') {
        Some((folder, _)) => path.get(..folder.len().saturating_add(1)).unwrap_or("/"),
        None => "",
    }
}

// The path of a part from this folder on, where that is no file with one of these URIs.
fn push_path(
    alloc: Global,
    paths: &mut Vec<String>,
    named: &[String],
    folder: &str,
    part: &Part,
) -> Result<(), AllocError> {
    let Some(path) = path_of(alloc, part.uri.as_str())? else {
        return Ok(());
    };
    let uri = uri_of(alloc, path.as_str())?;
    let path = path_from(alloc, folder, path.as_str())?;
    if has(named, uri.as_str()) || !is_string(path.as_bytes()) {
        return Ok(());
    }
    match paths.push(path) {
        Ok(()) => Ok(()),
        Err(_) => Err(AllocError),
    }
}

fn has(uris: &[String], uri: &str) -> bool {
    uris.iter().any(|one| one.as_str() == uri)
}

// Whether these characters name a file in a STRING.
fn is_string(path: &[u8]) -> bool {
    path.len() <= 255 && path.iter().all(may_stand)
}

fn may_stand(byte: &u8) -> bool {
    matches!(*byte, b' '..=b'~') && *byte != b'"' && *byte != b'\\'
}

// The URIs of the files that a head names, up to what is refused there.
fn uris_named(alloc: Global, folder: &str, text: &[u8]) -> Result<Vec<String>, AllocError> {
    let mut uris = Vec::new(alloc);
    let Ok(mut tokens) = begin(text) else {
        return Ok(uris);
    };
    for _ in 0..text.len() {
        let Ok(Some(file)) = tokens.next_file() else {
            return Ok(uris);
        };
        let name = str::from_utf8(file.name).unwrap_or("");
        if uris.push(uri_from(alloc, folder, name)?).is_err() {
            return Err(AllocError);
        }
        if tokens.end_file().is_err() {
            return Ok(uris);
        }
    }
    Ok(uris)
}

// The URI of the file that a head in this folder names so.
fn uri_from(alloc: Global, folder: &str, name: &str) -> Result<String, AllocError> {
    if name.starts_with('/') {
        return uri_of(alloc, name);
    }
    let path = format!(in alloc; "{folder}{name}")?;
    uri_of(alloc, path.as_str())
}

// A path from this folder on: `..` leads to the one above.
fn path_from(alloc: Global, folder: &str, path: &str) -> Result<String, AllocError> {
    let mut text = Text::new(alloc);
    let mut above = folder;
    for _ in 0..folder.len() {
        if let Some(rest) = path.strip_prefix(above) {
            text.push(rest);
            return text.finish();
        }
        text.push("../");
        above = folder_in(above.strip_suffix("/").unwrap_or(""));
    }
    String::from_str(alloc, path)
}

// ---- files on disk

// So many names of a folder are looked at.
const MOST: usize = 1_000;

/// What a head of the document with this URI may name that stands on disk, in the folder that the part written so far names: briefs,
/// but the document itself, and folders.
///
/// # Errors
///
/// Where an allocation fails.
pub(crate) fn paths_on_disk<R: Files + AllocGlobal>(
    rt: &R,
    uri: &str,
    written: &str,
) -> Result<Vec<String>, AllocError> {
    let alloc = rt.alloc();
    let mut paths = Vec::new(alloc);
    let Some(own) = path_of(alloc, uri)? else {
        return Ok(paths);
    };
    let own = own.as_str();
    let front = folder_in(written);
    let above = if front.starts_with('/') {
        ""
    } else {
        folder_in(own)
    };
    let folder = format!(in alloc; "{above}{front}")?;
    let names = names_in_folder(rt, folder.as_str())?;
    for name in names.as_slice().split(|byte| *byte == 0).take(MOST) {
        let name = str::from_utf8(name).unwrap_or("");
        push_named(rt, &mut paths, own, (folder.as_str(), front), name)?;
    }
    Ok(paths)
}

// The names in a folder, each with a NUL after it. None, where it cannot be read.
fn names_in_folder<R: Files + AllocGlobal>(rt: &R, folder: &str) -> Result<Vec<u8>, AllocError> {
    let alloc = rt.alloc();
    let Ok(names) = rt.open_dir(folder) else {
        return Ok(Vec::new(alloc));
    };
    match read_within(alloc, &mut Watched::new(names), READS) {
        Ok(names) => Ok(names),
        Err(RunError::NoMemory) => Err(AllocError),
        Err(_) => Ok(Vec::new(alloc)),
    }
}

// What has this name in a folder, where a head may name it or leads to such files by it. The folder is also given as it is written.
fn push_named<R: Files + AllocGlobal>(
    rt: &R,
    paths: &mut Vec<String>,
    own: &str,
    folder: (&str, &str),
    name: &str,
) -> Result<(), AllocError> {
    if name.is_empty() || name.starts_with('.') {
        return Ok(());
    }
    let alloc = rt.alloc();
    let (folder, front) = folder;
    let path = format!(in alloc; "{folder}{name}")?;
    let Some(after) = end_of_name(rt, path.as_str(), own, name) else {
        return Ok(());
    };
    let path = format!(in alloc; "{front}{name}{after}")?;
    if !is_string(path.as_bytes()) {
        return Ok(());
    }
    match paths.push(path) {
        Ok(()) => Ok(()),
        Err(_) => Err(AllocError),
    }
}

// What stands after the name of what is at this path: `/` after that of a folder, nothing after that of a brief. None of others.
fn end_of_name<R: Files>(rt: &R, path: &str, own: &str, name: &str) -> Option<&'static str> {
    let found = fs::metadata(rt, path).ok()?;
    if found.is_dir() {
        return Some("/");
    }
    (found.is_file() && name.ends_with(".brief") && path != own).then_some("")
}
