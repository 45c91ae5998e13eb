// Which texts give the plan that a document belongs to.

use crate::boards::with_named;
use crate::documents::{Document, Documents};
use crate::uris::uri_of;
use files::{FileId, identity_of};
use plan_text::is_plan;
use run_parts::devices::reading::READS;
use run_parts::{RunError, Watched, read_within};
use std::alloc::{AllocError, Global};
use std::rt::{Env, Files};
use std::{env, fs, io};

/// A further file of a brief, as the command line names it, and its path from the root on, also as a URI.
#[derive(Drop)]
pub struct Further {
    pub name: String,
    pub path: String,
    pub uri: String,
}

/// One of the texts that give a plan.
#[derive(Drop)]
pub struct Part {
    pub uri: String,
    /// What people call it.
    pub name: String,
    pub text: Vec<u8>,
    /// Whether what is wrong with it is told by this plan, and by no other.
    pub is_told: bool,
    /// Whether a head names it, and nobody gave it.
    pub is_named: bool,
}

impl Part {
    /// The same with another text.
    ///
    /// # Errors
    ///
    /// Where an allocation fails.
    pub fn with_text(&self, alloc: Global, text: Vec<u8>) -> Result<Part, AllocError> {
        Ok(Part {
            uri: String::from_str(alloc, self.uri.as_str())?,
            name: String::from_str(alloc, self.name.as_str())?,
            text,
            is_told: self.is_told,
            is_named: self.is_named,
        })
    }
}

/// The texts that give a plan, in their order.
#[derive(Drop)]
pub struct Given {
    pub parts: Vec<Part>,
    /// The files that cannot be read, which are left out.
    pub unread: Vec<Unread>,
    /// Whether a head could not be followed, so that further texts may be missing.
    pub ends_early: bool,
    // how many parts stand before the first of these
    before: usize,
}

/// A file that cannot be read: its name, why, and where a head names it. (Nowhere, where the command line does.)
#[derive(Drop)]
pub struct Unread {
    pub name: String,
    pub reason: String,
    pub at: Option<UnreadAt>,
}

/// A line of the text with this URI, from 1 on.
#[derive(Drop)]
pub struct UnreadAt {
    pub uri: String,
    pub line: u64,
}

/// The further files of these names.
///
/// # Errors
///
/// Where an allocation fails.
pub fn further_of<R: Env + AllocGlobal>(
    rt: &R,
    names: &[&str],
) -> Result<Vec<Further>, AllocError> {
    let alloc = rt.alloc();
    let mut all = Vec::new(alloc);
    for name in names {
        let path = path_from_root(rt, name)?;
        if all.push(further_at(alloc, name, path)?).is_err() {
            return Err(AllocError);
        }
    }
    Ok(all)
}

fn further_at(alloc: Global, name: &str, path: String) -> Result<Further, AllocError> {
    let uri = uri_of(alloc, path.as_str())?;
    Ok(Further {
        name: String::from_str(alloc, name)?,
        path,
        uri,
    })
}

// The path from the root on, where it is known in which folder the program runs.
fn path_from_root<R: Env + AllocGlobal>(rt: &R, name: &str) -> Result<String, AllocError> {
    let alloc = rt.alloc();
    if name.starts_with('/') {
        return String::from_str(alloc, name);
    }
    match env::current_dir(rt) {
        Ok(mut path) => match path.push(name) {
            Ok(()) => Ok(path.into_string()),
            Err(_) => Err(AllocError),
        },
        Err(_) => String::from_str(alloc, name),
    }
}

/// Whether a document is one of these files.
pub fn is_further<R: Files>(rt: &R, document: &Document, further: &[Further]) -> bool {
    for one in further {
        if is_file(rt, document, one) {
            return true;
        }
    }
    false
}

/// Whether a document is this file, and has another URI, as behind a link. Then it stands for the file.
pub fn stands_for<R: Files>(
    rt: &R,
    document: &Document,
    further: &Further,
    documents: &Documents,
) -> bool {
    let uri = further.uri.as_str();
    document.uri.as_str() != uri && documents.find(uri).is_none() && is_file(rt, document, further)
}

// Whether a document is this file.
fn is_file<R: Files>(rt: &R, document: &Document, further: &Further) -> bool {
    is_at(rt, document, further.path.as_str())
}

/// Whether a document is the file of this path: by its own path, or as the system knows both.
pub(crate) fn is_at<R: Files>(rt: &R, document: &Document, at: &str) -> bool {
    let Some(path) = &document.path else {
        return false;
    };
    path.as_str() == at
        || is_one(
            identity_of(fs::metadata(rt, path.as_str())),
            identity_of(fs::metadata(rt, at)),
        )
}

fn is_one(one: Option<FileId>, other: Option<FileId>) -> bool {
    match (one, other) {
        (Some(one), Some(other)) => one.0 == other.0 && one.1 == other.1,
        _ => false,
    }
}

/// The texts that give a plan: the document of this number, where there is one, and then the further files, which no plan has
/// after it. These are told of where that is wanted. What their heads name stands before them, and is told of, but the documents that
/// are heads.
///
/// # Errors
///
/// Where an allocation fails.
pub fn given_by<R: Files + AllocGlobal>(
    rt: &R,
    documents: &Documents,
    heads: &[usize],
    head: Option<usize>,
    further: &[Further],
    tells_further: bool,
) -> Result<Given, AllocError> {
    let given = given_texts(rt, documents, head, further, tells_further)?;
    with_named(rt, documents, heads, given)
}

// The same, without what heads name.
fn given_texts<R: Files + AllocGlobal>(
    rt: &R,
    documents: &Documents,
    head: Option<usize>,
    further: &[Further],
    tells_further: bool,
) -> Result<Given, AllocError> {
    let alloc = rt.alloc();
    let mut given = Given::new(alloc);
    if let Some(document) = head_among(documents, head) {
        given.add(part_of(alloc, document, file_name_of(document), true)?)?;
        if !is_further(rt, document, further) && is_plan(document.text.as_bytes()) {
            return Ok(given);
        }
    }
    for one in further {
        match further_part(rt, documents, one, tells_further)? {
            FurtherPart::Read(part) => given.add(part)?,
            FurtherPart::Unread(reason) => {
                let name = String::from_str(alloc, one.name.as_str())?;
                given.leave_out(Unread {
                    name,
                    reason,
                    at: None,
                })?;
            }
        }
    }
    Ok(given)
}

/// A document alone, whatever its head names.
///
/// # Errors
///
/// Where an allocation fails.
pub fn given_alone(alloc: Global, document: &Document) -> Result<Given, AllocError> {
    let mut given = Given::new(alloc);
    given.add(part_of(alloc, document, file_name_of(document), true)?)?;
    Ok(given)
}

fn head_among(documents: &Documents, head: Option<usize>) -> Option<&Document> {
    documents.all().get(head?)
}

impl Given {
    /// None.
    pub fn new(alloc: Global) -> Given {
        Given {
            parts: Vec::new(alloc),
            unread: Vec::new(alloc),
            ends_early: false,
            before: 0,
        }
    }

    /// A further part.
    ///
    /// # Errors
    ///
    /// Where an allocation fails.
    pub fn add(&mut self, part: Part) -> Result<(), AllocError> {
        match self.parts.push(part) {
            Ok(()) => Ok(()),
            Err(_) => Err(AllocError),
        }
    }

    /// A file that cannot be read stands here.
    ///
    /// # Errors
    ///
    /// Where an allocation fails.
    pub fn leave_out(&mut self, file: Unread) -> Result<(), AllocError> {
        if self.unread.is_empty() {
            self.before = self.parts.len();
        }
        match self.unread.push(file) {
            Ok(()) => Ok(()),
            Err(_) => Err(AllocError),
        }
    }

    /// The number of the part that is the document with this URI.
    pub fn number_of(&self, uri: &str) -> Option<u32> {
        let number = self.parts.iter().position(|part| part.uri.as_str() == uri)?;
        u32::try_from(number).ok()
    }

    /// The parts of which can be said what is wrong: those before a file that cannot be read.
    pub fn known(&self) -> &[Part] {
        let parts = self.parts.as_slice();
        if self.unread.is_empty() {
            parts
        } else {
            parts.get(..self.before).unwrap_or(parts)
        }
    }
}

// An open document, which people call so.
fn part_of(
    alloc: Global,
    document: &Document,
    name: &str,
    is_told: bool,
) -> Result<Part, AllocError> {
    let mut text = Vec::new(alloc);
    text.extend_from_slice(document.text.as_bytes())?;
    Ok(Part {
        uri: String::from_str(alloc, document.uri.as_str())?,
        name: String::from_str(alloc, name)?,
        text,
        is_told,
        is_named: false,
    })
}

// The last part of what names a document.
fn file_name_of(document: &Document) -> &str {
    let path = match &document.path {
        Some(path) => path.as_str(),
        None => document.uri.as_str(),
    };
    match path.rsplit_once('/') {
        Some((_, name)) => name,
        None => path,
    }
}

// A further file: its text, or why it cannot be read.
#[derive(Drop)]
enum FurtherPart {
    Read(Part),
    Unread(String),
}

// A further file: as it is open, or as it stands on disk.
fn further_part<R: Files + AllocGlobal>(
    rt: &R,
    documents: &Documents,
    further: &Further,
    is_told: bool,
) -> Result<FurtherPart, AllocError> {
    let alloc = rt.alloc();
    let name = further.name.as_str();
    for document in documents.all() {
        if is_file(rt, document, further) {
            return Ok(FurtherPart::Read(part_of(alloc, document, name, is_told)?));
        }
    }
    match read(rt, further.path.as_str()) {
        Ok(text) => Ok(FurtherPart::Read(Part {
            uri: String::from_str(alloc, further.uri.as_str())?,
            name: String::from_str(alloc, name)?,
            text,
            is_told,
            is_named: false,
        })),
        Err(NoText::Memory) => Err(AllocError),
        Err(NoText::Refused(error)) => Ok(FurtherPart::Unread(format!(in alloc; "{error}")?)),
        Err(NoText::Other(words)) => Ok(FurtherPart::Unread(String::from_str(alloc, words)?)),
    }
}

/// Why a file has no text.
#[derive(Drop)]
pub(crate) enum NoText {
    Memory,
    Refused(io::Error),
    Other(&'static str),
}

/// What the file of this path has. A pipe would be waited for, and a device may have no end.
///
/// # Errors
///
/// Where it has no text.
pub(crate) fn read<R: Files + AllocGlobal>(rt: &R, path: &str) -> Result<Vec<u8>, NoText> {
    match fs::metadata(rt, path) {
        Ok(found) if found.is_file() => {}
        Ok(_) => return Err(NoText::Other("it is no regular file")),
        Err(error) => return Err(NoText::Refused(error)),
    }
    let file = match fs::open(rt, path) {
        Ok(file) => file,
        Err(error) => return Err(NoText::Refused(error)),
    };
    match read_within(rt.alloc(), &mut Watched::new(file), READS) {
        Ok(text) => Ok(text),
        Err(RunError::NoMemory) => Err(NoText::Memory),
        Err(_) => Err(NoText::Other("it cannot be read to its end")),
    }
}
