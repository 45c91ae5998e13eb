// The texts of a board: those that the heads of briefs name, as they are open in the editor, or else as they stand on disk.

ghost use Rattle.board_files.specs.Files.{any_files};

use crate::documents::{Document, Documents};
use crate::plans::{Given, NoText, Part, Unread, UnreadAt, is_at, read};
use crate::uris::{path_of, uri_of};
use board_files::{FileId, GivenText, Listed, Opener, Unlisted, Why, folder_of, list_texts};
use brief_tokens::begin;
use files::identity_of;
use lexer::Letters;
use plan_text::{PlanError, Refused};
use run_parts::RunError;
use std::alloc::{AllocError, Global};
use std::rt::Files;
use std::{fs, str};

/// Whether a text is a brief of the second version, whose head may name files.
pub fn is_second_version(text: &[u8]) -> bool {
    match begin(text) {
        Ok(tokens) => tokens.letters() == Letters::Board,
        Err(_) => false,
    }
}

/// The texts of the board that these give. What a head names stands before the text that names it. Of the open documents among these
/// it is told here, but of those with these numbers.
///
/// # Errors
///
/// Where an allocation fails.
pub(crate) fn with_named<'a, R: Files + AllocGlobal>(
    rt: &'a R,
    documents: &'a Documents,
    heads: &'a [usize],
    given: Given,
) -> Result<Given, AllocError> {
    if !given.unread.is_empty() || !has_second_version(given.parts.as_slice()) {
        return Ok(given);
    }
    let alloc = rt.alloc();
    let first = first_path(alloc, given.parts.as_slice())?;
    let mut opener = BoardOpener {
        rt,
        documents,
        heads,
        folder: folder_of(first.as_bytes()).to_vec(alloc)?,
        labels: Vec::new(alloc),
        opened: None,
        reason: String::new(alloc),
    };
    let texts = opener.given_texts(given)?;
    let found = list_texts(alloc, &mut opener, texts);
    let BoardOpener { labels, reason, .. } = opener;
    match found {
        Ok(list) => of_list(alloc, list, labels.as_slice()),
        Err(Unlisted::In(text, why, before)) => {
            not_listed(alloc, text, why, before, reason, labels.as_slice())
        }
        Err(Unlisted::NoMemory) => Err(AllocError),
    }
}

fn has_second_version(parts: &[Part]) -> bool {
    for part in parts {
        if is_second_version(part.text.as_slice()) {
            return true;
        }
    }
    false
}

fn push<T: Drop>(all: &mut Vec<T>, one: T) -> Result<(), AllocError> {
    match all.push(one) {
        Ok(()) => Ok(()),
        Err(_) => Err(AllocError),
    }
}

// ---- what was given

// What a text of the list is to an editor. It is found by the path of the text.
#[derive(Drop)]
struct Label {
    path: String,
    uri: String,
    name: String,
    is_told: bool,
    is_named: bool,
}

// Where the text that stands first comes from: others are called by their paths from its folder on.
fn first_path(alloc: Global, parts: &[Part]) -> Result<String, AllocError> {
    match parts.first() {
        Some(part) => place_of(alloc, part.uri.as_str()),
        None => Ok(String::new(alloc)),
    }
}

// The path of the file with this URI, or what stands for it.
fn place_of(alloc: Global, uri: &str) -> Result<String, AllocError> {
    match path_of(alloc, uri)? {
        Some(path) => Ok(path),
        None => String::from_str(alloc, uri),
    }
}

fn given_text<R: Files + AllocGlobal>(
    rt: &R,
    documents: &Documents,
    labels: &mut Vec<Label>,
    part: Part,
) -> Result<GivenText, AllocError> {
    let alloc = rt.alloc();
    let Part {
        uri,
        name,
        text,
        is_told,
        is_named,
    } = part;
    let path = place_of(alloc, uri.as_str())?;
    // (what is no file names others from the working folder)
    let folder = if path.as_str() == uri.as_str() {
        &[]
    } else {
        folder_of(path.as_bytes())
    };
    let given = GivenText {
        folder: folder.to_vec(alloc)?,
        id: id_at(rt, documents, path.as_str()),
        listed: Listed {
            path: path.as_bytes().to_vec(alloc)?,
            text,
        },
    };
    push(
        labels,
        Label {
            path,
            uri,
            name,
            is_told,
            is_named,
        },
    )?;
    Ok(given)
}

// Which file this is. One that is open and stands on no disk has the number of its document.
fn id_at<R: Files>(rt: &R, documents: &Documents, path: &str) -> FileId {
    let number = documents.number_at(path).unwrap_or(usize::MAX);
    let (device, inode) = identity_of(fs::metadata(rt, path)).unwrap_or((u64::MAX, number as u64));
    FileId { device, inode }
}

// ---- files that heads name

// What was opened last.
#[derive(Drop)]
struct Opened {
    path: String,
    // the number of the document, where it is open in the editor
    document: Option<usize>,
}

// Opens files as they are in the editor, or on disk.
#[derive(Drop)]
struct BoardOpener<'a, R> {
    rt: &'a R,
    documents: &'a Documents,
    heads: &'a [usize],
    // others are called by their paths from here on
    folder: Vec<u8>,
    labels: Vec<Label>,
    opened: Option<Opened>,
    // why the last one cannot be read
    reason: String,
}

impl<R: Files + AllocGlobal> Opener for BoardOpener<'_, R> {
    ghost files = { any_files };

    fn open(&mut self, path: &[u8]) -> Result<FileId, RunError> {
        let path = str::from_utf8(path).unwrap_or("");
        let document = self.document_at(path);
        if document.is_none() {
            if let Err(error) = fs::metadata(self.rt, path) {
                self.reason = format!(in self.rt.alloc(); "{error}")?;
                return Err(RunError::Read);
            }
        }
        let id = match document {
            Some(number) => self.id_of(number, path),
            None => id_at(self.rt, self.documents, path),
        };
        self.opened = Some(Opened {
            path: String::from_str(self.rt.alloc(), path)?,
            document,
        });
        Ok(id)
    }

    fn give(&mut self) -> Result<Vec<u8>, RunError> {
        let Some(opened) = self.opened.take() else {
            return Err(RunError::Read);
        };
        let text = self.text_of(&opened)?;
        let label = self.label_of(opened)?;
        push(&mut self.labels, label)?;
        Ok(text)
    }
}

impl<R: Files + AllocGlobal> BoardOpener<'_, R> {
    // What was given.
    fn given_texts(&mut self, given: Given) -> Result<Vec<GivenText>, AllocError> {
        let Given { parts, .. } = given;
        let mut texts = Vec::new(self.rt.alloc());
        for part in parts {
            let text = given_text(self.rt, self.documents, &mut self.labels, part)?;
            push(&mut texts, text)?;
        }
        Ok(texts)
    }

    // The number of the open document that is the file of this path.
    fn document_at(&self, path: &str) -> Option<usize> {
        let documents = self.documents.all();
        documents.iter().position(|one| is_at(self.rt, one, path))
    }

    fn document(&self, number: Option<usize>) -> Option<&Document> {
        self.documents.all().get(number?)
    }

    fn id_of(&self, number: usize, path: &str) -> FileId {
        match self.document(Some(number)) {
            Some(
                Document {
                    path: Some(own),
                    ..
                },
            ) => id_at(self.rt, self.documents, own.as_str()),
            _ => id_at(self.rt, self.documents, path),
        }
    }

    fn text_of(&mut self, opened: &Opened) -> Result<Vec<u8>, RunError> {
        let alloc = self.rt.alloc();
        if let Some(document) = self.document(opened.document) {
            return Ok(document.text.as_bytes().to_vec(alloc)?);
        }
        match read(self.rt, opened.path.as_str()) {
            Ok(text) => Ok(text),
            Err(NoText::Memory) => Err(RunError::NoMemory),
            Err(NoText::Refused(error)) => {
                self.reason = format!(in alloc; "{error}")?;
                Err(RunError::Read)
            }
            Err(NoText::Other(words)) => {
                self.reason = String::from_str(alloc, words)?;
                Err(RunError::Read)
            }
        }
    }

    fn label_of(&self, opened: Opened) -> Result<Label, AllocError> {
        let alloc = self.rt.alloc();
        let Opened { path, document } = opened;
        let is_told = match document {
            Some(number) => !self.heads.contains(&number),
            None => path.starts_with('/'),
        };
        let uri = match self.document(document) {
            Some(document) => String::from_str(alloc, document.uri.as_str())?,
            None => uri_of(alloc, path.as_str())?,
        };
        Ok(Label {
            name: String::from_str(alloc, name_from(self.folder.as_slice(), path.as_str()))?,
            path,
            uri,
            is_told,
            is_named: true,
        })
    }
}

// What people call the file of this path, beside those of this folder.
fn name_from<'a>(folder: &[u8], path: &'a str) -> &'a str {
    match str::from_utf8(folder) {
        Ok(folder) => path.strip_prefix(folder).unwrap_or(path),
        Err(_) => path,
    }
}

// ---- the list

fn of_list(alloc: Global, list: Vec<Listed>, labels: &[Label]) -> Result<Given, AllocError> {
    let mut given = Given::new(alloc);
    for text in list {
        given.add(part_of(alloc, text, labels)?)?;
    }
    Ok(given)
}

fn part_of(alloc: Global, text: Listed, labels: &[Label]) -> Result<Part, AllocError> {
    let Listed { path, text } = text;
    for label in labels {
        if label.path.as_bytes() == path.as_slice() {
            return Ok(Part {
                uri: String::from_str(alloc, label.uri.as_str())?,
                name: String::from_str(alloc, label.name.as_str())?,
                text,
                is_told: label.is_told,
                is_named: label.is_named,
            });
        }
    }
    // (each text of the list has one)
    Err(AllocError)
}

// The texts up to the one whose head cannot be followed, and why it cannot. A head that is refused is refused again as its text is
// read.
fn not_listed(
    alloc: Global,
    text: Listed,
    why: Why,
    before: Vec<Listed>,
    reason: String,
    labels: &[Label],
) -> Result<Given, AllocError> {
    let mut given = of_list(alloc, before, labels)?;
    given.ends_early = true;
    let part = part_of(alloc, text, labels)?;
    match why {
        Why::Unread {
            error: RunError::NoMemory,
            ..
        } => return Err(AllocError),
        Why::Unread { line, path, .. } => {
            let name = String::from_str(alloc, str::from_utf8(path.as_slice()).unwrap_or(""))?;
            given.leave_out(Unread {
                name,
                reason,
                at: Some(at_line(alloc, &part, line)?),
            })?;
        }
        Why::Refused(refused) => {
            if let Some((line, name)) = one_too_many(refused, part.text.as_slice()) {
                given.leave_out(Unread {
                    name: String::from_str(alloc, name)?,
                    reason: String::from_str(alloc, "64 texts stand before it")?,
                    at: Some(at_line(alloc, &part, line)?),
                })?;
            }
        }
    }
    given.add(part)?;
    Ok(given)
}

fn at_line(alloc: Global, part: &Part, line: u64) -> Result<UnreadAt, AllocError> {
    Ok(UnreadAt {
        uri: String::from_str(alloc, part.uri.as_str())?,
        line,
    })
}

// The line and the name of a file that is one too many.
fn one_too_many(refused: Refused, text: &[u8]) -> Option<(u64, &str)> {
    let PlanError::TooMany(line) = refused.error else {
        return None;
    };
    let place = refused.place?;
    let name = text.get(place.start..place.end)?;
    Some((line, str::from_utf8(name).unwrap_or("")))
}
