// Which texts begin a plan: open documents that no other text names, and boards that no editor has open.

use crate::boards::{is_second_version, with_named};
use crate::documents::{Document, Documents};
use crate::knowledge::Known;
use crate::plans::{Further, Given, NoText, Part, given_by, is_further, read};
use crate::uris::uri_of;
use board_files::folder_of;
use plan_text::is_plan;
use std::alloc::{AllocError, Global};
use std::rt::Files;

// What the first text of a board is called, where nobody has it open.
const BOARD: &str = "board.brief";

/// A board whose first text no editor has open, and the numbers of the open documents that it names.
#[derive(Drop)]
pub struct FoundBoard {
    pub path: String,
    pub names: Vec<usize>,
}

/// The boards that name an open document, of those called `board.brief` in its folder and in the folders above that, up to one of
/// these roots. `before` is what was known of the texts before the last change.
///
/// # Errors
///
/// Where an allocation fails.
pub fn found_boards<R: Files + AllocGlobal>(
    rt: &R,
    documents: &Documents,
    further: &[Further],
    roots: &[String],
    before: &[Known],
) -> Result<Vec<FoundBoard>, AllocError> {
    let mut search = Search {
        rt,
        documents,
        before,
        tried: Vec::new(rt.alloc()),
        found: Vec::new(rt.alloc()),
    };
    for document in documents.all() {
        if may_be_named(rt, document, further) {
            if let Some(path) = &document.path {
                search.look_above(path.as_str(), roots)?;
            }
        }
    }
    let Search { found, .. } = search;
    Ok(found)
}

// Whether a head may name a document: it is no plan, and none of the further files.
fn may_be_named<R: Files>(rt: &R, document: &Document, further: &[Further]) -> bool {
    !is_further(rt, document, further) && !is_plan(document.text.as_bytes())
}

#[derive(Drop)]
struct Search<'a, R> {
    rt: &'a R,
    documents: &'a Documents,
    before: &'a [Known],
    tried: Vec<String>,
    found: Vec<FoundBoard>,
}

impl<R: Files + AllocGlobal> Search<'_, R> {
    // Looks in the folder of this path, and in those above.
    fn look_above(&mut self, path: &str, roots: &[String]) -> Result<(), AllocError> {
        let mut rest = path;
        // (each folder is shorter than the one before)
        for _ in 0..path.len() {
            let Some((folder, _)) = rest.rsplit_once('/') else {
                break;
            };
            self.look_in(folder)?;
            if !is_below(folder, roots) {
                break;
            }
            rest = folder;
        }
        Ok(())
    }

    fn look_in(&mut self, folder: &str) -> Result<(), AllocError> {
        let alloc = self.rt.alloc();
        let mut path = String::from_str(alloc, folder)?;
        path.push('/')?;
        path.push_str(BOARD)?;
        if self.tried.iter().any(|one| one.as_str() == path.as_str()) {
            return Ok(());
        }
        if self.documents.number_at(path.as_str()).is_none() {
            self.try_board(path.as_str())?;
        }
        match self.tried.push(path) {
            Ok(()) => Ok(()),
            Err(_) => Err(AllocError),
        }
    }

    fn try_board(&mut self, path: &str) -> Result<(), AllocError> {
        let alloc = self.rt.alloc();
        let Some(given) = given_at(self.rt, self.documents, &[], path)? else {
            return Ok(());
        };
        let uri = uri_of(alloc, path)?;
        let mut names = Vec::new(alloc);
        for one in &members_of(alloc, &given, known_with(self.before, uri.as_str()))? {
            if let Some(number) = self.documents.number_of(one.as_str()) {
                names.push(number)?;
            }
        }
        if names.is_empty() {
            return Ok(());
        }
        let board = FoundBoard {
            path: String::from_str(alloc, path)?,
            names,
        };
        match self.found.push(board) {
            Ok(()) => Ok(()),
            Err(_) => Err(AllocError),
        }
    }
}

// Whether a folder stands below one of these, and is none of them.
fn is_below(folder: &str, roots: &[String]) -> bool {
    for root in roots {
        if let Some(rest) = folder.strip_prefix(root.as_str()) {
            if rest.starts_with('/') {
                return true;
            }
        }
    }
    false
}

/// The texts of the board whose first text is the file of this path. None where that is no brief of the second version. It is told of
/// what its heads name, but of the documents that are heads.
///
/// # Errors
///
/// Where an allocation fails.
pub fn given_at<R: Files + AllocGlobal>(
    rt: &R,
    documents: &Documents,
    heads: &[usize],
    path: &str,
) -> Result<Option<Given>, AllocError> {
    let alloc = rt.alloc();
    let text = match read(rt, path) {
        Ok(text) => text,
        Err(NoText::Memory) => return Err(AllocError),
        Err(_) => return Ok(None),
    };
    if !is_second_version(text.as_slice()) {
        return Ok(None);
    }
    let mut given = Given::new(alloc);
    given.add(Part {
        uri: uri_of(alloc, path)?,
        name: String::from_str(alloc, name_after(folder_of(path.as_bytes()), path))?,
        text,
        is_told: true,
        is_named: true,
    })?;
    Ok(Some(with_named(rt, documents, heads, given)?))
}

fn name_after<'a>(folder: &[u8], path: &'a str) -> &'a str {
    path.get(folder.len()..).unwrap_or(path)
}

/// The numbers of the open documents that may be the first of several texts: none of the further files, and no plan. What the head
/// of another one names, or of one of these boards, is told of with that one. Where two name each other that is the one that was
/// opened first. `before` is what was known of the texts before the last change.
///
/// # Errors
///
/// Where an allocation fails.
pub fn heads_of<R: Files + AllocGlobal>(
    rt: &R,
    documents: &Documents,
    further: &[Further],
    boards: &[FoundBoard],
    before: &[Known],
) -> Result<Vec<usize>, AllocError> {
    let alloc = rt.alloc();
    let mut briefs = Vec::new(alloc);
    for (number, document) in documents.all().iter().enumerate() {
        if may_be_named(rt, document, further) {
            briefs.push(number)?;
        }
    }
    let namings = namings_of(rt, documents, further, briefs.as_slice(), before)?;
    let mut heads = Vec::new(alloc);
    for brief in briefs.iter() {
        if !is_named(namings.as_slice(), *brief) && !is_on(boards, *brief) {
            heads.push(*brief)?;
        }
    }
    Ok(heads)
}

// Whether one of these boards names a document.
fn is_on(boards: &[FoundBoard], number: usize) -> bool {
    boards.iter().any(|board| board.names.contains(&number))
}

// That the list of an open document has another one.
#[derive(Clone, Copy, PartialEq, Eq)]
struct Naming {
    by: usize,
    named: usize,
}

// Which of these documents have which of them in their lists.
fn namings_of<R: Files + AllocGlobal>(
    rt: &R,
    documents: &Documents,
    further: &[Further],
    briefs: &[usize],
    before: &[Known],
) -> Result<Vec<Naming>, AllocError> {
    let mut namings = Vec::new(rt.alloc());
    for by in briefs {
        let Some(document) = documents.all().get(*by) else {
            continue;
        };
        if !is_second_version(document.text.as_bytes()) {
            continue;
        }
        let given = given_by(rt, documents, &[], Some(*by), further, false)?;
        let known = known_with(before, document.uri.as_str());
        for uri in &members_of(rt.alloc(), &given, known)? {
            if let Some(named) = documents.number_of(uri.as_str()) {
                if named != *by {
                    namings.push(Naming { by: *by, named })?;
                }
            }
        }
    }
    Ok(namings)
}

/// The URIs of these texts. Where a head cannot be followed they are also those of before: what it named may stand behind the slip.
///
/// # Errors
///
/// Where an allocation fails.
pub(crate) fn members_of(
    alloc: Global,
    given: &Given,
    before: Option<&Known>,
) -> Result<Vec<String>, AllocError> {
    let mut members = Vec::new(alloc);
    for part in given.parts.iter() {
        push_new(alloc, &mut members, part.uri.as_str())?;
    }
    if let (true, Some(known)) = (given.ends_early, before) {
        for member in known.members.iter() {
            push_new(alloc, &mut members, member.as_str())?;
        }
    }
    Ok(members)
}

fn push_new(alloc: Global, members: &mut Vec<String>, uri: &str) -> Result<(), AllocError> {
    if members.iter().any(|one| one.as_str() == uri) {
        return Ok(());
    }
    match members.push(String::from_str(alloc, uri)?) {
        Ok(()) => Ok(()),
        Err(_) => Err(AllocError),
    }
}

/// What is known of the plan that begins with this document.
pub(crate) fn known_with<'k>(known: &'k [Known], uri: &str) -> Option<&'k Known> {
    known.iter().find(|one| one.begins_with(uri))
}

// Whether a document is told of with another one.
fn is_named(namings: &[Naming], number: usize) -> bool {
    for naming in namings {
        if naming.named == number && is_first(namings, *naming) {
            return true;
        }
    }
    false
}

// Whether the one that names the other is not named by that, or was opened before it.
fn is_first(namings: &[Naming], naming: Naming) -> bool {
    let turned = Naming {
        by: naming.named,
        named: naming.by,
    };
    naming.by < naming.named || !namings.contains(&turned)
}
