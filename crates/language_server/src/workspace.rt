// The texts that a client has open, what is known of the plans that these give, and what is told of them.

use crate::answers::Answers;
use crate::changes::changed_text;
use crate::formatting::{edit_of, laid_out};
use crate::questions::{Question, Told, told_in};
use crate::telling::{publish, publish_nothing};
use editor_texts::{
    Document, Documents, FoundBoard, Further, Given, Known, Lines, Position, Units, found_boards,
    given_alone, given_at, given_by, heads_of, is_further, is_second_version, json, path_of,
    stands_for, uri_of,
};
use plan_text::is_plan;
use serde_json::Value;
use std::alloc::{AllocError, Global};
use std::mem;
use std::rt::Files;
use std::thread::Threads;

/// What is open, and what is known and told of it.
#[derive(Drop)]
pub(crate) struct Workspace<'a, R> {
    rt: &'a R,
    further: Vec<Further>,
    documents: Documents,
    // the folders in which the client works
    roots: Vec<String>,
    known: Vec<Known>,
    before: Before,
    // the files that heads name, of which something was told
    told: Vec<String>,
    // what the client counts in a line
    units: Units,
}

// What stands before the further files, where what is wrong with them is told.
#[derive(Drop)]
enum Before {
    // nothing that they were told of with
    Unknown,
    // nothing: they give a plan
    Nothing,
    // the document with this URI
    Document(String),
}

const NULL: &str = "null";

impl<'a, R: Files + AllocGlobal + Threads + Sync> Workspace<'a, R> {
    /// Nothing is open, and plans have these further files.
    pub(crate) fn new(rt: &'a R, further: Vec<Further>) -> Workspace<'a, R> {
        Workspace {
            rt,
            further,
            documents: Documents::new(rt.alloc()),
            roots: Vec::new(rt.alloc()),
            known: Vec::new(rt.alloc()),
            before: Before::Unknown,
            told: Vec::new(rt.alloc()),
            units: Units::Utf16,
        }
    }

    /// The client counts in these units.
    pub(crate) fn count_in(&mut self, units: Units) {
        self.units = units;
    }

    /// The client works in the folder with this URI.
    ///
    /// # Errors
    ///
    /// Where an allocation fails.
    pub(crate) fn add_root(&mut self, uri: &str) -> Result<(), AllocError> {
        let alloc = self.rt.alloc();
        let Some(path) = path_of(alloc, uri)? else {
            return Ok(());
        };
        let path = String::from_str(alloc, path.as_str().trim_end_matches('/'))?;
        match self.roots.push(path) {
            Ok(()) => Ok(()),
            Err(_) => Err(AllocError),
        }
    }

    // ---- what changes

    /// A document is open now.
    ///
    /// # Errors
    ///
    /// Where an allocation fails.
    pub(crate) fn open(
        &mut self,
        uri: &str,
        text: &str,
        answers: &mut Answers,
    ) -> Result<(), AllocError> {
        self.documents.open(uri, text)?;
        self.untell_other_uris(uri, answers);
        self.tell_after(uri, answers)
    }

    // What is wrong with a further file is told by the URI with which it was opened, and by its own no more.
    fn untell_other_uris(&self, uri: &str, answers: &mut Answers) {
        let Some(document) = self.documents.find(uri) else {
            return;
        };
        for one in self.further.iter() {
            if stands_for(self.rt, document, one, &self.documents) {
                publish_nothing(self.rt.alloc(), answers, one.uri.as_str());
            }
        }
    }

    /// An open document has changed. Where a change cannot be made nothing is.
    ///
    /// # Errors
    ///
    /// Where an allocation fails.
    pub(crate) fn change(
        &mut self,
        uri: &str,
        changes: &[Value],
        answers: &mut Answers,
    ) -> Result<(), AllocError> {
        let Some(document) = self.documents.find(uri) else {
            return Ok(());
        };
        let text = document.text.as_str();
        let Some(text) = changed_text(self.rt.alloc(), text, changes, self.units)? else {
            return Ok(());
        };
        if self.documents.change(uri, text)? {
            self.tell_after(uri, answers)?;
        }
        Ok(())
    }

    /// A file that no editor has open may have changed.
    ///
    /// # Errors
    ///
    /// Where an allocation fails.
    pub(crate) fn look_again(&mut self, answers: &mut Answers) -> Result<(), AllocError> {
        if self.further.is_empty() && !self.has_boards()? {
            return Ok(());
        }
        self.tell_each(answers)
    }

    /// A document is not open any more.
    ///
    /// # Errors
    ///
    /// Where an allocation fails.
    pub(crate) fn close(&mut self, uri: &str, answers: &mut Answers) -> Result<(), AllocError> {
        if !self.documents.close(uri) {
            return Ok(());
        }
        publish_nothing(self.rt.alloc(), answers, uri);
        let _closed = take_with(&mut self.known, Some(uri));
        if self.further.is_empty() && !self.has_boards()? {
            return Ok(());
        }
        self.forget(uri);
        self.tell_each(answers)
    }

    // Nothing is told of this file now.
    fn forget(&mut self, uri: &str) {
        match self.told.iter().position(|one| one.as_str() == uri) {
            Some(at) if at < self.told.len() => {
                let _forgotten = self.told.remove(at);
            }
            _ => {}
        }
    }

    // ---- what is told

    // Tells what is wrong after this document has another text: with all plans that it may be a part of.
    fn tell_after(&mut self, uri: &str, answers: &mut Answers) -> Result<(), AllocError> {
        let Some(number) = self.documents.number_of(uri) else {
            return Ok(());
        };
        let has_boards = self.has_boards()?;
        if self.is_plan_alone(number) {
            self.tell_head(Some(number), &[], false, answers)?;
            if !self.was_before_files(uri) && !has_boards {
                return Ok(());
            }
            return self.tell_each(answers);
        }
        if self.is_file(number) || has_boards {
            return self.tell_each(answers);
        }
        let further = self.further.as_slice();
        let heads = heads_of(self.rt, &self.documents, further, &[], &[])?;
        let is_first = self.before_files(heads.as_slice()) == Some(number);
        self.tell_head(Some(number), heads.as_slice(), is_first, answers)
    }

    // Whether a document is a plan, which no other text belongs to.
    fn is_plan_alone(&self, number: usize) -> bool {
        match self.documents.all().get(number) {
            Some(document) => is_plan(document.text.as_bytes()) && !self.is_file(number),
            None => false,
        }
    }

    fn is_file(&self, number: usize) -> bool {
        match self.documents.all().get(number) {
            Some(document) => is_further(self.rt, document, self.further.as_slice()),
            None => false,
        }
    }

    // Whether something was told of a file that a head names, an open document may name others, or a board names one.
    fn has_boards(&self) -> Result<bool, AllocError> {
        let documents = self.documents.all();
        let is_second = documents
            .iter()
            .any(|one| is_second_version(one.text.as_bytes()));
        if !self.told.is_empty() || is_second {
            return Ok(true);
        }
        let boards = self.boards(&[])?;
        Ok(!boards.is_empty())
    }

    fn boards(&self, before: &[Known]) -> Result<Vec<FoundBoard>, AllocError> {
        found_boards(
            self.rt,
            &self.documents,
            self.further.as_slice(),
            self.roots.as_slice(),
            before,
        )
    }

    fn was_before_files(&self, uri: &str) -> bool {
        match &self.before {
            Before::Document(before) => before.as_str() == uri,
            Before::Unknown | Before::Nothing => false,
        }
    }

    // Tells what is wrong with all plans that briefs give. Of files that are none of theirs any more nothing is wrong.
    fn tell_each(&mut self, answers: &mut Answers) -> Result<(), AllocError> {
        let alloc = self.rt.alloc();
        let told = mem::replace(&mut self.told, Vec::new(alloc));
        let mut before = mem::replace(&mut self.known, Vec::new(alloc));
        let boards = self.boards(before.as_slice())?;
        let heads = heads_of(
            self.rt,
            &self.documents,
            self.further.as_slice(),
            boards.as_slice(),
            before.as_slice(),
        )?;
        self.keep_plans(&mut before)?;
        self.tell_heads(heads.as_slice(), boards.as_slice(), &mut before, answers)?;
        self.untell(told, answers);
        Ok(())
    }

    // Plans are told of when they change.
    fn keep_plans(&mut self, before: &mut Vec<Known>) -> Result<(), AllocError> {
        for number in 0..self.documents.all().len() {
            if self.is_plan_alone(number) {
                let head = head_uri(&self.documents, Some(number));
                if let Some(known) = take_with(before, head) {
                    push(&mut self.known, known)?;
                }
            }
        }
        Ok(())
    }

    fn tell_heads(
        &mut self,
        heads: &[usize],
        boards: &[FoundBoard],
        before: &mut Vec<Known>,
        answers: &mut Answers,
    ) -> Result<(), AllocError> {
        let first = self.before_files(heads);
        for head in heads {
            let is_first = first == Some(*head);
            self.tell_next(Some(*head), heads, is_first, before, answers)?;
        }
        for board in boards {
            self.tell_board(board, heads, before, answers)?;
        }
        if first.is_none() {
            self.tell_next(None, heads, true, before, answers)?;
        }
        Ok(())
    }

    // Nothing is wrong with what was told of before, and is no part of a plan now.
    fn untell(&self, told: Vec<String>, answers: &mut Answers) {
        let alloc = self.rt.alloc();
        for uri in told {
            let uri = uri.as_str();
            if !has(self.told.as_slice(), uri) && self.documents.find(uri).is_none() {
                publish_nothing(alloc, answers, uri);
            }
        }
        for document in self.documents.all() {
            if !self
                .known
                .iter()
                .any(|known| known.has(document.uri.as_str()))
            {
                publish_nothing(alloc, answers, document.uri.as_str());
            }
        }
    }

    // The document with which the further files are told of, of those that may be the first: the one of before, as long as it may,
    // else the one that was opened last. None where they give a plan without one, or there is none.
    fn before_files(&self, heads: &[usize]) -> Option<usize> {
        let last = heads.last().copied();
        match &self.before {
            Before::Nothing => None,
            Before::Unknown => last,
            Before::Document(uri) => match self.documents.number_of(uri.as_str()) {
                Some(number) if heads.contains(&number) => Some(number),
                _ => last,
            },
        }
    }

    // Tells what is wrong with the plan that begins with this document.
    fn tell_head(
        &mut self,
        head: Option<usize>,
        heads: &[usize],
        tells_further: bool,
        answers: &mut Answers,
    ) -> Result<(), AllocError> {
        let given = self.given_by(heads, head, tells_further)?;
        let uri = self.uri_of_head(head)?;
        let before = take_with(&mut self.known, text_of(&uri));
        self.tell_given(given, head, tells_further, before, answers)
    }

    // The same, after what was told before it of other plans, or with that of the further files alone. A file is told of once.
    fn tell_next(
        &mut self,
        head: Option<usize>,
        heads: &[usize],
        tells_further: bool,
        before: &mut Vec<Known>,
        answers: &mut Answers,
    ) -> Result<(), AllocError> {
        let mut given = self.given_by(heads, head, tells_further)?;
        self.note_told(&mut given)?;
        let known = take_with(before, head_uri(&self.documents, head));
        self.tell_given(given, head, tells_further, known, answers)
    }

    // The same of a board whose head is not open.
    fn tell_board(
        &mut self,
        board: &FoundBoard,
        heads: &[usize],
        before: &mut Vec<Known>,
        answers: &mut Answers,
    ) -> Result<(), AllocError> {
        let path = board.path.as_str();
        let Some(mut given) = given_at(self.rt, &self.documents, heads, path)? else {
            return Ok(());
        };
        self.note_told(&mut given)?;
        let uri = uri_of(self.rt.alloc(), path)?;
        let known = take_with(before, Some(uri.as_str()));
        self.tell(given, Some(uri), known, answers)?;
        Ok(())
    }

    // Notes which files that heads name are told of here.
    fn note_told(&mut self, given: &mut Given) -> Result<(), AllocError> {
        for part in given.parts.iter_mut() {
            if part.is_named && has(self.told.as_slice(), part.uri.as_str()) {
                part.is_told = false;
            }
        }
        for part in given.parts.iter() {
            if part.is_named && part.is_told {
                let uri = String::from_str(self.rt.alloc(), part.uri.as_str())?;
                push(&mut self.told, uri)?;
            }
        }
        Ok(())
    }

    fn tell_given(
        &mut self,
        given: Given,
        head: Option<usize>,
        tells_further: bool,
        before: Option<Known>,
        answers: &mut Answers,
    ) -> Result<(), AllocError> {
        let uri = self.uri_of_head(head)?;
        if tells_further {
            self.drop_headless();
        }
        let is_plan = self.tell(given, uri, before, answers)?;
        if tells_further {
            self.before = self.before_of(head, is_plan)?;
        }
        Ok(())
    }

    // The further files are told of with another text than before.
    fn drop_headless(&mut self) {
        for _ in 0..self.known.len() {
            match self.known.iter().position(|one| one.head.is_none()) {
                Some(at) if at < self.known.len() => {
                    let _dropped = self.known.remove(at);
                }
                _ => break,
            }
        }
    }

    fn uri_of_head(&self, head: Option<usize>) -> Result<Option<String>, AllocError> {
        match head_uri(&self.documents, head) {
            Some(uri) => Ok(Some(String::from_str(self.rt.alloc(), uri)?)),
            None => Ok(None),
        }
    }

    // Tells what is wrong with these texts, and keeps what is known of them: whether they give a plan.
    fn tell(
        &mut self,
        given: Given,
        head: Option<String>,
        before: Option<Known>,
        answers: &mut Answers,
    ) -> Result<bool, AllocError> {
        let known = Known::of(self.rt, given, head, before)?;
        publish(self.rt.alloc(), answers, &known, self.units)?;
        let is_plan = known.is_plan();
        push(&mut self.known, known)?;
        Ok(is_plan)
    }

    fn before_of(&self, head: Option<usize>, is_plan: bool) -> Result<Before, AllocError> {
        match (head, head_uri(&self.documents, head)) {
            (_, Some(uri)) => Ok(Before::Document(String::from_str(self.rt.alloc(), uri)?)),
            (None, None) if is_plan => Ok(Before::Nothing),
            _ => Ok(Before::Unknown),
        }
    }

    fn given_by(
        &self,
        heads: &[usize],
        head: Option<usize>,
        tells_further: bool,
    ) -> Result<Given, AllocError> {
        let further = self.further.as_slice();
        given_by(
            self.rt,
            &self.documents,
            heads,
            head,
            further,
            tells_further,
        )
    }

    // ---- what is asked

    /// The edits that lay a document out, as JSON.
    ///
    /// # Errors
    ///
    /// Where an allocation fails.
    pub(crate) fn layout_of(&self, uri: &str) -> Result<String, AllocError> {
        let alloc = self.rt.alloc();
        match self.documents.find(uri) {
            Some(document) => edits_of(alloc, document, self.units),
            None => String::from_str(alloc, NULL),
        }
    }

    /// What is answered to a question that is asked of a place of a document.
    ///
    /// # Errors
    ///
    /// Where an allocation fails.
    pub(crate) fn answer_to(
        &mut self,
        question: Question<'_>,
        uri: &str,
        position: Position,
    ) -> Result<Told, AllocError> {
        let at = match self.known_at(uri) {
            Some(at) => at,
            None => self.know_alone(uri)?,
        };
        self.prepare(question, at)?;
        let alloc = self.rt.alloc();
        match (self.documents.find(uri), self.known.get(at)) {
            (Some(document), Some(known)) => {
                let lines = Lines::of(alloc, document.text.as_bytes(), self.units)?;
                let offset = lines.offset(position);
                told_in(
                    self.rt,
                    question,
                    known,
                    self.known.as_slice(),
                    document,
                    offset,
                    self.units,
                )
            }
            _ => Ok(Told::Answer(String::from_str(alloc, NULL)?)),
        }
    }

    // Finds out what only this question asks for.
    fn prepare(&mut self, question: Question<'_>, at: usize) -> Result<(), AllocError> {
        let rt = self.rt;
        let Some(known) = self.known.get_mut(at) else {
            return Ok(());
        };
        match question {
            Question::Hover => known.put_in_order(rt.alloc()),
            Question::Actions { .. } => known.seek_offers(rt),
            _ => Ok(()),
        }
    }

    // The plan that a document belongs to: it is the first text of it, or another one that is told of there, or anywhere.
    fn known_at(&self, uri: &str) -> Option<usize> {
        let known = self.known.as_slice();
        let own = known
            .iter()
            .position(|one| one.begins_with(uri) && one.has(uri));
        let told = known.iter().position(|one| one.tells(uri));
        let any = known.iter().position(|one| one.has(uri));
        own.or(told).or(any)
    }

    // What is known of a document that no plan has now, as where the head that named it cannot be read.
    fn know_alone(&mut self, uri: &str) -> Result<usize, AllocError> {
        let at = self.known.len();
        if let Some(document) = self.documents.find(uri) {
            let given = given_alone(self.rt.alloc(), document)?;
            let known = Known::of(self.rt, given, None, None)?;
            push(&mut self.known, known)?;
        }
        Ok(at)
    }
}

fn push<T: Drop>(all: &mut Vec<T>, one: T) -> Result<(), AllocError> {
    match all.push(one) {
        Ok(()) => Ok(()),
        Err(_) => Err(AllocError),
    }
}

fn has(uris: &[String], uri: &str) -> bool {
    uris.iter().any(|one| one.as_str() == uri)
}

// What is known of the plan that begins with this document, which is taken out.
fn take_with(known: &mut Vec<Known>, head: Option<&str>) -> Option<Known> {
    let found = match head {
        Some(uri) => known.iter().position(|one| one.begins_with(uri)),
        None => known.iter().position(|one| one.head.is_none()),
    };
    match found {
        Some(at) if at < known.len() => Some(known.remove(at)),
        _ => None,
    }
}

fn text_of(uri: &Option<String>) -> Option<&str> {
    match uri {
        Some(uri) => Some(uri.as_str()),
        None => None,
    }
}

// The URI of the document of this number.
fn head_uri(documents: &Documents, head: Option<usize>) -> Option<&str> {
    let document = documents.all().get(head?)?;
    Some(document.uri.as_str())
}

// The edits that lay a document out.
fn edits_of(alloc: Global, document: &Document, units: Units) -> Result<String, AllocError> {
    let old = document.text.as_bytes();
    match laid_out(alloc, old)? {
        Some(new) => edits_to(alloc, old, new.as_slice(), units),
        None => String::from_str(alloc, "[]"),
    }
}

fn edits_to(alloc: Global, old: &[u8], new: &[u8], units: Units) -> Result<String, AllocError> {
    match str::from_utf8(new) {
        Ok(new) => json(alloc, &[edit_of(alloc, old, new, units)?]),
        Err(_) => String::from_str(alloc, "[]"),
    }
}
