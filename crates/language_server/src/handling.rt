// What is done for each message of a client.

use crate::answers::Answers;
use crate::changes::{position_in, range_in};
use crate::questions::{Question, Told};
use crate::rpc::{
    BAD_PARAMS, BEGUN, Call, Fault, Message, NO_JSON, NO_REQUEST, NOT_BEGUN, REFUSED, SHUT_DOWN,
    UNKNOWN, message_of, text_in,
};
use crate::workspace::Workspace;
use editor_texts::{Further, Position, Units};
use run_parts::Status;
use serde_json::Value;
use std::alloc::{AllocError, Global};
use std::rt::Files;
use std::thread::Threads;

/// A server: what is open, and how far it is.
#[derive(Drop)]
pub(crate) struct Server<'a, R> {
    alloc: Global,
    workspace: Workspace<'a, R>,
    phase: Phase,
    // whether files can be watched where the client is asked for that
    watches: bool,
}

#[derive(Clone, Copy, PartialEq, Eq)]
enum Phase {
    New,
    Ready,
    Shut,
}

// What the client may ask for, after what it counts in a line.
const CAPABILITIES: &str =
    "\",\"textDocumentSync\":{\"openClose\":true,\"change\":2,\"save\":true},\
\"hoverProvider\":true,\"definitionProvider\":true,\"referencesProvider\":true,\
\"documentHighlightProvider\":true,\"renameProvider\":{\"prepareProvider\":true},\
\"completionProvider\":{\"triggerCharacters\":[\"/\",\"\\\"\"]},\"documentSymbolProvider\":true,\
\"codeActionProvider\":{\"codeActionKinds\":[\"quickfix\"]},\
\"foldingRangeProvider\":true,\"codeLensProvider\":{},\"inlayHintProvider\":true,\
\"documentFormattingProvider\":true";

const ASKED: &str =
    ",\"diagnosticProvider\":{\"interFileDependencies\":true,\"workspaceDiagnostics\":false}";

const SERVER: &str = "},\"serverInfo\":{\"name\":\"twire\"}}";

// What the client is asked for: to say when a brief or a plan changes.
const WATCH: &str = "client/registerCapability";

const WATCHED: &str =
    "{\"registrations\":[{\"id\":\"files\",\"method\":\"workspace/didChangeWatchedFiles\",\
\"registerOptions\":{\"watchers\":[{\"globPattern\":\"**/*.brief\"},{\"globPattern\":\"**/*.plan\"}]}}]}";

const NULL: &str = "null";

impl<'a, R: Files + AllocGlobal + Threads + Sync> Server<'a, R> {
    /// Nothing is open, and plans have these further files.
    pub(crate) fn new(rt: &'a R, further: Vec<Further>) -> Server<'a, R> {
        Server {
            alloc: rt.alloc(),
            workspace: Workspace::new(rt, further),
            phase: Phase::New,
            watches: false,
        }
    }

    /// Does what a body asks for. The status with which the program ends, where it is to end.
    ///
    /// # Errors
    ///
    /// Where an allocation fails.
    pub(crate) fn take(
        &mut self,
        body: &[u8],
        answers: &mut Answers,
    ) -> Result<Option<Status>, AllocError> {
        match Value::from_slice(self.alloc, body) {
            Ok(body) => self.take_value(&body, answers),
            Err(error) if error.is_memory() => Err(AllocError),
            Err(_) => {
                answers.error(None, NO_JSON);
                Ok(None)
            }
        }
    }

    fn take_value(
        &mut self,
        body: &Value,
        answers: &mut Answers,
    ) -> Result<Option<Status>, AllocError> {
        match message_of(body) {
            Message::Request(id, call) => {
                if let Some(fault) = self.answer(id, call, answers)? {
                    answers.error(Some(id), fault);
                }
                Ok(None)
            }
            Message::Notification(call) => self.note(call, answers),
            Message::Response => Ok(None),
            Message::Wrong(id) => {
                answers.error(id, NO_REQUEST);
                Ok(None)
            }
        }
    }

    // Answers a request, or says why it cannot be answered.
    fn answer(
        &mut self,
        id: &Value,
        call: Call<'_>,
        answers: &mut Answers,
    ) -> Result<Option<Fault>, AllocError> {
        match (self.phase, call.method) {
            (Phase::New, "initialize") => {
                self.begin(id, call.params, answers)?;
                Ok(None)
            }
            (Phase::New, _) => Ok(Some(NOT_BEGUN)),
            (Phase::Shut, _) => Ok(Some(SHUT_DOWN)),
            (Phase::Ready, "initialize") => Ok(Some(BEGUN)),
            (Phase::Ready, "shutdown") => {
                self.phase = Phase::Shut;
                answers.made(id, String::from_str(self.alloc, NULL));
                Ok(None)
            }
            (Phase::Ready, "textDocument/formatting") => self.format(id, call, answers),
            (Phase::Ready, method) => match question_of(method, call.params) {
                Some(Some(question)) => self.tell(question, id, call, answers),
                Some(None) => Ok(Some(BAD_PARAMS)),
                None => Ok(Some(UNKNOWN)),
            },
        }
    }

    // Begins, with what the client says of itself.
    fn begin(
        &mut self,
        id: &Value,
        params: Option<&Value>,
        answers: &mut Answers,
    ) -> Result<(), AllocError> {
        self.phase = Phase::Ready;
        let units = units_in(params);
        self.workspace.count_in(units);
        for root in roots_in(params) {
            if let Some(uri) = text_in(root, "uri") {
                self.workspace.add_root(uri)?;
            }
        }
        if let (true, Some(uri)) = (roots_in(params).is_empty(), root_in(params)) {
            self.workspace.add_root(uri)?;
        }
        self.watches = may_watch(params);
        answers.made(id, capabilities(self.alloc, units, is_told(params)));
        Ok(())
    }

    // Takes notice of something. What is not known is left out.
    fn note(
        &mut self,
        call: Call<'_>,
        answers: &mut Answers,
    ) -> Result<Option<Status>, AllocError> {
        match (self.phase, call.method) {
            (Phase::Shut, "exit") => return Ok(Some(Status::Good)),
            (_, "exit") => return Ok(Some(Status::Bad)),
            (Phase::Ready, "initialized") if self.watches => answers.request(WATCH, WATCHED),
            (Phase::Ready, "textDocument/didOpen") => {
                if let Some((uri, text)) = opened_in(call.params) {
                    self.workspace.open(uri, text, answers)?;
                }
            }
            (Phase::Ready, "textDocument/didChange") => {
                if let Some((uri, changes)) = changes_in(call.params) {
                    self.workspace.change(uri, changes, answers)?;
                }
            }
            (Phase::Ready, "textDocument/didClose") => {
                if let Some(uri) = document_in(call.params) {
                    self.workspace.close(uri, answers)?;
                }
            }
            (Phase::Ready, "textDocument/didSave" | "workspace/didChangeWatchedFiles") => {
                self.workspace.look_again(answers)?;
            }
            _ => {}
        }
        Ok(None)
    }

    fn format(
        &self,
        id: &Value,
        call: Call<'_>,
        answers: &mut Answers,
    ) -> Result<Option<Fault>, AllocError> {
        let Some(uri) = document_in(call.params) else {
            return Ok(Some(BAD_PARAMS));
        };
        answers.made(id, self.workspace.layout_of(uri));
        Ok(None)
    }

    // Answers what is asked of a document, or of a place of it.
    fn tell(
        &mut self,
        question: Question<'_>,
        id: &Value,
        call: Call<'_>,
        answers: &mut Answers,
    ) -> Result<Option<Fault>, AllocError> {
        let Some((uri, position)) = asked_in(question, call.params) else {
            return Ok(Some(BAD_PARAMS));
        };
        match self.workspace.answer_to(question, uri, position)? {
            Told::Answer(answer) => answers.made(id, Ok(answer)),
            Told::Refusal(why) => answers.refusal(id, REFUSED, why.as_str()),
        }
        Ok(None)
    }
}

// A client that cannot be told what is wrong may ask for it.
fn capabilities(alloc: Global, units: Units, is_told: bool) -> Result<String, AllocError> {
    let mut text = String::from_str(alloc, "{\"capabilities\":{\"positionEncoding\":\"")?;
    text.push_str(match units {
        Units::Utf8 => "utf-8",
        Units::Utf16 => "utf-16",
    })?;
    text.push_str(CAPABILITIES)?;
    text.push_str(if is_told { "" } else { ASKED })?;
    text.push_str(SERVER)?;
    Ok(text)
}

// ---- what messages have in them

// The document that is spoken of.
fn document_in(params: Option<&Value>) -> Option<&str> {
    text_in(params?.get("textDocument")?, "uri")
}

fn opened_in(params: Option<&Value>) -> Option<(&str, &str)> {
    let text = text_in(params?.get("textDocument")?, "text")?;
    Some((document_in(params)?, text))
}

// The changes of a document.
fn changes_in(params: Option<&Value>) -> Option<(&str, &[Value])> {
    let changes = params?.get("contentChanges")?.as_array()?;
    Some((document_in(params)?, changes))
}

// What the client counts in a line: bytes, where it can.
fn units_in(params: Option<&Value>) -> Units {
    match encodings_in(params) {
        Some(encodings) if encodings.iter().any(|one| one.as_str() == Some("utf-8")) => Units::Utf8,
        _ => Units::Utf16,
    }
}

fn encodings_in(params: Option<&Value>) -> Option<&[Value]> {
    let general = params?.get("capabilities")?.get("general")?;
    Some(general.get("positionEncodings")?.as_array()?)
}

// The folders in which the client works.
fn roots_in(params: Option<&Value>) -> &[Value] {
    folders_in(params).unwrap_or(&[])
}

fn folders_in(params: Option<&Value>) -> Option<&[Value]> {
    Some(params?.get("workspaceFolders")?.as_array()?)
}

// The one folder of a client that has no list of them.
fn root_in(params: Option<&Value>) -> Option<&str> {
    text_in(params?, "rootUri")
}

// Whether a client can be asked to watch files.
fn may_watch(params: Option<&Value>) -> bool {
    registered_in(params, "workspace", "didChangeWatchedFiles") == Some(true)
}

fn registered_in(params: Option<&Value>, of: &str, what: &str) -> Option<bool> {
    let capabilities = params?.get("capabilities")?;
    capabilities
        .get(of)?
        .get(what)?
        .get("dynamicRegistration")?
        .as_bool()
}

// Whether a client can be told what is wrong: one that says nothing of that, and cannot ask for it, is taken to.
fn is_told(params: Option<&Value>) -> bool {
    match documents_in(params) {
        Some(documents) => {
            documents.get("publishDiagnostics").is_some() || documents.get("diagnostic").is_none()
        }
        None => true,
    }
}

fn documents_in(params: Option<&Value>) -> Option<&Value> {
    params?.get("capabilities")?.get("textDocument")
}

// What a request asks for: nothing that is known, or something without what it needs.
fn question_of<'a>(method: &str, params: Option<&'a Value>) -> Option<Option<Question<'a>>> {
    Some(match method {
        "textDocument/hover" => Some(Question::Hover),
        "textDocument/definition" => Some(Question::Definition),
        "textDocument/references" => references_in(params),
        "textDocument/documentHighlight" => Some(Question::Highlights),
        "textDocument/prepareRename" => Some(Question::Renaming),
        "textDocument/rename" => rename_in(params),
        "textDocument/completion" => Some(Question::Completions),
        "textDocument/documentSymbol" => Some(Question::Symbols),
        "textDocument/foldingRange" => Some(Question::Folds),
        "textDocument/codeLens" => Some(Question::Lenses),
        "textDocument/codeAction" => actions_asked(params),
        "textDocument/diagnostic" => Some(Question::Wrong),
        "textDocument/inlayHint" => inlays_asked(params),
        _ => return None,
    })
}

fn references_in(params: Option<&Value>) -> Option<Question<'_>> {
    let context = params?.get("context")?;
    let with_given = context.get("includeDeclaration")?.as_bool()?;
    Some(Question::References { with_given })
}

fn rename_in(params: Option<&Value>) -> Option<Question<'_>> {
    Some(Question::Rename(text_in(params?, "newName")?))
}

fn inlays_asked(params: Option<&Value>) -> Option<Question<'_>> {
    let (_, until) = range_in(params?.get("range")?)?;
    Some(Question::Inlays { until })
}

fn actions_asked(params: Option<&Value>) -> Option<Question<'_>> {
    let (_, until) = range_in(params?.get("range")?)?;
    Some(Question::Actions { until })
}

// The document, and the place of it, that is asked of. A question of a whole document has none.
fn asked_in<'a>(question: Question<'_>, params: Option<&'a Value>) -> Option<(&'a str, Position)> {
    let position = match question {
        Question::Symbols | Question::Folds | Question::Lenses | Question::Wrong => Position {
            line: 0,
            character: 0,
        },
        Question::Inlays { .. } | Question::Actions { .. } => range_in(params?.get("range")?)?.0,
        _ => position_in(params?.get("position")?)?,
    };
    Some((document_in(params)?, position))
}
