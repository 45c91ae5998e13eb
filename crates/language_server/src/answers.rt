// What is said to a client: frames, which are gathered and then written at once.

use crate::rpc::Fault;
use editor_texts::json;
use growing_text::Text;
use serde::Serialize;
use serde_json::Value;
use std::alloc::{AllocError, Global};

/// Frames that were not written yet.
#[derive(Drop)]
pub(crate) struct Answers {
    alloc: Global,
    text: Text,
}

#[derive(Clone, Copy, Serialize)]
struct Wrong<'a> {
    code: i64,
    message: &'a str,
}

impl Answers {
    /// None.
    pub(crate) fn new(alloc: Global) -> Answers {
        Answers {
            alloc,
            text: Text::new(alloc),
        }
    }

    /// What a request is answered by, as JSON.
    pub(crate) fn made(&mut self, id: &Value, answer: Result<String, AllocError>) {
        let mut body = Text::new(self.alloc);
        body.push("{\"jsonrpc\":\"2.0\",\"id\":");
        body.push_made(id.to_string(self.alloc));
        body.push(",\"result\":");
        body.push_made(answer);
        body.push("}");
        self.frame(body.finish());
    }

    /// An error, in answer to a request, or to what is none.
    pub(crate) fn error(&mut self, id: Option<&Value>, fault: Fault) {
        let mut body = Text::new(self.alloc);
        body.push("{\"jsonrpc\":\"2.0\",\"id\":");
        match id {
            Some(id) => body.push_made(id.to_string(self.alloc)),
            None => body.push("null"),
        }
        body.push(",\"error\":");
        let wrong = Wrong {
            code: fault.code,
            message: fault.words,
        };
        body.push_made(json(self.alloc, &wrong));
        body.push("}");
        self.frame(body.finish());
    }

    /// An error in answer to a request, by its number and in these words.
    pub(crate) fn refusal(&mut self, id: &Value, code: i64, message: &str) {
        let mut body = Text::new(self.alloc);
        body.push("{\"jsonrpc\":\"2.0\",\"id\":");
        body.push_made(id.to_string(self.alloc));
        body.push(",\"error\":");
        body.push_made(json(self.alloc, &Wrong { code, message }));
        body.push("}");
        self.frame(body.finish());
    }

    /// Something of which no answer is wanted.
    pub(crate) fn notify(&mut self, method: &'static str, params: Result<String, AllocError>) {
        let mut body = Text::new(self.alloc);
        body.push("{\"jsonrpc\":\"2.0\",\"method\":\"");
        body.push(method);
        body.push("\",\"params\":");
        body.push_made(params);
        body.push("}");
        self.frame(body.finish());
    }

    /// Something that the client is asked for. Its answer is not waited for.
    pub(crate) fn request(&mut self, method: &'static str, params: &'static str) {
        let mut body = Text::new(self.alloc);
        body.push("{\"jsonrpc\":\"2.0\",\"id\":\"");
        body.push(method);
        body.push("\",\"method\":\"");
        body.push(method);
        body.push("\",\"params\":");
        body.push(params);
        body.push("}");
        self.frame(body.finish());
    }

    /// There was no memory for what would be said.
    pub(crate) fn cut(&mut self) {
        self.text.cut();
    }

    // A frame with this body.
    fn frame(&mut self, body: Result<String, AllocError>) {
        match body {
            Ok(body) => {
                self.text.push("Content-Length: ");
                self.text.push_number(body.len() as u64);
                self.text.push("\r\n\r\n");
                self.text.push(body.as_str());
            }
            Err(_) => self.text.cut(),
        }
    }

    /// All frames, and none are left.
    pub(crate) fn finish(self) -> Result<String, AllocError> {
        self.text.finish()
    }
}
