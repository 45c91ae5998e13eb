// What the body of a frame asks for: JSON-RPC 2.0.

use serde_json::Value;

/// Why nothing is done: an error of the protocol.
#[derive(Clone, Copy, PartialEq, Eq)]
pub(crate) struct Fault {
    pub(crate) code: i64,
    pub(crate) words: &'static str,
}

/// The body is no JSON.
pub(crate) const NO_JSON: Fault = Fault {
    code: -32700,
    words: "the body is no JSON",
};

/// The head of the frame has no length.
pub(crate) const NO_LENGTH: Fault = Fault {
    code: -32700,
    words: "the head has no Content-Length",
};

/// The body of the frame is too long.
pub(crate) const TOO_LONG: Fault = Fault {
    code: -32600,
    words: "the body is longer than 16777216 bytes",
};

/// The body is JSON, and no request.
pub(crate) const NO_REQUEST: Fault = Fault {
    code: -32600,
    words: "this is no request",
};

/// Something was asked for after the end.
pub(crate) const SHUT_DOWN: Fault = Fault {
    code: -32600,
    words: "the server was shut down",
};

/// The server was begun once more.
pub(crate) const BEGUN: Fault = Fault {
    code: -32600,
    words: "the server was initialized before",
};

/// Nothing has this name.
pub(crate) const UNKNOWN: Fault = Fault {
    code: -32601,
    words: "there is no such method",
};

/// What the method needs is not there.
pub(crate) const BAD_PARAMS: Fault = Fault {
    code: -32602,
    words: "these are not the parameters of the method",
};

/// What was asked for cannot be done, for a reason that is told.
pub(crate) const REFUSED: i64 = -32803;

/// Something was asked for before the begin.
pub(crate) const NOT_BEGUN: Fault = Fault {
    code: -32002,
    words: "the server was not initialized",
};

/// A method, and what it is called with.
#[derive(Clone, Copy)]
pub(crate) struct Call<'a> {
    pub(crate) method: &'a str,
    pub(crate) params: Option<&'a Value>,
}

/// What a body is.
#[derive(Clone, Copy)]
pub(crate) enum Message<'a> {
    /// Wants an answer, by this number or text.
    Request(&'a Value, Call<'a>),
    /// Wants none.
    Notification(Call<'a>),
    /// The answer of the client to something.
    Response,
    /// None of these. What it wants to be answered by, where it says so.
    Wrong(Option<&'a Value>),
}

/// What this body is. An array of several is none.
pub(crate) fn message_of(body: &Value) -> Message<'_> {
    if !body.is_object() {
        return Message::Wrong(None);
    }
    let id = body.get("id");
    let known = match id {
        Some(id) if is_id(id) => Some(id),
        _ => None,
    };
    if text_in(body, "jsonrpc") != Some("2.0") || (id.is_some() && known.is_none()) {
        return wrong_or_response(body, known);
    }
    let Some(method) = text_in(body, "method") else {
        return wrong_or_response(body, known);
    };
    let call = Call {
        method,
        params: body.get("params"),
    };
    match known {
        Some(id) => Message::Request(id, call),
        None => Message::Notification(call),
    }
}

// A body without a method that can be called is the answer of a client, or nothing. (An error may have the id null.)
fn wrong_or_response<'a>(body: &'a Value, id: Option<&'a Value>) -> Message<'a> {
    let has_method = body.get("method").is_some();
    let has_answer = body.get("result").is_some() || body.get("error").is_some();
    if has_answer && !has_method {
        Message::Response
    } else {
        Message::Wrong(id)
    }
}

fn is_id(id: &Value) -> bool {
    id.is_string() || id.is_number()
}

/// The text that this member is, where it is one.
pub(crate) fn text_in<'a>(object: &'a Value, name: &str) -> Option<&'a str> {
    object.get(name)?.as_str()
}

/// The number that this member is, where it is one.
pub(crate) fn number_in(object: &Value, name: &str) -> Option<u64> {
    object.get(name)?.as_u64()
}
