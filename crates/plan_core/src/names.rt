// The names of messages, controllers and interrupts.

ghost use Rattle.std.specs.Prelude.{◌≡◌, ◌↔◌, false, string_bytes, IsErrOf, IfOk};
ghost use Rattle.std.specs.List.{list_all};
ghost use Rattle.plan_core.specs.Names.{IsName, is_name, is_name_byte, is_reserved, begins_with_letter};

use std::alloc::Global;
use thiserror::Error;

/// A name in a plan: an ASCII letter, then ASCII letters, digits and `_`, 1 to 32 bytes in all, and none of the words
/// that the plan's text keeps for itself: `plan`, `message`, `controller`, `interrupt`, `write`, `read`, `again`,
/// `else`, `stop` and `never`.
#[derive(PartialEq, Eq, Hash, Drop)]
pub struct Name {
    text: String,
    pub ghost is_name: { IsName (string_bytes text) },
}

/// Why a text was not taken as a name.
#[derive(Clone, Copy, PartialEq, Eq, Debug, Drop, Error)]
pub enum NameError {
    /// The text has not the form of a name.
    #[error("not a name")]
    BadName,
    /// There is no memory for the name.
    #[error("out of memory")]
    NoMemory,
}

impl Name {
    ghost use Rattle.plan_core.specs.NameBytes.{name_bytes};

    /// The name that `text` spells. `NameError::BadName` is answered exactly where `text` has not the form of a name,
    /// and before memory is asked for.
    pub fn new(alloc: Global, text: &str) -> Result<Name, NameError>
        ensures name { IfOk result (λ name. name_bytes name ≡ text.now) }
        ensures bad_name { IsErrOf result NameError.BadName ↔ (is_name text.now ≡ false) }
    {
        if !is_name(text) {
            return Err(NameError::BadName);
        }
        match String::from_str(alloc, text) {
            Ok(text) => Ok(Name { text }),
            Err(_) => Err(NameError::NoMemory),
        }
    }

    /// The name's text.
    pub fn as_str(&self) -> &str
        ensures { result.now ≡ name_bytes self.now }
    {
        self.text.as_str()
    }
}

// Whether the text has the form of a name.
#[tactic(auto, unfolding(crate::specs::Names::is_name))]
fn is_name(text: &str) -> bool
    ensures { result ≡ is_name text.now }
{
    let bytes = text.as_bytes();
    begins_with_letter(bytes) && is_word(bytes) && bytes.len() <= 32 && !is_reserved(text)
}

fn is_word(bytes: &[u8]) -> bool
    ensures { result ≡ list_all is_name_byte bytes.now }
{
    bytes.iter().all(|byte| is_name_byte(*byte))
}

fn begins_with_letter(bytes: &[u8]) -> bool
    ensures { result ≡ begins_with_letter bytes.now }
{
    match bytes.first() {
        Some(byte) => byte.is_ascii_alphabetic(),
        None => false,
    }
}

fn is_name_byte(byte: u8) -> bool
    ensures { result ≡ is_name_byte byte }
{
    byte.is_ascii_alphanumeric() || byte == b'_'
}

fn is_reserved(text: &str) -> bool
    ensures { result ≡ is_reserved text.now }
{
    matches!(
        text,
        "plan"
            | "message"
            | "controller"
            | "interrupt"
            | "write"
            | "read"
            | "again"
            | "else"
            | "stop"
            | "never"
    )
}
