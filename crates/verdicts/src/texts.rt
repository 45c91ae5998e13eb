// The text of a certificate, with each different line held once.

ghost use Rattle.std.specs.Prelude.{◌<◌, All, vec_len};

use std::alloc::{AllocError, Global};

/// The text of a certificate: its head, and then lines. However often a line stands in the text, it is held once.
///
/// The head of proofs is their heading, with a line for each pair after it; of a fault it is the whole text.
#[derive(Drop)]
pub struct CertificateLines {
    pub(crate) head: Vec<u8>,
    pub(crate) distinct: Vec<Vec<u8>>,
    // for each line after the head, where it is among those that differ
    pub(crate) order: Vec<u32>,
    ghost held: { All (λ place. place < vec_len distinct) order.items },
}

impl CertificateLines {
    ghost use Rattle.std.specs.Prelude.{◌≡◌, length, slice_get, Some, IfOk};
    ghost use Rattle.verdicts.specs.Texts.{lines_after_head, text_of};

    /// What the text begins with, before the lines that `line` gives.
    pub fn head(&self) -> &[u8]
        ensures { result.now ≡ self.now.head.items }
    {
        self.head.as_slice()
    }

    /// The number of lines after the head.
    pub fn len(&self) -> usize
        ensures { result ≡ length (lines_after_head self.now) }
    {
        self.order.len()
    }

    /// The `k`th of the lines after the head, with its line feed.
    pub fn line(&self, k: usize) -> &[u8]
        requires { k < length (lines_after_head self.now) }
        ensures { slice_get (lines_after_head self.now) k ≡ Some result.now }
    {
        self.distinct[self.order[k] as usize].as_slice()
    }

    /// The whole text as one.
    pub fn joined(&self, alloc: Global) -> Result<Vec<u8>, AllocError>
        ensures { IfOk result (λ text. text.items ≡ text_of self.now) }
    {
        let mut text = Vec::new(alloc);
        text.extend_from_slice(self.head())?;
        for k in 0..self.len() {
            text.extend_from_slice(self.line(k))?;
        }
        Ok(text)
    }
}
