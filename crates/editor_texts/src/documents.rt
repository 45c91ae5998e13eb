// The texts that are open in the editor.

use crate::uris::path_of;
use std::alloc::{AllocError, Global};

/// A text that is open.
pub struct Document {
    pub uri: String,
    /// The path of its file, where it has one.
    pub path: Option<String>,
    pub text: String,
}

// Written out, so that one call lets it go.
impl Drop for Document {
    fn drop(self) {
        let Self {
            uri: _,
            path: _,
            text: _,
        } = self;
    }
}

impl Document {
    /// Whether its file has this path.
    pub fn is_at(&self, path: &str) -> bool {
        match &self.path {
            Some(own) => own.as_str() == path,
            None => false,
        }
    }
}

/// All of them, in the order in which they were opened.
#[derive(Drop)]
pub struct Documents {
    alloc: Global,
    open: Vec<Document>,
}

impl Documents {
    /// None.
    pub fn new(alloc: Global) -> Documents {
        Documents {
            alloc,
            open: Vec::new(alloc),
        }
    }

    /// All of them.
    pub fn all(&self) -> &[Document] {
        self.open.as_slice()
    }

    /// The one with this name.
    pub fn find(&self, uri: &str) -> Option<&Document> {
        self.open.iter().find(|one| one.uri.as_str() == uri)
    }

    /// The number of the one with this name.
    pub fn number_of(&self, uri: &str) -> Option<usize> {
        self.open.iter().position(|one| one.uri.as_str() == uri)
    }

    /// The number of the one whose file has this path.
    pub fn number_at(&self, path: &str) -> Option<usize> {
        self.open.iter().position(|one| one.is_at(path))
    }

    /// A further one. Where it is open it has this text from now on.
    ///
    /// # Errors
    ///
    /// Where an allocation fails.
    pub fn open(&mut self, uri: &str, text: &str) -> Result<(), AllocError> {
        self.close(uri);
        let alloc = self.alloc;
        let document = Document {
            uri: String::from_str(alloc, uri)?,
            path: path_of(alloc, uri)?,
            text: String::from_str(alloc, text)?,
        };
        match self.open.push(document) {
            Ok(()) => Ok(()),
            Err(_) => Err(AllocError),
        }
    }

    /// An open one has another text. Whether it is open.
    ///
    /// # Errors
    ///
    /// Where an allocation fails.
    pub fn change(&mut self, uri: &str, text: String) -> Result<bool, AllocError> {
        for one in self.open.iter_mut() {
            if one.uri.as_str() == uri {
                one.text = text;
                return Ok(true);
            }
        }
        Ok(false)
    }

    /// One is not open any more. Whether it was.
    pub fn close(&mut self, uri: &str) -> bool {
        match self.number_of(uri) {
            Some(at) if at < self.open.len() => {
                let _closed = self.open.remove(at);
                true
            }
            _ => false,
        }
    }
}
