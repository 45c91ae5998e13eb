// What opens files, and which file is which.

ghost use Rattle.std.specs.Prelude.{◌≡◌};
ghost use Rattle.board_files.specs.Files.{Files, is_same_file, is_known};
ghost use Rattle.board_files.specs.Given.{bytes_given};

use run_parts::RunError;

/// Which file it is, as the system numbers it: its device, and its number there.
#[derive(Clone, Copy)]
pub struct FileId {
    pub device: u64,
    pub inode: u64,
}

/// What opens the files that heads name.
pub trait Opener {
    ghost files: { Files Self };

    /// Opens the file of this path, and says which file it is.
    ///
    /// # Errors
    ///
    /// Those of opening it.
    fn open(&mut self, path: &[u8]) -> Result<FileId, RunError>
        ensures { files.opens self.old path.now result self.new };

    /// All bytes of the file that was opened last.
    ///
    /// # Errors
    ///
    /// Those of reading it.
    fn give(&mut self) -> Result<Vec<u8>, RunError>
        ensures { files.gives self.old (bytes_given result) self.new };
}

/// Whether it is one of these files.
pub(crate) fn is_known(id: FileId, known: &[FileId]) -> bool
    ensures { result ≡ is_known id known.now }
{
    known
        .iter()
        .any(|one| id.device == one.device && id.inode == one.inode)
}
