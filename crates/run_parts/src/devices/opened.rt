// A reader of one of two kinds.

ghost use Rattle.run_parts.specs.OpenedReaders.{opened_reader};

use super::traits::Input;
use std::io;

/// What a path of the command line names.
#[derive(Drop)]
pub enum Opened<F, S> {
    /// A file.
    File(F),
    /// Standard input.
    Standard(S),
}

impl<F: Input, S: Input> Input for Opened<F, S> {
    ghost reader = { opened_reader F.reader S.reader };

    fn read(&mut self, buf: &mut [u8]) -> io::Result<usize> {
        match self {
            Opened::File(file) => file.read(buf),
            Opened::Standard(input) => input.read(buf),
        }
    }

    fn failed(&self) -> bool {
        match self {
            Opened::File(file) => file.failed(),
            Opened::Standard(input) => input.failed(),
        }
    }
}
