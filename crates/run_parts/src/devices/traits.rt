// What a run reads from, and what it writes to.

ghost use Rattle.std.specs.Prelude.{◌≡◌, ℕ, length, is_err};
ghost use Rattle.std.specs.Io.{ReadsAtMost, WritesAtMost};
ghost use Rattle.std.specs.Io.KnownBytes.{ReadConsumes, WriteAppends};
ghost use Rattle.run_parts.specs.Devices.{Reader, Writer, given, taken};

use std::io;

/// A reader that says whether it failed.
pub trait Input {
    ghost reader: { Reader Self };

    /// Reads once, as std's `Read::read` does: the first bytes of the buffer are those that were read. Where the buffer
    /// has room, no bytes are the end.
    fn read(&mut self, buf: &mut [u8]) -> io::Result<usize>
        ensures bound { ReadsAtMost result buf.new }
        ensures bytes { ReadConsumes (reader.remaining self.old) (reader.remaining self.new) result buf.new }
        ensures call { reader.gives self.old (length buf.new) (given result buf.new) self.new }
        ensures failed { reader.has_failed self.new ≡ is_err result };

    /// Whether the last read answered an error, of whatever kind.
    fn failed(&self) -> bool
        ensures { result ≡ reader.has_failed self.now };
}

/// A writer that says whether it failed.
pub trait Output {
    ghost writer: { Writer Self };

    /// Writes once, as std's `Write::write` does: it says how many of the first bytes were taken.
    fn write(&mut self, buf: &[u8]) -> io::Result<usize>
        ensures bound { WritesAtMost result buf.now }
        ensures bytes { WriteAppends (writer.contents self.old) (writer.contents self.new) result buf.now }
        ensures call { writer.takes self.old buf.now (taken result) self.new }
        ensures failed { writer.has_failed self.new ≡ is_err result };

    /// Whether the last write answered an error, of whatever kind.
    fn failed(&self) -> bool
        ensures { result ≡ writer.has_failed self.now };
}
