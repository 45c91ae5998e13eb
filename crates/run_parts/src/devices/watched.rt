// A device that remembers whether it failed.

ghost use Rattle.std.specs.Prelude.{◌≡◌, ◌≢◌, ◌↔◌, false, IsTrue, IfErr, is_err, length};
ghost use Rattle.std.specs.Io.{ReadsAtMost, WritesAtMost};
ghost use Rattle.std.specs.Io.KnownBytes.{ReadConsumes, WriteAppends};
ghost use Rattle.std.specs.IoError.{error_kind};
ghost use Rattle.run_parts.specs.Devices.{given, taken};
ghost use Rattle.run_parts.specs.WatchedDevices.{watched_reader, watched_writer};

use super::traits::{Input, Output};
use std::io;
use std::io::{Error, ErrorKind, Read, Write};

/// How often one read or write is made where a signal interrupts it each time. Then it is given up.
pub const TURNS: u32 = 1_000_000;

/// A reader or writer that remembers whether its last read or write answered an error. A call that a signal interrupted
/// has read or written nothing: as in std's own loops, it is made again, and is no error.
#[derive(Drop)]
pub struct Watched<D> {
    device: D,
    failed: bool,
}

impl<D> Watched<D> {
    /// The device, which has not failed yet.
    pub fn new(device: D) -> Self
        ensures device { result.device ≡ device }
        ensures sound { result.failed ≡ false }
    {
        Watched {
            device,
            failed: false,
        }
    }

    /// The device.
    pub fn into_inner(self) -> D
        ensures { result ≡ self.device }
    {
        self.device
    }
}

impl<R: Read> Input for Watched<R> {
    ghost reader = { watched_reader R.remaining };

    fn read(&mut self, buf: &mut [u8]) -> io::Result<usize>
        ensures bound { ReadsAtMost result buf.new }
        ensures bytes { ReadConsumes ((watched_reader R.remaining).remaining self.old) ((watched_reader R.remaining).remaining self.new) result buf.new }
        ensures call { (watched_reader R.remaining).gives self.old (length buf.new) (given result buf.new) self.new }
        ensures failed { (watched_reader R.remaining).has_failed self.new ≡ is_err result }
        ensures through { IfErr result (λ error. error_kind error ≢ ErrorKind.Interrupted) }
    {
        let count = read_through(&mut self.device, buf);
        self.failed = count.is_err();
        count
    }

    fn failed(&self) -> bool {
        self.failed
    }
}

impl<W: Write> Output for Watched<W> {
    ghost writer = { watched_writer W.contents };

    fn write(&mut self, buf: &[u8]) -> io::Result<usize>
        ensures bound { WritesAtMost result buf.now }
        ensures bytes { WriteAppends ((watched_writer W.contents).contents self.old) ((watched_writer W.contents).contents self.new) result buf.now }
        ensures call { (watched_writer W.contents).takes self.old buf.now (taken result) self.new }
        ensures failed { (watched_writer W.contents).has_failed self.new ≡ is_err result }
        ensures through { IfErr result (λ error. error_kind error ≢ ErrorKind.Interrupted) }
    {
        let written = write_through(&mut self.device, buf);
        self.failed = written.is_err();
        written
    }

    fn failed(&self) -> bool {
        self.failed
    }
}

// One read, whatever interrupts it.
fn read_through<R: Read>(device: &mut R, buf: &mut [u8]) -> io::Result<usize>
    ensures bound { ReadsAtMost result buf.new }
    ensures bytes { ReadConsumes (R.remaining device.old) (R.remaining device.new) result buf.new }
    ensures through { IfErr result (λ error. error_kind error ≢ ErrorKind.Interrupted) }
{
    for _ in 0..TURNS {
        match device.read(buf) {
            Ok(count) => return Ok(count),
            Err(error) if !is_interrupted(&error) => return Err(error),
            Err(_) => {}
        }
    }
    Err(Error::from(ErrorKind::TimedOut))
}

// One write, whatever interrupts it.
fn write_through<W: Write>(device: &mut W, buf: &[u8]) -> io::Result<usize>
    ensures bound { WritesAtMost result buf.now }
    ensures bytes { WriteAppends (W.contents device.old) (W.contents device.new) result buf.now }
    ensures through { IfErr result (λ error. error_kind error ≢ ErrorKind.Interrupted) }
{
    for _ in 0..TURNS {
        match device.write(buf) {
            Ok(count) => return Ok(count),
            Err(error) if !is_interrupted(&error) => return Err(error),
            Err(_) => {}
        }
    }
    Err(Error::from(ErrorKind::TimedOut))
}

// Whether it was a signal that ended the call.
fn is_interrupted(error: &Error) -> bool
    ensures { IsTrue result ↔ error_kind error.now ≡ ErrorKind.Interrupted }
{
    error.kind() == ErrorKind::Interrupted
}
