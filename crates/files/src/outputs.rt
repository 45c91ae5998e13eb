// What a run writes to: standard output, or a file that appears whole or not at all.

ghost use Rattle.std.specs.Io.{WritesAtMost};

use crate::inputs::{FileId, FilesRead, identity_of};
use crate::progress::{Count, Watcher};
use growing_text::Text;
use run_parts::{RunError, Status};
use std::alloc::{AllocError, Global};
use std::fs::{self, Metadata, OpenFile, OpenOptions, Permissions};
use std::io::{self, ErrorKind, Write};
use std::os::unix::fs::{MetadataExt, PermissionsExt, lchown};
use std::path::PathBuf;
use std::rt::Files;
use std::time::Clock;
use std::{mem, str};

// How many names are tried for the file that is written first.
const NAMES: u32 = 1_000;

// How many links are followed to the file that is written, as many as Linux follows.
const LINKS: u32 = 40;

// The bits of a mode by which a program runs as the owner or the group of its file.
const RUNS_AS: u32 = 0o6000;

const STANDARD_OUTPUT: &str = "/dev/stdout";

/// Where a report goes: to standard output, into a path's file, or into the file that was read.
#[derive(Clone, Copy)]
pub enum Form<'a> {
    Plain,
    File(&'a str),
    /// By its path. Nothing else that has this path is written.
    InPlace(&'a str),
}

impl<'a> Form<'a> {
    /// Into this file, or to standard output where none is given. A name of standard output is that stream, so that a file behind it is written from where the stream is.
    pub fn of(output: Option<&'a str>) -> Form<'a> {
        match output {
            None | Some("/dev/stdout" | "/dev/fd/1" | "/proc/self/fd/1") => Form::Plain,
            Some(path) => Form::File(path),
        }
    }

    /// The file that is written, where one is.
    pub fn path(self) -> Option<&'a str> {
        match self {
            Form::File(path) | Form::InPlace(path) => Some(path),
            Form::Plain => None,
        }
    }
}

/// What takes a report. It keeps the last error.
pub struct Sheet<'a, 'i, R: Files> {
    rt: &'a R,
    form: Form<'a>,
    // none of which is written, but where that is the form
    read: FilesRead<'i>,
    target: Target<R::File>,
    error: Option<io::Error>,
    watcher: Watcher,
    // how much of a long text was written, where it is seen neither here nor there
    count: Option<Count>,
}

// Written out, so that one call lets it go.
impl<R: Files> Drop for Sheet<'_, '_, R> {
    fn drop(self) {
        let Self {
            rt: _,
            form: _,
            read: _,
            target: _,
            error: _,
            watcher: _,
            count: _,
        } = self;
    }
}

// What is written. It is not looked for before the first byte.
#[derive(Drop)]
enum Target<F> {
    None,
    Standard,
    // a device or a pipe, which takes the report as it comes
    Direct(F),
    Part(Part<F>),
}

// A new file beside the one whose name it is to get.
#[derive(Drop)]
struct Part<F> {
    file: F,
    name: String,
    path: String,
}

impl<'a, 'i, R: Files + Print + Eprint + Clock + AllocGlobal> Sheet<'a, 'i, R> {
    ghost use Rattle.std.specs.Prelude.{◌≡◌, IfOk, Ok};
    ghost use Rattle.std.specs.Io.{WritesAtMost};

    /// Nothing has been written yet.
    pub fn new(
        rt: &'a R,
        form: Form<'a>,
        read: FilesRead<'i>,
        watcher: Watcher,
    ) -> Sheet<'a, 'i, R> {
        Sheet::telling(rt, form, read, watcher, false)
    }

    /// The same, and of a certificate, which may be long, it is told how much was written, unless it is seen itself.
    pub fn telling(
        rt: &'a R,
        form: Form<'a>,
        read: FilesRead<'i>,
        watcher: Watcher,
        is_certificate: bool,
    ) -> Sheet<'a, 'i, R> {
        Sheet {
            rt,
            form,
            read,
            target: Target::None,
            error: None,
            watcher,
            count: count_of(form, watcher, is_certificate),
        }
    }

    /// Gives the file its name, once the run has ended with its report, and answers how the run ends
    /// by that. After a run that has not, nothing is left of it. A file that was read is not replaced, unless it is to be.
    pub fn settle(&mut self, ended: Result<Status, RunError>) -> Result<Status, RunError>
        ensures { IfOk result (λ status. ended ≡ Ok status) }
    {
        let settled = match self.form {
            Form::File(_) | Form::InPlace(_) => self.settle_file(ended.is_ok()),
            Form::Plain => Ok(()),
        };
        match settled {
            Ok(()) => self.named(ended),
            Err(error) => {
                self.error = Some(error);
                self.named(Err(RunError::Write))
            }
        }
    }

    fn settle_file(&mut self, is_whole: bool) -> io::Result<()> {
        match mem::replace(&mut self.target, Target::None) {
            Target::Part(part) => settle_part(self.rt, &part, self.form, self.read, is_whole),
            _ => Ok(()),
        }
    }

    // Where an allocation failed for a file, that is why the run ended.
    fn named(&self, ended: Result<Status, RunError>) -> Result<Status, RunError>
        ensures { IfOk result (λ status. ended ≡ Ok status) }
    {
        match (self.form, &self.error, ended) {
            (Form::File(_) | Form::InPlace(_), Some(error), Err(RunError::Write))
                if error.kind() == ErrorKind::OutOfMemory => { Err(RunError::NoMemory) }
            _ => ended,
        }
    }

    /// The last error, if there was one.
    pub fn into_error(self) -> Option<io::Error> {
        let Sheet { error, .. } = self;
        error
    }

    // What is written on the terminal stands where the line that tells how far the run is stood.
    fn make_room(&self) {
        if self.watcher.sees_report {
            self.watcher.clear(self.rt);
        }
    }

    fn tell(&mut self, count: usize) {
        if let Some(written) = &mut self.count {
            written.add(self.rt, count);
        }
    }

    fn put(&mut self, buf: &[u8]) -> io::Result<usize>
        ensures bound { WritesAtMost result buf.now }
    {
        if let Target::None = self.target {
            self.target = begin(self.rt, self.form, self.read)?;
        }
        match &mut self.target {
            Target::Direct(file) => file.write(buf),
            Target::Part(part) => part.file.write(buf),
            Target::None | Target::Standard => io::writer(self.rt).write(buf),
        }
    }
}

impl<R: Files + Print + Eprint + Clock + AllocGlobal> Write for Sheet<'_, '_, R> {
    fn write(&mut self, buf: &[u8]) -> io::Result<usize> {
        self.make_room();
        match self.put(buf) {
            Ok(count) => {
                self.tell(count);
                Ok(count)
            }
            Err(error) => {
                let kind = error.kind();
                self.error = Some(error);
                Err(io::Error::from(kind))
            }
        }
    }

    fn flush(&mut self) -> io::Result<()> {
        Ok(())
    }
}

fn count_of(form: Form<'_>, watcher: Watcher, is_certificate: bool) -> Option<Count> {
    match form {
        Form::Plain if watcher.sees_report => None,
        _ if is_certificate => Some(Count::new(watcher, "certificate written", None)),
        _ => None,
    }
}

// Looks for what takes the report: the file that was read where that is the form, and else none of those that are read.
fn begin<R: Files + AllocGlobal>(
    rt: &R,
    form: Form<'_>,
    read: FilesRead<'_>,
) -> io::Result<Target<R::File>> {
    match form {
        Form::File(path) => begin_file(rt, path, read),
        Form::InPlace(path) => begin_in_place(rt, path, read),
        Form::Plain => {
            refuse_read(read, identity_of(fs::metadata(rt, STANDARD_OUTPUT)))?;
            Ok(Target::Standard)
        }
    }
}

fn refuse_read(read: FilesRead<'_>, file: Option<FileId>) -> io::Result<()> {
    if read.has(file) {
        return Err(io::Error::new(ErrorKind::InvalidInput, "it is a file that was read"));
    }
    Ok(())
}

fn refuse_other(read: FilesRead<'_>, file: Option<FileId>) -> io::Result<()> {
    if read.has(file) {
        return Ok(());
    }
    Err(io::Error::new(ErrorKind::InvalidInput, "it is not the file that was read"))
}

// Opens what takes the report of this path: a device or a pipe itself, and else a new file in the folder of the path.
fn begin_file<R: Files + AllocGlobal>(
    rt: &R,
    path: &str,
    read: FilesRead<'_>,
) -> io::Result<Target<R::File>> {
    match OpenOptions::new().write(true).open(rt, path) {
        Ok(old) => begin_over(rt, old, path, read),
        Err(error) if error.kind() == ErrorKind::NotFound => begin_beside(rt, path, None),
        Err(error) => Err(error),
    }
}

// The same where the path has the file that was read. A device or a pipe is none that could be replaced.
fn begin_in_place<R: Files + AllocGlobal>(
    rt: &R,
    path: &str,
    read: FilesRead<'_>,
) -> io::Result<Target<R::File>> {
    // (who opens a pipe for writing waits for one who reads it)
    refuse_no_file(&fs::metadata(rt, path)?)?;
    let metadata = OpenOptions::new().write(true).open(rt, path)?.metadata()?;
    refuse_no_file(&metadata)?;
    let kept = Kept::of(&metadata);
    refuse_other(read, identity_of(Ok(metadata)))?;
    begin_beside(rt, path, Some(kept))
}

fn refuse_no_file(metadata: &Metadata) -> io::Result<()> {
    if metadata.is_file() {
        return Ok(());
    }
    Err(io::Error::new(ErrorKind::InvalidInput, "it is no file"))
}

fn begin_over<R: Files + AllocGlobal>(
    rt: &R,
    old: R::File,
    path: &str,
    read: FilesRead<'_>,
) -> io::Result<Target<R::File>> {
    let metadata = old.metadata()?;
    let (is_file, kept) = (metadata.is_file(), Kept::of(&metadata));
    refuse_read(read, identity_of(Ok(metadata)))?;
    if is_file {
        begin_beside(rt, path, Some(kept))
    } else {
        Ok(Target::Direct(old))
    }
}

// What a new file has of the one in whose place it comes.
#[derive(Clone, Copy)]
struct Kept {
    owner: u32,
    group: u32,
    mode: u32,
}

impl Kept {
    fn of(metadata: &Metadata) -> Kept {
        Kept {
            owner: metadata.uid(),
            group: metadata.gid(),
            mode: metadata.permissions().mode(),
        }
    }

    fn has_owners(self, metadata: &Metadata) -> bool {
        metadata.uid() == self.owner && metadata.gid() == self.group
    }

    // Gives these to a new file, which has this name. Where another owner or group may not be given, it runs as nobody else.
    fn give<R: Files>(self, rt: &R, file: &R::File, name: &str) -> io::Result<()> {
        if !self.has_owners(&file.metadata()?) {
            let _ = lchown(rt, name, None, Some(self.group));
            let _ = lchown(rt, name, Some(self.owner), None);
        }
        let mode = if self.has_owners(&file.metadata()?) {
            self.mode
        } else {
            self.mode & !RUNS_AS
        };
        file.set_permissions(Permissions::from_mode(mode))
    }
}

fn begin_beside<R: Files + AllocGlobal>(
    rt: &R,
    path: &str,
    kept: Option<Kept>,
) -> io::Result<Target<R::File>> {
    let path = followed(rt, path)?;
    let (file, name) = create_beside(rt, path.as_str())?;
    if let Some(kept) = kept {
        if let Err(error) = kept.give(rt, &file, name.as_str()) {
            let _ = fs::remove_file(rt, name.as_str());
            return Err(error);
        }
    }
    Ok(Target::Part(Part { file, name, path }))
}

// Where links from this path lead, also to a file that is not there. Each is read by itself, since the path of a folder need
// not be text.
fn followed<R: Files + AllocGlobal>(rt: &R, path: &str) -> io::Result<String> {
    let mut path = PathBuf::from_str(rt.alloc(), path)?;
    for _ in 0..LINKS {
        match fs::read_link(rt, path.as_str()) {
            Ok(next) => {
                path.pop();
                path.push(next.as_str())?;
            }
            Err(error) if is_no_link(error.kind()) => return Ok(path.into_string()),
            Err(error) => return Err(error),
        }
    }
    Err(io::Error::from(ErrorKind::FilesystemLoop))
}

// What the system says of a path that is no link, or where nothing is.
fn is_no_link(kind: ErrorKind) -> bool {
    matches!(kind, ErrorKind::InvalidInput | ErrorKind::NotFound)
}

// Gives the new file its name, if the report in it is whole, or takes it away.
fn settle_part<R: Files, F: OpenFile>(
    rt: &R,
    part: &Part<F>,
    form: Form<'_>,
    read: FilesRead<'_>,
    is_whole: bool,
) -> io::Result<()> {
    let put = if is_whole {
        put(rt, part, form, read)
    } else {
        Ok(())
    };
    if !is_whole || put.is_err() {
        let _ = fs::remove_file(rt, part.name.as_str());
    }
    put
}

// Brings the new file to the disk and gives it its name.
fn put<R: Files, F: OpenFile>(
    rt: &R,
    part: &Part<F>,
    form: Form<'_>,
    read: FilesRead<'_>,
) -> io::Result<()> {
    let path = part.path.as_str();
    let there = identity_of(fs::metadata(rt, path));
    match form {
        Form::InPlace(_) => refuse_other(read, there)?,
        _ => refuse_read(read, there)?,
    }
    part.file.sync_all()?;
    fs::rename(rt, part.name.as_str(), path)
}

fn create_beside<R: Files + AllocGlobal>(rt: &R, path: &str) -> io::Result<(R::File, String)> {
    for number in 0..NAMES {
        let name = name_beside(rt.alloc(), path, number)?;
        match OpenOptions::new()
            .write(true)
            .create_new(true)
            .open(rt, name.as_str())
        {
            Ok(file) => return Ok((file, name)),
            Err(error) if error.kind() == ErrorKind::AlreadyExists => {}
            Err(error) => return Err(error),
        }
    }
    Err(io::Error::from(ErrorKind::AlreadyExists))
}

// A name in the folder of this path.
fn name_beside(alloc: Global, path: &str, number: u32) -> Result<String, AllocError> {
    let mut name = Text::new(alloc);
    if let Some((folder, _)) = path.rsplit_once('/') {
        name.push(folder);
        name.push("/");
    }
    name.push(".twire-");
    name.push_number(number as u64);
    name.push(".part");
    name.finish()
}
