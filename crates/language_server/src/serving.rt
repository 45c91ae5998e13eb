// The loop: a frame is read, what it asks for is done, and the answers are written.

use crate::answers::Answers;
use crate::frames::{Frames, Ready};
use crate::handling::Server;
use crate::rpc::{NO_LENGTH, TOO_LONG};
use editor_texts::further_of;
use run_parts::devices::reading::{BLOCK, READS};
use run_parts::{Input, Output, RunError, Status, write_report};
use std::alloc::Global;
use std::rt::{Env, Files};
use std::thread::Threads;

// What people are told where a client sends a text that is not taken.
const SHOW: &str = "window/showMessage";

const TOO_LARGE: &str =
    "{\"type\":1,\"message\":\"twire: this text was not taken: no message may have more than 16777216 bytes\"}";

/// Serves the client that writes what the reader gives, until it asks for the end, or gives no more. Plans have these further
/// files. It ends well where the client has asked for the end in the order of the protocol, and badly where it has not.
///
/// # Errors
///
/// `Read` where the reader failed, or ended inside of a frame. `Write` where the writer failed or took no bytes, and `NoMemory`
/// where an allocation fails.
pub fn serve<R: Files + Env + AllocGlobal + Threads + Sync, I: Input, O: Output>(
    rt: &R,
    input: &mut I,
    out: &mut O,
    further: &[&str],
) -> Result<Status, RunError> {
    let further = further_of(rt, further)?;
    let mut server = Server::new(rt, further);
    serve_by(rt.alloc(), &mut server, input, out)
}

fn serve_by<R: Files + AllocGlobal + Threads + Sync, I: Input, O: Output>(
    alloc: Global,
    server: &mut Server<'_, R>,
    input: &mut I,
    out: &mut O,
) -> Result<Status, RunError> {
    let mut block = vec![in alloc; 0u8; BLOCK]?;
    let mut frames = Frames::new(alloc);
    serve_blocks(alloc, server, &mut frames, input, block.as_mut_slice(), out)
}

// The same, with a block of memory for what one call gives.
fn serve_blocks<R: Files + AllocGlobal + Threads + Sync, I: Input, O: Output>(
    alloc: Global,
    server: &mut Server<'_, R>,
    frames: &mut Frames,
    input: &mut I,
    block: &mut [u8],
    out: &mut O,
) -> Result<Status, RunError> {
    for _ in 0..READS {
        match input.read(block) {
            Ok(0) if frames.is_between() => return Ok(Status::Bad),
            Ok(0) => return Err(RunError::Read),
            Ok(count) => {
                let read = block.get(..count).unwrap_or(&[]);
                if let Some(status) = take_block(alloc, server, frames, read, out)? {
                    return Ok(status);
                }
            }
            Err(_) => return Err(RunError::Read),
        }
    }
    Err(RunError::Read)
}

// Does what the frames ask for that end in these bytes.
fn take_block<R: Files + AllocGlobal + Threads + Sync, O: Output>(
    alloc: Global,
    server: &mut Server<'_, R>,
    frames: &mut Frames,
    read: &[u8],
    out: &mut O,
) -> Result<Option<Status>, RunError> {
    let mut rest = read;
    // (at least one byte is taken each time)
    for _ in 0..read.len() {
        if rest.is_empty() {
            break;
        }
        let taken = frames.take(rest)?;
        rest = rest.get(taken.count..).unwrap_or(&[]);
        if let Some(ready) = taken.ready {
            if let Some(status) = take_frame(alloc, server, ready, frames.body(), out)? {
                return Ok(Some(status));
            }
        }
    }
    Ok(None)
}

// Does what one frame asks for, and writes the answers.
fn take_frame<R: Files + AllocGlobal + Threads + Sync, O: Output>(
    alloc: Global,
    server: &mut Server<'_, R>,
    ready: Ready,
    body: &[u8],
    out: &mut O,
) -> Result<Option<Status>, RunError> {
    let mut answers = Answers::new(alloc);
    let status = match ready {
        Ready::Body => server.take(body, &mut answers)?,
        Ready::TooLong => {
            answers.error(None, TOO_LONG);
            answers.notify(SHOW, String::from_str(alloc, TOO_LARGE));
            None
        }
        Ready::NoLength => {
            answers.error(None, NO_LENGTH);
            None
        }
    };
    write_all(answers, out)?;
    Ok(status)
}

fn write_all<O: Output>(answers: Answers, out: &mut O) -> Result<(), RunError> {
    let text = answers.finish()?;
    write_report(out, text.as_bytes())
}
