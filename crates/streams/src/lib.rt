// Standard input read to its end, and a text written whole to standard output, over the system's read and write. A call that a signal interrupts is made
// again; a failure is told on standard error, where a failed read is no end of the input. Both loops count their turns, since nothing says that
// interruptions end; no run uses so many up.
#![tactic(auto)]

ghost use Rattle.std.specs.Prelude.{◌≡◌, ◌≤◌, length, IfSome};
ghost use Rattle.streams.specs.Outcomes.{came_to};

use std::io::{ErrorKind, Read, Write};
use std::{fmt, io};

// The error of a call that a signal interrupted before it moved a byte.
const EINTR: i32 = 4;

// What one call of read or write came to: a result has no case for the end, nor one for a call to make again.
#[derive(Clone, Copy)]
pub enum Outcome {
    Moved(usize),
    Nothing,
    Interrupted,
    Failed(io::Error),
}

// What a call came to, by its result.
fn came_to(got: io::Result<usize>) -> Outcome
    ensures { result ≡ came_to got }
{
    match got {
        Ok(0) => Outcome::Nothing,
        Ok(moved) => Outcome::Moved(moved),
        Err(e) if e.raw_os_error() == Some(EINTR) => Outcome::Interrupted,
        Err(e) => Outcome::Failed(e),
    }
}

// Standard input could not be read: says why on standard error.
fn unread<'b>(rt: &impl Eprint, e: io::Error) -> Option<&'b [u8]>
    ensures { result ≡ None }
{
    let _ = eprintln!(rt; "standard input cannot be read: {e}");
    None
}

// Reads standard input until it ends or the buffer is full; answers what came, which is the start of the buffer (it lies where the buffer does, and is
// no longer), or nothing where it could not be read.
pub fn read_input<'b>(rt: &(impl io::Input + Eprint), buffer: &'b mut [u8]) -> Option<&'b [u8]>
    ensures within { IfSome result (λ came. length came.now ≤ length buffer.old) }
    ensures start { IfSome result (λ came. came.ref_ptr ≡ buffer.entry.ref_ptr) }
{
    let mut stdin = rt.reader();
    let mut done = 0;
    for _ in 0..u64::MAX {
        if buffer.len() <= done {
            return Some(&buffer[..done]);
        }
        match came_to(stdin.read(&mut buffer[done..])) {
            Outcome::Moved(more) => done += more,
            Outcome::Nothing => return Some(&buffer[..done]),
            Outcome::Interrupted => {}
            Outcome::Failed(e) => return unread(rt, e),
        }
    }
    unread(rt, ErrorKind::Interrupted.into())
}

// Standard output could not be written: says why on standard error. (`unread` has another sentence and an answer.)
fn unwritten(rt: &impl Eprint, why: impl fmt::Display + Drop) {
    let _ = eprintln!(rt; "standard output cannot be written: {why}");
}

// Writes the text to standard output; answers how many bytes of it were written: fewer than all only after a failure.
pub fn write_output(rt: &(impl Print + Eprint), text: &[u8]) -> usize
    ensures { result ≤ length text.now }
{
    let mut stdout = io::writer(rt);
    let mut written = 0;
    for _ in 0..u64::MAX {
        if text.len() <= written {
            return written;
        }
        match came_to(stdout.write(&text[written..])) {
            Outcome::Moved(more) => written += more,
            Outcome::Nothing => {
                unwritten(rt, "no byte was taken");
                return written;
            }
            Outcome::Interrupted => {}
            Outcome::Failed(e) => {
                unwritten(rt, e);
                return written;
            }
        }
    }
    unwritten(rt, io::Error::from(ErrorKind::Interrupted));
    written
}
