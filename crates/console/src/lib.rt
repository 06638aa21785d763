// What the programs share: their arguments, what they write, and a failure told on standard error.
#![tactic(auto)]

ghost use Rattle.std.specs.Prelude.{◌≡◌, ◌≤◌, is_ok, length};

use std::env::{Env, FillError};
use std::fmt::{Display, InlineText};
use std::io::{self, ErrorKind};

// Which of a program's streams failed, and why.
#[derive(Drop)]
pub enum Failure {
    Input(io::Error),
    Output(io::Error),
}

// How many arguments the program was started with, its own name among them. The system is asked for one after the other, since it
// has no call that counts them.
pub fn argument_count(rt: &impl Env) -> usize {
    for i in 0..usize::MAX {
        if let Err(FillError::NotPresent) = rt.arg(i, &mut []) {
            return i;
        }
    }
    usize::MAX
}

// An argument, at the front of the buffer: none of it where it is missing or longer than the buffer.
pub fn argument<'a>(rt: &impl Env, i: usize, buffer: &'a mut [u8]) -> &'a [u8]
    ensures { length result.now ≤ length buffer.old }
{
    match rt.arg(i, buffer) {
        Ok(n) => &buffer[..n],
        Err(_) => &[],
    }
}

// A line on standard error: what failed, and why, in the system's words alone. Where standard error takes nothing there is nowhere
// else to tell it.
pub fn fail(rt: &impl Eprint, what: impl Display + Drop, error: io::Error) {
    let text = InlineText::<256>::of(error);
    let words = text.as_str();
    let reason = match words.split_once(" (os error ") {
        Some((reason, _)) => reason,
        None => words,
    };
    let _ = eprintln!(rt; "{what}: {reason}");
}

// Whether it was done; where not, that is told behind the program's name. A bool, since programs end here with the
// failure told: `is_ok done` is all that is left to promise.
pub fn is_done(rt: &impl Eprint, program: &str, done: Result<(), Failure>) -> bool
    ensures { result ≡ is_ok done }
{
    match done {
        Ok(()) => true,
        Err(failure) => {
            let (stream, error) = match failure {
                Failure::Input(error) => ("standard input", error),
                Failure::Output(error) => ("standard output", error),
            };
            fail(rt, format_args!("{program}: {stream}"), error);
            false
        }
    }
}

// Writes all of the bytes to standard output, or stops at the first write that takes nothing or fails. One that a signal
// interrupted has failed, where the library's would take it up again.
pub fn put(rt: &impl Print, bytes: &[u8]) -> Result<(), Failure> {
    let mut rest = bytes;
    while !rest.is_empty() {
        let n = rt.write_some(rest).map_err(Failure::Output)?;
        if n == 0 {
            return Err(Failure::Output(io::Error::from(ErrorKind::WriteZero)));
        }
        rest = &rest[n..];
    }
    Ok(())
}

// A text with a number in decimal behind it.
pub fn put_number(rt: &impl Print, text: &str, n: u64) -> Result<(), Failure> {
    put(rt, text.as_bytes())?;
    let digits = InlineText::<20>::of(n);
    put(rt, digits.as_str().as_bytes())
}

// The same with the end of the line behind it.
pub fn put_line(rt: &impl Print, text: &str, n: u64) -> Result<(), Failure> {
    put_number(rt, text, n)?;
    put(rt, b"\n")
}
