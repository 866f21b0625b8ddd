// Standard input and standard output, with an error distinguished from the end of the input. A failure is named on standard error.
#![tactic(auto)]

ghost use Rattle.std.specs.Prelude.{◌≡◌, MatchResult, IsErr};
ghost use Rattle.std.specs.Io.{ReadsAtMost};
ghost use Rattle.std.specs.Process.{exit_status};
ghost use Rattle.streams.specs.Reads.{FillsFrom};
ghost use Rattle.streams.specs.Writes.{Puts, number_of, status_of};

use std::fmt::InlineText;
use std::io;
use std::io::{Read, Write};
use std::process::ExitCode;

// Input or output failed, and standard error says why.
#[derive(Clone, Copy, Debug, PartialEq, Eq)]
pub struct Failed;

// How a program ends.
#[derive(Clone, Copy, Debug, PartialEq, Eq)]
pub enum Status {
    Success,
    // what it was given is refused
    Refused,
    // its input, its output or its arguments failed
    Failed,
}

impl From<Result<(), Failed>> for Status {
    ghost from_gives = { λ written status. status ≡ status_of written };

    fn from(written: Result<(), Failed>) -> Status {
        match written {
            Ok(()) => Status::Success,
            Err(Failed) => Status::Failed,
        }
    }
}

impl From<Status> for ExitCode {
    ghost from_gives = { λ status code. exit_status code ≡ number_of status };

    fn from(status: Status) -> ExitCode {
        ExitCode::from(match status {
            Status::Success => 0u8,
            Status::Refused => 1,
            Status::Failed => 2,
        })
    }
}

// The system's words for an error, without the number that std puts after them.
fn words_of(text: &str) -> &str {
    match text.split_once(" (os error ") {
        Some((words, _)) => words,
        None => text,
    }
}

// Names a failure on standard error. Where that fails too, nothing is said.
fn fail<E: Eprint>(rt: &E, what: &str, error: io::Error) -> Failed {
    let text = InlineText::<256>::of(error);
    let words = words_of(text.as_str());
    let _ = rt.eprintln(format_args!("{what}: {words}"));
    Failed
}

// What a read or a write answered; its failure is named on standard error. One that a signal interrupts has failed.
fn reported<E: Eprint>(rt: &E, what: &str, got: io::Result<usize>) -> Result<usize, Failed>
    ensures { MatchResult result (λ n. got ≡ Ok n) (λ _. IsErr got) }
{
    got.map_err(|error| fail(rt, what, error))
}

// Reads the input until the buffer is full or the input ends, and answers how many bytes that are: fewer than the buffer has places for
// where the input ended after them.
pub fn fill<E: Eprint, R: Read>(rt: &E, input: &mut R, buf: &mut [u8]) -> Result<usize, Failed>
    ensures fills { ReadsAtMost result buf.new }
    ensures bytes { FillsFrom result (R.remaining input.old) (R.remaining input.new) buf.new }
{
    let mut done = 0;
    // a step is as long as what a read gave; std's `read_exact` does not say what it read before the end
    while done < buf.len() {
        let n = reported(rt, "standard input", input.read(&mut buf[done..]))?;
        if n == 0 {
            return Ok(done);
        }
        done += n;
    }
    Ok(done)
}

// Writes all of the bytes to the output. A write that takes nothing has failed; the system has the words of error 0 for it.
pub fn put<E: Eprint, W: Write>(rt: &E, output: &mut W, bytes: &[u8]) -> Result<(), Failed>
    ensures { Puts result (W.contents output.old) (W.contents output.new) bytes.now }
{
    let mut at = 0;
    // a step is as long as what a write took; std's `write_all` tries an interrupted write again
    while at < bytes.len() {
        let n = reported(rt, "standard output", output.write(&bytes[at..]))?;
        if n == 0 {
            return Err(fail(rt, "standard output", io::Error::from_raw_os_error(0)));
        }
        at += n;
    }
    Ok(())
}
