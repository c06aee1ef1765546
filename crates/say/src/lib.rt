// What a program tells: lines on standard error, what a refusal's number means, and the exit status. It is for the programs alone.
#![tactic(auto)]

ghost use Rattle.std.specs.Prelude.{◌≡◌};
ghost use Rattle.std.specs.Process.{exit_status};
ghost use Rattle.say.specs.Ends.{status_of};

use files::{Number, Stream};
use std::io;
use std::process::ExitCode;

// ---- words

// Some words, and the end of their line. They need not be text.
pub fn line(rt: &HostRuntime, text: &[u8]) {
    let _ = files::write_all(rt, Stream::Errors, text);
    let _ = eprintln!(rt);
}

// ---- the exit status

// How a program is done.
#[derive(Clone, Copy, Debug, PartialEq, Eq)]
pub enum Done {
    Plain,
    // with something to look at
    Noted,
}

// Why a program is not done; it is told before.
#[derive(Clone, Copy, Debug, PartialEq, Eq)]
pub enum Stop {
    // something is refused, or differs
    Refused,
    // bad usage, or a failure of input or output
    Failed,
}

// The exit status of what a program came to.
pub fn exit_code(came: Result<Done, Stop>) -> ExitCode
    ensures { exit_status result ≡ status_of came }
{
    ExitCode::from(match came {
        Ok(Done::Plain) => 0,
        Err(Stop::Refused) => 1,
        Err(Stop::Failed) => 2,
        Ok(Done::Noted) => 3,
    })
}

// Tells that something failed, by its name, and why.
pub fn failed(rt: &HostRuntime, name: &[u8], error: io::Error) -> Stop
    ensures { result ≡ Stop.Failed }
{
    files::fail(rt, name, error);
    Stop::Failed
}

// What was told on standard output: where that could not be written, this is told.
pub fn told(rt: &HostRuntime, written: io::Result<()>) -> Result<(), Stop> {
    written.map_err(|error| failed(rt, b"standard output", error))
}

// ---- refusals

// What a refusal's number means, as it is printed behind `refused=`.
// kept: the number, as a sheet's listing, which is text, says no more.
fn words_of(number: u8) -> &'static str {
    match number {
        1 => "a side of the picture that is not a multiple of 4 from 4 to 4096",
        2 => "something of the wrong length",
        3 => "a setting outside its range",
        4 => "a split byte that is not 0 or 1",
        5 => "a block that reaches past the picture and is not cut",
        6 => "a QP over 51",
        7 => "a sample over 1023",
        8 => "a place outside the picture, or off its multiple",
        9 => "a mode that there is not",
        10 => "a count of chroma points outside 1 to 58, or an a below 0",
        11 => "a pivot outside -12 to 57",
        12 => "a malformed sheet",
        13 => "a leaf record, or the length of the leaf or residual list",
        14 => "a band out of turn, or past the last",
        15 => "a byte of the keep map that is not 0 or 1",
        16 => { "the bits of a split map: too few, one set behind the last, or too little room" }
        17 => "a malformed header or frame line",
        18 => "a stream that ends before its frame does",
        19 => "a map of edge rows that differs from the rule",
        20 => "an old sheet",
        21 => "a window off the multiples of 4, empty or outside",
        22 => "a row out of turn",
        _ => "refused",
    }
}

// It, on standard error.
pub fn meaning(rt: &HostRuntime, number: u8) {
    let _ = eprint!(rt; "{}", words_of(number));
}

// The line of a refusal: `refused=7: a sample over 1023`.
pub fn refused(rt: &HostRuntime, number: u8) {
    let shown = Number(usize::from(number));
    let _ = eprintln!(rt; "refused={shown}: {}", words_of(number));
}
