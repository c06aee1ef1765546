// What a program over a stream comes to.
use say::{Done, Stop};
use std::io;
use std::process::ExitCode;

// The exit status.
pub fn exit_code(came: Result<(), Stop>) -> ExitCode {
    say::exit_code(came.map(|()| Done::Plain))
}

// What was told on standard output of a refusal, or of a difference: where that could not be written, this is told.
pub fn stopped(rt: &HostRuntime, written: io::Result<()>) -> Stop {
    match say::told(rt, written) {
        Ok(()) => Stop::Refused,
        Err(stop) => stop,
    }
}

// A failure among large pictures is told with the room that they need.
pub fn with_note(rt: &HostRuntime, came: Result<(), Stop>, note: &[u8]) -> Result<(), Stop> {
    if came == Err(Stop::Failed) {
        say::line(rt, note);
    }
    came
}
