// Shows a window of a YUV4MPEG2 stream of 10 bits as the ward's screen does: 8-bit pictures, at full size or half, written as a stream that other players
// take; or the luma plane of the first frame as a PGM picture. It reads, calls and writes: each rule is in `ward`.
#![tactic(auto)]

use files::{Number, Source};
use say::Stop;
use std::process::ExitCode;
use y4m_file::{Fault, Header, Picture};

mod asked; // asked.rt: the arguments
mod rooms; // rooms.rt: room for a frame
mod shown; // shown.rt: a picture, row by row

use asked::Asked;

// What is asked for, and what the stream's header says.
#[derive(Clone, Copy)]
struct Job {
    asked: Asked,
    header: Header,
}

// ---- where it ends

// A window that is refused, and the picture that has it not: `LOOP.y4m: the window 2 0 18 16 of a picture of 64x48: refused=21: ..`.
fn refused_window(rt: &HostRuntime, job: Job, number: u8) -> Stop {
    let window = job.asked.window;
    let left = Number(window.left);
    let top = Number(window.top);
    let right = Number(window.right);
    let bottom = Number(window.bottom);
    let w = Number(job.header.w);
    let h = Number(job.header.h);
    words::name(rt, job.asked.file);
    let _ = eprint!(rt; "the window {left} {top} {right} {bottom} of a picture of {w}x{h}: ");
    say::refused(rt, number);
    Stop::Refused
}

// Why the stream ended with a frame that starts at a place, which is told.
fn stopped(rt: &HostRuntime, job: Job, fault: Fault, place: usize) -> Stop {
    match fault {
        Fault::Refused(misread) if misread.refusal == decoder::Refusal::Window => {
            refused_window(rt, job, decoder::refusal_number(misread.refusal))
        }
        fault => fault.told(rt, job.asked.file, place),
    }
}

// ---- frames

// The next frame, read and shown: whether one more is to be.
fn one_frame(
    rt: &HostRuntime,
    file: &mut Source,
    job: Job,
    first: bool,
    picture: &mut Picture,
    bytes: &mut [u8],
    out: &mut [u8],
) -> Result<bool, Fault> {
    if !picture.read(file, bytes)? {
        return Ok(false);
    }
    shown::show(rt, job, first, picture, out)?;
    Ok(!job.asked.pgm)
}

// Every frame of the stream. A proved loop has to end, and nothing says that a stream does: it counts frames up to a number that no run uses up.
fn every(
    rt: &HostRuntime,
    file: &mut Source,
    job: Job,
    picture: &mut Picture,
    bytes: &mut [u8],
    out: &mut [u8],
) -> Result<(), Stop> {
    let mut place = job.header.next;
    for frames in 0..1000000000000 {
        match one_frame(rt, file, job, frames == 0, picture, bytes, out) {
            Ok(true) => y4m_file::progress(rt, frames),
            Ok(false) => return Ok(()),
            Err(fault) => return Err(stopped(rt, job, fault, place)),
        }
        place = place.wrapping_add(bytes.len());
    }
    Err(Stop::Failed)
}

// ---- the call

fn help(rt: &HostRuntime) {
    let _ = eprint!(rt;
        "usage: ward LEFT TOP RIGHT BOTTOM [--preview] [--pgm] [FILE]\n\
        Shows a window of a YUV4MPEG2 stream of 10 bits (C420p10) as an 8-bit stream on standard output.\n\
        LEFT, TOP, RIGHT and BOTTOM are luma samples, multiples of 4; RIGHT and BOTTOM are the column and the row after the last.\n\
        --preview  at half the size\n\
        --pgm      the luma plane of the first frame as a PGM picture\n\
        FILE       the stream, instead of standard input\n\
        status: 0 done, 1 refused, 2 bad usage or a failure of input or output\n"
    );
}

fn run(rt: &HostRuntime, asked: Asked) -> Result<(), Stop> {
    let mut file = y4m_file::open(rt, asked.file)?;
    let header = y4m_file::read_header(rt, asked.file, &mut file)?;
    rooms::frames(rt, &mut file, Job { asked, header })
}

fn main(rt: HostRuntime) -> ExitCode {
    if let Some(asked) = asked::arguments(&rt) {
        return y4m_file::exit_code(run(&rt, asked));
    }
    help(&rt);
    y4m_file::exit_code(if words::asked(&rt, 1, b"--help") {
        Ok(())
    } else {
        Err(Stop::Failed)
    })
}
