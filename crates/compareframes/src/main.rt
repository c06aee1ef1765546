// Compares two YUV4MPEG2 streams: equal, or the first sample that differs, by its frame, plane, place and both values; and draws that frame's differences as a
// PGM picture over the grid of units. It reads, compares and writes; nothing is decided here.
#![tactic(auto)]

use files::{Number, Source};
use say::Stop;
use std::process::ExitCode;
use y4m_file::{Fault, Header, Picture};

mod drawn; // drawn.rt: the picture of a frame's differences
mod rooms; // rooms.rt: room for a frame of each

// What the headers of both files say, and where the picture's name is among the arguments.
#[derive(Clone, Copy)]
struct Job {
    a: Header,
    b: Header,
    picture: Option<usize>,
}

// ---- a frame of each

// Where two planes of a size differ first.
// kept: index by index, as `position` over both takes 1.26 times the instructions where streams are equal, which is most of a run.
fn differs(a: &[u16], b: &[u16]) -> Option<usize> {
    for i in 0..a.len().min(b.len()) {
        if a[i] != b[i] {
            return Some(i);
        }
    }
    None
}

fn sample(p: &[u16], at: usize) -> u16 {
    p.get(at).copied().unwrap_or(0)
}

// A sample of both streams, in a plane of rows of w: `frame=1 plane=Y x=12 y=7 a=512 b=514`.
fn tell(
    rt: &HostRuntime,
    frame: usize,
    name: &str,
    w: usize,
    at: usize,
    a: &[u16],
    b: &[u16],
) -> Stop {
    let _ = print!(rt; "frame={} plane={name}", Number(frame));
    if 0 < w {
        let x = Number(at % w);
        let y = Number(at / w);
        let _ = print!(rt; " x={x} y={y}");
    }
    let in_a = Number(usize::from(sample(a, at)));
    let in_b = Number(usize::from(sample(b, at)));
    y4m_file::stopped(rt, println!(rt; " a={in_a} b={in_b}"))
}

// A plane, which is to be the same; else that is told.
fn plane(
    rt: &HostRuntime,
    frame: usize,
    name: &str,
    w: usize,
    a: &[u16],
    b: &[u16],
) -> Result<(), Stop> {
    match differs(a, b) {
        None => Ok(()),
        Some(at) => Err(tell(rt, frame, name, w, at, a, b)),
    }
}

// ---- the streams

fn ended(rt: &HostRuntime, name: &str, frame: usize) -> Stop {
    y4m_file::stopped(
        rt,
        println!(rt; "{name} ends before frame={}", Number(frame)),
    )
}

// Whether both streams have a frame more. Where neither has they are equal, which is told; so is all else. `before`: the bytes of the frames before this one.
fn both(
    rt: &HostRuntime,
    job: Job,
    a: Result<bool, Fault>,
    b: Result<bool, Fault>,
    frame: usize,
    before: usize,
) -> Result<bool, Stop> {
    match (a, b) {
        (Err(Fault::Unread(error)), _) => Err(Fault::Unread(error).told(rt, 1, 0)),
        (_, Err(Fault::Unread(error))) => Err(Fault::Unread(error).told(rt, 2, 0)),
        (Err(fault), _) => Err(fault.told(rt, 1, job.a.next.wrapping_add(before))),
        (_, Err(fault)) => Err(fault.told(rt, 2, job.b.next.wrapping_add(before))),
        (Ok(true), Ok(true)) => Ok(true),
        (Ok(true), Ok(false)) => Err(ended(rt, "b", frame)),
        (Ok(false), Ok(true)) => Err(ended(rt, "a", frame)),
        (Ok(false), Ok(false)) => {
            say::told(rt, println!(rt; "equal frames={}", Number(frame)))?;
            Ok(false)
        }
    }
}

// The planes of a frame, which are to be the same; the first that differs is told.
fn planes(rt: &HostRuntime, frame: usize, a: &Picture, b: &Picture) -> Result<(), Stop> {
    let half = a.w / 2;
    plane(rt, frame, "Y", a.w, a.y, b.y)?;
    plane(rt, frame, "U", half, a.u, b.u)?;
    plane(rt, frame, "V", half, a.v, b.v)
}

// The same; where they differ the picture is drawn, if one is asked for.
fn compared(
    rt: &HostRuntime,
    job: Job,
    frame: usize,
    a: &Picture,
    b: &Picture,
) -> Result<(), Stop> {
    let came = planes(rt, frame, a, b);
    if came.is_err() {
        if let Some(at) = job.picture {
            drawn::draw(rt, at, a, b)?;
        }
    }
    came
}

// The next frame of each, both put into the room for bytes: whether there was one and they are the same. All else is told, and that neither has one.
fn one_frame(
    rt: &HostRuntime,
    job: Job,
    in_a: &mut Source,
    in_b: &mut Source,
    frame: usize,
    before: usize,
    a: &mut Picture,
    b: &mut Picture,
    bytes: &mut [u8],
) -> Result<bool, Stop> {
    let read_a = a.read(in_a, bytes);
    let read_b = b.read(in_b, bytes);
    if !both(rt, job, read_a, read_b, frame, before)? {
        return Ok(false);
    }
    compared(rt, job, frame, a, b)?;
    Ok(true)
}

// Frame by frame. A proved loop has to end, and nothing says that a stream does: it counts frames up to a number that no run uses up.
fn every(
    rt: &HostRuntime,
    job: Job,
    in_a: &mut Source,
    in_b: &mut Source,
    a: &mut Picture,
    b: &mut Picture,
    bytes: &mut [u8],
) -> Result<(), Stop> {
    let mut before: usize = 0;
    for frame in 0..1000000000000 {
        if !one_frame(rt, job, in_a, in_b, frame, before, a, b, bytes)? {
            return Ok(());
        }
        y4m_file::progress(rt, frame);
        before = before.wrapping_add(bytes.len());
    }
    Err(Stop::Failed)
}

// ---- the call

fn sizes_differ(rt: &HostRuntime, a: Header, b: Header) -> Stop {
    let w = Number(a.w);
    let h = Number(a.h);
    let other_w = Number(b.w);
    let other_h = Number(b.h);
    y4m_file::stopped(
        rt,
        println!(rt; "sizes differ: a {w}x{h}, b {other_w}x{other_h}"),
    )
}

// The files that the first two arguments name.
fn run(rt: &HostRuntime, picture: Option<usize>) -> Result<(), Stop> {
    let mut in_a = y4m_file::open(rt, 1)?;
    let mut in_b = y4m_file::open(rt, 2)?;
    let a = y4m_file::read_header(rt, 1, &mut in_a)?;
    let b = y4m_file::read_header(rt, 2, &mut in_b)?;
    if (a.w != b.w) | (a.h != b.h) {
        return Err(sizes_differ(rt, a, b));
    }
    rooms::frames(rt, Job { a, b, picture }, &mut in_a, &mut in_b)
}

fn help(rt: &HostRuntime) {
    let _ = eprint!(rt;
        "usage: compare-frames A B [--picture FILE]\n\
        Compares two YUV4MPEG2 streams of 10 bits: equal, or the first sample that differs.\n\
        --picture FILE  writes that frame's differences as a PGM picture over the grid of units\n\
        status: 0 equal, 1 different or refused, 2 bad usage or a failure of input or output\n"
    );
}

fn main(rt: HostRuntime) -> ExitCode {
    let count = files::arg_count(&rt);
    if (count == 5) & words::asked(&rt, 3, b"--picture") {
        return y4m_file::exit_code(run(&rt, Some(4)));
    }
    if count == 3 {
        return y4m_file::exit_code(run(&rt, None));
    }
    help(&rt);
    y4m_file::exit_code(if words::asked(&rt, 1, b"--help") {
        Ok(())
    } else {
        Err(Stop::Failed)
    })
}
