// A picture of the stream that is written, row by row.
use crate::Job;
use decoder::{Format, Refusal};
use files::{Number, Stream};
use std::io;
use ward::{Run, Turn, Window};
use y4m_file::{Fault, Misread, Picture, or_else};

// ---- what stands before a picture's samples

// What stands before a row.
#[derive(Clone, Copy)]
enum Lead {
    // the header of the stream, and that of its first frame
    Stream,
    Frame,
    Nothing,
}

// Samples down a window, as a run shows it.
fn down(run: Run, window: Window) -> usize {
    let n = window.bottom.wrapping_sub(window.top);
    match run {
        Run::Full => n,
        Run::Preview => n / 2,
    }
}

// The header of the 8-bit stream, of rows of n samples.
fn put_header(rt: &HostRuntime, job: Job, n: usize) -> io::Result<()> {
    let rows = Number(down(job.asked.run, job.asked.window));
    let f = Number(or_else(job.header.f, 25));
    let g = Number(or_else(job.header.g, 1));
    let a = Number(or_else(job.header.a, 1));
    let b = Number(or_else(job.header.b, 1));
    let n = Number(n);
    println!(rt; "YUV4MPEG2 W{n} H{rows} F{f}:{g} Ip A{a}:{b} C420mpeg2")
}

// The header of a PGM picture.
fn put_pgm(rt: &HostRuntime, job: Job, n: usize) -> io::Result<()> {
    let rows = Number(down(job.asked.run, job.asked.window));
    print!(rt; "P5\n{} {rows}\n255\n", Number(n))
}

fn put_lead(rt: &HostRuntime, job: Job, lead: Lead, n: usize) -> io::Result<()> {
    match lead {
        Lead::Nothing => return Ok(()),
        _ if job.asked.pgm => return put_pgm(rt, job, n),
        Lead::Stream => put_header(rt, job, n)?,
        Lead::Frame => (),
    }
    println!(rt; "FRAME")
}

// ---- rows

// The first n bytes of a row, and before them what is to stand there.
fn put_row(rt: &HostRuntime, job: Job, lead: Lead, out: &[u8], n: usize) -> io::Result<()> {
    put_lead(rt, job, lead, n)?;
    if out.len() < n {
        return Err(io::Error::from(io::ErrorKind::InvalidInput));
    }
    files::write_all(rt, Stream::Output, &out[..n])
}

// The row whose turn it is, written: the next turn, or none after the last row, which is one out of turn.
fn one_row(
    rt: &HostRuntime,
    job: Job,
    turn: Turn,
    lead: Lead,
    picture: &Picture,
    out: &mut [u8],
) -> Result<Option<Turn>, Fault> {
    let rowed = turn.row(
        turn.plane,
        turn.row,
        Format::Colour,
        picture.w,
        picture.h,
        picture.y,
        picture.u,
        picture.v,
        job.asked.window,
        out,
    );
    match rowed.written {
        Err(Refusal::Turn) => Ok(None),
        Err(refusal) => Err(Fault::Refused(Misread::from(refusal))),
        Ok(n) => {
            put_row(rt, job, lead, out, n).map_err(Fault::Unwritten)?;
            Ok(Some(rowed.next))
        }
    }
}

// Writes a picture: its rows in turn, of a PGM picture those of Y alone.
pub(crate) fn show(
    rt: &HostRuntime,
    job: Job,
    first: bool,
    picture: &Picture,
    out: &mut [u8],
) -> Result<(), Fault> {
    let mut turn = Turn::first(job.asked.run);
    let mut lead = if first { Lead::Stream } else { Lead::Frame };
    for _ in 0..8193 {
        let Some(next) = one_row(rt, job, turn, lead, picture, out)? else {
            return Ok(());
        };
        if job.asked.pgm & (next.plane != 0) {
            return Ok(());
        }
        turn = next;
        lead = Lead::Nothing;
    }
    Ok(())
}
