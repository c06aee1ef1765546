// Every frame of the stream, and what they came to.
use files::{Number, Source};
use finish_asked::Job;
use finish_frame::{Lent, Moved, Sum};
use say::Stop;
use y4m_file::Picture;

// Every frame. A proved loop has to end, and nothing says that a stream does: it counts frames up to a number that no run uses up.
fn every(
    rt: &HostRuntime,
    file: &mut Source,
    job: Job,
    sum: &mut Sum,
    picture: &mut Picture,
    bytes: &mut [u8],
    words: &mut [u32],
    lent: Lent,
) -> Result<(), Stop> {
    for frames in 0..1000000000000 {
        if !finish_frame::one_frame(rt, file, job, sum, picture, bytes, words, lent)? {
            return Ok(());
        }
        y4m_file::progress(rt, frames);
    }
    Err(Stop::Failed)
}

// ---- what is told

// How far samples moved. The bound is request 7's, over the largest entry that is lent; beside it, over the entry of the QP.
fn tell_moved(rt: &HostRuntime, qp: u8, m: Moved, entries: &[u8; 208]) {
    let count = Number(m.count);
    let most = Number(usize::from(m.most));
    let bound = Number(8 * usize::from(finish_asked::largest(entries)));
    let qp_bound = Number(8 * usize::from(finish_asked::entry(entries, qp)));
    let _ = eprintln!(rt; "moved={count} most={most} bound={bound} qp_bound={qp_bound}");
}

// What the frames came to, however the stream ended.
fn tell(rt: &HostRuntime, job: Job, sum: Sum, entries: &[u8; 208]) {
    let frames = Number(sum.frames);
    let vertical = Number(sum.counts.vertical);
    let horizontal = Number(sum.counts.horizontal);
    let _ = eprintln!(rt; "frames={frames} vertical={vertical} horizontal={horizontal}");
    if job.asked.moved {
        tell_moved(rt, job.asked.qp, sum.moved, entries);
    }
}

// ---- the call

// Every frame, and what they came to.
pub(crate) fn finished(
    rt: &HostRuntime,
    file: &mut Source,
    job: Job,
    picture: &mut Picture,
    bytes: &mut [u8],
    words: &mut [u32],
    lent: Lent,
) -> Result<(), Stop> {
    let mut sum = Sum::new(job.header.next);
    let came = every(rt, file, job, &mut sum, picture, bytes, words, lent);
    tell(rt, job, sum, lent.entries);
    came
}
