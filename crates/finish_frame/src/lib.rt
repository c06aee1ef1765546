// A frame of the stream that `finish` goes through: read, deblocked and written, with the counts of its edges and how far its samples moved. It is for that
// program alone. No contract can say what is read or written: what stands here is proved safe.
#![tactic(auto)]

use files::Source;
use finish_asked::Job;
use say::Stop;
use y4m_file::{Fault, Misread, Picture};

mod frame; // frame.rt: a frame, deblocked
mod moved; // moved.rt: what deblocking moved

pub use decoder::EdgeCounts;
pub use frame::{Lent, units};
pub use moved::Moved;

// What the frames came to so far. The counts are those of one frame: each has the same tree.
#[derive(Clone, Copy)]
pub struct Sum {
    pub frames: usize,
    // where the next one starts in the stream
    pub place: usize,
    pub counts: EdgeCounts,
    pub moved: Moved,
}

impl Sum {
    pub fn new(place: usize) -> Sum {
        Sum {
            frames: 0,
            place,
            counts: EdgeCounts {
                vertical: 0,
                horizontal: 0,
            },
            moved: Moved { count: 0, most: 0 },
        }
    }

    // A finished frame more, whose bytes are still those that were read.
    fn add(&mut self, job: Job, counts: EdgeCounts, picture: &Picture, bytes: &[u8]) {
        self.frames = self.frames.wrapping_add(1);
        self.place = self.place.wrapping_add(bytes.len());
        self.counts = counts;
        if job.asked.moved {
            self.moved = self.moved.with_frame(bytes, picture);
        }
    }
}

// Why the frame from a place on was not written, which is told.
fn unwritten(rt: &HostRuntime, job: Job, fault: Fault, place: usize) -> Stop {
    match fault {
        Fault::Unwritten(error) => say::failed(rt, b"finish: standard output", error),
        fault => fault.told(rt, job.asked.stream, place),
    }
}

// A frame that was read is finished and written. The sum has it once it is finished.
fn put_finished(
    rt: &HostRuntime,
    job: Job,
    sum: &mut Sum,
    picture: &mut Picture,
    bytes: &mut [u8],
    words: &mut [u32],
    lent: Lent,
) -> Result<(), Stop> {
    let place = sum.place;
    let counts = frame::finished(job, picture, words, lent).map_err(|refusal| {
        y4m_file::refused_in(rt, job.asked.stream, Misread { refusal, at: place })
    })?;
    sum.add(job, counts, picture, bytes);
    picture
        .write(rt, bytes)
        .map_err(|fault| unwritten(rt, job, fault, place))
}

// The next frame: false at the end of the stream.
pub fn one_frame(
    rt: &HostRuntime,
    file: &mut Source,
    job: Job,
    sum: &mut Sum,
    picture: &mut Picture,
    bytes: &mut [u8],
    words: &mut [u32],
    lent: Lent,
) -> Result<bool, Stop> {
    let place = sum.place;
    let more = picture
        .read(file, bytes)
        .map_err(|fault| fault.told(rt, job.asked.stream, place))?;
    if more {
        put_finished(rt, job, sum, picture, bytes, words, lent)?;
    }
    Ok(more)
}
