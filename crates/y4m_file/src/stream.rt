// The frames of a file, one after the other, each read and checked.
use crate::picture::{Fault, Picture, from_place};
use crate::{Misread, refused_in, refused_out};
use files::{Number, Source};
use say::Stop;

// What a file's frames are gone through for.
#[derive(Clone, Copy, PartialEq, Eq)]
pub enum Task {
    // they are counted
    Count,
    // each is written again
    Copy,
}

// How reading a file's frames ended: after how many; and where the next one is refused, at which byte: that which offends, or where the file ends too early,
// or where the frame starts.
#[derive(Drop)]
struct Ended {
    frames: usize,
    refused: Option<Misread>,
}

// The next frame, where it is to be copied written again: false at the end of the file.
fn one_frame(
    rt: &HostRuntime,
    file: &mut Source,
    task: Task,
    picture: &mut Picture,
    bytes: &mut [u8],
) -> Result<bool, Fault> {
    let more = picture.read(file, bytes)?;
    if more & (task == Task::Copy) {
        picture.write(rt, bytes)?;
    }
    Ok(more)
}

// Every frame, the first from a byte on. A proved loop has to end, and nothing says that a file does: it counts frames up to a number that no run uses up.
fn each_frame(
    rt: &HostRuntime,
    file: &mut Source,
    task: Task,
    start: usize,
    picture: &mut Picture,
    bytes: &mut [u8],
) -> Result<Ended, Stop> {
    let mut place = start;
    for frames in 0..usize::MAX {
        match one_frame(rt, file, task, picture, bytes) {
            Ok(true) => place = place.wrapping_add(bytes.len()),
            Ok(false) => {
                return Ok(Ended {
                    frames,
                    refused: None,
                });
            }
            Err(Fault::Refused(misread)) => {
                return Ok(Ended {
                    frames,
                    refused: Some(from_place(misread, place)),
                });
            }
            Err(fault) => return Err(fault.told(rt, 1, place)),
        }
    }
    Err(Stop::Failed)
}

// How many frames there are, on standard output; or the refusal of the next.
fn counted(rt: &HostRuntime, ended: Ended) -> Result<(), Stop> {
    let frames = Number(ended.frames);
    let written = println!(rt; "frames={frames}");
    match ended.refused {
        None => say::told(rt, written),
        Some(misread) => Err(refused_out(rt, misread)),
    }
}

// All frames of the file that the first argument names. A copy has standard output for itself.
pub(crate) fn all(
    rt: &HostRuntime,
    file: &mut Source,
    task: Task,
    start: usize,
    picture: &mut Picture,
    bytes: &mut [u8],
) -> Result<(), Stop> {
    let ended = each_frame(rt, file, task, start, picture, bytes)?;
    match task {
        Task::Count => counted(rt, ended),
        Task::Copy => match ended.refused {
            None => Ok(()),
            Some(misread) => Err(refused_in(rt, 1, misread)),
        },
    }
}
