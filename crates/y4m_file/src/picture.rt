// A picture's planes, read from a stream frame by frame and written as one.
use crate::{Misread, refused_in};
use def::{Format, Refusal};
use files::{Source, Stream};
use say::Stop;
use std::io;

// A picture's size, and the samples of its planes.
#[derive(Drop)]
pub struct Picture<'a> {
    pub w: usize,
    pub h: usize,
    pub y: &'a mut [u16],
    pub u: &'a mut [u16],
    pub v: &'a mut [u16],
}

// Why a frame is not read, or not written.
#[derive(Drop)]
pub enum Fault {
    // it is refused, at a byte from its own start on
    Refused(Misread),
    // it cannot be read
    Unread(io::Error),
    // it cannot be written
    Unwritten(io::Error),
}

// Where a frame offends of which n bytes were read.
fn placed(misread: Misread, n: usize) -> Misread {
    let refusal = misread.refusal;
    let at = match refusal {
        Refusal::Stream => misread.at,
        Refusal::Short => n,
        _ => 0,
    };
    Misread { refusal, at }
}

impl Picture<'_> {
    // Reads the next frame by its bytes and checks it: false at the end of the file.
    pub fn read(&mut self, file: &mut Source, bytes: &mut [u8]) -> Result<bool, Fault> {
        let n = files::read_full(file, bytes);
        if n < bytes.len() {
            if let Some(error) = files::failure(file) {
                return Err(Fault::Unread(error));
            }
            if n == 0 {
                return Ok(false);
            }
        }
        y4m_frame::read_frame(&bytes[..n], 0, self.w, self.h, self.y, self.u, self.v).map_err(
            |misread| Fault::Refused(placed(misread, n)),
        )?;
        Ok(true)
    }

    // Writes it as a frame, whose bytes are put into a room.
    pub fn write(&self, rt: &HostRuntime, bytes: &mut [u8]) -> Result<(), Fault> {
        y4m_frame_out::write_frame(
            Format::Colour,
            self.w,
            self.h,
            self.y,
            self.u,
            self.v,
            bytes,
        )
        .map_err(|refusal| Fault::Refused(Misread::from(refusal)))?;
        files::write_all(rt, Stream::Output, bytes).map_err(Fault::Unwritten)
    }
}

// The same in the whole file, of a frame that starts at a place.
pub(crate) fn from_place(misread: Misread, place: usize) -> Misread {
    Misread {
        refusal: misread.refusal,
        at: place.wrapping_add(misread.at),
    }
}

impl Fault {
    // Tells it, of the file that an argument names and a frame that starts at a place there.
    pub fn told(self, rt: &HostRuntime, at: usize, place: usize) -> Stop {
        match self {
            Fault::Refused(misread) => refused_in(rt, at, from_place(misread, place)),
            Fault::Unread(error) => {
                words::unread(rt, at, error);
                Stop::Failed
            }
            Fault::Unwritten(error) => say::failed(rt, b"standard output", error),
        }
    }
}
