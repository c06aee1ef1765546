// What the programs over YUV4MPEG2 files share: a file's header line, its frames one after the other, and what is told of a refusal.
// No contract can say what is read or written: what stands here is proved safe. Memory is that of one frame, however long the file is.
#![tactic(auto)]

mod head; // head.rt: the header of a stream
mod picture; // picture.rt: a frame that is read, and one that is written
mod rooms; // rooms.rt: room for a frame
mod stop; // stop.rt: why a program stops
mod stream; // stream.rt: the frames of a file, one after the other

use files::Number;
pub use head::{first_line, header_line, open, or_else, progress, put_header, read_header};
pub use picture::{Fault, Picture};
pub use rooms::{
    LARGE_BYTES, LARGE_CHROMA, LARGE_LUMA, Lengths, SMALL_BYTES, SMALL_CHROMA, SMALL_LUMA, frames,
    lengths_of,
};
use say::Stop;
pub use stop::{exit_code, stopped, with_note};
pub use stream::Task;
pub use y4m_header::Header;
pub use y4m_rules::Misread;

// ---- what is told

// A refusal with its place, on standard error: `byte 9301: refused=18: a stream that ends before its frame does`.
pub fn refused(rt: &HostRuntime, misread: Misread) -> Stop {
    let place = Number(misread.at);
    let _ = eprint!(rt; "byte {place}: ");
    say::refused(rt, def::refusal_number(misread.refusal));
    Stop::Refused
}

// The same of the file that an argument names: `LOOP.y4m: byte 9301: ..`.
pub fn refused_in(rt: &HostRuntime, at: usize, misread: Misread) -> Stop {
    words::name(rt, at);
    refused(rt, misread)
}

// The same of the first argument's file, and before it on standard output, by its number.
pub fn refused_out(rt: &HostRuntime, misread: Misread) -> Stop {
    let number = Number(usize::from(def::refusal_number(misread.refusal)));
    let place = Number(misread.at);
    let written = println!(rt; "refused={number} place={place}");
    refused_in(rt, 1, misread);
    stopped(rt, written)
}
