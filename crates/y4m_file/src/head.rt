// The header line of a stream, as it is read and as it is written, and how far a long one has come.
ghost use Rattle.std.specs.Prelude.{◌≤◌, IfOk, length};

use crate::refused_in;
use def::Format;
use files::{Number, Source, Stream};
use say::Stop;
use std::io;
use y4m_header::Header;

// ---- reading

// Opens the file that an argument names, or standard input for argument 0; where that fails it is told.
pub fn open(rt: &HostRuntime, at: usize) -> Result<Source, Stop> {
    if at == 0 {
        return Ok(files::standard_input(rt));
    }
    words::open(rt, at).ok_or(Stop::Failed)
}

// Whether there is one byte more: not at the end, and not where the read failed.
fn one_more(file: &mut Source, byte: &mut [u8; 1]) -> bool {
    match files::read_some(file, byte) {
        Ok(n) => 0 < n,
        Err(_) => false,
    }
}

// The first line of a file, up to its newline or to as many bytes as there is room for: how many there are. Byte by byte, so that what stands after
// it is not read yet.
pub fn first_line(file: &mut Source, room: &mut [u8]) -> usize
    ensures { result ≤ length room.new }
{
    let mut byte = [0u8; 1];
    for i in 0..room.len() {
        if !one_more(file, &mut byte) {
            return i;
        }
        let b = byte[0];
        room[i] = b;
        if b == b'\n' {
            return i + 1;
        }
    }
    room.len()
}

// The first line of the file that an argument names, or of standard input for argument 0: how many bytes there are. Where there is none because the file
// cannot be read, as a directory cannot, that is told.
pub fn header_line(
    rt: &HostRuntime,
    at: usize,
    file: &mut Source,
    room: &mut [u8],
) -> Result<usize, Stop>
    ensures { IfOk result (λ n. n ≤ length room.new) }
{
    let n = first_line(file, room);
    if n == 0 {
        if words::unreadable(rt, at, file) {
            return Err(Stop::Failed);
        }
    }
    Ok(n)
}

// The header of that file; its refusal is told.
pub fn read_header(rt: &HostRuntime, at: usize, file: &mut Source) -> Result<Header, Stop> {
    let mut head = [0u8; 256];
    let n = header_line(rt, at, file, &mut head)?;
    y4m_header::read_header(&head[..n]).map_err(|misread| refused_in(rt, at, misread))
}

// ---- writing

// A number of a header, or another where it has none.
pub fn or_else(n: usize, other: usize) -> usize {
    if n == 0 { other } else { n }
}

// Writes the header of a stream: F is 25:1 and A is 1:1 where the one that was read has none.
pub fn put_header(rt: &HostRuntime, header: Header) -> io::Result<()> {
    let mut head = [0u8; 256];
    match y4m_header_out::write_header(
        Format::Colour,
        header.w,
        header.h,
        or_else(header.f, 25),
        or_else(header.g, 1),
        or_else(header.a, 1),
        or_else(header.b, 1),
        &mut head,
    ) {
        Ok(n) if n <= 256 => files::write_all(rt, Stream::Output, &head[..n]),
        // there is no header of such numbers
        _ => Err(io::Error::from(io::ErrorKind::InvalidInput)),
    }
}

// Every hundredth frame is told.
pub fn progress(rt: &HostRuntime, frames: usize) {
    if frames % 100 == 99 {
        let count = Number(frames + 1);
        let _ = eprintln!(rt; "frames={count}");
    }
}
