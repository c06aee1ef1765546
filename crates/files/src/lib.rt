// What the programs read and write, over std: the standard streams, files by name, and arguments by number. It is for the programs alone.
// No contract can say what the system gives or takes: what stands here is proved safe.
#![tactic(auto)]

ghost use Rattle.std.specs.Prelude.{◌≡◌, IfOk, length};
ghost use Rattle.files.specs.Counts.{IsPrefixLen};

use std::env::FillError;
use std::fs::File;
use std::io::{Read, Stdin, Write};
use std::rt::Env;
use std::{fs, io};

mod number; // number.rt: a number as text
mod text; // text.rt: why something failed, in words

pub use number::{Number, decimal};

// ---- rooms: a call for each keeps the checker from looking into it

// Room for an argument: a path of 4,095 bytes is the longest that the system takes.
pub fn buffer() -> [u8; 4096]
    ensures { 4096 ≡ length result }
{
    [0; 4096]
}

// Room for a part of an output, so that few writes are made.
pub fn large_buffer() -> [u8; 65536]
    ensures { 65536 ≡ length result }
{
    [0; 65536]
}

// ---- what is written

// Where something is told.
#[derive(Clone, Copy)]
pub enum Stream {
    Output,
    Errors,
}

// Writes all of some bytes, in one write where the system takes them at once.
pub fn write_all(rt: &HostRuntime, to: Stream, bytes: &[u8]) -> io::Result<()> {
    match to {
        Stream::Output => rt.stdout().write_all(bytes),
        Stream::Errors => rt.stderr().write_all(bytes),
    }
}

// The same, to a file.
pub fn put_all(file: &mut File, bytes: &[u8]) -> io::Result<()> {
    file.write_all(bytes)
}

// ---- what is read

// A file that is read, or standard input.
#[derive(Drop)]
pub enum Source {
    Input(Stdin),
    Named(File),
}

pub fn standard_input(rt: &HostRuntime) -> Source {
    Source::Input(rt.stdin())
}

// One read: how many bytes it put at the start of the room, 0 at the end.
pub fn read_some(file: &mut Source, room: &mut [u8]) -> io::Result<usize>
    ensures { IfOk result (λ n. IsPrefixLen n room.new) }
{
    match file {
        Source::Input(input) => input.read(room),
        Source::Named(named) => named.read(room),
    }
}

// Reads until the room is full, the file ends or a read fails: how many bytes there are at the start of the room.
// kept: a `while`, as a read says how far it went, and no range counts the turns.
pub fn read_full(file: &mut Source, room: &mut [u8]) -> usize
    ensures { IsPrefixLen result room.new }
{
    let mut done = 0;
    while done < room.len() {
        match read_some(file, &mut room[done..]) {
            Ok(0) | Err(_) => break,
            Ok(n) => done += n,
        }
    }
    done
}

// Why a read of one byte more fails, if it does: that is asked where a file seems to end, as one does that is a directory.
pub fn failure(file: &mut Source) -> Option<io::Error> {
    let mut byte = [0u8; 1];
    read_some(file, &mut byte).err()
}

// ---- files by name

// What the system says of a sequence of bytes that is no text: std takes none as a path.
const ILLEGAL_SEQUENCE: i32 = 84;

fn path_of(path: &[u8]) -> io::Result<&str> {
    std::str::from_utf8(path).map_err(|_| io::Error::from_raw_os_error(ILLEGAL_SEQUENCE))
}

// Opens a file, to be read.
pub fn open_read(rt: &HostRuntime, path: &[u8]) -> io::Result<Source> {
    Ok(Source::Named(fs::open(rt, path_of(path)?)?))
}

// Opens a file, to be written: made where it is missing, emptied where it is there.
pub fn open_overwrite(rt: &HostRuntime, path: &[u8]) -> io::Result<File> {
    fs::create(rt, path_of(path)?)
}

// ---- arguments

// Puts argument i at the start of the room: how many bytes it has, 0 where there is none or it is longer than the room.
pub fn arg(rt: &HostRuntime, i: usize, room: &mut [u8]) -> usize
    ensures { IsPrefixLen result room.new }
{
    rt.arg(i, room).unwrap_or(0)
}

fn has_arg(rt: &HostRuntime, i: usize) -> bool {
    let mut first = [0u8; 1];
    !matches!(rt.arg(i, &mut first), Err(FillError::NotPresent))
}

// How many arguments there are, the program's own name among them.
pub fn arg_count(rt: &HostRuntime) -> usize {
    (0..usize::MAX).take_while(|i| has_arg(rt, *i)).count()
}

// ---- what failed

// Tells on standard error that something failed, by its name, and why: `none.y4m: No such file or directory`. The name need not be text.
pub fn fail(rt: &HostRuntime, name: &[u8], error: io::Error) {
    let why = text::of(error);
    let _ = write_all(rt, Stream::Errors, name);
    let _ = write_all(rt, Stream::Errors, b": ");
    let _ = write_all(rt, Stream::Errors, why.words());
    let _ = write_all(rt, Stream::Errors, b"\n");
}
