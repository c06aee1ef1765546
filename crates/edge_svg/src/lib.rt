// Draws a split tree as an SVG picture on standard output: its leaves, and the edges that deblocking visits, those of the vertical pass in one colour and those
// of the horizontal in another; numbered in their order, and with the bytes marked that mending a torn map changes, where that is asked for. It reads, calls
// and writes: each rule is in a call of the face. `edgepicture` is this; the programs beside it are further runs of it, whose output is compared, too.
#![tactic(auto)]

use asked::{Asked, Form};
use files::Source;
use out::Out;
use say::{Done, Stop};
use std::io;
use std::io::Write;
use std::process::ExitCode;
use tree_file::Tree;

mod asked; // asked.rt: what the arguments ask for
mod out; // out.rt: the way to standard output
mod roots; // roots.rt: the tree, root by root
mod svg; // svg.rt: the parts of the picture

// What is drawn, and how.
#[derive(Clone, Copy)]
struct Job {
    w: usize,
    h: usize,
    limit: usize,
    scale: u8,
    numbers: bool,
    torn: bool,
}

// What was drawn so far.
#[derive(Clone, Copy, Default)]
struct Counts {
    leaves: usize,
    vertical: usize,
    horizontal: usize,
    changes: usize,
}

// Room for the largest picture's map, 4,096 roots, and a byte more. A call keeps the checker from looking into the array.
fn map_room() -> [u8; 4194305] {
    [0u8; 4194305]
}

// The picture, or why it cannot be written.
fn drawn(rt: &HostRuntime, job: Job, map: &[u8]) -> io::Result<()> {
    let mut out = Out::new(rt.stdout());
    svg::start(&mut out, job)?;
    let counts = roots::bands(&mut out, job, map)?;
    svg::end(&mut out, job, counts)?;
    out.flush()
}

fn job_of(tree: Tree, a: Asked) -> Job {
    let torn = matches!(a.form, Form::Bytes(_, true));
    Job {
        w: tree.w,
        h: tree.h,
        limit: tree.limit,
        scale: svg::scale(tree.w, tree.h, a.numbers | torn),
        numbers: a.numbers,
        torn,
    }
}

// The tree that is asked for, its map first in a room.
fn tree_of(rt: &HostRuntime, a: Asked, file: &mut Source, map: &mut [u8]) -> Result<Tree, Stop> {
    match a.form {
        Form::Sheet => tree_file::by_sheet(rt, a.file, file, map),
        Form::Bytes(tree, torn) => {
            tree_file::by_bytes(rt, a.file, file, tree.w, tree.h, torn, map)?;
            Ok(tree)
        }
        Form::Digits(tree) => {
            tree_file::by_digits(rt, a.file, file, tree.w, tree.h, map)?;
            Ok(tree)
        }
    }
}

// The picture of the tree in a file.
fn file_drawn(rt: &HostRuntime, a: Asked, file: &mut Source) -> Result<Done, Stop> {
    let mut map = map_room();
    let tree = tree_of(rt, a, file, &mut map)?;
    let n = tree_file::map_bytes(tree.w, tree.h);
    say::told(rt, drawn(rt, job_of(tree, a), &map[..n]))?;
    Ok(Done::Plain)
}

fn opened(rt: &HostRuntime, a: Asked) -> Result<Done, Stop> {
    let mut file = if a.file == 0 {
        files::standard_input(rt)
    } else {
        words::open(rt, a.file).ok_or(Stop::Failed)?
    };
    file_drawn(rt, a, &mut file)
}

// The way to call it. That is an answer where it was asked for.
fn help(rt: &HostRuntime) -> Result<Done, Stop> {
    let _ = eprint!(rt;
        "usage: edgepicture [--numbers] [SHEET]
       edgepicture [--numbers] [--torn] W H LIMIT MAP
       edgepicture [--numbers] --digits W H LIMIT DIGITS
Draws the leaves of a split tree and the edges between them as SVG: vertical edges orange, horizontal ones blue.
SHEET      a sheet, as edgelist reads it; without it, standard input
MAP        the split map of a picture of W by H, 1,024 bytes a root; LIMIT is 5 or 6
DIGITS     the same by its digits, as splitpack writes it
--numbers  writes at each edge its place in its pass's order, from 1
--torn     mends the map, and marks each block whose byte was changed
status: 0 done, 1 refused, 2 bad usage or a failure of input or output
"
    );
    if words::asked(rt, 1, b"--help") {
        Ok(Done::Plain)
    } else {
        Err(Stop::Failed)
    }
}

// The program, by its arguments.
pub fn run(rt: &HostRuntime) -> ExitCode {
    say::exit_code(match asked::arguments(rt) {
        Some(a) => opened(rt, a),
        None => help(rt),
    })
}
