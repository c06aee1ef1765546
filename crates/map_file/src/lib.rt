// What the programs over split maps in files share: where a root and a block of a map lie, where a map or its digits are refused, and a file that is written.
// No contract can say what is read or written: what stands here is proved safe. It is for the programs alone.
#![tactic(auto)]

ghost use Rattle.std.specs.Prelude.{◌≤◌};

use files::Number;
use say::Stop;
use std::io;

mod bytes; // bytes.rt: where a map is refused
mod digits; // digits.rt: where its digits are refused

pub use bytes::refused_map;
pub use digits::{Digit, behind, refused_digits, tell_refused};

// ---- a block of a map

// Where a block lies, in luma samples.
#[derive(Clone, Copy)]
pub struct Block {
    pub x: usize,
    pub y: usize,
    pub side: usize,
}

// The side of a block, by its level.
fn side_of(level: usize) -> usize {
    64 >> level.min(3)
}

// Where a block starts, across or down: its centre is a unit of the root that starts at a place.
fn start(root: usize, unit: usize, side: usize) -> usize {
    root.wrapping_add(4 * (unit % 16)).wrapping_sub(side / 2)
}

// The block of the root at (x, y) that has a level and a place there, as the list of changes names it.
pub fn block_at(x: usize, y: usize, level: usize, place: usize) -> Block {
    let side = side_of(level);
    Block {
        x: start(x, place, side),
        y: start(y, place / 16, side),
        side,
    }
}

// Where root n starts, in a picture that has so many roots across: it has at most 64 of them, and as many down.
pub fn root_x(across: usize, n: usize) -> usize {
    64 * (n.checked_rem(across).unwrap_or(0) % 64)
}

pub fn root_y(across: usize, n: usize) -> usize {
    64 * (n.checked_div(across).unwrap_or(0) % 64)
}

// How many roots a picture has, and no more than 4,096.
pub fn root_count(w: usize, h: usize) -> usize
    ensures { result ≤ 4096 }
{
    let n = marks::root_count(w, h);
    if 4096 < n {
        return 0;
    }
    n
}

// ---- what is told of it

// Root n of a picture of width w: `root 1 at 64 0`.
pub fn tell_root(rt: &HostRuntime, w: usize, n: usize) {
    let across = def::roots_along(w);
    let x = Number(root_x(across, n));
    let y = Number(root_y(across, n));
    let _ = eprint!(rt; "root {} at {x} {y}", Number(n));
}

// The block of root n that has a place among its root's bytes: `root 1 at 64 0, block of 16 at 96 0: `.
pub fn tell_block(rt: &HostRuntime, w: usize, n: usize, place: usize) {
    let across = def::roots_along(w);
    let x = root_x(across, n);
    let y = root_y(across, n);
    let b = block_at(x, y, place / 256, place % 256);
    let _ = eprint!(rt;
        "root {} at {} {}, block of {} at {} {}: ",
        Number(n),
        Number(x),
        Number(y),
        Number(b.side),
        Number(b.x),
        Number(b.y)
    );
}

// The size of a picture that there is not.
fn tell_size(rt: &HostRuntime, w: usize, h: usize) {
    let _ = eprint!(rt; "a picture of {}x{}: ", Number(w), Number(h));
}

// ---- a file

// Writes the file that argument i names, made or emptied before.
pub fn save(rt: &HostRuntime, i: usize, bytes: &[u8]) -> Result<(), Stop> {
    let mut path = files::buffer();
    let n = files::arg(rt, i, &mut path);
    written(rt, &path[..n], bytes).map_err(|error| say::failed(rt, &path[..n], error))
}

fn written(rt: &HostRuntime, path: &[u8], bytes: &[u8]) -> io::Result<()> {
    let mut file = files::open_overwrite(rt, path)?;
    files::put_all(&mut file, bytes)
}
