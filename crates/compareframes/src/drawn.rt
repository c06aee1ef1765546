// The picture of two frames' differences: a PGM as large as the luma plane. A sample that is the same is black, or dark grey on the grid of units; one that
// differs, or whose colour does, is the brighter the more it does.
use files::Number;
use say::Stop;
use std::io;
use std::io::Write;
use y4m_file::Picture;

// How far two planes are apart at a place: not at all past their end.
fn distance_at(a: &[u16], b: &[u16], at: usize) -> u16 {
    match (a.get(at), b.get(at)) {
        (Some(x), Some(y)) => x.abs_diff(*y),
        _ => 0,
    }
}

// How far two frames are apart at column x, row y, in luma or in colour.
fn distance(a: &Picture, b: &Picture, x: usize, y: usize) -> u16 {
    let luma = y.wrapping_mul(a.w).wrapping_add(x);
    let chroma = (y / 2).wrapping_mul(a.w / 2).wrapping_add(x / 2);
    let colour = distance_at(a.u, b.u, chroma).max(distance_at(a.v, b.v, chroma));
    distance_at(a.y, b.y, luma).max(colour)
}

// The shade of a difference at column x, row y.
fn shade(d: u16, x: usize, y: usize) -> u8 {
    match d {
        0 if (x % 4 == 0) | (y % 4 == 0) => 40,
        0 => 0,
        1..=15 => (100 + 10 * d) as u8,
        _ => 255,
    }
}

// Row y of the picture.
fn row(a: &Picture, b: &Picture, y: usize, out: &mut [u8]) {
    for (x, shown) in out.iter_mut().enumerate() {
        *shown = shade(distance(a, b, x, y), x, y);
    }
}

// The picture into the file of a name, made or emptied before.
fn put(rt: &HostRuntime, path: &[u8], a: &Picture, b: &Picture) -> io::Result<()> {
    let mut file = files::open_overwrite(rt, path)?;
    let w = a.w;
    let h = a.h;
    let mut room = [0u8; 4096];
    if room.len() < w {
        return Err(io::Error::from(io::ErrorKind::InvalidInput));
    }
    write!(file, "P5\n{} {}\n255\n", Number(w), Number(h))?;
    let out = &mut room[..w];
    for y in 0..h {
        row(a, b, y, out);
        file.write_all(out)?;
    }
    Ok(())
}

// The picture, into the file that an argument names; where it cannot be written that is told.
pub(crate) fn draw(rt: &HostRuntime, at: usize, a: &Picture, b: &Picture) -> Result<(), Stop> {
    let mut path = files::buffer();
    let n = files::arg(rt, at, &mut path);
    let name = &path[..n];
    put(rt, name, a, b).map_err(|error| say::failed(rt, name, error))
}
