// Packs the split map of a picture of W by H into a file of its digits as bits, or unpacks it from there, and tells how many bytes the digits take. The exit
// status is 0, or 3 where a packed file goes on behind the map, 1 for a refusal and 2 for a failure.
#![tactic(auto)]

ghost use Rattle.std.specs.Prelude.{IfOk};
ghost use Rattle.files.specs.Counts.{IsPrefixLen};

use files::{Number, Source};
use say::{Done, Stop};
use std::process::ExitCode;

// ---- room for the largest picture's map, which has 4,096 roots of 1,024 bytes, and for its digits, 85 bits a root; and a byte more of each, so that a file
// that is too long is seen. A call for each keeps the checker from looking into the array.

fn map_room() -> [u8; 4194305] {
    [0u8; 4194305]
}

fn digits_room() -> [u8; 43521] {
    [0u8; 43521]
}

// Reads the file that argument 4 names into a room: how many bytes it has.
fn read(rt: &HostRuntime, file: &mut Source, room: &mut [u8]) -> Result<usize, Stop>
    ensures { IfOk result (λ n. IsPrefixLen n room.new) }
{
    let n = files::read_full(&mut *file, room);
    if words::unreadable(rt, 4, file) {
        return Err(Stop::Failed);
    }
    Ok(n)
}

// Tells how many bytes the digits take, at position `at` behind them, in bits.
fn tell(rt: &HostRuntime, at: usize) -> Result<(), Stop> {
    say::told(rt, println!(rt; "bytes={}", Number(at / 8)))
}

// ---- both ways

// The map is packed, and its digits are saved.
fn packed(
    rt: &HostRuntime,
    w: usize,
    h: usize,
    map: &[u8],
    digits: &mut [u8],
) -> Result<Done, Stop> {
    let placed = pack::put_map(w, h, map, &mut *digits, 0);
    placed
        .answer
        .map_err(|refusal| map_file::refused_map(rt, 4, w, h, map, refusal))?;
    map_file::save(rt, 5, digits.get(..placed.at / 8).ok_or(Stop::Failed)?)?;
    tell(rt, placed.at)?;
    Ok(Done::Plain)
}

fn pack(rt: &HostRuntime, file: &mut Source, w: usize, h: usize) -> Result<Done, Stop> {
    let mut map = map_room();
    let n = read(rt, file, &mut map)?;
    packed(rt, w, h, &map[..n], &mut digits_room())
}

// The digits are unpacked, and the map is saved.
fn unpacked(
    rt: &HostRuntime,
    w: usize,
    h: usize,
    digits: &[u8],
    map: &mut [u8],
) -> Result<Done, Stop> {
    let placed = unpack::get_map(w, h, digits, 0, &mut *map);
    placed.answer.map_err(|refusal| map_file::refused_digits(rt, 4, w, h, digits, refusal))?;
    map_file::save(rt, 5, map)?;
    let more = placed.at / 8 < digits.len();
    if more {
        words::name(rt, 4);
        say::line(rt, b"the file goes on behind the map");
    }
    tell(rt, placed.at)?;
    Ok(if more { Done::Noted } else { Done::Plain })
}

fn unpack(rt: &HostRuntime, file: &mut Source, w: usize, h: usize) -> Result<Done, Stop> {
    let mut digits = digits_room();
    let n = read(rt, file, &mut digits)?;
    let bytes = 1024 * map_file::root_count(w, h);
    let mut map = map_room();
    unpacked(rt, w, h, &digits[..n], &mut map[..bytes])
}

// ---- the arguments

// The way to call it. That is an answer where it was asked for.
fn help(rt: &HostRuntime) -> Result<Done, Stop> {
    let _ = eprint!(rt;
        "usage: splitpack pack W H MAP DIGITS
       splitpack unpack W H DIGITS MAP
Writes the split map of a picture of W by H, 1,024 bytes a root, as its digits, a bit each; or back.
status: 0 done, 3 done, and the digits' file goes on, 1 refused, 2 bad usage or a failure of input or output
"
    );
    if words::asked(rt, 1, b"--help") {
        Ok(Done::Plain)
    } else {
        Err(Stop::Failed)
    }
}

#[derive(Clone, Copy)]
enum Way {
    Pack,
    Unpack,
}

fn way_of(rt: &HostRuntime) -> Option<Way> {
    if words::asked(rt, 1, b"pack") {
        Some(Way::Pack)
    } else if words::asked(rt, 1, b"unpack") {
        Some(Way::Unpack)
    } else {
        None
    }
}

// The way that was asked for, of the file that argument 4 names.
fn run(rt: &HostRuntime, way: Way, w: usize, h: usize) -> Result<Done, Stop> {
    let mut file = words::open(rt, 4).ok_or(Stop::Failed)?;
    match way {
        Way::Pack => pack(rt, &mut file, w, h),
        Way::Unpack => unpack(rt, &mut file, w, h),
    }
}

fn main(rt: HostRuntime) -> ExitCode {
    let sides = (words::number_arg(&rt, 2), words::number_arg(&rt, 3));
    say::exit_code(match (way_of(&rt), sides) {
        (Some(way), (Some(w), Some(h))) if files::arg_count(&rt) == 6 => run(&rt, way, w, h),
        _ => help(&rt),
    })
}
