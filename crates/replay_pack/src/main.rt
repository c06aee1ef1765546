// Replays recorded cases of the compact map. A line of data/cases is a call, 0 for `put_map` and 1 for `get_map` first; the line printed for it is the number
// that it answers, the position, and the buffer or the map as it leaves it.
#![tactic(auto)]

use cases::Case;
use pack::Placed;
use replay::{Output, Step};
use std::io;

// The number and the position that a call answers, and the slice that was lent to be written.
fn print(out: &mut Output, placed: Placed, written: &[u8]) -> io::Result<()> {
    replay::print_first(out, def::answer_number(placed.answer))?;
    replay::print(out, placed.at)?;
    replay::print_all(out, written)?;
    replay::print_end(out)
}

// The picture's size, the map, what stands in the buffer, and the position.
fn put_case(out: &mut Output, case: &mut Case<'_>) -> io::Result<()> {
    let w = case.number();
    let h = case.number();
    let mut splits = [0u8; 4200];
    let splits = case.slice(&mut splits);
    let mut buf = [0u8; 400];
    let buf = case.slice(&mut buf);
    let at = case.number();
    let placed = pack::put_map(w, h, splits, &mut *buf, at);
    print(out, placed, buf)
}

// The picture's size, the buffer, the position, and what stands in the map.
fn get_case(out: &mut Output, case: &mut Case<'_>) -> io::Result<()> {
    let w = case.number();
    let h = case.number();
    let mut src = [0u8; 400];
    let src = case.slice(&mut src);
    let at = case.number();
    let mut map = [0u8; 4200];
    let map = case.slice(&mut map);
    let placed = unpack::get_map(w, h, src, at, &mut *map);
    print(out, placed, map)
}

// The calls of the cases.
struct Calls;

impl Step for Calls {
    fn one(out: &mut Output, case: &mut Case<'_>) -> io::Result<()> {
        match case.number() {
            0 => put_case(out, case),
            _ => get_case(out, case),
        }
    }
}

fn main(rt: HostRuntime) -> io::Result<()> {
    replay::each_case::<Calls>(&rt)
}
