// Replays recorded cases of mending. A line of data/cases is a call; the line printed for it is the number that it answers, how many changes there are, and
// the mended map and the list as it leaves them.
#![tactic(auto)]

use cases::Case;
use replay::{Output, Step};
use std::io;

// The calls of the cases.
struct Calls;

impl Step for Calls {
    // The picture's size, its map, and what stands in the two buffers.
    fn one(out: &mut Output, case: &mut Case<'_>) -> io::Result<()> {
        let w = case.number();
        let h = case.number();
        let mut splits = [0u8; 2100];
        let splits = case.slice(&mut splits);
        let mut mended = [0u8; 2100];
        let mended = case.slice(&mut mended);
        let mut list = [0u16; 900];
        let list = case.slice(&mut list);
        let answer = mend::mend(w, h, splits, &mut *mended, &mut *list);
        replay::print_count(out, answer)?;
        replay::print_all(out, mended)?;
        replay::print_all(out, list)?;
        replay::print_end(out)
    }
}

fn main(rt: HostRuntime) -> io::Result<()> {
    replay::each_case::<Calls>(&rt)
}
