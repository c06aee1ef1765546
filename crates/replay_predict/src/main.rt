// Replays recorded cases of the five modes. A line of data/cases is a call; the line printed for it is the number that it answers, and the
// block as it leaves it.
#![tactic(auto)]

use cases::Case;
use replay::{Output, Step};
use std::io;

// The calls of the cases.
struct Calls;

impl Step for Calls {
    fn one(out: &mut Output, case: &mut Case<'_>) -> io::Result<()> {
        let mode = case.read();
        let side = case.number();
        let mut run = [0u16; 512];
        let run = case.slice(&mut run);
        let mut block = [0u16; 5000];
        let block = case.slice(&mut block);
        let answer = ipred::ipred_b(mode, side, run, &mut *block);
        replay::print_first(out, def::answer_number(answer))?;
        replay::print_all(out, block)?;
        replay::print_end(out)
    }
}

fn main(rt: HostRuntime) -> io::Result<()> {
    replay::each_case::<Calls>(&rt)
}
