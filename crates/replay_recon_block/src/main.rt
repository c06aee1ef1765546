// Replays recorded cases of residual addition, block to block. A line of data/cases is a call; the line printed for it is the number that
// it answers, and the block as it leaves it.
#![tactic(auto)]

use cases::Case;
use replay::{Output, Step};
use std::io;

// The calls of the cases.
struct Calls;

impl Step for Calls {
    fn one(out: &mut Output, case: &mut Case<'_>) -> io::Result<()> {
        let coded = case.number() == 1;
        let side = case.number();
        let mut pred = [0u16; 5000];
        let pred = case.slice(&mut pred);
        let mut coef = [0i16; 5000];
        let coef = case.slice(&mut coef);
        let mut rec = [0u16; 5000];
        let rec = case.slice(&mut rec);
        let answer = recon::recon(coded, side, pred, coef, &mut *rec);
        replay::print_first(out, def::answer_number(answer))?;
        replay::print_all(out, rec)?;
        replay::print_end(out)
    }
}

fn main(rt: HostRuntime) -> io::Result<()> {
    replay::each_case::<Calls>(&rt)
}
