// Replays recorded cases of gathering. A line of data/cases is a call; the line printed for it is the number that it answers, and the run
// as it leaves it.
#![tactic(auto)]

use cases::Case;
use def::Pel;
use replay::{Output, Step};
use std::io;

// The calls of the cases.
struct Calls;

impl Step for Calls {
    fn one(out: &mut Output, case: &mut Case<'_>) -> io::Result<()> {
        let component = replay::component_of(case.number());
        let w = case.number();
        let h = case.number();
        let mut plane = [0u16; 40000];
        let plane = case.slice(&mut plane);
        let mut words = [0u32; 4096];
        let words = case.slice(&mut words);
        let x = Pel(case.number());
        let y = Pel(case.number());
        let side = case.number();
        let constrained = case.number() == 1;
        let mut run = [0u16; 512];
        let run = case.slice(&mut run);
        let answer = nbr::get_nbr(
            component,
            w,
            h,
            plane,
            words,
            x,
            y,
            side,
            constrained,
            &mut *run,
        );
        replay::print_first(out, def::answer_number(answer))?;
        replay::print_all(out, run)?;
        replay::print_end(out)
    }
}

fn main(rt: HostRuntime) -> io::Result<()> {
    replay::each_case::<Calls>(&rt)
}
