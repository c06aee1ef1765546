// Replays recorded cases of the mode ranks. A line of data/cases is a call; the line printed for it is the number that the companion
// answers, and the part of the rank table that the lookup answers.
#![tactic(auto)]

use cases::Case;
use def::Scu;
use replay::{Output, Step};
use std::io;

// The calls of the cases.
struct Calls;

impl Step for Calls {
    fn one(out: &mut Output, case: &mut Case<'_>) -> io::Result<()> {
        let w = case.number();
        let h = case.number();
        let mut words = [0u32; 4096];
        let words = case.slice(&mut words);
        let mut modes = [0u8; 4096];
        let modes = case.slice(&mut modes);
        let mut table = [0u8; 256];
        let table = case.slice(&mut table);
        let x = Scu(case.number());
        let y = Scu(case.number());
        let answer = mpm::get_mpm_number(w, h, words, modes, table, x, y);
        replay::print_first(out, def::answer_number(answer))?;
        replay::print_all(out, mpm::get_mpm(w, h, words, modes, table, x, y))?;
        replay::print_end(out)
    }
}

fn main(rt: HostRuntime) -> io::Result<()> {
    replay::each_case::<Calls>(&rt)
}
