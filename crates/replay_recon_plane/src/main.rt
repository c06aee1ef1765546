// Replays recorded cases of residual addition into a plane. A line of data/cases is a call; the line printed for it is the number that it
// answers, and the plane as it leaves it.
#![tactic(auto)]

use cases::Case;
use def::Pel;
use replay::{Output, Step};
use std::io;

// The calls of the cases.
struct Calls;

impl Step for Calls {
    fn one(out: &mut Output, case: &mut Case<'_>) -> io::Result<()> {
        let component = replay::component_of(case.number());
        let w = case.number();
        let h = case.number();
        let x = Pel(case.number());
        let y = Pel(case.number());
        let side = case.number();
        let coded = case.number() == 1;
        let mut pred = [0u16; 5000];
        let pred = case.slice(&mut pred);
        let mut coef = [0i16; 5000];
        let coef = case.slice(&mut coef);
        let mut rec = [0u16; 40000];
        let rec = case.slice(&mut rec);
        let answer = recon::recon_plane(component, w, h, x, y, side, coded, pred, coef, &mut *rec);
        replay::print_first(out, def::answer_number(answer))?;
        replay::print_all(out, rec)?;
        replay::print_end(out)
    }
}

fn main(rt: HostRuntime) -> io::Result<()> {
    replay::each_case::<Calls>(&rt)
}
