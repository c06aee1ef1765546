// Replays recorded cases of both availability calls. A line of data/cases is a call, 0 intra or 1 inter first; the line printed for it is
// the number that it answers, and the eight answers.
#![tactic(auto)]

use avail::Neighbours;
use cases::Case;
use def::{Pel, Refusal};
use replay::{Output, Step};
use std::io;

// The number and the eight answers, all of them no where it refused.
fn print(out: &mut Output, answer: Result<Neighbours, Refusal>) -> io::Result<()> {
    let (number, eight) = match answer {
        Ok(n) => (0, eight_of(n)),
        Err(refusal) => (def::refusal_number(refusal), [false; 8]),
    };
    replay::print_first(out, number)?;
    for is in eight {
        replay::print(out, u8::from(is))?;
    }
    replay::print_end(out)
}

fn eight_of(n: Neighbours) -> [bool; 8] {
    [
        n.up,
        n.left,
        n.right,
        n.up_left,
        n.up_right,
        n.low_left,
        n.low_right,
        n.right_up,
    ]
}

// The calls of the cases.
struct Calls;

impl Step for Calls {
    fn one(out: &mut Output, case: &mut Case<'_>) -> io::Result<()> {
        let intra = case.number() == 0;
        let w = case.number();
        let h = case.number();
        let mut words = [0u32; 4096];
        let words = case.slice(&mut words);
        let x = Pel(case.number());
        let y = Pel(case.number());
        let side = case.number();
        let answer = if intra {
            avail::get_avail_intra(w, h, words, x, y, side)
        } else {
            avail::get_avail_inter(w, h, words, x, y, side)
        };
        print(out, answer)
    }
}

fn main(rt: HostRuntime) -> io::Result<()> {
    replay::each_case::<Calls>(&rt)
}
