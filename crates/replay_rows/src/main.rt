// Replays recorded cases of the map of edge rows. A line of data/cases is a call, its kind first: 0 fills the map, 1 sets a unit's motion, 2 a bit of its
// word. The line printed for it is the number that it answers, and every slice that it may write, as it leaves it.
#![tactic(auto)]

use cases::Case;
use def::Scu;
use line::Motion;
use replay::{Output, Step};
use std::io;
use unit_edits::Flag;

fn fill_case(out: &mut Output, case: &mut Case<'_>) -> io::Result<()> {
    let w = case.number();
    let h = case.number();
    let mut words = [0u32; 1024];
    let words = case.slice(&mut words);
    let mut motion = [0i16; 4096];
    let motion = case.slice(&mut motion);
    let mut refs = [0i8; 2048];
    let refs = case.slice(&mut refs);
    let mut rows = [0u8; 1024];
    let rows = case.slice(&mut rows);
    let answer = rows::fill_rows(w, h, words, motion, refs, &mut *rows);
    replay::print_first(out, def::answer_number(answer))?;
    replay::print_all(out, rows)?;
    replay::print_end(out)
}

// A motion as a case has it: x and y of list 0 and of list 1, then the references.
fn read_motion(case: &mut Case<'_>) -> Motion {
    let x0 = case.read();
    let y0 = case.read();
    let x1 = case.read();
    let y1 = case.read();
    let refi0 = case.read();
    let refi1 = case.read();
    Motion {
        refi0,
        refi1,
        x0,
        y0,
        x1,
        y1,
    }
}

fn motion_case(out: &mut Output, case: &mut Case<'_>) -> io::Result<()> {
    let w = case.number();
    let h = case.number();
    let x = Scu(case.number());
    let y = Scu(case.number());
    let to = read_motion(case);
    let mut words = [0u32; 1024];
    let words = case.slice(&mut words);
    let mut motion = [0i16; 4096];
    let motion = case.slice(&mut motion);
    let mut refs = [0i8; 2048];
    let refs = case.slice(&mut refs);
    let mut rows = [0u8; 1024];
    let rows = case.slice(&mut rows);
    let answer = unit_edits::set_motion(
        w,
        h,
        x,
        y,
        to,
        words,
        &mut *motion,
        &mut *refs,
        &mut *rows,
    );
    replay::print_first(out, def::answer_number(answer))?;
    replay::print_all(out, motion)?;
    replay::print_all(out, refs)?;
    replay::print_all(out, rows)?;
    replay::print_end(out)
}

fn flag_of(coded: bool) -> Flag {
    if coded { Flag::Coded } else { Flag::Intra }
}

fn flag_case(out: &mut Output, case: &mut Case<'_>) -> io::Result<()> {
    let w = case.number();
    let h = case.number();
    let x = Scu(case.number());
    let y = Scu(case.number());
    let flag = flag_of(case.number() == 1);
    let on = case.number() == 1;
    let mut words = [0u32; 1024];
    let words = case.slice(&mut words);
    let mut motion = [0i16; 4096];
    let motion = case.slice(&mut motion);
    let mut refs = [0i8; 2048];
    let refs = case.slice(&mut refs);
    let mut rows = [0u8; 1024];
    let rows = case.slice(&mut rows);
    let answer = unit_edits::set_flag(w, h, x, y, flag, on, &mut *words, motion, refs, &mut *rows);
    replay::print_first(out, def::answer_number(answer))?;
    replay::print_all(out, words)?;
    replay::print_all(out, rows)?;
    replay::print_end(out)
}

// The calls of the cases.
struct Calls;

impl Step for Calls {
    fn one(out: &mut Output, case: &mut Case<'_>) -> io::Result<()> {
        match case.number() {
            0 => fill_case(out, case),
            1 => motion_case(out, case),
            _ => flag_case(out, case),
        }
    }
}

fn main(rt: HostRuntime) -> io::Result<()> {
    replay::each_case::<Calls>(&rt)
}
