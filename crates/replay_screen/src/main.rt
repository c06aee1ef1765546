// Replays recorded cases of the ward's screen. A line of data/cases is a call; the line printed for it is the number that it answers, the turn that it hands
// back, how many samples it wrote, and the row's buffer as it leaves it.
#![tactic(auto)]

use cases::Case;
use replay::{Output, Step};
use std::io;
use ward::{Rowed, Run, Turn, Window};

// The number, the turn, and how many samples were written, which is 0 where it refused.
fn print(out: &mut Output, rowed: Rowed) -> io::Result<()> {
    let (number, written) = match rowed.written {
        Ok(written) => (0, written),
        Err(refusal) => (decoder::refusal_number(refusal), 0),
    };
    let turn = rowed.next;
    replay::print_first(out, number)?;
    replay::print(out, turn.plane)?;
    replay::print(out, turn.row)?;
    replay::print(out, written)
}

fn run_of(preview: bool) -> Run {
    if preview { Run::Preview } else { Run::Full }
}

fn read_turn(case: &mut Case<'_>) -> Turn {
    let run = run_of(case.number() == 1);
    let plane = case.number();
    let row = case.number();
    Turn { run, plane, row }
}

fn read_window(case: &mut Case<'_>) -> Window {
    let left = case.number();
    let top = case.number();
    let right = case.number();
    let bottom = case.number();
    Window {
        left,
        top,
        right,
        bottom,
    }
}

// The calls of the cases.
struct Calls;

impl Step for Calls {
    // A case: its turn, the row that is asked for, the format and the sides, the planes, the window, the buffer.
    fn one(out: &mut Output, case: &mut Case<'_>) -> io::Result<()> {
        let turn = read_turn(case);
        let plane = case.number();
        let row = case.number();
        let format = replay::format_of(case.number() == 1);
        let w = case.number();
        let h = case.number();
        let mut y = [0u16; 1024];
        let y = case.slice(&mut y);
        let mut u = [0u16; 1024];
        let u = case.slice(&mut u);
        let mut v = [0u16; 1024];
        let v = case.slice(&mut v);
        let window = read_window(case);
        let mut given = [0u8; 1024];
        let given = case.slice(&mut given);
        print(
            out,
            turn.row(plane, row, format, w, h, y, u, v, window, &mut *given),
        )?;
        replay::print_all(out, given)?;
        replay::print_end(out)
    }
}

fn main(rt: HostRuntime) -> io::Result<()> {
    replay::each_case::<Calls>(&rt)
}
