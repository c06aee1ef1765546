// Replays recorded cases of the block driver. A line of data/cases is a call; the line printed for it is the number that it answers, and
// the planes, the unit words, the modes and the keep bytes as it leaves them.
#![tactic(auto)]

use cases::Case;
use def::Format;
use replay::{Output, Step};
use std::io;

// What a call names, and what it is lent to read: the split bytes, the two lists of their leaves, and the prediction.
#[derive(Clone, Copy)]
struct Given<'a> {
    w: usize,
    h: usize,
    format: Format,
    constrained: bool,
    splits: &'a [u8],
    leaves: &'a [u8],
    residual: &'a [i16],
    pred_y: &'a [u16],
    pred_u: &'a [u16],
    pred_v: &'a [u16],
}

// The calls of the cases.
struct Calls;

impl Step for Calls {
    // The picture's size and two flags come first in a case, whether it has colour and whether its intra is constrained; then its split bytes,
    // the two lists of its leaves, and the lent prediction.
    fn one(out: &mut Output, case: &mut Case<'_>) -> io::Result<()> {
        let w = case.number();
        let h = case.number();
        let format = replay::format_of(case.number() == 1);
        let constrained = case.number() == 1;
        let mut splits = [0u8; 67000];
        let splits = case.slice(&mut splits);
        let mut leaves = [0u8; 5000];
        let leaves = case.slice(&mut leaves);
        let mut residual = [0i16; 30000];
        let residual = case.slice(&mut residual);
        let mut pred_y = [0u16; 20000];
        let pred_y = case.slice(&mut pred_y);
        let mut pred_u = [0u16; 5000];
        let pred_u = case.slice(&mut pred_u);
        let mut pred_v = [0u16; 5000];
        let pred_v = case.slice(&mut pred_v);
        let given = Given {
            w,
            h,
            format,
            constrained,
            splits,
            leaves,
            residual,
            pred_y,
            pred_u,
            pred_v,
        };
        reconstructed(out, case, &given)
    }
}

// Then the planes, the unit words, the modes and the keep bytes, and the call is made.
fn reconstructed(out: &mut Output, case: &mut Case<'_>, g: &Given<'_>) -> io::Result<()> {
    let mut y = [0u16; 20000];
    let y = case.slice(&mut y);
    let mut u = [0u16; 5000];
    let u = case.slice(&mut u);
    let mut v = [0u16; 5000];
    let v = case.slice(&mut v);
    let mut words = [0u32; 1300];
    let words = case.slice(&mut words);
    let mut modes = [0u8; 1300];
    let modes = case.slice(&mut modes);
    let mut keep = [0u8; 1300];
    let keep = case.slice(&mut keep);
    let answer = driver::reconstruct(
        g.w,
        g.h,
        g.format,
        g.splits,
        g.leaves,
        g.residual,
        g.pred_y,
        g.pred_u,
        g.pred_v,
        g.constrained,
        &mut *y,
        &mut *u,
        &mut *v,
        &mut *words,
        &mut *modes,
        &mut *keep,
    );
    replay::print_first(out, def::answer_number(answer))?;
    print_written(out, y, u, v, words, modes, keep)
}

// What the call may have written.
fn print_written(
    out: &mut Output,
    y: &[u16],
    u: &[u16],
    v: &[u16],
    words: &[u32],
    modes: &[u8],
    keep: &[u8],
) -> io::Result<()> {
    replay::print_all(out, y)?;
    replay::print_all(out, u)?;
    replay::print_all(out, v)?;
    replay::print_all(out, words)?;
    replay::print_all(out, modes)?;
    replay::print_all(out, keep)?;
    replay::print_end(out)
}

fn main(rt: HostRuntime) -> io::Result<()> {
    replay::each_case::<Calls>(&rt)
}
