// Replays recorded cases of deblocking, by a map of edge rows and by none. A line of data/cases is a call; the line printed for it is the number that
// it answers, both passes' edge counts, and the planes and the unit words as it leaves them.
#![tactic(auto)]

use cases::Case;
use def::Refusal;
use replay::{Output, Step};
use split::EdgeCounts;
use std::io;

// The calls of the cases.
struct Calls;

impl Step for Calls {
    // The picture's size, its planes and its unit words come first in a case.
    fn one(out: &mut Output, case: &mut Case<'_>) -> io::Result<()> {
        let w = case.number();
        let h = case.number();
        let mut y = [0u16; 20000];
        let y = case.slice(&mut y);
        let mut u = [0u16; 5000];
        let u = case.slice(&mut u);
        let mut v = [0u16; 5000];
        let v = case.slice(&mut v);
        let mut words = [0u32; 1300];
        let words = case.slice(&mut words);
        print(
            out,
            deblocked(case, w, h, &mut *y, &mut *u, &mut *v, &mut *words),
        )?;
        filter_cases::print_written(out, y, u, v, words)
    }
}

// Then what lies over the picture, the chroma QP tables, the strengths and the settings, and whether a map of edge rows is lent, which comes last.
fn deblocked(
    case: &mut Case<'_>,
    w: usize,
    h: usize,
    y: &mut [u16],
    u: &mut [u16],
    v: &mut [u16],
    words: &mut [u32],
) -> Result<EdgeCounts, Refusal> {
    let mut splits = [0u8; 67000];
    let splits = case.slice(&mut splits);
    let mut motion = [0i16; 5200];
    let motion = case.slice(&mut motion);
    let mut refs = [0i8; 2600];
    let refs = case.slice(&mut refs);
    let mut keep = [0u8; 1300];
    let keep = case.slice(&mut keep);
    let mut t0 = [0i8; 128];
    let t0 = case.slice(&mut t0);
    let mut t1 = [0i8; 128];
    let t1 = case.slice(&mut t1);
    let mut strengths = [0u8; 256];
    let strengths = case.slice(&mut strengths);
    let settings = filter_cases::settings(case);
    if case.number() == 1 {
        let mut rows = [0u8; 1300];
        let rows = case.slice(&mut rows);
        return df::deblock_by_rows(
            w, h, y, u, v, words, splits, motion, refs, keep, rows, t0, t1, strengths, settings,
        );
    }
    df::deblock(
        w, h, y, u, v, words, splits, motion, refs, keep, t0, t1, strengths, settings,
    )
}

// The number and the counts, which are 0 where it refused.
fn print(out: &mut Output, answer: Result<EdgeCounts, Refusal>) -> io::Result<()> {
    let (number, vertical, horizontal) = match answer {
        Ok(counts) => (0, counts.vertical, counts.horizontal),
        Err(refusal) => (def::refusal_number(refusal), 0, 0),
    };
    replay::print_first(out, number)?;
    replay::print(out, vertical)?;
    replay::print(out, horizontal)
}

fn main(rt: HostRuntime) -> io::Result<()> {
    replay::each_case::<Calls>(&rt)
}
