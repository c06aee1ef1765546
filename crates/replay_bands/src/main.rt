// Replays recorded cases of deblocking by bands. A line of data/cases is a call; the line printed for it is the number that it answers,
// both passes' edge counts, the position that it hands back, and the planes and the unit words as it leaves them.
#![tactic(auto)]

use cases::Case;
use df::{Banded, Bands};
use replay::{Output, Step};
use std::io;

// The calls of the cases.
struct Calls;

impl Step for Calls {
    // The position, the band, the picture's size, and the lent rows of its planes and unit words come first in a case.
    fn one(out: &mut Output, case: &mut Case<'_>) -> io::Result<()> {
        let next = case.number();
        let band = case.number();
        let w = case.number();
        let h = case.number();
        let mut y = [0u16; 9000];
        let y = case.slice(&mut y);
        let mut u = [0u16; 2250];
        let u = case.slice(&mut u);
        let mut v = [0u16; 2250];
        let v = case.slice(&mut v);
        let mut words = [0u32; 600];
        let words = case.slice(&mut words);
        let position = Bands { next };
        let answer = deblocked(
            case,
            position,
            band,
            w,
            h,
            &mut *y,
            &mut *u,
            &mut *v,
            &mut *words,
        );
        print(out, answer)?;
        filter_cases::print_written(out, y, u, v, words)
    }
}

// Then what lies over the same rows, the chroma QP tables and the strengths, and the settings last.
fn deblocked(
    case: &mut Case<'_>,
    position: Bands,
    band: usize,
    w: usize,
    h: usize,
    y: &mut [u16],
    u: &mut [u16],
    v: &mut [u16],
    words: &mut [u32],
) -> Banded {
    let mut splits = [0u8; 2100];
    let splits = case.slice(&mut splits);
    let mut motion = [0i16; 2400];
    let motion = case.slice(&mut motion);
    let mut refs = [0i8; 1200];
    let refs = case.slice(&mut refs);
    let mut keep = [0u8; 600];
    let keep = case.slice(&mut keep);
    let mut t0 = [0i8; 128];
    let t0 = case.slice(&mut t0);
    let mut t1 = [0i8; 128];
    let t1 = case.slice(&mut t1);
    let mut strengths = [0u8; 256];
    let strengths = case.slice(&mut strengths);
    let settings = filter_cases::settings(case);
    position.deblock_band(
        band, w, h, y, u, v, words, splits, motion, refs, keep, t0, t1, strengths, settings,
    )
}

// The number, the counts, which are 0 where it refused, and the position.
fn print(out: &mut Output, answer: Banded) -> io::Result<()> {
    let (number, vertical, horizontal) = match answer.counts {
        Ok(counts) => (0, counts.vertical, counts.horizontal),
        Err(refusal) => (def::refusal_number(refusal), 0, 0),
    };
    replay::print_first(out, number)?;
    replay::print(out, vertical)?;
    replay::print(out, horizontal)?;
    replay::print(out, answer.next.next)
}

fn main(rt: HostRuntime) -> io::Result<()> {
    replay::each_case::<Calls>(&rt)
}
