// The blocks that are kept as they were coded: the units of each rectangle that `--keep X,Y,W,H` names, in luma samples.
use crate::asked::quote;
use crate::words_asked::{Word, words_of};
use decoder::Refusal;
use say::Stop;
use y4m_file::Header;

#[derive(Clone, Copy)]
struct Rectangle {
    x: usize,
    y: usize,
    w: usize,
    h: usize,
}

// None where the text is not four numbers between commas.
fn rectangle_of(text: &[u8]) -> Option<Rectangle> {
    let mut parts = text.splitn(4, |b| *b == b',');
    Some(Rectangle {
        x: words::number(parts.next()?)?,
        y: words::number(parts.next()?)?,
        w: words::number(parts.next()?)?,
        h: words::number(parts.next()?)?,
    })
}

fn rectangle_at(rt: &HostRuntime, at: usize) -> Option<Rectangle> {
    let mut word = files::buffer();
    let n = files::arg(rt, at, &mut word);
    rectangle_of(&word[..n])
}

// ---- marks

// The units of a rectangle are kept, in a picture of rows of so many units.
fn mark(keep: &mut [u8], across: usize, r: Rectangle) {
    let top = r.y / 4;
    let bottom = top + r.h / 4;
    for row in top..bottom {
        let first = row.wrapping_mul(across).wrapping_add(r.x / 4);
        for k in 0..r.w / 4 {
            if let Some(kept) = keep.get_mut(first.wrapping_add(k)) {
                *kept = 1;
            }
        }
    }
}

// Whether a run of samples lies on units, inside a side.
fn inside(from: usize, count: usize, side: usize) -> bool {
    if side < from {
        return false;
    }
    (from % 4 == 0) & (count % 4 == 0) & (0 < count) & (count <= side - from)
}

// Argument `at` says a rectangle: its units are kept.
fn one(rt: &HostRuntime, at: usize, header: Header, keep: &mut [u8]) -> Result<(), Stop> {
    let Some(r) = rectangle_at(rt, at) else {
        let _ = eprint!(rt; "finish: ");
        quote(rt, at);
        let _ = eprintln!(rt; " is no rectangle: X,Y,W,H is asked for, in luma samples");
        return Err(Stop::Failed);
    };
    if !(inside(r.x, r.w, header.w) & inside(r.y, r.h, header.h)) {
        let _ = eprint!(rt; "finish: --keep ");
        quote(rt, at);
        let _ = eprint!(rt; ": ");
        say::refused(rt, decoder::refusal_number(Refusal::Block));
        return Err(Stop::Refused);
    }
    mark(keep, header.w / 4, r);
    Ok(())
}

// Every rectangle that the arguments name.
pub(crate) fn all(rt: &HostRuntime, header: Header, keep: &mut [u8]) -> Result<(), Stop> {
    for placed in words_of(rt) {
        if let (Word::Keep, Some(value)) = (placed.word, placed.value) {
            one(rt, value, header, keep)?;
        }
    }
    Ok(())
}
