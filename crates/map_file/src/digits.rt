// Where a map's digits are refused. `take_marks` says of each root whether its digits are taken, and of how many; which of them it is refused for is found by
// handing it fewer.
use crate::{root_count, tell_block, tell_size};
use bits::{get_bit, put_bit};
use def::Refusal;
use files::Number;
use say::Stop;

// The digit that is refused: its place among the bits, its root, and its block by the place among the root's bytes.
#[derive(Clone, Copy)]
pub struct Digit {
    pub at: usize,
    pub root: usize,
    pub place: usize,
}

// ---- a root

// How many digits a root takes, of the bits from one place up to another.
fn taken(
    w: usize,
    h: usize,
    src: &[u8],
    from: usize,
    to: usize,
    root: usize,
) -> Result<usize, Refusal> {
    let mut list = [0u16; 85];
    marks::take_marks(w, h, src, from, to, root, &mut list)
}

// How many digits of a refused root stand before the one that it is refused for: as long as they are too few alone, the next one counts.
fn before(w: usize, h: usize, src: &[u8], from: usize, to: usize, root: usize) -> usize {
    for n in 0..85 {
        let next = from.wrapping_add(n);
        if to <= next {
            return n;
        }
        if taken(w, h, src, from, next + 1, root) != Err(Refusal::Bits) {
            return n;
        }
    }
    85
}

// ---- its block

// Some bits from a place on, put first into others.
fn copy(src: &[u8], from: usize, n: usize, bits: &mut [u8]) {
    for i in 0..n {
        put_bit(bits, i, get_bit(src, from.wrapping_add(i)));
    }
}

// The place of the block that a root's digit n stands for: those before it are taken as they are, and each from it on counts as 1, so that none is refused.
fn place_of(w: usize, h: usize, src: &[u8], from: usize, n: usize, root: usize) -> usize {
    let mut bits = [255u8; 11];
    copy(src, from, n, &mut bits);
    let mut list = [0u16; 85];
    match marks::take_marks(w, h, &bits, 0, 88, root, &mut list) {
        Err(_) => 0,
        Ok(_) => marks::mark_place(list.get(n).copied().unwrap_or(0)),
    }
}

// ---- the picture

// The digit of a root that is refused.
fn in_root(w: usize, h: usize, src: &[u8], from: usize, to: usize, root: usize) -> Digit {
    let n = before(w, h, src, from, to, root);
    Digit {
        at: from.wrapping_add(n),
        root,
        place: place_of(w, h, src, from, n, root),
    }
}

// The digit that a map's digits are refused for: they are the bits up to a place. Where every root is taken it is the place behind the last digit.
pub fn behind(w: usize, h: usize, src: &[u8], to: usize) -> Result<usize, Digit> {
    let mut at: usize = 0;
    for root in 0..root_count(w, h) {
        match taken(w, h, src, at, to, root) {
            Ok(n) => at = at.wrapping_add(n),
            Err(_) => return Err(in_root(w, h, src, at, to, root)),
        }
    }
    Ok(at)
}

// ---- a file of digits

// A bit by its byte and its place there, the high one first: `byte 20, bit 0`.
fn tell_bit(rt: &HostRuntime, at: usize) {
    let _ = eprint!(rt; "byte {}, bit {}", Number(at / 8), Number(at % 8));
}

// The first bit of the last byte that is set behind the last digit.
fn set_behind(src: &[u8], from: usize) -> usize {
    for i in 0..8 {
        let at = from.wrapping_add(i);
        if get_bit(src, at) != 0 {
            return at;
        }
    }
    from
}

// How many bits a file of digits has: it is read up to 43,521 bytes.
fn bits_of(bytes: usize) -> usize {
    8 * (bytes % 65536)
}

fn tell_digit(rt: &HostRuntime, w: usize, h: usize, src: &[u8]) {
    let to = bits_of(src.len());
    match behind(w, h, src, to) {
        Ok(end) => {
            tell_bit(rt, set_behind(src, end));
            let _ = eprint!(rt; ", behind the last digit: ");
        }
        Err(digit) => {
            tell_bit(rt, digit.at);
            tell_refused(rt, w, digit, to, "file");
        }
    }
}

// What is behind the place of a digit that is refused: whether the digits end there, in a file or a line, and its root and block.
pub fn tell_refused(rt: &HostRuntime, w: usize, digit: Digit, to: usize, of: &str) {
    if to <= digit.at {
        let _ = eprint!(rt; ", where the {of} ends");
    }
    let _ = eprint!(rt; ", ");
    tell_block(rt, w, digit.root, digit.place);
}

// Tells where the digits of a picture's map, from the file that an argument names, are refused, and for what.
pub fn refused_digits(
    rt: &HostRuntime,
    at: usize,
    w: usize,
    h: usize,
    src: &[u8],
    refusal: Refusal,
) -> Stop {
    words::name(rt, at);
    match refusal {
        Refusal::Size => tell_size(rt, w, h),
        _ => tell_digit(rt, w, h, src),
    }
    say::refused(rt, def::refusal_number(refusal));
    Stop::Refused
}
