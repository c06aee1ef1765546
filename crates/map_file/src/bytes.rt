// Where a split map is refused: the first byte of the walk that its block cannot have.
use crate::{root_count, tell_block, tell_root, tell_size};
use def::Refusal;
use files::Number;
use say::Stop;

// ---- the byte

// A byte of a map: 0 past its end.
fn byte_at(map: &[u8], i: usize) -> u8 {
    map.get(i).copied().unwrap_or(0)
}

// Of the first n marks of a root whose bytes start at a place: the place of the first, among the root's bytes, that has another byte than its block can
// have.
fn torn_in(map: &[u8], start: usize, list: &[u16], n: usize) -> Option<usize> {
    for mark in list.iter().take(n) {
        let place = marks::mark_place(*mark);
        if byte_at(map, start.wrapping_add(place)) != marks::mark_byte(*mark) {
            return Some(place);
        }
    }
    None
}

// The same of a root by its number.
fn torn(w: usize, h: usize, map: &[u8], root: usize) -> Option<usize> {
    let mut list = [0u16; 85];
    let n = marks::list_marks(w, h, map, root, &mut list).ok()?;
    torn_in(map, 1024 * (root % 4096), &list, n)
}

// Tells the first such byte of a map, with the root and the block.
fn tell_torn(rt: &HostRuntime, w: usize, h: usize, map: &[u8]) {
    for root in 0..root_count(w, h) {
        if let Some(place) = torn(w, h, map, root) {
            let _ = eprint!(rt; "byte {}, ", Number(1024 * (root % 4096) + place % 1024));
            tell_block(rt, w, root, place);
            return;
        }
    }
}

// ---- its length

// How long a map is and has to be, and the root in which a short one ends.
fn tell_lengths(rt: &HostRuntime, w: usize, h: usize, n: usize) {
    let asked = 1024 * root_count(w, h);
    let there = Number(n);
    let wanted = Number(asked);
    let _ = eprint!(rt; "the map has {there} bytes, and that of the picture {wanted}");
    if n < asked {
        let _ = eprint!(rt; ", it ends in ");
        tell_root(rt, w, n / 1024);
    }
    let _ = eprint!(rt; ": ");
}

// ---- the call

// Tells where the map of a picture of w by h, from the file that an argument names, is refused, and for what.
pub fn refused_map(
    rt: &HostRuntime,
    at: usize,
    w: usize,
    h: usize,
    map: &[u8],
    refusal: Refusal,
) -> Stop {
    words::name(rt, at);
    match refusal {
        Refusal::Size => tell_size(rt, w, h),
        Refusal::Length => tell_lengths(rt, w, h, map.len()),
        _ => tell_torn(rt, w, h, map),
    }
    say::refused(rt, def::refusal_number(refusal));
    Stop::Refused
}
