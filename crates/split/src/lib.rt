// The split tree: the walk from a root to its leaves. What both passes' lists of edges are is said here too; the crate `edges` writes them.
// The Rust beside it: evc_get_split_mode and evc_split_get_part_structure in util.rs, the recursion of evc_deblock_tree in df.rs.
#![tactic(auto)]

ghost use Rattle.std.specs.Prelude.{◌&&◌, List, ◌≡◌, ℕ, ◌+◌, ◌-◌, ◌*◌, ◌/◌, ◌%◌, ◌^◌, ◌≤◌, ◌<◌, length, get_or, take};
ghost use Rattle.std.proofs.lemmas.List.Edits.{sets};
ghost use Rattle.def.specs.Answers.{answer_number};
ghost use Rattle.def.proofs.Sizes.{Sized};
ghost use Rattle.def.specs.Picture.{size_ok, roots_along, root_count};
ghost use Rattle.laws.specs.Call.{Gives};
ghost use Rattle.laws.specs.Index.{pick};
ghost use Rattle.split.specs.CheckCall as CheckCall;
ghost use Rattle.split.specs.LeavesCall as LeavesCall;
ghost use Rattle.split.specs.Picture.{root_walk, picture_walk};
ghost use Rattle.split.specs.RootLeavesCall as RootLeavesCall;
ghost use Rattle.split.specs.Stored.{Block, Stored};
ghost use Rattle.split.specs.Walk.{walk, leaf_walk};

use def::{Pel, Refusal, pel2scu, roots_along, size_ok};

// How many edges each pass has, as they are listed and as they are filtered.
#[derive(Clone, Copy)]
pub struct EdgeCounts {
    pub vertical: usize,
    pub horizontal: usize,
}

// ---- the walk

// A block's place, in luma samples.
#[derive(Clone, Copy)]
struct Place {
    x: Pel,
    y: Pel,
}

// evc_get_split_mode: the split byte of the block at a place, by the unit at its centre. `bytes` are its root's.
fn get_split_mode(bytes: &[u8], at: Place, side: usize, level: usize) -> u8
    requires { (length bytes.now ≡ 1024) × (at.x.0 + side ≤ 8192) × (at.y.0 + side ≤ 8192) × (level < 4) }
    ensures { result ≡ get_or bytes.now (256 * level + (16 * ((at.y.0 + side / 2) / 4 % 16) + (at.x.0 + side / 2) / 4 % 16)) 0 }
{
    let column = pel2scu(Pel(at.x.0 + side / 2)).0 % 16;
    let row = pel2scu(Pel(at.y.0 + side / 2)).0 % 16;
    bytes[256 * level + (16 * row + column)]
}

// A leaf goes to the list if it lies in the picture.
fn put_leaf(
    w: usize,
    h: usize,
    at: Place,
    side: usize,
    level: usize,
    out: &mut [u16],
    n: usize,
) -> Result<usize, Refusal>
    requires { Block w h at.x.0 at.y.0 side level × (3 * n + 3 ≤ length out.old) }
    ensures { Stored (leaf_walk (w / 4) (h / 4) (2 ^ (4 - level)) (at.x.0 / 4) (at.y.0 / 4)) out.old n out.new result }
{
    if w < at.x.0 + side {
        return Err(Refusal::Leaf);
    }
    if h < at.y.0 + side {
        return Err(Refusal::Leaf);
    }
    let first = 3 * n;
    out[first] = at.x.0 as u16;
    out[first + 1] = at.y.0 as u16;
    out[first + 2] = side as u16;
    Ok(n + 1)
}

// A part of side 4 is a unit and has no byte: it goes to the list as a leaf, unless it starts outside the picture. It stands apart from the walk, of which a call would cost more than the leaf.
fn put_unit(w: usize, h: usize, at: Place, out: &mut [u16], n: usize) -> Result<usize, Refusal>
    requires { Block w h at.x.0 at.y.0 4 4 × (3 * n + 3 ≤ length out.old) }
    ensures { (s : List ℕ) → Stored (walk s (w / 4) (h / 4) 0 (at.x.0 / 4) (at.y.0 / 4)) out.old n out.new result }
{
    if w <= at.x.0 {
        return Ok(n);
    }
    if h <= at.y.0 {
        return Ok(n);
    }
    put_leaf(w, h, at, 4, 4, out, n)
}

// evc_split_get_part_structure: the place of one part of the block at a place, by its number: the low bit is its column's, the high one its row's.
fn part_at(at: Place, half: usize, part: usize) -> Place
    requires { (at.x.0 + half ≤ 8192) × (at.y.0 + half ≤ 8192) × (part < 4) }
    ensures { (result.x.0 ≡ at.x.0 + part % 2 * half) × (result.y.0 ≡ at.y.0 + part / 2 * half) }
{
    Place {
        x: Pel(at.x.0 + part % 2 * half),
        y: Pel(at.y.0 + part / 2 * half),
    }
}

// The leaves of the block of side 8 at a place. It stands apart from the walk for the same reason: most blocks of a tree are of side 8 or units.
fn put_eight(
    bytes: &[u8],
    w: usize,
    h: usize,
    at: Place,
    out: &mut [u16],
    n: usize,
) -> Result<usize, Refusal>
    requires { Block w h at.x.0 at.y.0 8 3 × (length bytes.now ≡ 1024) × (3 * (n + 4) ≤ length out.old) }
    ensures { Stored (walk bytes.now (w / 4) (h / 4) (4 - 3) (at.x.0 / 4) (at.y.0 / 4)) out.old n out.new result }
{
    if w <= at.x.0 {
        return Ok(n);
    }
    if h <= at.y.0 {
        return Ok(n);
    }
    let byte = get_split_mode(bytes, at, 8, 3);
    if byte > 1 {
        return Err(Refusal::Split);
    }
    if byte == 0 {
        return put_leaf(w, h, at, 8, 3, out, n);
    }
    let mut count = n;
    for part in 0..4 {
        let place = part_at(at, 4, part);
        count = put_unit(w, h, place, out, count)?;
    }
    Ok(count)
}

// The leaves of the block at a place, of side 16 or more, in the order of the walk, which calls itself on blocks of half the side until they are of side 8.
fn walk_block(
    bytes: &[u8],
    w: usize,
    h: usize,
    at: Place,
    side: usize,
    level: usize,
    out: &mut [u16],
    n: usize,
) -> Result<usize, Refusal>
    requires { Block w h at.x.0 at.y.0 side level × (level < 3) × (length bytes.now ≡ 1024) × (3 * (n + side / 4 * (side / 4)) ≤ length out.old) }
    ensures { Stored (walk bytes.now (w / 4) (h / 4) (4 - level) (at.x.0 / 4) (at.y.0 / 4)) out.old n out.new result }
{
    if (w <= at.x.0) | (h <= at.y.0) {
        return Ok(n);
    }
    let byte = get_split_mode(bytes, at, side, level);
    if byte > 1 {
        return Err(Refusal::Split);
    }
    if byte == 0 {
        return put_leaf(w, h, at, side, level, out, n);
    }
    let half = side / 2;
    let mut count = n;
    for part in 0..4 {
        let place = part_at(at, half, part);
        let walked = if level == 2 {
            put_eight(bytes, w, h, place, out, count)
        } else {
            walk_block(bytes, w, h, place, half, level + 1, out, count)
        };
        count = walked?;
    }
    Ok(count)
}

// The walk of root i, in raster order, of a picture of w by h.
fn walk_root(w: usize, h: usize, splits: &[u8], i: usize, out: &mut [u16]) -> Result<usize, Refusal>
    requires { Sized w h × (length splits.now ≡ 1024 * root_count w h) × (i < root_count w h) × (length out.old ≡ 768) }
    ensures { Stored (root_walk splits.now (w / 4) (h / 4) i) out.old 0 out.new result }
{
    let across = roots_along(w);
    let start = 1024 * i;
    let end = start + 1024;
    let at = Place {
        x: Pel(64 * (i % across)),
        y: Pel(64 * (i / across)),
    };
    walk_block(&splits[start..end], w, h, at, 64, 0, out, 0)
}

// How many roots a picture of w by h has.
fn root_count(w: usize, h: usize) -> usize
    requires { (w ≤ 4096) × (h ≤ 4096) }
    ensures { (result ≡ root_count w h) × (result ≤ 4096) }
{
    roots_along(w) * roots_along(h)
}

// Whether the walk of the whole picture is refused.
fn walk_picture(w: usize, h: usize, splits: &[u8]) -> Result<(), Refusal>
    requires { Sized w h × (length splits.now ≡ 1024 * root_count w h) }
    ensures { result ≡ (picture_walk splits.now (w / 4) (h / 4)).answer }
{
    let mut list = [0u16; 768];
    for i in 0..root_count(w, h) {
        walk_root(w, h, splits, i, &mut list)?;
    }
    Ok(())
}

// ---- the leaves of a root

// Whether the split bytes and the lent list have their lengths.
fn leaves_lengths_ok(w: usize, h: usize, splits: usize, out: usize) -> bool
    requires { Sized w h }
    ensures { result ≡ LeavesCall.lengths_ok w h splits out }
{
    (splits == 1024 * root_count(w, h)) & (out == 768)
}

// The checks of `root_leaves`, the walk among them: it leaves the leaves in a list of the caller's own.
fn met_leaves(
    w: usize,
    h: usize,
    splits: &[u8],
    i: usize,
    out: usize,
    list: &mut [u16],
) -> Result<usize, Refusal>
    requires { length list.old ≡ 768 }
    ensures { LeavesCall.Met w h splits.now (64 * (i % roots_along w)) (64 * (i / roots_along w)) out list.new result }
{
    if !size_ok(w, h) {
        return Err(Refusal::Size);
    }
    if !leaves_lengths_ok(w, h, splits.len(), out) {
        return Err(Refusal::Length);
    }
    if root_count(w, h) <= i {
        return Err(Refusal::Block);
    }
    walk_root(w, h, splits, i, list)
}

// The leaves of root i, in raster order, of a picture of w by h, in the order of the walk: x, y and side of each, in luma samples.
pub fn root_leaves(
    w: usize,
    h: usize,
    splits: &[u8],
    i: usize,
    out: &mut [u16],
) -> Result<usize, Refusal>
    ensures { Gives RootLeavesCall.outcome
        (record { w = w; h = h; splits = splits.now; root = i; out = out.old })
        (LeavesCall.after result out.new) }
{
    let mut list = [0u16; 768];
    let n = met_leaves(w, h, splits, i, out.len(), &mut list)?;
    out[..3 * n].copy_from_slice(&list[..3 * n]);
    Ok(n)
}

// Whether (x, y) is the place of a root of a picture of w by h.
fn root_ok(w: usize, h: usize, x: Pel, y: Pel) -> bool
    ensures { result ≡ LeavesCall.root_ok w h x.0 y.0 }
{
    (x.0 % 64 == 0) & (y.0 % 64 == 0) & (x.0 < w) & (y.0 < h)
}

// The number of the root at (x, y), in raster order. Where none stands there it is 4096, which no root has.
fn root_number(w: usize, h: usize, x: Pel, y: Pel) -> usize
    ensures { result ≡ pick (size_ok w h && LeavesCall.root_ok w h x.0 y.0) (LeavesCall.root_index w x.0 y.0) 4096 }
{
    let px = x.0;
    let py = y.0;
    if size_ok(w, h) & root_ok(w, h, x, y) {
        return py / 64 * roots_along(w) + px / 64;
    }
    4096
}

// The leaves of the root at (x, y), as `root_leaves` lists them.
pub fn leaves(
    w: usize,
    h: usize,
    splits: &[u8],
    x: Pel,
    y: Pel,
    out: &mut [u16],
) -> Result<usize, Refusal>
    ensures { Gives LeavesCall.outcome
        (record { w = w; h = h; splits = splits.now; x = x.0; y = y.0; out = out.old })
        (record { reading = LeavesCall.reading_of result; out = out.new }) }
{
    root_leaves(w, h, splits, root_number(w, h, x, y), out)
}

// ---- check

// Whether the walk of a picture is refused, and why.
pub fn check(w: usize, h: usize, splits: &[u8]) -> Result<(), Refusal>
    ensures { Gives CheckCall.outcome (record { w = w; h = h; splits = splits.now }) (record { number = answer_number result }) }
{
    if !size_ok(w, h) {
        return Err(Refusal::Size);
    }
    if splits.len() != 1024 * root_count(w, h) {
        return Err(Refusal::Length);
    }
    walk_picture(w, h, splits)
}
