// The marks of a root, listed: its blocks of 8 or more in the order of the walk, each with its byte. `list_marks` takes them from split bytes, each with the
// byte that it has to have for the walk to go on; `take_marks` takes them from digits, the bits of a lent slice. There is no Rust beside it.
#![tactic(auto)]

ghost use Rattle.std.specs.Prelude.{false, ◌≡◌, ◌+◌, ◌-◌, ◌*◌, ◌/◌, ◌%◌, ◌^◌, ◌≤◌, ◌<◌, length, drop, take};
ghost use Rattle.std.proofs.lemmas.List.Edits.{sets};
ghost use Rattle.bits.specs.Bits.{bits_from};
ghost use Rattle.def.proofs.Sizes.{Sized};
ghost use Rattle.def.specs.Picture.{size_ok, root_count, roots_along};
ghost use Rattle.laws.specs.Call.{Gives};
ghost use Rattle.laws.specs.Index.{pick};
ghost use Rattle.marks_rules.specs.Descent.{descend, root_descent};
ghost use Rattle.marks_rules.specs.Marks.{blocks_in};
ghost use Rattle.marks_rules.specs.Mended.{mend_by, mend_marks};
ghost use Rattle.split.specs.Picture.{root_bytes, root_x, root_y};
ghost use Rattle.split.specs.Stored.{Block};
ghost use Rattle.split.specs.Walk.{leaf_walk, place};
ghost use Rattle.marks.specs.ListCall as ListCall;
ghost use Rattle.marks.specs.TakeCall as TakeCall;
ghost use Rattle.marks.specs.Stored.{Listed, Opened, part_marks, counted, Grew, Began, part_descents, one, mark_from, marked_of, cut_of};

use bits::get_bit;
use def::{Pel, Refusal, pel2scu, roots_along, size_ok};

// ---- a block

// Where the split byte of the block at (x, y) stands among its root's: by the unit at its centre.
fn byte_place(x: Pel, y: Pel, side: usize, level: usize) -> usize
    requires { (x.0 + side ≤ 8192) × (y.0 + side ≤ 8192) × (level < 4) }
    ensures { (result ≡ 256 * level + (16 * ((y.0 + side / 2) / 4 % 16) + (x.0 + side / 2) / 4 % 16)) × (result < 1024) }
{
    let column = pel2scu(Pel(x.0 + side / 2)).0 % 16;
    let row = pel2scu(Pel(y.0 + side / 2)).0 % 16;
    256 * level + (16 * row + column)
}

// A block's place, in luma samples.
#[derive(Clone, Copy)]
struct Place {
    x: Pel,
    y: Pel,
}

// The place of one part of a block that is cut, by its number: the low bit is its column's, the high one its row's.
// kept: as split's `part_at`, since a public function has no `requires`.
fn part_of(at: Place, half: usize, part: usize) -> Place
    requires { (at.x.0 + half ≤ 8192) × (at.y.0 + half ≤ 8192) × (part < 4) }
    ensures { (result.x.0 ≡ at.x.0 + part % 2 * half) × (result.y.0 ≡ at.y.0 + part / 2 * half) }
{
    Place {
        x: Pel(at.x.0 + part % 2 * half),
        y: Pel(at.y.0 + part / 2 * half),
    }
}

// The place of root i of a picture of width w.
fn root_place(w: usize, i: usize) -> Place
    requires { (4 ≤ w) × (w ≤ 4096) × (i < 4096) }
    ensures { (result.x.0 ≡ 64 * (i % roots_along w)) × (result.y.0 ≡ 64 * (i / roots_along w)) }
{
    let across = roots_along(w);
    Place {
        x: Pel(64 * (i % across)),
        y: Pel(64 * (i / across)),
    }
}

// A mark goes to the list, as one number: twice its place, and its byte.
fn put_mark(out: &mut [u16], n: usize, place: usize, byte: u8) -> usize
    requires { (place < 1024) × (byte < 2) × (n < length out.old) }
    ensures { Listed (one place byte) out.old n out.new result }
{
    out[n] = (2 * place) as u16 + byte as u16;
    n + 1
}

// A listed mark's place among its root's bytes.
pub fn mark_place(mark: u16) -> usize
    ensures { result ≡ (mark_from mark).place }
{
    (mark / 2) as usize
}

// And its byte.
pub fn mark_byte(mark: u16) -> u8
    ensures { result ≡ (mark_from mark).byte }
{
    (mark % 2) as u8
}

// ---- marks from split bytes

// The byte that a block has to have: it is cut where it reaches past the picture, and else a leaf, unless its byte is 1.
fn mended(old: u8, w: usize, h: usize, x: Pel, y: Pel, side: usize, level: usize) -> u8
    requires { Block w h x.0 y.0 side level }
    ensures { (result ≡ mend_by old (w / 4) (h / 4) (2 ^ (4 - level)) (x.0 / 4) (y.0 / 4)) × (result < 2) }
{
    let right = x.0 + side;
    if w < right {
        return 1;
    }
    let bottom = y.0 + side;
    if h < bottom {
        return 1;
    }
    if 1 < old {
        return 0;
    }
    old
}

// A block's own mark is listed: how many are, and whether the block is cut, so that its parts' follow.
#[derive(Drop)]
struct Own {
    count: usize,
    cut: bool,
}

// The own mark of a block of side 8 or more, listed after n that are.
fn own_mark(
    bytes: &[u8],
    w: usize,
    h: usize,
    at: Place,
    side: usize,
    level: usize,
    out: &mut [u16],
    n: usize,
) -> Own
    requires { Block w h at.x.0 at.y.0 side level × (level < 4) × (length bytes.now ≡ 1024) × (n < length out.old) }
    ensures { Opened (mend_marks bytes.now (w / 4) (h / 4) (4 - level) (at.x.0 / 4) (at.y.0 / 4)) (part_marks bytes.now (w / 4) (h / 4) (3 - level) (at.x.0 / 4) (at.y.0 / 4)) out.old n out.new result.count result.cut }
{
    if (w <= at.x.0) | (h <= at.y.0) {
        return Own {
            count: n,
            cut: false,
        };
    }
    let place = byte_place(at.x, at.y, side, level);
    let byte = mended(bytes[place], w, h, at.x, at.y, side, level);
    Own {
        count: put_mark(out, n, place, byte),
        cut: byte == 1,
    }
}

// The marks of the block of side 16 at a place, listed after n that are. Its parts of side 8 have their own mark alone: their parts are units, which have none.
// kept: a function a side. The compiler makes one loop in another of them; one function for all sides, which calls itself on half the side, was tried, and
// takes 2.4 times the instructions over `list_marks` (callgrind: 4,022,139 for 1,667,721) and 1.6 times over `take_marks`.
fn mark_sixteen(bytes: &[u8], w: usize, h: usize, at: Place, out: &mut [u16], n: usize) -> usize
    requires { Block w h at.x.0 at.y.0 16 2 × (length bytes.now ≡ 1024) × (n + blocks_in (4 - 2) ≤ length out.old) }
    ensures { Listed (mend_marks bytes.now (w / 4) (h / 4) (4 - 2) (at.x.0 / 4) (at.y.0 / 4)) out.old n out.new result }
{
    let own = own_mark(bytes, w, h, at, 16, 2, out, n);
    let mut count = own.count;
    if !own.cut {
        return count;
    }
    for part in 0..4 {
        let place = part_of(at, 8, part);
        let eight = own_mark(bytes, w, h, place, 8, 3, out, count);
        count = eight.count;
    }
    count
}

// Of side 32.
fn mark_thirty_two(bytes: &[u8], w: usize, h: usize, at: Place, out: &mut [u16], n: usize) -> usize
    requires { Block w h at.x.0 at.y.0 32 1 × (length bytes.now ≡ 1024) × (n + blocks_in (4 - 1) ≤ length out.old) }
    ensures { Listed (mend_marks bytes.now (w / 4) (h / 4) (4 - 1) (at.x.0 / 4) (at.y.0 / 4)) out.old n out.new result }
{
    let own = own_mark(bytes, w, h, at, 32, 1, out, n);
    let mut count = own.count;
    if !own.cut {
        return count;
    }
    for part in 0..4 {
        let place = part_of(at, 16, part);
        count = mark_sixteen(bytes, w, h, place, out, count);
    }
    count
}

// Of side 64: a root.
fn mark_sixty_four(bytes: &[u8], w: usize, h: usize, at: Place, out: &mut [u16], n: usize) -> usize
    requires { Block w h at.x.0 at.y.0 64 0 × (length bytes.now ≡ 1024) × (n + blocks_in (4 - 0) ≤ length out.old) }
    ensures { Listed (mend_marks bytes.now (w / 4) (h / 4) (4 - 0) (at.x.0 / 4) (at.y.0 / 4)) out.old n out.new result }
{
    let own = own_mark(bytes, w, h, at, 64, 0, out, n);
    let mut count = own.count;
    if !own.cut {
        return count;
    }
    for part in 0..4 {
        let place = part_of(at, 32, part);
        count = mark_thirty_two(bytes, w, h, place, out, count);
    }
    count
}

// The marks of root i.
fn root_marks(w: usize, h: usize, splits: &[u8], i: usize, out: &mut [u16]) -> usize
    requires { Sized w h × (length splits.now ≡ 1024 * root_count w h) × (i < root_count w h) × (length out.old ≡ 85) }
    ensures { Listed (ListCall.root_marks w h splits.now i) out.old 0 out.new result }
{
    let start = 1024 * i;
    let end = start + 1024;
    let at = root_place(w, i);
    mark_sixty_four(&splits[start..end], w, h, at, out, 0)
}

// How many roots a picture of w by h has.
fn roots_in(w: usize, h: usize) -> usize
    requires { Sized w h }
    ensures { (result ≡ root_count w h) × (result ≤ 4096) }
{
    roots_along(w) * roots_along(h)
}

// The same for any w and h: 0 where they are no sides of a picture.
pub fn root_count(w: usize, h: usize) -> usize
    ensures { result ≡ pick (size_ok w h) (root_count w h) 0 }
{
    if !size_ok(w, h) {
        return 0;
    }
    roots_in(w, h)
}

// The marks of a root, by its number in raster order, of a picture of w by h: a number each, twice the place and the byte that the block has to have.
pub fn list_marks(
    w: usize,
    h: usize,
    splits: &[u8],
    root: usize,
    out: &mut [u16],
) -> Result<usize, Refusal>
    ensures { Gives ListCall.outcome
        (record { w = w; h = h; splits = splits.now; root = root; out = out.old })
        (record { reading = ListCall.reading_of result; out = out.new }) }
{
    if !size_ok(w, h) {
        return Err(Refusal::Size);
    }
    let roots = roots_in(w, h);
    if !((splits.len() == 1024 * roots) & (out.len() == 85)) {
        return Err(Refusal::Length);
    }
    if roots <= root {
        return Err(Refusal::Block);
    }
    Ok(root_marks(w, h, splits, root, out))
}

// ---- marks from digits

// A leaf, once its digit was taken: it lies inside the picture.
fn leaf(
    w: usize,
    h: usize,
    x: Pel,
    y: Pel,
    side: usize,
    level: usize,
    n: usize,
) -> Result<Own, Refusal>
    requires { Block w h x.0 y.0 side level }
    ensures count { marked_of result ≡ counted n (leaf_walk (w / 4) (h / 4) (2 ^ (4 - level)) (x.0 / 4) (y.0 / 4)).answer }
    ensures whole { cut_of result ≡ false }
{
    if w < x.0 + side {
        return Err(Refusal::Leaf);
    }
    if h < y.0 + side {
        return Err(Refusal::Leaf);
    }
    Ok(Own {
        count: n,
        cut: false,
    })
}

// The own digit of a block of side 8 or more, of `count` bits from `from` on of which n are taken. A digit makes a mark, so n marks are listed.
fn own_digit(
    src: &[u8],
    from: usize,
    count: usize,
    w: usize,
    h: usize,
    at: Place,
    side: usize,
    level: usize,
    out: &mut [u16; 85],
    n: usize,
) -> Result<Own, Refusal>
    requires { Block w h at.x.0 at.y.0 side level × (level < 4) × (from + count < 2 ^ 64) × (n < 85) }
    ensures { Began (descend (w / 4) (h / 4) (4 - level) (at.x.0 / 4) (at.y.0 / 4) (drop n (bits_from src.now from count))) (part_descents (w / 4) (h / 4) (3 - level) (at.x.0 / 4) (at.y.0 / 4)) (place (3 - level) (at.x.0 / 4) (at.y.0 / 4)) (bits_from src.now from count) out.old n out.new (marked_of result) (cut_of result) }
{
    if (w <= at.x.0) | (h <= at.y.0) {
        return Ok(Own {
            count: n,
            cut: false,
        });
    }
    if count <= n {
        return Err(Refusal::Bits);
    }
    let byte = get_bit(src, from + n);
    let place = byte_place(at.x, at.y, side, level);
    let count = put_mark(out, n, place, byte);
    if byte == 0 {
        return leaf(w, h, at.x, at.y, side, level, count);
    }
    Ok(Own { count, cut: true })
}

// The marks of the block of side 16 at a place, by its digits: a function a side, as above. A part that is refused ends it.
fn grow_sixteen(
    src: &[u8],
    from: usize,
    count: usize,
    w: usize,
    h: usize,
    at: Place,
    out: &mut [u16; 85],
    n: usize,
) -> Result<usize, Refusal>
    requires { Block w h at.x.0 at.y.0 16 2 × (from + count < 2 ^ 64) × (n + blocks_in (4 - 2) ≤ 85) }
    ensures { Grew (descend (w / 4) (h / 4) (4 - 2) (at.x.0 / 4) (at.y.0 / 4) (drop n (bits_from src.now from count))) (bits_from src.now from count) out.old n out.new result }
{
    let own = own_digit(src, from, count, w, h, at, 16, 2, out, n)?;
    let mut taken = own.count;
    if !own.cut {
        return Ok(taken);
    }
    for part in 0..4 {
        let place = part_of(at, 8, part);
        let eight = own_digit(src, from, count, w, h, place, 8, 3, out, taken)?;
        taken = eight.count;
    }
    Ok(taken)
}

// Of side 32.
fn grow_thirty_two(
    src: &[u8],
    from: usize,
    count: usize,
    w: usize,
    h: usize,
    at: Place,
    out: &mut [u16; 85],
    n: usize,
) -> Result<usize, Refusal>
    requires { Block w h at.x.0 at.y.0 32 1 × (from + count < 2 ^ 64) × (n + blocks_in (4 - 1) ≤ 85) }
    ensures { Grew (descend (w / 4) (h / 4) (4 - 1) (at.x.0 / 4) (at.y.0 / 4) (drop n (bits_from src.now from count))) (bits_from src.now from count) out.old n out.new result }
{
    let own = own_digit(src, from, count, w, h, at, 32, 1, out, n)?;
    let mut taken = own.count;
    if !own.cut {
        return Ok(taken);
    }
    for part in 0..4 {
        let place = part_of(at, 16, part);
        taken = grow_sixteen(src, from, count, w, h, place, out, taken)?;
    }
    Ok(taken)
}

// Of side 64: a root.
fn grow_sixty_four(
    src: &[u8],
    from: usize,
    count: usize,
    w: usize,
    h: usize,
    at: Place,
    out: &mut [u16; 85],
    n: usize,
) -> Result<usize, Refusal>
    requires { Block w h at.x.0 at.y.0 64 0 × (from + count < 2 ^ 64) × (n + blocks_in (4 - 0) ≤ 85) }
    ensures { Grew (descend (w / 4) (h / 4) (4 - 0) (at.x.0 / 4) (at.y.0 / 4) (drop n (bits_from src.now from count))) (bits_from src.now from count) out.old n out.new result }
{
    let own = own_digit(src, from, count, w, h, at, 64, 0, out, n)?;
    let mut taken = own.count;
    if !own.cut {
        return Ok(taken);
    }
    for part in 0..4 {
        let place = part_of(at, 32, part);
        taken = grow_thirty_two(src, from, count, w, h, place, out, taken)?;
    }
    Ok(taken)
}

// The digits of root i, the bits from `from` up to `to`, listed as marks into a list of the caller's own.
fn root_grown(
    w: usize,
    h: usize,
    src: &[u8],
    from: usize,
    to: usize,
    i: usize,
    list: &mut [u16; 85],
) -> Result<usize, Refusal>
    requires { Sized w h × (i < root_count w h) }
    ensures { Grew (root_descent (w / 4) (h / 4) i (bits_from src.now from (to - from))) (bits_from src.now from (to - from)) list.old 0 list.new result }
{
    let count = if from < to { to - from } else { 0 };
    let at = root_place(w, i);
    grow_sixty_four(src, from, count, w, h, at, list, 0)
}

// The marks of a root, by its number in raster order, of a picture of w by h, from its digits: the bits from `from` up to `to`.
pub fn take_marks(
    w: usize,
    h: usize,
    src: &[u8],
    from: usize,
    to: usize,
    root: usize,
    out: &mut [u16],
) -> Result<usize, Refusal>
    ensures { Gives TakeCall.outcome
        (record { w = w; h = h; src = src.now; from = from; to = to; root = root; out = out.old })
        (record { reading = ListCall.reading_of result; out = out.new }) }
{
    if !size_ok(w, h) {
        return Err(Refusal::Size);
    }
    if out.len() != 85 {
        return Err(Refusal::Length);
    }
    if roots_in(w, h) <= root {
        return Err(Refusal::Block);
    }
    let mut list = [0u16; 85];
    let n = root_grown(w, h, src, from, to, root, &mut list)?;
    out[..n].copy_from_slice(&list[..n]);
    Ok(n)
}
