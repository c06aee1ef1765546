// What every module shares: positions, the unit word, picture sizes, blocks and units by their place, and the refusals with their numbers.
// The Rust beside it: def.rs.
#![tactic(auto)]

ghost use Rattle.std.specs.Prelude.{◌≡◌, ◌/◌, ◌≤◌, ◌<◌};
ghost use Rattle.def.specs.Answers.{answer_number};
ghost use Rattle.def.specs.Blocks.{block_side_ok, component_side_ok, block_ok, unit_ok};
ghost use Rattle.def.specs.Components.{scale_of};
ghost use Rattle.def.specs.Formats.{in_format};
ghost use Rattle.def.specs.Picture.{size_ok, roots_along};
ghost use Rattle.def.specs.Refusals.{number_of};
ghost use Rattle.def.specs.Word.{intra_of, qp_of, coded_of, done_of, with_done, without_done, bit, leaf_word};

// ---- positions

// A sample's column or row in the luma plane.
#[derive(Clone, Copy)]
pub struct Pel(pub usize);

// A unit's column or row: a unit is 4x4 luma samples.
#[derive(Clone, Copy)]
pub struct Scu(pub usize);

// PEL2SCU, the one step between the two.
pub fn pel2scu(p: Pel) -> Scu
    ensures { result.0 ≡ p.0 / 4 }
{
    Scu(p.0 / 4)
}

// ---- components

// A component of a 4:2:0 picture. The two chroma planes have one form.
#[derive(Clone, Copy)]
pub enum Component {
    Luma,
    Chroma,
}

// The chroma format of a picture. Format 0 is grey: it has luma alone, and its chroma planes have length 0. Format 1 is colour, 4:2:0.
#[derive(Clone, Copy)]
pub enum Format {
    Grey,
    Colour,
}

// A length or a place counted in luma samples, in the samples of the component.
pub fn in_component(c: Component, n: usize) -> usize
    ensures { result ≡ n / scale_of c }
{
    match c {
        Component::Luma => n,
        Component::Chroma => n / 2,
    }
}

// A length of colour, in a picture of the format.
pub fn in_format(format: Format, n: usize) -> usize
    ensures { result ≡ in_format format n }
{
    match format {
        Format::Grey => 0,
        Format::Colour => n,
    }
}

// ---- the unit word: intra bit 15, QP bits 16..22, luma-coded bit 24, done bit 31

// GET_IF
pub fn get_if(word: u32) -> bool
    ensures { result ≡ intra_of word }
{
    word / 32768 % 2 == 1
}

// GET_QP
pub fn get_qp(word: u32) -> usize
    ensures value { result ≡ qp_of word }
    ensures upper_bound { result < 128 }
{
    (word / 65536 % 128) as usize
}

// GET_CBFL
pub fn get_cbfl(word: u32) -> bool
    ensures { result ≡ coded_of word }
{
    word / 16777216 % 2 == 1
}

// GET_COD
pub fn get_cod(word: u32) -> bool
    ensures { result ≡ done_of word }
{
    word / 2147483648 % 2 == 1
}

// SET_COD
pub fn set_cod(word: u32) -> u32
    ensures { result ≡ with_done word }
{
    word % 2147483648 + 2147483648
}

// CLR_COD
pub fn clr_cod(word: u32) -> u32
    ensures { result ≡ without_done word }
{
    word % 2147483648
}

// A flag as a bit.
fn flag(b: bool) -> u32
    ensures { (result ≡ bit b) × (result ≤ 1) }
{
    if b { 1 } else { 0 }
}

// The word of a finished leaf's units, done with it. Of the QP its 7 bits are kept.
pub fn leaf_word(intra: bool, qp: u8, coded: bool) -> u32
    ensures { result ≡ leaf_word intra qp coded }
{
    2147483648 + flag(coded) * 16777216 + (qp % 128) as u32 * 65536 + flag(intra) * 32768
}

// ---- pictures, blocks and units

// Whether w and h are sides of a picture: multiples of 4, from 4 to 4096.
pub fn size_ok(w: usize, h: usize) -> bool
    ensures { result ≡ size_ok w h }
{
    (4 <= w) & (w <= 4096) & (w % 4 == 0) & (4 <= h) & (h <= 4096) & (h % 4 == 0)
}

// How many root blocks lie along a side of n samples: those of 64, and one for what is left. No side wraps.
pub fn roots_along(n: usize) -> usize
    ensures { result ≡ roots_along n }
{
    n / 64 + (n % 64 + 63) / 64
}

// Whether a side is one of a block's in luma: 4, 8, 16, 32 or 64.
pub fn block_side_ok(side: usize) -> bool
    ensures { result ≡ block_side_ok side }
{
    (side == 4) | (side == 8) | (side == 16) | (side == 32) | (side == 64)
}

// Whether a side is one of a block's in a component: 2, 4, 8, 16, 32 or 64.
pub fn component_side_ok(side: usize) -> bool
    ensures { result ≡ component_side_ok side }
{
    (side == 2) | (side == 4) | (side == 8) | (side == 16) | (side == 32) | (side == 64)
}

// Whether the block of `side` at (x, y) is one of a picture of w by h: it stands on a multiple of its side, and inside. A side is a power of
// two, so a multiple has none of the bits below it: a mask, where a remainder would be a division.
pub fn block_ok(w: usize, h: usize, x: Pel, y: Pel, side: usize) -> bool
    ensures { result ≡ block_ok w h x.0 y.0 side }
{
    if !block_side_ok(side) {
        return false;
    }
    if w < side {
        return false;
    }
    if h < side {
        return false;
    }
    let low = side - 1;
    ((x.0 & low) == 0) & ((y.0 & low) == 0) & (x.0 <= w - side) & (y.0 <= h - side)
}

// Whether the unit (x, y) is one of a picture of w by h.
pub fn unit_ok(w: usize, h: usize, x: Scu, y: Scu) -> bool
    ensures { result ≡ unit_ok w h x.0 y.0 }
{
    (x.0 < w / 4) & (y.0 < h / 4)
}

// ---- refusals

// Why a call was refused: a variant for each number of the paper.
#[derive(Clone, Copy, Debug, PartialEq, Eq)]
pub enum Refusal {
    // a side of the picture
    Size = 1,
    // a lent slice's length
    Length = 2,
    // the transform limit, an offset, a number outside its range, or a format
    Setting = 3,
    // a split byte that the walk reached
    Split = 4,
    // a leaf that reaches past the picture
    Leaf = 5,
    // a QP
    Qp = 6,
    // a sample over 1023
    Sample = 7,
    // a block's or a unit's place, or a side
    Block = 8,
    // a mode
    Mode = 9,
    // the chroma points' count, or an a below 0
    Points = 10,
    // a pivot outside -12..57
    Pivot = 11,
    // a malformed sheet
    Sheet = 12,
    // the leaf list, the residual list, a mask or a spare byte
    Record = 13,
    // a band that is not the position's next, or past the last
    Band = 14,
    // a byte of the keep map
    Keep = 15,
    // the bits of a compact split map, or the room for them
    Bits = 16,
    // a malformed header or frame line of a stream
    Stream = 17,
    // a stream that ends before its frame does
    Short = 18,
    // a map of edge rows that differs from the rule
    Rows = 19,
    // a sheet of the time when V read table 0 on vertical edges
    Old = 20,
    // a window of the screen: its edges, or none, or outside
    Window = 21,
    // a row of the screen out of turn
    Turn = 22,
}

// The number of a refusal.
pub fn refusal_number(r: Refusal) -> u8
    ensures { result ≡ number_of r }
{
    r as u8
}

// ---- answers

// The number of an answer: 0 is done.
pub fn answer_number(a: Result<(), Refusal>) -> u8
    ensures { result ≡ answer_number a }
{
    match a {
        Ok(()) => 0,
        Err(r) => refusal_number(r),
    }
}
