// The digits of a map: its roots' marks, each judged against the byte that stands there, counted, and put as bits.
ghost use Rattle.std.specs.Prelude.{◌≡◌, List, ℕ, ◌+◌, ◌-◌, ◌*◌, ◌/◌, ◌%◌, ◌≤◌, ◌<◌, length, get_or, map, Ok};
ghost use Rattle.bits.specs.Bits.{with_bits};
ghost use Rattle.def.specs.Picture.{root_count};
ghost use Rattle.marks.specs.Stored.{counted, Small, mark_from};
ghost use Rattle.marks_rules.specs.Mended.{judge};
ghost use Rattle.marks_rules.specs.Pictures.{root_digits, picture_digits};
ghost use Rattle.pack_rules.specs.Form.{digit_at};
ghost use Rattle.split.specs.Picture.{root_walk, picture_walk};
ghost use Rattle.pack_rules.specs.Taken.{Mapped};

use bits::put_bit;
use def::Refusal;
use marks::{list_marks, mark_byte, mark_place, root_count};

// Whether the bytes of listed marks stand in a root's bytes: 4 or 5 at the first that does not.
fn judge_root(bytes: &[u8], marks: &[u16]) -> Result<(), Refusal>
    requires { (length bytes.now ≡ 1024) × Small marks.now (length marks.now) }
    ensures { result ≡ judge bytes.now (map mark_from marks.now) }
{
    for mark in marks {
        let byte = bytes[mark_place(*mark)];
        if byte != mark_byte(*mark) {
            if 1 < byte {
                return Err(Refusal::Split);
            }
            return Err(Refusal::Leaf);
        }
    }
    Ok(())
}

// How many digits root i has, or why its walk is refused. The list is the caller's, so that it is not cleared for each root.
fn root_digits(
    w: usize,
    h: usize,
    splits: &[u8],
    i: usize,
    list: &mut [u16],
) -> Result<usize, Refusal>
    requires { Mapped w h (length splits.now) × (i < root_count w h) × (length list.old ≡ 85) }
    ensures { result ≡ counted (length (root_digits splits.now (w / 4) (h / 4) i)) (root_walk splits.now (w / 4) (h / 4) i).answer }
{
    let start = 1024 * i;
    let end = start + 1024;
    let n = list_marks(w, h, splits, i, list)?; // none of the call's tests fails here
    judge_root(&splits[start..end], &list[..n])?;
    Ok(n)
}

// How many digits the map of a picture has, or why its walk is refused.
pub(crate) fn map_digits(w: usize, h: usize, splits: &[u8]) -> Result<usize, Refusal>
    requires { Mapped w h (length splits.now) }
    ensures { result ≡ counted (length (picture_digits splits.now (w / 4) (h / 4))) (picture_walk splits.now (w / 4) (h / 4)).answer }
{
    let mut list = [0u16; 85];
    let mut digits = 0;
    for i in 0..root_count(w, h) {
        digits += root_digits(w, h, splits, i, &mut list)?;
    }
    Ok(digits)
}

// The bytes of listed marks, put as bits from a place on.
fn put_list(buf: &mut [u8], at: usize, marks: &[u16])
    requires { at + length marks.now < 18446744073709551616 }
    ensures { buf.new ≡ with_bits buf.old at (λ (i : ℕ). get_or marks.now i 0 % 2) (length marks.now) }
{
    for j in 0..marks.len() {
        put_bit(buf, at + j, mark_byte(marks[j]));
    }
}

// The digits of root i, whose walk is not refused, put as bits from a place on: how many they are. The list is the caller's, as above.
fn put_root(
    w: usize,
    h: usize,
    splits: &[u8],
    i: usize,
    list: &mut [u16],
    buf: &mut [u8],
    at: usize,
) -> usize
    requires { Mapped w h (length splits.now) × (i < root_count w h) × (length list.old ≡ 85) × ((root_walk splits.now (w / 4) (h / 4) i).answer ≡ Ok tt) × (at ≤ 4611686018427736064) }
    ensures { (result ≡ length (root_digits splits.now (w / 4) (h / 4) i)) × (buf.new ≡ with_bits buf.old at (digit_at (root_digits splits.now (w / 4) (h / 4) i)) result) }
{
    // none of the call's tests fails here
    let Ok(n) = list_marks(w, h, splits, i, list) else {
        return 0;
    };
    put_list(buf, at, &list[..n]);
    n
}

// The digits of a map whose walk is not refused, put as bits from a place on.
pub(crate) fn put_digits(w: usize, h: usize, splits: &[u8], buf: &mut [u8], at: usize)
    requires { Mapped w h (length splits.now) × ((picture_walk splits.now (w / 4) (h / 4)).answer ≡ Ok tt) × (at ≤ 4611686018427387904) }
    ensures { buf.new ≡ with_bits buf.old at (digit_at (picture_digits splits.now (w / 4) (h / 4))) (length (picture_digits splits.now (w / 4) (h / 4))) }
{
    let mut list = [0u16; 85];
    let mut used = 0;
    for i in 0..root_count(w, h) {
        let n = put_root(w, h, splits, i, &mut list, buf, at + used);
        used += n;
    }
}

// Zeros, put as bits from one place up to another.
pub(crate) fn put_zeros(buf: &mut [u8], from: usize, to: usize)
    ensures { buf.new ≡ with_bits buf.old from (λ (i : ℕ). 0) (to - from) }
{
    for at in from..to {
        put_bit(buf, at, 0);
    }
}
