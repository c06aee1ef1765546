// The digits of a map, taken from bits: the marks that they give are counted, and put into the map's bytes.
ghost use Rattle.std.specs.Prelude.{true, ◌≡◌, ◌-◌, ◌/◌, ◌≤◌, ◌<◌, length, map, replicate, Ok};
ghost use Rattle.bits.specs.Bits.{bits_from};
ghost use Rattle.def.specs.Picture.{size_ok, root_count};
ghost use Rattle.marks.specs.Stored.{counted, Small, mark_from};
ghost use Rattle.marks_rules.specs.Descent.{root_descent};
ghost use Rattle.marks_rules.specs.Marks.{put_all};
ghost use Rattle.marks_rules.specs.Pictures.{upto, map_of};
ghost use Rattle.pack_rules.specs.Form.{zeros_ok};
ghost use Rattle.split.specs.Picture.{roots};
ghost use Rattle.pack_rules.specs.Taken.{Mapped};

use bits::get_bit;
use def::Refusal;
use marks::{mark_byte, mark_place, root_count, take_marks};

// How many digits a map has among the bits from one place up to another, or why it is refused.
pub(crate) fn map_taken(
    w: usize,
    h: usize,
    src: &[u8],
    from: usize,
    to: usize,
) -> Result<usize, Refusal>
    requires { (size_ok w h ≡ true) × (from ≤ to) × (to ≤ 4611686018427387904) }
    ensures { result ≡ counted (length (upto (w / 4) (h / 4) (bits_from src.now from (to - from)) (roots (w / 4) (h / 4))).marks) (upto (w / 4) (h / 4) (bits_from src.now from (to - from)) (roots (w / 4) (h / 4))).walk.answer }
{
    let mut list = [0u16; 85];
    let mut used = 0;
    for i in 0..root_count(w, h) {
        used += take_marks(w, h, src, from + used, to, i, &mut list)?;
    }
    Ok(used)
}

// Whether the bits from one place up to another are 0.
pub(crate) fn zeros_ok(src: &[u8], from: usize, to: usize) -> bool
    ensures { result ≡ zeros_ok src.now from to }
{
    for at in from..to {
        if get_bit(src, at) != 0 {
            return false;
        }
    }
    true
}

// A root's bytes: those of listed marks, and 0 at every other place.
fn fill_list(out: &mut [u8], marks: &[u16])
    requires { (length out.old ≡ 1024) × Small marks.now (length marks.now) }
    ensures { out.new ≡ put_all (map mark_from marks.now) (replicate 1024 0) }
{
    out.fill(0);
    for mark in marks {
        out[mark_place(*mark)] = mark_byte(*mark);
    }
}

// The bytes of root i by the bits from one place up to another, which are not refused: how many digits it has. The list is the caller's, so that it is not
// cleared for each root.
fn fill_root(
    w: usize,
    h: usize,
    src: &[u8],
    from: usize,
    to: usize,
    i: usize,
    list: &mut [u16],
    map: &mut [u8],
) -> usize
    requires { (size_ok w h ≡ true) × (i < root_count w h) × (length map.old ≡ 1024) × (length list.old ≡ 85) × ((root_descent (w / 4) (h / 4) i (bits_from src.now from (to - from))).walk.answer ≡ Ok tt) }
    ensures { (result ≡ length (root_descent (w / 4) (h / 4) i (bits_from src.now from (to - from))).marks) × (map.new ≡ put_all (root_descent (w / 4) (h / 4) i (bits_from src.now from (to - from))).marks (replicate 1024 0)) }
{
    // the digits are not refused here
    let Ok(n) = take_marks(w, h, src, from, to, i, list) else {
        return 0;
    };
    fill_list(map, &list[..n]);
    n
}

// The map by the bits from one place up to another, which are not refused.
pub(crate) fn fill_map(w: usize, h: usize, src: &[u8], from: usize, to: usize, map: &mut [u8])
    requires { Mapped w h (length map.old) × (from ≤ to) × (to ≤ 4611686018427387904) × ((upto (w / 4) (h / 4) (bits_from src.now from (to - from)) (roots (w / 4) (h / 4))).walk.answer ≡ Ok tt) }
    ensures { map.new ≡ map_of (w / 4) (h / 4) (bits_from src.now from (to - from)) }
{
    let mut list = [0u16; 85];
    let mut used = 0;
    for i in 0..root_count(w, h) {
        let start = 1024 * i;
        let end = start + 1024;
        let part = &mut map[start..end];
        let n = fill_root(w, h, src, from + used, to, i, &mut list, part);
        used += n;
    }
}
