// A torn split map, mended: a block that reaches past the picture is cut, a byte above 1 inside the picture becomes 0, and all other bytes are copied.
// There is no Rust beside it.
#![tactic(auto)]

ghost use Rattle.std.specs.Prelude.{true, ◌≡◌, ◌+◌, ◌*◌, ◌/◌, ◌≤◌, ◌<◌, length, map};
ghost use Rattle.def.specs.Picture.{size_ok, root_count};
ghost use Rattle.laws.specs.Call.{Gives};
ghost use Rattle.marks.specs.Stored.{Small, mark_from};
ghost use Rattle.marks_rules.specs.Marks.{put_all};
ghost use Rattle.mend.specs.Changes.{Listed, change_of, changes_in, root_changes, mend_root, all_changes, mend_map};
ghost use Rattle.mend.specs.MendCall as MendCall;
ghost use Rattle.mend.specs.MendCall.{Mapped};

use def::{Refusal, size_ok};
use marks::{list_marks, mark_byte, mark_place, root_count};

// The bytes of listed marks, put where they stand among a root's.
fn put_marks(out: &mut [u8], marks: &[u16])
    requires { (length out.old ≡ 1024) × Small marks.now (length marks.now) }
    ensures { out.new ≡ put_all (map mark_from marks.now) out.old }
{
    for mark in marks {
        out[mark_place(*mark)] = mark_byte(*mark);
    }
}

// A change goes to the list, if there is one: the root, the block's level and place, the byte that stood there and the one that it has now.
fn put_change(list: &mut [u16], n: usize, root: usize, place: usize, old: u8, new: u8) -> usize
    requires { (root < 4096) × (place < 1024) × (5 * n + 5 ≤ length list.old) }
    ensures { Listed (change_of root place old new) list.old n list.new result }
{
    if old == new {
        return n;
    }
    let at = 5 * n;
    list[at] = root as u16;
    list[at + 1] = (place / 256) as u16;
    list[at + 2] = (place % 256) as u16;
    list[at + 3] = u16::from(old);
    list[at + 4] = u16::from(new);
    n + 1
}

// The changes that listed marks make to a root's bytes, listed after `count` that are.
fn list_changes(bytes: &[u8], marks: &[u16], root: usize, list: &mut [u16], count: usize) -> usize
    requires { (length bytes.now ≡ 1024) × Small marks.now (length marks.now) × (root < 4096) × (5 * (count + length marks.now) ≤ length list.old) }
    ensures { Listed (changes_in bytes.now root (map mark_from marks.now)) list.old count list.new result }
{
    let mut met = count;
    for mark in marks {
        let place = mark_place(*mark);
        met = put_change(list, met, root, place, bytes[place], mark_byte(*mark));
    }
    met
}

// All bytes of a root.
// kept: byte by byte, as `copy_from_slice` of two slices that are passed in has the archive ask for `memmove`, and a caller without a C library gives it none.
fn copy(bytes: &[u8], out: &mut [u8])
    requires { length bytes.now ≡ length out.old }
    ensures { out.new ≡ bytes.now }
{
    for i in 0..bytes.len() {
        out[i] = bytes[i];
    }
}

// Root i, mended into its part of the second buffer: its changes are listed after `count` that are.
fn mend_root(
    w: usize,
    h: usize,
    splits: &[u8],
    i: usize,
    out: &mut [u8],
    list: &mut [u16],
    count: usize,
) -> usize
    requires { (size_ok w h ≡ true) × (length splits.now ≡ 1024 * root_count w h) × (i < root_count w h) × (length out.old ≡ 1024) × (5 * (count + 85) ≤ length list.old) }
    ensures { (out.new ≡ mend_root splits.now (w / 4) (h / 4) i) × Listed (root_changes splits.now (w / 4) (h / 4) i) list.old count list.new result }
{
    let start = 1024 * i;
    let end = start + 1024;
    let mut marks = [0u16; 85];
    // none of the call's tests fails here
    let Ok(n) = list_marks(w, h, splits, i, &mut marks) else {
        return count;
    };
    let bytes = &splits[start..end];
    copy(bytes, out);
    put_marks(out, &marks[..n]);
    list_changes(bytes, &marks[..n], i, list, count)
}

// All roots.
fn mend_roots(w: usize, h: usize, splits: &[u8], out: &mut [u8], list: &mut [u16]) -> usize
    requires { Mapped w h (length splits.now) (length out.old) (length list.old) }
    ensures { (out.new ≡ mend_map splits.now (w / 4) (h / 4)) × Listed (all_changes splits.now (w / 4) (h / 4)) list.old 0 list.new result }
{
    let mut count = 0;
    for i in 0..root_count(w, h) {
        let start = 1024 * i;
        let end = start + 1024;
        count = mend_root(w, h, splits, i, &mut out[start..end], list, count);
    }
    count
}

// The split map of a picture of w by h, mended into a second buffer, with a list of the changes: five numbers each, in the order of the walk.
pub fn mend(
    w: usize,
    h: usize,
    splits: &[u8],
    out: &mut [u8],
    list: &mut [u16],
) -> Result<usize, Refusal>
    ensures { Gives MendCall.outcome
        (record { w = w; h = h; splits = splits.now; out = out.old; list = list.old })
        (record { reading = MendCall.reading_of result; out = out.new; list = list.new }) }
{
    if !size_ok(w, h) {
        return Err(Refusal::Size);
    }
    let n = root_count(w, h);
    if !((splits.len() == 1024 * n) & (out.len() == 1024 * n) & (list.len() == 425 * n)) {
        return Err(Refusal::Length);
    }
    Ok(mend_roots(w, h, splits, out, list))
}
