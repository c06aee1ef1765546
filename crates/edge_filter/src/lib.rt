// A list's edges, filtered by the places of their strengths and by their keep marks: in luma, and in both chroma planes of a picture in
// colour. No map is looked at, and any list is taken: lines that do not lie in a plane are left.
// The Rust beside it: df.rs, the loops of evc_deblock_cu_hor and evc_deblock_cu_ver.
#![tactic(auto)]

ghost use Rattle.std.specs.Prelude.{◌≡◌, true, ◌+◌, ◌*◌, ◌≤◌, ◌<◌, length};
ghost use Rattle.def.specs.declared.Component.TheVariants.{Luma, Chroma};
ghost use Rattle.edge_filter.specs.Edges.{pass_of};
ghost use Rattle.edge_filter.specs.Filter.{mask_by, strength_at, quiet_luma, quiet_chroma, edge_of, filter_by, count_luma, count_chroma};
ghost use Rattle.edge_filter.specs.Turns.{Follows, Paired, Turned};

use crate::place::{along_at, chroma_place, cross_at, luma_place};
use def::{Component, Format};
use line::Mask;
use window::{Place, window_chroma, window_chroma_two, window_kept, window_luma, window_luma_two};

mod place; // place.rt: the passes, and where an edge's lines lie

pub use place::{Pass, is_horizontal};

fn four_times(x: u8) -> u16
    ensures { result ≡ 4 * x }
{
    4 * x as u16
}

// The strength at a place of a plane's entries, which start at `first`: luma's 208 come first, then U's and V's. Past the entries it is 0.
fn strength_at(entries: &[u8; 624], first: usize, place: u8) -> u16
    requires { first ≤ 416 }
    ensures { result ≡ strength_at entries.now (first + place) }
{
    let k = first + place as usize;
    if k < 624 { four_times(entries[k]) } else { 0 }
}

// What is written of an edge with these marks: P's, and twice Q's.
fn mask_by(component: Component, marks: u8) -> Mask
    ensures { result ≡ mask_by component marks }
{
    line::mask_of(component, marks % 2 == 1, marks / 2 == 1)
}

// ---- one edge

// The lines of an edge at p in luma, by its marks and its strength.
fn edge_luma(y: &mut [u16], p: Place, marks: u8, st: u16)
    ensures { y.new ≡ edge_of Luma marks st p y.old }
{
    if marks == 0 {
        window_luma(y, p, st);
        return;
    }
    let mask = mask_by(Component::Luma, marks);
    window_kept(y, Component::Luma, mask, p, st);
}

// And in both chroma planes.
fn edge_chroma(u: &mut [u16], v: &mut [u16], p: Place, marks: u8, su: u16, sv: u16)
    requires { length u.old ≡ length v.old }
    ensures { (u.new ≡ edge_of Chroma marks su p u.old) × (v.new ≡ edge_of Chroma marks sv p v.old) }
{
    if marks == 0 {
        window_chroma(u, v, p, su, sv);
        return;
    }
    let inner = mask_by(Component::Chroma, marks);
    window_kept(u, Component::Chroma, inner, p, su);
    window_kept(v, Component::Chroma, inner, p, sv);
}

// ---- two edges at once

// The edge after edge i of n, or i itself where it is the last.
fn after(n: usize, i: usize) -> usize
    requires { i < n }
    ensures { (i ≤ result) × (result ≤ i + 1) × (result < n) }
{
    if i + 1 < n { i + 1 } else { i }
}

// Whether edge j is the one right after edge i along the same line, and no unit of the two is kept.
fn follows(pass: Pass, list: &[u16; 512], marks: &[u8; 256], i: usize, j: usize) -> bool
    requires { (i < 256) × (j < 256) }
    ensures { result ≡ true → Follows (pass_of pass) list.now marks.now i j }
{
    let bare = (marks[i] == 0) & (marks[j] == 0);
    let same = cross_at(pass, list, j) == cross_at(pass, list, i);
    bare & same & (along_at(pass, list, j) == along_at(pass, list, i) + 4)
}

// Edge i, whose lines start at p, with edge j in luma, where j is the one right after it and `loud`: it has a strength. The answer is whether both were filtered.
// Where edge j is elsewhere, as with leaves of 4, nothing more is tested.
fn two_luma(
    loud: bool,
    pass: Pass,
    y: &mut [u16],
    list: &[u16; 512],
    marks: &[u8; 256],
    i: usize,
    j: usize,
    p: Place,
    s0: u16,
    s1: u16,
) -> bool
    requires { (i < 256) × (j < 256) }
    ensures { Paired loud Luma (pass_of pass) list.now marks.now i j p s0 s1 result y.old y.new }
{
    if !loud | !follows(pass, list, marks, i, j) {
        return false;
    }
    window_luma_two(y, p, s0, s1)
}

// And in both chroma planes.
fn two_chroma(
    loud: bool,
    pass: Pass,
    u: &mut [u16],
    v: &mut [u16],
    list: &[u16; 512],
    marks: &[u8; 256],
    i: usize,
    j: usize,
    p: Place,
    u0: u16,
    u1: u16,
    v0: u16,
    v1: u16,
) -> bool
    requires { (i < 256) × (j < 256) × (length u.old ≡ length v.old) }
    ensures { Paired loud Chroma (pass_of pass) list.now marks.now i j p u0 u1 result u.old u.new
        × Paired loud Chroma (pass_of pass) list.now marks.now i j p v0 v1 result v.old v.new }
{
    if !loud | !follows(pass, list, marks, i, j) {
        return false;
    }
    window_chroma_two(u, v, p, u0, u1, v0, v1)
}

// ---- a turn: one edge of a list, or two

// Edge i in luma, and the next one with it where both have a strength and the two lie right after each other; the answer is where the next turn starts. Strength 0 leaves an
// edge.
fn turn_luma(
    pass: Pass,
    columns: usize,
    y: &mut [u16],
    entries: &[u8; 624],
    list: &[u16; 512],
    places: &[u8; 256],
    marks: &[u8; 256],
    n: usize,
    i: usize,
) -> usize
    requires { (columns ≤ 1024) × (i < n) × (n ≤ 256) }
    ensures { Turned (quiet_luma entries.now places.now) entries.now 0 Luma (pass_of pass) columns list.now places.now marks.now n i result y.old y.new }
{
    let s0 = strength_at(entries, 0, places[i]);
    if s0 == 0 {
        return i + 1;
    }
    let p = luma_place(pass, columns, list, i);
    let j = after(n, i);
    let s1 = strength_at(entries, 0, places[j]);
    if two_luma(s1 != 0, pass, &mut *y, list, marks, i, j, p, s0, s1) {
        return j + 1;
    }
    edge_luma(y, p, marks[i], s0);
    i + 1
}

// And in chroma.
fn turn_chroma(
    pass: Pass,
    columns: usize,
    u: &mut [u16],
    v: &mut [u16],
    entries: &[u8; 624],
    list: &[u16; 512],
    places: &[u8; 256],
    marks: &[u8; 256],
    n: usize,
    i: usize,
) -> usize
    requires { (columns ≤ 1024) × (i < n) × (n ≤ 256) × (length u.old ≡ length v.old) }
    ensures { Turned (quiet_chroma entries.now places.now) entries.now 208 Chroma (pass_of pass) columns list.now places.now marks.now n i result u.old u.new
        × Turned (quiet_chroma entries.now places.now) entries.now 416 Chroma (pass_of pass) columns list.now places.now marks.now n i result v.old v.new }
{
    let k = places[i];
    let u0 = strength_at(entries, 208, k);
    let v0 = strength_at(entries, 416, k);
    if (u0 == 0) & (v0 == 0) {
        return i + 1;
    }
    let p = chroma_place(pass, columns, list, i);
    let j = after(n, i);
    let l = places[j];
    let u1 = strength_at(entries, 208, l);
    let v1 = strength_at(entries, 416, l);
    let loud = (u1 != 0) | (v1 != 0);
    if two_chroma(
        loud, pass, &mut *u, &mut *v, list, marks, i, j, p, u0, u1, v0, v1,
    ) {
        return j + 1;
    }
    edge_chroma(u, v, p, marks[i], u0, v0);
    i + 1
}

// ---- a list

// How many of n edges are filtered in luma: a list has no more than 256, and no picture more than 1024 columns.
fn count_luma(columns: usize, n: usize) -> usize
    ensures { (result ≡ count_luma columns n) × (result ≤ 256) × (0 < result → columns ≤ 1024) }
{
    if 1024 < columns {
        return 0;
    }
    if n < 256 { n } else { 256 }
}

// And in chroma, in planes of these lengths. A grey picture has no samples there, and nothing is done.
fn count_chroma(format: Format, columns: usize, n: usize, long_u: usize, long_v: usize) -> usize
    ensures { (result ≡ count_chroma format columns n long_u long_v) × (result ≤ 256) × (0 < result → (columns ≤ 1024) × (long_u ≡ long_v)) }
{
    match format {
        Format::Grey => 0,
        Format::Colour => {
            if long_u == long_v {
                count_luma(columns, n)
            } else {
                0
            }
        }
    }
}

// The first n edges of a list in luma, turn by turn.
// kept: a turn answers where the next one starts, so that no range counts the turns. And the slices and arrays are handed on one by one: a struct of them
// would need a proof by hand of 100 to 230 lines for each function that takes it.
pub fn filter_luma(
    pass: Pass,
    columns: usize,
    y: &mut [u16],
    entries: &[u8; 624],
    list: &[u16; 512],
    places: &[u8; 256],
    marks: &[u8; 256],
    n: usize,
)
    ensures { y.new ≡ filter_by (quiet_luma entries.now places.now) entries.now 0 Luma (pass_of pass) columns list.now places.now marks.now (count_luma columns n) y.old }
{
    let count = count_luma(columns, n);
    let mut i = 0;
    while i < count {
        i = turn_luma(
            pass, columns, &mut *y, entries, list, places, marks, count, i,
        );
    }
}

// And in chroma, by the picture's format.
// kept: a turn answers where the next one starts, so that no range counts the turns.
pub fn filter_chroma(
    format: Format,
    pass: Pass,
    columns: usize,
    u: &mut [u16],
    v: &mut [u16],
    entries: &[u8; 624],
    list: &[u16; 512],
    places: &[u8; 256],
    marks: &[u8; 256],
    n: usize,
)
    ensures { (u.new ≡ filter_by (quiet_chroma entries.now places.now) entries.now 208 Chroma (pass_of pass) columns list.now places.now marks.now (count_chroma format columns n (length u.old) (length v.old)) u.old)
        × (v.new ≡ filter_by (quiet_chroma entries.now places.now) entries.now 416 Chroma (pass_of pass) columns list.now places.now marks.now (count_chroma format columns n (length u.old) (length v.old)) v.old) }
{
    let count = count_chroma(format, columns, n, u.len(), v.len());
    let mut i = 0;
    while i < count {
        i = turn_chroma(
            pass, columns, &mut *u, &mut *v, entries, list, places, marks, count, i,
        );
    }
}
