// The plan of a list of edges: of each edge the place of its strength, and its keep marks, by the maps of a picture. No plane is looked at. An edge's units are tested
// once; where they are not in the maps, its place and its marks are 0.
// The Rust beside it: df.rs, evc_get_tbl_qp_to_st.
#![tactic(auto)]

ghost use Rattle.std.specs.Prelude.{◌≡◌, ◌/◌, ◌≤◌, ◌<◌, length};
ghost use Rattle.laws.specs.Bits.{field_of};
ghost use Rattle.split.specs.Edges.{edge, pass_of};
ghost use Rattle.df_rules.specs.Places.{step_across, unit_q};
ghost use Rattle.rows_rules.specs.Rule.{first_bit};
ghost use Rattle.edge_place.specs.Places.{lent_row, place_in, marks_in};
ghost use Rattle.edge_place.specs.Plans.{lists_of, units_in, edges_in, has_units, planned};

use def::get_qp;
use row::row_at;

// The row of a pass's edge in a byte of the map of edge rows.
fn row_in(horizontal: bool, byte: u8) -> usize
    ensures { (result ≡ field_of (first_bit (pass_of horizontal)) 2 byte) × (result ≤ 3) }
{
    if horizontal {
        (byte / 4 % 4) as usize
    } else {
        (byte % 4) as usize
    }
}

// The row of an edge: as the map has it, where one is lent, and else worked out.
fn row_of(
    horizontal: bool,
    words: &[u32],
    motion: &[i16],
    refs: &[i8],
    rows: &[u8],
    q: usize,
    p: usize,
) -> usize
    ensures { (result ≡ lent_row (pass_of horizontal) words.now motion.now refs.now rows.now q p) × (result ≤ 3) }
{
    if q < rows.len() {
        return row_in(horizontal, rows[q]);
    }
    row_at(words, motion, refs, q, p)
}

// The place of an edge's strength in a plane's 208 entries, 52 * row + QP; a QP that no accepted picture has is taken, and the place held in a byte.
fn place_at(
    horizontal: bool,
    words: &[u32],
    motion: &[i16],
    refs: &[i8],
    rows: &[u8],
    q: usize,
    p: usize,
) -> u8
    requires { (q < length words.now) × (p < length words.now) }
    ensures { result ≡ place_in (pass_of horizontal) words.now motion.now refs.now rows.now q p }
{
    let row = row_of(horizontal, words, motion, refs, rows, q, p);
    ((52 * row + get_qp(words[q])) % 256) as u8
}

// The keep marks of an edge's units as one number: P's, and twice Q's.
fn marks_at(keep: &[u8], q: usize, p: usize) -> u8
    requires { (q < length keep.now) × (p < length keep.now) }
    ensures { result ≡ marks_in keep.now q p }
{
    ((keep[p] as usize + 2 * (keep[q] as usize)) % 256) as u8
}

// ---- where an edge's units are

// How many units there are in all of the maps, by their lengths.
fn units_in(words: usize, motion: usize, refs: usize, keep: usize) -> usize
    ensures { result ≡ units_in words motion refs keep }
{
    words.min(motion / 4).min((refs / 2).min(keep))
}

// How many edges are planned: n, or as many as there are numbers and room for. A row has at most 65,535 units, so that no unit's number overflows.
fn edges_in(columns: usize, list: usize, n: usize, places: usize, marks: usize) -> usize
    ensures { result ≡ edges_in columns list n places marks }
{
    if columns > 65535 {
        return 0;
    }
    n.min(list / 2).min(places.min(marks))
}

// From a unit to the next across the pass's edges.
fn step_across(horizontal: bool, columns: usize) -> usize
    ensures { result ≡ step_across (pass_of horizontal) columns }
{
    if horizontal { columns } else { 1 }
}

// The unit whose luma sample (x, y) is.
fn unit_at(columns: usize, x: u16, y: u16) -> usize
    requires { columns ≤ 65535 }
    ensures { result ≡ unit_q columns (edge (x / 4) (y / 4)) }
{
    (y / 4) as usize * columns + (x / 4) as usize
}

// Whether q is a unit of all maps, and the one a step before it too.
fn has_units(step: usize, units: usize, q: usize) -> bool
    ensures { result ≡ has_units step units q }
{
    (step <= q) & (q < units)
}

// ---- the plan

// The plan of a list's first n edges, written at the front; of fewer, where the list or the room ends before.
pub fn plan_edges(
    horizontal: bool,
    columns: usize,
    words: &[u32],
    motion: &[i16],
    refs: &[i8],
    keep: &[u8],
    rows: &[u8],
    list: &[u16],
    n: usize,
    places: &mut [u8],
    marks: &mut [u8],
)
    ensures { lists_of places.new marks.new ≡ planned
        (record {
          pass = pass_of horizontal;
          columns = columns;
          words = words.now;
          motion = motion.now;
          refs = refs.now;
          keep = keep.now;
          rows = rows.now;
          list = list.now;
          n = n;
        })
        (lists_of places.old marks.old) }
{
    let edges = edges_in(columns, list.len(), n, places.len(), marks.len());
    let units = units_in(words.len(), motion.len(), refs.len(), keep.len());
    let step = step_across(horizontal, columns);
    for k in 0..edges {
        let q = unit_at(columns, list[2 * k], list[2 * k + 1]);
        if has_units(step, units, q) {
            let p = q - step;
            places[k] = place_at(horizontal, words, motion, refs, rows, q, p);
            marks[k] = marks_at(keep, q, p);
        } else {
            places[k] = 0;
            marks[k] = 0;
        }
    }
}
