// Both passes' lists of edges, written into lent buffers: the edges that evc_deblock_cu_ver and evc_deblock_cu_hor of df.rs visit.
#![tactic(auto)]

ghost use Rattle.std.specs.Prelude.{map, ◌≡◌, ◌+◌, ◌*◌, ◌/◌, ◌%◌, ◌≤◌, ◌<◌, length, get_or};
ghost use Rattle.std.proofs.lemmas.List.Edits.{sets};
ghost use Rattle.def.proofs.Sizes.{Sized};
ghost use Rattle.def.specs.Picture.{root_count, unit_count};
ghost use Rattle.laws.specs.Call.{Gives};
ghost use Rattle.laws.specs.Index.{pick};
ghost use Rattle.laws.specs.Orders.{each};
ghost use Rattle.split.specs.Accepted.{Accepted};
ghost use Rattle.split.specs.Edges.{edge_at, edge_list, edge_numbers, edges_of, pass_of};
ghost use Rattle.split.specs.LeavesCall as LeavesCall;
ghost use Rattle.split.specs.ListCall as ListCall;
ghost use Rattle.split.specs.Picture.{root_leaves};
ghost use Rattle.split.specs.RootCall as RootCall;
ghost use Rattle.split.specs.RootCall.{leaf_down};
ghost use Rattle.split.specs.Stored.{area, leaves_from};
ghost use Rattle.edges.specs.Put.{Put, Starts, ReadyAt, stretch_numbers, near_numbers, leaf_edge_numbers};

use def::{Pel, Refusal, roots_along, size_ok};
use split::EdgeCounts;

// An edge, at `cross` across the pass's edges and `along` along them: its x and y go to the list.
fn put_edge(horizontal: bool, cross: Pel, along: Pel, out: &mut [u16], at: usize)
    requires { (cross.0 ≤ 8192) × (along.0 ≤ 8192) × (cross.0 % 4 ≡ 0) × (along.0 % 4 ≡ 0) × (at + 2 ≤ length out.old) }
    ensures { out.new ≡ sets out.old at (edge_numbers (edge_at (pass_of horizontal) (cross.0 / 4) (along.0 / 4))) }
{
    if horizontal {
        out[at] = along.0 as u16;
        out[at + 1] = cross.0 as u16;
    } else {
        out[at] = cross.0 as u16;
        out[at + 1] = along.0 as u16;
    }
}

// n edges, one unit after another.
fn put_stretch(
    horizontal: bool,
    cross: Pel,
    along: Pel,
    n: usize,
    out: &mut [u16],
    at: usize,
) -> usize
    requires { Starts cross.0 along.0 n × (at + 2 * n ≤ length out.old) }
    ensures { Put (stretch_numbers horizontal cross.0 along.0 n) out.old at out.new result }
{
    for j in 0..n {
        put_edge(horizontal, cross, Pel(along.0 + 4 * j), out, at + 2 * j);
    }
    at + 2 * n
}

// A leaf's left or top edge, unless it is the picture's side.
fn near_edge(
    horizontal: bool,
    cross: Pel,
    along: Pel,
    n: usize,
    out: &mut [u16],
    at: usize,
) -> usize
    requires { Starts cross.0 along.0 n × (at + 2 * n ≤ length out.old) }
    ensures { Put (near_numbers horizontal cross.0 along.0 n) out.old at out.new result }
{
    if cross.0 == 0 {
        return at;
    }
    put_stretch(horizontal, cross, along, n, out, at)
}

// A leaf's edges in a pass: its near edge and, with limit 5, the cut of a leaf of 64 into two halves.
fn leaf_edges(
    horizontal: bool,
    halved: bool,
    cross: Pel,
    along: Pel,
    side: usize,
    out: &mut [u16],
    at: usize,
) -> usize
    requires { Starts cross.0 along.0 (side / 4) × (cross.0 ≤ 4096) × (4 ≤ side) × (at + 2 * (side / 4 * (side / 4)) ≤ length out.old) }
    ensures { Put (leaf_edge_numbers horizontal halved cross.0 along.0 side) out.old at out.new result }
{
    let k = near_edge(horizontal, cross, along, side / 4, out, at);
    if halved & (side == 64) {
        return put_stretch(horizontal, Pel(cross.0 + 32), along, 16, out, k);
    }
    k
}

// A number of a list of leaves.
fn number_at(list: &[u16], i: usize) -> usize
    requires { i < length list.now }
    ensures { result ≡ get_or list.now i 0 }
{
    list[i] as usize
}

// The place across a pass's edges: x, or y where they are horizontal. Handed y and x, it is the place along them.
fn across(horizontal: bool, x: Pel, y: Pel) -> Pel
    ensures { result.0 ≡ pick horizontal y.0 x.0 }
{
    if horizontal { y } else { x }
}

// A pass's edges of the first n leaves of a list: they lie `top` rows of units further down than the list says.
fn leaves_edges(
    list: &[u16],
    n: usize,
    horizontal: bool,
    halved: bool,
    top: usize,
    out: &mut [u16],
    at: usize,
) -> usize
    requires { ReadyAt top list.now n × (at + 2 * area (leaves_from list.now n) ≤ length out.old) }
    ensures { Put (each edge_numbers (edges_of (pass_of horizontal) halved (map (leaf_down top) (leaves_from list.now n)))) out.old at out.new result }
{
    let mut k = at;
    for j in 0..n {
        let x = Pel(number_at(list, 3 * j));
        let y = Pel(number_at(list, 3 * j + 1) + 4 * top);
        let side = number_at(list, 3 * j + 2);
        let cross = across(horizontal, x, y);
        let along = across(horizontal, y, x);
        k = leaf_edges(horizontal, halved, cross, along, side, out, k);
    }
    k
}

// A pass's edges of root i, in raster order, of a picture whose walk is not refused.
fn root_edges(
    w: usize,
    h: usize,
    splits: &[u8],
    i: usize,
    horizontal: bool,
    halved: bool,
    out: &mut [u16],
    at: usize,
) -> usize
    requires { Accepted w h splits.now × (i < root_count w h) × (at + 2 * area (root_leaves splits.now (w / 4) (h / 4) i) ≤ length out.old) }
    ensures { Put (each edge_numbers (edges_of (pass_of horizontal) halved (root_leaves splits.now (w / 4) (h / 4) i))) out.old at out.new result }
{
    let mut list = [0u16; 768];
    let Ok(n) = split::root_leaves(w, h, splits, i, &mut list) else {
        return at;
    };
    leaves_edges(&list, n, horizontal, halved, 0, out, at)
}

// A pass's list of a picture whose walk is not refused: where it ends in the buffer.
fn pass_edges(
    w: usize,
    h: usize,
    splits: &[u8],
    horizontal: bool,
    halved: bool,
    out: &mut [u16],
) -> usize
    requires { Accepted w h splits.now × (length out.old ≡ 2 * unit_count w h) }
    ensures { Put (each edge_numbers (edge_list (pass_of horizontal) halved splits.now (w / 4) (h / 4))) out.old 0 out.new result }
{
    let n = splits.len() / 1024;
    let mut k = 0;
    for i in 0..n {
        k = root_edges(w, h, splits, i, horizontal, halved, out, k);
    }
    k
}

// Whether the split bytes and the two buffers have their lengths.
fn list_lengths_ok(w: usize, h: usize, splits: usize, vertical: usize, horizontal: usize) -> bool
    requires { Sized w h }
    ensures { result ≡ ListCall.lengths_ok w h splits vertical horizontal }
{
    let roots = roots_along(w) * roots_along(h);
    let buffer = 2 * (w / 4 * (h / 4));
    (splits == 1024 * roots) & (vertical == buffer) & (horizontal == buffer)
}

// Whether the transform limit is 5 or 6.
fn limit_ok(limit: u8) -> bool
    ensures { result ≡ ListCall.limit_ok limit }
{
    (limit == 5) | (limit == 6)
}

// The checks of `list_edges`, the walk of the picture last.
fn list_checked(
    w: usize,
    h: usize,
    splits: &[u8],
    limit: u8,
    vertical: usize,
    horizontal: usize,
) -> Result<(), Refusal>
    ensures { result ≡ ListCall.check_of w h splits.now limit vertical horizontal }
{
    if !size_ok(w, h) {
        return Err(Refusal::Size);
    }
    if !list_lengths_ok(w, h, splits.len(), vertical, horizontal) {
        return Err(Refusal::Length);
    }
    if !limit_ok(limit) {
        return Err(Refusal::Setting);
    }
    split::check(w, h, splits)
}

// Both passes' lists of edges: (x, y) of each edge's first luma sample of Q, in the order of the walk.
pub fn list_edges(
    w: usize,
    h: usize,
    splits: &[u8],
    limit: u8,
    vertical: &mut [u16],
    horizontal: &mut [u16],
) -> Result<EdgeCounts, Refusal>
    ensures { Gives ListCall.outcome
        (record { w = w; h = h; splits = splits.now; limit = limit; vertical = vertical.old; horizontal = horizontal.old })
        (record { reading = ListCall.reading_of result; vertical = vertical.new; horizontal = horizontal.new }) }
{
    list_checked(w, h, splits, limit, vertical.len(), horizontal.len())?;
    let vertical_end = pass_edges(w, h, splits, false, limit == 5, vertical);
    let horizontal_end = pass_edges(w, h, splits, true, limit == 5, horizontal);
    Ok(EdgeCounts {
        vertical: vertical_end / 2,
        horizontal: horizontal_end / 2,
    })
}

// A pass's edges of the root at (x, y), as `list_edges` writes them, `top` rows of units further down: a band's top edge is one where something lies above.
pub fn root_list(
    w: usize,
    h: usize,
    splits: &[u8],
    x: Pel,
    y: Pel,
    horizontal: bool,
    halved: bool,
    top: usize,
    out: &mut [u16],
) -> Result<usize, Refusal>
    ensures { Gives RootCall.outcome
        (record { w = w; h = h; splits = splits.now; x = x.0; y = y.0; horizontal = horizontal; halved = halved; top = top; out = out.old })
        (LeavesCall.after result out.new) }
{
    if !size_ok(w, h) {
        return Err(Refusal::Size);
    }
    if 1024 - h / 4 < top {
        return Err(Refusal::Size);
    }
    if out.len() != 512 {
        return Err(Refusal::Length);
    }
    let mut list = [0u16; 768];
    let n = split::leaves(w, h, splits, x, y, &mut list)?;
    let k = leaves_edges(&list, n, horizontal, halved, top, out, 0);
    Ok(k / 2)
}
