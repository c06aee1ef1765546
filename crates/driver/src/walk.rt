// The walk over a picture's leaves: leaf by leaf the components that the picture has, and what the units are told.
ghost use Rattle.std.specs.Prelude.{◌≡◌, [], ◌+◌, ◌*◌, ◌/◌, ◌%◌, ◌≤◌, ◌<◌, length, get_or};
ghost use Rattle.laws.specs.Index.{pick};
ghost use Rattle.def.specs.Picture.{roots_along, root_count};
ghost use Rattle.def.specs.Word.{leaf_word};
ghost use Rattle.split.specs.Stored.{leaves_from};
ghost use Rattle.driver_rules.specs.Asked.{GivenAsked, StateAsked, Reaches, Blocks, Sides, Accepted, Listed, Stepped};
ghost use Rattle.driver_rules.specs.Call.{leaves_of};
ghost use Rattle.driver_rules.specs.Records.{kind_at, record_qp, record_mask, keep_at, is_mode, coded_y, end_v, walked_to, first, passed};
ghost use Rattle.driver_rules.specs.Steps.{steps};
ghost use Rattle.driver.specs.Packed.{packed_leaf, unpacked, unpacked_at, Packed};
ghost use Rattle.driver.specs.Lends.{given_of, state_of, colour_end, told_to, ColourDrawn, Drawn, ColourAsked, PlanesAsked, Ended};
ghost use Rattle.unit_maps.specs.Maps.{Inside};

use crate::component::{Block, component};
use def::{Component, Format, Pel, pel2scu};
use leaf_record::{coded_u, coded_v, coded_y, mode_of, word_of};
use unit_maps::tell_units;

// A root's place, in luma samples.
#[derive(Clone, Copy)]
pub(crate) struct Root {
    pub(crate) x: Pel,
    pub(crate) y: Pel,
}

// A leaf: its place and its side, in luma samples.
#[derive(Clone, Copy)]
pub(crate) struct Leaf {
    pub(crate) x: Pel,
    pub(crate) y: Pel,
    pub(crate) side: usize,
}

// A leaf's record.
// kept: its four bytes, as lomsakeun_reconstruct is lent them, and as the rule reads them (`kind_at`, `record_mask`).
#[derive(Clone, Copy)]
pub(crate) struct Record {
    pub(crate) kind: u8,
    pub(crate) qp: u8,
    pub(crate) mask: u8,
    pub(crate) keep: u8,
}

// The record of leaf k.
fn record_at(leaves: &[u8], k: usize) -> Record
    requires { 4 * (k + 1) ≤ length leaves.now }
    ensures { (result.kind ≡ kind_at leaves.now k) × (result.qp ≡ record_qp leaves.now k)
        × (result.mask ≡ record_mask leaves.now k) × (result.keep ≡ keep_at leaves.now k) }
{
    let kind = leaves[4 * k];
    let qp = leaves[4 * k + 1];
    let mask = leaves[4 * k + 2];
    let keep = leaves[4 * k + 3];
    Record {
        kind,
        qp,
        mask,
        keep,
    }
}

// ---- the leaves of a root

// A leaf as a number: its side in units, then its row and its column in the root.
fn packed_leaf(x: u16, y: u16, side: u16) -> u16
    requires { side ≤ 64 }
    ensures { result ≡ packed_leaf x y side }
{
    side / 4 * 256 + y / 4 % 16 * 16 + x / 4 % 16
}

// The first n leaves of a list, a number each.
fn pack(list: &[u16], n: usize, leaves: &mut [u16])
    requires { Sides list.now n × (length leaves.old ≡ 256) }
    ensures { Packed list.now n leaves.new }
{
    for j in 0..n {
        leaves[j] = packed_leaf(list[3 * j], list[3 * j + 1], list[3 * j + 2]);
    }
}

// The leaves of root i, a number each. Their list lies in the room of the blocks until it is packed, and takes no place of its own on the stack.
// The walk of the picture was checked: the call does not refuse.
fn pack_root(
    w: usize,
    h: usize,
    splits: &[u8],
    i: usize,
    room: &mut [u16],
    leaves: &mut [u16],
) -> usize
    requires { Accepted w h splits.now × (i < root_count w h) × (length room.old ≡ 4096) × (length leaves.old ≡ 256) }
    ensures { Listed w h splits.now i (unpacked (64 * (i % roots_along w)) (64 * (i / roots_along w)) leaves.new) result × (length leaves.new ≡ 256) }
{
    let long = 768;
    let list = &mut room[0..long];
    let Ok(n) = split::root_leaves(w, h, splits, i, &mut *list) else {
        return 0;
    };
    pack(&*list, n, leaves);
    n
}

// The same where the room is an array: its length is then known wherever a loop has been.
fn packed_leaves(
    w: usize,
    h: usize,
    splits: &[u8],
    i: usize,
    room: &mut [u16; 4096],
    leaves: &mut [u16],
) -> usize
    requires { Accepted w h splits.now × (i < root_count w h) × (length leaves.old ≡ 256) }
    ensures { Listed w h splits.now i (unpacked (64 * (i % roots_along w)) (64 * (i / roots_along w)) leaves.new) result × (length leaves.new ≡ 256) }
{
    pack_root(w, h, splits, i, room, leaves)
}

// Leaf j of those of a root.
fn leaf_at(leaves: &[u16], root: Root, j: usize) -> Leaf
    requires { (j < 256) × (length leaves.now ≡ 256) × (root.x.0 ≤ 4096) × (root.y.0 ≤ 4096) }
    ensures { (result.x.0 ≡ get_or (unpacked_at root leaves.now) (3 * j) 0) × (result.y.0 ≡ get_or (unpacked_at root leaves.now) (3 * j + 1) 0)
        × (result.side ≡ get_or (unpacked_at root leaves.now) (3 * j + 2) 0) }
{
    let m = leaves[j] as usize;
    Leaf {
        x: Pel(root.x.0 + 4 * (m % 16)),
        y: Pel(root.y.0 + 4 * (m / 16 % 16)),
        side: 4 * (m / 256),
    }
}

// ---- the maps

// The units of a leaf, in maps of a picture w wide: the word of its record, the mode, and whether they are kept. They lie in the maps, and so are told.
fn tell(words: &mut [u32], modes: &mut [u8], keep: &mut [u8], w: usize, leaf: Leaf, record: Record)
    requires { Inside (w / 4) (leaf.x.0 / 4) (leaf.y.0 / 4) (leaf.side / 4) words.old modes.old keep.old }
    ensures { (words.new ≡ told_to w leaf (leaf_word (is_mode «record».kind) «record».qp (coded_y «record».mask)) words.old)
        × (modes.new ≡ told_to w leaf (pick (is_mode «record».kind) «record».kind 255) modes.old)
        × (keep.new ≡ told_to w leaf «record».keep keep.old) }
{
    let x = pel2scu(leaf.x);
    let y = pel2scu(leaf.y);
    let n = leaf.side / 4;
    let word = word_of(record.kind, record.qp, record.mask);
    let mode = mode_of(record.kind);
    let mark = record.keep;
    tell_units(words, modes, keep, w / 4, x, y, n, word, mode, mark);
}

// ---- a leaf

// U and V, by the leaf's kind, from place `at` of the residual list on. The answer is where their residuals end. A grey picture has neither.
// `run` and `room` have place for the run and the prediction of any block: one of each for a picture, cleared once.
fn leaf_colour(
    w: usize,
    h: usize,
    format: Format,
    constrained: bool,
    leaf: Leaf,
    record: Record,
    pred_u: &[u16],
    pred_v: &[u16],
    residual: &[i16],
    at: usize,
    words: &[u32],
    u: &mut [u16],
    v: &mut [u16],
    run: &mut [u16; 257],
    room: &mut [u16; 4096],
) -> usize
    requires { ColourAsked (given_of w h format constrained [] residual.now [] pred_u.now pred_v.now) leaf «record».mask words.now u.old v.old
        × (colour_end at «record».mask leaf.side ≤ length residual.now) }
    ensures { ColourDrawn (given_of w h format constrained [] residual.now [] pred_u.now pred_v.now) leaf
        «record».kind «record».mask at words.now u.old v.old u.new v.new result }
{
    if let Format::Grey = format {
        return at;
    }
    let column = leaf.x;
    let row = leaf.y;
    let block = Block {
        component: Component::Chroma,
        w,
        h,
        x: column,
        y: row,
        side: leaf.side,
        constrained,
    };
    let kind = record.kind;
    let mask = record.mask;
    let end = component(
        block,
        kind,
        coded_u(mask),
        pred_u,
        residual,
        at,
        words,
        u,
        &mut *run,
        &mut *room,
    );
    component(
        block,
        kind,
        coded_v(mask),
        pred_v,
        residual,
        end,
        words,
        v,
        run,
        room,
    )
}

// Its components, by one kind: Y, and then U and V.
fn leaf_planes(
    w: usize,
    h: usize,
    format: Format,
    constrained: bool,
    leaf: Leaf,
    record: Record,
    pred_y: &[u16],
    pred_u: &[u16],
    pred_v: &[u16],
    residual: &[i16],
    at: usize,
    words: &[u32],
    y: &mut [u16],
    u: &mut [u16],
    v: &mut [u16],
    run: &mut [u16; 257],
    room: &mut [u16; 4096],
) -> usize
    requires { PlanesAsked (given_of w h format constrained [] residual.now pred_y.now pred_u.now pred_v.now) leaf «record».mask words.now y.old u.old v.old
        × (end_v at «record».mask leaf.side ≤ length residual.now) }
    ensures { Drawn (given_of w h format constrained [] residual.now pred_y.now pred_u.now pred_v.now) leaf
        «record».kind «record».mask at words.now y.old u.old v.old y.new u.new v.new result }
{
    let column = leaf.x;
    let row = leaf.y;
    let luma = Block {
        component: Component::Luma,
        w,
        h,
        x: column,
        y: row,
        side: leaf.side,
        constrained,
    };
    let end = component(
        luma,
        record.kind,
        coded_y(record.mask),
        pred_y,
        residual,
        at,
        words,
        y,
        &mut *run,
        &mut *room,
    );
    leaf_colour(
        w,
        h,
        format,
        constrained,
        leaf,
        record,
        pred_u,
        pred_v,
        residual,
        end,
        words,
        u,
        v,
        run,
        room,
    )
}

// ---- the leaves of a root, drawn

// The first n of a root, leaf k first. The answer is where their residuals end.
fn draw_leaves(
    w: usize,
    h: usize,
    format: Format,
    constrained: bool,
    list: &[u16],
    root: Root,
    n: usize,
    leaves: &[u8],
    k: usize,
    pred_y: &[u16],
    pred_u: &[u16],
    pred_v: &[u16],
    residual: &[i16],
    at: usize,
    y: &mut [u16],
    u: &mut [u16],
    v: &mut [u16],
    words: &mut [u32],
    modes: &mut [u8],
    keep: &mut [u8],
    run: &mut [u16; 257],
    room: &mut [u16; 4096],
) -> usize
    requires given_asked { GivenAsked (given_of w h format constrained leaves.now residual.now pred_y.now pred_u.now pred_v.now) }
    requires state_asked { StateAsked (given_of w h format constrained leaves.now residual.now pred_y.now pred_u.now pred_v.now)
        (state_of y.old u.old v.old words.old modes.old keep.old at k) }
    requires blocks { Blocks w h (unpacked_at root list.now) n × (length list.now ≡ 256) × (root.x.0 ≤ 4096) × (root.y.0 ≤ 4096)
        × Reaches leaves.now (length residual.now) (passed leaves.now (leaves_from (unpacked_at root list.now) n) (walked_to at k)) }
    ensures { Stepped (given_of w h format constrained leaves.now residual.now pred_y.now pred_u.now pred_v.now)
        (leaves_from (unpacked_at root list.now) n)
        (state_of y.old u.old v.old words.old modes.old keep.old at k)
        (state_of y.new u.new v.new words.new modes.new keep.new result (k + n)) }
{
    let mut end = at;
    for j in 0..n {
        let leaf = leaf_at(list, root, j);
        let record = record_at(leaves, k + j);
        end = leaf_planes(
            w,
            h,
            format,
            constrained,
            leaf,
            record,
            pred_y,
            pred_u,
            pred_v,
            residual,
            end,
            &*words,
            &mut *y,
            &mut *u,
            &mut *v,
            &mut *run,
            &mut *room,
        );
        tell(&mut *words, &mut *modes, &mut *keep, w, leaf, record);
    }
    end
}

// ---- the picture

// All leaves, root after root in raster order.
pub(crate) fn draw_picture(
    w: usize,
    h: usize,
    format: Format,
    constrained: bool,
    splits: &[u8],
    leaves: &[u8],
    pred_y: &[u16],
    pred_u: &[u16],
    pred_v: &[u16],
    residual: &[i16],
    y: &mut [u16],
    u: &mut [u16],
    v: &mut [u16],
    words: &mut [u32],
    modes: &mut [u8],
    keep: &mut [u8],
)
    requires given_asked { GivenAsked (given_of w h format constrained leaves.now residual.now pred_y.now pred_u.now pred_v.now) }
    requires state_asked { StateAsked (given_of w h format constrained leaves.now residual.now pred_y.now pred_u.now pred_v.now)
        (state_of y.old u.old v.old words.old modes.old keep.old 0 0) }
    requires accepted { Accepted w h splits.now × Reaches leaves.now (length residual.now) (passed leaves.now (leaves_of w h splits.now) first) }
    ensures { Ended
        (steps (given_of w h format constrained leaves.now residual.now pred_y.now pred_u.now pred_v.now)
        (leaves_of w h splits.now)
        (state_of y.old u.old v.old words.old modes.old keep.old 0 0))
        y.new u.new v.new words.new modes.new keep.new }
{
    let across = def::roots_along(w);
    let roots = across * def::roots_along(h);
    let mut list = [0u16; 256];
    let mut run = [0u16; 257];
    let mut room = [0u16; 4096];
    let mut at = 0;
    let mut k = 0;
    for i in 0..roots {
        let root = Root {
            x: Pel(64 * (i % across)),
            y: Pel(64 * (i / across)),
        };
        let n = packed_leaves(w, h, splits, i, &mut room, &mut list);
        at = draw_leaves(
            w,
            h,
            format,
            constrained,
            &list,
            root,
            n,
            leaves,
            k,
            pred_y,
            pred_u,
            pred_v,
            residual,
            at,
            &mut *y,
            &mut *u,
            &mut *v,
            &mut *words,
            &mut *modes,
            &mut *keep,
            &mut run,
            &mut room,
        );
        k += n;
    }
}
