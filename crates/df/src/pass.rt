// A pass over a picture: a root's edges are listed, their strengths and marks looked up, and then they are filtered.
// The Rust beside it: df.rs, evc_deblock_tree, evc_deblock. Its vertical pass asks which units are done; `left_done_lem` and `right_not` of `split` have the answers.
ghost use Rattle.std.specs.Prelude.{◌≡◌, ◌+◌, ◌/◌, ◌≤◌, ◌<◌, length};
ghost use Rattle.def.specs.Picture.{root_count};
ghost use Rattle.bands_rules.specs.Bands.{list_from};
ghost use Rattle.df_rules.specs.Lent.{LentPicture};
ghost use Rattle.split.specs.Accepted.{Accepted};
ghost use Rattle.edge_filter.specs.Edges.{pass_of};
ghost use Rattle.df.specs.Plan.{ListedRoot, PassDone, RowsLent};

use def::{Format, Pel, roots_along};
use edge_filter::{Pass, filter_chroma, filter_luma, is_horizontal};
use edge_place::plan_edges;

// What a pass goes over: `h` rows of `w` luma samples, below `top` rows of units. A leaf of 64 is `halved` where the transform limit is 5.
#[derive(Clone, Copy)]
pub(crate) struct Shape {
    pub(crate) format: Format,
    pub(crate) halved: bool,
    pub(crate) w: usize,
    pub(crate) h: usize,
    pub(crate) top: usize,
}

// How many roots h rows of w samples have.
fn root_count(w: usize, h: usize) -> usize
    requires { (w ≤ 4096) × (h ≤ 4096) }
    ensures { (result ≡ root_count w h) × (result ≤ 4096) }
{
    roots_along(w) * roots_along(h)
}

// A pass's edges of root i, as listing writes them, the shape's `top` rows of units further down, and how many they are. The walk of the picture was checked, and is not
// refused here.
fn root_edges(pass: Pass, shape: Shape, splits: &[u8], i: usize, out: &mut [u16]) -> usize
    requires { Accepted shape.w shape.h splits.now × (i < root_count shape.w shape.h) × (length out.old ≡ 512) × (shape.top + shape.h / 4 ≤ 1024) }
    ensures { ListedRoot shape.w shape.h splits.now (pass_of pass) shape.halved shape.top i out.new result }
{
    let Shape {
        halved,
        w,
        h,
        top,
        ..
    } = shape;
    let across = roots_along(w);
    let x = Pel(64 * (i % across));
    let y = Pel(64 * (i / across));
    match edges::root_list(w, h, splits, x, y, is_horizontal(pass), halved, top, out) {
        Ok(n) => n,
        Err(_) => 0,
    }
}

// One pass over the shape's rows: the roots follow in raster order. The answer is how many edges were filtered.
pub(crate) fn deblock_pass(
    pass: Pass,
    shape: Shape,
    y: &mut [u16],
    u: &mut [u16],
    v: &mut [u16],
    words: &[u32],
    splits: &[u8],
    motion: &[i16],
    refs: &[i8],
    keep: &[u8],
    rows: &[u8],
    entries: &[u8; 624],
) -> usize
    requires { LentPicture shape.format (shape.w / 4) (shape.top + shape.h / 4) y.old u.old v.old words.now (record { motion = motion.now; refs = refs.now; keep = keep.now }) entries.now × Accepted shape.w shape.h splits.now × RowsLent (shape.w / 4) words.now motion.now refs.now rows.now }
    ensures { PassDone (record { words = words.entry.now; over = record { motion = motion.entry.now; refs = refs.now; keep = keep.now } }) entries.now
        (pass_of pass) (shape.w / 4) (list_from (pass_of pass) shape.halved shape.top splits.now (shape.w / 4) (shape.h / 4))
        (record { y = y.entry.now; u = u.old; v = v.old }) (record { y = y.exit.now; u = u.new; v = v.new }) result }
{
    let columns = shape.w / 4;
    let horizontal = is_horizontal(pass);
    let roots = root_count(shape.w, shape.h);
    let mut list = [0u16; 512];
    let mut places = [0u8; 256];
    let mut marks = [0u8; 256];
    let mut count = 0;
    for i in 0..roots {
        let n = root_edges(pass, shape, splits, i, &mut list);
        plan_edges(
            horizontal,
            columns,
            words,
            motion,
            refs,
            keep,
            rows,
            &list,
            n,
            &mut places,
            &mut marks,
        );
        filter_luma(pass, columns, &mut *y, entries, &list, &places, &marks, n);
        filter_chroma(
            shape.format,
            pass,
            columns,
            &mut *u,
            &mut *v,
            entries,
            &list,
            &places,
            &marks,
            n,
        );
        count += n;
    }
    count
}
