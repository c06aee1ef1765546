// Deblocking: which edges are filtered, in which order, and with which strength. How a list's edges are filtered is the matter of `edge_filter`.
// The Rust beside it: df.rs.
#![tactic(auto)]

ghost use Rattle.std.specs.Prelude.{◌≡◌, ◌+◌, ◌/◌};
ghost use Rattle.laws.specs.Call.{Gives};
ghost use Rattle.split.specs.Edges.{vertical, horizontal};
ghost use Rattle.bands_rules.specs.Bands.{list_from, BothPassesFrom};
ghost use Rattle.df_rules.specs.Lent.{LentPicture};
ghost use Rattle.split.specs.Accepted.{Accepted};
ghost use Rattle.df_rules.specs.Visit.{all_done};
ghost use Rattle.df.specs.Deblock as Deblock;
ghost use Rattle.strength.specs.Entries.{entries_in};
ghost use Rattle.df.specs.Plan.{RowsLent};

use crate::pass::{Shape, deblock_pass};
use def::{Refusal, set_cod};
use df_check::Settings;
use edge_filter::Pass;
use split::EdgeCounts;
use strength::entries;

mod pass; // pass.rt: a root's edges, and a pass over the picture
mod band; // band.rt: a picture by bands
mod by_rows; // by_rows.rt: rows read from a map

pub use band::{Banded, Bands};
pub use by_rows::deblock_by_rows;

// The strength entries of both passes, by the settings' format and offsets.
pub(crate) fn entries_by(s: Settings, strengths: &[u8], table0: &[i8], table1: &[i8]) -> [u8; 624]
    ensures { result ≡ entries_in s.format strengths.now table0.now s.u_offset table1.now s.v_offset }
{
    let format = s.format;
    entries(format, strengths, table0, s.u_offset, table1, s.v_offset)
}

// Sets done in every unit.
fn all_done(words: &mut [u32])
    ensures { words.new ≡ all_done words.old }
{
    let n = words.len();
    for k in 0..n {
        words[k] = set_cod(words[k]);
    }
}

// Both passes over the shape's rows: the vertical pass covers all of them first. Then every unit of theirs is done. The rows of
// edges are read from a map of them, where one is lent.
// kept: the slices are handed on one by one. A struct of them would need a proof by hand of 100 to 230 lines for each function that takes it.
pub(crate) fn passes_by(
    shape: Shape,
    y: &mut [u16],
    u: &mut [u16],
    v: &mut [u16],
    words: &mut [u32],
    splits: &[u8],
    motion: &[i16],
    refs: &[i8],
    keep: &[u8],
    rows: &[u8],
    entries: &[u8; 624],
) -> EdgeCounts
    requires { LentPicture shape.format (shape.w / 4) (shape.top + shape.h / 4) y.old u.old v.old words.old (record { motion = motion.now; refs = refs.now; keep = keep.now }) entries.now × Accepted shape.w shape.h splits.now × RowsLent (shape.w / 4) words.old motion.now refs.now rows.now }
    ensures { BothPassesFrom (record { words = words.entry.now; over = record { motion = motion.entry.now; refs = refs.now; keep = keep.now } }) entries.now
        (shape.w / 4) shape.top (list_from vertical shape.halved shape.top splits.now (shape.w / 4) (shape.h / 4)) (list_from horizontal shape.halved shape.top splits.now (shape.w / 4) (shape.h / 4))
        (record { y = y.entry.now; u = u.old; v = v.old }) (record { y = y.exit.now; u = u.new; v = v.new })
        words.exit.now result.vertical result.horizontal }
{
    let m = deblock_pass(
        Pass::Vertical,
        shape,
        &mut *y,
        &mut *u,
        &mut *v,
        &*words,
        splits,
        motion,
        refs,
        keep,
        rows,
        entries,
    );
    let n = deblock_pass(
        Pass::Horizontal,
        shape,
        &mut *y,
        &mut *u,
        &mut *v,
        &*words,
        splits,
        motion,
        refs,
        keep,
        rows,
        entries,
    );
    let from = shape.top * (shape.w / 4);
    all_done(&mut words[from..]);
    EdgeCounts {
        vertical: m,
        horizontal: n,
    }
}

// evc_deblock: everything is checked before the first write. No map of edge rows is lent.
pub fn deblock(
    w: usize,
    h: usize,
    y: &mut [u16],
    u: &mut [u16],
    v: &mut [u16],
    words: &mut [u32],
    splits: &[u8],
    motion: &[i16],
    refs: &[i8],
    keep: &[u8],
    table0: &[i8],
    table1: &[i8],
    strengths: &[u8],
    settings: Settings,
) -> Result<EdgeCounts, Refusal>
    ensures { Gives Deblock.outcome
        (record {
          w = w;
          h = h;
          y = y.old;
          u = u.old;
          v = v.old;
          words = words.old;
          splits = splits.now;
          motion = motion.now;
          refs = refs.now;
          keep = keep.now;
          table0 = table0.now;
          table1 = table1.now;
          strengths = strengths.now;
          settings = settings;
        })
        (record { reading = Deblock.reading_of result; y = y.new; u = u.new; v = v.new; words = words.new }) }
{
    deblock_by_rows(
        w,
        h,
        y,
        u,
        v,
        words,
        splits,
        motion,
        refs,
        keep,
        &splits[..0],
        table0,
        table1,
        strengths,
        settings,
    )
}
