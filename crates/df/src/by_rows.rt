// Deblocking that may read the rows of edges from a map of them. The Rust has no such map.
ghost use Rattle.laws.specs.Call.{Gives};
ghost use Rattle.df.specs.ByRows as ByRows;
ghost use Rattle.df.specs.Deblock as Deblock;

use crate::pass::Shape;
use crate::{entries_by, passes_by};
use by_rows_check::checked_by_rows;
use def::Refusal;
use df_check::Settings;
use split::EdgeCounts;

// `deblock`, lent a map of edge rows, or none: everything is checked before the first write.
pub fn deblock_by_rows(
    w: usize,
    h: usize,
    y: &mut [u16],
    u: &mut [u16],
    v: &mut [u16],
    words: &mut [u32],
    splits: &[u8],
    motion: &[i16],
    refs: &[i8],
    keep: &[u8],
    rows: &[u8],
    table0: &[i8],
    table1: &[i8],
    strengths: &[u8],
    settings: Settings,
) -> Result<EdgeCounts, Refusal>
    ensures { Gives ByRows.outcome
        (record {
          given = record {
            w = w;
            h = h;
            y = y.old;
            u = u.old;
            v = v.old;
            words = words.old;
            splits = splits.now;
            motion = motion.now;
            refs = refs.now;
            keep = keep.now;
            table0 = table0.now;
            table1 = table1.now;
            strengths = strengths.now;
            settings = settings;
          };
          rows = rows.now;
        })
        (record { reading = Deblock.reading_of result; y = y.new; u = u.new; v = v.new; words = words.new }) }
{
    checked_by_rows(
        w,
        h,
        &*y,
        &*u,
        &*v,
        &*words,
        splits,
        motion,
        refs,
        keep,
        rows,
        table0.len(),
        table1.len(),
        strengths.len(),
        settings,
    )?;
    let table = entries_by(settings, strengths, table0, table1);
    let shape = Shape {
        format: settings.format,
        halved: settings.limit == 5,
        w,
        h,
        top: 0,
    };
    Ok(passes_by(
        shape, y, u, v, words, splits, motion, refs, keep, rows, &table,
    ))
}
