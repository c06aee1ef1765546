// Deblocking by bands: a position by value, and the band that comes next. The Rust has no bands.
ghost use Rattle.std.specs.Prelude.{◌≡◌, ◌+◌, ◌*◌, ◌/◌, ◌≤◌, length, take, drop, Ok};
ghost use Rattle.def.specs.Formats.{in_format};
ghost use Rattle.split.specs.Edges.{vertical, horizontal};
ghost use Rattle.df_rules.specs.Lent.{LentPicture};
ghost use Rattle.split.specs.Accepted.{Accepted};
ghost use Rattle.bands_rules.specs.Bands.{list_from, BothPassesFrom};
ghost use Rattle.laws.specs.Call.{Gives};
ghost use Rattle.df.specs.Band as Band;

use crate::pass::Shape;
use crate::{entries_by, passes_by};
use band_rows::{band_rows, rows_above};
use def::{Refusal, in_format};
use df_check::{Settings, checked_band};
use split::EdgeCounts;

// A position in a picture that is done by bands: the band that comes next.
#[derive(Drop)]
pub struct Bands {
    pub next: usize,
}

// How many edges each pass filtered, or why nothing was written; and the position after the band, or as it was where the band is refused.
#[derive(Drop)]
pub struct Banded {
    pub counts: Result<EdgeCounts, Refusal>,
    pub next: Bands,
}

// Both passes over the shape's rows. What is lent has `skip` more rows of units before these, which are not looked at. No map of edge
// rows is lent.
pub(crate) fn band_passes(
    shape: Shape,
    skip: usize,
    y: &mut [u16],
    u: &mut [u16],
    v: &mut [u16],
    words: &mut [u32],
    splits: &[u8],
    motion: &[i16],
    refs: &[i8],
    keep: &[u8],
    entries: &[u8; 624],
) -> EdgeCounts
    requires lent_picture { LentPicture shape.format (shape.w / 4) (shape.top + shape.h / 4) (drop (16 * (skip * (shape.w / 4))) y.old) (drop (in_format shape.format (4 * (skip * (shape.w / 4)))) u.old) (drop (in_format shape.format (4 * (skip * (shape.w / 4)))) v.old) (drop (skip * (shape.w / 4)) words.old) (record { motion = drop (4 * (skip * (shape.w / 4))) motion.now; refs = drop (2 * (skip * (shape.w / 4))) refs.now; keep = drop (skip * (shape.w / 4)) keep.now }) entries.now
        × Accepted shape.w shape.h splits.now }
    requires w_in_bounds { (16 * (skip * (shape.w / 4)) ≤ length y.old) × (in_format shape.format (4 * (skip * (shape.w / 4))) ≤ length u.old) × (in_format shape.format (4 * (skip * (shape.w / 4))) ≤ length v.old) × (skip * (shape.w / 4) ≤ length words.old) × (4 * (skip * (shape.w / 4)) ≤ length motion.now) × (2 * (skip * (shape.w / 4)) ≤ length refs.now) × (skip * (shape.w / 4) ≤ length keep.now) × (skip * (shape.w / 4) ≤ 16384) }
    ensures { (take (16 * (skip * (shape.w / 4))) y.exit.now ≡ take (16 * (skip * (shape.w / 4))) y.entry.now)
        × (take (in_format shape.format (4 * (skip * (shape.w / 4)))) u.new ≡ take (in_format shape.format (4 * (skip * (shape.w / 4)))) u.old)
        × (take (in_format shape.format (4 * (skip * (shape.w / 4)))) v.new ≡ take (in_format shape.format (4 * (skip * (shape.w / 4)))) v.old)
        × (take (skip * (shape.w / 4)) words.exit.now ≡ take (skip * (shape.w / 4)) words.entry.now)
        × BothPassesFrom (record { words = drop (skip * (shape.w / 4)) words.entry.now; over = record { motion = drop (4 * (skip * (shape.w / 4))) motion.entry.now; refs = drop (2 * (skip * (shape.w / 4))) refs.now; keep = drop (skip * (shape.w / 4)) keep.now } }) entries.now
        (shape.w / 4) shape.top (list_from vertical shape.halved shape.top splits.now (shape.w / 4) (shape.h / 4)) (list_from horizontal shape.halved shape.top splits.now (shape.w / 4) (shape.h / 4))
        (record { y = drop (16 * (skip * (shape.w / 4))) y.entry.now; u = drop (in_format shape.format (4 * (skip * (shape.w / 4)))) u.old; v = drop (in_format shape.format (4 * (skip * (shape.w / 4)))) v.old })
        (record { y = drop (16 * (skip * (shape.w / 4))) y.exit.now; u = drop (in_format shape.format (4 * (skip * (shape.w / 4)))) u.new; v = drop (in_format shape.format (4 * (skip * (shape.w / 4)))) v.new })
        (drop (skip * (shape.w / 4)) words.exit.now) result.vertical result.horizontal }
{
    let from = skip * (shape.w / 4);
    let luma = 16 * from;
    let chroma = in_format(shape.format, 4 * from);
    let motion_from = 4 * from;
    let refs_from = 2 * from;
    passes_by(
        shape,
        &mut y[luma..],
        &mut u[chroma..],
        &mut v[chroma..],
        &mut words[from..],
        splits,
        &motion[motion_from..],
        &refs[refs_from..],
        &keep[from..],
        &splits[..0],
        entries,
    )
}

impl Bands {
    // Band 0 comes next.
    pub fn first() -> Bands
        ensures { result.next ≡ 0 }
    {
        Bands { next: 0 }
    }

    // Deblocks a band whose checks found nothing.
    fn deblock_checked(
        self,
        band: usize,
        w: usize,
        h: usize,
        y: &mut [u16],
        u: &mut [u16],
        v: &mut [u16],
        words: &mut [u32],
        splits: &[u8],
        motion: &[i16],
        refs: &[i8],
        keep: &[u8],
        table0: &[i8],
        table1: &[i8],
        strengths: &[u8],
        settings: Settings,
    ) -> Banded
        requires { Band.check
            (record {
              next = self.next;
              band = band;
              w = w;
              h = h;
              y = y.old;
              u = u.old;
              v = v.old;
              words = words.old;
              splits = splits.now;
              motion = motion.now;
              refs = refs.now;
              keep = keep.now;
              table0 = table0.now;
              table1 = table1.now;
              strengths = strengths.now;
              settings = settings;
            }) ≡ Ok tt }
        ensures { Gives Band.outcome
            (record {
              next = self.next;
              band = band;
              w = w;
              h = h;
              y = y.old;
              u = u.old;
              v = v.old;
              words = words.old;
              splits = splits.now;
              motion = motion.now;
              refs = refs.now;
              keep = keep.now;
              table0 = table0.now;
              table1 = table1.now;
              strengths = strengths.now;
              settings = settings;
            })
            (record { reading = Band.reading_of result; y = y.new; u = u.new; v = v.new; words = words.new }) }
    {
        let table = entries_by(settings, strengths, table0, table1);
        let rows = band_rows(h, band);
        let above = rows_above(band);
        let top = above / 16;
        let skip = above - top;
        let shape = Shape {
            format: settings.format,
            halved: settings.limit == 5,
            w,
            h: 4 * rows,
            top,
        };
        let counts = band_passes(
            shape, skip, y, u, v, words, splits, motion, refs, keep, &table,
        );
        let after = self.next + 1;
        Banded {
            counts: Ok(counts),
            next: Bands { next: after },
        }
    }

    // Deblocks band `band` of a picture of w by h: everything is checked before the first write.
    pub fn deblock_band(
        self,
        band: usize,
        w: usize,
        h: usize,
        y: &mut [u16],
        u: &mut [u16],
        v: &mut [u16],
        words: &mut [u32],
        splits: &[u8],
        motion: &[i16],
        refs: &[i8],
        keep: &[u8],
        table0: &[i8],
        table1: &[i8],
        strengths: &[u8],
        settings: Settings,
    ) -> Banded
        ensures { Gives Band.outcome
            (record {
              next = self.next;
              band = band;
              w = w;
              h = h;
              y = y.old;
              u = u.old;
              v = v.old;
              words = words.old;
              splits = splits.now;
              motion = motion.now;
              refs = refs.now;
              keep = keep.now;
              table0 = table0.now;
              table1 = table1.now;
              strengths = strengths.now;
              settings = settings;
            })
            (record { reading = Band.reading_of result; y = y.new; u = u.new; v = v.new; words = words.new }) }
    {
        if let Err(r) = checked_band(
            self.next,
            band,
            w,
            h,
            &*y,
            &*u,
            &*v,
            &*words,
            splits,
            motion.len(),
            refs.len(),
            keep,
            table0.len(),
            table1.len(),
            strengths.len(),
            settings,
        ) {
            return Banded {
                counts: Err(r),
                next: self,
            };
        }
        self.deblock_checked(
            band, w, h, y, u, v, words, splits, motion, refs, keep, table0, table1, strengths,
            settings,
        )
    }
}
