// Deblocking. A picture's format is a flag: whether it has colour.
ghost use Rattle.std.specs.Prelude.{◌≡◌};
ghost use Rattle.laws.specs.Call.{Gives};
ghost use Rattle.df.specs.Band as banding;
ghost use Rattle.df.specs.ByRows as rowing;
ghost use Rattle.df.specs.Deblock as deblocking;
ghost use Rattle.decoder_c.specs.Flags.{settings_of};

use crate::format_of;
use def::Refusal;
use df::{Banded, Bands};
use df_check::Settings;
use split::EdgeCounts;

fn settings_of(limit: u8, u_offset: i8, v_offset: i8, colour: bool) -> Settings
    ensures { result ≡ settings_of limit u_offset v_offset colour }
{
    let format = format_of(colour);
    Settings {
        limit,
        u_offset,
        v_offset,
        format,
    }
}

// An answer in numbers: the counts are 0 where refused.
#[derive(Drop)]
struct Counts {
    number: u8,
    vertical: usize,
    horizontal: usize,
}

fn counts_of(a: Result<EdgeCounts, Refusal>) -> Counts
    ensures { (result.number ≡ (deblocking.reading_of a).number) × (result.vertical ≡ (deblocking.reading_of a).vertical) × (result.horizontal ≡ (deblocking.reading_of a).horizontal) }
{
    match a {
        Ok(counts) => Counts {
            number: 0,
            vertical: counts.vertical,
            horizontal: counts.horizontal,
        },
        Err(r) => Counts {
            number: def::refusal_number(r),
            vertical: 0,
            horizontal: 0,
        },
    }
}

#[unsafe(no_mangle)]
pub extern "C" fn lomsakeun_deblock(
    w: usize,
    h: usize,
    y: &mut [u16],
    u: &mut [u16],
    v: &mut [u16],
    words: &mut [u32],
    splits: &[u8],
    motion: &[i16],
    refs: &[i8],
    keep: &[u8],
    table0: &[i8],
    table1: &[i8],
    strengths: &[u8],
    limit: u8,
    u_offset: i8,
    v_offset: i8,
    colour: bool,
    vertical_count: &mut usize,
    horizontal_count: &mut usize,
) -> u8
    ensures { Gives deblocking.outcome
        (record {
          w = w;
          h = h;
          y = y.old;
          u = u.old;
          v = v.old;
          words = words.old;
          splits = splits.now;
          motion = motion.now;
          refs = refs.now;
          keep = keep.now;
          table0 = table0.now;
          table1 = table1.now;
          strengths = strengths.now;
          settings = settings_of limit u_offset v_offset colour;
        })
        (record {
          reading = record { number = result; vertical = vertical_count.new; horizontal = horizontal_count.new };
          y = y.new;
          u = u.new;
          v = v.new;
          words = words.new;
        }) }
{
    let settings = settings_of(limit, u_offset, v_offset, colour);
    let seen = counts_of(df::deblock(
        w, h, y, u, v, words, splits, motion, refs, keep, table0, table1, strengths, settings,
    ));
    *vertical_count = seen.vertical;
    *horizontal_count = seen.horizontal;
    seen.number
}

#[unsafe(no_mangle)]
pub extern "C" fn lomsakeun_deblock_by_rows(
    w: usize,
    h: usize,
    y: &mut [u16],
    u: &mut [u16],
    v: &mut [u16],
    words: &mut [u32],
    splits: &[u8],
    motion: &[i16],
    refs: &[i8],
    keep: &[u8],
    rows: &[u8],
    table0: &[i8],
    table1: &[i8],
    strengths: &[u8],
    limit: u8,
    u_offset: i8,
    v_offset: i8,
    colour: bool,
    vertical_count: &mut usize,
    horizontal_count: &mut usize,
) -> u8
    ensures { Gives rowing.outcome
        (record {
          given = record {
            w = w;
            h = h;
            y = y.old;
            u = u.old;
            v = v.old;
            words = words.old;
            splits = splits.now;
            motion = motion.now;
            refs = refs.now;
            keep = keep.now;
            table0 = table0.now;
            table1 = table1.now;
            strengths = strengths.now;
            settings = settings_of limit u_offset v_offset colour;
          };
          rows = rows.now;
        })
        (record {
          reading = record { number = result; vertical = vertical_count.new; horizontal = horizontal_count.new };
          y = y.new;
          u = u.new;
          v = v.new;
          words = words.new;
        }) }
{
    let settings = settings_of(limit, u_offset, v_offset, colour);
    let seen = counts_of(df::deblock_by_rows(
        w, h, y, u, v, words, splits, motion, refs, keep, rows, table0, table1, strengths, settings,
    ));
    *vertical_count = seen.vertical;
    *horizontal_count = seen.horizontal;
    seen.number
}

// An answer of a band in numbers: the counts are 0 where refused.
#[derive(Drop)]
struct BandCounts {
    number: u8,
    vertical: usize,
    horizontal: usize,
    next: usize,
}

fn band_counts_of(a: Banded) -> BandCounts
    ensures { (result.number ≡ (banding.reading_of a).number) × (result.vertical ≡ (banding.reading_of a).vertical) × (result.horizontal ≡ (banding.reading_of a).horizontal) × (result.next ≡ (banding.reading_of a).next) }
{
    let next = a.next.next;
    match a.counts {
        Ok(counts) => BandCounts {
            number: 0,
            vertical: counts.vertical,
            horizontal: counts.horizontal,
            next,
        },
        Err(r) => BandCounts {
            number: def::refusal_number(r),
            vertical: 0,
            horizontal: 0,
            next,
        },
    }
}

// The position goes in and out through `next`: it starts at 0, and on a refusal it stays as it was.
#[unsafe(no_mangle)]
pub extern "C" fn lomsakeun_deblock_band(
    next: &mut usize,
    band: usize,
    w: usize,
    h: usize,
    y: &mut [u16],
    u: &mut [u16],
    v: &mut [u16],
    words: &mut [u32],
    splits: &[u8],
    motion: &[i16],
    refs: &[i8],
    keep: &[u8],
    table0: &[i8],
    table1: &[i8],
    strengths: &[u8],
    limit: u8,
    u_offset: i8,
    v_offset: i8,
    colour: bool,
    vertical_count: &mut usize,
    horizontal_count: &mut usize,
) -> u8
    ensures { Gives banding.outcome
        (record {
          next = next.old;
          band = band;
          w = w;
          h = h;
          y = y.old;
          u = u.old;
          v = v.old;
          words = words.old;
          splits = splits.now;
          motion = motion.now;
          refs = refs.now;
          keep = keep.now;
          table0 = table0.now;
          table1 = table1.now;
          strengths = strengths.now;
          settings = settings_of limit u_offset v_offset colour;
        })
        (record {
          reading = record { number = result; vertical = vertical_count.new; horizontal = horizontal_count.new; next = next.new };
          y = y.new;
          u = u.new;
          v = v.new;
          words = words.new;
        }) }
{
    let settings = settings_of(limit, u_offset, v_offset, colour);
    let at = Bands { next: *next };
    let seen = band_counts_of(at.deblock_band(
        band, w, h, y, u, v, words, splits, motion, refs, keep, table0, table1, strengths, settings,
    ));
    *next = seen.next;
    *vertical_count = seen.vertical;
    *horizontal_count = seen.horizontal;
    seen.number
}
