// What deblocking of a band refuses. The Rust has no bands.
ghost use Rattle.laws.specs.Call.{Gives};
ghost use Rattle.df_check.specs.BandCheck.{check_of};

use crate::Settings;
use crate::check::from_lengths;
use band_rows::{band_ok, lent_rows};
use def::Refusal;

// 1, 14, and then what a picture's checks ask, of what is lent: the band above, if any, and the band.
pub fn checked_band(
    next: usize,
    band: usize,
    w: usize,
    h: usize,
    y: &[u16],
    u: &[u16],
    v: &[u16],
    words: &[u32],
    splits: &[u8],
    motion: usize,
    refs: usize,
    keep: &[u8],
    table0: usize,
    table1: usize,
    strengths: usize,
    settings: Settings,
) -> Result<(), Refusal>
    ensures { Gives check_of
        (record {
          next = next;
          band = band;
          lent = record {
            w = w;
            h = h;
            y = y.now;
            u = u.now;
            v = v.now;
            words = words.now;
            splits = splits.now;
            motion = motion;
            refs = refs;
            keep = keep.now;
            table0 = table0;
            table1 = table1;
            strengths = strengths;
            settings = settings;
          };
        })
        result }
{
    if !def::size_ok(w, h) {
        return Err(Refusal::Size);
    }
    if !band_ok(next, band, h) {
        return Err(Refusal::Band);
    }
    let rows = lent_rows(h, band);
    from_lengths(
        w,
        h,
        rows.all,
        rows.own,
        rows.before,
        y,
        u,
        v,
        words,
        splits,
        motion,
        refs,
        keep,
        table0,
        table1,
        strengths,
        settings,
    )
}
