// What stands before the first write of deblocking by a map of edge rows: the checks of `df_check`, and those of the map. The Rust has no such map.
#![tactic(auto)]

ghost use Rattle.std.specs.Prelude.{◌≡◌, ◌≤◌};
ghost use Rattle.laws.specs.Call.{Gives};
ghost use Rattle.by_rows_check.specs.Checks.{rows_length_ok, check_of};

use def::Refusal;
use df_check::{Settings, checked};

// Whether the map has a byte a unit, or none.
fn rows_length_ok(w: usize, h: usize, rows: usize) -> bool
    requires { (w ≤ 4096) × (h ≤ 4096) }
    ensures { result ≡ rows_length_ok w h rows }
{
    (rows == 0) | (rows == (w / 4) * (h / 4))
}

// Everything that is refused, in its order: the map's length with the other lengths, and the map itself last. Of tables and strengths only the lengths are
// looked at.
pub fn checked_by_rows(
    w: usize,
    h: usize,
    y: &[u16],
    u: &[u16],
    v: &[u16],
    words: &[u32],
    splits: &[u8],
    motion: &[i16],
    refs: &[i8],
    keep: &[u8],
    rows: &[u8],
    table0: usize,
    table1: usize,
    strengths: usize,
    settings: Settings,
) -> Result<(), Refusal>
    ensures { Gives check_of
        (record {
          w = w;
          h = h;
          y = y.now;
          u = u.now;
          v = v.now;
          words = words.now;
          splits = splits.now;
          motion = motion.now;
          refs = refs.now;
          keep = keep.now;
          rows = rows.now;
          table0 = table0;
          table1 = table1;
          strengths = strengths;
          settings = settings;
        })
        result }
{
    if !def::size_ok(w, h) {
        return Err(Refusal::Size);
    }
    if !rows_length_ok(w, h, rows.len()) {
        return Err(Refusal::Length);
    }
    let passed = checked(
        w,
        h,
        y,
        u,
        v,
        words,
        splits,
        motion.len(),
        refs.len(),
        keep,
        table0,
        table1,
        strengths,
        settings,
    )?;
    if rows.len() == 0 {
        return Ok(());
    }
    if !rows::rows_right(w, h, words, motion, refs, rows) {
        return Err(Refusal::Rows);
    }
    Ok(())
}
