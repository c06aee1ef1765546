// A map of edge rows: filled, and tested. The Rust has none: it works each row out where it filters the edge.
#![tactic(auto)]

ghost use Rattle.std.specs.Prelude.{◌≡◌, ◌≤◌};
ghost use Rattle.laws.specs.Call.{Gives};
ghost use Rattle.def.specs.Answers.{answer_number};
ghost use Rattle.rows_rules.specs.Checks.{lengths_ok, check_maps, right_ok};
ghost use Rattle.rows_rules.specs.FillCall as FillCall;

use crate::run::{all_right, fill};
use def::Refusal;

mod run; // run.rt: a map filled and tested, many units at a time

fn lengths_ok(w: usize, h: usize, words: usize, motion: usize, refs: usize, rows: usize) -> bool
    requires { (w ≤ 4096) × (h ≤ 4096) }
    ensures { result ≡ lengths_ok w h words motion refs rows }
{
    let n = (w / 4) * (h / 4);
    (words == n) & (motion == 4 * n) & (refs == 2 * n) & (rows == n)
}

// What both calls refuse, and the edits of single units before their unit.
pub fn checked_maps(
    w: usize,
    h: usize,
    words: usize,
    motion: usize,
    refs: usize,
    rows: usize,
) -> Result<(), Refusal>
    ensures { result ≡ check_maps w h words motion refs rows }
{
    if !def::size_ok(w, h) {
        return Err(Refusal::Size);
    }
    if !lengths_ok(w, h, words, motion, refs, rows) {
        return Err(Refusal::Length);
    }
    Ok(())
}

// Fills the map: everything is checked before the first write.
pub fn fill_rows(
    w: usize,
    h: usize,
    words: &[u32],
    motion: &[i16],
    refs: &[i8],
    rows: &mut [u8],
) -> Result<(), Refusal>
    ensures { Gives FillCall.outcome
        (record { w = w; h = h; words = words.now; motion = motion.now; refs = refs.now; rows = rows.old })
        (record { number = answer_number result; rows = rows.new }) }
{
    checked_maps(w, h, words.len(), motion.len(), refs.len(), rows.len())?;
    fill(w / 4, words, motion, refs, rows);
    Ok(())
}

// Whether the map is right, of a picture of w by h.
pub fn rows_right(
    w: usize,
    h: usize,
    words: &[u32],
    motion: &[i16],
    refs: &[i8],
    rows: &[u8],
) -> bool
    ensures { result ≡ right_ok w h words.now motion.now refs.now rows.now }
{
    match checked_maps(w, h, words.len(), motion.len(), refs.len(), rows.len()) {
        Err(_) => false,
        Ok(()) => all_right(w / 4, words, motion, refs, rows),
    }
}
