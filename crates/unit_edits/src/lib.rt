// A map of edge rows, kept right while motion and flags are edited unit by unit. The Rust has none: it works each row out where it filters the edge.
#![tactic(auto)]

ghost use Rattle.std.specs.Prelude.{◌≡◌, true, ◌+◌, ◌*◌, ◌≤◌, ◌<◌, length};
ghost use Rattle.laws.specs.Bits.{with_field};
ghost use Rattle.laws.specs.Call.{Gives};
ghost use Rattle.laws.specs.Index.{pick};
ghost use Rattle.def.specs.Answers.{answer_number};
ghost use Rattle.def.specs.Word.{bit};
ghost use Rattle.df_rules.specs.Places.{step_across};
ghost use Rattle.rows_rules.specs.Checks.{check_unit};
ghost use Rattle.rows_rules.specs.Inside.{Lent, UnitAt, edge_put, nexts_put};
ghost use Rattle.rows_rules.specs.MotionCall as MotionCall;
ghost use Rattle.rows_rules.specs.MotionCall.{with_motion, with_refs};
ghost use Rattle.rows_rules.specs.Rule.{has_side, first_bit, edge_row, edited_map};
ghost use Rattle.unit_edits.specs.FlagCall as FlagCall;
ghost use Rattle.unit_edits.specs.FlagCall.{with_flag};
ghost use Rattle.unit_edits.specs.Sides.{pass_of};

use def::{Refusal, Scu};
use line::Motion;
use row::row_at;
use rows::checked_maps;

// ---- a unit's edges

// An edge of a unit that its byte has a row for.
#[derive(Clone, Copy)]
enum Side {
    Left,
    Top,
}

// From a unit back to the one on that side.
fn step_back(side: Side, columns: usize) -> usize
    ensures { result ≡ step_across (pass_of side) columns }
{
    match side {
        Side::Left => 1,
        Side::Top => columns,
    }
}

// A byte with a row at that side's two bits.
fn with_row(side: Side, byte: u8, row: u8) -> u8
    requires { row ≤ 3 }
    ensures { result ≡ with_field (first_bit (pass_of side)) 2 row byte }
{
    match side {
        Side::Left => byte / 4 * 4 + row,
        Side::Top => byte / 16 * 16 + 4 * row + byte % 4,
    }
}

// The row of unit k's edge on that side, 0 where no unit is there.
fn edge_row(
    side: Side,
    columns: usize,
    words: &[u32],
    motion: &[i16],
    refs: &[i8],
    there: bool,
    k: usize,
) -> u8
    requires { Lent columns words.now motion.now refs.now × (k < length words.now) × (there ≡ has_side (pass_of side) columns k) }
    ensures { (result ≡ edge_row words.now motion.now refs.now columns (pass_of side) k) × (result ≤ 3) }
{
    if !there {
        return 0;
    }
    let p = k - step_back(side, columns);
    row_at(words, motion, refs, k, p) as u8
}

// Sets that row in the map.
fn put_edge(
    side: Side,
    columns: usize,
    words: &[u32],
    motion: &[i16],
    refs: &[i8],
    there: bool,
    k: usize,
    rows: &mut [u8],
)
    requires { Lent columns words.now motion.now refs.now × (k < length words.now) × (there ≡ has_side (pass_of side) columns k) × (length rows.old ≡ length words.now) }
    ensures { rows.new ≡ edge_put words.now motion.now refs.now columns (pass_of side) k rows.old }
{
    let row = edge_row(side, columns, words, motion, refs, there, k);
    rows[k] = with_row(side, rows[k], row);
}

// The same for a neighbour's edge towards the unit, where the picture has that neighbour.
fn put_next(
    side: Side,
    columns: usize,
    words: &[u32],
    motion: &[i16],
    refs: &[i8],
    inside: bool,
    k: usize,
    rows: &mut [u8],
)
    requires { Lent columns words.now motion.now refs.now × (inside ≡ true → (k < length words.now) × (has_side (pass_of side) columns k ≡ true)) × (length rows.old ≡ length words.now) }
    ensures { rows.new ≡ pick inside (edge_put words.now motion.now refs.now columns (pass_of side) k rows.old) rows.old }
{
    if !inside {
        return;
    }
    put_edge(side, columns, words, motion, refs, true, k, rows)
}

// Sets the rows of the edges of the right and the lower neighbour towards the unit at column x, row y of a picture of so many columns and lines of units.
fn put_nexts(
    columns: usize,
    lines: usize,
    words: &[u32],
    motion: &[i16],
    refs: &[i8],
    x: Scu,
    y: Scu,
    rows: &mut [u8],
)
    requires { Lent columns words.now motion.now refs.now × UnitAt columns lines (length words.now) x.0 y.0 × (length rows.old ≡ length words.now) }
    ensures { rows.new ≡ nexts_put words.now motion.now refs.now columns lines x.0 y.0 rows.old }
{
    let k = y.0 * columns + x.0;
    put_next(
        Side::Left,
        columns,
        words,
        motion,
        refs,
        x.0 + 1 < columns,
        k + 1,
        &mut *rows,
    );
    put_next(
        Side::Top,
        columns,
        words,
        motion,
        refs,
        y.0 + 1 < lines,
        k + columns,
        rows,
    );
}

// Sets the rows of the unit's four edges: its own two, and then those of its neighbours.
fn put_edges(
    columns: usize,
    lines: usize,
    words: &[u32],
    motion: &[i16],
    refs: &[i8],
    x: Scu,
    y: Scu,
    rows: &mut [u8],
)
    requires { Lent columns words.now motion.now refs.now × UnitAt columns lines (length words.now) x.0 y.0 × (length rows.old ≡ length words.now) }
    ensures { rows.new ≡ edited_map words.now motion.now refs.now columns (y.0 * columns + x.0) rows.old }
{
    let k = y.0 * columns + x.0;
    put_edge(
        Side::Left,
        columns,
        words,
        motion,
        refs,
        0 < x.0,
        k,
        &mut *rows,
    );
    put_edge(
        Side::Top,
        columns,
        words,
        motion,
        refs,
        0 < y.0,
        k,
        &mut *rows,
    );
    put_nexts(columns, lines, words, motion, refs, x, y, rows);
}

// ---- the calls

fn checked_unit(
    w: usize,
    h: usize,
    words: usize,
    motion: usize,
    refs: usize,
    rows: usize,
    x: Scu,
    y: Scu,
) -> Result<(), Refusal>
    ensures { result ≡ check_unit w h words motion refs rows x.0 y.0 }
{
    checked_maps(w, h, words, motion, refs, rows)?;
    if !def::unit_ok(w, h, x, y) {
        return Err(Refusal::Block);
    }
    Ok(())
}

// Unit k's four numbers.
fn put_motion(motion: &mut [i16], k: usize, to: Motion)
    requires { 4 * k + 4 ≤ length motion.old }
    ensures { motion.new ≡ with_motion k to motion.old }
{
    let m = 4 * k;
    let x0 = to.x0;
    let y0 = to.y0;
    let x1 = to.x1;
    let y1 = to.y1;
    motion[m] = x0;
    motion[m + 1] = y0;
    motion[m + 2] = x1;
    motion[m + 3] = y1;
}

// Unit k's two references.
fn put_refs(refs: &mut [i8], k: usize, to: Motion)
    requires { 2 * k + 2 ≤ length refs.old }
    ensures { refs.new ≡ with_refs k to refs.old }
{
    let r = 2 * k;
    let refi0 = to.refi0;
    let refi1 = to.refi1;
    refs[r] = refi0;
    refs[r + 1] = refi1;
}

// Sets the motion and the references of the unit (x, y), and the rows of its edges.
pub fn set_motion(
    w: usize,
    h: usize,
    x: Scu,
    y: Scu,
    moved: Motion,
    words: &[u32],
    motion: &mut [i16],
    refs: &mut [i8],
    rows: &mut [u8],
) -> Result<(), Refusal>
    ensures { Gives MotionCall.outcome
        (record { w = w; h = h; x = x.0; y = y.0; moved = moved; words = words.now; motion = motion.old; refs = refs.old; rows = rows.old })
        (record { number = answer_number result; motion = motion.new; refs = refs.new; rows = rows.new }) }
{
    checked_unit(
        w,
        h,
        words.len(),
        motion.len(),
        refs.len(),
        rows.len(),
        x,
        y,
    )?;
    let columns = w / 4;
    let k = y.0 * columns + x.0;
    put_motion(&mut *motion, k, moved);
    put_refs(&mut *refs, k, moved);
    put_edges(columns, h / 4, words, &*motion, &*refs, x, y, rows);
    Ok(())
}

// A bit of the unit word that an edit may set.
#[derive(Drop)]
pub enum Flag {
    Intra,
    Coded,
}

fn bit_of(on: bool) -> u32
    ensures { (result ≡ bit on) × (result ≤ 1) }
{
    if on { 1 } else { 0 }
}

// SET_IF, CLR_IF, SET_CBFL, CLR_CBFL: a word with its bit on or off.
fn with_flag(flag: Flag, on: bool, word: u32) -> u32
    ensures { result ≡ with_flag flag on word }
{
    let one = bit_of(on);
    match flag {
        Flag::Intra => word / 65536 * 65536 + one * 32768 + word % 32768,
        Flag::Coded => word / 33554432 * 33554432 + one * 16777216 + word % 16777216,
    }
}

// Sets the intra or the luma-coded bit of the unit (x, y), and the rows of its edges.
pub fn set_flag(
    w: usize,
    h: usize,
    x: Scu,
    y: Scu,
    flag: Flag,
    on: bool,
    words: &mut [u32],
    motion: &[i16],
    refs: &[i8],
    rows: &mut [u8],
) -> Result<(), Refusal>
    ensures { Gives FlagCall.outcome
        (record { w = w; h = h; x = x.0; y = y.0; flag = flag; on = on; words = words.old; motion = motion.now; refs = refs.now; rows = rows.old })
        (record { number = answer_number result; words = words.new; rows = rows.new }) }
{
    checked_unit(
        w,
        h,
        words.len(),
        motion.len(),
        refs.len(),
        rows.len(),
        x,
        y,
    )?;
    let columns = w / 4;
    let k = y.0 * columns + x.0;
    words[k] = with_flag(flag, on, words[k]);
    put_edges(columns, h / 4, &*words, motion, refs, x, y, rows);
    Ok(())
}
