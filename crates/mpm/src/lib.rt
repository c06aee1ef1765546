// Mode ranks: evc_get_mpm_b of ipred.rs. The Rust's static table is lent here, and the answer is a part of it.
#![tactic(auto)]

ghost use Rattle.std.specs.Prelude.{◌≡◌, ◌≤◌, true};
ghost use Rattle.laws.specs.Call.{Gives};
ghost use Rattle.def.specs.Answers.{answer_number};
ghost use Rattle.mpm.specs.Ranks.{UnitOf, mode_at, left_mode, up_mode, mode_ok, modes_ok, mode_index, row_start, lengths_ok, check, number_outcome, part_outcome};

use def::{Refusal, Scu};

// The mode of the unit at column u, row v where it is intra and done, and else 255, none.
// kept: a byte, as lomsakeun_get_mpm is lent the map in bytes, and one of 5 to 254 is to be refused (`modes_ok`).
fn mode_at(w: usize, h: usize, words: &[u32], modes: &[u8], u: usize, v: usize) -> u8
    requires { UnitOf w h words.now modes.now u v }
    ensures { result ≡ mode_at w words.now modes.now u v }
{
    let at = v * (w / 4) + u;
    let word = words[at];
    if def::get_if(word) & def::get_cod(word) {
        return modes[at];
    }
    255
}

// The mode of the unit to the left.
fn left_mode(w: usize, h: usize, words: &[u32], modes: &[u8], x: Scu, y: Scu) -> u8
    requires { UnitOf w h words.now modes.now x.0 y.0 }
    ensures { result ≡ left_mode w words.now modes.now x.0 y.0 }
{
    if x.0 == 0 {
        return 255;
    }
    mode_at(w, h, words, modes, x.0 - 1, y.0)
}

// The mode of the unit above.
fn up_mode(w: usize, h: usize, words: &[u32], modes: &[u8], x: Scu, y: Scu) -> u8
    requires { UnitOf w h words.now modes.now x.0 y.0 }
    ensures { result ≡ up_mode w words.now modes.now x.0 y.0 }
{
    if y.0 == 0 {
        return 255;
    }
    mode_at(w, h, words, modes, x.0, y.0 - 1)
}

fn mode_ok(mode: u8) -> bool
    ensures { result ≡ mode_ok mode }
{
    (mode <= 4) | (mode == 255)
}

// mode + 1, and 0 of none.
fn mode_index(mode: u8) -> usize
    requires { mode_ok mode ≡ true }
    ensures { (result ≡ mode_index mode) × (result ≤ 5) }
{
    if mode == 255 {
        return 0;
    }
    mode as usize + 1
}

fn lengths_ok(w: usize, h: usize, words: usize, modes: usize, table: usize) -> bool
    requires { (w ≤ 4096) × (h ≤ 4096) }
    ensures { result ≡ lengths_ok w h words modes table }
{
    let units = (w / 4) * (h / 4);
    (words == units) & (modes == units) & (table == 180)
}

fn modes_ok(w: usize, h: usize, words: &[u32], modes: &[u8], x: Scu, y: Scu) -> bool
    requires { UnitOf w h words.now modes.now x.0 y.0 }
    ensures { result ≡ modes_ok w words.now modes.now x.0 y.0 }
{
    mode_ok(left_mode(w, h, words, modes, x, y)) & mode_ok(up_mode(w, h, words, modes, x, y))
}

fn checked(
    w: usize,
    h: usize,
    words: &[u32],
    modes: &[u8],
    table: &[u8],
    x: Scu,
    y: Scu,
) -> Result<(), Refusal>
    ensures { result ≡ check (record { w = w; h = h; words = words.now; modes = modes.now; table = table.now; x = x.0; y = y.0 }) }
{
    if !def::size_ok(w, h) {
        return Err(Refusal::Size);
    }
    if !lengths_ok(w, h, words.len(), modes.len(), table.len()) {
        return Err(Refusal::Length);
    }
    if !def::unit_ok(w, h, x, y) {
        return Err(Refusal::Block);
    }
    if !modes_ok(w, h, words, modes, x, y) {
        return Err(Refusal::Mode);
    }
    Ok(())
}

// Where the five ranks start, past the checks.
fn row_start(w: usize, h: usize, words: &[u32], modes: &[u8], x: Scu, y: Scu) -> usize
    requires { UnitOf w h words.now modes.now x.0 y.0 × (modes_ok w words.now modes.now x.0 y.0 ≡ true) }
    ensures { (result ≡ row_start w words.now modes.now x.0 y.0) × (result ≤ 175) }
{
    let l = mode_index(left_mode(w, h, words, modes, x, y));
    let u = mode_index(up_mode(w, h, words, modes, x, y));
    5 * (6 * l + u)
}

// The five ranks, a part of the lent table itself; the empty part where refused.
pub fn get_mpm<'a>(
    w: usize,
    h: usize,
    words: &[u32],
    modes: &[u8],
    table: &'a [u8],
    x: Scu,
    y: Scu,
) -> &'a [u8]
    ensures { Gives part_outcome
        (record { input = record { w = w; h = h; words = words.now; modes = modes.now; table = table.now; x = x.0; y = y.0 }; memory = table.entry.ref_ptr.0; start = table.entry.ref_ptr.1 })
        (record { memory = result.ref_ptr.0; start = result.ref_ptr.1; bytes = result.now }) }
{
    let Ok(()) = checked(w, h, words, modes, table, x, y) else {
        return &table[..0];
    };
    let at = row_start(w, h, words, modes, x, y);
    &table[at..at + 5]
}

// The number of that answer: 0 where there are five ranks.
pub fn get_mpm_number(
    w: usize,
    h: usize,
    words: &[u32],
    modes: &[u8],
    table: &[u8],
    x: Scu,
    y: Scu,
) -> Result<(), Refusal>
    ensures { Gives number_outcome
        (record { w = w; h = h; words = words.now; modes = modes.now; table = table.now; x = x.0; y = y.0 })
        (record { number = answer_number result }) }
{
    checked(w, h, words, modes, table, x, y)
}
