// The five intra modes: a block's prediction from the run of its neighbours, left downwards, the corner, up rightwards.
// The Rust beside it: ipred.rs, evc_ipred_b and the five ipred_*.
#![tactic(auto)]

ghost use Rattle.std.specs.Prelude.{◌≡◌, true, ℕ, ◌+◌, ◌-◌, ◌*◌, ◌/◌, ◌≤◌, ◌<◌, length, get_or};
ghost use Rattle.laws.specs.Call.{Gives};
ghost use Rattle.laws.specs.Plane.{with_row};
ghost use Rattle.def.specs.Answers.{answer_number};
ghost use Rattle.def.specs.Blocks.{component_side_ok};
ghost use Rattle.samples.specs.Samples.{samples_ok};
ghost use Rattle.ipred.specs.Modes.{sum_below, dc, horizontal, vertical, up_left, up_right, block_of};
ghost use Rattle.ipred.specs.Predict.{Lent, lengths_ok, chosen, outcome};

use def::Refusal;

// ---- rows: n samples of the block from place `at`

// Each is v.
// kept: index by index, as `fill` misses the bar of speed: 2 times the instructions at a block of 16 that is predicted from the left.
fn fill_row(block: &mut [u16], at: usize, n: usize, v: u16)
    requires { at + n ≤ length block.old }
    ensures { block.new ≡ with_row 0 at n (λ (j : ℕ). v) block.old }
{
    for j in 0..n {
        block[at + j] = v;
    }
}

// n samples of `to` from place `at` become those of `given` from place `from`.
// kept: in each crate that copies rows, and index by index: recon's `copy_row` says why.
fn copy_row(to: &mut [u16], at: usize, given: &[u16], from: usize, n: usize)
    requires { (at + n ≤ length to.old) × (from + n ≤ length given.now) }
    ensures { to.new ≡ with_row 0 at n (λ (j : ℕ). get_or given.now (from + j) 0) to.old }
{
    for j in 0..n {
        to[at + j] = given[from + j];
    }
}

// They are the run's before place n, backwards.
fn reverse_row(block: &mut [u16], at: usize, run: &[u16], n: usize)
    requires { (at + n ≤ length block.old) × (n < length run.now) }
    ensures { block.new ≡ with_row 0 at n (λ (j : ℕ). get_or run.now (n - j - 1) 0) block.old }
{
    for j in 0..n {
        block[at + j] = run[n - j - 1];
    }
}

// They are the means, rounded down, of the run's from place a and from place b. The sum of two samples fits 16 bits.
fn mean_row(block: &mut [u16], at: usize, run: &[u16], a: usize, b: usize, n: usize)
    requires { (at + n ≤ length block.old) × (a + n ≤ length run.now) × (b + n ≤ length run.now) × (samples_ok run.now ≡ true) }
    ensures { block.new ≡ with_row 0 at n (λ (j : ℕ). (get_or run.now (a + j) 0 + get_or run.now (b + j) 0) / 2) block.old }
{
    for j in 0..n {
        block[at + j] = (run[a + j] + run[b + j]) / 2;
    }
}

// The sum of the n samples of the run from place `from`.
fn sum_of(run: &[u16], from: usize, n: usize) -> u32
    requires { (from + n ≤ length run.now) × (n ≤ 64) }
    ensures { (result ≡ sum_below (λ (j : ℕ). get_or run.now (from + j) 0) n) × (result ≤ 65535 * n) }
{
    let mut sum: u32 = 0;
    for j in 0..n {
        sum += run[from + j] as u32;
    }
    sum
}

// ---- the modes

fn ipred_dc_b(side: usize, run: &[u16], block: &mut [u16])
    requires { (Lent side run.now block.old) × (component_side_ok side ≡ true) }
    ensures { block.new ≡ block_of side (dc side run.now) }
{
    let n = side as u32;
    let sum = sum_of(run, 0, side) + sum_of(run, 2 * side + 1, side);
    fill_row(block, 0, side * side, ((sum + n) / (2 * n)) as u16);
}

fn ipred_hor_b(side: usize, run: &[u16], block: &mut [u16])
    requires { Lent side run.now block.old }
    ensures { block.new ≡ block_of side (horizontal side run.now) }
{
    for i in 0..side {
        fill_row(block, i * side, side, run[i]);
    }
}

fn ipred_vert(side: usize, run: &[u16], block: &mut [u16])
    requires { Lent side run.now block.old }
    ensures { block.new ≡ block_of side (vertical side run.now) }
{
    let up = 2 * side + 1;
    for i in 0..side {
        copy_row(block, i * side, run, up, side);
    }
}

// Row i: i samples up the left arm; then the corner and what follows it, along the upper one.
fn ipred_ul(side: usize, run: &[u16], block: &mut [u16])
    requires { Lent side run.now block.old }
    ensures { block.new ≡ block_of side (up_left side run.now) }
{
    let corner = 2 * side;
    for i in 0..side {
        let at = i * side;
        reverse_row(block, at, run, i);
        copy_row(block, at + i, run, corner, side - i);
    }
}

fn ipred_ur(side: usize, run: &[u16], block: &mut [u16])
    requires { (Lent side run.now block.old) × (samples_ok run.now ≡ true) }
    ensures { block.new ≡ block_of side (up_right side run.now) }
{
    let up = 2 * side + 1;
    for i in 0..side {
        mean_row(block, i * side, run, up + i + 1, i + 1, side);
    }
}

// ---- the call

// The prediction is chosen by the mode's number. 9 comes before 7, so samples are tested for a mode that there is.
// A side of 4 is a literal at each mode, so that the compiler lays its loops out flat.
// kept: a byte, as lomsakeun_ipred_b is lent it, and one of 5 to 255 is to be refused.
fn predict(mode: u8, side: usize, run: &[u16], block: &mut [u16]) -> Result<(), Refusal>
    requires { (Lent side run.now block.old) × (component_side_ok side ≡ true) }
    ensures { Gives chosen
        (record { mode = mode; side = side; run = run.now; block = block.old })
        (record { number = answer_number result; block = block.new }) }
{
    if (mode <= 4) & !samples::samples_ok(run) {
        return Err(Refusal::Sample);
    }
    match mode {
        0 => if side == 4 {
            ipred_dc_b(4, run, block)
        } else {
            ipred_dc_b(side, run, block)
        },
        1 => if side == 4 {
            ipred_hor_b(4, run, block)
        } else {
            ipred_hor_b(side, run, block)
        },
        2 => if side == 4 {
            ipred_vert(4, run, block)
        } else {
            ipred_vert(side, run, block)
        },
        3 => if side == 4 {
            ipred_ul(4, run, block)
        } else {
            ipred_ul(side, run, block)
        },
        4 => if side == 4 {
            ipred_ur(4, run, block)
        } else {
            ipred_ur(side, run, block)
        },
        5..=255 => return Err(Refusal::Mode),
    }
    Ok(())
}

// Whether the run and the block are as long as the side asks.
fn lengths_ok(side: usize, run: usize, block: usize) -> bool
    requires { side ≤ 64 }
    ensures { result ≡ lengths_ok side run block }
{
    (run == 4 * side + 1) & (block == side * side)
}

// The block of `side` that mode `mode` predicts from its run.
pub fn ipred_b(mode: u8, side: usize, run: &[u16], block: &mut [u16]) -> Result<(), Refusal>
    ensures { Gives outcome
        (record { mode = mode; side = side; run = run.now; block = block.old })
        (record { number = answer_number result; block = block.new }) }
{
    if !def::component_side_ok(side) {
        return Err(Refusal::Block);
    }
    if !lengths_ok(side, run.len(), block.len()) {
        return Err(Refusal::Length);
    }
    predict(mode, side, run, block)
}
