// Residual addition: the prediction, or where a block is coded clip(0, 1023, prediction + residual).
// The Rust beside it: recon.rs, evc_recon and evc_recon_plane_region.
#![tactic(auto)]

ghost use Rattle.std.specs.Prelude.{◌≡◌, true, ℕ, ◌+◌, ◌*◌, ◌/◌, ◌≤◌, eqb, pos, neg_ℤ, ◌+ℤ◌, length, get_or};
ghost use Rattle.laws.specs.Call.{Gives};
ghost use Rattle.laws.specs.Clip.{clip_z, sample_z};
ghost use Rattle.laws.specs.Plane.{with_row, with_block};
ghost use Rattle.def.specs.Answers.{answer_number};
ghost use Rattle.def.specs.Components.{scale_of, plane_length};
ghost use Rattle.samples.specs.Samples.{samples_ok};
ghost use Rattle.recon.specs.Plane as plane;
ghost use Rattle.recon.specs.Plane.{Fitting, block_lengths_ok, plane_check};
ghost use Rattle.recon.specs.Recon.{recon_at, block_at, lengths_ok, block_check, outcome};

use def::{Component, Pel, Refusal};

// A residual held within -1023..1023: of a sample it makes the same, and their sum fits 16 bits, so that more are added at a time.
fn held(r: i16) -> i16
    ensures { result ≡ clip_z (neg_ℤ (pos 1023)) (pos 1023) r }
{
    if r < -1023 {
        -1023
    } else if 1023 < r {
        1023
    } else {
        r
    }
}

// clip(0, 1023, p + r). The compiler makes each two comparisons a minimum and a maximum.
fn reconstructed(p: u16, r: i16) -> u16
    requires { p ≤ 1023 }
    ensures { result ≡ sample_z (pos p +ℤ r) }
{
    let t = p as i16 + held(r);
    if t < 0 {
        0
    } else if 1023 < t {
        1023
    } else {
        t as u16
    }
}

// ---- rows: n samples of `rec` from place `at`

// n samples of `to` from place `at` become those of `given` from place `from`.
// kept: in each crate that copies rows, as a public function has no `requires`, and a total one misses the bar of speed (docs/DECISIONS.md); and index by
// index, as `copy_from_slice` of each short row misses it too: 11 in 100 instructions more where a block of 4 that is not coded is laid into a plane.
fn copy_row(to: &mut [u16], at: usize, given: &[u16], from: usize, n: usize)
    requires { (at + n ≤ length to.old) × (from + n ≤ length given.now) }
    ensures { to.new ≡ with_row 0 at n (λ (j : ℕ). get_or given.now (from + j) 0) to.old }
{
    for j in 0..n {
        to[at + j] = given[from + j];
    }
}

// They are the prediction's with the residual, both from place `from`.
fn add_row(rec: &mut [u16], at: usize, pred: &[u16], coef: &[i16], from: usize, n: usize)
    requires { (at + n ≤ length rec.old) × (from + n ≤ length pred.now) × (from + n ≤ length coef.now) × (samples_ok pred.now ≡ true) }
    ensures { rec.new ≡ with_row 0 at n (λ (j : ℕ). sample_z (pos (get_or pred.now (from + j) 0) +ℤ get_or coef.now (from + j) (pos 0))) rec.old }
{
    for j in 0..n {
        rec[at + j] = reconstructed(pred[from + j], coef[from + j]);
    }
}

// Whether the block is coded is asked once a row, and no more.
fn recon_row(
    coded: bool,
    rec: &mut [u16],
    at: usize,
    pred: &[u16],
    coef: &[i16],
    from: usize,
    n: usize,
)
    requires { (at + n ≤ length rec.old) × (from + n ≤ length pred.now) × (from + n ≤ length coef.now) × (samples_ok pred.now ≡ true) }
    ensures { rec.new ≡ with_row 0 at n (λ (j : ℕ). recon_at coded pred.now coef.now (from + j)) rec.old }
{
    if coded {
        add_row(rec, at, pred, coef, from, n)
    } else {
        copy_row(rec, at, pred, from, n)
    }
}

// ---- into a block

// Whether the prediction, the residual and the block are as long as the side asks.
fn lengths_ok(side: usize, pred: usize, coef: usize, rec: usize) -> bool
    requires { side ≤ 64 }
    ensures { result ≡ lengths_ok side pred coef rec }
{
    let n = side * side;
    (pred == n) & (coef == n) & (rec == n)
}

fn checked(side: usize, pred: &[u16], coef: usize, rec: usize) -> Result<(), Refusal>
    ensures { result ≡ block_check side pred.now coef rec }
{
    if !def::component_side_ok(side) {
        return Err(Refusal::Block);
    }
    if !lengths_ok(side, pred.len(), coef, rec) {
        return Err(Refusal::Length);
    }
    if !samples::samples_ok(pred) {
        return Err(Refusal::Sample);
    }
    Ok(())
}

// A block lies flat in its slice, so all of it is one row.
pub fn recon(
    coded: bool,
    side: usize,
    pred: &[u16],
    coef: &[i16],
    rec: &mut [u16],
) -> Result<(), Refusal>
    ensures { Gives outcome
        (record { coded = coded; side = side; pred = pred.now; coef = coef.now; rec = rec.old })
        (record { number = answer_number result; rec = rec.new }) }
{
    checked(side, pred, coef.len(), rec.len())?;
    recon_row(coded, rec, 0, pred, coef, 0, side * side);
    Ok(())
}

// ---- into a plane

// The block of n by n samples at column x, row y of the plane of rows of w, row by row.
fn recon_rows(
    coded: bool,
    w: usize,
    x: usize,
    y: usize,
    n: usize,
    pred: &[u16],
    coef: &[i16],
    rec: &mut [u16],
)
    requires { Fitting w x y n pred.now coef.now rec.old }
    ensures { rec.new ≡ with_block 0 w x y n n (block_at coded pred.now coef.now n) rec.old }
{
    for r in 0..n {
        recon_row(coded, rec, (y + r) * w + x, pred, coef, r * n, n);
    }
}

// The same for a block of at most 4 by 4: summed flat into an array of its own, which no lent slice can overlap, and so all at once; then its rows are copied.
fn recon_small(
    coded: bool,
    w: usize,
    x: usize,
    y: usize,
    n: usize,
    pred: &[u16],
    coef: &[i16],
    rec: &mut [u16],
)
    requires { (Fitting w x y n pred.now coef.now rec.old) × (n ≤ 4) }
    ensures { rec.new ≡ with_block 0 w x y n n (block_at coded pred.now coef.now n) rec.old }
{
    let mut own = [0u16; 16];
    recon_row(coded, &mut own, 0, pred, coef, 0, n * n);
    for r in 0..n {
        copy_row(rec, (y + r) * w + x, &own, r * n, n);
    }
}

// The same for any block. A side that is a literal lets the compiler lay the loops of the small ones out flat.
fn recon_block(
    coded: bool,
    w: usize,
    x: usize,
    y: usize,
    n: usize,
    pred: &[u16],
    coef: &[i16],
    rec: &mut [u16],
)
    requires { Fitting w x y n pred.now coef.now rec.old }
    ensures { rec.new ≡ with_block 0 w x y n n (block_at coded pred.now coef.now n) rec.old }
{
    if n == 4 {
        recon_small(coded, w, x, y, 4, pred, coef, rec)
    } else if n == 2 {
        recon_small(coded, w, x, y, 2, pred, coef, rec)
    } else {
        recon_rows(coded, w, x, y, n, pred, coef, rec)
    }
}

// Whether a plane is as long as the picture asks.
fn plane_length_ok(component: Component, w: usize, h: usize, rec: usize) -> bool
    requires { (w ≤ 4096) × (h ≤ 4096) }
    ensures { result ≡ eqb rec (plane_length component w h) }
{
    rec == def::in_component(component, w) * def::in_component(component, h)
}

// Whether the prediction and the residual are as long as the side in the component asks.
fn block_lengths_ok(component: Component, side: usize, pred: usize, coef: usize) -> bool
    requires { side ≤ 64 }
    ensures { result ≡ block_lengths_ok (side / scale_of component) pred coef }
{
    let n = def::in_component(component, side);
    let long = n * n;
    (pred == long) & (coef == long)
}

fn checked_plane(
    component: Component,
    w: usize,
    h: usize,
    x: Pel,
    y: Pel,
    side: usize,
    pred: &[u16],
    coef: usize,
    rec: usize,
) -> Result<(), Refusal>
    ensures { result ≡ plane_check component w h x.0 y.0 side pred.now coef rec }
{
    if !def::size_ok(w, h) {
        return Err(Refusal::Size);
    }
    if !plane_length_ok(component, w, h, rec) {
        return Err(Refusal::Length);
    }
    if !def::block_ok(w, h, x, y, side) {
        return Err(Refusal::Block);
    }
    if !block_lengths_ok(component, side, pred.len(), coef) {
        return Err(Refusal::Length);
    }
    if !samples::samples_ok(pred) {
        return Err(Refusal::Sample);
    }
    Ok(())
}

// Into a component's plane of a picture of w by h, the block at luma place (x, y) of luma side `side`.
pub fn recon_plane(
    component: Component,
    w: usize,
    h: usize,
    x: Pel,
    y: Pel,
    side: usize,
    coded: bool,
    pred: &[u16],
    coef: &[i16],
    rec: &mut [u16],
) -> Result<(), Refusal>
    ensures { Gives plane.outcome
        (record { component = component; w = w; h = h; x = x.0; y = y.0; side = side; coded = coded; pred = pred.now; coef = coef.now; rec = rec.old })
        (record { number = answer_number result; rec = rec.new }) }
{
    checked_plane(component, w, h, x, y, side, pred, coef.len(), rec.len())?;
    let column = def::in_component(component, x.0);
    let row = def::in_component(component, y.0);
    let wide = def::in_component(component, w);
    let n = def::in_component(component, side);
    recon_block(coded, wide, column, row, n, pred, coef, rec);
    Ok(())
}
