// One component of a leaf: its prediction, and the residual where it is coded, into the component's plane.
ghost use Rattle.std.specs.Prelude.{◌≡◌, true, false, [], ℕ, ◌+◌, ◌*◌, ◌≤◌, length, get_or, take, drop};
ghost use Rattle.laws.specs.Plane.{with_row, with_block};
ghost use Rattle.def.specs.Components.{plane_length};
ghost use Rattle.ipred.specs.Modes.{predicted, block_of};
ghost use Rattle.nbr.specs.Gather.{side_of, run_of};
ghost use Rattle.driver_rules.specs.Asked.{BlockAsked};
ghost use Rattle.driver_rules.specs.Records.{sample_count, residual_count};
ghost use Rattle.driver_rules.specs.Steps.{lent_at, prediction_of, plane_of};
ghost use Rattle.driver.specs.Blocks.{around_block, Stands, LentTo, Copied, laid_of};

use def::{Component, Pel};

// A leaf in one component of a picture of w by h, by its place and side in luma.
#[derive(Clone, Copy)]
pub(crate) struct Block {
    pub(crate) component: Component,
    pub(crate) w: usize,
    pub(crate) h: usize,
    pub(crate) x: Pel,
    pub(crate) y: Pel,
    pub(crate) side: usize,
    pub(crate) constrained: bool,
}

// ---- the lent prediction

// n samples of `to` from place `at` become those of `given` from place `from`.
// kept: in each crate that copies rows, and index by index: recon's `copy_row` says why.
fn copy_row(to: &mut [u16], at: usize, given: &[u16], from: usize, n: usize)
    requires { (at + n ≤ length to.old) × (from + n ≤ length given.now) }
    ensures { to.new ≡ with_row 0 at n (λ (j : ℕ). get_or given.now (from + j) 0) to.old }
{
    for j in 0..n {
        to[at + j] = given[from + j];
    }
}

// The block of n by n samples at column x, row y of a lent plane of rows of w.
fn copy_block(w: usize, x: usize, y: usize, n: usize, lent: &[u16], pred: &mut [u16])
    requires { Copied w x y n lent.now pred.old }
    ensures { pred.new ≡ block_of n (λ (r c : ℕ). get_or lent.now ((y + r) * w + x + c) 0) }
{
    for r in 0..n {
        copy_row(pred, r * n, lent, (y + r) * w + x, n);
    }
}

fn copy_lent(block: Block, lent: &[u16], pred: &mut [u16])
    requires { Stands block × LentTo block lent.now × (length pred.old ≡ sample_count block.component block.side) }
    ensures { pred.new ≡ block_of (side_of block.component block.side) (lent_at (around_block block lent.now lent.now) lent.now) }
{
    let component = block.component;
    let wide = def::in_component(component, block.w);
    let column = def::in_component(component, block.x.0);
    let row = def::in_component(component, block.y.0);
    let n = def::in_component(component, block.side);
    copy_block(wide, column, row, n, lent, pred);
}

// ---- a mode

// The mode from the run of the block's neighbours, which is gathered at the start of `room`.
// Neither call refuses: the block and the lengths are right, and what is gathered was written by this call. That each unwrap finds no refusal is proved.
fn predict(block: Block, mode: u8, plane: &[u16], words: &[u32], room: &mut [u16], pred: &mut [u16])
    requires { BlockAsked (around_block block plane.now words.now) × (mode ≤ 4) × (length pred.old ≡ sample_count block.component block.side) × (length room.old ≡ 257) }
    ensures { pred.new ≡ block_of (side_of block.component block.side) (predicted mode (side_of block.component block.side) (run_of (around_block block plane.now words.now))) }
{
    let component = block.component;
    let n = def::in_component(component, block.side);
    let long = 4 * n + 1;
    let run = &mut room[0..long];
    nbr::get_nbr(
        component,
        block.w,
        block.h,
        plane,
        words,
        block.x,
        block.y,
        block.side,
        block.constrained,
        &mut *run,
    )
    .unwrap();
    ipred::ipred_b(mode, n, &*run, pred).unwrap();
}

// ---- both

// The block's prediction, by its mode or the lent one's.
fn prediction(
    block: Block,
    kind: u8,
    lent: &[u16],
    plane: &[u16],
    words: &[u32],
    run: &mut [u16],
    pred: &mut [u16],
)
    requires { BlockAsked (around_block block plane.now words.now) × LentTo block lent.now × (length pred.old ≡ sample_count block.component block.side) × (length run.old ≡ 257) }
    ensures { pred.new ≡ prediction_of (around_block block plane.now words.now) kind lent.now }
{
    if kind <= 4 {
        predict(block, kind, plane, words, run, pred);
        return;
    }
    copy_lent(block, lent, pred);
}

// The block of n by n samples, laid at column x, row y of a plane of rows of w.
fn lay_rows(w: usize, x: usize, y: usize, n: usize, pred: &[u16], plane: &mut [u16])
    requires { Copied w x y n plane.old pred.now }
    ensures { plane.new ≡ with_block 0 w x y n n (λ (r c : ℕ). get_or pred.now (r * n + c) 0) plane.old }
{
    for r in 0..n {
        copy_row(plane, (y + r) * w + x, pred, r * n, n);
    }
}

// The block's prediction, into the plane.
fn lay(block: Block, pred: &[u16], plane: &mut [u16])
    requires { Stands block × (length plane.old ≡ plane_length block.component block.w block.h) × (length pred.now ≡ sample_count block.component block.side) }
    ensures { plane.new ≡ laid_of block pred.now plane.old }
{
    let component = block.component;
    let wide = def::in_component(component, block.w);
    let column = def::in_component(component, block.x.0);
    let row = def::in_component(component, block.y.0);
    let n = def::in_component(component, block.side);
    lay_rows(wide, column, row, n, pred, plane);
}

// The prediction lies at the start of `room`. With the residual into the plane: the call does not refuse.
fn draw(
    block: Block,
    kind: u8,
    lent: &[u16],
    coef: &[i16],
    words: &[u32],
    plane: &mut [u16],
    run: &mut [u16],
    room: &mut [u16],
)
    requires block_asked { BlockAsked (around_block block plane.old words.now) × LentTo block lent.now × (length coef.now ≡ sample_count block.component block.side) }
    requires run_len { (length run.old ≡ 257) × (length room.old ≡ 4096) }
    ensures { plane.new ≡ plane_of (around_block block plane.old words.now) kind lent.now true coef.now }
{
    let component = block.component;
    let long = coef.len();
    let pred = &mut room[0..long];
    prediction(block, kind, lent, &*plane, words, run, &mut *pred);
    recon::recon_plane(
        component, block.w, block.h, block.x, block.y, block.side, true, &*pred, coef, plane,
    )
    .unwrap();
}

// Where it is not coded no residual is lent: the prediction, of `long` samples, is laid in the plane as it is.
fn draw_uncoded(
    block: Block,
    kind: u8,
    long: usize,
    lent: &[u16],
    words: &[u32],
    plane: &mut [u16],
    run: &mut [u16],
    room: &mut [u16],
)
    requires block_asked { BlockAsked (around_block block plane.old words.now) × LentTo block lent.now × (long ≡ sample_count block.component block.side) }
    requires run_len { (length run.old ≡ 257) × (length room.old ≡ 4096) }
    ensures { plane.new ≡ plane_of (around_block block plane.old words.now) kind lent.now false [] }
{
    let pred = &mut room[0..long];
    prediction(block, kind, lent, &*plane, words, run, &mut *pred);
    lay(block, &*pred, plane);
}

// A component of a leaf whose residuals start at `at`; the answer is where they end.
pub(crate) fn component(
    block: Block,
    kind: u8,
    coded: bool,
    lent: &[u16],
    residual: &[i16],
    at: usize,
    words: &[u32],
    plane: &mut [u16],
    run: &mut [u16],
    room: &mut [u16],
) -> usize
    requires block_asked { BlockAsked (around_block block plane.old words.now) × LentTo block lent.now × (at + residual_count block.component coded block.side ≤ length residual.now) }
    requires run_len { (length run.old ≡ 257) × (length room.old ≡ 4096) }
    ensures { (plane.new ≡ plane_of (around_block block plane.old words.now) kind lent.now coded (take (sample_count block.component block.side) (drop at residual.now)))
        × (result ≡ at + residual_count block.component coded block.side) }
{
    let part = block.component;
    let n = def::in_component(part, block.side);
    let long = n * n;
    if !coded {
        draw_uncoded(block, kind, long, lent, words, plane, run, room);
        return at;
    }
    let end = at + long;
    draw(
        block,
        kind,
        lent,
        &residual[at..end],
        words,
        plane,
        run,
        room,
    );
    end
}
