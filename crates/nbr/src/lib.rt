// Neighbour gathering: evc_get_nbr_b of ipred.rs. The Rust's three loops are one over an arm, with a start and a stride.
#![tactic(auto)]

ghost use Rattle.std.specs.Prelude.{◌≡◌, true, ℕ, ◌+◌, ◌*◌, ◌≤◌, ◌<◌, length, get_or};
ghost use Rattle.laws.specs.Plane.{with_row};
ghost use Rattle.laws.specs.Call.{Gives};
ghost use Rattle.laws.specs.Scan.{all_below};
ghost use Rattle.def.specs.Answers.{answer_number};
ghost use Rattle.samples.specs.Samples.{sample_ok};
ghost use Rattle.nbr.specs.Gather.{run_length, run_of, samples_ok, lengths_ok, outcome};
ghost use Rattle.nbr.specs.Checks.{form_of, gathered};
ghost use Rattle.nbr.specs.Arms.{present_in, arm_at, Within, no_arm, left_of, corner_of, up_of, Stands, LentTo, around_of, Passing, Near, AllPassing, Reads, BorderOf, border_in};

use def::{Component, Pel, Refusal};

// A side of the run: samples `step` apart in the plane from `from`; the words of their units `next` apart from `word`.
// The first `there` units lie in the picture.
#[derive(Clone, Copy)]
struct Arm {
    from: usize,
    step: usize,
    word: usize,
    next: usize,
    there: usize,
}

// Whether unit i of an arm is present: in the picture and done, and intra when constrained.
fn present(words: &[u32], arm: Arm, i: usize, constrained: bool) -> bool
    requires { i < arm.there → arm.word + i * arm.next < length words.now }
    ensures { result ≡ present_in arm constrained words.now i }
{
    if arm.there <= i {
        return false;
    }
    let at = arm.word + i * arm.next;
    let word = words[at];
    def::get_cod(word) & (!constrained | def::get_if(word))
}

// n samples that are missing, into run from `to`.
fn put_missing(run: &mut [u16], to: usize, n: usize)
    requires { to + n ≤ length run.old }
    ensures { run.new ≡ with_row 0 to n (λ (j : ℕ). 512) run.old }
{
    run[to..to + n].fill(512);
}

// n samples of the plane, `step` apart from `from`, into run from `to`.
fn put_samples(run: &mut [u16], to: usize, plane: &[u16], from: usize, step: usize, n: usize)
    requires { (to + n ≤ length run.old) × ((j : ℕ) → j < n → from + j * step < length plane.now) }
    ensures { run.new ≡ with_row 0 to n (λ (j : ℕ). get_or plane.now (from + j * step) 0) run.old }
{
    for j in 0..n {
        run[to + j] = plane[from + j * step];
    }
}

// The same samples joined by `|`: at most 1023 exactly where each of them is, as 1023 is 2^10 - 1. So they are tested at once.
fn join_samples(plane: &[u16], from: usize, step: usize, n: usize) -> u16
    requires { (j : ℕ) → j < n → from + j * step < length plane.now }
    ensures { sample_ok result ≡ all_below (λ (j : ℕ). sample_ok (get_or plane.now (from + j * step) 0)) n }
{
    let mut all: u16 = 0;
    for j in 0..n {
        all |= plane[from + j * step];
    }
    all
}

// Unit i of an arm into run from `to`: its n samples, or as many missing ones.
fn put_unit(
    plane: &[u16],
    words: &[u32],
    arm: Arm,
    i: usize,
    n: usize,
    constrained: bool,
    run: &mut [u16],
    to: usize,
)
    requires { Within arm n plane.now words.now × (to + n ≤ length run.old) }
    ensures { run.new ≡ with_row 0 to n (λ (j : ℕ). arm_at arm n constrained plane.now words.now (i * n + j)) run.old }
{
    if !present(words, arm, i, constrained) {
        put_missing(run, to, n);
        return;
    }
    let from = arm.from + i * n * arm.step;
    put_samples(run, to, plane, from, arm.step, n);
}

// Its samples joined. Missing ones join nothing.
fn join_unit(plane: &[u16], words: &[u32], arm: Arm, i: usize, n: usize, constrained: bool) -> u16
    requires { Within arm n plane.now words.now }
    ensures { sample_ok result ≡ all_below (λ (j : ℕ). sample_ok (arm_at arm n constrained plane.now words.now (i * n + j))) n }
{
    if !present(words, arm, i, constrained) {
        return 0;
    }
    let from = arm.from + i * n * arm.step;
    join_samples(plane, from, arm.step, n)
}

// An arm of `units` units of n samples into run from `to`.
fn put_units(
    plane: &[u16],
    words: &[u32],
    arm: Arm,
    units: usize,
    n: usize,
    constrained: bool,
    run: &mut [u16],
    to: usize,
)
    requires { Within arm n plane.now words.now × (to + units * n ≤ length run.old) }
    ensures { run.new ≡ with_row 0 to (units * n) (arm_at arm n constrained plane.now words.now) run.old }
{
    for i in 0..units {
        put_unit(plane, words, arm, i, n, constrained, run, to + i * n);
    }
}

// The same. A unit's samples are told apart here, so that the loops over them have a length that is known.
fn put_arm(
    plane: &[u16],
    words: &[u32],
    arm: Arm,
    units: usize,
    n: usize,
    constrained: bool,
    run: &mut [u16],
    to: usize,
)
    requires { Within arm n plane.now words.now × (to + units * n ≤ length run.old) × ((n ≡ 4 → ⊥) → n ≡ 2) }
    ensures { run.new ≡ with_row 0 to (units * n) (arm_at arm n constrained plane.now words.now) run.old }
{
    if n == 4 {
        put_units(plane, words, arm, units, 4, constrained, run, to)
    } else {
        put_units(plane, words, arm, units, 2, constrained, run, to)
    }
}

// Its samples joined.
fn join_units(
    plane: &[u16],
    words: &[u32],
    arm: Arm,
    units: usize,
    n: usize,
    constrained: bool,
) -> u16
    requires { Within arm n plane.now words.now }
    ensures { sample_ok result ≡ all_below (λ (k : ℕ). sample_ok (arm_at arm n constrained plane.now words.now k)) (units * n) }
{
    let mut all: u16 = 0;
    for i in 0..units {
        all |= join_unit(plane, words, arm, i, n, constrained);
    }
    all
}

// The samples of its first `units` units that lie in the picture joined, present or not: few steps, and where these pass so do those of the run.
fn join_near(plane: &[u16], arm: Arm, units: usize, n: usize) -> u16
    requires { (n ≤ 4) × (units ≤ 32) × ((k : ℕ) → k < arm.there * n → arm.from + k * arm.step < length plane.now) }
    ensures { sample_ok result ≡ true → Passing arm units n plane.now }
{
    let there = arm.there;
    if there < units {
        return join_samples(plane, arm.from, arm.step, there * n);
    }
    join_samples(plane, arm.from, arm.step, units * n)
}

// ---- the three arms of a block

// A block of a picture of w by h, by its place and side in luma, in one component.
#[derive(Clone, Copy)]
struct Block {
    component: Component,
    w: usize,
    h: usize,
    x: Pel,
    y: Pel,
    side: usize,
}

// The place of column c in row r, the rows having n.
fn flat(n: usize, c: usize, r: usize) -> usize
    requires { (n ≤ 4096) × (c ≤ 4096) × (r ≤ 4096) }
    ensures { result ≡ r * n + c }
{
    r * n + c
}

// An arm that the picture has nothing of. Its step is that of the row above, which then is a number that the compiler knows.
fn no_arm() -> Arm
    ensures { result ≡ no_arm }
{
    Arm {
        from: 0,
        step: 1,
        word: 0,
        next: 0,
        there: 0,
    }
}

// Down the column left of the block.
fn left_arm(block: Block) -> Arm
    requires { Stands block }
    ensures { result ≡ left_of block }
{
    let w = block.w;
    let u = def::pel2scu(block.x).0;
    let v = def::pel2scu(block.y).0;
    if u == 0 {
        return no_arm();
    }
    let component = block.component;
    let across = def::in_component(component, w);
    let column = def::in_component(component, block.x.0);
    let row = def::in_component(component, block.y.0);
    Arm {
        from: flat(across, column - 1, row),
        step: across,
        word: flat(w / 4, u - 1, v),
        next: w / 4,
        there: block.h / 4 - v,
    }
}

// The corner, an arm of one sample.
fn corner_arm(block: Block) -> Arm
    requires { Stands block }
    ensures { result ≡ corner_of block }
{
    let w = block.w;
    let u = def::pel2scu(block.x).0;
    let v = def::pel2scu(block.y).0;
    if (u == 0) | (v == 0) {
        return no_arm();
    }
    let component = block.component;
    let across = def::in_component(component, w);
    let column = def::in_component(component, block.x.0);
    let row = def::in_component(component, block.y.0);
    Arm {
        from: flat(across, column - 1, row - 1),
        step: 1,
        word: flat(w / 4, u - 1, v - 1),
        next: 1,
        there: 1,
    }
}

// Along the row above the block.
fn up_arm(block: Block) -> Arm
    requires { Stands block }
    ensures { result ≡ up_of block }
{
    let w = block.w;
    let u = def::pel2scu(block.x).0;
    let v = def::pel2scu(block.y).0;
    if v == 0 {
        return no_arm();
    }
    let component = block.component;
    let across = def::in_component(component, w);
    let column = def::in_component(component, block.x.0);
    let row = def::in_component(component, block.y.0);
    Arm {
        from: flat(across, column, row - 1),
        step: 1,
        word: flat(w / 4, u, v - 1),
        next: 1,
        there: w / 4 - u,
    }
}

// ---- the three together

// The arms of a block: `units` units of n samples in the left one and in the upper one, and the corner's one sample.
#[derive(Clone, Copy)]
struct Border {
    left: Arm,
    corner: Arm,
    up: Arm,
    units: usize,
    n: usize,
}

fn border_of(block: Block) -> Border
    requires { Stands block }
    ensures { BorderOf block result }
{
    let component = block.component;
    let left = left_arm(block);
    let corner = corner_arm(block);
    let up = up_arm(block);
    let n = def::in_component(component, 4);
    Border {
        left,
        corner,
        up,
        units: block.side / 2,
        n,
    }
}

// The samples near the block joined, whatever their units: at most 1023 only where each is.
fn join_all(plane: &[u16], border: Border) -> u16
    requires { Near border plane.now }
    ensures { sample_ok result ≡ true → AllPassing border plane.now }
{
    let units = border.units;
    let n = border.n;
    join_near(plane, border.left, units, n)
        | join_near(plane, border.corner, 1, 1)
        | join_near(plane, border.up, units, n)
}

// The same for a block of 4, which has two units an arm. Their number and their samples are literals, so that the compiler lays the loops out flat.
fn join_few(plane: &[u16], border: Border) -> u16
    requires { Near border plane.now × (border.units ≡ 2) }
    ensures { sample_ok result ≡ true → AllPassing border plane.now }
{
    let n = border.n;
    let corner = join_near(plane, border.corner, 1, 1);
    if n == 4 {
        return join_near(plane, border.left, 2, 4) | corner | join_near(plane, border.up, 2, 4);
    }
    join_near(plane, border.left, 2, 2) | corner | join_near(plane, border.up, 2, 2)
}

fn join_border(plane: &[u16], border: Border) -> u16
    requires { Near border plane.now }
    ensures { sample_ok result ≡ true → AllPassing border plane.now }
{
    let units = border.units;
    if units == 2 {
        return join_few(plane, border);
    }
    join_all(plane, border)
}

// The run, straight from the plane: left downwards, the corner, up rightwards.
fn put_all(plane: &[u16], words: &[u32], border: Border, constrained: bool, run: &mut [u16])
    requires { Reads border plane.now words.now × (length run.old ≡ 2 * (border.units * border.n) + 1) }
    ensures { run.new ≡ border_in border constrained plane.now words.now run.old }
{
    let units = border.units;
    let n = border.n;
    let at = units * n;
    let left = border.left;
    let corner = border.corner;
    let up = border.up;
    put_arm(plane, words, left, units, n, constrained, &mut *run, 0);
    put_units(plane, words, corner, 1, 1, constrained, &mut *run, at);
    put_arm(plane, words, up, units, n, constrained, run, at + 1);
}

// The same for a block of 4.
fn put_few(plane: &[u16], words: &[u32], border: Border, constrained: bool, run: &mut [u16])
    requires { Reads border plane.now words.now × (length run.old ≡ 2 * (border.units * border.n) + 1) × (border.units ≡ 2) }
    ensures { run.new ≡ border_in border constrained plane.now words.now run.old }
{
    let n = border.n;
    if n == 4 {
        put_units(plane, words, border.left, 2, 4, constrained, &mut *run, 0);
        put_units(plane, words, border.corner, 1, 1, constrained, &mut *run, 8);
        put_units(plane, words, border.up, 2, 4, constrained, run, 9);
        return;
    }
    put_units(plane, words, border.left, 2, 2, constrained, &mut *run, 0);
    put_units(plane, words, border.corner, 1, 1, constrained, &mut *run, 4);
    put_units(plane, words, border.up, 2, 2, constrained, run, 5);
}

// ---- the call

fn lengths_ok(block: Block, plane: usize, words: usize) -> bool
    requires { (block.w ≤ 4096) × (block.h ≤ 4096) }
    ensures { result ≡ lengths_ok block.component block.w block.h plane words }
{
    let component = block.component;
    let w = def::in_component(component, block.w);
    let h = def::in_component(component, block.h);
    (plane == w * h) & (words == (block.w / 4) * (block.h / 4))
}

// Whether number 7 is not given: tested before anything is written. All samples near the block are joined first, whatever their units;
// where one of those is over 1023 it may be that of a unit that is missing, and the units are asked one by one.
fn samples_pass(
    plane: &[u16],
    words: &[u32],
    block: Block,
    border: Border,
    constrained: bool,
) -> bool
    requires { Stands block × BorderOf block border × Reads border plane.now words.now }
    ensures { result ≡ samples_ok (around_of block plane.now words.now constrained) }
{
    let units = border.units;
    let n = border.n;
    if join_border(plane, border) <= 1023 {
        return true;
    }
    let all = join_units(plane, words, border.left, units, n, constrained)
        | join_units(plane, words, border.corner, 1, 1, constrained)
        | join_units(plane, words, border.up, units, n, constrained);
    all <= 1023
}

// The run of a block's border.
fn put_run(
    plane: &[u16],
    words: &[u32],
    block: Block,
    border: Border,
    constrained: bool,
    run: &mut [u16],
)
    requires { Stands block × BorderOf block border × Reads border plane.now words.now × (length run.old ≡ run_length block.component block.side) }
    ensures { run.new ≡ run_of (around_of block plane.now words.now constrained) }
{
    let units = border.units;
    if units == 2 {
        put_few(plane, words, border, constrained, run)
    } else {
        put_all(plane, words, border, constrained, run)
    }
}

// The run, past the checks of its form.
fn gather(
    plane: &[u16],
    words: &[u32],
    block: Block,
    constrained: bool,
    run: &mut [u16],
) -> Result<(), Refusal>
    requires { Stands block × LentTo block plane.now words.now × (length run.old ≡ run_length block.component block.side) }
    ensures { Gives gathered
        (record { around = around_of block plane.now words.now constrained; run = run.old })
        (record { number = answer_number result; run = run.new }) }
{
    let border = border_of(block);
    if !samples_pass(plane, words, block, border, constrained) {
        return Err(Refusal::Sample);
    }
    put_run(plane, words, block, border, constrained, run);
    Ok(())
}

// The checks of the form, by the lengths of the plane, the words and the run.
fn checked(block: Block, plane: usize, words: usize, run: usize) -> Result<(), Refusal>
    ensures { result ≡ form_of block.component block.w block.h block.x.0 block.y.0 block.side plane words run }
{
    if !def::size_ok(block.w, block.h) {
        return Err(Refusal::Size);
    }
    if !lengths_ok(block, plane, words) {
        return Err(Refusal::Length);
    }
    if !def::block_ok(block.w, block.h, block.x, block.y, block.side) {
        return Err(Refusal::Block);
    }
    let component = block.component;
    if run != 4 * def::in_component(component, block.side) + 1 {
        return Err(Refusal::Length);
    }
    Ok(())
}

// The samples around the block of `side` at (x, y) in luma, those of one component: 4 times its side there and 1.
pub fn get_nbr(
    component: Component,
    w: usize,
    h: usize,
    plane: &[u16],
    words: &[u32],
    x: Pel,
    y: Pel,
    side: usize,
    constrained: bool,
    run: &mut [u16],
) -> Result<(), Refusal>
    ensures { Gives outcome
        (record { around = record { component = component; w = w; h = h; plane = plane.now; words = words.now; x = x.0; y = y.0; side = side; constrained = constrained }; run = run.old })
        (record { number = answer_number result; run = run.new }) }
{
    let block = Block {
        component,
        w,
        h,
        x,
        y,
        side,
    };
    checked(block, plane.len(), words.len(), run.len())?;
    gather(plane, words, block, constrained, run)
}
