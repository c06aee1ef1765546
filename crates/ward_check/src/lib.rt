// The ward screen before a row is put: its two runs, a crop window, how large both are in a plane, and what a row's call refuses, in which order.
// There is no Rust beside it. It stands above the face and goes by the latter's statements.
#![tactic(auto)]

ghost use Rattle.std.specs.Prelude.{◌≡◌, ◌≤◌, ◌<◌, Ok};
ghost use Rattle.ward_check.specs.Sizes.{across, planes_of, in_plane, plane_length};
ghost use Rattle.ward_check.specs.Checks.{lengths_ok, window_ok, turn_ok, asked};

use decoder::{Format, Refusal};

// The two runs over a window.
#[derive(Clone, Copy)]
pub enum Run {
    Full,
    Preview,
}

// A crop window by its edges, in luma samples: left and top are its first column and row, right and bottom those after its last.
#[derive(Clone, Copy)]
pub struct Window {
    pub left: usize,
    pub top: usize,
    pub right: usize,
    pub bottom: usize,
}

// ---- sizes

// Samples along a side, in what a run shows.
pub fn across_run(run: Run, n: usize) -> usize
    ensures { result ≡ across run n }
{
    match run {
        Run::Full => n,
        Run::Preview => n / 2,
    }
}

// How many planes a picture has.
fn planes_of(format: Format) -> usize
    ensures { result ≡ planes_of format }
{
    match format {
        Format::Grey => 1,
        Format::Colour => 3,
    }
}

// A place or a length counted in luma samples, in those of a plane.
pub fn in_plane(k: usize, n: usize) -> usize
    ensures { result ≡ in_plane k n }
{
    if k == 0 {
        return n;
    }
    n / 2
}

// Samples of a plane.
fn plane_length(format: Format, k: usize, w: usize, h: usize) -> usize
    requires { (w ≤ 4096) × (h ≤ 4096) }
    ensures { result ≡ plane_length format k w h }
{
    if k < planes_of(format) {
        return in_plane(k, w) * in_plane(k, h);
    }
    0
}

// ---- the checks

fn lengths_ok(format: Format, w: usize, h: usize, y: usize, u: usize, v: usize, out: usize) -> bool
    requires { (w ≤ 4096) × (h ≤ 4096) }
    ensures { result ≡ lengths_ok format w h y u v out }
{
    let luma = plane_length(format, 0, w, h);
    let first = plane_length(format, 1, w, h);
    let second = plane_length(format, 2, w, h);
    (y == luma) & (u == first) & (v == second) & (out == w)
}

// Whether a window's edges stand on multiples of 4, and it has some samples, all of them inside.
fn window_ok(c: Window, w: usize, h: usize) -> bool
    ensures { result ≡ window_ok c w h }
{
    (c.left % 4 == 0)
        & (c.top % 4 == 0)
        & (c.right % 4 == 0)
        & (c.bottom % 4 == 0)
        & (c.left < c.right)
        & (c.right <= w)
        & (c.top < c.bottom)
        & (c.bottom <= h)
}

// Whether row `row` of a plane is the run's next, row `nth` of plane k, and there is such a row.
fn turn_ok(
    run: Run,
    k: usize,
    nth: usize,
    plane: usize,
    row: usize,
    format: Format,
    c: Window,
) -> bool
    requires { c.top < c.bottom }
    ensures { result ≡ turn_ok run k nth plane row format c }
{
    let planes = planes_of(format);
    let rows = across_run(run, in_plane(k, c.bottom - c.top));
    (plane == k) & (row == nth) & (k < planes) & (nth < rows)
}

// What a row's call refuses, but for its samples: row `nth` of plane k comes next in its run. Of the planes and of the row's buffer it takes the lengths.
pub fn checked_row(
    run: Run,
    k: usize,
    nth: usize,
    plane: usize,
    row: usize,
    format: Format,
    w: usize,
    h: usize,
    y: usize,
    u: usize,
    v: usize,
    c: Window,
    out: usize,
) -> Result<(), Refusal>
    ensures { result ≡ asked run k nth plane row format w h y u v c out (Ok tt) }
{
    if !decoder::size_ok(w, h) {
        return Err(Refusal::Size);
    }
    if !lengths_ok(format, w, h, y, u, v, out) {
        return Err(Refusal::Length);
    }
    if !window_ok(c, w, h) {
        return Err(Refusal::Window);
    }
    if !turn_ok(run, k, nth, plane, row, format, c) {
        return Err(Refusal::Turn);
    }
    Ok(())
}
