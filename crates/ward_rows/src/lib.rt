// A row of what a run shows, from the samples of a plane: one row of them, or two for a preview. A row that does not lie in the plane or in the buffer is not put.
// There is no Rust beside it. It stands above the face and goes by the latter's statements.
#![tactic(auto)]

ghost use Rattle.std.specs.Prelude.{◌≡◌, ℕ, ◌+◌, ◌*◌, ◌/◌, ◌<◌, ◌≤◌, ◌&&◌, length, slice_index};
ghost use Rattle.laws.specs.Index.{pick, tabulate};
ghost use Rattle.laws.specs.Plane.{with_row};
ghost use Rattle.ward_rows.specs.Samples.{screened, quarter, run_ok, Small, quarter_at, column_at, pair_of};
ghost use Rattle.ward_rows.specs.Rows.{full_at, half_at, last_row, lies, put_ok, put_row};

use ward_check::Run;

// ---- a sample

// A 10-bit sample on the screen: (v + 2) / 4, held at 255. In 16 bits, so that a compiler takes eight at a time. The sum does not wrap. Where the compiler is
// told so, it compares v and chooses by a mask; where it is not, it takes the minimum of the sum and 1023, which is two instructions for eight samples.
fn screen(v: u16) -> u16
    requires { v ≤ 1023 }
    ensures { (result ≡ screened v) × (result ≤ 255) }
{
    let q = std::num::wrapping_add_u16(v, 2) / 4;
    if 255 < q {
        return 255;
    }
    q
}

// What four samples come to in the preview.
fn quarter_of(a: u16, b: u16, c: u16, d: u16) -> u8
    requires { (a ≤ 255) × (b ≤ 255) × (c ≤ 255) × (d ≤ 255) }
    ensures { result ≡ quarter a b c d }
{
    ((a + b + c + d + 2) / 4) as u8
}

// A sample of the preview, from two samples at each of two places.
fn preview_sample(p: &[u16], upper: usize, lower: usize) -> u8
    requires { Small p.now upper 2 × Small p.now lower 2 × (upper + 2 ≤ length p.now) × (lower + 2 ≤ length p.now) }
    ensures { result ≡ quarter_at p.now upper lower }
{
    let a = screen(p[upper]);
    let b = screen(p[upper + 1]);
    let c = screen(p[lower]);
    let d = screen(p[lower + 1]);
    quarter_of(a, b, c, d)
}

// ---- a row

// Whether n samples from a place on are at most 1023.
fn run_ok(p: &[u16], from: usize, n: usize) -> bool
    requires { from + n ≤ length p.now }
    ensures { result ≡ run_ok p.now from n }
{
    let to = from + n;
    decoder::samples_ok(&p[from..to])
}

// n samples from a place on, put first into a row.
fn put_full(p: &[u16], from: usize, n: usize, out: &mut [u8])
    requires { Small p.now from n × (from + n ≤ length p.now) × (n ≤ length out.old) }
    ensures { out.new ≡ with_row 0 0 n (full_at p.now from) out.old }
{
    for i in 0..n {
        out[i] = screen(p[from + i]) as u8;
    }
}

// The samples of two rows on the screen, added column by column: of 32 columns.
fn column_sums(p: &[u16], upper: usize, lower: usize) -> [u16; 32]
    requires { Small p.now upper 32 × Small p.now lower 32 × (upper + 32 ≤ length p.now) × (lower + 32 ≤ length p.now) }
    ensures { result ≡ tabulate 32 (column_at p.now upper lower) }
{
    let mut sums = [0u16; 32];
    for i in 0..32 {
        sums[i] = screen(p[upper + i]) + screen(p[lower + i]);
    }
    sums
}

// 16 samples of the preview, each from the sums of two columns, put into a row from a place on.
fn put_sums(sums: [u16; 32], at: usize, out: &mut [u8])
    requires { ((i : ℕ) → slice_index sums i ≤ 510) × (at + 16 ≤ length out.old) }
    ensures { out.new ≡ with_row 0 at 16 (pair_of sums) out.old }
{
    for i in 0..16 {
        out[at + i] = ((sums[2 * i] + sums[2 * i + 1] + 2) / 4) as u8;
    }
}

// n samples of the preview, from twice as many at each of two places, put into a row from a place on, one by one.
fn put_singly(p: &[u16], upper: usize, lower: usize, n: usize, at: usize, out: &mut [u8])
    requires { Small p.now upper (2 * n) × Small p.now lower (2 * n)
        × (upper + 2 * n ≤ length p.now) × (lower + 2 * n ≤ length p.now) × (at + n ≤ length out.old) }
    ensures { out.new ≡ with_row 0 at n (half_at p.now upper lower) out.old }
{
    for i in 0..n {
        out[at + i] = preview_sample(p, upper + 2 * i, lower + 2 * i);
    }
}

// n samples of the preview, from twice as many at each of two places, put first into a row. Sixteen at a time, as long as there are so many: of the columns,
// which lie side by side, a compiler takes eight at once.
// kept: a `while`, as the last turn's place is where the rest starts.
fn put_preview(p: &[u16], from: usize, below: usize, n: usize, out: &mut [u8])
    requires { Small p.now from (2 * n) × Small p.now below (2 * n)
        × (from + 2 * n ≤ length p.now) × (below + 2 * n ≤ length p.now) × (n ≤ length out.old) }
    ensures { out.new ≡ with_row 0 0 n (half_at p.now from below) out.old }
{
    let mut i = 0;
    while 16 <= n - i {
        put_sums(column_sums(p, from + 2 * i, below + 2 * i), i, out);
        i += 16;
    }
    put_singly(p, from + 2 * i, below + 2 * i, n - i, i, out);
}

// n columns of a row of a plane; or nothing, where a sample is over 1023.
fn full_row(p: &[u16], from: usize, n: usize, out: &mut [u8]) -> bool
    requires { (from + n ≤ length p.now) × (n ≤ length out.old) }
    ensures { (result ≡ run_ok p.now from n)
        × (out.new ≡ pick result (with_row 0 0 n (full_at p.now from) out.old) out.old) }
{
    if !run_ok(p, from, n) {
        return false;
    }
    put_full(p, from, n, out);
    true
}

// The preview of n columns of two rows of a plane; or nothing, where a sample is over 1023.
fn preview_row(p: &[u16], from: usize, below: usize, n: usize, out: &mut [u8]) -> bool
    requires { (from + n ≤ length p.now) × (below + n ≤ length p.now) × (n / 2 ≤ length out.old) }
    ensures { (result ≡ (run_ok p.now from n && run_ok p.now below n))
        × (out.new ≡ pick result (with_row 0 0 (n / 2) (half_at p.now from below) out.old) out.old) }
{
    if !(run_ok(p, from, n) & run_ok(p, below, n)) {
        return false;
    }
    put_preview(p, from, below, n / 2, out);
    true
}

// ---- where it lies

// The last row of a plane that a row is made of.
fn last_row(run: Run, row: usize) -> usize
    requires { row ≤ 4096 }
    ensures { result ≡ last_row run row }
{
    match run {
        Run::Full => row,
        Run::Preview => 2 * row + 1,
    }
}

// Whether a row lies in a plane of `long` samples and has room in `out` bytes. No picture has more than 4096 columns or rows: so no sum wraps.
fn lies(
    run: Run,
    stride: usize,
    x: usize,
    y: usize,
    n: usize,
    row: usize,
    long: usize,
    out: usize,
) -> bool
    ensures { result ≡ lies run stride x y n row long out }
{
    if 4096 < stride {
        return false;
    }
    if 4096 < y {
        return false;
    }
    if 4096 < row {
        return false;
    }
    if stride < x {
        return false;
    }
    if stride - x < n {
        return false;
    }
    let end = (y + last_row(run, row)) * stride + x + n;
    (end <= long) & (ward_check::across_run(run, n) <= out)
}

// Row `row` of the n columns at column x, row y of a plane, as a run shows it, put first into a buffer. Nothing is put where it does not lie in both, or where one of
// the samples that it is made of is over 1023.
pub fn put_row(
    run: Run,
    p: &[u16],
    stride: usize,
    x: usize,
    y: usize,
    n: usize,
    row: usize,
    out: &mut [u8],
) -> bool
    ensures { (result ≡ put_ok run stride x y n row p.now (length out.old))
        × (out.new ≡ put_row run stride x y n row p.now out.old) }
{
    if !lies(run, stride, x, y, n, row, p.len(), out.len()) {
        return false;
    }
    match run {
        Run::Full => full_row(p, (y + row) * stride + x, n, out),
        Run::Preview => {
            let from = (y + 2 * row) * stride + x;
            preview_row(p, from, from + stride, n, out)
        }
    }
}
