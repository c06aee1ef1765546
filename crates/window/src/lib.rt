// The lines of a unit's edge, or of two that follow each other along a line: gathered into eight lanes, filtered side by side, and written
// back. Luma and chroma, both directions: line by line, or row by row where the lines lie side by side.
// Every call tests where its lines lie, by one comparison with the plane's length, and writes nothing where they do not.
// The Rust beside it: df.rs, deblock_scu_hor_luma, deblock_scu_hor_chroma, deblock_scu_ver_luma, deblock_scu_ver_chroma.
#![tactic(auto)]

ghost use Rattle.std.specs.Prelude.{◌≡◌, true, false, ◌&&◌, ◌+◌, ◌-◌, ◌*◌, ◌≤◌, ◌<◌, min, leb, length, get_or};
ghost use Rattle.laws.specs.Plane.{with_row};
ghost use Rattle.def.specs.Components.{unit_side};
ghost use Rattle.def.specs.declared.Component.TheVariants.{Luma, Chroma};
ghost use Rattle.line.specs.Line.{mask_of};
ghost use Rattle.lanes.specs.Lanes.{lane_of, halves};
ghost use Rattle.df_rules.specs.Window.{put_if};
ghost use Rattle.df_rules.specs.Lanes.{samples_at, put_line, put_lines};
ghost use Rattle.window.specs.Lines.{Inside, Gathered, with_row_if, lines_of};
ghost use Rattle.window.specs.Window.{last_of, inside, by_rows, by_halves, lies, lies_apart, twice, window_of};

use def::Component;
use line::{Mask, Quad};

// Where the lines of a plane lie: the first sample of the first, the step from sample to sample, and that to the next line. Numbers of 32 bits: no sum of
// them below can wrap.
#[derive(Clone, Copy)]
pub struct Place {
    pub at: u32,
    pub step: u32,
    pub next: u32,
}

fn wide(x: u32) -> usize
    ensures { (result ≡ x) × (result ≤ 4294967295) }
{
    x as usize
}

// Lines of luma in a unit's edge, and of chroma.
fn lines_in(component: Component) -> usize
    ensures { (result ≡ unit_side component) × (1 ≤ result) × (result ≤ 4) }
{
    match component {
        Component::Luma => 4,
        Component::Chroma => 2,
    }
}

// ---- where lines lie

// The last sample of n lines.
fn last(p: Place, n: usize) -> usize
    requires { (1 ≤ n) × (n ≤ 8) }
    ensures { result ≡ last_of p n }
{
    let next = wide(p.next);
    let step = wide(p.step);
    wide(p.at) + (n - 1) * next + 3 * step
}

// n lines lie side by side in a plane of `long` samples, and no two of their four rows meet.
fn by_rows(p: Place, n: usize, long: usize) -> bool
    requires { (1 ≤ n) × (n ≤ 8) }
    ensures { result ≡ by_rows p n long }
{
    (last(p, n) < long) & (p.next == 1) & (n <= wide(p.step))
}

// They lie in it, and the samples of each side by side.
fn by_halves(p: Place, n: usize, long: usize) -> bool
    requires { (1 ≤ n) × (n ≤ 8) }
    ensures { result ≡ by_halves p n long }
{
    (last(p, n) < long) & (p.step == 1)
}

// And no sample is in two of them: a line has four.
fn by_halves_apart(p: Place, n: usize, long: usize) -> bool
    requires { (1 ≤ n) × (n ≤ 8) }
    ensures { result ≡ (by_halves p n long && leb 4 p.next) }
{
    by_halves(p, n, long) & (4 <= p.next)
}

// ---- from a plane to lanes

fn samples_at(s: &[u16], step: usize, at: usize) -> Quad
    requires { at + 3 * step < length s.now }
    ensures { result ≡ samples_at step at s.now }
{
    let b = at + step;
    let c = at + 2 * step;
    let d = at + 3 * step;
    Quad {
        a: s[at],
        b: s[b],
        c: s[c],
        d: s[d],
    }
}

// n lines of the plane s become the lanes from `first` on, half by half.
fn gather(
    t: [u16; 32],
    s: &[u16],
    first: usize,
    n: usize,
    step: usize,
    next: usize,
    at: usize,
) -> [u16; 32]
    requires { (first + n ≤ 8) × Inside step next at n s.now }
    ensures { Gathered halves step next at s.now t first n result }
{
    let mut r = t;
    for k in 0..n {
        let q = samples_at(s, step, at + k * next);
        let i = first + k;
        r[2 * i] = q.a;
        r[2 * i + 1] = q.b;
        r[2 * i + 16] = q.c;
        r[2 * i + 17] = q.d;
    }
    r
}

// ---- and back

fn put_if(s: &mut [u16], written: bool, at: usize, v: u16)
    requires { at < length s.old }
    ensures { s.new ≡ put_if written at v s.old }
{
    if written {
        s[at] = v;
    }
}

// One line, whose samples lie `step` apart from `at` on: those that the mask writes.
fn put_line(s: &mut [u16], mask: Mask, q: Quad, step: usize, at: usize)
    requires { at + 3 * step < length s.old }
    ensures { s.new ≡ put_line mask step at q s.old }
{
    put_if(&mut *s, mask.a, at, q.a);
    put_if(&mut *s, mask.b, at + step, q.b);
    put_if(&mut *s, mask.c, at + 2 * step, q.c);
    put_if(&mut *s, mask.d, at + 3 * step, q.d);
}

fn lane_of(t: &[u16; 32], k: usize) -> Quad
    requires { k < 8 }
    ensures { result ≡ lane_of halves t.now k }
{
    Quad {
        a: t[2 * k],
        b: t[2 * k + 1],
        c: t[2 * k + 16],
        d: t[2 * k + 17],
    }
}

// The lanes from `first` on become n lines of the plane s.
fn scatter(
    s: &mut [u16],
    mask: Mask,
    t: &[u16; 32],
    first: usize,
    n: usize,
    step: usize,
    next: usize,
    at: usize,
)
    requires { (first + n ≤ 8) × Inside step next at n s.old }
    ensures { s.new ≡ put_lines mask (λ k. lane_of halves t.now (first + k)) step next at n s.old }
{
    for k in 0..n {
        put_line(&mut *s, mask, lane_of(t, first + k), step, at + k * next);
    }
}

// ---- both, by rows: n lines that lie side by side

// A row of them: n samples of s, from `from` on, over those of r from `to` on.
fn copy_row(r: &mut [u16], to: usize, s: &[u16], from: usize, n: usize)
    requires { (to + n ≤ length r.old) × (from + n ≤ length s.now) }
    ensures { r.new ≡ with_row 0 to n (λ k. get_or s.now (from + k) 0) r.old }
{
    for k in 0..n {
        r[to + k] = s[from + k];
    }
}

fn copy_row_if(r: &mut [u16], written: bool, to: usize, s: &[u16], from: usize, n: usize)
    requires { (to + n ≤ length r.old) × (from + n ≤ length s.now) }
    ensures { r.new ≡ with_row_if written to n (λ k. get_or s.now (from + k) 0) r.old }
{
    if written {
        copy_row(r, to, s, from, n);
    }
}

// The lines of s from `from` on over those of r from `to` on: the rows that the mask writes. A line's samples lie `step` apart in s, and `apart` in r.
fn copy_rows(
    r: &mut [u16],
    mask: Mask,
    to: usize,
    apart: usize,
    s: &[u16],
    from: usize,
    step: usize,
    n: usize,
)
    requires { (n ≤ apart) × (to + n + 3 * apart ≤ length r.old) × (from + n + 3 * step ≤ length s.now) }
    ensures { r.new ≡ put_lines mask (λ k. samples_at step (from + k) s.now) apart 1 to n r.old }
{
    copy_row_if(&mut *r, mask.a, to, s, from, n);
    copy_row_if(&mut *r, mask.b, to + apart, s, from + step, n);
    copy_row_if(&mut *r, mask.c, to + 2 * apart, s, from + 2 * step, n);
    copy_row_if(&mut *r, mask.d, to + 3 * apart, s, from + 3 * step, n);
}

// ---- a unit's edge in luma

// Four lines of luma that lie side by side. A row has 4 samples, below 8, and in chroma 2 or 4: numbers that stand here for the compiler to see. It copies
// such a row at once.
fn luma_rows(y: &mut [u16], p: Place, st: u16)
    requires { by_rows p 4 (length y.old) ≡ true }
    ensures { y.new ≡ lines_of (mask_of Luma false false) (λ k. st) p.step p.next p.at 4 y.old }
{
    let at = wide(p.at);
    let step = wide(p.step);
    let all = line::mask_of(Component::Luma, false, false);
    let mut t = [0u16; 32];
    copy_rows(&mut t, all, 0, 8, &*y, at, step, 4);
    let r = lanes::lanes(t, [st, st, st, st, 0, 0, 0, 0]);
    copy_rows(y, all, at, step, &r, 0, 8, 4);
}

// Four that lie below each other: their step is 1, a number that stands here for the compiler to see. It then reads and writes two samples of a line at once.
fn luma_halves(y: &mut [u16], p: Place, st: u16)
    requires { by_halves p 4 (length y.old) ≡ true }
    ensures { y.new ≡ lines_of (mask_of Luma false false) (λ k. st) p.step p.next p.at 4 y.old }
{
    let at = wide(p.at);
    let next = wide(p.next);
    let all = line::mask_of(Component::Luma, false, false);
    let t = gather([0; 32], &*y, 0, 4, 1, next, at);
    let r = lanes::lanes_by_halves(t, [st, st, st, st, 0, 0, 0, 0]);
    scatter(y, all, &r, 0, 4, 1, next, at);
}

// A unit's edge in luma, neither unit kept.
pub fn window_luma(y: &mut [u16], p: Place, st: u16)
    ensures { y.new ≡ window_of (lies p 4 (length y.old)) (mask_of Luma false false) (λ k. st) p 4 y.old }
{
    if by_rows(p, 4, y.len()) {
        luma_rows(y, p, st);
        return;
    }
    if by_halves(p, 4, y.len()) {
        luma_halves(y, p, st);
    }
}

// ---- two units' edges in luma, the second right after the first along the same line: eight lines, four at each strength

fn luma_two_rows(y: &mut [u16], p: Place, s0: u16, s1: u16)
    requires { by_rows p 8 (length y.old) ≡ true }
    ensures { y.new ≡ lines_of (mask_of Luma false false) (twice 4 s0 s1) p.step p.next p.at 8 y.old }
{
    let at = wide(p.at);
    let step = wide(p.step);
    let all = line::mask_of(Component::Luma, false, false);
    let mut t = [0u16; 32];
    copy_rows(&mut t, all, 0, 8, &*y, at, step, 8);
    let r = lanes::lanes(t, [s0, s0, s0, s0, s1, s1, s1, s1]);
    copy_rows(y, all, at, step, &r, 0, 8, 8);
}

fn luma_two_halves(y: &mut [u16], p: Place, s0: u16, s1: u16)
    requires { by_halves p 8 (length y.old) ≡ true }
    ensures { y.new ≡ lines_of (mask_of Luma false false) (twice 4 s0 s1) p.step p.next p.at 8 y.old }
{
    let at = wide(p.at);
    let next = wide(p.next);
    let all = line::mask_of(Component::Luma, false, false);
    let t = gather([0; 32], &*y, 0, 8, 1, next, at);
    let r = lanes::lanes_by_halves(t, [s0, s0, s0, s0, s1, s1, s1, s1]);
    scatter(y, all, &r, 0, 8, 1, next, at);
}

// The answer is whether they lie in the plane and share no sample: they are filtered then. Where they shared one, eight lines at once would not be the four of
// each edge in turn.
pub fn window_luma_two(y: &mut [u16], p: Place, s0: u16, s1: u16) -> bool
    ensures { (result ≡ lies_apart p 8 (length y.old)) × (y.new ≡ window_of result (mask_of Luma false false) (twice 4 s0 s1) p 8 y.old) }
{
    if by_rows(p, 8, y.len()) {
        luma_two_rows(y, p, s0, s1);
        return true;
    }
    if by_halves_apart(p, 8, y.len()) {
        luma_two_halves(y, p, s0, s1);
        return true;
    }
    false
}

// ---- a unit's edge in any component, beside a kept unit

// What the mask says of the lines is written. They may lie in any way: so this is done line by line.
pub fn window_kept(s: &mut [u16], component: Component, mask: Mask, p: Place, st: u16)
    ensures { s.new ≡ window_of (inside p (unit_side component) (length s.old)) mask (λ k. st) p (unit_side component) s.old }
{
    let n = lines_in(component);
    if last(p, n) < s.len() {
        let at = wide(p.at);
        let step = wide(p.step);
        let next = wide(p.next);
        let t = gather([0; 32], &*s, 0, n, step, next, at);
        let r = lanes::lanes_by_halves(t, [st, st, st, st, 0, 0, 0, 0]);
        scatter(s, mask, &r, 0, n, step, next, at);
    }
}

// ---- a unit's edge in both chroma planes

fn chroma_rows(u: &mut [u16], v: &mut [u16], p: Place, su: u16, sv: u16)
    requires { by_rows p 2 (min (length u.old) (length v.old)) ≡ true }
    ensures { (u.new ≡ lines_of (mask_of Chroma false false) (λ k. su) p.step p.next p.at 2 u.old)
        × (v.new ≡ lines_of (mask_of Chroma false false) (λ k. sv) p.step p.next p.at 2 v.old) }
{
    let at = wide(p.at);
    let step = wide(p.step);
    let all = line::mask_of(Component::Luma, false, false);
    let inner = line::mask_of(Component::Chroma, false, false);
    let mut t = [0u16; 32];
    copy_rows(&mut t, all, 0, 8, &*u, at, step, 2);
    copy_rows(&mut t, all, 2, 8, &*v, at, step, 2);
    let r = lanes::lanes(t, [su, su, sv, sv, 0, 0, 0, 0]);
    copy_rows(u, inner, at, step, &r, 0, 8, 2);
    copy_rows(v, inner, at, step, &r, 2, 8, 2);
}

fn chroma_halves(u: &mut [u16], v: &mut [u16], p: Place, su: u16, sv: u16)
    requires { by_halves p 2 (min (length u.old) (length v.old)) ≡ true }
    ensures { (u.new ≡ lines_of (mask_of Chroma false false) (λ k. su) p.step p.next p.at 2 u.old)
        × (v.new ≡ lines_of (mask_of Chroma false false) (λ k. sv) p.step p.next p.at 2 v.old) }
{
    let at = wide(p.at);
    let next = wide(p.next);
    let inner = line::mask_of(Component::Chroma, false, false);
    let tu = gather([0; 32], &*u, 0, 2, 1, next, at);
    let t = gather(tu, &*v, 2, 2, 1, next, at);
    let r = lanes::lanes_by_halves(t, [su, su, sv, sv, 0, 0, 0, 0]);
    scatter(u, inner, &r, 0, 2, 1, next, at);
    scatter(v, inner, &r, 2, 2, 1, next, at);
}

// Two lines of each plane. They lie in both planes, or nothing is written.
pub fn window_chroma(u: &mut [u16], v: &mut [u16], p: Place, su: u16, sv: u16)
    ensures { (u.new ≡ window_of (lies p 2 (min (length u.old) (length v.old))) (mask_of Chroma false false) (λ k. su) p 2 u.old)
        × (v.new ≡ window_of (lies p 2 (min (length u.old) (length v.old))) (mask_of Chroma false false) (λ k. sv) p 2 v.old) }
{
    let long = u.len().min(v.len());
    if by_rows(p, 2, long) {
        chroma_rows(u, v, p, su, sv);
        return;
    }
    if by_halves(p, 2, long) {
        chroma_halves(u, v, p, su, sv);
    }
}

// ---- two units' edges in both chroma planes: four lines of each

fn chroma_two_rows(u: &mut [u16], v: &mut [u16], p: Place, u0: u16, u1: u16, v0: u16, v1: u16)
    requires { by_rows p 4 (min (length u.old) (length v.old)) ≡ true }
    ensures { (u.new ≡ lines_of (mask_of Chroma false false) (twice 2 u0 u1) p.step p.next p.at 4 u.old)
        × (v.new ≡ lines_of (mask_of Chroma false false) (twice 2 v0 v1) p.step p.next p.at 4 v.old) }
{
    let at = wide(p.at);
    let step = wide(p.step);
    let all = line::mask_of(Component::Luma, false, false);
    let inner = line::mask_of(Component::Chroma, false, false);
    let mut t = [0u16; 32];
    copy_rows(&mut t, all, 0, 8, &*u, at, step, 4);
    copy_rows(&mut t, all, 4, 8, &*v, at, step, 4);
    let r = lanes::lanes(t, [u0, u0, u1, u1, v0, v0, v1, v1]);
    copy_rows(u, inner, at, step, &r, 0, 8, 4);
    copy_rows(v, inner, at, step, &r, 4, 8, 4);
}

fn chroma_two_halves(u: &mut [u16], v: &mut [u16], p: Place, u0: u16, u1: u16, v0: u16, v1: u16)
    requires { by_halves p 4 (min (length u.old) (length v.old)) ≡ true }
    ensures { (u.new ≡ lines_of (mask_of Chroma false false) (twice 2 u0 u1) p.step p.next p.at 4 u.old)
        × (v.new ≡ lines_of (mask_of Chroma false false) (twice 2 v0 v1) p.step p.next p.at 4 v.old) }
{
    let at = wide(p.at);
    let next = wide(p.next);
    let inner = line::mask_of(Component::Chroma, false, false);
    let tu = gather([0; 32], &*u, 0, 4, 1, next, at);
    let t = gather(tu, &*v, 4, 4, 1, next, at);
    let r = lanes::lanes_by_halves(t, [u0, u0, u1, u1, v0, v0, v1, v1]);
    scatter(u, inner, &r, 0, 4, 1, next, at);
    scatter(v, inner, &r, 4, 4, 1, next, at);
}

// The answer is luma's.
pub fn window_chroma_two(
    u: &mut [u16],
    v: &mut [u16],
    p: Place,
    u0: u16,
    u1: u16,
    v0: u16,
    v1: u16,
) -> bool
    ensures { (result ≡ lies_apart p 4 (min (length u.old) (length v.old)))
        × (u.new ≡ window_of result (mask_of Chroma false false) (twice 2 u0 u1) p 4 u.old)
        × (v.new ≡ window_of result (mask_of Chroma false false) (twice 2 v0 v1) p 4 v.old) }
{
    let long = u.len().min(v.len());
    if by_rows(p, 4, long) {
        chroma_two_rows(u, v, p, u0, u1, v0, v1);
        return true;
    }
    if by_halves_apart(p, 4, long) {
        chroma_two_halves(u, v, p, u0, u1, v0, v1);
        return true;
    }
    false
}
