// How an edge is filtered: the line filter, which of a line's samples are written, and the strength row by motion.
// The Rust beside it: df.rs, the four deblock_scu_ functions and evc_get_tbl_qp_to_st.
#![tactic(auto)]

ghost use Rattle.std.specs.Prelude.{◌≡◌, cond, ◌+◌, ◌-◌, ◌*◌, ◌/◌, ◌≤◌, min};
ghost use Rattle.laws.specs.Index.{pick};
ghost use Rattle.line.specs.Line.{line_of, mask_of};
ghost use Rattle.line.specs.Row.{eq_z, far, counted_as, same_refs, any_far, crosswise, motion_row};

use def::Component;

// ---- the line filter

// A line across an edge: A B | C D.
#[derive(Clone, Copy)]
pub struct Quad {
    pub a: u16,
    pub b: u16,
    pub c: u16,
    pub d: u16,
}

// Which of a line's samples are written.
#[derive(Clone, Copy)]
pub struct Mask {
    pub a: bool,
    pub b: bool,
    pub c: bool,
    pub d: bool,
}

// Luma writes all four, chroma B and C only; and nothing on a kept side: A and B are P's, C and D are Q's.
pub fn mask_of(component: Component, keep_p: bool, keep_q: bool) -> Mask
    ensures { result ≡ mask_of component keep_p keep_q }
{
    match component {
        Component::Luma => Mask {
            a: !keep_p,
            b: !keep_p,
            c: !keep_q,
            d: !keep_q,
        },
        Component::Chroma => Mask {
            a: false,
            b: !keep_p,
            c: !keep_q,
            d: false,
        },
    }
}

// How far x and y lie apart.
fn gap(x: u32, y: u32) -> u32
    requires { (x ≤ 327675) × (y ≤ 327675) }
    ensures { (result ≡ (x - y) + (y - x)) × (result ≤ 327675) }
{
    x.abs_diff(y)
}

// c, of |d| and the strength.
fn limit(m: u32, st: u16) -> u32
    requires { m ≤ 65535 }
    ensures { (result ≡ m - 2 * (m - st)) × (result ≤ 65535) }
{
    m.saturating_sub(2 * m.saturating_sub(st as u32))
}

// |d2|, of |A - D| and c.
fn reach(g: u32, c: u32) -> u32
    requires { c ≤ 65535 }
    ensures { (result ≡ min (g / 4) (c / 2)) × (result ≤ 65535) }
{
    (g / 4).min(c / 2)
}

fn up(x: u16, m: u32) -> u16
    requires { m ≤ 65535 }
    ensures { result ≡ min (x + m) 1023 }
{
    ((x as u32) + m).min(1023) as u16
}

fn down(x: u16, m: u32) -> u16
    ensures { result ≡ min (x - m) 1023 }
{
    (x as u32).saturating_sub(m).min(1023) as u16
}

// x moved by m, down or up, and clipped to a sample.
fn moved(lower: bool, x: u16, m: u32) -> u16
    requires { m ≤ 65535 }
    ensures { result ≡ min (cond lower (x - m) (x + m)) 1023 }
{
    if lower { down(x, m) } else { up(x, m) }
}

// The line filter, at any samples and any strength. d and d2 are kept as a sign and a magnitude: division toward zero is then
// that of the magnitudes.
pub fn line(a: u16, b: u16, c: u16, d: u16, st: u16) -> Quad
    ensures { result ≡ line_of a b c d st }
{
    let p = (a as u32) + 4 * (c as u32);
    let n = 4 * (b as u32) + (d as u32);
    let h = limit(gap(p, n) / 8, st);
    let e = reach(gap(a as u32, d as u32), h);
    let s = p < n;
    let t = a < d;
    Quad {
        a: moved(!t, a, e),
        b: moved(s, b, h),
        c: moved(!s, c, h),
        d: moved(t, d, e),
    }
}

// ---- the strength row by motion

// A unit's motion: the references of list 0 and list 1, and x and y of each.
#[derive(Clone, Copy)]
pub struct Motion {
    pub refi0: i8,
    pub refi1: i8,
    pub x0: i16,
    pub y0: i16,
    pub x1: i16,
    pub y1: i16,
}

// Whether two components differ by 4 or more, in a type that holds every difference.
fn is_far(a: i16, b: i16) -> bool
    ensures { result ≡ far a b }
{
    let d = a as i32 - b as i32;
    (4 <= d) | (d <= -4)
}

// A component as it counts: 0 where its reference is negative.
fn component(refi: i8, m: i16) -> i16
    ensures { result ≡ counted_as refi m }
{
    if refi < 0 { 0 } else { m }
}

fn same_refi(a: i8, b: i8) -> bool
    ensures { result ≡ eq_z a b }
{
    a == b
}

fn same_refs(q: Motion, p: Motion) -> bool
    ensures { result ≡ same_refs q p }
{
    same_refi(q.refi0, p.refi0) & same_refi(q.refi1, p.refi1)
}

// Whether two components are far as they count.
fn counted_far(rq: i8, q: i16, rp: i8, p: i16) -> bool
    ensures { result ≡ far (counted_as rq q) (counted_as rp p) }
{
    is_far(component(rq, q), component(rp, p))
}

// Whether a component of list 0, or of list 1, is far from its like.
fn any_far(q: Motion, p: Motion) -> bool
    ensures { result ≡ any_far q p }
{
    counted_far(q.refi0, q.x0, p.refi0, p.x0)
        | counted_far(q.refi0, q.y0, p.refi0, p.y0)
        | counted_far(q.refi1, q.x1, p.refi1, p.x1)
        | counted_far(q.refi1, q.y1, p.refi1, p.y1)
}

// List 1 in the place of list 0, and list 0 in that of list 1.
fn crossed(p: Motion) -> Motion
    ensures { result ≡ crosswise p }
{
    Motion {
        refi0: p.refi1,
        refi1: p.refi0,
        x0: p.x1,
        y0: p.y1,
        x1: p.x0,
        y1: p.y0,
    }
}

// P as Q is compared with it: as it is where the references are equal in place, and else crossed.
fn facing(straight: bool, p: Motion) -> Motion
    ensures { result ≡ pick straight p (crosswise p) }
{
    if straight { p } else { crossed(p) }
}

// The row of two units neither of which is intra or luma-coded. The references are compared both ways, and the components once: the compiler then takes the
// four of them side by side.
pub fn motion_row(q: Motion, p: Motion) -> usize
    ensures { (result ≡ motion_row q p) × (result ≤ 3) }
{
    let straight = same_refs(q, p);
    let across = same_refs(q, crossed(p));
    let near = !any_far(q, facing(straight, p));
    if (straight | across) & near { 3 } else { 2 }
}
