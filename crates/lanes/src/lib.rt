// Eight lines filtered side by side, in 16 bits, without a sign and without a branch, so that a compiler takes all eight at a time.
// Each is filtered as `line` filters one. The Rust beside it: df.rs, the lines of a unit's edge in the four deblock_scu_ functions.
#![tactic(auto)]

ghost use Rattle.std.specs.Prelude.{◌≡◌, ◌+◌, ◌-◌, ◌*◌, ◌≤◌, ◌<◌, min, get_or};
ghost use Rattle.line.specs.Line.{line_of};
ghost use Rattle.lanes.specs.Unsigned.{rise_of, ease_of};
ghost use Rattle.lanes.specs.Lanes.{rows, halves, held_line, lanes_of};

use line::Quad;

// c, of |d| and the strength. On samples |d| is at most (1023 + 4 * 1023) / 8.
fn limit(m: u16, st: u16) -> u16
    requires { m ≤ 639 }
    ensures { (result ≡ m - 2 * (m - st)) × (result ≤ 639) }
{
    m.saturating_sub(2 * m.saturating_sub(st))
}

// What raises B: c, where A - 4B + 4C - D is above 0. With the line turned round, what lowers it.
fn rise(a: u16, b: u16, c: u16, d: u16, st: u16) -> u16
    requires { (a ≤ 1023) × (b ≤ 1023) × (c ≤ 1023) × (d ≤ 1023) }
    ensures { (result ≡ rise_of a b c d st) × (result ≤ 639) }
{
    limit((a + 4 * c).saturating_sub(4 * b + d) / 8, st)
}

// What D gains from A, at most h.
fn ease(a: u16, d: u16, h: u16) -> u16
    requires { a ≤ 1023 }
    ensures { (result ≡ ease_of a d h) × (result ≤ a) × (result ≤ 255) }
{
    (a.saturating_sub(d) / 4).min(h)
}

// x, lowered and raised, and clipped to a sample.
fn nudge(x: u16, lower: u16, raise: u16) -> u16
    requires { (x ≤ 1023) × (raise ≤ 639) }
    ensures { result ≡ min ((x - lower) + raise) 1023 }
{
    (x.saturating_sub(lower) + raise).min(1023)
}

// The line filter on samples. One of u and v is 0, and one of e and f: A and D close in on each other, so neither leaves 0..1023.
fn lane(a: u16, b: u16, c: u16, d: u16, st: u16) -> Quad
    requires { (a ≤ 1023) × (b ≤ 1023) × (c ≤ 1023) × (d ≤ 1023) }
    ensures { result ≡ line_of a b c d st }
{
    let u = rise(a, b, c, d, st);
    let v = rise(d, c, b, a, st);
    let h = (u + v) / 2;
    let e = ease(a, d, h);
    let f = ease(d, a, h);
    Quad {
        a: a - e + f,
        b: nudge(b, v, u),
        c: nudge(c, u, v),
        d: d - f + e,
    }
}

// A number as a sample: more than 1023 counts as 1023.
fn held(x: u16) -> u16
    ensures { (result ≡ min x 1023) × (result ≤ 1023) }
{
    x.min(1023)
}

// A line whose samples lie at these places.
fn lane_at(t: &[u16; 32], a: usize, b: usize, c: usize, d: usize, st: u16) -> Quad
    requires { (a < 32) × (b < 32) × (c < 32) × (d < 32) }
    ensures { result ≡ held_line (record { a = get_or t.now a 0; b = get_or t.now b 0; c = get_or t.now c 0; d = get_or t.now d 0 }) st }
{
    lane(held(t[a]), held(t[b]), held(t[c]), held(t[d]), st)
}

// Eight lines, each at its own strength, row by row: the eight As, then the Bs, the Cs and the Ds.
pub fn lanes(t: [u16; 32], st: [u16; 8]) -> [u16; 32]
    ensures { result ≡ lanes_of rows t st }
{
    let mut r = t;
    for k in 0..8 {
        let q = lane_at(&r, k, k + 8, k + 16, k + 24, st[k]);
        r[k] = q.a;
        r[k + 8] = q.b;
        r[k + 16] = q.c;
        r[k + 24] = q.d;
    }
    r
}

// The same half by half: A and B of each line, and then C and D of each. Two samples of a line then stay side by side, so that they are read and
// written at once where the lines of a plane lie below each other.
pub fn lanes_by_halves(t: [u16; 32], st: [u16; 8]) -> [u16; 32]
    ensures { result ≡ lanes_of halves t st }
{
    let mut r = t;
    for k in 0..8 {
        let q = lane_at(&r, 2 * k, 2 * k + 1, 2 * k + 16, 2 * k + 17, st[k]);
        r[2 * k] = q.a;
        r[2 * k + 1] = q.b;
        r[2 * k + 16] = q.c;
        r[2 * k + 17] = q.d;
    }
    r
}
