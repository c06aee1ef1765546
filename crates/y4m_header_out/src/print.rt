// The text of a header, written into a lent buffer from a place on. Each function answers the place after what it wrote.
ghost use Rattle.std.specs.Prelude.{◌≡◌, ◌+◌, ◌≤◌, ◌<◌, length};
ghost use Rattle.edges.specs.Put.{Put};
ghost use Rattle.y4m_rules.specs.Numbers.{number, ratio};
ghost use Rattle.y4m_rules.specs.Header.{sides_text, header_text};

// kept: a function like sheet's, as a public function has no `requires`.
fn put_bytes(out: &mut [u8], at: usize, text: &[u8]) -> usize
    requires { at + length text.now ≤ length out.old }
    ensures { Put text.now out.old at out.new result }
{
    let end = at + text.len();
    out[at..end].copy_from_slice(text);
    end
}

// A number below 100,000 in decimal: what its tenth has, and the last digit.
fn put_number(out: &mut [u8], at: usize, n: usize) -> usize
    requires { (n < 100000) × (at + 5 ≤ length out.old) }
    ensures { Put (number n) out.old at out.new result × (result ≤ at + 5) }
{
    if n < 10 {
        out[at] = (48 + n) as u8;
        return at + 1;
    }
    let next = put_number(out, at, n / 10);
    out[next] = (48 + n % 10) as u8;
    next + 1
}

// Two numbers with a colon between.
fn put_ratio(out: &mut [u8], at: usize, n: usize, m: usize) -> usize
    requires { (n < 100000) × (m < 100000) × (at + 11 ≤ length out.old) }
    ensures { Put (ratio n m) out.old at out.new result × (result ≤ at + 11) }
{
    let colon = put_number(out, at, n);
    out[colon] = b':';
    put_number(out, colon + 1, m)
}

// The magic word, and both sides.
fn put_sides(out: &mut [u8], w: usize, h: usize) -> usize
    requires { (w < 100000) × (h < 100000) × (23 ≤ length out.old) }
    ensures { Put (sides_text w h) out.old 0 out.new result × (result ≤ 23) }
{
    let width = put_bytes(out, 0, b"YUV4MPEG2 W");
    let next = put_number(out, width, w);
    let height = put_bytes(out, next, b" H");
    put_number(out, height, h)
}

// The header: W, H, F, I, A and C.
pub(crate) fn put_header(
    out: &mut [u8],
    w: usize,
    h: usize,
    f: usize,
    g: usize,
    a: usize,
    b: usize,
) -> usize
    requires { (w < 100000) × (h < 100000) × (f < 100000) × (g < 100000) × (a < 100000) × (b < 100000) × (64 ≤ length out.old) }
    ensures { Put (header_text w h f g a b) out.old 0 out.new result }
{
    let sides = put_sides(out, w, h);
    let rate = put_bytes(out, sides, b" F");
    let next = put_ratio(out, rate, f, g);
    let aspect = put_bytes(out, next, b" Ip A");
    let last = put_ratio(out, aspect, a, b);
    put_bytes(out, last, b" C420p10\n")
}
