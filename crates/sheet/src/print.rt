// The text of a listing, written into a lent buffer from a place on. Each function answers the place after what it wrote.
ghost use Rattle.std.specs.Prelude.{◌≡◌, ◌+◌, ◌*◌, ◌≤◌, ◌<◌, length};
ghost use Rattle.edges.specs.Put.{Put};
ghost use Rattle.sheet.specs.Puts.{Starts, Places, places_text, numbers_text};
ghost use Rattle.sheet.specs.Text.{decimal, place_text, count_text, line_text, refused_text};

use def::{Refusal, refusal_number};

fn put_bytes(out: &mut [u8], at: usize, text: &[u8]) -> usize
    requires { at + length text.now ≤ length out.old }
    ensures { Put text.now out.old at out.new result }
{
    let end = at + text.len();
    out[at..end].copy_from_slice(text);
    end
}

// A number below 10,000 in decimal: what its tenth has, and the last digit.
fn put_decimal(out: &mut [u8], at: usize, n: usize) -> usize
    requires { (n < 10000) × (at + 4 ≤ length out.old) }
    ensures { Put (decimal n) out.old at out.new result }
{
    if n < 10 {
        out[at] = (48 + n) as u8;
        return at + 1;
    }
    let next = put_decimal(out, at, n / 10);
    out[next] = (48 + n % 10) as u8;
    next + 1
}

// What follows a refusal's number: for 12, the line.
fn put_line(out: &mut [u8], at: usize, number: usize, line: usize) -> usize
    requires { (line < 10000) × (at + 10 ≤ length out.old) }
    ensures { Put (line_text number line) out.old at out.new result }
{
    if number == 12 {
        let next = put_bytes(out, at, b" line=");
        return put_decimal(out, next, line);
    }
    at
}

// A refusal alone.
pub(crate) fn put_refusal(out: &mut [u8], r: Refusal, line: usize) -> usize
    requires { (line < 10000) × (32 ≤ length out.old) }
    ensures { Starts (refused_text r line) out.old out.new result }
{
    let number = refusal_number(r) as usize;
    let digits = put_bytes(out, 0, b"refused=");
    let next = put_decimal(out, digits, number);
    let end = put_line(out, next, number, line);
    out[end] = b'\n';
    end + 1
}

// A letter and a place.
fn put_place(out: &mut [u8], at: usize, letter: u8, x: usize, y: usize) -> usize
    requires { (x < 1000) × (y < 1000) × (at + 10 ≤ length out.old) }
    ensures { Put (place_text letter x y) out.old at out.new result × (result ≤ at + 10) }
{
    out[at] = letter;
    out[at + 1] = b' ';
    let second = put_decimal(out, at + 2, x);
    out[second] = b' ';
    let end = put_decimal(out, second + 1, y);
    out[end] = b'\n';
    end + 1
}

// The first n places of a list of numbers, two a place.
fn put_places(out: &mut [u8], at: usize, letter: u8, numbers: &[u16], n: usize) -> usize
    requires { Places numbers.now n × (at + 10 * n ≤ length out.old) }
    ensures { Put (places_text letter numbers.now n) out.old at out.new result × (result ≤ at + 10 * n) }
{
    let mut next = at;
    for i in 0..n {
        let x = usize::from(numbers[2 * i]);
        let y = usize::from(numbers[2 * i + 1]);
        next = put_place(out, next, letter, x, y);
    }
    next
}

// A line of a count.
fn put_count(out: &mut [u8], at: usize, key: &[u8], n: usize) -> usize
    requires { (n < 10000) × (length key.now ≡ 8) × (at + 13 ≤ length out.old) }
    ensures { Put (count_text key.now n) out.old at out.new result × (result ≤ at + 13) }
{
    let digits = put_bytes(out, at, key);
    let end = put_decimal(out, digits, n);
    out[end] = b'\n';
    end + 1
}

// Both passes' places, and then the counts.
pub(crate) fn put_listing(
    out: &mut [u8],
    vertical: &[u16],
    m: usize,
    horizontal: &[u16],
    n: usize,
) -> usize
    requires { Places vertical.now m × Places horizontal.now n × (10 * m + (10 * n + 26) ≤ length out.old) × (m < 10000) × (n < 10000) }
    ensures { Starts (numbers_text vertical.now m horizontal.now n) out.old out.new result }
{
    let second = put_places(out, 0, b'v', vertical, m);
    let counts = put_places(out, second, b'h', horizontal, n);
    let last = put_count(out, counts, b"v_count=", m);
    put_count(out, last, b"h_count=", n)
}
