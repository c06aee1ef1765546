// A split map written in its compact form: its digits as bits, the high bit of each byte first. There is no Rust beside it.
#![tactic(auto)]

ghost use Rattle.std.specs.Prelude.{◌≡◌, ◌≤◌};
ghost use Rattle.def.specs.Answers.{answer_number};
ghost use Rattle.laws.specs.Call.{Gives};
ghost use Rattle.pack_rules.specs.Form.{bits_in, placed_number, placed_at};
ghost use Rattle.pack_rules.specs.PutCall as PutCall;
ghost use Rattle.pack_rules.specs.Taken.{Accepted};

use crate::write::{map_digits, put_digits, put_zeros};
use def::{Refusal, size_ok};
use marks::root_count;

mod write; // write.rt: the digits of a map, judged, counted and put

// What came of a map, and the position after it: where the map is refused it is the position that was handed in.
#[derive(Clone, Copy)]
pub struct Placed {
    pub answer: Result<(), Refusal>,
    pub at: usize,
}

// How many bits a buffer has.
pub fn bits_in(bytes: usize) -> usize
    ensures { (result ≡ bits_in bytes) × (result ≤ 4611686018427387904) }
{
    if bytes < 576460752303423488 {
        return 8 * bytes;
    }
    4611686018427387904
}

// The map of a picture whose walk is not refused, n digits: they have room, or nothing is put. The answer is the position after the map.
fn put_counted(
    w: usize,
    h: usize,
    splits: &[u8],
    n: usize,
    buf: &mut [u8],
    at: usize,
) -> Result<usize, Refusal>
    requires { Accepted w h splits.now n }
    ensures { Gives PutCall.outcome
        (record { w = w; h = h; splits = splits.now; buf = buf.old; at = at })
        (record { number = placed_number result; at = placed_at at result; buf = buf.new }) }
{
    let end = bits_in(buf.len());
    if end < at {
        return Err(Refusal::Bits);
    }
    let start = (at + 7) / 8 * 8;
    let next = start + (n + 7) / 8 * 8;
    if end < next {
        return Err(Refusal::Bits);
    }
    put_digits(w, h, splits, buf, start);
    put_zeros(buf, start + n, next);
    Ok(next)
}

// Everything that is refused, in its order, and then the map: the answer is the position after it.
fn put_checked(
    w: usize,
    h: usize,
    splits: &[u8],
    buf: &mut [u8],
    at: usize,
) -> Result<usize, Refusal>
    ensures { Gives PutCall.outcome
        (record { w = w; h = h; splits = splits.now; buf = buf.old; at = at })
        (record { number = placed_number result; at = placed_at at result; buf = buf.new }) }
{
    if !size_ok(w, h) {
        return Err(Refusal::Size);
    }
    if splits.len() != 1024 * root_count(w, h) {
        return Err(Refusal::Length);
    }
    let n = map_digits(w, h, splits)?;
    put_counted(w, h, splits, n, buf, at)
}

// The split map of a picture of w by h goes into the buffer, from position `at` on, in bits.
pub fn put_map(w: usize, h: usize, splits: &[u8], buf: &mut [u8], at: usize) -> Placed
    ensures { Gives PutCall.outcome
        (record { w = w; h = h; splits = splits.now; buf = buf.old; at = at })
        (record { number = answer_number result.answer; at = result.at; buf = buf.new }) }
{
    match put_checked(w, h, splits, buf, at) {
        Ok(next) => Placed {
            answer: Ok(()),
            at: next,
        },
        Err(r) => Placed { answer: Err(r), at },
    }
}
