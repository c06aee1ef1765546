// A split map read from its compact form: its digits as bits, the high bit of each byte first. There is no Rust beside it.
#![tactic(auto)]

ghost use Rattle.std.specs.Prelude.{◌≡◌, length};
ghost use Rattle.def.specs.Answers.{answer_number};
ghost use Rattle.laws.specs.Call.{Gives};
ghost use Rattle.pack_rules.specs.Form.{placed_number, placed_at};
ghost use Rattle.pack_rules.specs.GetCall as GetCall;
ghost use Rattle.pack_rules.specs.TakeCall as TakeCall;
ghost use Rattle.pack_rules.specs.Taken.{Mapped, Span};

use crate::read::{fill_map, map_taken, zeros_ok};
use def::{Refusal, size_ok};
use marks::root_count;
use pack::{Placed, bits_in};

mod read; // read.rt: the digits of a map, taken from bits and put into its bytes

// The map of a picture, by the bits of the buffer from `start` up to `end`: it is filled if the bits after its digits are 0. The answer is the position after it.
fn get_taken(
    w: usize,
    h: usize,
    src: &[u8],
    start: usize,
    end: usize,
    at: usize,
    map: &mut [u8],
) -> Result<usize, Refusal>
    requires { Mapped w h (length map.old) × Span (length src.now) at start end }
    ensures { Gives GetCall.outcome
        (record { w = w; h = h; src = src.now; at = at; map = map.old })
        (record { number = placed_number result; at = placed_at at result; map = map.new }) }
{
    let n = map_taken(w, h, src, start, end)?;
    let next = start + (n + 7) / 8 * 8;
    if !zeros_ok(src, start + n, next) {
        return Err(Refusal::Bits);
    }
    fill_map(w, h, src, start, end, map);
    Ok(next)
}

// Everything that is refused, in its order, and then the map: the answer is the position after it.
fn get_checked(w: usize, h: usize, src: &[u8], at: usize, map: &mut [u8]) -> Result<usize, Refusal>
    ensures { Gives GetCall.outcome
        (record { w = w; h = h; src = src.now; at = at; map = map.old })
        (record { number = placed_number result; at = placed_at at result; map = map.new }) }
{
    if !size_ok(w, h) {
        return Err(Refusal::Size);
    }
    if map.len() != 1024 * root_count(w, h) {
        return Err(Refusal::Length);
    }
    let end = bits_in(src.len());
    if end < at {
        return Err(Refusal::Bits);
    }
    get_taken(w, h, src, (at + 7) / 8 * 8, end, at, map)
}

// What came of a map, at the position that was handed in.
fn placed(came: Result<usize, Refusal>, at: usize) -> Placed
    ensures { (answer_number result.answer ≡ placed_number came) × (result.at ≡ placed_at at came) }
{
    match came {
        Ok(next) => Placed {
            answer: Ok(()),
            at: next,
        },
        Err(r) => Placed { answer: Err(r), at },
    }
}

// The split map of a picture of w by h is read from the buffer, from position `at` on, in bits.
pub fn get_map(w: usize, h: usize, src: &[u8], at: usize, map: &mut [u8]) -> Placed
    ensures { Gives GetCall.outcome
        (record { w = w; h = h; src = src.now; at = at; map = map.old })
        (record { number = answer_number result.answer; at = result.at; map = map.new }) }
{
    placed(get_checked(w, h, src, at, map), at)
}

// Everything that is refused of digits alone, in its order, and then the map: the answer is where what is left behind the digits begins.
fn take_checked(
    w: usize,
    h: usize,
    src: &[u8],
    from: usize,
    to: usize,
    map: &mut [u8],
) -> Result<usize, Refusal>
    ensures { Gives TakeCall.outcome
        (record { w = w; h = h; src = src.now; from = from; to = to; map = map.old })
        (record { number = placed_number result; at = placed_at from result; map = map.new }) }
{
    if !size_ok(w, h) {
        return Err(Refusal::Size);
    }
    if map.len() != 1024 * root_count(w, h) {
        return Err(Refusal::Length);
    }
    if !((from <= to) & (to <= 4611686018427387904)) {
        return Err(Refusal::Bits);
    }
    let n = map_taken(w, h, src, from, to)?;
    fill_map(w, h, src, from, to, map);
    Ok(from + n)
}

// The split map of a picture of w by h by its digits alone, the bits from one place up to another: what is left behind them is the caller's to judge.
pub fn take_map(w: usize, h: usize, src: &[u8], from: usize, to: usize, map: &mut [u8]) -> Placed
    ensures { Gives TakeCall.outcome
        (record { w = w; h = h; src = src.now; from = from; to = to; map = map.old })
        (record { number = answer_number result.answer; at = result.at; map = map.new }) }
{
    placed(take_checked(w, h, src, from, to, map), from)
}
