// What a block's neighbours are: availability, its eight answers in one byte, and the mode ranks.
ghost use Rattle.std.specs.Prelude.{◌≡◌, ◌≤◌, length};
ghost use Rattle.laws.specs.Call.{Gives};
ghost use Rattle.def.specs.Word.{bit};
ghost use Rattle.avail.specs.Calls.{reading_of};
ghost use Rattle.decoder_c.specs.Masks.{byte_of, intra_outcome, inter_outcome};
ghost use Rattle.decoder_c.specs.Ranks as ranked;

use avail::Neighbours;
use def::{Pel, Refusal, Scu};

// ---- availability

// A yes or no as a bit.
fn bit_of(b: bool) -> u8
    ensures { (result ≡ bit b) × (result ≤ 1) }
{
    if b { 1 } else { 0 }
}

// The eight answers in one byte, `up` the lowest bit.
fn byte_of(n: Neighbours) -> u8
    ensures { result ≡ byte_of n }
{
    let low = bit_of(n.low_left) + 2 * (bit_of(n.low_right) + 2 * bit_of(n.right_up));
    let upper = bit_of(n.up_left) + 2 * (bit_of(n.up_right) + 2 * low);
    bit_of(n.up) + 2 * (bit_of(n.left) + 2 * (bit_of(n.right) + 2 * upper))
}

// An answer of availability in numbers.
#[derive(Drop)]
struct Masked {
    number: u8,
    mask: u8,
}

fn in_numbers(a: Result<Neighbours, Refusal>) -> Masked
    ensures { (result.number ≡ (reading_of a).number) × (result.mask ≡ byte_of (reading_of a).neighbours) }
{
    match a {
        Ok(n) => Masked {
            number: 0,
            mask: byte_of(n),
        },
        Err(r) => Masked {
            number: def::refusal_number(r),
            mask: 0,
        },
    }
}

#[unsafe(no_mangle)]
pub extern "C" fn lomsakeun_get_avail_intra(
    w: usize,
    h: usize,
    words: &[u32],
    x: usize,
    y: usize,
    side: usize,
    neighbours: &mut u8,
) -> u8
    ensures { Gives intra_outcome
        (record { w = w; h = h; words = words.now; x = x; y = y; side = side })
        (record { number = result; neighbours = neighbours.new }) }
{
    let seen = in_numbers(avail::get_avail_intra(w, h, words, Pel(x), Pel(y), side));
    *neighbours = seen.mask;
    seen.number
}

#[unsafe(no_mangle)]
pub extern "C" fn lomsakeun_get_avail_inter(
    w: usize,
    h: usize,
    words: &[u32],
    x: usize,
    y: usize,
    side: usize,
    neighbours: &mut u8,
) -> u8
    ensures { Gives inter_outcome
        (record { w = w; h = h; words = words.now; x = x; y = y; side = side })
        (record { number = result; neighbours = neighbours.new }) }
{
    let seen = in_numbers(avail::get_avail_inter(w, h, words, Pel(x), Pel(y), side));
    *neighbours = seen.mask;
    seen.number
}

// ---- mode ranks

// The checks of the lookup, and of the slice that its five ranks are copied to.
fn ranks_checked(
    w: usize,
    h: usize,
    words: &[u32],
    modes: &[u8],
    table: &[u8],
    x: usize,
    y: usize,
    ranks: usize,
) -> Result<(), Refusal>
    ensures { result ≡ ranked.check_of (record { w = w; h = h; words = words.now; modes = modes.now; table = table.now; x = x; y = y }) ranks }
{
    if !def::size_ok(w, h) {
        return Err(Refusal::Size);
    }
    if ranks != 5 {
        return Err(Refusal::Length);
    }
    mpm::get_mpm_number(w, h, words, modes, table, Scu(x), Scu(y))
}

// A part's bytes, into a slice of its length.
// kept: byte by byte, as `mend`'s `copy` says.
fn copy(part: &[u8], out: &mut [u8])
    requires { length part.now ≡ length out.old }
    ensures { out.new ≡ part.now }
{
    for k in 0..part.len() {
        out[k] = part[k];
    }
}

// A part of the lent table cannot be answered to C: its five bytes are copied.
#[unsafe(no_mangle)]
pub extern "C" fn lomsakeun_get_mpm(
    w: usize,
    h: usize,
    words: &[u32],
    modes: &[u8],
    table: &[u8],
    x: usize,
    y: usize,
    ranks: &mut [u8],
) -> u8
    ensures { Gives ranked.outcome
        (record { around = record { w = w; h = h; words = words.now; modes = modes.now; table = table.now; x = x; y = y }; ranks = ranks.old })
        (record { number = result; ranks = ranks.new }) }
{
    match ranks_checked(w, h, words, modes, table, x, y, ranks.len()) {
        Err(r) => def::refusal_number(r),
        Ok(()) => {
            copy(
                mpm::get_mpm(w, h, words, modes, table, Scu(x), Scu(y)),
                ranks,
            );
            0
        }
    }
}
