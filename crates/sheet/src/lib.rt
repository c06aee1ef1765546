// The sheet and its listing, bytes to bytes. There is no Rust beside it.
#![tactic(auto)]

ghost use Rattle.std.specs.Prelude.{◌≡◌, true, false, ◌*◌, ◌/◌, ◌≤◌, length};
ghost use Rattle.laws.specs.Call.{Gives};
ghost use Rattle.split.specs.ListCall.{limit_ok};
ghost use Rattle.split.specs.Picture.{roots};
ghost use Rattle.sheet_lines.specs.Lines.{binary};
ghost use Rattle.sheet.specs.Listing.{reading_of, outcome};
ghost use Rattle.sheet.specs.Puts.{Starts};
ghost use Rattle.sheet.specs.Taken.{Walked, edges_text};
ghost use Rattle.sheet.specs.Text.{sides_ok, found_of, printed, text_of};

mod print;
mod tree;

use crate::print::{put_listing, put_refusal};
use crate::tree::{root_count, take_picture};
use def::Refusal;
use edges::list_edges;
use sheet_lines::read;

// Whether w and h are sides of a sheet's picture: multiples of 4, from 4 to 256.
fn sides_ok(w: usize, h: usize) -> bool
    ensures { result ≡ sides_ok w h }
{
    (4 <= w) & (w <= 256) & (w % 4 == 0) & (4 <= h) & (h <= 256) & (h % 4 == 0)
}

// The split map of the largest picture: 16 roots.
fn map_room() -> [u8; 16384]
    ensures { 16384 ≡ length result }
{
    [0u8; 16384]
}

// A pass's edges of the largest picture: two numbers a unit.
fn numbers_room() -> [u16; 8192]
    ensures { 8192 ≡ length result }
{
    [0u16; 8192]
}

// The edges of a picture whose walk is not refused, listed into two buffers and then printed.
fn print_lists(
    w: usize,
    h: usize,
    limit: usize,
    map: &[u8],
    vertical: &mut [u16],
    horizontal: &mut [u16],
    out: &mut [u8],
) -> usize
    requires { Walked w h limit map.now × (length vertical.old ≡ 2 * (w / 4 * (h / 4))) × (length horizontal.old ≡ 2 * (w / 4 * (h / 4))) × (length out.old ≡ 81920) }
    ensures { Starts (edges_text w h limit map.now) out.old out.new result }
{
    match list_edges(w, h, map, limit as u8, vertical, horizontal) {
        // none of the call's tests fails here
        Err(r) => put_refusal(out, r, 0),
        Ok(counts) => put_listing(
            out,
            vertical,
            counts.vertical,
            horizontal,
            counts.horizontal,
        ),
    }
}

fn print_edges(w: usize, h: usize, limit: usize, map: &[u8], out: &mut [u8]) -> usize
    requires { Walked w h limit map.now × (length out.old ≡ 81920) }
    ensures { Starts (edges_text w h limit map.now) out.old out.new result }
{
    let n = 2 * (w / 4 * (h / 4));
    let mut vertical = numbers_room();
    let mut horizontal = numbers_room();
    print_lists(
        w,
        h,
        limit,
        map,
        &mut vertical[..n],
        &mut horizontal[..n],
        out,
    )
}

// The digits of a sheet whose size and limit pass: what the walk meets, digits left over, or the edges. `map` is room for the split bytes.
fn print_tree(
    digits: &[u8],
    w: usize,
    h: usize,
    limit: usize,
    map: &mut [u8],
    out: &mut [u8],
) -> usize
    requires { (sides_ok w h ≡ true) × (limit_ok limit ≡ true) × (binary digits.now ≡ true) × (length digits.now ≤ 4096) × (length map.old ≡ 1024 * roots (w / 4) (h / 4)) × (length out.old ≡ 81920) }
    ensures { Starts (printed (found_of w h limit false digits.now)) out.old out.new result }
{
    match take_picture(digits, w, h, map) {
        Err(r) => put_refusal(out, r, 5),
        Ok(next) => {
            if next < digits.len() {
                return put_refusal(out, Refusal::Sheet, 5);
            }
            print_edges(w, h, limit, map, out)
        }
    }
}

// The digits of a sheet, after its size, its limit and its age.
fn print_digits(digits: &[u8], w: usize, h: usize, limit: usize, old: bool, out: &mut [u8]) -> usize
    requires { (binary digits.now ≡ true) × (length digits.now ≤ 4096) × (length out.old ≡ 81920) }
    ensures { Starts (printed (found_of w h limit old digits.now)) out.old out.new result }
{
    if !sides_ok(w, h) {
        return put_refusal(out, Refusal::Size, 0);
    }
    if !((limit == 5) | (limit == 6)) {
        return put_refusal(out, Refusal::Setting, 0);
    }
    if old {
        return put_refusal(out, Refusal::Old, 0);
    }
    let n = 1024 * root_count(w, h);
    let mut map = map_room();
    print_tree(digits, w, h, limit, &mut map[..n], out)
}

// A sheet: the first line that is malformed, or its digits.
fn print_sheet(input: &[u8], out: &mut [u8]) -> usize
    requires { length out.old ≡ 81920 }
    ensures { Starts (text_of input.now) out.old out.new result }
{
    match read(input) {
        Err(m) => put_refusal(out, Refusal::Sheet, m.0),
        Ok(p) => print_digits(&input[p.from..p.to], p.w, p.h, p.limit, p.old, out),
    }
}

// What `edgelist` prints for `input`, the bytes that it read: put first into `out`, a buffer of 81,920 bytes.
pub fn listing(input: &[u8], out: &mut [u8]) -> Result<usize, Refusal>
    ensures { Gives outcome
        (record { input = input.entry.now; out = out.old })
        (record { reading = reading_of result; out = out.new }) }
{
    if out.len() != 81920 {
        return Err(Refusal::Length);
    }
    Ok(print_sheet(input, out))
}
