// A sheet. It is read and refused as `edgelist` does: what is wrong with one is looked up in its listing.
ghost use Rattle.std.specs.Prelude.{◌≤◌};

use crate::sheet_place::tell_where;
use crate::{Tree, map_bytes};
use files::{Source, Stream};
use say::Stop;

// ---- what it is refused for

// The room that a listing asks for. A call keeps the checker from looking into the array.
fn listing_room() -> [u8; 81920] {
    [0u8; 81920]
}

// A digit's value.
fn digit(b: u8) -> u8
    ensures { result ≤ 9 }
{
    b % 48 % 10
}

// The number of a listing that is `refused=N`, with or without its line; none of any other, which starts with an edge or with a count.
fn refused_by(text: &[u8]) -> Option<u8> {
    if text.first() != Some(&b'r') {
        return None;
    }
    let first = digit(*text.get(8)?);
    let b = *text.get(9)?;
    if b.is_ascii_digit() {
        return Some(10 * first + digit(b));
    }
    Some(first)
}

// The listing of a refusal, and what its number means.
fn tell(rt: &HostRuntime, listing: &[u8], number: u8) {
    let _ = files::write_all(rt, Stream::Errors, listing);
    let _ = eprint!(rt; ": ");
    say::meaning(rt, number);
    let _ = eprintln!(rt);
}

// Whether the sheet of a file that an argument names is refused, which is told.
fn judged(rt: &HostRuntime, at: usize, input: &[u8]) -> Result<(), Stop> {
    let mut text = listing_room();
    let n = decoder::listing(input, &mut text).map_err(|_| Stop::Refused)?;
    let Some(number) = refused_by(&text) else {
        return Ok(());
    };
    words::name(rt, at);
    tell_where(rt, input, number);
    // without its newline
    if let Some(listing) = n.checked_sub(1).and_then(|end| text.get(..end)) {
        tell(rt, listing, number);
    }
    Err(Stop::Refused)
}

// ---- its map

// The digits as bits; a digit is odd where it is 1.
pub(crate) fn put_digits(digits: &[u8], bits: &mut [u8]) {
    for (i, digit) in digits.iter().enumerate() {
        decoder::put_bit(bits, i, *digit);
    }
}

// The map of a picture that is not refused, by its digits, first in a room.
fn mapped(
    rt: &HostRuntime,
    at: usize,
    w: usize,
    h: usize,
    digits: &[u8],
    map: &mut [u8],
) -> Result<(), Stop> {
    let n = map_bytes(w, h);
    if map.len() < n {
        words::name(rt, at);
        say::line(rt, b"there is no room for the sheet's map");
        return Err(Stop::Failed);
    }
    let mut bits = [0u8; 512];
    put_digits(digits, &mut bits);
    let placed = decoder::take_map(w, h, &bits, 0, digits.len(), &mut map[..n]);
    placed.answer.map_err(|refusal| {
        words::name(rt, at);
        say::refused(rt, decoder::refusal_number(refusal));
        Stop::Refused
    })
}

// The tree of a sheet's text.
fn tree(rt: &HostRuntime, at: usize, input: &[u8], map: &mut [u8]) -> Result<Tree, Stop> {
    judged(rt, at, input)?;
    let sheet = decoder::read(input).map_err(|_| Stop::Refused)?;
    let digits = input.get(sheet.from..sheet.to).ok_or(Stop::Refused)?;
    mapped(rt, at, sheet.w, sheet.h, digits, map)?;
    Ok(Tree {
        w: sheet.w,
        h: sheet.h,
        limit: sheet.limit,
    })
}

// The tree of the sheet in a file: the one that an argument names, or standard input for argument 0. At most 4,096 bytes count, and one more tells that
// there are more. Its map comes first in a room, which has 16,384 bytes for the largest picture of a sheet.
pub fn by_sheet(
    rt: &HostRuntime,
    at: usize,
    file: &mut Source,
    map: &mut [u8],
) -> Result<Tree, Stop> {
    let mut input = [0u8; 4097];
    let n = files::read_full(&mut *file, &mut input);
    if words::unreadable(rt, at, file) {
        return Err(Stop::Failed);
    }
    tree(rt, at, &input[..n], map)
}
