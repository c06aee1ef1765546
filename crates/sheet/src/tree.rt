// The split digits of a sheet, put where the walk reads them: as bits they are taken as a compact map's are.
ghost use Rattle.std.specs.Prelude.{◌≡◌, true, ◌*◌, ◌/◌, ◌%◌, ◌≤◌, length, get_or};
ghost use Rattle.bits.specs.Bits.{with_bits};
ghost use Rattle.split.specs.Picture.{roots};
ghost use Rattle.sheet_lines.specs.Lines.{binary};
ghost use Rattle.sheet.specs.Descent.{as_sheet};
ghost use Rattle.sheet.specs.Taken.{Sides, Pictured};

use bits::put_bit;
use def::{Refusal, refusal_number, roots_along};
use unpack::take_map;

// How many roots cover a picture.
pub(crate) fn root_count(w: usize, h: usize) -> usize
    requires { Sides w h }
    ensures { (result ≡ roots (w / 4) (h / 4)) × (result ≤ 16) }
{
    roots_along(w) * roots_along(h)
}

// The digits as bits, from the first place on: a digit's low bit is its value.
fn put_digits(digits: &[u8], bits: &mut [u8])
    ensures { bits.new ≡ with_bits bits.old 0 (λ i. get_or digits.now i 0 % 2) (length digits.now) }
{
    for (i, digit) in digits.iter().enumerate() {
        put_bit(bits, i, *digit);
    }
}

// What the bits are refused for, said of a sheet.
fn as_sheet(r: Refusal) -> Refusal
    ensures { result ≡ as_sheet r }
{
    if refusal_number(r) == 16 {
        return Refusal::Sheet;
    }
    r
}

// The digits of a picture, put into its map of 1,024 bytes a root.
pub(crate) fn take_picture(
    digits: &[u8],
    w: usize,
    h: usize,
    map: &mut [u8],
) -> Result<usize, Refusal>
    requires { Sides w h × (binary digits.now ≡ true) × (length digits.now ≤ 4096) × (length map.old ≡ 1024 * roots (w / 4) (h / 4)) }
    ensures { Pictured (w / 4) (h / 4) digits.now map.new result }
{
    let mut bits = [0u8; 512];
    put_digits(digits, &mut bits);
    let placed = take_map(w, h, &bits, 0, digits.len(), map);
    match placed.answer {
        Ok(()) => Ok(placed.at),
        Err(refusal) => Err(as_sheet(refusal)),
    }
}
