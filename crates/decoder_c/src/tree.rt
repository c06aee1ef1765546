// The split tree and its edges, a torn map mended, and the listing of a sheet.
ghost use Rattle.std.specs.Prelude.{◌≡◌};
ghost use Rattle.laws.specs.Call.{Gives};
ghost use Rattle.mend.specs.MendCall as mending;
ghost use Rattle.rank.specs.RankCall as ranking;
ghost use Rattle.split.specs.CheckCall as checking;
ghost use Rattle.split.specs.LeavesCall as meeting;
ghost use Rattle.split.specs.ListCall as listing;
ghost use Rattle.sheet.specs.Listing as printing;

use crate::number_of;
use def::{Pel, Refusal, Scu};
use split::EdgeCounts;

// ---- answers in numbers: a value is 0 where refused

#[derive(Drop)]
struct Lengths {
    number: u8,
    vertical: usize,
    horizontal: usize,
}

fn list_numbers(a: Result<EdgeCounts, Refusal>) -> Lengths
    ensures { (result.number ≡ (listing.reading_of a).number) × (result.vertical ≡ (listing.reading_of a).vertical) × (result.horizontal ≡ (listing.reading_of a).horizontal) }
{
    match a {
        Ok(counts) => Lengths {
            number: 0,
            vertical: counts.vertical,
            horizontal: counts.horizontal,
        },
        Err(r) => Lengths {
            number: def::refusal_number(r),
            vertical: 0,
            horizontal: 0,
        },
    }
}

// ---- the calls

#[unsafe(no_mangle)]
pub extern "C" fn lomsakeun_check(w: usize, h: usize, splits: &[u8]) -> u8
    ensures { Gives checking.outcome (record { w = w; h = h; splits = splits.now }) (record { number = result }) }
{
    def::answer_number(split::check(w, h, splits))
}

#[unsafe(no_mangle)]
pub extern "C" fn lomsakeun_leaves(
    w: usize,
    h: usize,
    splits: &[u8],
    x: usize,
    y: usize,
    out: &mut [u16],
    count: &mut usize,
) -> u8
    ensures { Gives meeting.outcome
        (record { w = w; h = h; splits = splits.now; x = x; y = y; out = out.old })
        (record { reading = record { number = result; count = count.new }; out = out.new }) }
{
    let met = split::leaves(w, h, splits, Pel(x), Pel(y), out);
    *count = met.unwrap_or(0);
    number_of(met)
}

#[unsafe(no_mangle)]
pub extern "C" fn lomsakeun_mend(
    w: usize,
    h: usize,
    splits: &[u8],
    out: &mut [u8],
    list: &mut [u16],
    count: &mut usize,
) -> u8
    ensures { Gives mending.outcome
        (record { w = w; h = h; splits = splits.now; out = out.old; list = list.old })
        (record { reading = record { number = result; count = count.new }; out = out.new; list = list.new }) }
{
    let mended = mend::mend(w, h, splits, out, list);
    *count = mended.unwrap_or(0);
    number_of(mended)
}

#[unsafe(no_mangle)]
pub extern "C" fn lomsakeun_visiting_rank(x: usize, y: usize, rank: &mut u8) -> u8
    ensures { Gives ranking.outcome (record { x = x; y = y }) (record { reading = record { number = result; rank = rank.new } }) }
{
    let found = rank::visiting_rank(Scu(x), Scu(y));
    *rank = found.unwrap_or(0);
    number_of(found)
}

#[unsafe(no_mangle)]
pub extern "C" fn lomsakeun_list_edges(
    w: usize,
    h: usize,
    splits: &[u8],
    limit: u8,
    vertical: &mut [u16],
    horizontal: &mut [u16],
    vertical_count: &mut usize,
    horizontal_count: &mut usize,
) -> u8
    ensures { Gives listing.outcome
        (record { w = w; h = h; splits = splits.now; limit = limit; vertical = vertical.old; horizontal = horizontal.old })
        (record { reading = record { number = result; vertical = vertical_count.new; horizontal = horizontal_count.new }; vertical = vertical.new; horizontal = horizontal.new }) }
{
    let seen = list_numbers(edges::list_edges(w, h, splits, limit, vertical, horizontal));
    *vertical_count = seen.vertical;
    *horizontal_count = seen.horizontal;
    seen.number
}

#[unsafe(no_mangle)]
pub extern "C" fn lomsakeun_listing(input: &[u8], out: &mut [u8], length: &mut usize) -> u8
    ensures { Gives printing.outcome
        (record { input = input.entry.now; out = out.old })
        (record { reading = record { number = result; length = length.new }; out = out.new }) }
{
    let written = sheet::listing(input, out);
    *length = written.unwrap_or(0);
    number_of(written)
}
