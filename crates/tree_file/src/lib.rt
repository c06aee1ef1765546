// A picture's split tree from a file: a sheet, a split map by its bytes, or one by its digits. Each is judged by the call of the face that takes it; what is
// refused is told with its file and its place. No contract can say what is read or written: what stands here is proved safe. It is for the programs alone.
#![tactic(auto)]

ghost use Rattle.std.specs.Prelude.{◌≤◌};

mod from_digits; // from_digits.rt: a map by its digits
mod from_map; // from_map.rt: a map by its bytes
mod from_sheet; // from_sheet.rt: a sheet
mod sheet_place; // sheet_place.rt: where a sheet is refused

pub use from_digits::by_digits;
pub use from_map::by_bytes;
pub use from_sheet::by_sheet;

// What a sheet says of its tree: the picture's size, and the transform limit.
#[derive(Clone, Copy)]
pub struct Tree {
    pub w: usize,
    pub h: usize,
    pub limit: usize,
}

// How many bytes the map of a picture of w by h has: 0 for a size that no picture has.
pub fn map_bytes(w: usize, h: usize) -> usize
    ensures { result ≤ 4194304 }
{
    1024 * map_file::root_count(w, h)
}

// How many roots a picture of a width has across.
pub fn roots_across(w: usize) -> usize
    ensures { result ≤ 64 }
{
    let n = map_file::root_count(w, 64);
    if 64 < n {
        return 0;
    }
    n
}
