// The maps of a picture's units, the words, the modes and the keep bytes: cleared, and told what a leaf says. No Rust stands beside it.
#![tactic(auto)]

ghost use Rattle.std.specs.Prelude.{◌≡◌, ℕ, ◌+◌, ◌≤◌, length};
ghost use Rattle.laws.specs.Index.{tabulate};
ghost use Rattle.laws.specs.Plane.{with_row};
ghost use Rattle.unit_maps.specs.Maps.{maps_of, lies, Inside, with_blocks, told_maps};

use def::Scu;

// Map words start at 0.
pub fn clear_words(words: &mut [u32])
    ensures { words.new ≡ tabulate (length words.old) (λ (k : ℕ). 0) }
{
    for word in words.iter_mut() {
        *word = 0;
    }
}

// ---- a block of units

// Whether the block of n by n units at (x, y) lies in maps of rows of `columns`, of these lengths. No picture has more than 1024 columns or rows: so no sum wraps.
fn lies(
    columns: usize,
    x: usize,
    y: usize,
    n: usize,
    words: usize,
    modes: usize,
    keep: usize,
) -> bool
    ensures { result ≡ lies columns x y n words modes keep }
{
    if 1024 < columns {
        return false;
    }
    if 1024 < y {
        return false;
    }
    if columns < x {
        return false;
    }
    if columns - x < n {
        return false;
    }
    let end = (y + n) * columns;
    (end <= words) & (end <= modes) & (end <= keep)
}

// n units from place `at` on are told.
fn tell_row(
    words: &mut [u32],
    modes: &mut [u8],
    keep: &mut [u8],
    at: usize,
    n: usize,
    word: u32,
    mode: u8,
    mark: u8,
)
    requires { (at + n ≤ length words.old) × (at + n ≤ length modes.old) × (at + n ≤ length keep.old) }
    ensures { (words.new ≡ with_row 0 at n (λ (j : ℕ). word) words.old) × (modes.new ≡ with_row 0 at n (λ (j : ℕ). mode) modes.old)
        × (keep.new ≡ with_row 0 at n (λ (j : ℕ). mark) keep.old) }
{
    for j in 0..n {
        words[at + j] = word;
        modes[at + j] = mode;
        keep[at + j] = mark;
    }
}

// A block that lies in the maps. A leaf of 4 is one unit, and no loop.
fn tell_block(
    words: &mut [u32],
    modes: &mut [u8],
    keep: &mut [u8],
    columns: usize,
    x: usize,
    y: usize,
    n: usize,
    word: u32,
    mode: u8,
    mark: u8,
)
    requires { Inside columns x y n words.old modes.old keep.old }
    ensures { maps_of words.new modes.new keep.new
        ≡ with_blocks columns x y n word mode mark (maps_of words.old modes.old keep.old) }
{
    if n == 1 {
        let at = y * columns + x;
        tell_row(words, modes, keep, at, 1, word, mode, mark);
        return;
    }
    for r in 0..n {
        let at = (y + r) * columns + x;
        tell_row(words, modes, keep, at, n, word, mode, mark);
    }
}

// The units of a leaf, a block of n by n at (x, y), in maps of rows of `columns`: its word, its mode, and whether they are kept. A block that does not lie in all three
// maps changes none of them.
pub fn tell_units(
    words: &mut [u32],
    modes: &mut [u8],
    keep: &mut [u8],
    columns: usize,
    x: Scu,
    y: Scu,
    n: usize,
    word: u32,
    mode: u8,
    mark: u8,
)
    ensures { maps_of words.new modes.new keep.new
        ≡ told_maps columns x.0 y.0 n word mode mark (maps_of words.old modes.old keep.old) }
{
    if !lies(columns, x.0, y.0, n, words.len(), modes.len(), keep.len()) {
        return;
    }
    tell_block(words, modes, keep, columns, x.0, y.0, n, word, mode, mark);
}
