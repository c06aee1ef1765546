// The bands of a picture: a band's rows, and those that are lent for it. The Rust has no bands.
#![tactic(auto)]

ghost use Rattle.std.specs.Prelude.{◌≡◌, ◌/◌};
ghost use Rattle.band_rows.specs.Rows.{band_rows, rows_above, band_ok, lent_rows};

use def::roots_along;

// The rows of units of a band, in a picture of h luma rows: 16, but in the last what is left, and past the last none.
pub fn band_rows(h: usize, band: usize) -> usize
    ensures { result ≡ band_rows (h / 4) band }
{
    let rows = h / 4;
    if band < rows / 16 {
        return 16;
    }
    if band == rows / 16 {
        return rows % 16;
    }
    0
}

// The rows of units that are lent above a band.
pub fn rows_above(band: usize) -> usize
    ensures { result ≡ rows_above band }
{
    if band == 0 { 0 } else { 16 }
}

// Whether a band is the position's next, and not past the last.
pub fn band_ok(next: usize, band: usize, h: usize) -> bool
    ensures { result ≡ band_ok next band h }
{
    (band == next) & (band < roots_along(h))
}

// Rows of luma samples that are lent for a band: all of them, the last, which are its own, and how many of the first are not judged.
#[derive(Drop)]
pub struct LentRows {
    pub all: usize,
    pub own: usize,
    pub before: usize,
}

// Of a picture of h luma rows. Those of the row of units above the band are judged, as its own are.
pub fn lent_rows(h: usize, band: usize) -> LentRows
    ensures { result ≡ lent_rows h band }
{
    let own = 4 * band_rows(h, band);
    let above = 4 * rows_above(band);
    let before = above - above / 16;
    LentRows {
        all: above + own,
        own,
        before,
    }
}
