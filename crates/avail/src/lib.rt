// Which neighbours of a block are there, for intra and for inter prediction: evc_get_avail_intra and evc_get_avail_inter of util.rs.
#![tactic(auto)]

ghost use Rattle.std.specs.Prelude.{◌≡◌, Ok};
ghost use Rattle.laws.specs.Call.{Gives};
ghost use Rattle.def.specs.Word.{done_of, intra_of};
ghost use Rattle.avail.specs.Around.{done_not_intra};
ghost use Rattle.avail.specs.Near.{word_near, Reach};
ghost use Rattle.avail.specs.Intra.{intra_neighbours};
ghost use Rattle.avail.specs.Inter.{inter_neighbours};
ghost use Rattle.avail.specs.Calls.{check_of, check, reading_of, intra_outcome, inter_outcome};

use def::{Pel, Refusal};

// The neighbours that are there. `right_up` is the one above the block's last column.
#[derive(Drop)]
pub struct Neighbours {
    pub up: bool,
    pub left: bool,
    pub right: bool,
    pub up_left: bool,
    pub up_right: bool,
    pub low_left: bool,
    pub low_right: bool,
    pub right_up: bool,
}

fn checked(w: usize, h: usize, words: usize, x: Pel, y: Pel, side: usize) -> Result<(), Refusal>
    ensures { result ≡ check_of w h words x.0 y.0 side }
{
    if !def::size_ok(w, h) {
        return Err(Refusal::Size);
    }
    if words != (w / 4) * (h / 4) {
        return Err(Refusal::Length);
    }
    if !def::block_ok(w, h, x, y, side) {
        return Err(Refusal::Block);
    }
    Ok(())
}

// The word of the unit a columns and b rows from the one up-left of the block at (x, y). Where the picture has no such unit it is 0, which is not done.
fn word_near(w: usize, h: usize, words: &[u32], x: Pel, y: Pel, a: usize, b: usize) -> u32
    requires { Reach w h words.now x.0 y.0 a b }
    ensures { result ≡ word_near w h words.now x.0 y.0 a b }
{
    let u = def::pel2scu(x).0 + a;
    let v = def::pel2scu(y).0 + b;
    if v == 0 {
        return 0;
    }
    if h / 4 < v {
        return 0;
    }
    if u == 0 {
        return 0;
    }
    if w / 4 < u {
        return 0;
    }
    let at = (v - 1) * (w / 4) + (u - 1);
    words[at]
}

// Whether that unit is done.
fn done_near(w: usize, h: usize, words: &[u32], x: Pel, y: Pel, a: usize, b: usize) -> bool
    requires { Reach w h words.now x.0 y.0 a b }
    ensures { result ≡ done_of (word_near w h words.now x.0 y.0 a b) }
{
    def::get_cod(word_near(w, h, words, x, y, a, b))
}

// Whether that unit is intra.
fn intra_near(w: usize, h: usize, words: &[u32], x: Pel, y: Pel, a: usize, b: usize) -> bool
    requires { Reach w h words.now x.0 y.0 a b }
    ensures { result ≡ intra_of (word_near w h words.now x.0 y.0 a b) }
{
    def::get_if(word_near(w, h, words, x, y, a, b))
}

// IS_COD_NIF of that unit: done, and not intra.
fn cod_nif_near(w: usize, h: usize, words: &[u32], x: Pel, y: Pel, a: usize, b: usize) -> bool
    requires { Reach w h words.now x.0 y.0 a b }
    ensures { result ≡ done_not_intra (word_near w h words.now x.0 y.0 a b) }
{
    let word = word_near(w, h, words, x, y, a, b);
    def::get_cod(word) & !def::get_if(word)
}

// evc_get_avail_intra, past the checks. The low row is that of the last unit of a run of twice the side.
fn intra_neighbours(w: usize, h: usize, words: &[u32], x: Pel, y: Pel, side: usize) -> Neighbours
    requires { check (record { w = w; h = h; words = words.now; x = x.0; y = y.0; side = side }) ≡ Ok tt }
    ensures { result ≡ intra_neighbours (record { w = w; h = h; words = words.now; x = x.0; y = y.0; side = side }) }
{
    let sy = def::pel2scu(y);
    let n = side / 4;
    let left = done_near(w, h, words, x, y, 0, 1);
    let right = done_near(w, h, words, x, y, n + 1, 1);
    Neighbours {
        up: 0 < sy.0,
        left,
        right,
        up_left: done_near(w, h, words, x, y, 0, 0),
        up_right: done_near(w, h, words, x, y, n + 1, 0),
        low_left: left & done_near(w, h, words, x, y, 0, 2 * n),
        low_right: right & done_near(w, h, words, x, y, n + 1, 2 * n),
        right_up: 0 < sy.0,
    }
}

// evc_get_avail_inter, past the checks. The low row is the one below the block; above it the Rust does not ask for done.
fn inter_neighbours(w: usize, h: usize, words: &[u32], x: Pel, y: Pel, side: usize) -> Neighbours
    requires { check (record { w = w; h = h; words = words.now; x = x.0; y = y.0; side = side }) ≡ Ok tt }
    ensures { result ≡ inter_neighbours (record { w = w; h = h; words = words.now; x = x.0; y = y.0; side = side }) }
{
    let sy = def::pel2scu(y);
    let n = side / 4;
    let left = cod_nif_near(w, h, words, x, y, 0, 1);
    let right = cod_nif_near(w, h, words, x, y, n + 1, 1);
    Neighbours {
        up: (0 < sy.0) & !intra_near(w, h, words, x, y, 1, 0),
        left,
        right,
        up_left: cod_nif_near(w, h, words, x, y, 0, 0),
        up_right: cod_nif_near(w, h, words, x, y, n + 1, 0),
        low_left: left & cod_nif_near(w, h, words, x, y, 0, n + 1),
        low_right: right & cod_nif_near(w, h, words, x, y, n + 1, n + 1),
        right_up: (0 < sy.0) & !intra_near(w, h, words, x, y, n, 0),
    }
}

pub fn get_avail_intra(
    w: usize,
    h: usize,
    words: &[u32],
    x: Pel,
    y: Pel,
    side: usize,
) -> Result<Neighbours, Refusal>
    ensures { Gives intra_outcome
        (record { w = w; h = h; words = words.now; x = x.0; y = y.0; side = side })
        (record { reading = reading_of result }) }
{
    checked(w, h, words.len(), x, y, side)?;
    Ok(intra_neighbours(w, h, words, x, y, side))
}

pub fn get_avail_inter(
    w: usize,
    h: usize,
    words: &[u32],
    x: Pel,
    y: Pel,
    side: usize,
) -> Result<Neighbours, Refusal>
    ensures { Gives inter_outcome
        (record { w = w; h = h; words = words.now; x = x.0; y = y.0; side = side })
        (record { reading = reading_of result }) }
{
    checked(w, h, words.len(), x, y, side)?;
    Ok(inter_neighbours(w, h, words, x, y, side))
}
