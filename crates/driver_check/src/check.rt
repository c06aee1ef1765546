// What the driver refuses, and in which order: 1, 2, then 4 or 5 as the walk meets them, 13, 9, 6, 7.
ghost use Rattle.std.specs.Prelude.{◌≡◌, ◌+◌, ◌*◌, ◌≤◌, length};
ghost use Rattle.def.proofs.Sizes.{Sized};
ghost use Rattle.split.specs.Stored.{leaves_from};
ghost use Rattle.driver_rules.specs.Asked.{Sides, Accepted};
ghost use Rattle.driver_rules.specs.Call.{colour_length, read_ok, written_ok, leaves_of, records_ok, lent_ok, data_check, check_of};
ghost use Rattle.driver_rules.specs.Records.{bytes_ok, most_mask, walked_to, first, passed};

use crate::records::{leaf_end, mask_at};
use def::{Format, Refusal};

// ---- how far the walk comes

// How far the walk has come: the leaf's number, and its place in the residual list.
#[derive(Drop)]
struct Place {
    at: usize,
    k: usize,
}

// Past the first n leaves of a list.
fn past_leaves(leaves: &[u8], list: &[u16], n: usize, from: Place) -> Place
    requires { Sides list.now n × (from.k ≤ 1048320) × (from.at ≤ 12288 * from.k) }
    ensures { (walked_to result.at result.k ≡ passed leaves.now (leaves_from list.now n) (walked_to from.at from.k)) × (result.k ≡ from.k + n) × (result.at ≤ 12288 * result.k) }
{
    let k = from.k;
    let mut at = from.at;
    for j in 0..n {
        let side = list[3 * j + 2] as usize;
        at = leaf_end(at, mask_at(leaves, k + j), side);
    }
    Place { at, k: k + n }
}

// Past all leaves of a picture. Its walk was checked: no root is refused here.
fn past_picture(w: usize, h: usize, splits: &[u8], leaves: &[u8]) -> Place
    requires { Accepted w h splits.now }
    ensures { (walked_to result.at result.k ≡ passed leaves.now (leaves_of w h splits.now) first) × (result.k ≤ 1048576) }
{
    let roots = def::roots_along(w) * def::roots_along(h);
    let mut list = [0u16; 768];
    let mut place = Place { at: 0, k: 0 };
    for i in 0..roots {
        let Ok(n) = split::root_leaves(w, h, splits, i, &mut list) else {
            return place;
        };
        place = past_leaves(leaves, &list, n, place);
    }
    place
}

// ---- the checks

// Samples of U and of V.
fn colour_length(w: usize, h: usize, format: Format) -> usize
    requires { Sized w h }
    ensures { result ≡ colour_length format w h }
{
    match format {
        Format::Grey => 0,
        Format::Colour => w / 2 * (h / 2),
    }
}

// The largest mask.
fn most_mask(format: Format) -> u8
    ensures { result ≡ most_mask format }
{
    match format {
        Format::Grey => 1,
        Format::Colour => 7,
    }
}

// Whether what is read, but the two lists, has its lengths.
fn read_ok(
    w: usize,
    h: usize,
    format: Format,
    splits: usize,
    pred_y: usize,
    pred_u: usize,
    pred_v: usize,
) -> bool
    requires { Sized w h }
    ensures { result ≡ read_ok w h format splits pred_y pred_u pred_v }
{
    let roots = def::roots_along(w) * def::roots_along(h);
    let luma = w * h;
    let chroma = colour_length(w, h, format);
    (splits == 1024 * roots) & (pred_y == luma) & (pred_u == chroma) & (pred_v == chroma)
}

// Whether what is written has its lengths.
fn written_ok(
    w: usize,
    h: usize,
    format: Format,
    y: usize,
    u: usize,
    v: usize,
    words: usize,
    modes: usize,
    keep: usize,
) -> bool
    requires { Sized w h }
    ensures { result ≡ written_ok w h format y u v words modes keep }
{
    let luma = w * h;
    let chroma = colour_length(w, h, format);
    let units = w / 4 * (h / 4);
    (y == luma)
        & (u == chroma)
        & (v == chroma)
        & (words == units)
        & (modes == units)
        & (keep == units)
}

// Whether byte b of each of the first n leaf records is at most m.
fn bytes_ok(leaves: &[u8], n: usize, b: usize, m: u8) -> bool
    requires { (4 * n ≤ length leaves.now) × (b ≤ 3) }
    ensures { result ≡ bytes_ok leaves.now n b m }
{
    let mut ok = true;
    for k in 0..n {
        ok &= leaves[4 * k + b] <= m;
    }
    ok
}

// Whether the lists are as long as the leaves ask, no mask is over the format's largest, and every keep byte is 0 or 1. The n leaves end at `at` in the residual list.
fn records_ok(format: Format, leaves: &[u8], residual: usize, at: usize, n: usize) -> bool
    requires { n ≤ 1048576 }
    ensures { result ≡ records_ok format leaves.now residual at n }
{
    if leaves.len() != 4 * n {
        return false;
    }
    let most = most_mask(format);
    (residual == at) & bytes_ok(leaves, n, 2, most) & bytes_ok(leaves, n, 3, 1)
}

// Whether every sample of the lent prediction is one of 10 bits.
fn lent_ok(pred_y: &[u16], pred_u: &[u16], pred_v: &[u16]) -> bool
    ensures { result ≡ lent_ok pred_y.now pred_u.now pred_v.now }
{
    samples::samples_ok(pred_y) & samples::samples_ok(pred_u) & samples::samples_ok(pred_v)
}

// 13, 9, 6 and 7, over all leaves.
fn data_checked(
    w: usize,
    h: usize,
    format: Format,
    splits: &[u8],
    leaves: &[u8],
    residual: usize,
    pred_y: &[u16],
    pred_u: &[u16],
    pred_v: &[u16],
) -> Result<(), Refusal>
    requires { Accepted w h splits.now }
    ensures { result ≡ data_check format leaves.now residual pred_y.now pred_u.now pred_v.now (leaves_of w h splits.now) }
{
    let end = past_picture(w, h, splits, leaves);
    let n = end.k;
    if !records_ok(format, leaves, residual, end.at, n) {
        return Err(Refusal::Record);
    }
    if !bytes_ok(leaves, n, 0, 5) {
        return Err(Refusal::Mode);
    }
    if !bytes_ok(leaves, n, 1, 51) {
        return Err(Refusal::Qp);
    }
    if !lent_ok(pred_y, pred_u, pred_v) {
        return Err(Refusal::Sample);
    }
    Ok(())
}

// 1, 2, then 4 or 5 as the walk meets them, and then the data.
pub fn checked_leaves(
    w: usize,
    h: usize,
    format: Format,
    splits: &[u8],
    leaves: &[u8],
    residual: usize,
    pred_y: &[u16],
    pred_u: &[u16],
    pred_v: &[u16],
    y: usize,
    u: usize,
    v: usize,
    words: usize,
    modes: usize,
    keep: usize,
) -> Result<(), Refusal>
    ensures { result ≡ check_of w h format splits.now leaves.now residual pred_y.now pred_u.now pred_v.now y u v words modes keep }
{
    if !def::size_ok(w, h) {
        return Err(Refusal::Size);
    }
    if !read_ok(
        w,
        h,
        format,
        splits.len(),
        pred_y.len(),
        pred_u.len(),
        pred_v.len(),
    ) {
        return Err(Refusal::Length);
    }
    if !written_ok(w, h, format, y, u, v, words, modes, keep) {
        return Err(Refusal::Length);
    }
    split::check(w, h, splits)?;
    data_checked(
        w, h, format, splits, leaves, residual, pred_y, pred_u, pred_v,
    )
}
