// What the derivation of the chroma QP tables refuses, and in which order: 2, 10 in either table, 11 in either. The Rust beside it: the assertions of
// `evc_derived_chroma_qp_mapping_tables` in util.rs. The start and a pivot's in are held as 12 more than they are: an in is then its entry's index.
#![tactic(auto)]

ghost use Rattle.std.specs.Prelude.{◌≡◌, true, ◌||◌, ◌≤◌, pos, ◌+ℤ◌, length};
ghost use Rattle.laws.specs.Call.{Gives};
ghost use Rattle.laws.specs.Clip.{max_z};
ghost use Rattle.chroma_qp_check.specs.Check.{lengths_ok, points_ok, pivots_ok, Counted, check};
ghost use Rattle.chroma_qp_check.specs.Pivots.{start_of, entry_qp};

use def::Refusal;

// ---- numbers

// startQp: 16 with the global flag, else -12.
pub fn start_qp(global_offset: bool) -> usize
    ensures { (entry_qp result ≡ start_of global_offset) × (result ≤ 28) }
{
    if global_offset { 28 } else { 0 }
}

// An a, delta_qp_in_val_minus1. One below 0, which no table has that passes, is 0.
pub fn delta_in(a: i8) -> usize
    ensures { (pos result ≡ max_z (pos 0) a) × (result ≤ 127) }
{
    if a < 0 { 0 } else { a as usize }
}

// 128 more than a b, delta_qp_out_val, which may be below 0.
pub fn delta_out(b: i8) -> usize
    ensures { (pos result ≡ b +ℤ pos 128) × (result ≤ 255) }
{
    (b as i16 + 128) as usize
}

// ---- checks

fn lengths_ok(a0: usize, b0: usize, a1: usize, b1: usize, t0: usize, t1: usize) -> bool
    ensures { result ≡ lengths_ok a0 b0 a1 b1 t0 t1 }
{
    (a0 == 58) & (b0 == 58) & (a1 == 58) & (b1 == 58) & (t0 == 70) & (t1 == 70)
}

// Whether a table's count is 1..58, and no a that counts is below 0.
fn points_ok(count: usize, a: &[i8]) -> bool
    requires { length a.now ≡ 58 }
    ensures { result ≡ points_ok count a.now }
{
    if count < 1 {
        return false;
    }
    if 58 < count {
        return false;
    }
    for j in 0..count {
        if a[j] < 0 {
            return false;
        }
    }
    true
}

// Whether every pivot of a table, in and out, is within -12..57. Here an out is held as 140 more than it is, and is in range at 128..197: a b may
// take it 128 below -12.
// kept: the loop goes by the pivot's range, and ends past the last: no plainer as a `for`, which would test the range in its body.
fn pivots_ok(s: usize, count: usize, a: &[i8], b: &[i8]) -> bool
    requires { Counted s (record { count = count; a = a.now; b = b.now }) }
    ensures { result ≡ pivots_ok (entry_qp s) (record { count = count; a = a.now; b = b.now }) }
{
    let mut qp_in = s + delta_in(a[0]);
    let mut qp_out = qp_in + delta_out(b[0]);
    let mut j = 0;
    while (qp_in <= 69) & (128 <= qp_out) & (qp_out <= 197) {
        j += 1;
        if j == count {
            return true;
        }
        let n = delta_in(a[j]) + 1;
        qp_in += n;
        qp_out = qp_out - 128 + n + delta_out(b[j]);
    }
    false
}

// The same of the second table: with `same_table` its points are not read.
fn second_points_ok(same_table: bool, count: usize, a: &[i8]) -> bool
    requires { length a.now ≡ 58 }
    ensures { result ≡ (same_table || points_ok count a.now) }
{
    if same_table {
        return true;
    }
    points_ok(count, a)
}

fn second_pivots_ok(same_table: bool, s: usize, count: usize, a: &[i8], b: &[i8]) -> bool
    requires { (s ≤ 28) × (length a.now ≡ 58) × (length b.now ≡ 58) × ((same_table || points_ok count a.now) ≡ true) }
    ensures { result ≡ (same_table || pivots_ok (entry_qp s) (record { count = count; a = a.now; b = b.now })) }
{
    if same_table {
        return true;
    }
    pivots_ok(s, count, a, b)
}

// What the derivation refuses, in its order. Of the tables only the lengths are looked at.
pub fn checked_points(
    global_offset: bool,
    same_table: bool,
    count0: usize,
    a0: &[i8],
    b0: &[i8],
    count1: usize,
    a1: &[i8],
    b1: &[i8],
    t0: usize,
    t1: usize,
) -> Result<(), Refusal>
    ensures { Gives check (record {
      global_offset = global_offset;
      same_table = same_table;
      first = record { count = count0; a = a0.now; b = b0.now };
      second = record { count = count1; a = a1.now; b = b1.now };
      t0 = t0;
      t1 = t1;
    }) result }
{
    if !lengths_ok(a0.len(), b0.len(), a1.len(), b1.len(), t0, t1) {
        return Err(Refusal::Length);
    }
    if !points_ok(count0, a0) {
        return Err(Refusal::Points);
    }
    if !second_points_ok(same_table, count1, a1) {
        return Err(Refusal::Points);
    }
    let s = start_qp(global_offset);
    if !pivots_ok(s, count0, a0, b0) {
        return Err(Refusal::Pivot);
    }
    if !second_pivots_ok(same_table, s, count1, a1, b1) {
        return Err(Refusal::Pivot);
    }
    Ok(())
}
