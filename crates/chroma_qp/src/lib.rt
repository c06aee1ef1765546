// The derived chroma QP mapping tables. The Rust beside it: `evc_derived_chroma_qp_mapping_tables` in util.rs.
// The start, a pivot's in and out and a table's entry are held as 12 more than they are: an in is then its entry's index, and none is below 0.
// So 0 holds -12 and 69 holds 57.
#![tactic(auto)]

ghost use Rattle.std.specs.Prelude.{◌≡◌, ℕ, ◌+◌, ◌-◌, ◌*◌, ◌/◌, ◌≤◌, ◌<◌, min, pos, length, get_or, set};
ghost use Rattle.laws.specs.Call.{Gives};
ghost use Rattle.laws.specs.Plane.{with_row};
ghost use Rattle.def.specs.Answers.{answer_number};
ghost use Rattle.chroma_qp_check.specs.Pivots.{entry_qp};
ghost use Rattle.chroma_qp.specs.Derived.{outcome};
ghost use Rattle.chroma_qp.specs.Held.{held_below, held_between, held_past, Entry, Checked};
ghost use Rattle.chroma_qp.specs.Mapping.{table_of};

use chroma_qp_check::{checked_points, delta_in, delta_out, start_qp};
use def::Refusal;

// ---- numbers

// The entry that is held as v, at k.
fn put(t: &mut [i8], k: usize, v: usize)
    requires { (k < length t.old) × (v ≤ 103) }
    ensures { t.new ≡ set t.old k (entry_qp v) }
{
    t[k] = v as i8 - 12;
}

// What the entry at k is held as.
fn held_at(t: &[i8], k: usize) -> usize
    requires { (k < length t.now) × Entry (get_or t.now k (pos 0)) }
    ensures { entry_qp result ≡ get_or t.now k (pos 0) }
{
    (t[k] + 12) as usize
}

// ---- entries

// What stands m entries past the entry v, on the way from a pivot's out to that of the next, n entries on: v + ((to - from)*m + n/2) / n.
// What is above 0 and what is below are each rounded down, which is toward zero.
fn between(v: usize, from: usize, to: usize, n: usize, m: usize) -> usize
    requires { (v ≤ 103) × (from ≤ v) × (from ≤ 69) × (to ≤ 69) × (0 < n) × (n ≤ 69) × (m ≤ n) }
    ensures { result ≡ held_between v from to n m }
{
    let up = to * m + n / 2;
    let down = from * m;
    if down <= up {
        v + (up - down) / n
    } else {
        v - (down - up) / n
    }
}

// The entries up to the first pivot: its out at its in, and one less a step below.
fn fill_below(t: &mut [i8], qp_in: usize, qp_out: usize)
    requires { (length t.old ≡ 70) × (qp_in ≤ 69) × (qp_out ≤ 69) }
    ensures { t.new ≡ with_row (pos 0) 0 (qp_in + 1) (λ (k : ℕ). entry_qp (held_below qp_in qp_out k)) t.old }
{
    for k in 0..qp_in + 1 {
        put(t, k, (qp_out + k).saturating_sub(qp_in));
    }
}

// The n entries past a pivot, up to the next. Where it is the next entry nothing is divided.
fn fill_between(t: &mut [i8], qp_in: usize, v: usize, from: usize, to: usize, n: usize)
    requires { (length t.old ≡ 70) × (qp_in + n ≤ 69) × (0 < n) × (from ≤ v) × (2 * v ≤ 2 * from + qp_in) × (from ≤ 69) × (to ≤ 69) }
    ensures { t.new ≡ with_row (pos 0) (qp_in + 1) n (λ (m : ℕ). entry_qp (held_between v from to n (m + 1))) t.old }
{
    if n == 1 {
        put(t, qp_in + 1, v + to - from);
        return;
    }
    for m in 0..n {
        put(t, qp_in + 1 + m, between(v, from, to, n, m + 1));
    }
}

// The entries past the last pivot: one more a step.
fn fill_past(t: &mut [i8], qp_in: usize, v: usize)
    requires { (length t.old ≡ 70) × (qp_in ≤ 69) × (v ≤ 103) }
    ensures { t.new ≡ with_row (pos 0) (qp_in + 1) (69 - qp_in) (λ (m : ℕ). entry_qp (held_past v (m + 1))) t.old }
{
    for m in 0..69 - qp_in {
        put(t, qp_in + 1 + m, (v + (m + 1)).min(69));
    }
}

// A table from its points. v is the entry at the pivot's in, from which the next part starts: it may differ from the pivot's out.
fn fill(t: &mut [i8], s: usize, count: usize, a: &[i8], b: &[i8])
    requires { (length t.old ≡ 70) × Checked s (record { count = count; a = a.now; b = b.now }) }
    ensures { t.new ≡ table_of (entry_qp s) (record { count = count; a = a.now; b = b.now }) }
{
    let mut qp_in = s + delta_in(a[0]);
    let mut qp_out = qp_in + delta_out(b[0]) - 128;
    let mut v = qp_out;
    fill_below(&mut *t, qp_in, qp_out);
    let mut j = 0;
    while j + 1 < count {
        j += 1;
        let n = delta_in(a[j]) + 1;
        let next = qp_out + n + delta_out(b[j]) - 128;
        fill_between(&mut *t, qp_in, v, qp_out, next, n);
        qp_in += n;
        v = held_at(&*t, qp_in);
        qp_out = next;
    }
    fill_past(&mut *t, qp_in, v);
}

// Both tables from their points; with `same_table` the second is a copy of the first. A refusal leaves both as they were.
pub fn derived_chroma_qp_mapping_tables(
    global_offset: bool,
    same_table: bool,
    count0: usize,
    a0: &[i8],
    b0: &[i8],
    count1: usize,
    a1: &[i8],
    b1: &[i8],
    t0: &mut [i8],
    t1: &mut [i8],
) -> Result<(), Refusal>
    ensures { Gives outcome
        (record {
          global_offset = global_offset;
          same_table = same_table;
          first = record { count = count0; a = a0.now; b = b0.now };
          second = record { count = count1; a = a1.now; b = b1.now };
          t0 = t0.old;
          t1 = t1.old;
        })
        (record { number = answer_number result; t0 = t0.new; t1 = t1.new }) }
{
    checked_points(
        global_offset,
        same_table,
        count0,
        a0,
        b0,
        count1,
        a1,
        b1,
        t0.len(),
        t1.len(),
    )?;
    let s = start_qp(global_offset);
    fill(&mut *t0, s, count0, a0, b0);
    if same_table {
        t1.copy_from_slice(&*t0);
    } else {
        fill(t1, s, count1, a1, b1);
    }
    Ok(())
}
