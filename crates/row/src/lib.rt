// The strength row of the edge between two units of a picture's maps.
// The Rust beside it: df.rs, evc_get_tbl_qp_to_st.
#![tactic(auto)]

ghost use Rattle.std.specs.Prelude.{◌≡◌, ℕ, ◌+◌, ◌*◌, ◌≤◌, leb, length};
ghost use Rattle.laws.specs.Plane.{with_row};
ghost use Rattle.line.specs.Row.{eq_z, motion_row};
ghost use Rattle.df_rules.specs.Strength.{motion_at, row_by};
ghost use Rattle.row.specs.Between.{in_maps, row_in, same_refs, same_motion, There};
ghost use Rattle.row.specs.Runs.{run_in_maps, runs_in, RunThere, rows_put};

use def::{get_cbfl, get_if};
use line::{Motion, motion_row};

// Whether k is a unit of maps of these lengths.
fn in_maps(words: usize, motion: usize, refs: usize, k: usize) -> bool
    ensures { result ≡ in_maps words motion refs k }
{
    (k < words) & (k < motion / 4) & (k < refs / 2)
}

fn motion_at(motion: &[i16], refs: &[i8], k: usize) -> Motion
    requires { (4 * k + 4 ≤ length motion.now) × (2 * k + 2 ≤ length refs.now) }
    ensures { result ≡ motion_at motion.now refs.now k }
{
    let m = 4 * k;
    let r = 2 * k;
    Motion {
        refi0: refs[r],
        refi1: refs[r + 1],
        x0: motion[m],
        y0: motion[m + 1],
        x1: motion[m + 2],
        y1: motion[m + 3],
    }
}

// The row by motion.
fn by_motion(motion: &[i16], refs: &[i8], q: usize, p: usize) -> usize
    requires { (4 * q + 4 ≤ length motion.now) × (2 * q + 2 ≤ length refs.now) × (4 * p + 4 ≤ length motion.now) × (2 * p + 2 ≤ length refs.now) }
    ensures { (result ≡ motion_row (motion_at motion.now refs.now q) (motion_at motion.now refs.now p)) × (result ≤ 3) }
{
    motion_row(motion_at(motion, refs, q), motion_at(motion, refs, p))
}

fn same_ref(a: i8, b: i8) -> bool
    ensures { result ≡ eq_z a b }
{
    a == b
}

fn same_number(a: i16, b: i16) -> bool
    ensures { result ≡ eq_z a b }
{
    a == b
}

// Whether two units have the same references.
fn same_refs(refs: &[i8], q: usize, p: usize) -> bool
    requires { (2 * q + 2 ≤ length refs.now) × (2 * p + 2 ≤ length refs.now) }
    ensures { result ≡ same_refs refs.now q p }
{
    let a = 2 * q;
    let b = 2 * p;
    same_ref(refs[a], refs[b]) & same_ref(refs[a + 1], refs[b + 1])
}

// And the same motion.
fn same_motion(motion: &[i16], q: usize, p: usize) -> bool
    requires { (4 * q + 4 ≤ length motion.now) × (4 * p + 4 ≤ length motion.now) }
    ensures { result ≡ same_motion motion.now q p }
{
    let a = 4 * q;
    let b = 4 * p;
    same_number(motion[a], motion[b])
        & same_number(motion[a + 1], motion[b + 1])
        & same_number(motion[a + 2], motion[b + 2])
        & same_number(motion[a + 3], motion[b + 3])
}

// The row of the edge between the units q and p of the maps. Most units of a station's pictures move as their neighbours do: their row is 3 by two comparisons.
// The references are compared first, so that the compiler makes each of the two calls below it for references that are known to be equal in place, or not to be.
fn row_between(words: &[u32], motion: &[i16], refs: &[i8], q: usize, p: usize) -> usize
    requires { There words.now motion.now refs.now q × There words.now motion.now refs.now p }
    ensures { (result ≡ row_by words.now motion.now refs.now q p) × (result ≤ 3) }
{
    let a = words[q];
    let b = words[p];
    if get_if(a) | get_if(b) {
        return 0;
    }
    if get_cbfl(a) | get_cbfl(b) {
        return 1;
    }
    if !same_refs(refs, q, p) {
        return by_motion(motion, refs, q, p);
    }
    if same_motion(motion, q, p) {
        return 3;
    }
    by_motion(motion, refs, q, p)
}

// The same for any two numbers: 0 where one of them is no unit of the maps.
pub fn row_at(words: &[u32], motion: &[i16], refs: &[i8], q: usize, p: usize) -> usize
    ensures { (result ≡ row_in words.now motion.now refs.now q p) × (result ≤ 3) }
{
    if !in_maps(words.len(), motion.len(), refs.len(), q) {
        return 0;
    }
    if !in_maps(words.len(), motion.len(), refs.len(), p) {
        return 0;
    }
    row_between(words, motion, refs, q, p)
}

// ---- a run of units, whose places are tested once

// Whether n from k on are below `units`.
fn fits(units: usize, k: usize, n: usize) -> bool
    ensures { result ≡ leb (k + n) units }
{
    if units < n {
        return false;
    }
    k <= units - n
}

// Whether n from k on are units of maps of these lengths.
fn run_in_maps(words: usize, motion: usize, refs: usize, k: usize, n: usize) -> bool
    ensures { result ≡ run_in_maps words motion refs k n }
{
    fits(words, k, n) & fits(motion / 4, k, n) & fits(refs / 2, k, n)
}

// The rows between n units from q on and those from p on.
fn put_rows(
    words: &[u32],
    motion: &[i16],
    refs: &[i8],
    q: usize,
    p: usize,
    n: usize,
    rows: &mut [u8],
)
    requires { RunThere words.now motion.now refs.now q n × RunThere words.now motion.now refs.now p n × (n ≤ length rows.old) }
    ensures { rows.new ≡ with_row 0 0 n (λ (j : ℕ). row_by words.now motion.now refs.now (q + j) (p + j)) rows.old }
{
    for j in 0..n {
        rows[j] = row_between(words, motion, refs, q + j, p + j) as u8;
    }
}

// The same for any numbers. Where not all of them are units of the maps, or there is no room for n rows, the answer is false and nothing is written.
pub fn rows_at(
    words: &[u32],
    motion: &[i16],
    refs: &[i8],
    q: usize,
    p: usize,
    n: usize,
    rows: &mut [u8],
) -> bool
    ensures { (result ≡ runs_in (length words.now) (length motion.now) (length refs.now) (length rows.old) q p n)
        × (rows.new ≡ rows_put words.now motion.now refs.now q p n rows.old) }
{
    if rows.len() < n {
        return false;
    }
    if !run_in_maps(words.len(), motion.len(), refs.len(), q, n) {
        return false;
    }
    if !run_in_maps(words.len(), motion.len(), refs.len(), p, n) {
        return false;
    }
    put_rows(words, motion, refs, q, p, n, rows);
    true
}
