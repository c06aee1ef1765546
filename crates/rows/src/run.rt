// The bytes of a run of units that follow each other in a row of units: what fills a map of edge rows, and what tests one. Where all of a run are intra, or are
// what the units above them are, its bytes are known without looking at one unit after the other: motion belongs to a leaf, and most leaves are two units high or
// more. No loop has a way out at the first that fails, so that many are compared at a time.
ghost use Rattle.std.specs.Prelude.{true, ◌≡◌, ℕ, ◌+◌, ◌-◌, ◌*◌, ◌%◌, ◌≤◌, ◌<◌, eqb, length, get_or, set};
ghost use Rattle.laws.specs.Index.{pick};
ghost use Rattle.line.specs.Row.{eq_z};
ghost use Rattle.rows_rules.specs.Inside.{Lent};
ghost use Rattle.rows_rules.specs.Rule.{rule_byte, rule_map, right_bytes};
ghost use Rattle.rows_rules.specs.Runs.{same_from, same_flags, flags_from, units_from, all_intra, bytes_from, self_row, first_byte, right_run, Run, RightBelow, FirstOf, Stored};

use def::Scu;
use row::{row_at, rows_at};

fn same_number(a: i16, b: i16) -> bool
    ensures { result ≡ eq_z a b }
{
    a == b
}

fn same_ref(a: i8, b: i8) -> bool
    ensures { result ≡ eq_z a b }
{
    a == b
}

// Whether n numbers of motion from `at` on are those from `from` on.
fn same_motion(motion: &[i16], at: usize, from: usize, n: usize) -> bool
    requires { (at + n ≤ length motion.now) × (from + n ≤ length motion.now) }
    ensures { result ≡ same_from motion.now at from n }
{
    let mut ok = true;
    for j in 0..n {
        ok = ok & same_number(motion[at + j], motion[from + j]);
    }
    ok
}

// And n references.
fn same_refs(refs: &[i8], at: usize, from: usize, n: usize) -> bool
    requires { (at + n ≤ length refs.now) × (from + n ≤ length refs.now) }
    ensures { result ≡ same_from refs.now at from n }
{
    let mut ok = true;
    for j in 0..n {
        ok = ok & same_ref(refs[at + j], refs[from + j]);
    }
    ok
}

// Whether n units from `at` on are intra.
fn all_intra(words: &[u32], at: usize, n: usize) -> bool
    requires { at + n ≤ length words.now }
    ensures { result ≡ all_intra words.now at n }
{
    let mut ok = true;
    for j in 0..n {
        ok = ok & def::get_if(words[at + j]);
    }
    ok
}

// Whether two units are both intra or both not, and both luma-coded or both not.
fn same_flags(a: u32, b: u32) -> bool
    ensures { result ≡ same_flags a b }
{
    (a / 32768 % 2 == b / 32768 % 2) & (a / 16777216 % 2 == b / 16777216 % 2)
}

// The same of n units from `at` on and those from `from` on.
fn all_same_flags(words: &[u32], at: usize, from: usize, n: usize) -> bool
    requires { (at + n ≤ length words.now) × (from + n ≤ length words.now) }
    ensures { result ≡ flags_from words.now at from n }
{
    let mut ok = true;
    for j in 0..n {
        ok = ok & same_flags(words[at + j], words[from + j]);
    }
    ok
}

// Whether n units from `at` on are what those from `from` on are, as far as a row goes by it.
fn same_units(words: &[u32], motion: &[i16], refs: &[i8], at: usize, from: usize, n: usize) -> bool
    requires { (length words.now ≤ 1048576) × (length motion.now ≡ 4 * length words.now) × (length refs.now ≡ 2 * length words.now) × (at + n ≤ length words.now) × (from + n ≤ length words.now) }
    ensures { result ≡ true → units_from words.now motion.now refs.now at from n ≡ true }
{
    if !same_refs(refs, 2 * at, 2 * from, 2 * n) {
        return false;
    }
    if !same_motion(motion, 4 * at, 4 * from, 4 * n) {
        return false;
    }
    all_same_flags(words, at, from, n)
}

// 1 where a unit lies left of column x, and else 0.
fn units_left(x: Scu) -> usize
    ensures { (result ≤ x.0) × (result ≤ 1) × (0 < x.0 → result ≡ 1) }
{
    if x.0 == 0 { 0 } else { 1 }
}

// Whether n units from k on are what those above them are, and the one left of them is, too: then each left edge lies between two units like those of the edge above.
fn as_above(
    columns: usize,
    words: &[u32],
    motion: &[i16],
    refs: &[i8],
    x: Scu,
    k: usize,
    n: usize,
) -> bool
    requires { Lent columns words.now motion.now refs.now × Run columns (length words.now) x.0 k n × (columns ≤ k) }
    ensures { result ≡ true → (j : ℕ) → j < n → rule_byte words.now motion.now refs.now columns (k + j) ≡ rule_byte words.now motion.now refs.now columns (k - columns + j) % 4 + 4 * self_row (get_or words.now (k + j) 0) }
{
    let left = units_left(x);
    let top = k - columns;
    same_units(words, motion, refs, k - left, top - left, n + left)
}

// The row between two units that are alike.
fn self_row(word: u32) -> u8
    ensures { (result ≡ self_row word) × (result ≤ 3) }
{
    if def::get_if(word) {
        return 0;
    }
    if def::get_cbfl(word) {
        return 1;
    }
    3
}

// The bytes of n intra units.
fn put_zeros(n: usize, bytes: &mut [u8])
    requires { n ≤ length bytes.old }
    ensures { FirstOf (λ (j : ℕ). 0) n bytes.old bytes.new }
{
    for j in 0..n {
        bytes[j] = 0;
    }
}

// The bytes of n units from k on that are what those above them are: their left rows are those of the bytes above.
fn put_as_above(words: &[u32], rows: &[u8], top: usize, k: usize, n: usize, bytes: &mut [u8])
    requires { (k + n ≤ length words.now) × (top + n ≤ length rows.now) × (length words.now ≤ 1048576) × (length rows.now ≤ 1048576) × (n ≤ length bytes.old) }
    ensures { FirstOf (λ (j : ℕ). get_or rows.now (top + j) 0 % 4 + 4 * self_row (get_or words.now (k + j) 0)) n bytes.old bytes.new }
{
    for j in 0..n {
        bytes[j] = rows[top + j] % 4 + 4 * self_row(words[k + j]);
    }
}

// The row of unit k's left edge, where k stands in the first row of units: only the first of them has none left of it. No unit lies above them, so it is their byte.
fn first_byte(words: &[u32], motion: &[i16], refs: &[i8], k: usize) -> u8
    ensures { result ≡ first_byte words.now motion.now refs.now k }
{
    if k == 0 {
        return 0;
    }
    row_at(words, motion, refs, k, k - 1) as u8
}

// The bytes of n units from k on, all in the first row, one after the other.
fn put_first(words: &[u32], motion: &[i16], refs: &[i8], k: usize, n: usize, bytes: &mut [u8])
    requires { (k + n ≤ length words.now) × (n ≤ length bytes.old) }
    ensures { FirstOf (λ (j : ℕ). first_byte words.now motion.now refs.now (k + j)) n bytes.old bytes.new }
{
    for j in 0..n {
        bytes[j] = first_byte(words, motion, refs, k + j);
    }
}

// n bytes of the rows of their left and top edges.
fn put_joined(left: &[u8], top: &[u8], n: usize, bytes: &mut [u8])
    requires { (n ≤ length left.now) × (n ≤ length top.now) × (n ≤ length bytes.old) × ((j : ℕ) → j < n → get_or left.now j 0 ≤ 3) × ((j : ℕ) → j < n → get_or top.now j 0 ≤ 3) }
    ensures { FirstOf (λ (j : ℕ). 4 * get_or top.now j 0 + get_or left.now j 0) n bytes.old bytes.new }
{
    for j in 0..n {
        bytes[j] = 4 * top[j] + left[j];
    }
}

// The first unit of a row has none left of it: what lies before it is the last of the row above.
fn clear_first(x: Scu, left: &mut [u8])
    requires { 0 < length left.old }
    ensures { left.new ≡ pick (eqb x.0 0) (set left.old 0 0) left.old }
{
    if x.0 != 0 {
        return;
    }
    left[0] = 0;
}

// The bytes of n units from k on, below the first row, one side after the other.
fn put_sides(
    columns: usize,
    words: &[u32],
    motion: &[i16],
    refs: &[i8],
    x: Scu,
    k: usize,
    n: usize,
    bytes: &mut [u8],
)
    requires { Lent columns words.now motion.now refs.now × Run columns (length words.now) x.0 k n × (columns ≤ k) × (n ≤ 128) × (n ≤ length bytes.old) }
    ensures { FirstOf (λ (j : ℕ). rule_byte words.now motion.now refs.now columns (k + j)) n bytes.old bytes.new }
{
    let mut left = [0u8; 128];
    let mut top = [0u8; 128];
    rows_at(words, motion, refs, k, k - 1, n, &mut left);
    rows_at(words, motion, refs, k, k - columns, n, &mut top);
    clear_first(x, &mut left);
    put_joined(&left, &top, n, bytes)
}

// The bytes of a run: n units from k on, which stands in column x. The map is right up to k. The edges of an intra unit have row 0.
fn put_run(
    columns: usize,
    words: &[u32],
    motion: &[i16],
    refs: &[i8],
    rows: &[u8],
    x: Scu,
    k: usize,
    n: usize,
    bytes: &mut [u8],
)
    requires { Lent columns words.now motion.now refs.now × (length rows.now ≡ length words.now) × Run columns (length words.now) x.0 k n × (n ≤ 128) × (n ≤ length bytes.old) }
    ensures { (RightBelow words.now motion.now refs.now columns rows.now k → FirstOf (λ (j : ℕ). rule_byte words.now motion.now refs.now columns (k + j)) n bytes.old bytes.new) × (length bytes.new ≡ length bytes.old) }
{
    if all_intra(words, k, n) {
        put_zeros(n, bytes);
        return;
    }
    if k < columns {
        put_first(words, motion, refs, k, n, bytes);
        return;
    }
    if as_above(columns, words, motion, refs, x, k, n) {
        put_as_above(words, rows, k - columns, k, n, bytes);
        return;
    }
    put_sides(columns, words, motion, refs, x, k, n, bytes)
}

// How long a run from column x is: at most 128, in the row and in the map.
fn run_length(columns: usize, x: Scu, rest: usize) -> usize
    requires { (x.0 < columns) × (0 < rest) }
    ensures { (0 < result) × (x.0 + result ≤ columns) × (result ≤ rest) × (result ≤ 128) }
{
    if rest < columns - x.0 {
        if rest < 128 {
            return rest;
        }
        return 128;
    }
    if columns - x.0 < 128 {
        return columns - x.0;
    }
    128
}

// ---- a map filled

// n bytes into the map, from k on.
fn store(bytes: &[u8], k: usize, n: usize, rows: &mut [u8])
    requires { (n ≤ length bytes.now) × (k + n ≤ length rows.old) }
    ensures { Stored bytes.now k n rows.old rows.new }
{
    for j in 0..n {
        rows[k + j] = bytes[j];
    }
}

// Every unit's byte.
// kept: how long a run is decides where the next one starts, so that no range counts the turns.
pub(crate) fn fill(columns: usize, words: &[u32], motion: &[i16], refs: &[i8], rows: &mut [u8])
    requires { Lent columns words.now motion.now refs.now × (length rows.old ≡ length words.now) }
    ensures { rows.new ≡ rule_map words.now motion.now refs.now columns (length rows.old) }
{
    let size = rows.len();
    let mut bytes = [0u8; 128];
    let mut k = 0;
    while k < size {
        let x = Scu(k % columns);
        let n = run_length(columns, x, size - k);
        put_run(columns, words, motion, refs, &*rows, x, k, n, &mut bytes);
        store(&bytes, k, n, &mut *rows);
        k += n;
    }
}

// ---- a map tested

// Whether n bytes of the map from k on are these.
fn same_bytes(bytes: &[u8], k: usize, n: usize, rows: &[u8]) -> bool
    requires { (n ≤ length bytes.now) × (k + n ≤ length rows.now) }
    ensures { result ≡ bytes_from bytes.now k n rows.now }
{
    let mut ok = true;
    for j in 0..n {
        ok = ok & (rows[k + j] == bytes[j]);
    }
    ok
}

// Whether the bytes of a run are right, where all before it are.
fn run_right(
    columns: usize,
    words: &[u32],
    motion: &[i16],
    refs: &[i8],
    rows: &[u8],
    x: Scu,
    k: usize,
    n: usize,
) -> bool
    requires { Lent columns words.now motion.now refs.now × (length rows.now ≡ length words.now) × Run columns (length words.now) x.0 k n × (n ≤ 128) }
    ensures { RightBelow words.now motion.now refs.now columns rows.now k → result ≡ right_run words.now motion.now refs.now columns rows.now k n }
{
    let mut bytes = [0u8; 128];
    put_run(columns, words, motion, refs, rows, x, k, n, &mut bytes);
    same_bytes(&bytes, k, n, rows)
}

// Whether every byte is right: a map that is lent is right but for an error.
// kept: how long a run is decides where the next one starts, so that no range counts the turns.
pub(crate) fn all_right(
    columns: usize,
    words: &[u32],
    motion: &[i16],
    refs: &[i8],
    rows: &[u8],
) -> bool
    requires { Lent columns words.now motion.now refs.now × (length rows.now ≡ length words.now) }
    ensures { result ≡ right_bytes words.now motion.now refs.now columns rows.now }
{
    let size = rows.len();
    let mut ok = true;
    let mut k = 0;
    while k < size {
        let x = Scu(k % columns);
        let n = run_length(columns, x, size - k);
        ok = ok & run_right(columns, words, motion, refs, rows, x, k, n);
        k += n;
    }
    ok
}
