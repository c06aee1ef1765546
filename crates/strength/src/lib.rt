// The strength entries of a pass, one table for the three planes, and the QP of a chroma plane, by a lent table.
// The Rust beside it: df.rs, evc_tbl_df_st and the chroma lookups into it of evc_deblock_cu_hor and evc_deblock_cu_ver.
#![tactic(auto)]

ghost use Rattle.std.specs.Prelude.{true, ◌≡◌, ℕ, ◌+◌, ◌≤◌, ◌<◌, length, get_or};
ghost use Rattle.laws.specs.Plane.{with_row};
ghost use Rattle.strength.specs.ChromaQp.{index_of, held_qp, mapped, mapped_qps, straight_qps};
ghost use Rattle.strength.specs.Entries.{rows_by, entries_of, luma_entries, entries_in};

use def::Format;

// ---- a chroma QP

// clip(-12, 57, QP + offset), and 12 more: where a table has it.
fn index_of(offset: i8, qp: u8) -> usize
    ensures { result ≡ index_of offset qp }
{
    let sum = qp as i16 + offset as i16;
    if sum < -12 {
        0
    } else if 57 < sum {
        69
    } else {
        (sum + 12) as usize
    }
}

// A mapped QP at the nearest end of 0..51.
fn held_qp(qp: i8) -> u8
    ensures { result ≡ held_qp qp }
{
    if qp < 0 {
        0
    } else if 51 < qp {
        51
    } else {
        qp as u8
    }
}

// The QP that the table maps a QP to, held; 0 where the table does not reach so far.
fn mapped(table: &[i8], offset: i8, qp: u8) -> u8
    ensures { result ≡ mapped table.now offset qp }
{
    let i = index_of(offset, qp);
    if i < table.len() {
        held_qp(table[i])
    } else {
        0
    }
}

// Those of a whole row, where the QPs' places in the table follow one another from `first` on: so the loop can be done many QPs at a time.
fn straight_qps(table: &[i8], first: usize) -> [u8; 52]
    requires { first + 52 ≤ length table.now }
    ensures { result ≡ straight_qps table.now first }
{
    let mut qps = [0u8; 52];
    for qp in 0..52 {
        qps[qp] = held_qp(table[first + qp]);
    }
    qps
}

// The same for any offset and any table, each QP by itself.
fn clipped_qps(table: &[i8], offset: i8) -> [u8; 52]
    ensures { result ≡ mapped_qps table.now offset }
{
    let mut qps = [0u8; 52];
    for qp in 0..52 {
        qps[qp] = mapped(table, offset, qp as u8);
    }
    qps
}

// Those of a whole row. A table is looked up here and nowhere else: once for each QP, and not for each entry. Where the places of QP 0 and QP 51 lie 51
// apart, those between follow one another.
fn mapped_qps(table: &[i8], offset: i8) -> [u8; 52]
    ensures { result ≡ mapped_qps table.now offset }
{
    let first = index_of(offset, 0);
    let last = index_of(offset, 51);
    if last < table.len() {
        if first <= last {
            if last - first == 51 {
                return straight_qps(table, first);
            }
        }
    }
    clipped_qps(table, offset)
}

// ---- the entries

// Copies the row at `from` to the row at `to`, for each QP the entry at the mapped one.
fn put_row(list: &mut [u8], from: usize, to: usize, qps: &[u8; 52])
    requires { (from + 52 ≤ to) × (to + 52 ≤ length list.old) × ((qp : ℕ) → get_or qps.now qp 0 ≤ 51) }
    ensures { list.new ≡ with_row 0 to 52 (λ (qp : ℕ). get_or list.old (from + get_or qps.now qp 0) 0) list.old }
{
    for qp in 0..52 {
        list[to + qp] = list[from + qps[qp] as usize];
    }
}

// A chroma plane's four rows, from `at` on: luma's at the mapped QPs.
fn put_rows(list: &mut [u8], at: usize, qps: &[u8; 52])
    requires { (208 ≤ at) × (at + 208 ≤ length list.old) × ((qp : ℕ) → get_or qps.now qp 0 ≤ 51) }
    ensures { list.new ≡ with_row 0 at 208 (rows_by list.old qps.now) list.old }
{
    for row in 0..4 {
        put_row(list, 52 * row, at + 52 * row, qps);
    }
}

// ---- two planes at the same QPs

// 1 where two QPs are the same, and else 0.
fn same(a: u8, b: u8) -> u8
    ensures { (result ≤ 1) × (result ≡ 1 → a ≡ b) }
{
    if a == b { 1 } else { 0 }
}

// Whether two rows of QPs are the same. No way out at the first that differs: so the loop can be done many QPs at a time.
fn same_qps(a: &[u8; 52], b: &[u8; 52]) -> bool
    ensures { result ≡ true → (qp : ℕ) → qp < 52 → get_or a.now qp 0 ≡ get_or b.now qp 0 }
{
    let mut alike: u8 = 0;
    for qp in 0..52 {
        alike += same(a[qp], b[qp]);
    }
    alike == 52
}

// The 208 entries from 208 on, once more from 416 on.
fn put_again(list: &mut [u8])
    requires { 624 ≤ length list.old }
    ensures { list.new ≡ with_row 0 416 208 (λ (i : ℕ). get_or list.old (208 + i) 0) list.old }
{
    list.copy_within(208..416, 416);
}

// V's rows, from 416 on: where its QPs are U's, which stand before them, these once more.
fn put_v_rows(list: &mut [u8], u: &[u8; 52], v: &[u8; 52])
    requires { (624 ≤ length list.old) × ((qp : ℕ) → get_or v.now qp 0 ≤ 51) × ((i : ℕ) → i < 208 → get_or list.old (208 + i) 0 ≡ rows_by list.old u.now i) }
    ensures { list.new ≡ with_row 0 416 208 (rows_by list.old v.now) list.old }
{
    if same_qps(u, v) {
        put_again(list);
        return;
    }
    put_rows(list, 416, v);
}

// ---- the table

// Luma's entries alone, at 52 * row + QP; 0 at the places of the chroma planes.
fn luma_entries(strengths: &[u8]) -> [u8; 624]
    ensures { result ≡ luma_entries strengths.now }
{
    let mut list = [0u8; 624];
    let n = strengths.len().min(208);
    for i in 0..n {
        list[i] = strengths[i];
    }
    list
}

// Luma's entries, then U's and V's.
fn colour_entries(
    strengths: &[u8],
    table_u: &[i8],
    u_offset: i8,
    table_v: &[i8],
    v_offset: i8,
) -> [u8; 624]
    ensures { result ≡ entries_of strengths.now table_u.now u_offset table_v.now v_offset }
{
    let mut list = luma_entries(strengths);
    let u = mapped_qps(table_u, u_offset);
    put_rows(&mut list, 208, &u);
    let v = mapped_qps(table_v, v_offset);
    put_v_rows(&mut list, &u, &v);
    list
}

// The entries of a picture, by its format: in grey no chroma entry is read, and none is made.
pub fn entries(
    format: Format,
    strengths: &[u8],
    table_u: &[i8],
    u_offset: i8,
    table_v: &[i8],
    v_offset: i8,
) -> [u8; 624]
    ensures { result ≡ entries_in format strengths.now table_u.now u_offset table_v.now v_offset }
{
    match format {
        Format::Grey => luma_entries(strengths),
        Format::Colour => colour_entries(strengths, table_u, u_offset, table_v, v_offset),
    }
}
