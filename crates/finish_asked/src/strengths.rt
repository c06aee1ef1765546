// The strength entries: those of a file, or the baseline's, which the program lends where no file is named. The baseline's are revc's `evc_tbl_df_st`
// (src/tbl.rs), four rows of 52 entries by QP. There each row is that of intra blocks less the row's number, and none is below 0; the last is 0.
use decoder::Refusal;
use files::Source;
use say::Stop;

// The entry of intra blocks at a QP.
fn intra(qp: usize) -> u8 {
    match qp {
        0..=17 => 0,
        18..=26 => 1,
        27..=31 => 2,
        32..=34 => 3,
        35..=37 => 4,
        38 | 39 => 5,
        40 | 41 => 6,
        42 => 7,
        43 => 8,
        44 => 9,
        45 => 10,
        46 => 11,
        _ => 12,
    }
}

// The baseline's entries.
fn put_baseline(table: &mut [u8; 208]) {
    for qp in 0..52 {
        table[qp] = intra(qp);
        table[52 + qp] = intra(qp).saturating_sub(1);
        table[104 + qp] = intra(qp).saturating_sub(2);
        table[156 + qp] = 0;
    }
}

// Whether a file has a byte more.
fn goes_on(file: &mut Source) -> bool {
    let mut byte = [0u8; 1];
    match files::read_some(file, &mut byte) {
        Ok(n) => 0 < n,
        Err(_) => false,
    }
}

// Those of the file that argument `at` names.
fn put_file(rt: &HostRuntime, at: usize, table: &mut [u8; 208]) -> Result<(), Stop> {
    let mut file = words::open(rt, at).ok_or(Stop::Failed)?;
    let n = files::read_full(&mut file, table);
    let more = goes_on(&mut file);
    if words::unreadable(rt, at, &mut file) {
        return Err(Stop::Failed);
    }
    if more | (n < 208) {
        words::name(rt, at);
        let _ = eprint!(rt; "a strength table has 208 bytes: ");
        say::refused(rt, decoder::refusal_number(Refusal::Length));
        return Err(Stop::Refused);
    }
    Ok(())
}

// The entries that are lent: the baseline's where no file is named.
pub(crate) fn put(rt: &HostRuntime, at: Option<usize>, table: &mut [u8; 208]) -> Result<(), Stop> {
    match at {
        Some(at) => put_file(rt, at, table),
        None => {
            put_baseline(table);
            Ok(())
        }
    }
}

// The entry of an intra block at a QP, as it is lent.
pub fn entry(table: &[u8; 208], qp: u8) -> u8 {
    if qp < 52 { table[qp as usize] } else { 0 }
}

// The largest entry.
pub fn largest(table: &[u8; 208]) -> u8 {
    table.iter().copied().max().unwrap_or(0)
}
