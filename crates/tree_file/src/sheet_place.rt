// Where a sheet is refused: its line and character, both from 1 on, and of a digit its root and its block.
use crate::from_sheet::put_digits;
use files::Number;

// A line and a character of it.
fn tell_character(rt: &HostRuntime, line: usize, character: usize) {
    let _ = eprint!(rt; "line {}, character {}", Number(line), Number(character));
}

// ---- a line that is malformed

// A line of a text, from 1 on, without its newline: nothing past the last.
fn line_of(input: &[u8], line: usize) -> &[u8] {
    input
        .split(|b| *b == b'\n')
        .nth(line.saturating_sub(1))
        .unwrap_or(&[])
}

// Whether a line cannot have a byte at a place: where the key goes on it is the key's, and behind the key one between two.
fn departs_at(key: &[u8], low: u8, high: u8, i: usize, b: u8) -> bool {
    match key.get(i) {
        Some(k) => b != *k,
        None => (b < low) | (high < b),
    }
}

// The place of the first character that a line cannot have.
fn departs(line: &[u8], key: &[u8], low: u8, high: u8) -> usize {
    for (i, b) in line.iter().enumerate() {
        if departs_at(key, low, high, i, *b) {
            return i;
        }
    }
    line.len()
}

// The same, by which of the five it is to be. Behind the fourth's words comes nothing.
fn departs_in(text: &[u8], line: usize) -> usize {
    match line {
        1 => departs(text, b"width=", b'0', b'9'),
        2 => departs(text, b"height=", b'0', b'9'),
        3 => departs(text, b"tr_log2=", b'0', b'9'),
        4 => departs(text, b"v_edge=own", 1, 0),
        5 => departs(text, b"splits=", b'0', b'1'),
        _ => 0,
    }
}

// What the line has to be.
fn asked(line: usize) -> &'static str {
    match line {
        1 => "'width=' and one to four digits are asked for",
        2 => "'height=' and one to four digits are asked for",
        3 => "'tr_log2=' and one to four digits are asked for",
        4 => "'v_edge=own' is asked for",
        5 => "'splits=' and digits 0 and 1 are asked for",
        _ => "nothing is asked for behind the fifth line",
    }
}

fn tell_line(rt: &HostRuntime, input: &[u8], line: usize) {
    let at = departs_in(line_of(input, line), line);
    tell_character(rt, line, at.wrapping_add(1));
    let _ = eprint!(rt; ": {}: ", asked(line));
}

// ---- a digit

// The digit of a picture of w by h that is refused: it stands in the fifth line, behind seven characters.
fn tell_digit(rt: &HostRuntime, w: usize, h: usize, digits: &[u8]) {
    let mut bits = [0u8; 512];
    put_digits(digits, &mut bits);
    match map_file::behind(w, h, &bits, digits.len()) {
        Ok(end) => {
            tell_character(rt, 5, end.wrapping_add(8));
            let _ = eprint!(rt; ", behind the last digit: ");
        }
        Err(digit) => {
            tell_character(rt, 5, digit.at.wrapping_add(8));
            map_file::tell_refused(rt, w, digit, digits.len(), "line");
        }
    }
}

// ---- the sheet

fn tell_size(rt: &HostRuntime, w: usize, h: usize) {
    let _ = eprint!(rt;
        "lines 1 and 2, a picture of {}x{}, and a sheet's have at most 256x256: ",
        Number(w),
        Number(h)
    );
}

// Where a sheet is refused, by the number that its listing has.
pub(crate) fn tell_where(rt: &HostRuntime, input: &[u8], number: u8) {
    let sheet = match decoder::read(input) {
        Ok(sheet) => sheet,
        Err(malformed) => return tell_line(rt, input, malformed.0),
    };
    let Some(digits) = input.get(sheet.from..sheet.to) else {
        return;
    };
    match number {
        1 => tell_size(rt, sheet.w, sheet.h),
        3 => {
            let _ = eprint!(rt; "line 3: ");
        }
        20 => {
            let _ = eprint!(rt; "line 4: ");
        }
        _ => tell_digit(rt, sheet.w, sheet.h, digits),
    }
}
