// The five lines of a sheet, read from its bytes: where each ends, what each has to be, and what they say. There is no Rust beside it.
#![tactic(auto)]

ghost use Rattle.std.specs.Prelude.{◌≡◌, true, ◌≤◌, length, min};
ghost use Rattle.laws.specs.Call.{Gives, all_of};
ghost use Rattle.laws.specs.Scan.{all_in};
ghost use Rattle.sheet_lines.specs.Lines.{line_of, between, digit_tests, value_from, number_line, number_after, edge_line, old_edge, splits_line, no_value, form_of, says_of};
ghost use Rattle.sheet_lines.specs.Fields.{number_by, value_by, field_of};
ghost use Rattle.sheet_lines.specs.ReadCall.{reading_of, outcome};

// The five lines, in their order.
#[derive(Clone, Copy)]
enum Kind {
    Width,
    Height,
    Limit,
    Edge,
    Splits,
}

// What the lines say, whether the sheet is old, and the digits by their places.
#[derive(Clone, Copy)]
pub struct Sheet {
    pub w: usize,
    pub h: usize,
    pub limit: usize,
    pub old: bool,
    pub from: usize,
    pub to: usize,
}

// The number of the first line that is malformed.
#[derive(Clone, Copy)]
pub struct Malformed(pub usize);

// How many bytes the first line has, without its newline.
fn line_length(s: &[u8]) -> usize
    ensures { result ≡ length (line_of s.now) }
{
    s.iter().position(|b| *b == b'\n').unwrap_or(s.len())
}

// Whether each byte lies between two.
pub fn all_between(text: &[u8], low: u8, high: u8) -> bool
    ensures { result ≡ all_in 0 (between low high) text.now }
{
    text.iter().all(|b| (low <= *b) & (*b <= high))
}

// Whether a text is a number of one to `most` digits, without leading zeros.
fn is_number(text: &[u8], most: usize) -> bool
    ensures { result ≡ all_of (digit_tests most text.now) }
{
    let n = text.len();
    if (n < 1) | (most < n) {
        return false;
    }
    ((n == 1) | (text[0] != b'0')) & all_between(text, b'0', b'9')
}

// What a number's digits come to.
fn decimal_value(text: &[u8]) -> usize
    requires { (length text.now ≤ 9) × (all_in 0 (between 48 57) text.now ≡ true) }
    ensures { result ≡ value_from 0 text.now }
{
    let mut v: usize = 0;
    for b in text {
        v = 10 * v + (*b - b'0') as usize;
    }
    v
}

// A text as a number of one to `most` digits, or to nine where `most` is larger, without leading zeros.
pub fn number_in(text: &[u8], most: usize) -> Option<usize>
    ensures { result ≡ number_by (min most 9) text.now }
{
    if is_number(text, most.min(9)) {
        Some(decimal_value(text))
    } else {
        None
    }
}

// A line of a key and a number.
fn number_of(line: &[u8], key: &[u8]) -> Option<usize>
    ensures { result ≡ value_by (number_line key.now) (number_after key.now) line.now }
{
    let digits = line.strip_prefix(key)?;
    number_in(digits, 4)
}

// The line that names whose table V reads on vertical edges: 1 where it is table 0, as in old sheets.
fn edge_of(line: &[u8]) -> Option<usize>
    ensures { result ≡ value_by edge_line old_edge line.now }
{
    if line == b"v_edge=source".as_slice() {
        return Some(1);
    }
    if line == b"v_edge=own".as_slice() {
        return Some(0);
    }
    None
}

// The line of the split digits, of which there may be none.
fn splits_of(line: &[u8]) -> Option<usize>
    ensures { result ≡ value_by splits_line no_value line.now }
{
    let digits = line.strip_prefix(b"splits=".as_slice())?;
    if all_between(digits, b'0', b'1') {
        Some(0)
    } else {
        None
    }
}

// What a line's bytes say, by which of the five it is to be: its number, or 0 where it has none.
fn value_of(line: &[u8], kind: Kind) -> Option<usize>
    ensures { result ≡ value_by (form_of kind) (says_of kind) line.now }
{
    match kind {
        Kind::Width => number_of(line, b"width="),
        Kind::Height => number_of(line, b"height="),
        Kind::Limit => number_of(line, b"tr_log2="),
        Kind::Edge => edge_of(line),
        Kind::Splits => splits_of(line),
    }
}

// What the line that starts at `at` says, and the place after its newline. A line has its newline, and that among the first 4,096 bytes.
fn line_at(s: &[u8], at: usize, kind: Kind) -> Option<(usize, usize)>
    requires { at ≤ length s.now }
    ensures { result ≡ field_of kind s.now at }
{
    let end = at + line_length(&s[at..]);
    if !((end < s.len()) & (end < 4096)) {
        return None;
    }
    let value = value_of(&s[at..end], kind)?;
    Some((value, end + 1))
}

// All five lines, and that nothing follows them.
pub fn read(input: &[u8]) -> Result<Sheet, Malformed>
    ensures { Gives outcome (record { input = input.entry.now }) (record { reading = reading_of result }) }
{
    let (w, second) = line_at(input, 0, Kind::Width).ok_or(Malformed(1))?;
    let (h, third) = line_at(input, second, Kind::Height).ok_or(Malformed(2))?;
    let (limit, fourth) = line_at(input, third, Kind::Limit).ok_or(Malformed(3))?;
    let (edge, fifth) = line_at(input, fourth, Kind::Edge).ok_or(Malformed(4))?;
    let (_, end) = line_at(input, fifth, Kind::Splits).ok_or(Malformed(5))?;
    if end < input.len() {
        return Err(Malformed(6));
    }
    Ok(Sheet {
        w,
        h,
        limit,
        old: edge == 1,
        from: fifth + 7,
        to: end - 1,
    })
}
