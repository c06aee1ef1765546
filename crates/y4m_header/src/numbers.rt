// The numbers of a header: bytes up to one that ends them, digits, and two numbers with a colon between.
ghost use Rattle.std.specs.Prelude.{◌≡◌, length};
ghost use Rattle.y4m_rules.specs.Words.{before};
ghost use Rattle.y4m_rules.specs.Numbers.{is_number, is_term};
ghost use Rattle.y4m_header.specs.Values.{value_by, ratio_by};

// How many bytes stand before the first that is p or q.
pub(crate) fn count_before(s: &[u8], p: u8, q: u8) -> usize
    ensures { result ≡ length (before p q s.now) }
{
    s.iter()
        .position(|b| (*b == p) | (*b == q))
        .unwrap_or(s.len())
}

// A text as a number of one to five digits, without leading zeros.
pub(crate) fn number_in(text: &[u8]) -> Option<usize>
    ensures { result ≡ value_by is_number text.now }
{
    sheet_lines::number_in(text, 5)
}

// A text as a number from 1 to 65,535.
fn term_in(text: &[u8]) -> Option<usize>
    ensures { result ≡ value_by is_term text.now }
{
    let n = number_in(text)?;
    if (1 <= n) & (n <= 65535) {
        Some(n)
    } else {
        None
    }
}

// A text as two such numbers with a colon between.
pub(crate) fn ratio_in(text: &[u8]) -> Option<(usize, usize)>
    ensures { result ≡ ratio_by text.now }
{
    let colon = count_before(text, b':', b':');
    if text.len() <= colon {
        return None;
    }
    let n = term_in(&text[..colon])?;
    let m = term_in(&text[colon + 1..])?;
    Some((n, m))
}
