// The header line of a YUV4MPEG2 stream, written into a lent buffer. There is no Rust beside it.
#![tactic(auto)]

ghost use Rattle.std.specs.Prelude.{◌≡◌};
ghost use Rattle.laws.specs.Call.{Gives};
ghost use Rattle.y4m_rules.specs.Numbers.{in_range};
ghost use Rattle.y4m_header_out.specs.WriteCall as writing;

use def::{Format, Refusal};

mod print;

use print::put_header;

// Whether a number of F or A is in its range.
fn in_range(n: usize) -> bool
    ensures { result ≡ in_range n }
{
    (1 <= n) & (n <= 65535)
}

// Whether the picture has chroma, and F and A are in their range.
fn numbers_ok(format: Format, f: usize, g: usize, a: usize, b: usize) -> bool
    ensures { result ≡ writing.numbers_ok format f g a b }
{
    match format {
        Format::Grey => false,
        Format::Colour => in_range(f) & in_range(g) & in_range(a) & in_range(b),
    }
}

fn checked(
    format: Format,
    w: usize,
    h: usize,
    f: usize,
    g: usize,
    a: usize,
    b: usize,
    out: usize,
) -> Result<(), Refusal>
    ensures { result ≡ writing.check_of format w h f g a b out }
{
    if !def::size_ok(w, h) {
        return Err(Refusal::Size);
    }
    if out != 256 {
        return Err(Refusal::Length);
    }
    if !numbers_ok(format, f, g, a, b) {
        return Err(Refusal::Setting);
    }
    Ok(())
}

// The header of a picture's stream, at the start of a buffer of 256 bytes.
pub fn write_header(
    format: Format,
    w: usize,
    h: usize,
    f: usize,
    g: usize,
    a: usize,
    b: usize,
    out: &mut [u8],
) -> Result<usize, Refusal>
    ensures { Gives writing.outcome
        (record { format = format; w = w; h = h; f = f; g = g; a = a; b = b; out = out.old })
        (record { reading = writing.reading_of result; out = out.new }) }
{
    checked(format, w, h, f, g, a, b, out.len())?;
    Ok(put_header(out, w, h, f, g, a, b))
}
