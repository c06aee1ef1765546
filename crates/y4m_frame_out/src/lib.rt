// A frame of a YUV4MPEG2 stream, written into lent bytes. There is no Rust beside it.
#![tactic(auto)]

ghost use Rattle.std.specs.Prelude.{◌≡◌, ◌≤◌};
ghost use Rattle.laws.specs.Call.{Gives};
ghost use Rattle.def.specs.Answers.{answer_number};
ghost use Rattle.def.specs.Formats.{colour_length};
ghost use Rattle.y4m_rules.specs.Frames.{colour_ok};
ghost use Rattle.y4m_frame_out.specs.WriteCall as writing;

use def::{Format, Refusal};

mod bytes;

use bytes::{put_line, put_plane};

// Samples of a chroma plane, by the chroma format.
fn chroma_length(format: Format, w: usize, h: usize) -> usize
    requires { (w ≤ 4096) × (h ≤ 4096) }
    ensures { result ≡ colour_length format w h }
{
    def::in_format(format, w / 2 * (h / 2))
}

// Whether a picture has chroma, and so a frame in this form.
fn colour_ok(format: Format) -> bool
    ensures { result ≡ colour_ok format }
{
    match format {
        Format::Grey => false,
        Format::Colour => true,
    }
}

// Whether the planes have the lengths of their format, and the bytes are those of the frame.
fn lengths_ok(format: Format, w: usize, h: usize, y: usize, u: usize, v: usize, out: usize) -> bool
    requires { (w ≤ 4096) × (h ≤ 4096) }
    ensures { result ≡ writing.lengths_ok format w h y u v out }
{
    let luma = w * h;
    let chroma = chroma_length(format, w, h);
    (y == luma) & (u == chroma) & (v == chroma) & (out == 6 + 2 * (luma + 2 * chroma))
}

fn checked_picture(
    format: Format,
    w: usize,
    h: usize,
    y: &[u16],
    u: &[u16],
    v: &[u16],
    out: usize,
) -> Result<(), Refusal>
    ensures { result ≡ writing.check_of format w h y.now u.now v.now out }
{
    if !def::size_ok(w, h) {
        return Err(Refusal::Size);
    }
    if !lengths_ok(format, w, h, y.len(), u.len(), v.len(), out) {
        return Err(Refusal::Length);
    }
    if !colour_ok(format) {
        return Err(Refusal::Setting);
    }
    if !(samples::samples_ok(y) & samples::samples_ok(u) & samples::samples_ok(v)) {
        return Err(Refusal::Sample);
    }
    Ok(())
}

// A picture's frame, into exactly its bytes.
pub fn write_frame(
    format: Format,
    w: usize,
    h: usize,
    y: &[u16],
    u: &[u16],
    v: &[u16],
    out: &mut [u8],
) -> Result<(), Refusal>
    ensures { Gives writing.outcome
        (record { format = format; w = w; h = h; y = y.now; u = u.now; v = v.now; out = out.old })
        (record { number = answer_number result; out = out.new }) }
{
    checked_picture(format, w, h, y, u, v, out.len())?;
    let luma = put_line(out);
    let first = put_plane(out, luma, y);
    let second = put_plane(out, first, u);
    put_plane(out, second, v);
    Ok(())
}
