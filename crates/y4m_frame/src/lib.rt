// A frame of a YUV4MPEG2 stream, read at a place of its bytes into lent planes. There is no Rust beside it.
#![tactic(auto)]

ghost use Rattle.std.specs.Prelude.{◌≡◌, ◌+◌, ◌*◌, ◌/◌, ◌≤◌, length};
ghost use Rattle.laws.specs.Call.{Gives};
ghost use Rattle.y4m_rules.specs.Frames.{frame_end, planes_ok};
ghost use Rattle.y4m_frame.specs.ReadCall as reading;

mod bytes;

use bytes::{line_ok, line_place, plane_ok, read_plane};
use def::Refusal;
use y4m_rules::Misread;

// Whether the samples of the frame at `at` are all at most 1023.
fn planes_ok(s: &[u8], at: usize, luma: usize, chroma: usize) -> bool
    requires { frame_end at luma chroma ≤ length s.now }
    ensures { result ≡ planes_ok s.now at luma chroma }
{
    let u = at + 6 + 2 * luma;
    let v = u + 2 * chroma;
    plane_ok(s, at + 6, luma) & plane_ok(s, u, chroma) & plane_ok(s, v, chroma)
}

// The frame at `at`, its line and its samples, of planes that have these lengths.
fn checked_frame(s: &[u8], at: usize, luma: usize, chroma: usize) -> Result<usize, Misread>
    requires { (luma ≤ 16777216) × (chroma ≤ 4194304) }
    ensures { result ≡ reading.frame_of s.now at luma chroma }
{
    if !line_ok(s, at) {
        return Err(Misread {
            refusal: Refusal::Stream,
            at: line_place(s, at),
        });
    }
    if s.len() < at {
        return Err(Misread::from(Refusal::Short));
    }
    let size = 6 + 2 * luma + 4 * chroma;
    if s.len() - at < size {
        return Err(Misread::from(Refusal::Short));
    }
    if !planes_ok(s, at, luma, chroma) {
        return Err(Misread::from(Refusal::Sample));
    }
    Ok(at + size)
}

fn checked(
    s: &[u8],
    at: usize,
    w: usize,
    h: usize,
    y: usize,
    u: usize,
    v: usize,
) -> Result<usize, Misread>
    ensures { result ≡ reading.check_of s.now at w h y u v }
{
    if !def::size_ok(w, h) {
        return Err(Misread::from(Refusal::Size));
    }
    let luma = w * h;
    let chroma = w / 2 * (h / 2);
    if !((y == luma) & (u == chroma) & (v == chroma)) {
        return Err(Misread::from(Refusal::Length));
    }
    checked_frame(s, at, luma, chroma)
}

// The frame at a place of a stream, into the planes of a picture of w by h: the place after it.
pub fn read_frame(
    s: &[u8],
    at: usize,
    w: usize,
    h: usize,
    y: &mut [u16],
    u: &mut [u16],
    v: &mut [u16],
) -> Result<usize, Misread>
    ensures { Gives reading.outcome
        (record { input = s.now; at = at; w = w; h = h; y = y.old; u = u.old; v = v.old })
        (record { reading = reading.reading_of result; y = y.new; u = u.new; v = v.new }) }
{
    let next = checked(s, at, w, h, y.len(), u.len(), v.len())?;
    let luma = at + 6;
    let first = luma + 2 * y.len();
    let second = first + 2 * u.len();
    read_plane(s, luma, y);
    read_plane(s, first, u);
    read_plane(s, second, v);
    Ok(next)
}
