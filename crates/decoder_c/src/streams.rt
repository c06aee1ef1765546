// YUV4MPEG2 streams: a header, a frame, and the first frame of a stream.
ghost use Rattle.std.specs.Prelude.{◌≡◌};
ghost use Rattle.laws.specs.Call.{Gives};
ghost use Rattle.y4m_header.specs.ReadCall as heading;
ghost use Rattle.y4m_header_out.specs.WriteCall as writing;
ghost use Rattle.y4m_frame.specs.ReadCall as framing;
ghost use Rattle.y4m_frame_out.specs.WriteCall as drawing;
ghost use Rattle.y4m.specs.Import as importing;
ghost use Rattle.decoder_c.specs.Flags.{format_of};
ghost use Rattle.decoder_c.specs.Streams.{heading_of, framed_of};

use crate::{format_of, number_of};
use def::Refusal;
use y4m_header::Header;
use y4m_rules::Misread;

// ---- answers in numbers: a value is 0 where refused

#[derive(Drop)]
struct Heading {
    number: u8,
    at: usize,
    w: usize,
    h: usize,
    f: usize,
    g: usize,
    a: usize,
    b: usize,
    next: usize,
}

#[derive(Drop)]
struct Framed {
    number: u8,
    at: usize,
    next: usize,
}

fn header_numbers(r: Result<Header, Misread>) -> Heading
    ensures { heading_of result ≡ heading.reading_of r }
{
    match r {
        Ok(p) => Heading {
            number: 0,
            at: 0,
            w: p.w,
            h: p.h,
            f: p.f,
            g: p.g,
            a: p.a,
            b: p.b,
            next: p.next,
        },
        Err(m) => Heading {
            number: def::refusal_number(m.refusal),
            at: m.at,
            w: 0,
            h: 0,
            f: 0,
            g: 0,
            a: 0,
            b: 0,
            next: 0,
        },
    }
}

fn frame_numbers(r: Result<usize, Misread>) -> Framed
    ensures { framed_of result ≡ framing.reading_of r }
{
    match r {
        Ok(next) => Framed {
            number: 0,
            at: 0,
            next,
        },
        Err(m) => Framed {
            number: def::refusal_number(m.refusal),
            at: m.at,
            next: 0,
        },
    }
}

// ---- the calls

#[unsafe(no_mangle)]
pub extern "C" fn lomsakeun_read_header(
    s: &[u8],
    w: &mut usize,
    h: &mut usize,
    f: &mut usize,
    g: &mut usize,
    a: &mut usize,
    b: &mut usize,
    next: &mut usize,
    at: &mut usize,
) -> u8
    ensures { Gives heading.outcome
        (record { input = s.now })
        (record { reading = record { number = result; at = at.new; w = w.new; h = h.new; f = f.new; g = g.new; a = a.new; b = b.new; next = next.new } }) }
{
    let seen = header_numbers(y4m_header::read_header(s));
    *w = seen.w;
    *h = seen.h;
    *f = seen.f;
    *g = seen.g;
    *a = seen.a;
    *b = seen.b;
    *next = seen.next;
    *at = seen.at;
    seen.number
}

#[unsafe(no_mangle)]
pub extern "C" fn lomsakeun_write_header(
    colour: bool,
    w: usize,
    h: usize,
    f: usize,
    g: usize,
    a: usize,
    b: usize,
    out: &mut [u8],
    count: &mut usize,
) -> u8
    ensures { Gives writing.outcome
        (record { format = format_of colour; w = w; h = h; f = f; g = g; a = a; b = b; out = out.old })
        (record { reading = record { number = result; count = count.new }; out = out.new }) }
{
    let written = y4m_header_out::write_header(format_of(colour), w, h, f, g, a, b, out);
    *count = written.unwrap_or(0);
    number_of(written)
}

#[unsafe(no_mangle)]
pub extern "C" fn lomsakeun_read_frame(
    s: &[u8],
    place: usize,
    w: usize,
    h: usize,
    y: &mut [u16],
    u: &mut [u16],
    v: &mut [u16],
    next: &mut usize,
    at: &mut usize,
) -> u8
    ensures { Gives framing.outcome
        (record { input = s.now; at = place; w = w; h = h; y = y.old; u = u.old; v = v.old })
        (record { reading = record { number = result; at = at.new; next = next.new }; y = y.new; u = u.new; v = v.new }) }
{
    let seen = frame_numbers(y4m_frame::read_frame(s, place, w, h, y, u, v));
    *next = seen.next;
    *at = seen.at;
    seen.number
}

#[unsafe(no_mangle)]
pub extern "C" fn lomsakeun_write_frame(
    colour: bool,
    w: usize,
    h: usize,
    y: &[u16],
    u: &[u16],
    v: &[u16],
    out: &mut [u8],
) -> u8
    ensures { Gives drawing.outcome
        (record { format = format_of colour; w = w; h = h; y = y.now; u = u.now; v = v.now; out = out.old })
        (record { number = result; out = out.new }) }
{
    def::answer_number(y4m_frame_out::write_frame(format_of(colour), w, h, y, u, v, out))
}

#[unsafe(no_mangle)]
pub extern "C" fn lomsakeun_import_frame(
    s: &[u8],
    y: &mut [u16],
    u: &mut [u16],
    v: &mut [u16],
    w: &mut usize,
    h: &mut usize,
    f: &mut usize,
    g: &mut usize,
    a: &mut usize,
    b: &mut usize,
    next: &mut usize,
    at: &mut usize,
) -> u8
    ensures { Gives importing.outcome
        (record { input = s.now; y = y.old; u = u.old; v = v.old })
        (record { reading = record { number = result; at = at.new; w = w.new; h = h.new; f = f.new; g = g.new; a = a.new; b = b.new; next = next.new }; y = y.new; u = u.new; v = v.new }) }
{
    let seen = header_numbers(y4m::import_frame(s, y, u, v));
    *w = seen.w;
    *h = seen.h;
    *f = seen.f;
    *g = seen.g;
    *a = seen.a;
    *b = seen.b;
    *next = seen.next;
    *at = seen.at;
    seen.number
}
