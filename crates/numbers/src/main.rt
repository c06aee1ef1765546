// The paper's worked numbers, put to the face's calls and printed: what is asked, and after `gives` what comes out.
#![tactic(auto)]

ghost use Rattle.std.specs.Prelude.{◌≤◌};

use decoder::{Component, Format, Motion, Pel, Quad, Refusal, Settings};
use replay::Output;
use std::io::{self, Write};

// ---- lines

// The new sample where it is written, and else the old one.
fn written(mask: bool, new: u16, old: u16) -> u16 {
    if mask { new } else { old }
}

// The line q at an entry of the strength table.
fn filtered(out: &mut Output, component: Component, entry: u8, q: Quad) -> io::Result<()> {
    let name = match component {
        Component::Luma => "luma",
        Component::Chroma => "chroma",
    };
    let f = decoder::line(q.a, q.b, q.c, q.d, 4 * u16::from(entry));
    let m = decoder::mask_of(component, false, false);
    write!(out, "{name} entry {entry}")?;
    replay::print_all(out, &[q.a, q.b, q.c, q.d])?;
    write!(out, " gives")?;
    replay::print_all(
        out,
        &[
            written(m.a, f.a, q.a),
            written(m.b, f.b, q.b),
            written(m.c, f.c, q.c),
            written(m.d, f.d, q.d),
        ],
    )?;
    writeln!(out)
}

fn quad(a: u16, b: u16, c: u16, d: u16) -> Quad {
    Quad { a, b, c, d }
}

fn lines(out: &mut Output) -> io::Result<()> {
    filtered(out, Component::Luma, 3, quad(100, 100, 120, 120))?;
    filtered(out, Component::Chroma, 3, quad(100, 100, 120, 120))?;
    filtered(out, Component::Luma, 1, quad(100, 100, 120, 120))?;
    filtered(out, Component::Luma, 3, quad(120, 120, 100, 100))?;
    filtered(out, Component::Luma, 1, quad(100, 100, 121, 121))?;
    filtered(out, Component::Luma, 1, quad(100, 100, 122, 122))?;
    filtered(out, Component::Luma, 1, quad(100, 100, 99, 103))?;
    filtered(out, Component::Luma, 64, quad(1023, 1022, 1022, 0))
}

// ---- rows

// One reference, in list 0, and motion x there.
fn moving(x: i16) -> Motion {
    Motion {
        refi0: 0,
        refi1: -1,
        x0: x,
        y0: 0,
        x1: 0,
        y1: 0,
    }
}

fn rows(out: &mut Output) -> io::Result<()> {
    for x in [3, 4] {
        let row = decoder::motion_row(moving(x), moving(0));
        writeln!(out, "motion differing by {x} gives row {row}")?;
    }
    Ok(())
}

// ---- DC

// The number of an answer, whatever it answers.
fn number<T: Drop>(answer: Result<T, Refusal>) -> u8 {
    match answer {
        Ok(_) => 0,
        Err(refusal) => decoder::refusal_number(refusal),
    }
}

fn dc(out: &mut Output, side: usize, run: &[u16], block: &mut [u16]) -> io::Result<()> {
    let number = number(decoder::ipred_b(0, side, run, &mut *block));
    write!(out, "DC side {side} gives {number}")?;
    replay::print_all(out, block)?;
    writeln!(out)
}

fn modes(out: &mut Output) -> io::Result<()> {
    let four = [
        100, 100, 100, 100, 100, 100, 100, 100, 0, 101, 101, 101, 101, 101, 101, 101, 101,
    ];
    dc(out, 4, &four, &mut [0; 16])?;
    dc(out, 2, &[10, 11, 0, 0, 0, 12, 12, 0, 0], &mut [0; 4])
}

// ---- chroma QP

// Two points, a = 0 and a, b = 0 and b: the number, and of the table n entries from T[17] on.
fn mapped(out: &mut Output, a: i8, b: i8, n: usize) -> io::Result<()>
    requires { n ≤ 41 }
{
    let mut qp_in = [0i8; 58];
    let mut qp_out = [0i8; 58];
    qp_in[1] = a;
    qp_out[1] = b;
    let mut t0 = [0i8; 70];
    let mut t1 = [0i8; 70];
    let number = number(decoder::derived_chroma_qp_mapping_tables(
        true, true, 2, &qp_in, &qp_out, 0, &qp_in, &qp_out, &mut t0, &mut t1,
    ));
    write!(out, "chroma points give {number}")?;
    replay::print_all(out, &t0[29..29 + n])?;
    writeln!(out)
}

// ---- sizes

fn size(out: &mut Output, width: usize, words: &[u32]) -> io::Result<()> {
    let answer = decoder::get_avail_intra(width, 4, words, Pel(0), Pel(0), 4);
    writeln!(out, "width {width} gives {}", number(answer))
}

fn sizes(out: &mut Output) -> io::Result<()> {
    size(out, 4096, &[0; 1024])?;
    size(out, 4100, &[0; 1025])
}

// ---- QPs

// Deblocking a picture of one unit, of that QP.
fn unit_number(qp: u8) -> u8 {
    let mut y = [0u16; 16];
    let mut u = [0u16; 4];
    let mut v = [0u16; 4];
    let mut words = [decoder::leaf_word(true, qp, false)];
    let splits = [1u8; 1024];
    let table = [0i8; 70];
    let settings = Settings {
        limit: 6,
        u_offset: 0,
        v_offset: 0,
        format: Format::Colour,
    };
    number(decoder::deblock(
        4,
        4,
        &mut y,
        &mut u,
        &mut v,
        &mut words,
        &splits,
        &[0i16; 4],
        &[0i8; 2],
        &[0u8; 1],
        &table,
        &table,
        &[0u8; 208],
        settings,
    ))
}

fn qps(out: &mut Output) -> io::Result<()> {
    for qp in [51, 52] {
        writeln!(out, "QP {qp} gives {}", unit_number(qp))?;
    }
    Ok(())
}

fn main(rt: HostRuntime) -> io::Result<()> {
    let mut out = replay::output(&rt);
    lines(&mut out)?;
    rows(&mut out)?;
    modes(&mut out)?;
    mapped(&mut out, 5, -2, 6)?;
    mapped(&mut out, 3, -6, 4)?;
    sizes(&mut out)?;
    qps(&mut out)?;
    out.flush()
}
