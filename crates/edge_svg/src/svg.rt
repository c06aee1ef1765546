// The parts of the picture as SVG. Inside, a unit of length is a luma sample; the frame around it, with the legend and the scales, is in pixels.
ghost use Rattle.std.specs.Prelude.{◌*◌, ◌≤◌};

use crate::{Counts, Job, Out};
use files::Number;
use std::io;
use std::io::Write;

// A pass of deblocking, by the edges that it visits.
#[derive(Clone, Copy, PartialEq, Eq)]
pub(crate) enum Pass {
    Vertical,
    Horizontal,
}

// ---- the frame

// Pixels a sample, by the longer side, so that a picture of any size is seen whole.
fn scale_by(side: usize) -> u8
    ensures { result ≤ 24 }
{
    match side {
        0..=32 => 24,
        33..=64 => 12,
        65..=128 => 8,
        129..=256 => 4,
        257..=1024 => 2,
        _ => 1,
    }
}

// What is written inside asks for twice as many.
pub(crate) fn scale(w: usize, h: usize, written: bool) -> u8 {
    let n = scale_by(w.max(h));
    if written & (n < 24) { 2 * n } else { n }
}

// Samples in pixels.
fn pixels(job: Job, samples: usize) -> usize
    ensures { result ≤ 8191 * 255 }
{
    samples % 8192 * job.scale as usize
}

// How a part is drawn, by its class: two colours that the colour-blind tell apart, too, for both passes.
fn style(out: &mut Out) -> io::Result<()> {
    out.write_all(
        b"<style>\n\
text{font:13px sans-serif;fill:#222}\n\
.l{fill:none;stroke:#999}\n\
.v{fill:none;stroke:#d55e00;stroke-width:.5}\n\
.h{fill:none;stroke:#0072b2;stroke-width:.5}\n\
.c{fill:#ffd400;fill-opacity:.35;stroke:#7a5c00;stroke-width:.25;stroke-dasharray:.8 .5}\n\
.k{font-size:1.2px;font-weight:bold;fill:#5c4400;paint-order:stroke;stroke:#fff;stroke-width:.4}\n\
.n{font-size:1.2px;text-anchor:middle;paint-order:stroke;stroke:#fff;stroke-width:.5}\n\
.s{font-size:.75px}\n\
.x{text-anchor:middle;fill:#777;font-size:11px}\n\
.y{text-anchor:end;fill:#777;font-size:11px}\n\
</style>\n",
    )
}

// A pixel, in hundredths of a sample, but never more than a quarter.
fn thin(job: Job) -> usize {
    (100 / (job.scale as usize + 1)).min(25)
}

// The frame, and the picture's ground. A leaf's outline is as thin as can be seen.
pub(crate) fn start(out: &mut Out, job: Job) -> io::Result<()> {
    let width = Number((pixels(job, job.w) + 72).max(640));
    let height = Number(pixels(job, job.h) + 104);
    write!(
        out,
        "<svg xmlns=\"http://www.w3.org/2000/svg\" width=\"{width}\" height=\"{height}\">\n"
    )?;
    style(&mut *out)?;
    let scale = Number(usize::from(job.scale));
    let thin = Number(thin(job));
    let w = Number(job.w);
    let h = Number(job.h);
    write!(
        out,
        "<rect width=\"100%\" height=\"100%\" fill=\"#fff\"/>\n\
<g transform=\"translate(48 80) scale({scale})\" stroke-width=\"{thin}e-2\">\n\
<rect width=\"{w}\" height=\"{h}\" class=\"l\"/>\n"
    )
}

// ---- leaves and edges

pub(crate) fn leaves_path(out: &mut Out) -> io::Result<()> {
    out.write_all(b"<path class=\"l\" d=\"")
}

// The path of a pass's edges.
pub(crate) fn edges_path(out: &mut Out, pass: Pass) -> io::Result<()> {
    match pass {
        Pass::Vertical => out.write_all(b"<path class=\"v\" d=\""),
        Pass::Horizontal => out.write_all(b"<path class=\"h\" d=\""),
    }
}

pub(crate) fn end_path(out: &mut Out) -> io::Result<()> {
    out.write_all(b"\"/>\n")
}

// A leaf's outline, half a sample inside it: the edges around it stay to be seen.
// kept: here, and of an edge and its number, part by part, as `write!` over numbers by `decimal` takes twice the time.
pub(crate) fn leaf(out: &mut Out, x: usize, y: usize, side: usize) -> io::Result<()> {
    let inner = side.wrapping_sub(1);
    out.write_all(b"M")?;
    out.number(x)?;
    out.write_all(b".5 ")?;
    out.number(y)?;
    out.write_all(b".5h")?;
    out.number(inner)?;
    out.write_all(b"v")?;
    out.number(inner)?;
    out.write_all(b"h-")?;
    out.number(inner)?;
    out.write_all(b"z")
}

// An edge, with a gap at both ends: each is one of its own.
pub(crate) fn edge(out: &mut Out, pass: Pass, x: usize, y: usize) -> io::Result<()> {
    let (after_x, after_y): (&[u8], &[u8]) = match pass {
        Pass::Vertical => (b" ", b".2v3.6"),
        Pass::Horizontal => (b".2 ", b"h3.6"),
    };
    out.write_all(b"M")?;
    out.number(x)?;
    out.write_all(after_x)?;
    out.number(y)?;
    out.write_all(after_y)
}

// The place of an edge in its pass's order, at its middle. A number of more than four digits is written small, so that it keeps to its edge.
pub(crate) fn order(out: &mut Out, pass: Pass, x: usize, y: usize, n: usize) -> io::Result<()> {
    let class: &[u8] = if n < 10000 { b"n" } else { b"n s" };
    let (right, down) = match pass {
        Pass::Vertical => (0, 2),
        Pass::Horizontal => (2, 0),
    };
    out.write_all(b"<text class=\"")?;
    out.write_all(class)?;
    out.write_all(b"\" x=\"")?;
    out.number(x.wrapping_add(right))?;
    out.write_all(b"\" y=\"")?;
    out.number(y.wrapping_add(down))?;
    out.write_all(b".4\">")?;
    out.number(n)?;
    out.write_all(b"</text>\n")
}

// ---- changes

// As much of a side as lies in the picture.
fn inside(at: usize, side: usize, end: usize) -> usize {
    if end < at.wrapping_add(side) {
        return end.wrapping_sub(at);
    }
    side
}

// A block whose byte was changed.
pub(crate) fn changed(out: &mut Out, job: Job, b: map_file::Block) -> io::Result<()> {
    let width = Number(inside(b.x, b.side, job.w));
    let height = Number(inside(b.y, b.side, job.h));
    let x = Number(b.x);
    let y = Number(b.y);
    write!(
        out,
        "<rect class=\"c\" x=\"{x}\" y=\"{y}\" width=\"{width}\" height=\"{height}\"/>\n"
    )
}

// What its byte was and is; by its level in a line of its own, since a block and a part of it start at one place. What is left of a block in the picture
// has at least two lines.
pub(crate) fn change(
    out: &mut Out,
    job: Job,
    b: map_file::Block,
    level: usize,
    old: u16,
    new: u16,
) -> io::Result<()> {
    let last = inside(b.y, b.side, job.h).wrapping_sub(2);
    let line = (2 * (level % 4)).min(last);
    let x = Number(b.x);
    let y = Number(b.y.wrapping_add(line).wrapping_add(1));
    let old = Number(usize::from(old));
    let new = Number(usize::from(new));
    write!(
        out,
        "<text class=\"k\" x=\"{x}.6\" y=\"{y}.4\">{old}&#8594;{new}</text>\n"
    )
}

// ---- the scales and the legend, in pixels

// A number on a scale: the column or the row of samples that starts there.
fn mark(out: &mut Out, job: Job, down: bool, at: usize) -> io::Result<()> {
    let pixel = pixels(job, at);
    let at = Number(at);
    if down {
        let y = Number(pixel + 84);
        return write!(out, "<text class=\"y\" x=\"42\" y=\"{y}\">{at}</text>\n");
    }
    let x = Number(pixel + 48);
    write!(out, "<text class=\"x\" y=\"74\" x=\"{x}\">{at}</text>\n")
}

// Every root, and the end; a root has no number where there is no room for both.
fn scale_of(out: &mut Out, job: Job, down: bool, end: usize) -> io::Result<()> {
    for root in 0..64 {
        let at = 64 * root;
        if pixels(job, at) + 32 < pixels(job, end) {
            mark(&mut *out, job, down, at)?;
        }
    }
    mark(out, job, down, end)
}

// What the picture has: its size, the edges of both passes and the leaves.
fn legend(out: &mut Out, job: Job, drawn: Counts) -> io::Result<()> {
    let w = Number(job.w);
    let h = Number(job.h);
    let limit = Number(job.limit);
    let vertical = Number(drawn.vertical);
    let horizontal = Number(drawn.horizontal);
    let leaves = Number(drawn.leaves);
    write!(
        out,
        "<text x=\"48\" y=\"22\">{w} x {h} samples, transform limit {limit}</text>\n\
<path d=\"M54 34v16\" stroke=\"#d55e00\" stroke-width=\"4\"/>\n\
<text x=\"66\" y=\"47\">vertical edges, first pass: {vertical}</text>\n\
<path d=\"M330 42h16\" stroke=\"#0072b2\" stroke-width=\"4\"/>\n\
<text x=\"352\" y=\"47\">horizontal edges, second pass: {horizontal}</text>\n\
<rect x=\"330\" y=\"12\" width=\"12\" height=\"12\" fill=\"none\" stroke=\"#8a8a8a\"/>\n\
<text x=\"352\" y=\"22\">leaves: {leaves}</text>\n"
    )
}

// The changes, of a torn map.
fn changes(out: &mut Out, n: usize) -> io::Result<()> {
    write!(
        out,
        "<rect x=\"464\" y=\"12\" width=\"12\" height=\"12\" fill=\"#ffe98a\" stroke=\"#7a5c00\" stroke-dasharray=\"3 2\"/>\n\
<text x=\"484\" y=\"22\">split bytes mended: {}</text>\n",
        Number(n)
    )
}

// The end of the picture: what was drawn is known by now.
pub(crate) fn end(out: &mut Out, job: Job, drawn: Counts) -> io::Result<()> {
    out.write_all(b"</g>\n")?;
    scale_of(&mut *out, job, false, job.w)?;
    scale_of(&mut *out, job, true, job.h)?;
    legend(&mut *out, job, drawn)?;
    if job.torn {
        changes(&mut *out, drawn.changes)?;
    }
    out.write_all(b"</svg>\n")
}
