// The frames of both streams, in a room for the bytes of one and the planes of both.
ghost use Rattle.std.specs.Prelude.{◌≤◌};

use crate::{Job, every};
use files::Source;
use say::Stop;
use y4m_file::{
    LARGE_BYTES, LARGE_CHROMA, LARGE_LUMA, Lengths, Picture, SMALL_BYTES, SMALL_CHROMA, SMALL_LUMA,
};

// The arrays stay in a frame of their own: a function that took the large ones into its own would need the room at each call.
#[inline(never)]
fn in_room<const BYTES: usize, const LUMA: usize, const CHROMA: usize>(
    rt: &HostRuntime,
    job: Job,
    in_a: &mut Source,
    in_b: &mut Source,
    n: Lengths,
) -> Result<(), Stop>
    requires holds { (n.size ≤ BYTES) × (n.luma ≤ LUMA) × (n.chroma ≤ CHROMA) }
    requires in_memory { (BYTES ≤ 50331654) × (LUMA ≤ 16777216) × (CHROMA ≤ 4194304) }
{
    let mut bytes = [0u8; BYTES];
    let mut ya = [0u16; LUMA];
    let mut ua = [0u16; CHROMA];
    let mut va = [0u16; CHROMA];
    let mut yb = [0u16; LUMA];
    let mut ub = [0u16; CHROMA];
    let mut vb = [0u16; CHROMA];
    let size = n.size;
    let luma = n.luma;
    let chroma = n.chroma;
    let mut a = Picture {
        w: job.a.w,
        h: job.a.h,
        y: &mut ya[..luma],
        u: &mut ua[..chroma],
        v: &mut va[..chroma],
    };
    let mut b = Picture {
        w: job.b.w,
        h: job.b.h,
        y: &mut yb[..luma],
        u: &mut ub[..chroma],
        v: &mut vb[..chroma],
    };
    every(rt, job, in_a, in_b, &mut a, &mut b, &mut bytes[..size])
}

// All frames.
pub(crate) fn frames(
    rt: &HostRuntime,
    job: Job,
    in_a: &mut Source,
    in_b: &mut Source,
) -> Result<(), Stop> {
    let n = y4m_file::lengths_of(job.a.w, job.a.h).ok_or(Stop::Failed)?;
    if n.is_small() {
        return in_room::<SMALL_BYTES, SMALL_LUMA, SMALL_CHROMA>(rt, job, in_a, in_b, n);
    }
    let came = in_room::<LARGE_BYTES, LARGE_LUMA, LARGE_CHROMA>(rt, job, in_a, in_b, n);
    y4m_file::with_note(
        rt,
        came,
        b"(the pictures are large: their frames are kept in a room of 150 megabytes)",
    )
}
