// The stream's frames, in a room for their bytes and planes.
ghost use Rattle.std.specs.Prelude.{◌≤◌};

use crate::{Job, every};
use files::Source;
use say::Stop;
use y4m_file::{
    LARGE_BYTES, LARGE_CHROMA, LARGE_LUMA, Lengths, Picture, SMALL_BYTES, SMALL_CHROMA, SMALL_LUMA,
};

// The arrays stay in a frame of their own: a function that took the large ones into its own would need the room at each call.
#[inline(never)]
fn in_room<const BYTES: usize, const LUMA: usize, const CHROMA: usize>(
    rt: &HostRuntime,
    file: &mut Source,
    job: Job,
    n: Lengths,
    w: usize,
) -> Result<(), Stop>
    requires holds { (n.size ≤ BYTES) × (n.luma ≤ LUMA) × (n.chroma ≤ CHROMA) × (w ≤ 4096) }
    requires in_memory { (BYTES ≤ 50331654) × (LUMA ≤ 16777216) × (CHROMA ≤ 4194304) }
{
    let mut bytes = [0u8; BYTES];
    let mut y = [0u16; LUMA];
    let mut u = [0u16; CHROMA];
    let mut v = [0u16; CHROMA];
    let mut out = [0u8; 4096];
    let size = n.size;
    let luma = n.luma;
    let chroma = n.chroma;
    let mut picture = Picture {
        w,
        h: job.header.h,
        y: &mut y[..luma],
        u: &mut u[..chroma],
        v: &mut v[..chroma],
    };
    every(
        rt,
        file,
        job,
        &mut picture,
        &mut bytes[..size],
        &mut out[..w],
    )
}

// All frames.
pub(crate) fn frames(rt: &HostRuntime, file: &mut Source, job: Job) -> Result<(), Stop> {
    let w = job.header.w;
    let n = y4m_file::lengths_of(w, job.header.h).ok_or(Stop::Failed)?;
    if 4096 < w {
        return Err(Stop::Failed);
    }
    if n.is_small() {
        return in_room::<SMALL_BYTES, SMALL_LUMA, SMALL_CHROMA>(rt, file, job, n, w);
    }
    let came = in_room::<LARGE_BYTES, LARGE_LUMA, LARGE_CHROMA>(rt, file, job, n, w);
    y4m_file::with_note(
        rt,
        came,
        b"(the picture is large: its frames are kept in a room of 100 megabytes)",
    )
}
