// Room for a frame's bytes and planes. The small room has a frame of 262,144 luma samples, and fits the stack that every program has. The large one has a
// frame of 4096 by 4096, and needs a stack of 256 megabytes, which bin/program asks for.
ghost use Rattle.std.specs.Prelude.{◌≡◌, ◌+◌, ◌*◌, ◌≤◌, ◌↔◌, IsTrue};

use crate::stop::with_note;
use crate::stream::{Task, all};
use crate::{Header, Picture};
use files::Source;
use say::Stop;

// ---- how large they are

pub const SMALL_BYTES: usize = 786438;

pub const SMALL_LUMA: usize = 262144;

pub const SMALL_CHROMA: usize = 65536;

pub const LARGE_BYTES: usize = 50331654;

pub const LARGE_LUMA: usize = 16777216;

pub const LARGE_CHROMA: usize = 4194304;

// A frame's lengths: its bytes, and the samples of its planes, u and v having the same.
#[derive(Clone, Copy)]
pub struct Lengths {
    pub size: usize,
    pub luma: usize,
    pub chroma: usize,
    ghost in_large: { (luma ≤ 16777216) × (chroma ≤ 4194304) },
    ghost of_planes: { size ≡ 6 + 2 * luma + 4 * chroma },
}

impl Lengths {
    // Whether the small room holds the frame.
    pub fn is_small(self) -> bool
        ensures { IsTrue result ↔ ((self.luma ≤ SMALL_LUMA) × (self.chroma ≤ SMALL_CHROMA)) }
    {
        (self.luma <= SMALL_LUMA) & (self.chroma <= SMALL_CHROMA)
    }
}

// None where a side is over 4096.
pub fn lengths_of(w: usize, h: usize) -> Option<Lengths> {
    if (4096 < w) || (4096 < h) {
        return None;
    }
    let luma = w * h;
    let chroma = (w / 2) * (h / 2);
    let size = 6 + 2 * luma + 4 * chroma;
    Some(Lengths { size, luma, chroma })
}

// ---- all frames of a file, in such a room

// The arrays stay in a frame of their own: a function that took the large ones into its own would need the room at each call.
#[inline(never)]
fn in_room<const BYTES: usize, const LUMA: usize, const CHROMA: usize>(
    rt: &HostRuntime,
    file: &mut Source,
    task: Task,
    header: Header,
    n: Lengths,
) -> Result<(), Stop>
    requires holds { (n.size ≤ BYTES) × (n.luma ≤ LUMA) × (n.chroma ≤ CHROMA) }
    requires in_memory { (BYTES ≤ LARGE_BYTES) × (LUMA ≤ LARGE_LUMA) × (CHROMA ≤ LARGE_CHROMA) }
{
    let mut bytes = [0u8; BYTES];
    let mut y = [0u16; LUMA];
    let mut u = [0u16; CHROMA];
    let mut v = [0u16; CHROMA];
    let size = n.size;
    let luma = n.luma;
    let chroma = n.chroma;
    let mut picture = Picture {
        w: header.w,
        h: header.h,
        y: &mut y[..luma],
        u: &mut u[..chroma],
        v: &mut v[..chroma],
    };
    all(
        rt,
        file,
        task,
        header.next,
        &mut picture,
        &mut bytes[..size],
    )
}

// The frames of the file that the first argument names, behind its header.
pub fn frames(rt: &HostRuntime, file: &mut Source, task: Task, header: Header) -> Result<(), Stop> {
    let n = lengths_of(header.w, header.h).ok_or(Stop::Failed)?;
    if n.is_small() {
        return in_room::<SMALL_BYTES, SMALL_LUMA, SMALL_CHROMA>(rt, file, task, header, n);
    }
    let came = in_room::<LARGE_BYTES, LARGE_LUMA, LARGE_CHROMA>(rt, file, task, header, n);
    with_note(
        rt,
        came,
        b"(the picture is large: its frames are read in a room of 100 megabytes)",
    )
}
