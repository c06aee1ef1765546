// Room for a frame's bytes and planes and for the maps of its units. The small room has a picture of 262,144 luma samples and 256 roots, and fits the stack
// that every program has. The large one has one of 4096 by 4096. Room for the split tree has a byte more, so that a file that is too long is seen.
ghost use Rattle.std.specs.Prelude.{◌+◌, ◌*◌, ◌≤◌};

use crate::stream;
use files::Source;
use finish_asked::Job;
use finish_frame::Lent;
use say::Stop;
use y4m_file::{
    LARGE_BYTES, LARGE_CHROMA, LARGE_LUMA, Picture, SMALL_BYTES, SMALL_CHROMA, SMALL_LUMA,
};

const SMALL_UNITS: usize = 16384;

const SMALL_REFS: usize = 32768;

const SMALL_MAP: usize = 262145;

const LARGE_UNITS: usize = 1048576;

const LARGE_REFS: usize = 2097152;

const LARGE_MAP: usize = 4194305;

// The frames, by what is lent beside them. Motion and references are not looked at between intra units.
fn frames_in<
    const BYTES: usize,
    const LUMA: usize,
    const CHROMA: usize,
    const UNITS: usize,
    const REFS: usize,
>(
    rt: &HostRuntime,
    file: &mut Source,
    job: Job,
    units: usize,
    map: &[u8],
    keep: &[u8],
    table: &[i8; 70],
    entries: &[u8; 208],
) -> Result<(), Stop>
    requires frame { (6 + 48 * units ≤ BYTES) × (16 * units ≤ LUMA) × (4 * units ≤ CHROMA) }
    requires maps { (units ≤ UNITS) × (2 * units ≤ REFS) }
    requires in_memory { (BYTES ≤ 50331654) × (LUMA ≤ 16777216) × (CHROMA ≤ 4194304) × (UNITS ≤ 1048576) × (REFS ≤ 2097152) }
{
    let mut bytes = [0u8; BYTES];
    let mut y = [0u16; LUMA];
    let mut u = [0u16; CHROMA];
    let mut v = [0u16; CHROMA];
    // the word of every unit: intra, of the QP that is asked for
    let mut words = [decoder::leaf_word(true, job.asked.qp, false); UNITS];
    let motion = [0i16; CHROMA];
    let refs = [0i8; REFS];
    let mut picture = Picture {
        w: job.header.w,
        h: job.header.h,
        y: &mut y[..16 * units],
        u: &mut u[..4 * units],
        v: &mut v[..4 * units],
    };
    let lent = Lent {
        map,
        motion: &motion[..4 * units],
        refs: &refs[..2 * units],
        keep,
        table,
        entries,
    };
    let size = 6 + 48 * units;
    stream::finished(
        rt,
        file,
        job,
        &mut picture,
        &mut bytes[..size],
        &mut words[..units],
        lent,
    )
}

// What is lent beside the frames, and then the frames. The arrays stay in a frame of their own: a function that took the large ones into its own would need
// the room at each call.
#[inline(never)]
fn in_room<
    const BYTES: usize,
    const LUMA: usize,
    const CHROMA: usize,
    const UNITS: usize,
    const REFS: usize,
    const MAP: usize,
>(rt: &HostRuntime, file: &mut Source, mut job: Job, units: usize, roots: usize) -> Result<(), Stop>
    requires frame { (6 + 48 * units ≤ BYTES) × (16 * units ≤ LUMA) × (4 * units ≤ CHROMA) }
    requires maps { (units ≤ UNITS) × (2 * units ≤ REFS) × (1024 * roots ≤ MAP) }
    requires in_memory { (BYTES ≤ 50331654) × (LUMA ≤ 16777216) × (CHROMA ≤ 4194304) × (UNITS ≤ 1048576) × (REFS ≤ 2097152) × (MAP ≤ 4194305) }
{
    let mut map = [0u8; MAP];
    let mut keep = [0u8; UNITS];
    let mut table = [0i8; 70];
    let mut entries = [0u8; 208];
    job.asked.limit = finish_asked::lend(rt, job, &mut map, &mut keep, &mut table, &mut entries)?;
    frames_in::<BYTES, LUMA, CHROMA, UNITS, REFS>(
        rt,
        file,
        job,
        units,
        &map[..1024 * roots],
        &keep[..units],
        &table,
        &entries,
    )
}

// The stream.
pub(crate) fn finished(rt: &HostRuntime, file: &mut Source, job: Job) -> Result<(), Stop> {
    let units = finish_frame::units(job.header.h / 4, job.header.w);
    let roots = decoder::root_count(job.header.w, job.header.h);
    if 4096 < roots {
        return Err(Stop::Failed);
    }
    if (units <= SMALL_UNITS) && (roots <= 256) {
        return in_room::<SMALL_BYTES, SMALL_LUMA, SMALL_CHROMA, SMALL_UNITS, SMALL_REFS, SMALL_MAP>(
            rt, file, job, units, roots,
        );
    }
    let came = in_room::<LARGE_BYTES, LARGE_LUMA, LARGE_CHROMA, LARGE_UNITS, LARGE_REFS, LARGE_MAP>(
        rt, file, job, units, roots,
    );
    y4m_file::with_note(
        rt,
        came,
        b"(the picture is large: its frames are kept in a room of 120 megabytes)",
    )
}
