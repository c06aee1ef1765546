// A frame, deblocked: whole, or by bands.
ghost use Rattle.std.specs.Prelude.{◌*◌, ◌≤◌, length};

use decoder::{Banded, Bands, EdgeCounts, Format, Refusal, Settings};
use finish_asked::Job;
use y4m_file::Picture;

// What is lent beside a frame's planes and the words of its units: the split map, motion and references, the keep map, the chroma QP table and the strength
// entries.
#[derive(Clone, Copy)]
pub struct Lent<'a> {
    pub map: &'a [u8],
    pub motion: &'a [i16],
    pub refs: &'a [i8],
    pub keep: &'a [u8],
    pub table: &'a [i8; 70],
    pub entries: &'a [u8; 208],
}

// The tree's limit, no offsets, and colour where the frames are not to be taken as grey.
fn settings(job: Job) -> Settings {
    Settings {
        limit: job.asked.limit,
        u_offset: 0,
        v_offset: 0,
        format: if job.asked.grey {
            Format::Grey
        } else {
            Format::Colour
        },
    }
}

// How much of a chroma plane or table is lent: nothing of a grey picture's.
fn coloured(job: Job, n: usize) -> usize
    ensures { result ≤ n }
{
    if job.asked.grey { 0 } else { n }
}

// ---- whole

fn whole(
    job: Job,
    picture: &mut Picture,
    words: &mut [u32],
    lent: Lent,
) -> Result<EdgeCounts, Refusal> {
    let u = &mut *picture.u;
    let v = &mut *picture.v;
    let in_u = coloured(job, u.len());
    let in_v = coloured(job, v.len());
    let Lent {
        map,
        motion,
        refs,
        keep,
        table,
        entries,
    } = lent;
    let table = &table[..coloured(job, 70)];
    decoder::deblock(
        picture.w,
        picture.h,
        picture.y,
        &mut u[..in_u],
        &mut v[..in_v],
        words,
        map,
        motion,
        refs,
        keep,
        table,
        table,
        entries,
        settings(job),
    )
}

// ---- by bands

// How many units the planes and all that is lent have, a picture's at most.
fn units_in(picture: &Picture, words: &[u32], lent: Lent) -> usize
    ensures planes { (16 * result ≤ length picture.now.y.now) × (4 * result ≤ length picture.now.u.now) × (4 * result ≤ length picture.now.v.now) }
    ensures maps { (result ≤ length words.now) × (4 * result ≤ length lent.entry.motion.now) × (2 * result ≤ length lent.entry.refs.now) × (result ≤ length lent.entry.keep.now) }
    ensures in_picture { result ≤ 1048576 }
{
    let chroma = (picture.u.len() / 4).min(picture.v.len() / 4);
    let planes = (picture.y.len() / 16).min(chroma);
    let maps = words.len().min(lent.keep.len()).min(1048576);
    let moves = (lent.motion.len() / 4).min(lent.refs.len() / 2);
    planes.min(maps).min(moves)
}

// How many units so many rows of units have in a picture of width w; 0 for more rows than a picture has, or a width that no picture has.
pub fn units(rows: usize, w: usize) -> usize
    ensures { result ≤ 1048576 }
{
    if (1024 < rows) || (4096 < w) {
        return 0;
    }
    rows * (w / 4)
}

// A band, with the band above it: its units by their places in the picture, and their chroma samples; and its own split bytes.
#[derive(Drop)]
struct Part {
    from: usize,
    to: usize,
    chroma_from: usize,
    chroma_to: usize,
    map_from: usize,
    map_to: usize,
}

// The part of a band; no more than there is, of units and of split bytes.
fn part_of(job: Job, band: usize, units_there: usize, map: usize) -> Part
    requires { units_there ≤ 1048576 }
    ensures units { (result.from ≤ result.to) × (result.to ≤ units_there) }
    ensures chroma { (result.chroma_from ≤ result.chroma_to) × (result.chroma_to ≤ 4 * result.to) }
    ensures splits { (result.map_from ≤ result.map_to) × (result.map_to ≤ map) }
{
    let w = job.header.w;
    let h = job.header.h;
    let first = 16 * (band % 64);
    let start = first.saturating_sub(decoder::rows_above(band));
    let after = first.wrapping_add(decoder::band_rows(h, band));
    let to = units(after, w).min(units_there);
    let from = units(start, w).min(to);
    let chroma_to = coloured(job, 4 * to);
    let row = 4 * first;
    let map_to = tree_file::map_bytes(w, h.min(row + 64)).min(map);
    Part {
        from,
        to,
        chroma_from: chroma_to.min(4 * from),
        chroma_to,
        map_from: tree_file::map_bytes(w, row).min(map_to),
        map_to,
    }
}

// The band that comes next, of a whole picture, with its part of the planes and of each map.
fn one_band(
    job: Job,
    position: Bands,
    band: usize,
    picture: &mut Picture,
    words: &mut [u32],
    lent: Lent,
) -> Banded {
    let there = units_in(picture, words, lent);
    let Lent {
        map,
        motion,
        refs,
        keep,
        table,
        entries,
    } = lent;
    let part = part_of(job, band, there, map.len());
    let table = &table[..coloured(job, 70)];
    let y = &mut *picture.y;
    let u = &mut *picture.u;
    let v = &mut *picture.v;
    position.deblock_band(
        band,
        job.header.w,
        job.header.h,
        &mut y[16 * part.from..16 * part.to],
        &mut u[part.chroma_from..part.chroma_to],
        &mut v[part.chroma_from..part.chroma_to],
        &mut words[part.from..part.to],
        &map[part.map_from..part.map_to],
        &motion[4 * part.from..4 * part.to],
        &refs[2 * part.from..2 * part.to],
        &keep[part.from..part.to],
        table,
        table,
        entries,
        settings(job),
    )
}

// Band by band from the top, of the 64 that the highest picture has.
fn by_bands(
    job: Job,
    picture: &mut Picture,
    words: &mut [u32],
    lent: Lent,
) -> Result<EdgeCounts, Refusal> {
    let mut position = Bands::first();
    let mut all = EdgeCounts {
        vertical: 0,
        horizontal: 0,
    };
    for band in 0..64 {
        if decoder::band_rows(job.header.h, band) == 0 {
            break;
        }
        let banded = one_band(job, position, band, picture, words, lent);
        let counts = banded.counts?;
        all.vertical = all.vertical.wrapping_add(counts.vertical);
        all.horizontal = all.horizontal.wrapping_add(counts.horizontal);
        position = banded.next;
    }
    Ok(all)
}

// ---- either way

pub(crate) fn finished(
    job: Job,
    picture: &mut Picture,
    words: &mut [u32],
    lent: Lent,
) -> Result<EdgeCounts, Refusal> {
    if job.asked.bands {
        return by_bands(job, picture, words, lent);
    }
    whole(job, picture, words, lent)
}
