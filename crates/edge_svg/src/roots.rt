// The picture band by band and root by root: the leaves and the edges that the face's calls list, and the changes of a torn map.
use crate::svg::Pass;
use crate::{Counts, Job, Out, svg};
use decoder::Pel;
use std::io;

// A band of the picture: its rows of luma samples, and how many bands lie above.
#[derive(Clone, Copy)]
struct Band {
    rows: usize,
    above: usize,
}

impl Band {
    // Where it starts in the picture.
    fn top(&self) -> usize {
        64 * (self.above % 64)
    }
}

// The luma rows of a band: none past the last.
fn band_height(h: usize, band: usize) -> usize {
    let rows = decoder::band_rows(h, band);
    if 16 < rows {
        return 0;
    }
    4 * rows
}

// ---- a root

// The leaves of a list: x, y and side each, `top` rows further down.
fn leaves(out: &mut Out, list: &[[u16; 3]], top: usize) -> io::Result<()> {
    svg::leaves_path(&mut *out)?;
    for leaf in list {
        let [x, y, side] = *leaf;
        svg::leaf(
            &mut *out,
            x as usize,
            top.wrapping_add(y as usize),
            side as usize,
        )?;
    }
    svg::end_path(out)
}

// A root's leaves: how many there are.
fn root_leaves(out: &mut Out, job: Job, band: Band, map: &[u8], x: usize) -> io::Result<usize> {
    let mut list = [0u16; 768];
    let Ok(n) = decoder::leaves(job.w, band.rows, map, Pel(x), Pel(0), &mut list) else {
        return Ok(0);
    };
    let (all, _) = list.as_chunks::<3>();
    leaves(out, &all[..n.min(all.len())], band.top())?;
    Ok(n)
}

// A pass's edges of a list, drawn.
fn edges(out: &mut Out, pass: Pass, list: &[[u16; 2]]) -> io::Result<()> {
    svg::edges_path(&mut *out, pass)?;
    for edge in list {
        let [x, y] = *edge;
        svg::edge(&mut *out, pass, x as usize, y as usize)?;
    }
    svg::end_path(out)
}

// Their numbers, which go on after `before`.
fn numbers(out: &mut Out, pass: Pass, list: &[[u16; 2]], before: usize) -> io::Result<()> {
    let mut n = before;
    for edge in list {
        let [x, y] = *edge;
        n = n.wrapping_add(1);
        svg::order(&mut *out, pass, x as usize, y as usize, n)?;
    }
    Ok(())
}

// A root's edges of a pass, of which so many were drawn before; and how many there are now.
fn root_edges(
    out: &mut Out,
    job: Job,
    band: Band,
    map: &[u8],
    x: usize,
    pass: Pass,
    before: usize,
) -> io::Result<usize> {
    let mut list = [0u16; 512];
    let Ok(n) = decoder::root_list(
        job.w,
        band.rows,
        map,
        Pel(x),
        Pel(0),
        pass == Pass::Horizontal,
        job.limit == 5,
        16 * (band.above % 64),
        &mut list,
    ) else {
        return Ok(before);
    };
    let (all, _) = list.as_chunks::<2>();
    let listed = &all[..n.min(all.len())];
    edges(&mut *out, pass, listed)?;
    if job.numbers {
        numbers(out, pass, listed, before)?;
    }
    Ok(before.wrapping_add(n))
}

// The roots of a band.
fn roots(out: &mut Out, counts: &mut Counts, job: Job, band: Band, map: &[u8]) -> io::Result<()> {
    for i in 0..tree_file::roots_across(job.w) {
        let x = 64 * (i % 64);
        let n = root_leaves(&mut *out, job, band, map, x)?;
        counts.leaves = counts.leaves.wrapping_add(n);
        let before = counts.vertical;
        counts.vertical = root_edges(&mut *out, job, band, map, x, Pass::Vertical, before)?;
        let before = counts.horizontal;
        counts.horizontal = root_edges(&mut *out, job, band, map, x, Pass::Horizontal, before)?;
    }
    Ok(())
}

// ---- a torn band

// The block of a change of a band, and its level.
fn block_of(band: Band, root: u16, level: u16, place: u16) -> map_file::Block {
    let x = 64 * (root as usize % 64);
    map_file::block_at(x, band.top(), level as usize, place as usize)
}

// The blocks that the changes of a list are of.
fn changed(out: &mut Out, job: Job, band: Band, list: &[[u16; 5]]) -> io::Result<()> {
    for change in list {
        let [root, level, place, _, _] = *change;
        svg::changed(&mut *out, job, block_of(band, root, level, place))?;
    }
    Ok(())
}

// What their bytes were and are.
fn changes(out: &mut Out, job: Job, band: Band, list: &[[u16; 5]]) -> io::Result<()> {
    for change in list {
        let [root, level, place, old, new] = *change;
        let b = block_of(band, root, level, place);
        svg::change(&mut *out, job, b, level as usize, old, new)?;
    }
    Ok(())
}

// A band of a torn map, mended and drawn: the changes under its leaves and edges, and their bytes above.
fn torn_band(
    out: &mut Out,
    counts: &mut Counts,
    job: Job,
    band: Band,
    map: &[u8],
    mended: &mut [u8],
    list: &mut [u16],
) -> io::Result<()> {
    let Ok(n) = decoder::mend(job.w, band.rows, map, &mut *mended, &mut *list) else {
        return Ok(());
    };
    let (all, _) = list.as_chunks::<5>();
    let listed = &all[..n.min(all.len())];
    changed(&mut *out, job, band, listed)?;
    counts.changes = counts.changes.wrapping_add(n);
    roots(&mut *out, counts, job, band, mended)?;
    changes(out, job, band, listed)
}

// Room for a band's mended map and the list of its changes, of 64 roots. A call keeps the checker from looking into the array.
fn band_room() -> [u8; 65536] {
    [0u8; 65536]
}

fn list_room() -> [u16; 27200] {
    [0u16; 27200]
}

fn in_room(out: &mut Out, counts: &mut Counts, job: Job, band: Band, map: &[u8]) -> io::Result<()> {
    let across = tree_file::roots_across(job.w);
    let bytes = 1024 * across;
    let numbers = 425 * across;
    let mut mended = band_room();
    let mut list = list_room();
    torn_band(
        out,
        counts,
        job,
        band,
        map,
        &mut mended[..bytes],
        &mut list[..numbers],
    )
}

// ---- the picture

// Band by band: what was drawn.
pub(crate) fn bands(out: &mut Out, job: Job, map: &[u8]) -> io::Result<Counts> {
    let bytes = 1024 * tree_file::roots_across(job.w);
    let mut counts = Counts::default();
    for (above, part) in map.chunks_exact(bytes.max(1)).take(64).enumerate() {
        let rows = band_height(job.h, above);
        let band = Band { rows, above };
        if job.torn {
            in_room(&mut *out, &mut counts, job, band, part)?;
        } else {
            roots(&mut *out, &mut counts, job, band, part)?;
        }
    }
    Ok(counts)
}
