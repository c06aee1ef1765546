// What is lent beside a frame, read or made once: the split map, the keep map, the chroma QP table and the strength entries.
use crate::{Job, keep, strengths, tree};
use say::Stop;

// A chroma QP for each luma QP, itself: one pivot at QP 16.
fn put_table(table: &mut [i8; 70]) -> Result<(), Stop> {
    let points = [0i8; 58];
    let mut second = [0i8; 70];
    decoder::derived_chroma_qp_mapping_tables(
        true,
        true,
        1,
        &points,
        &points,
        1,
        &points,
        &points,
        table,
        &mut second,
    )
    .map_err(|_| Stop::Refused)
}

// All that comes before the first frame: the tree, the rectangles, both tables and the header that is written. Answers the tree's transform limit.
pub fn lend(
    rt: &HostRuntime,
    job: Job,
    map: &mut [u8],
    keep: &mut [u8],
    table: &mut [i8; 70],
    entries: &mut [u8; 208],
) -> Result<u8, Stop> {
    let limit = tree::read(rt, job, map)?;
    keep::all(rt, job.header, keep)?;
    strengths::put(rt, job.asked.strengths, entries)?;
    put_table(table)?;
    y4m_file::put_header(rt, job.header).map_err(|error| say::failed(
        rt,
        b"finish: standard output",
        error,
    ))?;
    Ok(limit)
}
