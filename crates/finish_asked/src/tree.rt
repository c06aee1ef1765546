// The split tree, read into a room for the map of the stream's picture.
use crate::Job;
use crate::words_asked::Form;
use files::{Number, Source};
use say::Stop;
use y4m_file::Header;

// The tree of a sheet, and its limit. A sheet says a size of its own, which is to be the stream's.
fn from_sheet(
    rt: &HostRuntime,
    at: usize,
    file: &mut Source,
    header: Header,
    map: &mut [u8],
) -> Result<u8, Stop> {
    let t = tree_file::by_sheet(rt, at, file, map)?;
    if (t.w != header.w) | (t.h != header.h) {
        let across = Number(t.w);
        let down = Number(t.h);
        let w = Number(header.w);
        let h = Number(header.h);
        words::name(rt, at);
        let _ = eprintln!(rt; "the sheet's picture is {across}x{down}, the stream's {w}x{h}");
        return Err(Stop::Refused);
    }
    Ok(if t.limit == 5 { 5 } else { 6 })
}

// The tree that is asked for, and its limit. What it is refused for is told by tree_file.
pub(crate) fn read(rt: &HostRuntime, job: Job, map: &mut [u8]) -> Result<u8, Stop> {
    let tree = job.asked.tree;
    let at = tree.at;
    let w = job.header.w;
    let h = job.header.h;
    let mut file = words::open(rt, at).ok_or(Stop::Failed)?;
    match tree.form {
        Form::Sheet => return from_sheet(rt, at, &mut file, job.header, map),
        Form::Digits => tree_file::by_digits(rt, at, &mut file, w, h, map)?,
        Form::Map => tree_file::by_bytes(rt, at, &mut file, w, h, false, map)?,
    }
    Ok(job.asked.limit)
}
