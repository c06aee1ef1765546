// A map by its bytes, 1,024 a root.

use def::Refusal;
use files::Source;
use say::Stop;

// What the walk says of a map, told where it is refused. One that is to be mended may be torn.
fn judged(
    rt: &HostRuntime,
    at: usize,
    w: usize,
    h: usize,
    torn: bool,
    map: &[u8],
) -> Result<(), Stop> {
    match decoder::check(w, h, map) {
        Ok(()) => Ok(()),
        Err(Refusal::Split | Refusal::Leaf) if torn => Ok(()),
        Err(refusal) => Err(map_file::refused_map(rt, at, w, h, map, refusal)),
    }
}

// The map of a picture of w by h, from the file that an argument names, put first into a room; room for a byte more shows a file that is too long.
pub fn by_bytes(
    rt: &HostRuntime,
    at: usize,
    file: &mut Source,
    w: usize,
    h: usize,
    torn: bool,
    map: &mut [u8],
) -> Result<(), Stop> {
    let n = files::read_full(&mut *file, &mut *map);
    if words::unreadable(rt, at, file) {
        return Err(Stop::Failed);
    }
    judged(rt, at, w, h, torn, &map[..n])
}
