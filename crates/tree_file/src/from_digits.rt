// A map by its digits, as `bin/splitpack` writes it.
use crate::map_bytes;
use files::Source;
use say::Stop;

// The digits of the largest picture, 85 bits a root, and a byte more, by which a file that goes on is seen. A call keeps the checker from looking into the
// array.
fn room() -> [u8; 43521] {
    [0u8; 43521]
}

fn unpacked(
    rt: &HostRuntime,
    at: usize,
    w: usize,
    h: usize,
    digits: &[u8],
    map: &mut [u8],
) -> Result<(), Stop> {
    let placed = decoder::get_map(w, h, digits, 0, map);
    placed.answer.map_err(|refusal| map_file::refused_digits(rt, at, w, h, digits, refusal))?;
    if placed.at / 8 < digits.len() {
        words::name(rt, at);
        say::line(rt, b"the file goes on behind the map");
    }
    Ok(())
}

// The map of a picture of w by h, from the file that an argument names, put first into a room.
pub fn by_digits(
    rt: &HostRuntime,
    at: usize,
    file: &mut Source,
    w: usize,
    h: usize,
    map: &mut [u8],
) -> Result<(), Stop> {
    let mut digits = room();
    let n = files::read_full(&mut *file, &mut digits);
    if words::unreadable(rt, at, file) {
        return Err(Stop::Failed);
    }
    let bytes = map_bytes(w, h);
    if map.len() < bytes {
        words::name(rt, at);
        say::line(rt, b"there is no room for the map");
        return Err(Stop::Failed);
    }
    unpacked(rt, at, w, h, &digits[..n], &mut map[..bytes])
}
