// Room for a map, its mended copy and the list of changes. The small room has a picture of 256 roots, 1024 by 1024, and fits the stack that every program
// has. The large one has one of 4,096 roots, 4096 by 4096, and needs 12 megabytes of stack, which bin/program asks for. Room for the map has a byte more, so
// that a file that is too long is seen.
ghost use Rattle.std.specs.Prelude.{◌≡◌, ◌+◌, ◌*◌, ◌<◌, ◌≤◌, length};

use crate::list;
use files::Source;
use say::{Done, Stop};

// A call keeps the checker from looking into the array.
fn bytes<const N: usize>() -> [u8; N]
    requires { N ≤ 8388608 }
    ensures { length result ≡ N }
{
    [0u8; N]
}

fn numbers<const N: usize>() -> [u16; N]
    requires { N ≤ 8388608 }
    ensures { length result ≡ N }
{
    [0u16; N]
}

// ---- a map, in such a room

// Reads the map, mends it, writes it and lists the changes.
fn one_map(
    rt: &HostRuntime,
    file: &mut Source,
    w: usize,
    h: usize,
    map: &mut [u8],
    out: &mut [u8],
    list: &mut [u16],
) -> Result<Done, Stop> {
    let n = files::read_full(&mut *file, &mut *map);
    if words::unreadable(rt, 3, file) {
        return Err(Stop::Failed);
    }
    match mend::mend(w, h, &map[..n], &mut *out, &mut *list) {
        Err(refusal) => Err(map_file::refused_map(rt, 3, w, h, &map[..n], refusal)),
        Ok(count) => {
            map_file::save(rt, 4, out)?;
            listed(rt, def::roots_along(w), list, count)
        }
    }
}

// Lists the first changes of a list.
fn listed(rt: &HostRuntime, across: usize, list: &[u16], count: usize) -> Result<Done, Stop> {
    let (changes, _) = list.as_chunks::<5>();
    let n = count.min(changes.len());
    say::told(rt, list::print(rt, across, &changes[..n]))?;
    Ok(if count == 0 { Done::Plain } else { Done::Noted })
}

// The map of a picture of so many roots. The arrays stay in a frame of their own: a function that took the large ones into its own would need the room at
// each call.
#[inline(never)]
fn in_room<const BYTES: usize, const NUMBERS: usize>(
    rt: &HostRuntime,
    file: &mut Source,
    w: usize,
    h: usize,
    roots: usize,
) -> Result<Done, Stop>
    requires bytes { (1024 * roots < BYTES) × (BYTES ≤ 8388608) }
    requires numbers { (425 * roots ≤ NUMBERS) × (NUMBERS ≤ 8388608) }
{
    let mut map = bytes::<BYTES>();
    let mut out = bytes::<BYTES>();
    let mut list = numbers::<NUMBERS>();
    let size = 1024 * roots;
    let more = size + 1;
    let count = 425 * roots;
    one_map(
        rt,
        file,
        w,
        h,
        &mut map[..more],
        &mut out[..size],
        &mut list[..count],
    )
}

// The map of a picture of w by h.
pub fn mended(rt: &HostRuntime, file: &mut Source, w: usize, h: usize) -> Result<Done, Stop> {
    let roots = marks::root_count(w, h);
    if roots <= 256 {
        return in_room::<262145, 108800>(rt, file, w, h, roots);
    }
    let came = if roots <= 4096 {
        in_room::<4194305, 1740800>(rt, file, w, h, roots)
    } else {
        Err(Stop::Failed)
    };
    if came == Err(Stop::Failed) {
        say::line(
            rt,
            b"(the map is large: it is mended in a room of 12 megabytes)",
        );
    }
    came
}
