// The list of changes as text: `root=0 level=0 place=136 old=255 new=1: root at 0 0, block of 64 at 0 0`.
use files::Number;
use std::io;

// One change, by its five numbers; the picture has so many roots across.
fn change(rt: &HostRuntime, across: usize, numbers: &[u16; 5]) -> io::Result<()> {
    let [root, level, place, old, new] = numbers.map(usize::from);
    let x = map_file::root_x(across, root);
    let y = map_file::root_y(across, root);
    let b = map_file::block_at(x, y, level, place);
    println!(rt;
        "root={} level={} place={} old={} new={}: root at {} {}, block of {} at {} {}",
        Number(root),
        Number(level),
        Number(place),
        Number(old),
        Number(new),
        Number(x),
        Number(y),
        Number(b.side),
        Number(b.x),
        Number(b.y)
    )
}

// The changes of a list, and how many there are; or why they cannot be written.
pub fn print(rt: &HostRuntime, across: usize, list: &[[u16; 5]]) -> io::Result<()> {
    for numbers in list {
        change(rt, across, numbers)?;
    }
    println!(rt; "changes={}", Number(list.len()))
}
