// Mends the split map of a picture of W by H that the file MAP holds, into the file MENDED, and lists each change: its five numbers, and the root and the
// block in luma samples. The exit status is 0 where nothing was changed, 3 where something was, 1 for a refusal and 2 for a failure.
#![tactic(auto)]

use say::{Done, Stop};
use std::process::ExitCode;

mod list; // list.rt: the list as text
mod rooms; // rooms.rt: room for a map, small and large

// The way to call it. That is an answer where it was asked for.
fn help(rt: &HostRuntime) -> Result<Done, Stop> {
    let _ = eprint!(rt;
        "usage: mendmap W H MAP MENDED
Mends the split map of a picture of W by H, 1,024 bytes a root, into the file MENDED, and lists each change.
status: 0 nothing changed, 3 something changed, 1 refused, 2 bad usage or a failure of input or output
"
    );
    if words::asked(rt, 1, b"--help") {
        Ok(Done::Plain)
    } else {
        Err(Stop::Failed)
    }
}

// The map of the file that argument 3 names.
fn run(rt: &HostRuntime, w: usize, h: usize) -> Result<Done, Stop> {
    let mut file = words::open(rt, 3).ok_or(Stop::Failed)?;
    rooms::mended(rt, &mut file, w, h)
}

fn main(rt: HostRuntime) -> ExitCode {
    let sides = (words::number_arg(&rt, 1), words::number_arg(&rt, 2));
    say::exit_code(match sides {
        (Some(w), Some(h)) if files::arg_count(&rt) == 5 => run(&rt, w, h),
        _ => help(&rt),
    })
}
