// Writes the YUV4MPEG2 file that its argument names to standard output again, read and checked: its header as this product writes one, and its frames. F is
// 25:1 and A is 1:1 where the file's header has none. At a refusal it stops: what was written are the frames before it.
#![tactic(auto)]

use files::Source;
use say::Stop;
use std::process::ExitCode;
use y4m_file::Task;

fn copied(rt: &HostRuntime, file: &mut Source) -> Result<(), Stop> {
    let header = y4m_file::read_header(rt, 1, file)?;
    say::told(rt, y4m_file::put_header(rt, header))?;
    y4m_file::frames(rt, file, Task::Copy, header)
}

// The file that argument 1 names.
fn run(rt: &HostRuntime) -> Result<(), Stop> {
    let mut file = y4m_file::open(rt, 1)?;
    copied(rt, &mut file)
}

fn help(rt: &HostRuntime) {
    let _ = eprint!(rt;
        "usage: y4mcopy FILE > COPY\n\
        Writes a YUV4MPEG2 file again, read and checked; at a refusal it tells the byte and stops.\n\
        status: 0 done, 1 refused, 2 bad usage or a failure of input or output\n"
    );
}

fn main(rt: HostRuntime) -> ExitCode {
    let asked = words::asked(&rt, 1, b"--help");
    if (files::arg_count(&rt) == 2) & !asked {
        return y4m_file::exit_code(run(&rt));
    }
    help(&rt);
    y4m_file::exit_code(if asked { Ok(()) } else { Err(Stop::Failed) })
}
