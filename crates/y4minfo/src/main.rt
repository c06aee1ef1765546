// Tells what the YUV4MPEG2 file that its argument names has: its size, F and A, and how many frames; or what it is refused for, in which frame and at which
// byte. F or A is 0:0 where the header has none.
#![tactic(auto)]

use files::{Number, Source};
use say::Stop;
use std::process::ExitCode;
use y4m_file::{Header, Task};

// What the header says. What is full or closed stays so: the count of frames tells that it was not written.
fn tell(rt: &HostRuntime, header: Header) {
    let w = Number(header.w);
    let h = Number(header.h);
    let f = Number(header.f);
    let g = Number(header.g);
    let a = Number(header.a);
    let b = Number(header.b);
    let _ = print!(rt; "w={w}\nh={h}\nf={f}:{g}\na={a}:{b}\n");
}

fn info(rt: &HostRuntime, file: &mut Source) -> Result<(), Stop> {
    let mut head = [0u8; 256];
    let n = y4m_file::header_line(rt, 1, file, &mut head)?;
    match y4m_header::read_header(&head[..n]) {
        Err(misread) => Err(y4m_file::refused_out(rt, misread)),
        Ok(header) => {
            tell(rt, header);
            y4m_file::frames(rt, file, Task::Count, header)
        }
    }
}

// The file that argument 1 names.
fn run(rt: &HostRuntime) -> Result<(), Stop> {
    let mut file = y4m_file::open(rt, 1)?;
    info(rt, &mut file)
}

fn help(rt: &HostRuntime) {
    let _ = eprint!(rt;
        "usage: y4minfo FILE\n\
        Tells a YUV4MPEG2 file's size, F, A and how many frames it has; or what it is refused for, and at which byte.\n\
        status: 0 done, 1 refused, 2 bad usage or a failure of input or output\n"
    );
}

fn main(rt: HostRuntime) -> ExitCode {
    let asked = words::asked(&rt, 1, b"--help");
    if (files::arg_count(&rt) == 2) & !asked {
        return y4m_file::exit_code(run(&rt));
    }
    help(&rt);
    y4m_file::exit_code(if asked { Ok(()) } else { Err(Stop::Failed) })
}
