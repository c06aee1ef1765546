// Replays recorded cases of YUV4MPEG2 streams. A line of data/cases is a call, its kind first; the line printed for it is the number that it answers, its
// values, and every slice that it may write, as it leaves it.
#![tactic(auto)]

use cases::Case;
use replay::{Output, Step};
use std::io::{self, Write};
use y4m_header::Header;
use y4m_rules::Misread;

// ---- answers

// The number, the place and the seven numbers of a header's reading.
fn print_header(out: &mut Output, read: Result<Header, Misread>) -> io::Result<()> {
    match read {
        Err(misread) => {
            replay::print_first(out, def::refusal_number(misread.refusal))?;
            replay::print(out, misread.at)?;
            replay::print_all(out, &[0usize; 7])
        }
        Ok(
            Header {
                w,
                h,
                f,
                g,
                a,
                b,
                next,
            },
        ) => {
            out.write_all(b"0 0")?;
            replay::print_all(out, &[w, h, f, g, a, b, next])
        }
    }
}

// The number, the place of a refusal and the place after the frame, either 0 where there is none.
fn print_frame(out: &mut Output, read: Result<usize, Misread>) -> io::Result<()> {
    let (number, at, next) = match read {
        Err(misread) => (def::refusal_number(misread.refusal), misread.at, 0),
        Ok(next) => (0, 0, next),
    };
    replay::print_first(out, number)?;
    replay::print(out, at)?;
    replay::print(out, next)
}

// The planes as a call leaves them.
fn print_planes(out: &mut Output, y: &[u16], u: &[u16], v: &[u16]) -> io::Result<()> {
    replay::print_all(out, y)?;
    replay::print_all(out, u)?;
    replay::print_all(out, v)?;
    replay::print_end(out)
}

// ---- a case of each kind, after its kind

fn read_header_case(out: &mut Output, case: &mut Case<'_>) -> io::Result<()> {
    let mut bytes = [0u8; 1024];
    let bytes = case.slice(&mut bytes);
    print_header(out, y4m_header::read_header(bytes))?;
    replay::print_end(out)
}

fn write_header_case(out: &mut Output, case: &mut Case<'_>) -> io::Result<()> {
    let format = replay::format_of(case.number() == 1);
    let w = case.number();
    let h = case.number();
    let f = case.number();
    let g = case.number();
    let a = case.number();
    let b = case.number();
    let mut line = [0u8; 1024];
    let line = case.slice(&mut line);
    let answer = y4m_header_out::write_header(format, w, h, f, g, a, b, &mut *line);
    replay::print_count(out, answer)?;
    replay::print_all(out, line)?;
    replay::print_end(out)
}

fn read_frame_case(out: &mut Output, case: &mut Case<'_>) -> io::Result<()> {
    let mut bytes = [0u8; 1024];
    let bytes = case.slice(&mut bytes);
    let place = case.number();
    let w = case.number();
    let h = case.number();
    let mut y = [0u16; 1024];
    let y = case.slice(&mut y);
    let mut u = [0u16; 1024];
    let u = case.slice(&mut u);
    let mut v = [0u16; 1024];
    let v = case.slice(&mut v);
    let answer = y4m_frame::read_frame(bytes, place, w, h, &mut *y, &mut *u, &mut *v);
    print_frame(out, answer)?;
    print_planes(out, y, u, v)
}

fn write_frame_case(out: &mut Output, case: &mut Case<'_>) -> io::Result<()> {
    let format = replay::format_of(case.number() == 1);
    let w = case.number();
    let h = case.number();
    let mut y = [0u16; 1024];
    let y = case.slice(&mut y);
    let mut u = [0u16; 1024];
    let u = case.slice(&mut u);
    let mut v = [0u16; 1024];
    let v = case.slice(&mut v);
    let mut frame = [0u8; 2048];
    let frame = case.slice(&mut frame);
    let answer = y4m_frame_out::write_frame(format, w, h, y, u, v, &mut *frame);
    replay::print_first(out, def::answer_number(answer))?;
    replay::print_all(out, frame)?;
    replay::print_end(out)
}

fn import_case(out: &mut Output, case: &mut Case<'_>) -> io::Result<()> {
    let mut bytes = [0u8; 2048];
    let bytes = case.slice(&mut bytes);
    let mut y = [0u16; 1024];
    let y = case.slice(&mut y);
    let mut u = [0u16; 1024];
    let u = case.slice(&mut u);
    let mut v = [0u16; 1024];
    let v = case.slice(&mut v);
    print_header(out, y4m::import_frame(bytes, &mut *y, &mut *u, &mut *v))?;
    print_planes(out, y, u, v)
}

// The calls of the cases.
struct Calls;

impl Step for Calls {
    fn one(out: &mut Output, case: &mut Case<'_>) -> io::Result<()> {
        match case.number() {
            0 => read_header_case(out, case),
            1 => write_header_case(out, case),
            2 => read_frame_case(out, case),
            3 => write_frame_case(out, case),
            _ => import_case(out, case),
        }
    }
}

fn main(rt: HostRuntime) -> io::Result<()> {
    replay::each_case::<Calls>(&rt)
}
