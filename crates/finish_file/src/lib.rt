// Finishes a YUV4MPEG2 stream of 10 bits: every frame deblocked by one split tree, at one QP, and written again as a stream. Every unit counts as intra, and
// chroma has luma's QP. It reads, calls the face and writes; each rule of deblocking is there. `finish` is this; the program beside it is a further run of
// it, whose output is compared, too.
#![tactic(auto)]

use finish_asked::{Asked, Job};
use say::Stop;
use std::process::ExitCode;

mod rooms; // rooms.rt: room for a frame and its maps
mod stream; // stream.rt: every frame

fn help(rt: &HostRuntime) {
    let _ = eprint!(rt;
        "usage: finish (--sheet FILE | --digits FILE | --map FILE) --qp N [OPTION..] [STREAM]
Deblocks every frame of a YUV4MPEG2 stream of 10 bits (C420p10) and writes it as a stream to standard output.
Every unit counts as intra, and chroma has luma's QP.
--sheet FILE      the split tree as a sheet, of a picture up to 256 by 256; the transform limit is the sheet's
--digits FILE     the split tree by its digits, as bin/splitpack writes it
--map FILE        the split tree by its map, 1,024 bytes a root
--qp N            0 to 51
--limit N         the transform limit, 5 or 6; 6 where it is not given
--strengths FILE  208 strength entries, instead of the baseline's
--keep X,Y,W,H    leaves a rectangle of luma samples as it is, on multiples of 4; any number of times
--bands           in bands of 64 rows, which leave the same planes
--grey            the frames are grey: luma alone is deblocked, U and V are written as they were read
--moved           tells how many samples moved, by how much at most, and how far any can
STREAM            the stream, instead of standard input
status: 0 done, 1 refused, 2 bad usage or a failure of input or output
"
    );
}

// The stream that is asked for: its header, and then its frames.
fn finished(rt: &HostRuntime, asked: Asked) -> Result<(), Stop> {
    let mut file = y4m_file::open(rt, asked.stream)?;
    let header = y4m_file::read_header(rt, asked.stream, &mut file)?;
    rooms::finished(rt, &mut file, Job { asked, header })
}

// The program, by its arguments.
pub fn run(rt: &HostRuntime) -> ExitCode {
    if finish_asked::help(rt) {
        help(rt);
        return y4m_file::exit_code(Ok(()));
    }
    y4m_file::exit_code(match finish_asked::arguments(rt) {
        Ok(asked) => finished(rt, asked),
        Err(stop) => {
            let _ = eprintln!(rt; "(finish --help tells how it is used)");
            Err(stop)
        }
    })
}
