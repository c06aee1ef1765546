// The header line of a YUV4MPEG2 stream, read from its bytes. There is no Rust beside it.
#![tactic(auto)]

ghost use Rattle.laws.specs.Call.{Gives};
ghost use Rattle.y4m_header.specs.ReadCall as reading;

mod numbers;
mod words;

use def::Refusal;
use y4m_rules::Misread;

// What a header says, each of F and A 0 and 0 where it has none, and the place after it.
#[derive(Clone, Copy)]
pub struct Header {
    pub w: usize,
    pub h: usize,
    pub f: usize,
    pub g: usize,
    pub a: usize,
    pub b: usize,
    pub next: usize,
}

// The header at the start of a stream, of which at most 256 bytes are read.
pub fn read_header(s: &[u8]) -> Result<Header, Misread>
    ensures { Gives reading.outcome (record { input = s.now }) (record { reading = reading.reading_of result }) }
{
    let header = words::header_in(s)?;
    if !def::size_ok(header.w, header.h) {
        return Err(Misread::from(Refusal::Size));
    }
    Ok(header)
}
