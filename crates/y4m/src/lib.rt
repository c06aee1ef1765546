// The import of a YUV4MPEG2 stream's first frame: its header, and the frame after it. There is no Rust beside it.
#![tactic(auto)]

ghost use Rattle.std.specs.Prelude.{◌≡◌};
ghost use Rattle.laws.specs.Call.{Gives};
ghost use Rattle.y4m_header.specs.ReadCall.{reading_of};
ghost use Rattle.y4m.specs.Import.{outcome};

use y4m_header::Header;
use y4m_rules::Misread;

// The first frame of a stream, into planes that have the lengths of its header's picture: what the header says, and the place after the frame.
pub fn import_frame(
    s: &[u8],
    y: &mut [u16],
    u: &mut [u16],
    v: &mut [u16],
) -> Result<Header, Misread>
    ensures { Gives outcome
        (record { input = s.now; y = y.old; u = u.old; v = v.old })
        (record { reading = reading_of result; y = y.new; u = u.new; v = v.new }) }
{
    let header = y4m_header::read_header(s)?;
    let next = y4m_frame::read_frame(s, header.next, header.w, header.h, y, u, v)?;
    Ok(Header { next, ..header })
}
