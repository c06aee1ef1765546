// The bytes of a frame, written: its line, and samples of two bytes, the low byte first. Each function answers the place after what it wrote.
ghost use Rattle.std.specs.Prelude.{◌+◌, ◌*◌, ◌≤◌, length};
ghost use Rattle.edges.specs.Put.{Put};
ghost use Rattle.y4m_rules.specs.Words.{frame_line};
ghost use Rattle.y4m_rules.specs.Frames.{bytes_of};

pub(crate) fn put_line(out: &mut [u8]) -> usize
    requires { 6 ≤ length out.old }
    ensures { Put frame_line out.old 0 out.new result }
{
    out[0] = b'F';
    out[1] = b'R';
    out[2] = b'A';
    out[3] = b'M';
    out[4] = b'E';
    out[5] = b'\n';
    6
}

// A plane's bytes from `at` on; the place after them is answered.
pub(crate) fn put_plane(out: &mut [u8], at: usize, plane: &[u16]) -> usize
    requires { at + 2 * length plane.now ≤ length out.old }
    ensures { Put (bytes_of plane.now) out.old at out.new result }
{
    for i in 0..plane.len() {
        out[at + 2 * i] = (plane[i] % 256) as u8;
        out[at + 2 * i + 1] = (plane[i] / 256) as u8;
    }
    at + 2 * plane.len()
}
