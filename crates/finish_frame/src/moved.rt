// How many samples deblocking moved, and by how much at most: a finished frame's planes beside the bytes that it was read from.
use y4m_file::Picture;

#[derive(Clone, Copy)]
pub struct Moved {
    pub count: usize,
    pub most: u16,
}

// The sample at a place of a frame's bytes, its low byte first.
fn sample(bytes: &[u8], at: usize) -> u16 {
    match (bytes.get(at), bytes.get(at.wrapping_add(1))) {
        (Some(low), Some(high)) => u16::from_le_bytes([*low, *high]),
        _ => 0,
    }
}

impl Moved {
    // A plane more, whose samples stood from a place of the frame's bytes on.
    fn with_plane(self, bytes: &[u8], start: usize, after: &[u16]) -> Moved {
        let mut all = self;
        let mut at = start;
        for sample_after in after {
            let d = sample(bytes, at).abs_diff(*sample_after);
            if d != 0 {
                all.count = all.count.wrapping_add(1);
                all.most = all.most.max(d);
            }
            at = at.wrapping_add(2);
        }
        all
    }

    // A frame more. Its planes stand behind the frame line, which has 6 bytes.
    pub(crate) fn with_frame(self, bytes: &[u8], picture: &Picture) -> Moved {
        let at_u = 2usize.wrapping_mul(picture.y.len()).wrapping_add(6);
        let at_v = 2usize.wrapping_mul(picture.u.len()).wrapping_add(at_u);
        self.with_plane(bytes, 6, picture.y)
            .with_plane(bytes, at_u, picture.u)
            .with_plane(bytes, at_v, picture.v)
    }
}
