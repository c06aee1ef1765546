// The bytes of a frame, read: its line, and samples of two bytes, the low byte first.
ghost use Rattle.std.specs.Prelude.{◌≡◌, ◌+◌, ◌*◌, ◌≤◌, length, drop};
ghost use Rattle.samples.specs.Samples.{samples_ok};
ghost use Rattle.y4m_rules.specs.Frames.{plane_at, matches, line_ok, line_place};

// ---- the line

// Whether the bytes from `at` on are those of a key, and `short` where they end before it does.
fn agree(s: &[u8], at: usize, key: &[u8], short: bool) -> bool
    ensures { result ≡ matches short key.now (drop at s.now) }
{
    for i in 0..key.len() {
        if s.len() <= at {
            return short;
        }
        if s.len() - at <= i {
            return short;
        }
        if key[i] != s[at + i] {
            return false;
        }
    }
    true
}

// Whether the bytes from `at` on are a frame line, as far as they go.
pub(crate) fn line_ok(s: &[u8], at: usize) -> bool
    ensures { result ≡ line_ok s.now at }
{
    agree(s, at, b"FRAME\n", true)
}

// Where another line offends.
pub(crate) fn line_place(s: &[u8], at: usize) -> usize
    ensures { result ≡ line_place s.now at }
{
    if agree(s, at, b"FRAME ", false) {
        return at + 6;
    }
    at
}

// ---- samples

// The sample of two bytes.
fn sample(low: u8, high: u8) -> u16
    ensures { result ≡ low + 256 * high }
{
    low as u16 + 256 * (high as u16)
}

// Whether each of n samples from `from` on is at most 1023. They are joined by `|` and compared once, with no way out at the first that fails: so the
// loop can be done many samples at a time.
pub(crate) fn plane_ok(s: &[u8], from: usize, n: usize) -> bool
    requires { from + 2 * n ≤ length s.now }
    ensures { result ≡ samples_ok (plane_at s.now from n) }
{
    let mut all: u16 = 0;
    for i in 0..n {
        all |= sample(s[from + 2 * i], s[from + 2 * i + 1]);
    }
    all <= 1023
}

// A plane's samples from `from` on.
pub(crate) fn read_plane(s: &[u8], from: usize, plane: &mut [u16])
    requires { from + 2 * length plane.old ≤ length s.now }
    ensures { plane.new ≡ plane_at s.now from (length plane.old) }
{
    for i in 0..plane.len() {
        plane[i] = sample(s[from + 2 * i], s[from + 2 * i + 1]);
    }
}
