// Bits of a lent slice of bytes, the high bit of each byte first.
#![tactic(auto)]

ghost use Rattle.std.specs.Prelude.{◌≡◌, ◌%◌, ◌<◌};
ghost use Rattle.bits.specs.Bits.{bit_at, with_bit};
ghost use Rattle.laws.specs.Bits.{with_field};

// The bit at a place: 0 past the slice's end.
pub fn get_bit(buf: &[u8], at: usize) -> u8
    ensures { result ≡ bit_at buf.now at }
{
    let i = at / 8;
    if buf.len() <= i {
        return 0;
    }
    (buf[i] >> (7 - at % 8)) % 2
}

// x with its bit of weight 2 ^ k put.
fn with_bit(x: u8, k: usize, bit: u8) -> u8
    requires { (k < 8) × (bit < 2) }
    ensures { result ≡ with_field k 1 bit x }
{
    x - ((x >> k) % 2 << k) + (bit << k)
}

// A number's low bit, put at a place: past the slice's end nothing is put.
pub fn put_bit(buf: &mut [u8], at: usize, bit: u8)
    ensures { buf.new ≡ with_bit buf.old at (bit % 2) }
{
    let i = at / 8;
    if buf.len() <= i {
        return;
    }
    buf[i] = with_bit(buf[i], 7 - at % 8, bit % 2);
}
