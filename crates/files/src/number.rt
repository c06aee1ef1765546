// A number as text, in ASCII, and as the programs print it.
ghost use Rattle.std.specs.Prelude.{◌≡◌, ◌+◌, ◌<◌, ◌≤◌, length, take, drop};
ghost use Rattle.files.specs.Counts.{IsPrefixLen};
ghost use Rattle.files.specs.Digits.{last_digits, IsDigitCount};

use std::fmt::{self, Display, Formatter, Write};
use std::str::from_utf8;

// A number that is printed: its digits, as `decimal` puts them.
#[derive(Clone, Copy)]
pub struct Number(pub usize);

impl Display for Number {
    fn fmt<W: Write>(&self, f: &mut Formatter<W>) -> fmt::Result {
        let mut digits = [0u8; 20];
        let n = decimal(self.0 as u64, &mut digits);
        match from_utf8(&digits[..n]) {
            Ok(text) => f.write_str(text),
            Err(_) => Err(fmt::Error),
        }
    }
}

// Puts a number's decimal digits at the start of the room: how many there are.
pub fn decimal(n: u64, out: &mut [u8; 20]) -> usize
    ensures in_bounds { IsPrefixLen result out.new }
    ensures len { IsDigitCount n result }
    ensures digits { take result out.new ≡ last_digits result n }
    ensures rest { drop result out.new ≡ drop result out.old }
{
    let k = digit_count(n);
    write_digits(n, k, out);
    k
}

// kept: a `while`, as the number that is left says when it ends, and no range counts the turns.
fn digit_count(n: u64) -> usize
    ensures { IsDigitCount n result }
{
    let mut k = 1;
    let mut rest = n / 10;
    while rest > 0 {
        rest /= 10;
        k += 1;
    }
    k
}

// Puts the last k digits of a number at the start of the room.
fn write_digits(n: u64, k: usize, out: &mut [u8])
    requires in_bounds { k ≤ length out.old }
    ensures digits { take k out.new ≡ last_digits k n }
    ensures rest { drop k out.new ≡ drop k out.old }
{
    let mut rest = n;
    for i in (0..k).rev() {
        out[i] = digit_to_ascii(rest % 10);
        rest /= 10;
    }
}

fn digit_to_ascii(d: u64) -> u8
    requires { d < 10 }
    ensures { result ≡ 48 + d }
{
    b'0' + d as u8
}
