// The test of number 7: whether every sample of a lent slice is one of 10 bits. The Rust takes its samples to be so.
#![tactic(auto)]

ghost use Rattle.std.specs.Prelude.{◌≡◌};
ghost use Rattle.samples.specs.Samples.{samples_ok};

// The samples are joined by `|` and compared once: x | y is at most 1023 exactly where both are, as 1023 is 2^10 - 1.
// No way out at the first that fails: so the loop can be done many samples at a time.
pub fn samples_ok(p: &[u16]) -> bool
    ensures { result ≡ samples_ok p.now }
{
    p.iter().fold(0, |all: u16, s| all | *s) <= 1023
}
