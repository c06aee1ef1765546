// The listing of a sheet, written to standard output: what `edgelist` and the replay of recorded sheets share.
#![tactic(auto)]

ghost use Rattle.std.specs.Prelude.{◌≡◌, replicate};
ghost use Rattle.sheet.specs.Listing.{outcome};

use files::Stream;
use std::io;

// The buffer that `listing` asks for. A call keeps the checker from looking into the array.
pub fn room() -> [u8; 81920]
    ensures { result ≡ replicate 81920 0 }
{
    [0u8; 81920]
}

// Writes the listing of `input`, by way of `out`: all of it, or it answers why not. A room that is too small has no listing.
pub fn print(rt: &HostRuntime, input: &[u8], out: &mut [u8]) -> io::Result<()>
    ensures { out.new ≡ (outcome (record { input = input.entry.now; out = out.old })).out }
{
    let n = sheet::listing(input, out).map_err(|_| io::Error::from(io::ErrorKind::InvalidInput))?;
    files::write_all(rt, Stream::Output, &out[..n])
}
