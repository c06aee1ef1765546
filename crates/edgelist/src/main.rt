// Reads a sheet from standard input, at most 4,096 bytes and one more to tell that there are more, and prints its listing. A refused sheet is an answer, too.
#![tactic(auto)]

use say::{Done, Stop};
use std::process::ExitCode;

// Reading none of standard input fails where it is closed, or a folder.
fn listed(rt: &HostRuntime) -> Result<Done, Stop> {
    let mut file = files::standard_input(rt);
    let mut input = [0u8; 4097];
    files::read_some(&mut file, &mut input[..0]).map_err(|error| say::failed(
        rt,
        b"standard input",
        error,
    ))?;
    let n = files::read_full(&mut file, &mut input);
    let mut out = sheet_out::room();
    say::told(rt, sheet_out::print(rt, &input[..n], &mut out))?;
    Ok(Done::Plain)
}

fn main(rt: HostRuntime) -> ExitCode {
    say::exit_code(listed(&rt))
}
