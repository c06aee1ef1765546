// Deblocks every frame of a stream. All it does is in `finish_file`.
#![tactic(auto)]

use std::process::ExitCode;

fn main(rt: HostRuntime) -> ExitCode {
    finish_file::run(&rt)
}
