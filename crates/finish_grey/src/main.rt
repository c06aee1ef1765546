// `finish` once more, whole and in grey, on a map by its digits.
#![tactic(auto)]

use std::process::ExitCode;

fn main(rt: HostRuntime) -> ExitCode {
    finish_file::run(&rt)
}
