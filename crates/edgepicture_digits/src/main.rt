// `edgepicture` once more, on a map by its digits.
#![tactic(auto)]

use std::process::ExitCode;

fn main(rt: HostRuntime) -> ExitCode {
    edge_svg::run(&rt)
}
