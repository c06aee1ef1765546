// `edgepicture` once more, on a sheet.
#![tactic(auto)]

use std::process::ExitCode;

fn main(rt: HostRuntime) -> ExitCode {
    edge_svg::run(&rt)
}
