// Draws a split tree as an SVG picture. All it does is in `edge_svg`.
#![tactic(auto)]

use std::process::ExitCode;

fn main(rt: HostRuntime) -> ExitCode {
    edge_svg::run(&rt)
}
