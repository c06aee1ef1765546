// What stands before the first write of deblocking: its settings, what it refuses and in which order.
// The Rust beside it: df.rs, which takes its input to be right.
#![tactic(auto)]

mod check; // check.rt: a picture's
mod band; // band.rt: a band's

pub use band::checked_band;
pub use check::checked;
use def::Format;

// The transform limit, 5 or 6, the offsets of U's QP and of V's, -12..12 and in a grey picture 0, and the picture's format.
#[derive(Clone, Copy)]
pub struct Settings {
    pub limit: u8,
    pub u_offset: i8,
    pub v_offset: i8,
    pub format: Format,
}
