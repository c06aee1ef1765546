// The calls for C and Rust to link: numbers and slices alone, the number as the answer, values by `&mut`. Each is one call of the crate that it
// names, and its contract is that call's own. A slice is passed as a pointer and a length. On a refusal a value is 0, and no slice is written.
#![tactic(auto)]

ghost use Rattle.std.specs.Prelude.{◌≡◌};
ghost use Rattle.decoder_c.specs.Flags.{component_of, format_of};
ghost use Rattle.decoder_c.specs.Numbers.{number_in};

use def::{Component, Format, Refusal};

mod blocks;
mod chroma;
mod compact;
mod deblock;
mod edge_rows;
mod neighbours;
mod reconstruct;
mod screen;
mod streams;
mod tree;

// The number of an answer: 0 is done.
fn number_of<T: Copy>(answer: Result<T, Refusal>) -> u8
    ensures { result ≡ number_in answer }
{
    match answer {
        Ok(_) => 0,
        Err(r) => def::refusal_number(r),
    }
}

// A component by its flag.
fn component(chroma: bool) -> Component
    ensures { result ≡ component_of chroma }
{
    if chroma {
        Component::Chroma
    } else {
        Component::Luma
    }
}

// A chroma format by its flag.
fn format_of(colour: bool) -> Format
    ensures { result ≡ format_of colour }
{
    if colour { Format::Colour } else { Format::Grey }
}
