// What the programs that replay cases of the deblocking filter share: how the settings are read, and what the call may have written is printed.
#![tactic(auto)]

ghost use Rattle.std.specs.Prelude.{◌≡◌, ◌%◌, ◌==◌, if◌then◌else◌, OnOk, [], ◌∷◌, ◌++◌};
ghost use Rattle.std.specs.Io.KnownBytes.{Appends};
ghost use Rattle.cases.specs.Numbers.{number_at, signed_of};
ghost use Rattle.def.specs.declared.Format.TheVariants.{Grey, Colour};
ghost use Rattle.filter_cases.specs.Printed.{numbers};

use cases::Case;
use df_check::Settings;
use std::io::{self, Write};

// What a call may have written: the planes and the unit words, to the end of an answer's line.
pub fn print_written<W: Write>(
    out: &mut W,
    y: &[u16],
    u: &[u16],
    v: &[u16],
    words: &[u32],
) -> io::Result<()>
    ensures { OnOk result (Appends (W.contents out.old) (W.contents out.new)
        (numbers y.now ++ numbers u.now ++ numbers v.now ++ numbers words.now ++ 10 ∷ [])) }
{
    replay::print_all(out, y)?;
    replay::print_all(out, u)?;
    replay::print_all(out, v)?;
    replay::print_all(out, words)?;
    replay::print_end(out)
}

// The settings, as a case has them: the limit, the offsets, and whether there is colour.
pub fn settings(case: &mut Case<'_>) -> Settings
    ensures text { case.new.text ≡ case.old.text }
    ensures read { let s = case.old.text.now in
        let limit = number_at s case.old.at in
        let u = number_at s limit.next in
        let v = number_at s u.next in
        let colour = number_at s v.next in
        (result.limit ≡ limit.size % 256)
        × (result.u_offset ≡ signed_of 128 u)
        × (result.v_offset ≡ signed_of 128 v)
        × (result.format ≡ (if colour.size % 256 == 1 then Colour else Grey))
        × (case.new.at ≡ colour.next) }
{
    let limit = case.read();
    let u_offset = case.read();
    let v_offset = case.read();
    let colour: u8 = case.read();
    Settings {
        limit,
        u_offset,
        v_offset,
        format: replay::format_of(colour == 1),
    }
}
