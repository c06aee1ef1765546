// What the programs that replay recorded cases share: the file with the cases, the way from one to the next, and answers printed, each number after a
// space.
// No contract can say what a file gives or what standard output takes. So each print is over any writer, and says which bytes a writer that tells what it
// holds has gained; after an error it may hold a part of them.
#![tactic(auto)]

ghost use Rattle.std.specs.Prelude.{◌≡◌, ◌-◌, ◌≤◌, ◌==◌, if◌then◌else◌, length, OnOk, MatchResult, [], ◌∷◌, ◌++◌, List, ℕ, Some, refl};
ghost use Rattle.std.specs.Fmt.{decimal, signed_decimal};
ghost use Rattle.std.specs.Io.KnownBytes.{Appends};
ghost use Rattle.std.specs.List.{flat_map};
ghost use Rattle.def.specs.Refusals.{number_of};
ghost use Rattle.def.specs.declared.Component.TheVariants.{Luma, Chroma};
ghost use Rattle.def.specs.declared.Format.TheVariants.{Grey, Colour};

use cases::Case;
use def::{Component, Format, Refusal};
use std::fmt::Display;
use std::fs::File;
use std::io::{self, Eprint, Read, Stdout, Write};
use std::rt::Files;

// What the answers are printed to: standard output as it is, so that no program needs memory of its own for it.
pub type Output = Stdout;

pub fn output(rt: &HostRuntime) -> Output {
    rt.stdout()
}

// How many bytes the largest file of cases may have.
const ROOM: usize = 6000000;

// Reads the file of cases into room, and answers how many bytes there were.
pub fn load(rt: &(impl Files<File = File> + Eprint), room: &mut [u8]) -> usize
    ensures { result ≤ length room.new }
{
    match File::open(rt, "cases") {
        Ok(file) => read_full(rt, file, room),
        Err(error) => {
            say(rt, error);
            return 0;
        }
    }
}

// The bytes of a file, as far as room goes, or up to a read that fails.
fn read_full(rt: &impl Eprint, mut file: File, room: &mut [u8]) -> usize
    ensures { result ≤ length room.new }
{
    let mut done = 0;
    // kept: a loop over `read`, since `read_to_end` takes memory, which no program here needs, and `read_exact` tells no count of a shorter file.
    while done < room.len() {
        match file.read(&mut room[done..]) {
            Ok(0) => break,
            Ok(n) => done += n,
            Err(error) => {
                say(rt, error);
                break;
            }
        }
    }
    done
}

// Tells standard error why the cases were not read. Where it cannot be told there is nobody left to tell.
fn say(rt: &impl Eprint, error: io::Error) {
    let _ = eprintln!(rt; "cases: {error}");
}

// Where the case after one starts that stands at `at` and ends at `end`, past the newline between them; or the end of all, where none follows. Fewer bytes
// are left from there than from `at`, or none.
pub fn after(s: &[u8], at: usize, end: usize) -> usize
    ensures { length s.now - result ≤ (length s.now - at) - 1 }
{
    if at <= end && end < s.len() {
        end + 1
    } else {
        s.len()
    }
}

// The calls that a program replays.
pub trait Step {
    // Reads a case, makes its call and prints the line of its answer.
    fn one(out: &mut Output, case: &mut Case<'_>) -> io::Result<()>;
}

// Calls that need values of the program: the step holds them.
pub trait StepWith {
    // Reads a case, makes its call and prints the line of its answer.
    fn one(&self, out: &mut Output, case: &mut Case<'_>) -> io::Result<()>;
}

// Hands each case of the file in turn to `one`, in a room of N bytes. The number is a parameter, so that the checker does not look into the room.
fn each_by<const N: usize, F: Fn(&mut Output, &mut Case<'_>) -> io::Result<()>>(
    rt: &HostRuntime,
    one: F,
) -> io::Result<()>
where
    F: Drop,
    requires callable { F.IsAlwaysCallable one }
    requires in_memory { N ≤ 6000000 }
{
    let mut all = [0u8; N];
    let n = load(rt, &mut all);
    let text = &all[..n];
    let mut out = output(rt);
    let mut at = 0;
    // kept: a `while`, since only `one` finds where its case ends, so that no iterator can have the cases.
    while at < text.len() {
        let mut case = Case { text, at };
        one(&mut out, &mut case)?;
        at = after(text, at, case.at);
    }
    out.flush()
}

// Each case of the file in turn, by its step, in a room of N bytes.
fn each_in<const N: usize, S: Step>(rt: &HostRuntime) -> io::Result<()>
    requires { N ≤ 6000000 }
{
    each_by::<N, _>(rt, |out: &mut Output, case: &mut Case<'_>| {
        S::one(out, case)
    })
}

// Each case of the file in turn, by its step.
pub fn each_case<S: Step>(rt: &HostRuntime) -> io::Result<()> {
    each_in::<ROOM, S>(rt)
}

// Each case of the file in turn, by a step that holds values.
pub fn each_case_with<S: StepWith>(rt: &HostRuntime, step: &S) -> io::Result<()> {
    let one = |out: &mut Output, case: &mut Case<'_>| step.one(out, case);
    each_by::<ROOM, _>(rt, one)
}

// The first number of an answer's line.
pub fn print_first<W: Write>(out: &mut W, n: u8) -> io::Result<()>
    ensures { OnOk result (Appends (W.contents out.old) (W.contents out.new) (decimal n)) }
{
    write!(out, "{n}")
}

// The end of an answer's line.
pub fn print_end<W: Write>(out: &mut W) -> io::Result<()>
    ensures { OnOk result (Appends (W.contents out.old) (W.contents out.new) (10 ∷ [])) }
{
    out.write_all(b"\n")
}

// A number that is printed in decimal digits.
pub trait Numeral: Display {
    // Its digits, after a minus where it is below 0.
    ghost digits: { Self → List ℕ };

    // They are what it displays.
    ghost displays: { (n : Self) → Self.output n ≡ Some (digits n) };
}

impl Numeral for u8 {
    ghost digits = { decimal };

    ghost displays = { λ n. refl };
}

impl Numeral for u16 {
    ghost digits = { decimal };

    ghost displays = { λ n. refl };
}

impl Numeral for u32 {
    ghost digits = { decimal };

    ghost displays = { λ n. refl };
}

impl Numeral for usize {
    ghost digits = { decimal };

    ghost displays = { λ n. refl };
}

impl Numeral for i8 {
    ghost digits = { signed_decimal };

    ghost displays = { λ n. refl };
}

impl Numeral for i16 {
    ghost digits = { signed_decimal };

    ghost displays = { λ n. refl };
}

// A number of an answer's line, after a space.
pub fn print<T: Numeral + Drop, W: Write>(out: &mut W, number: T) -> io::Result<()>
    ensures { OnOk result (Appends (W.contents out.old) (W.contents out.new) (32 ∷ T.digits number)) }
{
    write!(out, " {number}")
}

// Numbers of an answer's line, each after a space.
pub fn print_all<T: Numeral, W: Write>(out: &mut W, numbers: &[T]) -> io::Result<()>
    ensures { OnOk result (Appends (W.contents out.old) (W.contents out.new) (flat_map (λ n. 32 ∷ T.digits n) numbers.now)) }
{
    for n in numbers {
        write!(out, " {n}")?;
    }
    Ok(())
}

// The line of a call that counts begins with its number and its count, which is 0 where it refused.
pub fn print_count<W: Write>(out: &mut W, answer: Result<usize, Refusal>) -> io::Result<()>
    ensures { MatchResult answer
        (λ n. OnOk result (Appends (W.contents out.old) (W.contents out.new) (decimal 0 ++ 32 ∷ decimal n)))
        (λ r. OnOk result (Appends (W.contents out.old) (W.contents out.new) (decimal (number_of r) ++ 32 ∷ decimal 0))) }
{
    let (number, count) = match answer {
        Ok(count) => (0, count),
        Err(refusal) => (def::refusal_number(refusal), 0),
    };
    print_first(out, number)?;
    print(out, count)
}

// A chroma format, by whether a case has colour.
pub fn format_of(colour: bool) -> Format
    ensures { result ≡ (if colour then Colour else Grey) }
{
    if colour { Format::Colour } else { Format::Grey }
}

// A component by a case's number of it, of which 0 is luma.
pub fn component_of(number: usize) -> Component
    ensures { result ≡ (if number == 0 then Luma else Chroma) }
{
    match number {
        0 => Component::Luma,
        _ => Component::Chroma,
    }
}

#[cfg(test)]
mod tests {
    use super::*;
    use std::fs;
    use std::test::Fail;

    // Takes a case that begins with its value, and no other.
    #[derive(Drop)]
    struct Only {
        value: usize,
    }

    impl StepWith for Only {
        fn one(&self, _out: &mut Output, case: &mut Case<'_>) -> io::Result<()> {
            if case.number() == self.value {
                Ok(())
            } else {
                Err(io::Error::from(io::ErrorKind::InvalidData))
            }
        }
    }

    // Whether a step with the value takes every case of a file that is made for this.
    fn takes_all(rt: &HostRuntime, cases: &[u8], value: usize) -> io::Result<bool> {
        let mut file = File::create_new(rt, "cases")?;
        let written = file.write_all(cases);
        let came = each_case_with(rt, &Only { value });
        fs::remove_file(rt, "cases")?;
        written?;
        Ok(came.is_ok())
    }

    // The step is called with the value that it holds, on each case.
    #[test]
    fn a_step_holds_values(rt: HostRuntime) -> Result<(), Fail> {
        assert!(rt; takes_all(&rt, b"7\n7\n7\n", 7)?);
        assert!(rt; !takes_all(&rt, b"7\n7\n7\n", 8)?);
        assert!(rt; !takes_all(&rt, b"8\n7\n7\n", 7)?);
        assert!(rt; !takes_all(&rt, b"7\n8\n7\n", 7)?);
        assert!(rt; !takes_all(&rt, b"7\n7\n8\n", 7)?);
        Ok(())
    }
}
