// Prints the listing of each sheet of data/cases, and a line `--` after it. A byte 30 stands after a sheet, and none holds one.
#![tactic(auto)]

ghost use Rattle.std.specs.Prelude.{IfSome};
ghost use Rattle.files.specs.Counts.{IsPrefixLen};

const END: u8 = 30;

fn replay(rt: &HostRuntime, sheets: &[u8], out: &mut [u8]) {
    for sheet in sheets.split_inclusive(|b| *b == END) {
        let text = sheet.strip_suffix(&[END]).unwrap_or(sheet);
        let _ = sheet_out::print(rt, text, &mut *out);
        let _ = println!(rt; "--");
    }
}

// A call keeps the checker from looking into the array.
fn cases_room() -> [u8; 262144] {
    [0u8; 262144]
}

// The cases: how many bytes they have, or none where they cannot be opened, which is told.
fn read_cases(rt: &HostRuntime, room: &mut [u8]) -> Option<usize>
    ensures { IfSome result (λ n. IsPrefixLen n room.new) }
{
    match files::open_read(rt, b"cases") {
        Ok(mut file) => Some(files::read_full(&mut file, room)),
        Err(error) => {
            files::fail(rt, b"cases", error);
            None
        }
    }
}

fn main(rt: HostRuntime) {
    let mut all = cases_room();
    let Some(n) = read_cases(&rt, &mut all) else {
        return;
    };
    let mut out = sheet_out::room();
    replay(&rt, &all[..n], &mut out);
}
