// Replays recorded cases of the chroma QP tables. A line of data/cases is a call; the line printed for it is the number that it answers,
// and both tables as it leaves them.
#![tactic(auto)]

use cases::Case;
use replay::{Output, Step};
use std::io;

// The calls of the cases.
struct Calls;

impl Step for Calls {
    fn one(out: &mut Output, case: &mut Case<'_>) -> io::Result<()> {
        let global = case.number() == 1;
        let same = case.number() == 1;
        let count0 = case.number();
        let mut in0 = [0i8; 128];
        let in0 = case.slice(&mut in0);
        let mut out0 = [0i8; 128];
        let out0 = case.slice(&mut out0);
        let count1 = case.number();
        let mut in1 = [0i8; 128];
        let in1 = case.slice(&mut in1);
        let mut out1 = [0i8; 128];
        let out1 = case.slice(&mut out1);
        let mut table0 = [0i8; 128];
        let table0 = case.slice(&mut table0);
        let mut table1 = [0i8; 128];
        let table1 = case.slice(&mut table1);
        let answer = chroma_qp::derived_chroma_qp_mapping_tables(
            global, same, count0, in0, out0, count1, in1, out1, table0, table1,
        );
        replay::print_first(out, def::answer_number(answer))?;
        replay::print_all(out, table0)?;
        replay::print_all(out, table1)?;
        replay::print_end(out)
    }
}

fn main(rt: HostRuntime) -> io::Result<()> {
    replay::each_case::<Calls>(&rt)
}
