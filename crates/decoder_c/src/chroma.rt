// The derived chroma QP tables.
ghost use Rattle.laws.specs.Call.{Gives};
ghost use Rattle.chroma_qp.specs.Derived as derived;

#[unsafe(no_mangle)]
pub extern "C" fn lomsakeun_derived_chroma_qp_mapping_tables(
    global_offset: bool,
    same_table: bool,
    count0: usize,
    a0: &[i8],
    b0: &[i8],
    count1: usize,
    a1: &[i8],
    b1: &[i8],
    t0: &mut [i8],
    t1: &mut [i8],
) -> u8
    ensures { Gives derived.outcome
        (record {
          global_offset = global_offset;
          same_table = same_table;
          first = record { count = count0; a = a0.now; b = b0.now };
          second = record { count = count1; a = a1.now; b = b1.now };
          t0 = t0.old;
          t1 = t1.old;
        })
        (record { number = result; t0 = t0.new; t1 = t1.new }) }
{
    def::answer_number(chroma_qp::derived_chroma_qp_mapping_tables(
        global_offset,
        same_table,
        count0,
        a0,
        b0,
        count1,
        a1,
        b1,
        t0,
        t1,
    ))
}
