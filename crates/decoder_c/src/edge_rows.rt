// A map of edge rows, filled, and kept right by edits of single units.
ghost use Rattle.std.specs.Prelude.{◌≡◌};
ghost use Rattle.laws.specs.Call.{Gives};
ghost use Rattle.rows_rules.specs.FillCall as FillCall;
ghost use Rattle.rows_rules.specs.MotionCall as MotionCall;
ghost use Rattle.unit_edits.specs.FlagCall as FlagCall;
ghost use Rattle.decoder_c.specs.Flags.{flag_of, motion_of};

use def::Scu;
use line::Motion;
use unit_edits::Flag;

// A bit of the unit word by its flag.
fn flag_of(coded: bool) -> Flag
    ensures { result ≡ flag_of coded }
{
    if coded { Flag::Coded } else { Flag::Intra }
}

// A unit's motion by its numbers.
fn motion_of(x0: i16, y0: i16, x1: i16, y1: i16, refi0: i8, refi1: i8) -> Motion
    ensures { result ≡ motion_of x0 y0 x1 y1 refi0 refi1 }
{
    Motion {
        refi0,
        refi1,
        x0,
        y0,
        x1,
        y1,
    }
}

#[unsafe(no_mangle)]
pub extern "C" fn lomsakeun_fill_rows(
    w: usize,
    h: usize,
    words: &[u32],
    motion: &[i16],
    refs: &[i8],
    rows: &mut [u8],
) -> u8
    ensures { Gives FillCall.outcome
        (record { w = w; h = h; words = words.now; motion = motion.now; refs = refs.now; rows = rows.old })
        (record { number = result; rows = rows.new }) }
{
    def::answer_number(rows::fill_rows(w, h, words, motion, refs, rows))
}

#[unsafe(no_mangle)]
pub extern "C" fn lomsakeun_set_motion(
    w: usize,
    h: usize,
    x: usize,
    y: usize,
    x0: i16,
    y0: i16,
    x1: i16,
    y1: i16,
    refi0: i8,
    refi1: i8,
    words: &[u32],
    motion: &mut [i16],
    refs: &mut [i8],
    rows: &mut [u8],
) -> u8
    ensures { Gives MotionCall.outcome
        (record {
          w = w;
          h = h;
          x = x;
          y = y;
          moved = motion_of x0 y0 x1 y1 refi0 refi1;
          words = words.now;
          motion = motion.old;
          refs = refs.old;
          rows = rows.old;
        })
        (record { number = result; motion = motion.new; refs = refs.new; rows = rows.new }) }
{
    def::answer_number(unit_edits::set_motion(
        w,
        h,
        Scu(x),
        Scu(y),
        motion_of(x0, y0, x1, y1, refi0, refi1),
        words,
        motion,
        refs,
        rows,
    ))
}

#[unsafe(no_mangle)]
pub extern "C" fn lomsakeun_set_flag(
    w: usize,
    h: usize,
    x: usize,
    y: usize,
    coded: bool,
    on: bool,
    words: &mut [u32],
    motion: &[i16],
    refs: &[i8],
    rows: &mut [u8],
) -> u8
    ensures { Gives FlagCall.outcome
        (record { w = w; h = h; x = x; y = y; flag = flag_of coded; on = on; words = words.old; motion = motion.now; refs = refs.now; rows = rows.old })
        (record { number = result; words = words.new; rows = rows.new }) }
{
    def::answer_number(unit_edits::set_flag(
        w,
        h,
        Scu(x),
        Scu(y),
        flag_of(coded),
        on,
        words,
        motion,
        refs,
        rows,
    ))
}
