// The block driver. A picture's format is a flag: whether it has colour.
ghost use Rattle.laws.specs.Call.{Gives};
ghost use Rattle.driver_rules.specs.Call as driving;
ghost use Rattle.driver.specs.Lends.{given_of};
ghost use Rattle.decoder_c.specs.Flags.{format_of};

use crate::format_of;

#[unsafe(no_mangle)]
pub extern "C" fn lomsakeun_reconstruct(
    w: usize,
    h: usize,
    colour: bool,
    splits: &[u8],
    leaves: &[u8],
    residual: &[i16],
    pred_y: &[u16],
    pred_u: &[u16],
    pred_v: &[u16],
    constrained: bool,
    y: &mut [u16],
    u: &mut [u16],
    v: &mut [u16],
    words: &mut [u32],
    modes: &mut [u8],
    keep: &mut [u8],
) -> u8
    ensures { Gives driving.outcome
        (record {
          given = given_of w h (format_of colour) constrained leaves.now residual.now pred_y.now pred_u.now pred_v.now;
          splits = splits.now;
          y = y.old;
          u = u.old;
          v = v.old;
          words = words.old;
          modes = modes.old;
          keep = keep.old;
        })
        (record { number = result; y = y.new; u = u.new; v = v.new; words = words.new; modes = modes.new; keep = keep.new }) }
{
    def::answer_number(driver::reconstruct(
        w,
        h,
        format_of(colour),
        splits,
        leaves,
        residual,
        pred_y,
        pred_u,
        pred_v,
        constrained,
        y,
        u,
        v,
        words,
        modes,
        keep,
    ))
}
