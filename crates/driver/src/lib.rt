// The block driver: a picture's leaves in walk order, each gathered around, predicted and reconstructed in the components that the picture has; then its units are told.
// No Rust stands beside it: its calls are those of ipred.rs and recon.rs.
#![tactic(auto)]

ghost use Rattle.laws.specs.Call.{Gives};
ghost use Rattle.def.specs.Answers.{answer_number};
ghost use Rattle.driver_rules.specs.Call.{outcome};
ghost use Rattle.driver.specs.Lends.{given_of};

use def::{Format, Refusal};
use driver_check::checked_leaves;
use unit_maps::clear_words;
use walk::draw_picture;

mod component; // component.rt: one component of a leaf
mod walk; // walk.rt: the leaves of a picture

// The picture of w by h whose leaves are those of the walk, by their records, their residuals and the lent prediction.
// A grey one has no U and V: their slices are empty, and nothing is done for them.
pub fn reconstruct(
    w: usize,
    h: usize,
    format: Format,
    splits: &[u8],
    leaves: &[u8],
    residual: &[i16],
    pred_y: &[u16],
    pred_u: &[u16],
    pred_v: &[u16],
    constrained: bool,
    y: &mut [u16],
    u: &mut [u16],
    v: &mut [u16],
    words: &mut [u32],
    modes: &mut [u8],
    keep: &mut [u8],
) -> Result<(), Refusal>
    ensures { Gives outcome
        (record {
          given = given_of w h format constrained leaves.now residual.now pred_y.now pred_u.now pred_v.now;
          splits = splits.now;
          y = y.old;
          u = u.old;
          v = v.old;
          words = words.old;
          modes = modes.old;
          keep = keep.old;
        })
        (record { number = answer_number result; y = y.new; u = u.new; v = v.new; words = words.new; modes = modes.new; keep = keep.new }) }
{
    checked_leaves(
        w,
        h,
        format,
        splits,
        leaves,
        residual.len(),
        pred_y,
        pred_u,
        pred_v,
        y.len(),
        u.len(),
        v.len(),
        words.len(),
        modes.len(),
        keep.len(),
    )?;
    clear_words(&mut *words);
    draw_picture(
        w,
        h,
        format,
        constrained,
        splits,
        leaves,
        pred_y,
        pred_u,
        pred_v,
        residual,
        y,
        u,
        v,
        words,
        modes,
        keep,
    );
    Ok(())
}
