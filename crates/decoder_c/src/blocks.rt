// A block's samples: gathering, the five modes and residual addition.
ghost use Rattle.laws.specs.Call.{Gives};
ghost use Rattle.ipred.specs.Predict as predict;
ghost use Rattle.nbr.specs.Gather as gather;
ghost use Rattle.recon.specs.Recon as recon;
ghost use Rattle.recon.specs.Plane as plane;
ghost use Rattle.decoder_c.specs.Flags.{component_of};

use crate::component;
use def::Pel;

#[unsafe(no_mangle)]
pub extern "C" fn lomsakeun_get_nbr(
    chroma: bool,
    w: usize,
    h: usize,
    plane: &[u16],
    words: &[u32],
    x: usize,
    y: usize,
    side: usize,
    constrained: bool,
    run: &mut [u16],
) -> u8
    ensures { Gives gather.outcome
        (record { around = record { component = component_of chroma; w = w; h = h; plane = plane.now; words = words.now; x = x; y = y; side = side; constrained = constrained }; run = run.old })
        (record { number = result; run = run.new }) }
{
    def::answer_number(nbr::get_nbr(
        component(chroma),
        w,
        h,
        plane,
        words,
        Pel(x),
        Pel(y),
        side,
        constrained,
        run,
    ))
}

#[unsafe(no_mangle)]
pub extern "C" fn lomsakeun_ipred_b(mode: u8, side: usize, run: &[u16], block: &mut [u16]) -> u8
    ensures { Gives predict.outcome
        (record { mode = mode; side = side; run = run.now; block = block.old })
        (record { number = result; block = block.new }) }
{
    def::answer_number(ipred::ipred_b(mode, side, run, block))
}

#[unsafe(no_mangle)]
pub extern "C" fn lomsakeun_recon(
    coded: bool,
    side: usize,
    pred: &[u16],
    coef: &[i16],
    rec: &mut [u16],
) -> u8
    ensures { Gives recon.outcome
        (record { coded = coded; side = side; pred = pred.now; coef = coef.now; rec = rec.old })
        (record { number = result; rec = rec.new }) }
{
    def::answer_number(recon::recon(coded, side, pred, coef, rec))
}

#[unsafe(no_mangle)]
pub extern "C" fn lomsakeun_recon_plane(
    chroma: bool,
    w: usize,
    h: usize,
    x: usize,
    y: usize,
    side: usize,
    coded: bool,
    pred: &[u16],
    coef: &[i16],
    rec: &mut [u16],
) -> u8
    ensures { Gives plane.outcome
        (record { component = component_of chroma; w = w; h = h; x = x; y = y; side = side; coded = coded; pred = pred.now; coef = coef.now; rec = rec.old })
        (record { number = result; rec = rec.new }) }
{
    def::answer_number(recon::recon_plane(
        component(chroma),
        w,
        h,
        Pel(x),
        Pel(y),
        side,
        coded,
        pred,
        coef,
        rec,
    ))
}
