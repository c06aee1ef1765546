// A split map in its compact form. A position is handed in and out through one `&mut`: on a refusal it is as it was.
ghost use Rattle.std.specs.Prelude.{◌≡◌};
ghost use Rattle.laws.specs.Call.{Gives};
ghost use Rattle.pack_rules.specs.GetCall as getting;
ghost use Rattle.pack_rules.specs.PutCall as putting;

#[unsafe(no_mangle)]
pub extern "C" fn lomsakeun_put_map(
    w: usize,
    h: usize,
    splits: &[u8],
    buf: &mut [u8],
    at: &mut usize,
) -> u8
    ensures { Gives putting.outcome
        (record { w = w; h = h; splits = splits.now; buf = buf.old; at = at.old })
        (record { number = result; at = at.new; buf = buf.new }) }
{
    let placed = pack::put_map(w, h, splits, buf, *at);
    *at = placed.at;
    def::answer_number(placed.answer)
}

#[unsafe(no_mangle)]
pub extern "C" fn lomsakeun_get_map(
    w: usize,
    h: usize,
    src: &[u8],
    at: &mut usize,
    map: &mut [u8],
) -> u8
    ensures { Gives getting.outcome
        (record { w = w; h = h; src = src.now; at = at.old; map = map.old })
        (record { number = result; at = at.new; map = map.new }) }
{
    let placed = unpack::get_map(w, h, src, *at, map);
    *at = placed.at;
    def::answer_number(placed.answer)
}
