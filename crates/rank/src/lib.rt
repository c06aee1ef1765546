// The visiting rank of a unit in its root. The Rust beside it: df.rs, the order in which evc_deblock_tree comes to the units.
#![tactic(auto)]

ghost use Rattle.laws.specs.Call.{Gives};
ghost use Rattle.rank.specs.RankCall as RankCall;

use def::{Refusal, Scu};
use rank_table::RANKS;

mod rank_table;

// The visiting rank of the unit of column x and row y in its root.
pub fn visiting_rank(x: Scu, y: Scu) -> Result<u8, Refusal>
    ensures { Gives RankCall.outcome (record { x = x.0; y = y.0 }) (record { reading = RankCall.reading_of result }) }
{
    let column = x.0;
    let row = y.0;
    if column >= 16 {
        return Err(Refusal::Block);
    }
    if row >= 16 {
        return Err(Refusal::Block);
    }
    Ok(RANKS[16 * row + column])
}
