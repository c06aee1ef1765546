// A leaf record in its list: its mask, and how many residuals it takes.
ghost use Rattle.std.specs.Prelude.{◌≡◌, ◌+◌, ◌≤◌};
ghost use Rattle.driver_rules.specs.Records.{record_mask, residual_count, end_v};

use def::Component;
use leaf_record::{coded_u, coded_v, coded_y};

// ---- the record

// The mask of leaf k, 0 where the list ends before it.
pub(crate) fn mask_at(leaves: &[u8], k: usize) -> u8
    requires { k ≤ 1048576 }
    ensures { result ≡ record_mask leaves.now k }
{
    let i = 4 * k + 2;
    if i < leaves.len() {
        return leaves[i];
    }
    0
}

// ---- its residuals

// Residuals of a leaf in a component.
fn residual_count(part: Component, coded: bool, side: usize) -> usize
    requires { side ≤ 64 }
    ensures { (result ≡ residual_count part coded side) × (result ≤ 4096) }
{
    let n = def::in_component(part, side);
    if coded {
        return n * n;
    }
    0
}

// Where those of a leaf end that start at `at`. A mask of Y alone asks nothing of U and V.
pub(crate) fn leaf_end(at: usize, mask: u8, side: usize) -> usize
    requires { (side ≤ 64) × (at ≤ 1099511627776) }
    ensures { (result ≡ end_v at mask side) × (result ≤ at + 12288) }
{
    let y = residual_count(Component::Luma, coded_y(mask), side);
    if mask <= 1 {
        return at + y;
    }
    let u = residual_count(Component::Chroma, coded_u(mask), side);
    let v = residual_count(Component::Chroma, coded_v(mask), side);
    at + y + u + v
}
