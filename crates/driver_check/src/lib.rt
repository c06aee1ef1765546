// What stands before the first write of the driver: what is refused and in which order.
// No Rust stands beside it.
#![tactic(auto)]

mod check; // check.rt: the checks, and how far the leaves reach in the two lists
mod records; // records.rt: a leaf record in its list

pub use check::checked_leaves;
