// No functions: which split bytes a walk reaches. specs/ has their places, and proofs/ that no other byte counts.
#![tactic(auto)]
