// No functions: what the block driver is to do, and what follows of every picture that it finishes. specs/ has the definitions, proofs/ the laws.
#![tactic(auto)]
