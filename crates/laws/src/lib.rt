// No functions: what the other crates' contracts and proofs share. specs/ has the definitions, proofs/ the laws.
#![tactic(auto)]
