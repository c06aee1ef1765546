// No functions: the compact form of a split map, its digits as bits. specs/ has its definitions, and proofs/ what follows from them.
#![tactic(auto)]
