// No functions: the marks of a split tree, its blocks of 8 or more in the order of the walk. specs/ has their definitions, proofs/ what follows from them.
#![tactic(auto)]
