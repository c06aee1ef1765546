// No functions: the map of edge rows. specs/ has its rule, what the calls over it refuse and do, and runs of its units, and proofs/ what follows from them.
#![tactic(auto)]
