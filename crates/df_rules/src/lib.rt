// No functions: the rules of deblocking. specs/ has its definitions, from a line in a plane to both passes, and proofs/ what follows from them.
#![tactic(auto)]
