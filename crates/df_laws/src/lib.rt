// No functions: what is proved of the calls of `df`, over their outcomes. specs/ has the statements, and proofs/ their proofs; no function's proof needs them.
#![tactic(auto)]
