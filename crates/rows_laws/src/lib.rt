// No functions: what is proved of every map of edge rows, over the outcomes of the calls that fill and edit it. specs/ has the statement, and proofs/ its proof; no function's proof needs it.
#![tactic(auto)]
