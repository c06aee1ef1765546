// No functions: what is said of every call's contract, as the checker reads it from the source: that it has one outcome.
#![tactic(auto)]
