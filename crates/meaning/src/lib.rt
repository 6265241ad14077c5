// The meaning of document 01, as definitions (specs/), with the laws and the cases that stand beside it (proofs/). No function.
#![tactic(auto)]
