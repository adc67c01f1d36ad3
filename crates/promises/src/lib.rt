// Nothing but theorems, which stand in proofs/: what the crates below promise together.
#![tactic(auto)]
