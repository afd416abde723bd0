#![tactic(auto)]
// No code: the facts on Bools and on computed tests that the crates' proofs share stand in specs/.
