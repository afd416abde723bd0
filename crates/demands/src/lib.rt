#![tactic(auto)]
// No code: what the engine promises as a whole stands in specs/Demands.antt, proved from the crates' definitions.
