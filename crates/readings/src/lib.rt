// The laws of readings of a stretch stand in specs/. This crate has no code.
#![tactic(auto)]
