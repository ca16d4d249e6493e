// The theorems over the definitions of document 01 stand in specs/. This crate has no code.
#![tactic(auto)]
