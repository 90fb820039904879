// Document 01's starred examples as one proved table, in specs/. There is no code in this crate.
#![tactic(auto)]
