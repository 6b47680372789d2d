//! Entries that stand in a list in the order of their keys, against the finite map that they make: the place of a key
//! among them, and what a change at that place does to the map. The definitions stand in `specs/Entries.antt`, the
//! lemmas in `proofs/`; the crate has no function.
#![tactic(auto)]
