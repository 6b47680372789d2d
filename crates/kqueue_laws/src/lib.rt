//! What is so of the interests of a kqueue, whichever machine they serve: two knotes that stand for one interest, what a change
//! leaves of the other names, and what a scan leaves and reports. The definitions stand in `specs/`, the lemmas in `proofs/`; the
//! crate has no function.
#![tactic(auto)]
