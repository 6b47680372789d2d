//! How the 16 shards and the areas of the FreeBSD kernel's model stand for the memory of the Linux machine: the words that read
//! and change several shards as one memory, the clauses that relate the two machines, and their laws. The definitions stand in
//! `specs/`, the lemmas in `proofs/`; the crate has no function.
#![tactic(auto)]
