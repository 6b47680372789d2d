//! When the files of the FreeBSD kernel's model stand for those of the Linux machine, and that each entry on files keeps it: a
//! change of an interest in two entries, a look at a queue, and every event of an open file. The definitions stand in `specs/`,
//! the lemmas in `proofs/`; the crate has no function.
#![tactic(auto)]
