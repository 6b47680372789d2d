//! What a thread of the modelled FreeBSD kernel, and what its process keeps of it, are in the Linux machine: one function from the
//! one to the other, field by field; the phase of a thread, which is that of what its call does next in the Linux machine; and when
//! threads and process stand for a Linux state. The definitions stand in `specs/`, the lemmas in `proofs/`; the crate has no
//! function.
#![tactic(auto)]
