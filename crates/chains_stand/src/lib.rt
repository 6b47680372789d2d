//! What is so of the chains of waiters between any two entries, whatever busy threads still owe to them: where the notes of those
//! that sleep lead, that locks are awaited where the sleepers look, and that the Linux machine's queues are the chains' waiters. The
//! definitions stand in `specs/`, the lemmas in `proofs/`; the crate has no function.
#![tactic(auto)]
