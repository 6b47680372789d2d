//! Epolls of the Linux machine: what is ready, what they answer, and the calls that make, change and wait for them. Each file
//! computes the definitions of the file of its name among those of the machine.
#![tactic(auto)]

pub mod epoll;
pub mod epoll_create;
pub mod epoll_ctl;
pub mod epoll_wait;
