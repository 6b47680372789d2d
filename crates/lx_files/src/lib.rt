//! Descriptors and open files of the Linux machine, and the calls on them. Each file computes the definitions of the file of its
//! name among those of the machine.
#![tactic(auto)]

pub mod close;
pub mod descriptors;
pub mod dup;
pub mod eventfd;
pub mod fcntl;
pub mod files;
pub mod interests;
pub mod ioctl;
pub mod lists;
pub mod lseek;
pub mod pipe;
