//! Why the cases can't be played on.

use outside::{Failed, LoadFault};
use std::alloc::AllocError;

/// What went wrong.
#[derive(Drop)]
pub enum Trouble {
    /// Memory ran out.
    NoMemory,
    /// A file of cases can't be read, or what is printed can't be written.
    Failed,
}

impl Trouble {
    /// The trouble in words.
    pub fn text(self) -> &'static str {
        match self {
            Trouble::NoMemory => "no memory\n",
            Trouble::Failed => "a file can't be read or written\n",
        }
    }
}

impl From<AllocError> for Trouble {
    fn from(_error: AllocError) -> Trouble {
        Trouble::NoMemory
    }
}

impl From<Failed> for Trouble {
    fn from(_failed: Failed) -> Trouble {
        Trouble::Failed
    }
}

impl From<LoadFault> for Trouble {
    fn from(fault: LoadFault) -> Trouble {
        match fault {
            LoadFault::NoMemory => Trouble::NoMemory,
            LoadFault::Failed | LoadFault::TooLong { .. } => Trouble::Failed,
        }
    }
}
