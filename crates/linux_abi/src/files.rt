//! Flags and operations of the calls on descriptors.
ghost use Rattle.std.specs.Prelude.{◌≡◌, Some, IfSome};
ghost use Rattle.linux_abi.specs.DescriptorOperation.{descriptor_operation_number, descriptor_operation_of};

/// Open for writing alone (open(2)); the access mode is in the two lowest bits, and 0 is for reading alone.
pub const O_WRONLY: u64 = 1;
/// Open for reading and writing (open(2)).
pub const O_RDWR: u64 = 2;
/// A call on the open file answers EAGAIN in place of waiting (open(2)).
pub const O_NONBLOCK: u64 = 0x800;
/// Sets the close flag of the new descriptor (open(2), dup(2), pipe(2)).
pub const O_CLOEXEC: u64 = 0x80000;
/// The close flag, as fcntl(2) reads and sets it.
pub const FD_CLOEXEC: u64 = 1;
/// A read of the counter takes 1 (eventfd(2)).
pub const EFD_SEMAPHORE: u64 = 1;
/// O_NONBLOCK, for a new counter (eventfd(2)).
pub const EFD_NONBLOCK: u64 = O_NONBLOCK;
/// O_CLOEXEC, for a new counter (eventfd(2)).
pub const EFD_CLOEXEC: u64 = O_CLOEXEC;
/// The most vectors of one readv(2) or writev(2).
pub const IOV_MAX: u64 = 1024;

/// The operations of fcntl(2) that are known.
#[derive(Clone, Copy)]
pub enum DescriptorOperation {
    /// F_DUPFD: a copy on the least free number from the argument on.
    Duplicate,
    /// F_GETFD: the close flag.
    GetCloseFlag,
    /// F_SETFD: sets the close flag.
    SetCloseFlag,
    /// F_GETFL: access mode and status flags.
    GetStatus,
    /// F_SETFL: sets the status flags.
    SetStatus,
    /// F_DUPFD_CLOEXEC: as `Duplicate`, with the close flag set.
    DuplicateCloseOnExec,
}

impl DescriptorOperation {
    /// The operation of a number, and None exactly where none has it.
    #[tactic(auto, unfolding(crate::specs::DescriptorOperation::descriptor_operation_of))]
    pub fn new(number: u64) -> Option<DescriptorOperation>
        ensures value { result ≡ descriptor_operation_of number }
        ensures some { IfSome result (λ operation. descriptor_operation_number operation ≡ number) }
    {
        match number {
            0 => Some(DescriptorOperation::Duplicate),
            1 => Some(DescriptorOperation::GetCloseFlag),
            2 => Some(DescriptorOperation::SetCloseFlag),
            3 => Some(DescriptorOperation::GetStatus),
            4 => Some(DescriptorOperation::SetStatus),
            1030 => Some(DescriptorOperation::DuplicateCloseOnExec),
            _ => None,
        }
    }

    /// The operation's number (fcntl(2)).
    #[tactic(auto, unfolding(crate::specs::DescriptorOperation::descriptor_operation_of))]
    pub fn number(self) -> u64
        ensures value { result ≡ descriptor_operation_number self }
        ensures back { descriptor_operation_of result ≡ Some self }
    {
        match self {
            DescriptorOperation::Duplicate => 0,
            DescriptorOperation::GetCloseFlag => 1,
            DescriptorOperation::SetCloseFlag => 2,
            DescriptorOperation::GetStatus => 3,
            DescriptorOperation::SetStatus => 4,
            DescriptorOperation::DuplicateCloseOnExec => 1030,
        }
    }
}
