ghost use Rattle.std.specs.Prelude.{◌≡◌, ◌<◌};
ghost use Rattle.bsd_abi.specs.BsdErrno.{bsd_errno_number};

/// The errors that a call of the FreeBSD kernel answers (errno(2)).
#[derive(Clone, Copy, Debug, PartialEq, Eq)]
pub enum BsdErrno {
    /// Operation not permitted.
    EPERM,
    /// No such file or directory.
    ENOENT,
    /// No such process.
    ESRCH,
    /// Interrupted call.
    EINTR,
    /// Input or output error.
    EIO,
    /// Bad file descriptor.
    EBADF,
    /// Resource temporarily unavailable.
    EAGAIN,
    /// Not enough memory.
    ENOMEM,
    /// Permission denied.
    EACCES,
    /// Bad address.
    EFAULT,
    /// File exists.
    EEXIST,
    /// No such device.
    ENODEV,
    /// Invalid argument.
    EINVAL,
    /// Too many open files in system.
    ENFILE,
    /// Too many open files.
    EMFILE,
    /// Inappropriate I/O control operation.
    ENOTTY,
    /// No space left on device.
    ENOSPC,
    /// Invalid seek.
    ESPIPE,
    /// Broken pipe.
    EPIPE,
    /// Resource deadlock avoided.
    EDEADLK,
    /// Function not implemented.
    ENOSYS,
    /// Too many levels of nesting.
    ELOOP,
    /// Connection or wait timed out.
    ETIMEDOUT,
}

impl BsdErrno {
    /// FreeBSD's number of the error.
    pub fn number(self) -> u64
        ensures value { result ≡ bsd_errno_number self }
        ensures range { (0 < result) × (result < 4096) }
    {
        match self {
            BsdErrno::EPERM => 1,
            BsdErrno::ENOENT => 2,
            BsdErrno::ESRCH => 3,
            BsdErrno::EINTR => 4,
            BsdErrno::EIO => 5,
            BsdErrno::EBADF => 9,
            BsdErrno::EAGAIN => 35,
            BsdErrno::ENOMEM => 12,
            BsdErrno::EACCES => 13,
            BsdErrno::EFAULT => 14,
            BsdErrno::EEXIST => 17,
            BsdErrno::ENODEV => 19,
            BsdErrno::EINVAL => 22,
            BsdErrno::ENFILE => 23,
            BsdErrno::EMFILE => 24,
            BsdErrno::ENOTTY => 25,
            BsdErrno::ENOSPC => 28,
            BsdErrno::ESPIPE => 29,
            BsdErrno::EPIPE => 32,
            BsdErrno::EDEADLK => 11,
            BsdErrno::ENOSYS => 78,
            BsdErrno::ELOOP => 62,
            BsdErrno::ETIMEDOUT => 60,
        }
    }
}
