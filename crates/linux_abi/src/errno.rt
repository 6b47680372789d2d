ghost use Rattle.std.specs.Prelude.{◌≡◌, ◌<◌};
ghost use Rattle.linux_abi.specs.LinuxErrno.{linux_errno_number, answer_of};

/// The errors that a Linux call answers (errno(3)).
#[derive(Clone, Copy, Debug, PartialEq, Eq)]
pub enum LinuxErrno {
    /// Operation not permitted.
    EPERM,
    /// No such file or directory.
    ENOENT,
    /// No such process.
    ESRCH,
    /// Interrupted call.
    EINTR,
    /// Input or output error.
    EIO,
    /// Bad file descriptor.
    EBADF,
    /// Resource temporarily unavailable.
    EAGAIN,
    /// Not enough memory.
    ENOMEM,
    /// Permission denied.
    EACCES,
    /// Bad address.
    EFAULT,
    /// File exists.
    EEXIST,
    /// No such device.
    ENODEV,
    /// Invalid argument.
    EINVAL,
    /// Too many open files in system.
    ENFILE,
    /// Too many open files.
    EMFILE,
    /// Inappropriate I/O control operation.
    ENOTTY,
    /// No space left on device.
    ENOSPC,
    /// Invalid seek.
    ESPIPE,
    /// Broken pipe.
    EPIPE,
    /// Resource deadlock avoided.
    EDEADLK,
    /// Function not implemented.
    ENOSYS,
    /// Too many levels of nesting.
    ELOOP,
    /// Connection or wait timed out.
    ETIMEDOUT,
}

impl LinuxErrno {
    /// Linux's number of the error, on arm64.
    pub fn number(self) -> u64
        ensures value { result ≡ linux_errno_number self }
        ensures range { (0 < result) × (result < 4096) }
    {
        match self {
            LinuxErrno::EPERM => 1,
            LinuxErrno::ENOENT => 2,
            LinuxErrno::ESRCH => 3,
            LinuxErrno::EINTR => 4,
            LinuxErrno::EIO => 5,
            LinuxErrno::EBADF => 9,
            LinuxErrno::EAGAIN => 11,
            LinuxErrno::ENOMEM => 12,
            LinuxErrno::EACCES => 13,
            LinuxErrno::EFAULT => 14,
            LinuxErrno::EEXIST => 17,
            LinuxErrno::ENODEV => 19,
            LinuxErrno::EINVAL => 22,
            LinuxErrno::ENFILE => 23,
            LinuxErrno::EMFILE => 24,
            LinuxErrno::ENOTTY => 25,
            LinuxErrno::ENOSPC => 28,
            LinuxErrno::ESPIPE => 29,
            LinuxErrno::EPIPE => 32,
            LinuxErrno::EDEADLK => 35,
            LinuxErrno::ENOSYS => 38,
            LinuxErrno::ELOOP => 40,
            LinuxErrno::ETIMEDOUT => 110,
        }
    }
}

/// What a refused call leaves in x0: the negative of the error's number, as 64 bits (syscall(2)).
pub fn answer(e: LinuxErrno) -> u64
    ensures { result ≡ answer_of e }
{
    0u64.wrapping_sub(e.number())
}
