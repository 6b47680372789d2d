//! FreeBSD's errors as Linux's.
ghost use Rattle.std.specs.Prelude.{◌≡◌, Some};
ghost use Rattle.linux_abi.specs.LinuxErrno.{linux_errno_number};
ghost use Rattle.bsd_abi.specs.BsdErrno.{bsd_errno_number};
ghost use Rattle.abi_map.specs.Errors.{errno_in_of, errno_out_of, linux_number_of};

use bsd_abi::BsdErrno;
use linux_abi::LinuxErrno;

/// The Linux error of a FreeBSD error: that of the same name, whose number may be another (FreeBSD's linux(4)).
pub fn errno_out(e: BsdErrno) -> LinuxErrno
    ensures value { result ≡ errno_out_of e }
    // The table has this error's number on Linux beside its number on FreeBSD.
    ensures numbers { linux_number_of (bsd_errno_number e) ≡ Some (linux_errno_number result) }
{
    match e {
        BsdErrno::EPERM => LinuxErrno::EPERM,
        BsdErrno::ENOENT => LinuxErrno::ENOENT,
        BsdErrno::ESRCH => LinuxErrno::ESRCH,
        BsdErrno::EINTR => LinuxErrno::EINTR,
        BsdErrno::EIO => LinuxErrno::EIO,
        BsdErrno::EBADF => LinuxErrno::EBADF,
        BsdErrno::EAGAIN => LinuxErrno::EAGAIN,
        BsdErrno::ENOMEM => LinuxErrno::ENOMEM,
        BsdErrno::EACCES => LinuxErrno::EACCES,
        BsdErrno::EFAULT => LinuxErrno::EFAULT,
        BsdErrno::EEXIST => LinuxErrno::EEXIST,
        BsdErrno::ENODEV => LinuxErrno::ENODEV,
        BsdErrno::EINVAL => LinuxErrno::EINVAL,
        BsdErrno::ENFILE => LinuxErrno::ENFILE,
        BsdErrno::EMFILE => LinuxErrno::EMFILE,
        BsdErrno::ENOTTY => LinuxErrno::ENOTTY,
        BsdErrno::ENOSPC => LinuxErrno::ENOSPC,
        BsdErrno::ESPIPE => LinuxErrno::ESPIPE,
        BsdErrno::EPIPE => LinuxErrno::EPIPE,
        BsdErrno::EDEADLK => LinuxErrno::EDEADLK,
        BsdErrno::ENOSYS => LinuxErrno::ENOSYS,
        BsdErrno::ELOOP => LinuxErrno::ELOOP,
        BsdErrno::ETIMEDOUT => LinuxErrno::ETIMEDOUT,
    }
}

/// The FreeBSD error of a Linux error: that of the same name. `errno_out` gives the Linux error back (FreeBSD's linux(4)).
pub fn errno_in(e: LinuxErrno) -> BsdErrno
    ensures value { result ≡ errno_in_of e }
    ensures back { errno_out_of result ≡ e }
{
    match e {
        LinuxErrno::EPERM => BsdErrno::EPERM,
        LinuxErrno::ENOENT => BsdErrno::ENOENT,
        LinuxErrno::ESRCH => BsdErrno::ESRCH,
        LinuxErrno::EINTR => BsdErrno::EINTR,
        LinuxErrno::EIO => BsdErrno::EIO,
        LinuxErrno::EBADF => BsdErrno::EBADF,
        LinuxErrno::EAGAIN => BsdErrno::EAGAIN,
        LinuxErrno::ENOMEM => BsdErrno::ENOMEM,
        LinuxErrno::EACCES => BsdErrno::EACCES,
        LinuxErrno::EFAULT => BsdErrno::EFAULT,
        LinuxErrno::EEXIST => BsdErrno::EEXIST,
        LinuxErrno::ENODEV => BsdErrno::ENODEV,
        LinuxErrno::EINVAL => BsdErrno::EINVAL,
        LinuxErrno::ENFILE => BsdErrno::ENFILE,
        LinuxErrno::EMFILE => BsdErrno::EMFILE,
        LinuxErrno::ENOTTY => BsdErrno::ENOTTY,
        LinuxErrno::ENOSPC => BsdErrno::ENOSPC,
        LinuxErrno::ESPIPE => BsdErrno::ESPIPE,
        LinuxErrno::EPIPE => BsdErrno::EPIPE,
        LinuxErrno::EDEADLK => BsdErrno::EDEADLK,
        LinuxErrno::ENOSYS => BsdErrno::ENOSYS,
        LinuxErrno::ELOOP => BsdErrno::ELOOP,
        LinuxErrno::ETIMEDOUT => BsdErrno::ETIMEDOUT,
    }
}
