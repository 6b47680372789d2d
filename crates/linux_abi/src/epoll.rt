//! Event bits and operations of epoll(7).
ghost use Rattle.std.specs.Prelude.{◌≡◌, Some, IfSome};
ghost use Rattle.linux_abi.specs.EpollBits.{is_edge, is_one_shot, is_exclusive, wanted};
ghost use Rattle.linux_abi.specs.EpollOperation.{epoll_operation_number, epoll_operation_of};

use crate::files::O_CLOEXEC;
use crate::flags::has_flag;

/// There are bytes to read (epoll_ctl(2)).
pub const EPOLLIN: u32 = 1;
/// There is an exceptional condition (epoll_ctl(2)).
pub const EPOLLPRI: u32 = 2;
/// There is room to write (epoll_ctl(2)).
pub const EPOLLOUT: u32 = 4;
/// The other end can't be written any more; reported unasked (epoll_ctl(2)).
pub const EPOLLERR: u32 = 8;
/// The other end is closed; reported unasked (epoll_ctl(2)).
pub const EPOLLHUP: u32 = 0x10;
/// The peer has closed its writing half (epoll_ctl(2)).
pub const EPOLLRDHUP: u32 = 0x2000;
/// Wakes one waiter of several (epoll_ctl(2)).
pub const EPOLLEXCLUSIVE: u32 = 1 << 28;
/// Disables the interest after a report (epoll_ctl(2)).
pub const EPOLLONESHOT: u32 = 1 << 30;
/// Reports on new activity alone (epoll_ctl(2)).
pub const EPOLLET: u32 = 1 << 31;
/// O_CLOEXEC, for a new epoll (epoll_create1(2)).
pub const EPOLL_CLOEXEC: u64 = O_CLOEXEC;

/// Whether an interest that asks for these bits reports on new activity alone.
pub fn is_edge(asked: u32) -> bool
    ensures { result ≡ is_edge asked }
{
    has_flag(u64::from(EPOLLET), u64::from(asked))
}

/// Whether a report disables an interest that asks for these bits.
pub fn is_one_shot(asked: u32) -> bool
    ensures { result ≡ is_one_shot asked }
{
    has_flag(u64::from(EPOLLONESHOT), u64::from(asked))
}

/// Whether an interest that asks for these bits wakes one waiter of several.
pub fn is_exclusive(asked: u32) -> bool
    ensures { result ≡ is_exclusive asked }
{
    has_flag(u64::from(EPOLLEXCLUSIVE), u64::from(asked))
}

/// The bits that an interest is told of: those that it asks for, and the two that are reported unasked.
pub fn wanted(asked: u32) -> u32
    ensures { result ≡ wanted asked }
{
    asked | (EPOLLERR + EPOLLHUP)
}

/// The operations of epoll_ctl(2).
#[derive(Clone, Copy)]
pub enum EpollOperation {
    /// EPOLL_CTL_ADD.
    Add,
    /// EPOLL_CTL_DEL.
    Delete,
    /// EPOLL_CTL_MOD.
    Change,
}

impl EpollOperation {
    /// The operation of a number, and None exactly where none has it.
    #[tactic(auto, unfolding(crate::specs::EpollOperation::epoll_operation_of))]
    pub fn new(number: u64) -> Option<EpollOperation>
        ensures value { result ≡ epoll_operation_of number }
        ensures some { IfSome result (λ operation. epoll_operation_number operation ≡ number) }
    {
        match number {
            1 => Some(EpollOperation::Add),
            2 => Some(EpollOperation::Delete),
            3 => Some(EpollOperation::Change),
            _ => None,
        }
    }

    /// The operation's number (epoll_ctl(2)).
    #[tactic(auto, unfolding(crate::specs::EpollOperation::epoll_operation_of))]
    pub fn number(self) -> u64
        ensures value { result ≡ epoll_operation_number self }
        ensures back { epoll_operation_of result ≡ Some self }
    {
        match self {
            EpollOperation::Add => 1,
            EpollOperation::Delete => 2,
            EpollOperation::Change => 3,
        }
    }
}
