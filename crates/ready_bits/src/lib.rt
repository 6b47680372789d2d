//! Which events hold of an open file, by what it holds and which of its ends are left, as bits of epoll. Each machine asks
//! its files for these, so the definitions of `specs/Ready.antt` are shared, and so are the functions that compute them.
#![tactic(auto)]

ghost use Rattle.std.specs.Prelude.{◌≡◌, ◌≤◌};
ghost use Rattle.ready_bits.specs.Ready.{if_so, has_space, input_events, read_end_events, write_end_events, console_events, counter_events};

use linux_abi::epoll::{EPOLLERR, EPOLLHUP, EPOLLIN, EPOLLOUT};

/// The most bytes that a pipe or a console room holds (pipe(7), the capacity of a pipe).
const ROOM: usize = 65_536;

/// How many bytes have to be free where a write is ready (pipe(7), PIPE_BUF).
const SPACE: usize = 4096;

// The event, where it holds.
fn if_so(holds: bool, event: u32) -> u32
    ensures value { result ≡ if_so holds event }
    ensures most { result ≤ event }
{
    if holds { event } else { 0 }
}

/// Whether enough bytes are free in a room that holds so many.
pub fn has_space(held: usize) -> bool
    ensures { result ≡ has_space held }
{
    held <= ROOM - SPACE
}

/// The events of the input, of which so many bytes are left.
pub fn input_events(left: usize) -> u32
    ensures { result ≡ input_events left }
{
    if_so(left > 0, EPOLLIN) + EPOLLHUP
}

/// The events of the read end of a pipe that holds so many bytes.
pub fn read_end_events(held: usize, has_writer: bool) -> u32
    ensures { result ≡ read_end_events held has_writer }
{
    if_so(held > 0, EPOLLIN) + if_so(!has_writer, EPOLLHUP)
}

/// The events of the write end of a pipe that holds so many bytes.
pub fn write_end_events(held: usize, has_reader: bool) -> u32
    ensures { result ≡ write_end_events held has_reader }
{
    if_so(has_space(held), EPOLLOUT) + if_so(!has_reader, EPOLLERR)
}

/// The events of a console whose room holds so many bytes.
pub fn console_events(held: usize) -> u32
    ensures { result ≡ console_events held }
{
    if_so(has_space(held), EPOLLOUT)
}

/// The events of a counter of this value.
pub fn counter_events(value: u64) -> u32
    ensures { result ≡ counter_events value }
{
    if_so(value > 0, EPOLLIN) + if_so(value < u64::MAX - 1, EPOLLOUT)
}
