//! brk(2), mmap(2), munmap(2), mprotect(2) and madvise(2).
ghost use Rattle.std.specs.Prelude.{◌≡◌, ◌≤◌, ◌+◌, ◌*◌, ◌^◌, ◌<◌, Some, None, IfOk, IfErr, OnErr, OnOk};
ghost use Rattle.lx_machine.specs.Brk.{brk, lowered, raised};
ghost use Rattle.lx_machine.specs.Madvise.{madvise};
ghost use Rattle.lx_machine.specs.Rules.{short_outcome};
ghost use Rattle.lx_machine.specs.Table.{rules};
ghost use Rattle.lx_machine.specs.Mmap.{mapped_at, mapped_fixed, mmap};
ghost use Rattle.lx_machine.specs.Mprotect.{mprotect};
ghost use Rattle.lx_machine.specs.Munmap.{munmap};
ghost use Rattle.lx_machine.specs.Ranges.{rights_asked, space_refuses};

use crate::entry::{PAGE, is_fixed, pages_of};
use linux_abi::memory::{PROT_EXEC, PROT_READ, PROT_WRITE};
use linux_abi::{Call, LinuxErrno};
use lx_machine::buffer::NoMemory;
use lx_machine::calls::LxCall;
use lx_machine::refusal::LxRefusal;
use lx_machine::space::Space;
use lx_memory::queries::{all_free, all_mapped, any_executable, highest_gap};
use page_ranges::Rights;

/// The first page where a mapping without MAP_FIXED may lie.
const LOWEST_PAGE: u64 = 16;

/// The page behind the last one where such a mapping may lie.
const HIGHEST_PAGE: u64 = 0x7_fff0_0000;

/// The rights of the break's pages: PROT_READ and PROT_WRITE.
const BREAK_RIGHTS: u32 = 3;

/// MADV_DONTNEED (madvise(2)).
const DONT_NEED: u32 = 4;

/// A range of pages: those that a call has given up or made zeros.
#[derive(Clone, Copy)]
pub struct PageRange {
    pub first: u64,
    pub count: u64,
}

/// No pages.
const NO_PAGES: PageRange = PageRange { first: 0, count: 0 };

/// The rights that PROT_READ, PROT_WRITE and PROT_EXEC give.
fn rights_of(n: u32) -> Rights
    ensures { result ≡ rights_asked n }
{
    let n = u64::from(n);
    Rights {
        read: n / PROT_READ % 2 == 1,
        write: n / PROT_WRITE % 2 == 1,
        execute: n / PROT_EXEC % 2 == 1,
    }
}

/// The break moves up where the pages that it gets are free.
fn raise(space: &mut Space, call: &mut LxCall, at: u64) -> Result<PageRange, NoMemory>
    requires { space.old.break_at ≤ at }
    ensures ok { IfOk result (λ range. raised space.old call.old at ≡ record { space = space.new; call = call.new; first = range.first; count = range.count }) }
    ensures err { OnErr result ((space.new ≡ space.old) × (call.new ≡ call.old)) }
{
    let first = pages_of(space.break_at);
    let count = pages_of(at) - first;
    if all_free(&space.pages, first, count) {
        space
            .pages
            .map(first, count, rights_of(BREAK_RIGHTS))
            .map_err(|_| NoMemory)?;
        space.break_at = at;
        call.answer(at);
    } else {
        let stays = space.break_at;
        call.answer(stays);
    }
    Ok(NO_PAGES)
}

/// The break moves down, and the pages above it are unmapped.
fn lower(space: &mut Space, call: &mut LxCall, at: u64) -> PageRange
    requires { at < space.old.break_at }
    ensures { lowered space.old call.old at ≡ record { space = space.new; call = call.new; first = result.first; count = result.count } }
{
    let first = pages_of(at);
    let count = pages_of(space.break_at) - first;
    space.pages.unmap(first, count);
    space.break_at = at;
    call.answer(at);
    PageRange { first, count }
}

/// Moves the break, and answers it (brk(2)). Where memory is wanting, nothing changes.
pub fn brk(space: &mut Space, call: &mut LxCall) -> Result<PageRange, NoMemory>
    ensures ok { IfOk result (λ range. brk space.old call.old ≡ record { space = space.new; call = call.new; first = range.first; count = range.count }) }
    ensures err { OnErr result ((space.new ≡ space.old) × (call.new ≡ call.old)) }
{
    let at = call.arguments[0];
    if at < space.break_start {
        let stays = space.break_at;
        call.answer(stays);
        return Ok(NO_PAGES);
    }
    if space.break_at <= at {
        raise(space, call, at)
    } else {
        Ok(lower(space, call, at))
    }
}

/// The pages are mapped as zeros with the rights, whatever was there.
fn map_at(space: &mut Space, call: &mut LxCall, first: u64) -> Result<PageRange, NoMemory>
    requires { first < 2 ^ 52 }
    ensures ok { IfOk result (λ range. mapped_at space.old call.old first ≡ record { space = space.new; call = call.new; first = range.first; count = range.count }) }
    ensures err { OnErr result ((space.new ≡ space.old) × (call.new ≡ call.old)) }
{
    let count = pages_of(call.arguments[1]);
    let rights = rights_of(call.low_argument(2));
    space.pages.map(first, count, rights).map_err(|_| NoMemory)?;
    call.answer(first * PAGE);
    Ok(PageRange { first, count })
}

/// With MAP_FIXED, at the address, unless the code is there.
fn map_fixed(space: &mut Space, call: &mut LxCall) -> Result<PageRange, NoMemory>
    ensures ok { IfOk result (λ range. mapped_fixed space.old call.old ≡ record { space = space.new; call = call.new; first = range.first; count = range.count }) }
    ensures err { OnErr result ((space.new ≡ space.old) × (call.new ≡ call.old)) }
{
    let first = call.arguments[0] / PAGE;
    if any_executable(&space.pages, first, pages_of(call.arguments[1])) {
        call.refuse(LinuxErrno::EACCES);
        return Ok(NO_PAGES);
    }
    map_at(space, call, first)
}

/// Maps pages of zeros (mmap(2)). Where memory is wanting, nothing changes.
pub fn mmap(space: &mut Space, call: &mut LxCall) -> Result<PageRange, NoMemory>
    ensures ok { IfOk result (λ range. mmap space.old call.old ≡ record { space = space.new; call = call.new; first = range.first; count = range.count }) }
    ensures err { OnErr result ((space.new ≡ space.old) × (call.new ≡ call.old)) }
{
    if is_fixed(call.low_argument(3)) {
        return map_fixed(space, call);
    }
    let count = pages_of(call.arguments[1]);
    match highest_gap(&space.pages, count, LOWEST_PAGE, HIGHEST_PAGE) {
        Some(first) => map_at(space, call, first),
        None => {
            call.refuse(LinuxErrno::ENOMEM);
            Ok(NO_PAGES)
        }
    }
}

/// Unmaps pages (munmap(2)), and tells which.
pub fn munmap(space: &mut Space, call: &mut LxCall) -> PageRange
    ensures { munmap space.old call.old ≡ record { space = space.new; call = call.new; first = result.first; count = result.count } }
{
    let first = call.arguments[0] / PAGE;
    let count = pages_of(call.arguments[1]);
    if any_executable(&space.pages, first, count) {
        call.refuse(LinuxErrno::EACCES);
        return NO_PAGES;
    }
    space.pages.unmap(first, count);
    call.answer(0);
    PageRange { first, count }
}

/// Gives pages other rights (mprotect(2)).
pub fn mprotect(space: &mut Space, call: &mut LxCall)
    ensures { mprotect space.old call.old ≡ record { space = space.new; call = call.new; first = 0; count = 0 } }
{
    let first = call.arguments[0] / PAGE;
    let count = pages_of(call.arguments[1]);
    if !all_mapped(&space.pages, first, count) {
        call.refuse(LinuxErrno::ENOMEM);
        return;
    }
    if any_executable(&space.pages, first, count) {
        call.refuse(LinuxErrno::EACCES);
        return;
    }
    space
        .pages
        .protect(first, count, rights_of(call.low_argument(2)));
    call.answer(0);
}

/// Makes pages zeros, or takes an advice that does nothing (madvise(2)), and tells which pages are zeros now.
pub fn madvise(space: &mut Space, call: &mut LxCall) -> PageRange
    ensures { madvise space.old call.old ≡ record { space = space.new; call = call.new; first = result.first; count = result.count } }
{
    let first = call.arguments[0] / PAGE;
    let count = pages_of(call.arguments[1]);
    if !all_mapped(&space.pages, first, count) {
        call.refuse(LinuxErrno::ENOMEM);
        return NO_PAGES;
    }
    if call.low_argument(2) != DONT_NEED {
        call.answer(0);
        return NO_PAGES;
    }
    if any_executable(&space.pages, first, count) {
        call.refuse(LinuxErrno::EACCES);
        return NO_PAGES;
    }
    space.pages.zero(first, count);
    call.answer(0);
    PageRange { first, count }
}

/// A call where memory runs short: a break stays (brk(2)), and mmap(2), munmap(2) and mprotect(2) answer ENOMEM. Not
/// enabled: the call needs no memory.
pub fn run_short(space: &Space, call: &mut LxCall, kind: Call) -> Result<(), LxRefusal>
    ensures ok { OnOk result (short_outcome (rules kind) space.now call.old ≡ Some record { space = space.now; call = call.new; first = 0; count = 0 }) }
    ensures err { OnErr result (short_outcome (rules kind) space.now call.old ≡ None) }
    ensures kept { OnErr result (call.new ≡ call.old) }
    ensures no_step { IfErr result (λ e. e ≡ LxRefusal.NoStep) }
{
    match kind {
        Call::Brk => call.answer(space.break_at),
        Call::Mmap => call.refuse(LinuxErrno::ENOMEM),
        Call::Munmap => call.refuse(LinuxErrno::ENOMEM),
        Call::Mprotect => call.refuse(LinuxErrno::ENOMEM),
        _ => return Err(LxRefusal::NoStep),
    }
    Ok(())
}
