//! The state in which a program starts (execve(2), ELF-64).
ghost use Rattle.std.specs.Prelude.{◌≡◌, ℕ, ◌+◌, ◌-◌, ◌*◌, ◌/◌, ◌<◌, ◌≤◌, ◌∷◌, [], ◌^◌, map, length, replicate, string_bytes, All, IfOk, OnOk, Some, None};
ghost use Rattle.elf_image.specs.Layout.{IsPlaced};
ghost use Rattle.lx_machine.specs.Stack.{arguments_of, name_of, stack_end};
ghost use Rattle.lx_machine.specs.Start.{end_page, first_descriptor, first_file, first_files, first_thread, last_end, rights_of, start, with_return_page, with_segment, with_segments};
ghost use Rattle.lx_start.specs.FirstStack.{IsInStack};
ghost use Rattle.lx_start.specs.Parts.{with_parts, pages_with, space_with, regs_with, state_with};
ghost use Rattle.lx_memory.specs.Ranges.{mapped, anew, IsOnEach};
ghost use Rattle.lx_machine.specs.Signal.{default_action};

use crate::stack::{FirstStack, STACK_END, STACK_PAGES, first_stack};
use a64_model::regs::Regs;
use elf_image::{Image, Segment};
use lx_machine::buffer::{Bytes, NoMemory, Room};
use lx_machine::files::{
    Counter, DESCRIPTORS, Descriptor, EPOLLS, FileKind, Files, Input, Interests, OPEN_FILES,
    OpenFile, PIPES,
};
use lx_machine::label::LxSide;
use lx_machine::pi_queue::PiQueue;
use lx_machine::queue::Queue;
use lx_machine::signals::{Action, Pending};
use lx_machine::space::Space;
use lx_machine::state::{LinuxState, Slot};
use lx_machine::thread_table::Threads;
use lx_machine::threads::{AltStack, Life, LxThread};
use lx_memory::Memory;
use page_ranges::Rights;
use std::alloc::Global;
use std::array::from_fn;

/// The bytes of a page.
const PAGE: u64 = 4096;

/// How many pages there is room for: 1 GiB.
const ROOM: u32 = 262_144;

/// The tid of the first thread.
const FIRST_TID: u32 = 1000;

/// The stack can be read and written.
const STACK_RIGHTS: Rights = Rights {
    read: true,
    write: true,
    execute: false,
};

/// The return code can be read and executed.
const CODE_RIGHTS: Rights = Rights {
    read: true,
    write: false,
    execute: true,
};

/// `mov x8, #139; svc #0`: rt_sigreturn(2).
const RETURN_CODE: [u8; 8] = [0x68, 0x11, 0x80, 0xd2, 0x01, 0x00, 0x00, 0xd4];

/// The rights of a segment's pages: code can be read, and so can what can be written.
fn rights_of(segment: &Segment) -> Rights
    ensures { result ≡ rights_of segment.now }
{
    Rights {
        read: segment.read || segment.write || segment.execute,
        write: segment.write,
        execute: segment.execute,
    }
}

/// The page behind the last one of a segment.
fn end_page(segment: &Segment) -> u64
    requires { IsPlaced segment.now }
    ensures same { result ≡ end_page segment.now }
    ensures high { result ≤ 0x7f0000000 }
{
    (segment.at + segment.size + (PAGE - 1)) / PAGE
}

/// The page behind the highest segment.
fn last_end(segments: &[Segment]) -> u64
    requires { All IsPlaced segments.now }
    ensures same { result ≡ last_end segments.now }
    ensures high { result ≤ 0x7f0000000 }
{
    match segments {
        [] => 0,
        [segment, rest @ ..] => end_page(segment).max(last_end(rest)),
    }
}

/// Maps so many pages from a first one on, as zeros.
fn map_pages(memory: &mut Memory, first: u64, count: u64, rights: Rights) -> Result<(), NoMemory>
    ensures ok { OnOk result (memory.new ≡ mapped memory.old first count rights) }
    ensures each { OnOk result (IsOnEach (anew rights) memory.old first count memory.new) }
{
    memory.map(first, count, rights).map_err(|_| NoMemory)
}

/// A segment's pages, with its bytes.
fn add_segment(memory: &mut Memory, segment: &Segment) -> Result<(), NoMemory>
    requires { IsPlaced segment.now }
    ensures { OnOk result (memory.new ≡ with_segment memory.old segment.now) }
{
    let first = segment.at / PAGE;
    map_pages(memory, first, end_page(segment) - first, rights_of(segment))?;
    memory.store(segment.at, segment.bytes.as_slice());
    Ok(())
}

/// The pages of each segment.
fn add_segments(memory: &mut Memory, segments: &[Segment]) -> Result<(), NoMemory>
    requires { All IsPlaced segments.now }
    ensures { OnOk result (memory.new ≡ with_segments memory.old segments.now) }
{
    match segments {
        [] => Ok(()),
        [segment, rest @ ..] => {
            add_segment(memory, segment)?;
            add_segments(memory, rest)
        }
    }
}

/// The pages of the stack, with the table and what stands above it.
fn add_stack(memory: &mut Memory, stack: &FirstStack) -> Result<(), NoMemory>
    requires { IsInStack stack.now }
    ensures { OnOk result (memory.new ≡ with_parts memory.old stack.now) }
{
    map_pages(
        memory,
        STACK_END / PAGE - STACK_PAGES,
        STACK_PAGES,
        STACK_RIGHTS,
    )?;
    memory.store(stack.sp, &stack.table);
    memory.store(stack.texts_at, &stack.texts);
    Ok(())
}

/// The page above the stack, with the return code.
fn add_return_page(memory: &mut Memory) -> Result<(), NoMemory>
    ensures { OnOk result (memory.new ≡ with_return_page memory.old) }
{
    map_pages(memory, STACK_END / PAGE, 1, CODE_RIGHTS)?;
    memory.store(STACK_END, &RETURN_CODE);
    Ok(())
}

/// The first pages.
fn first_pages(alloc: Global, image: &Image, stack: &FirstStack) -> Result<Memory, NoMemory>
    requires placed { All IsPlaced image.now.segments }
    requires inside { IsInStack stack.now }
    ensures { IfOk result (λ pages. pages ≡ pages_with image.now stack.now) }
{
    let Ok(mut memory) = Memory::make(alloc, ROOM) else {
        return Err(NoMemory);
    };
    add_segments(&mut memory, image.segments.as_slice())?;
    add_stack(&mut memory, stack)?;
    add_return_page(&mut memory)?;
    Ok(memory)
}

/// Memory: the first pages, and a break behind the highest segment.
fn first_space(alloc: Global, image: &Image, stack: &FirstStack) -> Result<Space, NoMemory>
    requires placed { All IsPlaced image.now.segments }
    requires inside { IsInStack stack.now }
    ensures { IfOk result (λ space. space ≡ space_with image.now stack.now) }
{
    let pages = first_pages(alloc, image, stack)?;
    let break_at = last_end(image.segments.as_slice()) * PAGE;
    Ok(Space {
        pages,
        break_at,
        break_start: break_at,
    })
}

/// The descriptors of the input and the two consoles.
fn first_descriptors() -> [Option<Descriptor>; DESCRIPTORS]
    ensures { result ≡ first_descriptor 0 ∷ first_descriptor 1 ∷ first_descriptor 2 ∷ replicate 253 None }
{
    let mut descriptors = [None; DESCRIPTORS];
    descriptors[0] = descriptor(0);
    descriptors[1] = descriptor(1);
    descriptors[2] = descriptor(2);
    descriptors
}

/// A descriptor of this open file.
fn descriptor(file: u32) -> Option<Descriptor>
    ensures { result ≡ first_descriptor file }
{
    Some(Descriptor {
        file,
        close_on_exec: false,
    })
}

/// An open file that no call holds.
fn open_file(kind: FileKind) -> Option<OpenFile>
    ensures { result ≡ first_file kind }
{
    Some(OpenFile {
        kind,
        nonblocking: false,
        holds: 0,
    })
}

/// The open files of the input and the two consoles.
fn first_open_files() -> [Option<OpenFile>; OPEN_FILES]
    ensures { result ≡ first_file FileKind.Input ∷ first_file (FileKind.Console LxSide.Out) ∷ first_file (FileKind.Console LxSide.Err) ∷ replicate 381 None }
{
    let mut files = [None; OPEN_FILES];
    files[0] = open_file(FileKind::Input);
    files[1] = open_file(FileKind::Console(LxSide::Out));
    files[2] = open_file(FileKind::Console(LxSide::Err));
    files
}

/// No pipe.
fn no_pipes() -> [Option<Room>; PIPES]
    ensures { result ≡ replicate 64 None }
{
    from_fn(|_| None)
}

/// No eventfd counter.
fn no_counters() -> [Option<Counter>; OPEN_FILES]
    ensures { result ≡ replicate 384 None }
{
    [None; OPEN_FILES]
}

/// No epoll.
fn no_epolls() -> [Option<Interests>; EPOLLS]
    ensures { result ≡ replicate 32 None }
{
    from_fn(|_| None)
}

/// The input: all of these bytes are left.
fn first_input(alloc: Global, bytes: &[u8]) -> Result<Input, NoMemory>
    ensures { IfOk result (λ input. input ≡ bytes.now) }
{
    match Vec::from_slice(alloc, bytes) {
        Ok(bytes) => Ok(Input::from_vec(bytes)),
        Err(_) => Err(NoMemory),
    }
}

/// The first files: the input and the two consoles, on descriptors 0, 1 and 2.
fn first_files(alloc: Global, input: &[u8]) -> Result<Files, NoMemory>
    ensures { IfOk result (λ files. files ≡ first_files input.now) }
{
    let input = first_input(alloc, input)?;
    let out = Room::make(alloc)?;
    let err = Room::make(alloc)?;
    Ok(Files {
        descriptors: first_descriptors(),
        files: first_open_files(),
        pipes: no_pipes(),
        counters: no_counters(),
        epolls: no_epolls(),
        input,
        out,
        err,
        put_out: Bytes::empty(alloc),
        put_err: Bytes::empty(alloc),
    })
}

/// The first registers: all are 0 but for sp and pc.
fn first_regs(sp: u64, pc: u64) -> Regs
    ensures { result ≡ regs_with sp pc }
{
    Regs {
        x: [0; 31],
        sp,
        pc,
        nzcv: 0,
        tpidr: 0,
        v: [0; 32],
    }
}

/// The first thread.
fn first_thread(regs: Regs) -> LxThread
    ensures { result ≡ first_thread regs }
{
    LxThread {
        tid: FIRST_TID,
        life: Life::Live,
        regs,
        mark: None,
        mask: 0,
        saved_mask: None,
        alt_stack: AltStack {
            at: 0,
            size: 0,
            enabled: false,
        },
        clear_at: 0,
        robust_head: 0,
        pending: Pending::empty(),
        trap: None,
        taken: None,
        is_doomed: false,
        call: None,
    }
}

/// The first thread in the first place, and no other.
fn first_threads(alloc: Global, thread: LxThread) -> Result<Threads, NoMemory>
    ensures { IfOk result (λ threads. threads ≡ Some thread ∷ replicate 127 None) }
{
    let mut threads = Threads::make(alloc)?;
    if let Some(slot) = Slot::new(0) {
        threads.put(slot, thread);
    }
    Ok(threads)
}

/// Each signal has its default action.
fn first_actions() -> [Action; 64]
    ensures { result ≡ replicate 64 default_action }
{
    [Action {
        handler: 0,
        flags: 0,
        restorer: 0,
        mask: 0,
    }; 64]
}

/// The first state of a program with this first stack.
fn state_with(
    alloc: Global,
    image: &Image,
    stack: &FirstStack,
    input: &[u8],
    rules: u8,
) -> Result<LinuxState, NoMemory>
    requires placed { All IsPlaced image.now.segments }
    requires inside { IsInStack stack.now }
    ensures { IfOk result (λ state. state ≡ state_with image.now stack.now input.now rules) }
{
    let space = first_space(alloc, image, stack)?;
    let queue = Queue::make(alloc)?;
    let files = first_files(alloc, input)?;
    let thread = first_thread(first_regs(stack.sp, image.entry));
    let threads = first_threads(alloc, thread)?;
    Ok(LinuxState {
        rules,
        threads,
        space,
        queue,
        pi_queue: PiQueue::empty(),
        files,
        actions: first_actions(),
        pending: Pending::empty(),
        clock: 0,
        next_tid: FIRST_TID + 1,
        end: None,
    })
}

/// The name that the first of the words is; empty where there is none.
fn name_in(words: &[String]) -> &[u8]
    ensures { result.now ≡ name_of (map string_bytes words.now) }
{
    match words {
        [] => &[],
        [name, ..] => name.as_bytes(),
    }
}

/// The arguments: the words behind the first.
fn arguments_in(words: &[String]) -> &[String]
    ensures { map string_bytes result.now ≡ arguments_of (map string_bytes words.now) }
{
    match words {
        [] => words,
        [_, arguments @ ..] => arguments,
    }
}

/// The state in which a program starts. `words` are the name of the image and the arguments behind it; without any the
/// name is empty. `input` is what the program reads from descriptor 0, and `seed` gives its random bytes. By the rules 1 there
/// are 32 places for threads, and 128 by the rules 2. `NoMemory`: memory is wanting, the image has more pages than there is
/// room for, or the stack's 64 pages have no room for the words.
pub fn first_state(
    alloc: Global,
    image: &Image,
    words: &[String],
    input: &[u8],
    seed: u64,
    rules: u8,
) -> Result<LinuxState, NoMemory>
    requires placed { All IsPlaced image.now.segments }
    requires known { (1 ≤ rules) × (rules ≤ 2) }
    ensures { IfOk result (λ state. state ≡ start image.now (name_of (map string_bytes words.now)) (arguments_of (map string_bytes words.now)) input.now seed rules) }
{
    let stack = first_stack(alloc, image, name_in(words), arguments_in(words), seed)?;
    state_with(alloc, image, &stack, input, rules)
}
