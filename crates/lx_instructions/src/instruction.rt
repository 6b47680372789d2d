//! Instr: the instruction at pc.
ghost use Rattle.std.specs.Prelude.{◌≡◌, false, IfOk, OnOk, OnErr, Ok, Err, pos};
ghost use Rattle.places.specs.Places.{number_of};
ghost use Rattle.a64_model.specs.Widths.{HasWidths};
ghost use Rattle.lx_memory.specs.Bytes.{bytes_at, IsMapped};
ghost use Rattle.a64_model.specs.Exec.{needed};
ghost use Rattle.a64_model.specs.Registers.{advanced};
ghost use Rattle.lx_machine.specs.Threads.{trapped, with_regs};
ghost use Rattle.lx_machine.specs.Instruction.{accessed, called, finished, followed, ran, trap_signal, with_access};
ghost use Rattle.lx_instructions.specs.Accesses.{HasRun, AsksLittle, IsSmall, IsNoCall, is_supervisor_call};

use crate::access::accessed;
use a64_decode::decode;
use a64_model::access::{Access, Next};
use a64_model::instr::Instr;
use a64_model::regs::Regs;
use linux_abi::LinuxSig;
use lx_calls::entry::enter;
use lx_machine::buffer::NoMemory;
use lx_machine::calls::LxCall;
use lx_machine::signals::{Origin, SigInfo};
use lx_machine::threads::LxThread;
use lx_memory::queries::is_allowed;
use lx_memory::{Memory, Right};
use std::alloc::Global;
use vector_moves::every_row::{finish, need};

/// How many bytes an instruction has written, from which address on.
#[derive(Clone, Copy)]
pub struct Written {
    pub at: u64,
    pub len: u64,
}

/// Nothing was written.
const NOTHING: Written = Written { at: 0, len: 0 };

/// The signal of a trap's number.
fn trap_signal(n: u8) -> LinuxSig
    ensures { result ≡ trap_signal n }
{
    match n {
        5 => LinuxSig::SIGTRAP,
        7 => LinuxSig::SIGBUS,
        _ => LinuxSig::SIGSEGV,
    }
}

/// The thread has trapped with this signal.
fn trap(thread: &mut LxThread, signal: LinuxSig, code: i32, address: u64)
    ensures { thread.new ≡ trapped thread.old signal code address }
{
    thread.trap = Some(SigInfo {
        signal,
        code,
        origin: Origin::Address(address),
    });
}

/// The word at an address of mapped pages.
fn word_at(memory: &Memory, at: u64) -> u32
    requires { IsMapped memory.now at 4 }
    ensures { result ≡ number_of (bytes_at memory.now at 4) }
{
    let mut bytes = [0; 4];
    memory.load(at, &mut bytes);
    u32::from_le_bytes(bytes)
}

/// The call that SVC enters has the number in x8 and its arguments in x0 to x5.
fn called(alloc: Global, regs: &Regs) -> LxCall
    ensures { result ≡ called regs.now }
{
    let [a, b, c, d, e, f, ..] = regs.x;
    LxCall::new(alloc, regs.x[8], [a, b, c, d, e, f])
}

/// What comes after an instruction that is no SVC: nothing, or a trap.
fn follow(thread: &mut LxThread, next: Next)
    requires { IsNoCall next }
    ensures { thread.new ≡ followed thread.old next }
{
    if let Next::Trap {
        signal,
        code,
        address,
    } = next
    {
        trap(thread, trap_signal(signal), code, address);
    }
}

/// Whether the instruction is SVC.
fn is_supervisor_call(instr: Instr) -> bool
    ensures { result ≡ is_supervisor_call instr }
{
    matches!(instr, Instr::SupervisorCall)
}

/// SVC: the thread enters the call.
fn call(alloc: Global, thread: &mut LxThread) -> Result<(), NoMemory>
    ensures ok { OnOk result (thread.new ≡ followed (with_regs thread.old (advanced thread.old.regs)) Next.Call) }
    ensures err { OnErr result (thread.new ≡ thread.old) }
{
    let mut call = called(alloc, &thread.regs);
    enter(alloc, thread.regs.sp, &mut call)?;
    thread.regs.advance();
    thread.mark = None;
    thread.call = Some(call);
    Ok(())
}

/// An instruction that is no SVC, which asks this of memory.
#[tactic(auto, using(crate::proofs::Answering::is_answer, crate::proofs::Answering::no_call))]
fn execute_access(
    memory: &mut Memory,
    thread: &mut LxThread,
    instr: Instr,
    access: Access,
) -> Written
    requires widths { HasWidths instr }
    requires asked { needed thread.old.regs instr ≡ Ok access }
    requires small { IsSmall access }
    requires no_call { is_supervisor_call instr ≡ false }
    ensures { HasRun memory.new thread.new result (finished thread.old instr (accessed memory.old thread.old.mark access)) }
{
    let answered = accessed(memory, thread.mark, access);
    thread.mark = answered.mark;
    let next = finish(&mut thread.regs, instr, answered.answer);
    follow(thread, next);
    Written {
        at: answered.at,
        len: answered.written,
    }
}

/// An instruction, with the access that it needs, or the trap where alignment refuses it. Where memory is wanting for the
/// call of an SVC, nothing changes.
#[tactic(auto, using(crate::proofs::Small::asks_little))]
fn execute(
    alloc: Global,
    memory: &mut Memory,
    thread: &mut LxThread,
    instr: Instr,
) -> Result<Written, NoMemory>
    requires { HasWidths instr }
    ensures ok { IfOk result (λ written. HasRun memory.new thread.new written (with_access memory.old thread.old instr (needed thread.old.regs instr))) }
    ensures err { OnErr result ((memory.new ≡ memory.old) × (thread.new ≡ thread.old)) }
{
    if is_supervisor_call(instr) {
        call(alloc, thread)?;
        return Ok(NOTHING);
    }
    match need(&thread.regs, instr) {
        Ok(access) => Ok(execute_access(memory, thread, instr, access)),
        Err(next) => {
            follow(thread, next);
            Ok(NOTHING)
        }
    }
}

/// The instruction at pc: what it writes, and what becomes of its thread. A pc that is no multiple of 4 is SIGBUS, one
/// without the right to execute SIGSEGV, and a word without a row SIGILL, each as a trap of the thread. Where memory is
/// wanting, nothing changes.
pub fn run(alloc: Global, memory: &mut Memory, thread: &mut LxThread) -> Result<Written, NoMemory>
    ensures ok { IfOk result (λ written. HasRun memory.new thread.new written (ran memory.old thread.old)) }
    ensures err { OnErr result ((memory.new ≡ memory.old) × (thread.new ≡ thread.old)) }
{
    let pc = thread.regs.pc;
    if pc % 4 != 0 {
        trap(thread, LinuxSig::SIGBUS, 1, pc);
        return Ok(NOTHING);
    }
    if !is_allowed(memory, Right::Execute, pc, 4) {
        trap(thread, LinuxSig::SIGSEGV, 0, pc);
        return Ok(NOTHING);
    }
    match decode(word_at(memory, pc)) {
        Some(instr) => execute(alloc, memory, thread, instr),
        None => {
            trap(thread, LinuxSig::SIGILL, 1, pc);
            Ok(NOTHING)
        }
    }
}
