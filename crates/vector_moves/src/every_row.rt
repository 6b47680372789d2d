//! Both halves of an instruction of any row.
ghost use Rattle.std.specs.Prelude.{◌≡◌};
ghost use Rattle.a64_model.specs.Exec.{needed, after, next, IsAnswer};
ghost use Rattle.a64_model.specs.Widths.{HasWidths};

use crate::moves::{finish_vector, is_vector, need_vector};
use a64_model::access::{Access, Answer, Next};
use a64_model::instr::Instr;
use a64_model::regs::Regs;

/// What the instruction asks of memory: `Err` with the trap exactly where alignment refuses the access, which is SIGBUS
/// with code 1 and the address of the stack pointer or of the access. A row that makes no access asks nothing.
pub fn need(regs: &Regs, instr: Instr) -> Result<Access, Next>
    requires { HasWidths instr }
    ensures { result ≡ needed regs.now instr }
{
    if is_vector(instr) {
        need_vector(regs, instr)
    } else {
        a64_step::need(regs, instr)
    }
}

/// Ends an instruction whose access had this answer: writes the registers, and tells what comes next. SVC is a call, at
/// the next instruction; BRK is the trap SIGTRAP with code 1 at pc; a fault is SIGSEGV at its address, and it and BRK
/// change nothing.
pub fn finish(regs: &mut Regs, instr: Instr, answer: Answer) -> Next
    requires widths { HasWidths instr }
    requires answer { IsAnswer (needed regs.old instr) answer }
    ensures regs { regs.new ≡ after regs.old instr answer }
    ensures next { result ≡ next regs.old instr answer }
{
    if is_vector(instr) {
        finish_vector(regs, instr, answer)
    } else {
        a64_step::finish(regs, instr, answer)
    }
}
