//! The traps of an access, for every row that makes one.
ghost use Rattle.std.specs.Prelude.{◌≡◌};
ghost use Rattle.a64_model.specs.ExecLoadsStores.{misaligned, with_base};
ghost use Rattle.a64_model.specs.Exec.{faulted};

use a64_model::access::{Access, Fault, Next};
use a64_model::operands::Reg;
use a64_model::regs::Regs;

/// The trap of an access that alignment refuses: SIGBUS, 7, with code 1.
pub fn misaligned(address: u64) -> Next
    ensures { result ≡ misaligned address }
{
    Next::Trap {
        signal: 7,
        code: 1,
        address,
    }
}

/// An access by a base, which as the stack pointer has to be a multiple of 16.
pub fn with_base(regs: &Regs, rn: Reg, access: Access) -> Result<Access, Next>
    ensures { result ≡ with_base regs.now rn access }
{
    if rn.number == 31 && regs.sp % 16 != 0 {
        return Err(misaligned(regs.sp));
    }
    Ok(access)
}

/// The trap of an access that faulted: SIGSEGV, 11, whose code is judged later.
pub fn faulted(fault: Fault) -> Next
    ensures { result ≡ faulted fault }
{
    Next::Trap {
        signal: 11,
        code: 0,
        address: fault.address,
    }
}
