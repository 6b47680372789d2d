//! What an instruction did, as text: what it asked of memory, what comes next, and each register that it changed.

use a64_model::access::{Access, Next, SwapOp};
use a64_model::regs::Regs;
use std::alloc::AllocError;
use std::fmt::Write;

/// The name of an operation on memory.
fn swap_name(op: SwapOp) -> &'static str {
    match op {
        SwapOp::Add => "add",
        SwapOp::Clear => "clear",
        SwapOp::Xor => "exclusive-or",
        SwapOp::Set => "set",
        SwapOp::Swap => "swap",
        SwapOp::CompareSwap => "compare",
    }
}

/// Tells these bytes, the last one first.
fn tell_bytes(text: &mut String, bytes: &[u8; 32], len: u8) -> Result<(), AllocError> {
    for byte in bytes.iter().take(usize::from(len)).rev() {
        write!(text, "{byte:02X}")?;
    }
    Ok(())
}

/// Tells what is asked of memory: the address, the number of bytes, and the bytes that are stored or the number that an exchange
/// has, with the expected one of CAS.
pub fn tell_access(text: &mut String, access: Access) -> Result<(), AllocError> {
    match access {
        Access::None => Ok(()),
        Access::ClearMark => write!(text, " clear-mark"),
        Access::Load { at, len, mark } => {
            let name = if mark { "marked-load" } else { "load" };
            write!(text, " {name}@{at:X}+{len}")
        }
        Access::Store {
            at,
            len,
            bytes,
            exclusive,
        } => {
            let name = if exclusive {
                "exclusive-store"
            } else {
                "store"
            };
            write!(text, " {name}@{at:X}+{len}=")?;
            tell_bytes(text, &bytes, len)
        }
        Access::Swap {
            at,
            len,
            op,
            value,
            expected,
        } => {
            let name = swap_name(op);
            write!(text, " {name}@{at:X}+{len}={value:X}")?;
            match op {
                SwapOp::CompareSwap => write!(text, ",{expected:X}"),
                _ => Ok(()),
            }
        }
    }
}

/// Tells that an access is refused, with the trap.
pub fn tell_refused(text: &mut String, next: Next) -> Result<(), AllocError> {
    write!(text, " refused")?;
    tell_next(text, next)
}

/// Tells a call, or a trap with its signal, code and address.
pub fn tell_next(text: &mut String, next: Next) -> Result<(), AllocError> {
    match next {
        Next::Go => Ok(()),
        Next::Call => write!(text, " call"),
        Next::Trap {
            signal,
            code,
            address,
        } => write!(text, " trap={signal},{code},{address:X}"),
    }
}

/// The address behind an instruction: that of the next one, or its own where it is a trap.
fn pc_after(before: &Regs, next: Next) -> u64 {
    match next {
        Next::Trap { .. } => before.pc,
        _ => before.pc.wrapping_add(4),
    }
}

/// Tells each register that has changed, and pc where it isn't behind the instruction.
pub fn tell_changes(
    text: &mut String,
    before: &Regs,
    after: &Regs,
    next: Next,
) -> Result<(), AllocError> {
    for (n, (old, new)) in before.x.iter().zip(&after.x).enumerate() {
        if old != new {
            write!(text, " x{n}={new:X}")?;
        }
    }
    for (n, (old, new)) in before.v.iter().zip(&after.v).enumerate() {
        if old != new {
            write!(text, " q{n}={new:X}")?;
        }
    }
    tell_special(text, before, after, next)
}

/// The same of the registers that aren't general.
fn tell_special(
    text: &mut String,
    before: &Regs,
    after: &Regs,
    next: Next,
) -> Result<(), AllocError> {
    let (sp, pc, nzcv, tpidr) = (after.sp, after.pc, after.nzcv, after.tpidr);
    if before.sp != sp {
        write!(text, " sp={sp:X}")?;
    }
    if pc_after(before, next) != pc {
        write!(text, " pc={pc:X}")?;
    }
    if before.nzcv != nzcv {
        write!(text, " nzcv={nzcv:04b}")?;
    }
    if before.tpidr != tpidr {
        write!(text, " tpidr={tpidr:X}")?;
    }
    Ok(())
}
