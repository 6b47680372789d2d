//! Registers as the cases name them.

use crate::numbers::{flags, number, number_64};
use a64_model::regs::Regs;

/// Registers that are all different, at an address of no special kind.
pub fn registers() -> Regs {
    let mut x = [0xA5A5_A5A5_0000_0000; 31];
    for (n, value) in x.iter_mut().enumerate() {
        *value |= n as u64;
    }
    let mut v = [0x5A5A_5A5A_5A5A_5A5A_5A5A_5A5A_0000_0000; 32];
    for (n, value) in v.iter_mut().enumerate() {
        *value |= n as u128;
    }
    Regs {
        x,
        sp: 0x7_FFF0,
        pc: 0x40_1000,
        nzcv: 0,
        tpidr: 0x1122_3344_5566_7788,
        v,
    }
}

/// The general register of this name.
fn general<'a>(regs: &'a mut Regs, name: &str) -> Option<&'a mut u64> {
    let n = name.strip_prefix('x')?.parse::<usize>().ok()?;
    regs.x.get_mut(n)
}

/// The vector register of this name.
fn vector<'a>(regs: &'a mut Regs, name: &str) -> Option<&'a mut u128> {
    let n = name.strip_prefix('q')?.parse::<usize>().ok()?;
    regs.v.get_mut(n)
}

/// Gives the register of this name the value of these digits. None where there is no such register or value.
pub fn set_register(regs: &mut Regs, name: &str, digits: &str) -> Option<()> {
    match name {
        "sp" => regs.sp = number_64(digits)?,
        "pc" => regs.pc = number_64(digits)?,
        "tpidr" => regs.tpidr = number_64(digits)?,
        "nzcv" => regs.nzcv = flags(digits)?,
        _ if name.starts_with('q') => *vector(regs, name)? = number(digits)?,
        _ => *general(regs, name)? = number_64(digits)?,
    }
    Some(())
}
