//! rt_sigreturn(2).
ghost use Rattle.std.specs.Prelude.{◌≡◌, ◌≤◌, ◌<◌, ◌+◌, ◌-◌, ◌*◌, ◌++◌, drop, length, take, IfOk, IfSome, OnErr, None};
ghost use Rattle.std.specs.Option.{unwrap_or};
ghost use Rattle.lx_machine.specs.Sigreturn.{numbers, record_in, restored, sigreturn_call, sigreturn_mask, sigreturn_pieces, sigreturn_regs, sigreturn_stage};

use crate::masks::blockable;
use crate::numbers::{number, rest};
use a64_model::regs::Regs;
use lx_machine::buffer::NoMemory;
use lx_machine::calls::{LxCall, Pieces, Stage};
use std::alloc::Global;
use vector_moves::read_record;

/// The place of ucontext in a frame.
const CONTEXT: u64 = 128;

/// How many bytes of ucontext are fetched.
const FETCHED: u64 = 992;

/// The places of the mask, x0, sp, pc and pstate in ucontext.
const MASK: usize = 40;

const X0: usize = 184;

const SP: usize = 432;

const PC: usize = 440;

const PSTATE: usize = 448;

/// The place of the record of the vector registers, and its size.
const RECORD: usize = 464;

const RECORD_SIZE: usize = 528;

/// What a thread with this stack pointer fetches: the first bytes of ucontext, unless sp is not aligned or they begin outside the
/// address space. Such a piece takes memory.
pub fn sigreturn_pieces(alloc: Global, sp: u64) -> Result<Pieces, NoMemory>
    ensures taken { OnErr result (1 ≤ length (sigreturn_pieces sp)) }
    ensures value { IfOk result (λ pieces. pieces ≡ sigreturn_pieces sp) }
{
    match sp.checked_add(CONTEXT) {
        Some(at) if sp % 16 == 0 => Pieces::one(alloc, at, FETCHED),
        _ => Ok(Pieces::none(alloc)),
    }
}

/// The piece is fetched, and then the call has its effect; where nothing could be fetched, the guest is killed.
pub fn sigreturn_stage(call: &LxCall) -> Stage
    ensures { result ≡ sigreturn_stage call.now }
{
    match call.pieces.as_slice() {
        [piece, ..] => Stage::Fetch(*piece),
        [] => {
            if call.fetched == 0 {
                Stage::Kill
            } else {
                Stage::Effect
            }
        }
    }
}

/// The numbers of x0 to x30, from the register i on.
#[tactic(auto, using(crate::proofs::Restored::read_more, crate::proofs::Restored::read_all))]
fn read_from(i: usize, bytes: &[u8], x: &mut [u64; 31])
    requires { i ≤ 31 }
    ensures { x.new ≡ take i x.old ++ numbers bytes.now (184 + 8 * i) (31 - i) }
{
    if i < 31 {
        x[i] = number(bytes, X0 + 8 * i);
        read_from(i + 1, bytes, x);
    }
}

/// The bytes of the record, if there are so many.
fn record_bytes(bytes: &[u8]) -> Option<&[u8; RECORD_SIZE]>
    ensures there { IfSome result (λ found. found.now ≡ take 528 (drop 464 bytes.now)) }
    ensures enough { IfSome result (λ found. 528 ≤ length (drop 464 bytes.now)) }
    ensures none { result ≡ None → length (drop 464 bytes.now) < 528 }
{
    rest(bytes, RECORD).first_chunk::<RECORD_SIZE>()
}

/// The vector registers of the record in these bytes, if one stands there.
fn record_in(bytes: &[u8]) -> Option<[u128; 32]>
    ensures { result ≡ record_in bytes.now }
{
    match record_bytes(bytes) {
        Some(record) => read_record(record),
        None => None,
    }
}

/// The vector registers in these bytes, where a record stands there.
fn read_vectors(v: &mut [u128; 32], bytes: &[u8])
    ensures { v.new ≡ unwrap_or (record_in bytes.now) v.old }
{
    if let Some(read) = record_in(bytes) {
        *v = read;
    }
}

/// The registers in these bytes.
fn read_regs(regs: &mut Regs, bytes: &[u8])
    ensures { regs.new ≡ restored regs.old bytes.now }
{
    read_from(0, bytes, &mut regs.x);
    regs.sp = number(bytes, SP);
    regs.pc = number(bytes, PC);
    regs.nzcv = (number(bytes, PSTATE) / (1 << 28) % 16) as u8;
    read_vectors(&mut regs.v, bytes);
}

/// The effect of rt_sigreturn(2) on a thread's registers and mask: they are those of the frame, and the result is its x0.
pub fn sigreturn(regs: &mut Regs, mask: &mut u64, call: &mut LxCall)
    ensures regs { regs.new ≡ sigreturn_regs regs.old call.old }
    ensures mask { mask.new ≡ sigreturn_mask call.old }
    ensures call { call.new ≡ sigreturn_call call.old }
{
    let bytes = call.bytes.as_slice();
    read_regs(regs, bytes);
    *mask = blockable(number(bytes, MASK));
    let x0 = number(bytes, X0);
    call.answer(x0);
}
