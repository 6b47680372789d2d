//! Waiters that a thread carries from one chain to another (`bsd_thread`).
ghost use Rattle.std.specs.Prelude.{◌≡◌, IsTrue};
ghost use Rattle.umtx_queue.specs.Carries.{AreApart};

use crate::chains::is_in;
use bsd_thread::Carry;
use case_words::answers::{Answer, Refusal};
use case_words::arguments::Arguments;
use umtx_queue::{Chain, Waiter};

/// A call on a carry.
#[derive(Clone, Copy)]
enum CarryCall {
    TakeOut { key: u64, n: u32, to: u64 },
    PutIn,
    Clear,
    Count,
}

/// The call of this name.
fn carry_call(name: &str, of: Arguments<'_>) -> Result<CarryCall, Refusal> {
    match name {
        "take-out" => Ok(CarryCall::TakeOut {
            key: of.number("key")?,
            n: of.number_32("n")?,
            to: of.number("to")?,
        }),
        "put-in" => Ok(CarryCall::PutIn),
        "clear" => Ok(CarryCall::Clear),
        "count" => Ok(CarryCall::Count),
        _ => Err(Refusal::NotACall),
    }
}

/// Whether none of these waiters waits in the chain at its slot and place.
fn are_apart(waiters: &[Waiter], chain: &Chain) -> bool
    ensures { IsTrue result → AreApart waiters.now chain.now.line.waiters }
{
    waiters
        .iter()
        .all(|waiter| !is_in(chain, waiter.slot, waiter.place))
}

fn put_in(carry: &mut Carry, chain: &mut Chain) -> Result<Answer, Refusal> {
    if !are_apart(carry.as_slice(), chain) {
        return Err(Refusal::NotMet);
    }
    carry.put_in(chain);
    Ok(Answer::Done)
}

/// Makes a call on a carry and a chain.
pub fn play_carry(
    carry: &mut Carry,
    chain: &mut Chain,
    name: &str,
    of: Arguments<'_>,
) -> Result<Answer, Refusal> {
    match carry_call(name, of)? {
        CarryCall::TakeOut { key, n, to } => {
            Ok(Answer::Number(u64::from(carry.take_out(chain, key, n, to))))
        }
        CarryCall::PutIn => put_in(carry, chain),
        CarryCall::Clear => {
            carry.clear();
            Ok(Answer::Done)
        }
        CarryCall::Count => Ok(Answer::Number(carry.as_slice().len() as u64)),
    }
}
