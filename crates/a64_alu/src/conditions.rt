//! ConditionHolds.
ghost use Rattle.std.specs.Prelude.{◌≡◌};
ghost use Rattle.a64_model.specs.Conditions.{flag_n, flag_z, flag_c, flag_v, condition_holds};

use a64_model::operands::Condition;

/// The flag N of the flags as bits 3 to 0.
pub fn flag_n(nzcv: u8) -> bool
    ensures { result ≡ flag_n nzcv }
{
    nzcv / 8 % 2 == 1
}

/// The flag Z.
pub fn flag_z(nzcv: u8) -> bool
    ensures { result ≡ flag_z nzcv }
{
    nzcv / 4 % 2 == 1
}

/// The flag C.
pub fn flag_c(nzcv: u8) -> bool
    ensures { result ≡ flag_c nzcv }
{
    nzcv / 2 % 2 == 1
}

/// The flag V.
pub fn flag_v(nzcv: u8) -> bool
    ensures { result ≡ flag_v nzcv }
{
    nzcv % 2 == 1
}

/// Whether a condition holds of the flags N, Z, C and V, bits 3 to 0 of `nzcv`.
pub fn condition_holds(condition: Condition, nzcv: u8) -> bool
    ensures { result ≡ condition_holds condition nzcv }
{
    let (n, z, c, v) = (flag_n(nzcv), flag_z(nzcv), flag_c(nzcv), flag_v(nzcv));
    match condition {
        Condition::Equal => z,
        Condition::NotEqual => !z,
        Condition::CarrySet => c,
        Condition::CarryClear => !c,
        Condition::Minus => n,
        Condition::Plus => !n,
        Condition::OverflowSet => v,
        Condition::OverflowClear => !v,
        Condition::Higher => c && !z,
        Condition::LowerOrSame => !c || z,
        Condition::GreaterOrEqual => n == v,
        Condition::Less => n != v,
        Condition::Greater => !z && n == v,
        Condition::LessOrEqual => z || n != v,
        Condition::Always | Condition::AlwaysToo => true,
    }
}
