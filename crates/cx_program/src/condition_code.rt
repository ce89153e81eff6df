//! Condition codes of the machine.
ghost use Rattle.std.specs.Prelude.{◌≡◌, ◌≤◌};

use std::marker::Model;

/// A condition code of the machine: 0 to 3.
///
/// System/370 Principles of Operation, GA22-7000, "Program-Status Word". Contracts see it as the number.
#[derive(Clone, Copy)]
pub struct ConditionCode {
    code: u8,
}

impl Model for ConditionCode {
    ghost use Rattle.std.specs.Prelude.{ℕ, ◌≤◌};

    ghost Value = { ℕ };

    ghost view = { λ condition_code. condition_code.code };

    ghost invariant = { λ condition_code. condition_code.code ≤ 3 };

    ghost inverse = { λ code. record { code = code } };
}

impl ConditionCode {
    /// The condition code that is this number, at most 3.
    pub fn new(code: u8) -> ConditionCode
        requires { code ≤ 3 }
        ensures { result ≡ code }
    {
        ConditionCode { code }
    }

    /// Its number, 0 to 3.
    pub fn number(self) -> u8
        ensures value { result ≡ self }
        ensures bound { result ≤ 3 }
    {
        self.code
    }
}
