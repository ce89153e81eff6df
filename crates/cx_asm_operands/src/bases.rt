//! Base registers and what they hold.

ghost use Rattle.std.specs.Prelude.{◌≡◌, ◌≤◌, ◌^◌, Some, slice_set, length, unsigned_abs, option_map};
ghost use Rattle.cx_asm_operands.specs.Bases.{after_drop, after_using, none_in_use, using_with};

use cx_ebcdic::Name8;
use std::marker::Model;

/// How much more each further register of a USING holds, in bytes.
const PAGE: i128 = 4096;

/// What a base register holds: a place in a section.
#[derive(Clone, Copy)]
pub struct Base {
    /// The name of the section.
    pub section: Name8,
    /// The offset in the section, in bytes.
    pub number: i128,
}

/// What a USING says: a place, and the registers that hold it.
#[derive(Drop)]
pub struct Using {
    section: Name8,
    number: i128,
    registers: Vec<u8>,
}

impl Model for Using {
    ghost use Rattle.std.specs.Prelude.{◌≤◌, ◌^◌, unsigned_abs};
    ghost use Rattle.cx_asm_operands.specs.Bases.{UsingStatement as UsingValue, using_with};

    ghost Value = { UsingValue };

    ghost view = { λ s. using_with s.section s.number s.registers.items };

    ghost invariant = { λ s. unsigned_abs s.number ≤ 2 ^ 100 };
}

/// What a DROP says: the registers that it names, if it names any.
#[derive(Drop)]
pub struct Dropped {
    registers: Option<Vec<u8>>,
}

impl Model for Dropped {
    ghost use Rattle.std.specs.Prelude.{List, Option, ℕ, option_map};

    ghost Value = { Option (List ℕ) };

    ghost view = { λ s. option_map (λ registers. registers.items) s.registers };
}

impl Dropped {
    /// What a DROP says. It takes no memory.
    pub(crate) fn new(registers: Option<Vec<u8>>) -> Dropped
        ensures { result ≡ option_map (λ named. named.items) registers }
    {
        Dropped { registers }
    }
}

/// What each of the sixteen base registers holds, where it is in use (GC33-4010, "USING -- Use Base Address Register").
#[derive(Drop)]
pub struct Bases {
    bases: [Option<Base>; 16],
}

impl Model for Bases {
    ghost use Rattle.std.specs.Prelude.{◌≡◌, length};
    ghost use Rattle.cx_asm_operands.specs.Bases.{Bases as BaseList};

    ghost Value = { BaseList };

    ghost view = { λ s. s.bases };

    ghost invariant = { λ s. length s.bases ≡ 16 };
}

/// The first register holds the place, and each further one 4,096 more.
fn hold(bases: &mut [Option<Base>; 16], section: Name8, number: i128, registers: &[u8])
    requires { unsigned_abs number ≤ 2 ^ 100 }
    ensures held { bases.new ≡ after_using section number registers.now bases.old }
    ensures size { length bases.new ≡ 16 }
{
    let mut place = number;
    for register in registers {
        let base = Base {
            section,
            number: place,
        };
        set(bases, *register, Some(base));
        place += PAGE;
    }
}

/// Gives a register, of the sixteen, something to hold, or nothing.
fn set(bases: &mut [Option<Base>; 16], register: u8, base: Option<Base>)
    ensures held { bases.new ≡ slice_set bases.old register base }
{
    if register < 16 {
        bases[register as usize] = base;
    }
}

/// Ends the use of registers.
fn end(bases: &mut [Option<Base>; 16], registers: &[u8])
    ensures ended { bases.new ≡ after_drop (Some registers.now) bases.old }
    ensures size { length bases.new ≡ 16 }
{
    for register in registers {
        set(bases, *register, None);
    }
}

impl Using {
    /// What a USING says. It takes no memory.
    pub(crate) fn new(section: Name8, number: i128, registers: Vec<u8>) -> Using
        requires { unsigned_abs number ≤ 2 ^ 100 }
        ensures { result ≡ using_with section number registers.items }
    {
        Using {
            section,
            number,
            registers,
        }
    }

    /// The numbers of its registers, in the order written.
    pub fn registers(&self) -> &[u8]
        ensures { result.now ≡ self.now.registers }
    {
        self.registers.as_slice()
    }

    /// The place that its first register holds.
    pub fn base(&self) -> Base
        ensures { result ≡ record { section = self.now.section; number = self.now.number } }
    {
        Base {
            section: self.section,
            number: self.number,
        }
    }
}

impl Bases {
    /// Bases of which no register is in use. It takes no memory.
    pub fn new() -> Bases
        ensures { result ≡ none_in_use }
    {
        Bases { bases: [None; 16] }
    }

    /// What the registers hold, from register 0.
    pub(crate) fn as_slice(&self) -> &[Option<Base>]
        ensures bases { result.now ≡ self.now }
        ensures sixteen { length self.now ≡ 16 }
    {
        &self.bases
    }

    /// Puts a USING into force: its first register holds its place, and each further one 4,096 more; a register that is
    /// named twice holds what it is given last. What they held before is replaced. It takes no memory.
    pub fn put_in_use(&mut self, given: &Using)
        ensures { self.new ≡ after_using given.now.section given.now.number given.now.registers self.old }
    {
        hold(
            &mut self.bases,
            given.section,
            given.number,
            given.registers.as_slice(),
        );
    }

    /// Puts a DROP into force: no register that it names is a base any more, and every other stays as it is; where it
    /// names none, no register is a base any more. It takes no memory.
    pub fn end_use(&mut self, given: &Dropped)
        ensures { self.new ≡ after_drop given.now self.old }
    {
        match &given.registers {
            Some(named) => end(&mut self.bases, named.as_slice()),
            None => *self = Bases::new(),
        }
    }
}
