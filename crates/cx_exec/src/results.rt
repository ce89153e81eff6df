//! What instructions leave that go on at the next address. Each call changes what it names and no
//! more, and answers that the instruction is performed.

ghost use Rattle.std.specs.Prelude.{◌≡◌, ◌<◌, ◌≤◌, ◌^◌, Ok, slice_set};
ghost use Rattle.cx_exec.specs.Results.{pair, with_pair};

use crate::machine::{Performed, Updated};
use cx_code::Cpu;

/// Changes a register.
pub(crate) fn load(cpu: &mut Cpu, r: u8, word: u32, updated: Updated) -> Performed
    requires register { r < 16 }
    ensures done { result ≡ Ok tt }
    ensures regs { cpu.new.regs ≡ slice_set cpu.old.regs r word }
    ensures code { cpu.new.cc ≡ cpu.old.cc }
    ensures next { cpu.new.next ≡ updated.address }
{
    cpu.regs[r as usize] = word;
    cpu.next = updated.address;
    Ok(())
}

/// Sets the condition code.
pub(crate) fn set_code(cpu: &mut Cpu, cc: u8, updated: Updated) -> Performed
    requires code { cc ≤ 3 }
    ensures done { result ≡ Ok tt }
    ensures regs { cpu.new.regs ≡ cpu.old.regs }
    ensures code { cpu.new.cc ≡ cc }
    ensures next { cpu.new.next ≡ updated.address }
{
    cpu.cc = cc;
    cpu.next = updated.address;
    Ok(())
}

/// Changes a register and sets the condition code.
pub(crate) fn load_coded(cpu: &mut Cpu, r: u8, word: u32, cc: u8, updated: Updated) -> Performed
    requires register { r < 16 }
    requires code { cc ≤ 3 }
    ensures done { result ≡ Ok tt }
    ensures regs { cpu.new.regs ≡ slice_set cpu.old.regs r word }
    ensures code { cpu.new.cc ≡ cc }
    ensures next { cpu.new.next ≡ updated.address }
{
    cpu.regs[r as usize] = word;
    cpu.cc = cc;
    cpu.next = updated.address;
    Ok(())
}

/// The doubleword in a pair of registers, the first one's word high.
pub(crate) fn pair(regs: &[u32; 16], r: u8) -> u64
    requires { r < 15 }
    ensures { result ≡ pair regs.now r }
{
    u64::from(regs[r as usize]) * 0x1_0000_0000 + u64::from(regs[r as usize + 1])
}

/// Changes a pair of registers to a doubleword, and sets the condition code.
pub(crate) fn load_pair(cpu: &mut Cpu, r: u8, double: u64, cc: u8, updated: Updated) -> Performed
    requires register { r < 15 }
    requires code { cc ≤ 3 }
    ensures done { result ≡ Ok tt }
    ensures regs { cpu.new.regs ≡ with_pair cpu.old.regs r double }
    ensures code { cpu.new.cc ≡ cc }
    ensures next { cpu.new.next ≡ updated.address }
{
    cpu.regs[r as usize] = (double / 0x1_0000_0000) as u32;
    cpu.regs[r as usize + 1] = (double % 0x1_0000_0000) as u32;
    cpu.cc = cc;
    cpu.next = updated.address;
    Ok(())
}
