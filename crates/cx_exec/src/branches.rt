//! Branches.

ghost use Rattle.std.specs.Prelude.{◌≡◌, ◌<◌, ◌≤◌, ◌^◌, Ok, slice_set, slice_index, if◌then◌else◌, ◌==◌};
ghost use Rattle.cx_exec.specs.Branches.{less_one};
ghost use Rattle.cx_exec.specs.Branches.{mask_bit, selects, link_word, branch_address};

use crate::machine::{Performed, Updated};
use cx_code::Cpu;
use cx_storage::address_in;

/// Whether a mask has the bit of a condition code.
#[tactic(auto, unfolding(crate::specs::Branches::selects))]
pub(crate) fn selects(mask: u8, cc: u8) -> bool
    requires { cc ≤ 3 }
    ensures { result ≡ selects mask cc }
{
    mask & mask_bit(cc) != 0
}

/// The bit of a condition code in a mask.
#[tactic(auto, using(crate::proofs::MaskLemmas::shifted_bit))]
fn mask_bit(cc: u8) -> u8
    requires { cc ≤ 3 }
    ensures { result ≡ mask_bit cc }
{
    8 >> cc
}

/// The link word of a branch.
#[tactic(auto, unfolding(crate::specs::Branches::link_word))]
fn link_word(updated: Updated, cc: u8) -> u32
    requires code { cc ≤ 3 }
    ensures { result ≡ link_word updated cc }
{
    u32::from(updated.length_code) * 0x4000_0000 + u32::from(cc) * 0x1000_0000 + updated.address
}

/// Where a branch to a register's address goes: register 0 is no branch.
pub(crate) fn branch_address(regs: &[u32; 16], r: u8, updated: Updated) -> u32
    requires register { r < 16 }
    ensures value { result ≡ branch_address regs.now r updated }
    ensures below_2_24 { result < 2 ^ 24 }
{
    if r == 0 {
        updated.address
    } else {
        address_in(regs[r as usize])
    }
}

/// Puts the link word into a register and goes on elsewhere.
pub(crate) fn link(cpu: &mut Cpu, r: u8, to: u32, updated: Updated) -> Performed
    requires register { r < 16 }
    requires to { to < 2 ^ 24 }
    ensures done { result ≡ Ok tt }
    ensures regs { cpu.new.regs ≡ slice_set cpu.old.regs r (link_word updated cpu.old.cc) }
    ensures code { cpu.new.cc ≡ cpu.old.cc }
    ensures next { cpu.new.next ≡ to }
{
    cpu.regs[r as usize] = link_word(updated, cpu.cc);
    cpu.next = to;
    Ok(())
}

/// Goes on at an address.
pub(crate) fn go_on(cpu: &mut Cpu, to: u32) -> Performed
    requires { to < 2 ^ 24 }
    ensures done { result ≡ Ok tt }
    ensures regs { cpu.new.regs ≡ cpu.old.regs }
    ensures code { cpu.new.cc ≡ cpu.old.cc }
    ensures next { cpu.new.next ≡ to }
{
    cpu.next = to;
    Ok(())
}

/// Goes on elsewhere where the mask selects the condition code.
pub(crate) fn branch(cpu: &mut Cpu, mask: u8, to: u32, updated: Updated) -> Performed
    requires to { to < 2 ^ 24 }
    ensures done { result ≡ Ok tt }
    ensures regs { cpu.new.regs ≡ cpu.old.regs }
    ensures code { cpu.new.cc ≡ cpu.old.cc }
    ensures next { cpu.new.next ≡ (if selects mask cpu.old.cc then to else updated.address) }
{
    cpu.next = if selects(mask, cpu.cc) {
        to
    } else {
        updated.address
    };
    Ok(())
}

/// Counts a register down by one, and goes on elsewhere where it isn't zero then.
pub(crate) fn count(cpu: &mut Cpu, r: u8, to: u32, updated: Updated) -> Performed
    requires register { r < 16 }
    requires to { to < 2 ^ 24 }
    ensures done { result ≡ Ok tt }
    ensures regs { cpu.new.regs ≡ slice_set cpu.old.regs r (less_one (slice_index cpu.old.regs r)) }
    ensures code { cpu.new.cc ≡ cpu.old.cc }
    ensures next { cpu.new.next ≡ (if less_one (slice_index cpu.old.regs r) == 0 then updated.address else to) }
{
    let left = cpu.regs[r as usize].wrapping_sub(1);
    cpu.regs[r as usize] = left;
    cpu.next = if left == 0 { updated.address } else { to };
    Ok(())
}
