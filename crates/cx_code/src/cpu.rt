//! The processor's state, on which instructions work.

ghost use Rattle.std.specs.Prelude.{◌<◌, ◌≤◌, ◌^◌};

/// A processor: sixteen registers of 32 bits, the condition code (0 to 3), and the address of the next
/// instruction (below 2^24).
///
/// Principles of Operation, GA22-7000, "Program Status Word", "General Registers".
#[derive(Drop)]
pub struct Cpu {
    pub regs: [u32; 16],
    pub cc: u8,
    pub next: u32,
    pub ghost code: { cc ≤ 3 },
    pub ghost address: { next < 2 ^ 24 },
}
