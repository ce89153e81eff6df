//! Images of programs and the spans of their text.

ghost use Rattle.std.specs.Prelude.{◌≡◌};

use std::marker::Model;

/// A list of bytes, as the text of a program or a part of it.
#[derive(Drop)]
pub struct Bytes {
    bytes: Vec<u8>,
}

impl Model for Bytes {
    ghost use Rattle.std.specs.Prelude.{List, ℕ};

    ghost Value = { List ℕ };

    ghost view = { λ s. s.bytes.items };
}

impl Bytes {
    /// The list of these bytes. It takes no memory.
    pub fn from_vec(bytes: Vec<u8>) -> Bytes
        ensures { result ≡ bytes.items }
    {
        Bytes { bytes }
    }

    /// The bytes as a `Vec`. It takes no memory.
    pub fn into_vec(self) -> Vec<u8>
        ensures { result.items ≡ self }
    {
        let Bytes { bytes } = self;
        bytes
    }

    /// The bytes, in their order.
    pub fn as_slice(&self) -> &[u8]
        ensures { result.now ≡ self.now }
    {
        self.bytes.as_slice()
    }
}

/// A list of offsets, in bytes.
#[derive(Drop)]
pub struct Offsets {
    offsets: Vec<u32>,
}

impl Model for Offsets {
    ghost use Rattle.std.specs.Prelude.{List, ℕ};

    ghost Value = { List ℕ };

    ghost view = { λ s. s.offsets.items };
}

impl Offsets {
    /// The list of these offsets. It takes no memory.
    pub fn from_vec(offsets: Vec<u32>) -> Offsets
        ensures { result ≡ offsets.items }
    {
        Offsets { offsets }
    }

    /// The offsets as a `Vec`. It takes no memory.
    pub fn into_vec(self) -> Vec<u32>
        ensures { result.items ≡ self }
    {
        let Offsets { offsets } = self;
        offsets
    }

    /// The offsets, in their order.
    pub fn as_slice(&self) -> &[u32]
        ensures { result.now ≡ self.now }
    {
        self.offsets.as_slice()
    }
}

/// A program as it is loaded: any values, which the loader checks.
#[derive(Drop)]
pub struct Image {
    /// The program's bytes: instructions, constants and space.
    pub text: Bytes,
    /// The offset in the text at which the program is entered, in bytes.
    pub entry: u32,
    /// The offsets in the text of the fullwords that the load address is added to, in bytes.
    pub relocs: Offsets,
    /// How many bytes of working storage the program has.
    pub stg_len: u32,
}

/// What a span of a text holds.
#[derive(Clone, Copy, PartialEq, Eq)]
pub enum SpanKind {
    /// An instruction.
    Code,
    /// Bytes of a constant.
    Data,
    /// Bytes that nothing was written to.
    Space,
}

/// A part of a text. It may go past the text's end.
#[derive(Clone, Copy)]
pub struct Span {
    /// The offset of its first byte in the text.
    pub start: u32,
    /// How many bytes it is.
    pub len: u32,
    /// What it is taken to hold; a code span may hold no instruction.
    pub kind: SpanKind,
}
