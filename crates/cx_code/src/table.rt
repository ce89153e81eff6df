//! The table of instructions.

ghost use Rattle.std.specs.Prelude.{◌≡◌};
ghost use Rattle.cx_code.specs.Table.{table_row, operation_row, code_of, mnemonic_of, format_of, length_of, op_at, op_named, is_shift, stores, length_of_code, length_of_format};

/// How the fields of an instruction lie in its bytes (Principles of Operation, GA22-7000, "Instruction Formats").
#[derive(Clone, Copy, PartialEq, Eq)]
pub enum Format {
    /// Two registers: 2 bytes.
    Rr,
    /// A register, and an indexed storage operand: 4 bytes.
    Rx,
    /// Two registers, or a register and a mask, and a storage operand: 4 bytes.
    Rs,
    /// A storage operand and a byte: 4 bytes.
    Si,
    /// Two storage operands of one length: 6 bytes.
    Ss,
    /// Two storage operands with a length each: 6 bytes.
    Ss2,
}

impl Format {
    /// How many bytes an instruction of this format has: 2, 4 or 6.
    pub fn length(self) -> usize
        ensures { result ≡ length_of_format self }
    {
        match self {
            Format::Rr => 2,
            Format::Rx | Format::Rs | Format::Si => 4,
            Format::Ss | Format::Ss2 => 6,
        }
    }
}

/// How many bytes the instruction has that begins with this byte, whether or not the byte is an operation code of the
/// table: by its first two bits 2 (00), 4 (01, 10) or 6 (11) (Principles of Operation, GA22-7000, "Instruction
/// Formats").
pub fn instruction_length(code: u8) -> usize
    ensures { result ≡ length_of_code code }
{
    match code >> 6 {
        0b00 => 2,
        0b01 | 0b10 => 4,
        _ => 6,
    }
}

/// An instruction of the table, by its mnemonic: its operation code, its format and what it does, in a few words
/// (Principles of Operation, GA22-7000).
#[derive(Clone, Copy, PartialEq, Eq)]
pub enum Op {
    /// X'05', RR: branch and link.
    Balr,
    /// X'06', RR: branch on count.
    Bctr,
    /// X'07', RR: branch on condition.
    Bcr,
    /// X'12', RR: load and test.
    Ltr,
    /// X'13', RR: load complement.
    Lcr,
    /// X'15', RR: compare logical.
    Clr,
    /// X'17', RR: exclusive or.
    Xr,
    /// X'18', RR: load.
    Lr,
    /// X'19', RR: compare.
    Cr,
    /// X'1A', RR: add.
    Ar,
    /// X'1B', RR: subtract.
    Sr,
    /// X'1C', RR: multiply.
    Mr,
    /// X'1D', RR: divide.
    Dr,
    /// X'40', RX: store halfword.
    Sth,
    /// X'41', RX: load address.
    La,
    /// X'42', RX: store character.
    Stc,
    /// X'43', RX: insert character.
    Ic,
    /// X'44', RX: execute.
    Ex,
    /// X'45', RX: branch and link.
    Bal,
    /// X'46', RX: branch on count.
    Bct,
    /// X'47', RX: branch on condition.
    Bc,
    /// X'48', RX: load halfword.
    Lh,
    /// X'49', RX: compare halfword.
    Ch,
    /// X'4A', RX: add halfword.
    Ah,
    /// X'4B', RX: subtract halfword.
    Sh,
    /// X'4E', RX: convert to decimal.
    Cvd,
    /// X'4F', RX: convert to binary.
    Cvb,
    /// X'50', RX: store.
    St,
    /// X'55', RX: compare logical.
    Cl,
    /// X'58', RX: load.
    L,
    /// X'59', RX: compare.
    C,
    /// X'5A', RX: add.
    A,
    /// X'5B', RX: subtract.
    S,
    /// X'5C', RX: multiply.
    M,
    /// X'5D', RX: divide.
    D,
    /// X'88', RS: shift right single logical.
    Srl,
    /// X'89', RS: shift left single logical.
    Sll,
    /// X'8A', RS: shift right single.
    Sra,
    /// X'8B', RS: shift left single.
    Sla,
    /// X'8E', RS: shift right double.
    Srda,
    /// X'90', RS: store multiple.
    Stm,
    /// X'91', SI: test under mask.
    Tm,
    /// X'92', SI: move immediate.
    Mvi,
    /// X'94', SI: and immediate.
    Ni,
    /// X'95', SI: compare logical immediate.
    Cli,
    /// X'96', SI: or immediate.
    Oi,
    /// X'98', RS: load multiple.
    Lm,
    /// X'BE', RS: store characters under mask.
    Stcm,
    /// X'BF', RS: insert characters under mask.
    Icm,
    /// X'D2', SS, one length: move characters.
    Mvc,
    /// X'D5', SS, one length: compare logical characters.
    Clc,
    /// X'D7', SS, one length: exclusive or characters.
    Xc,
    /// X'DC', SS, one length: translate.
    Tr,
    /// X'DD', SS, one length: translate and test.
    Trt,
    /// X'F2', SS, two lengths: pack.
    Pack,
    /// X'F3', SS, two lengths: unpack.
    Unpk,
}

/// The table, in the order of the codes: of each format in turn its rows, which have an operation, a mnemonic and an
/// operation code, and the word `stores` where the row stores into its operand in storage. A macro is called with what
/// it is given and the rows.
#[macro_export]
macro_rules! instruction_rows {
    ([$($then:tt)*] $($given:tt)*) => {
        $($then)*! {
            $($given)*
            Rr {
                Balr "BALR" 0x05,
                Bctr "BCTR" 0x06,
                Bcr "BCR" 0x07,
                Ltr "LTR" 0x12,
                Lcr "LCR" 0x13,
                Clr "CLR" 0x15,
                Xr "XR" 0x17,
                Lr "LR" 0x18,
                Cr "CR" 0x19,
                Ar "AR" 0x1A,
                Sr "SR" 0x1B,
                Mr "MR" 0x1C,
                Dr "DR" 0x1D,
            }
            Rx {
                Sth "STH" 0x40 stores,
                La "LA" 0x41,
                Stc "STC" 0x42 stores,
                Ic "IC" 0x43,
                Ex "EX" 0x44,
                Bal "BAL" 0x45,
                Bct "BCT" 0x46,
                Bc "BC" 0x47,
                Lh "LH" 0x48,
                Ch "CH" 0x49,
                Ah "AH" 0x4A,
                Sh "SH" 0x4B,
                Cvd "CVD" 0x4E stores,
                Cvb "CVB" 0x4F,
                St "ST" 0x50 stores,
                Cl "CL" 0x55,
                L "L" 0x58,
                C "C" 0x59,
                A "A" 0x5A,
                S "S" 0x5B,
                M "M" 0x5C,
                D "D" 0x5D,
            }
            Rs {
                Srl "SRL" 0x88,
                Sll "SLL" 0x89,
                Sra "SRA" 0x8A,
                Sla "SLA" 0x8B,
                Srda "SRDA" 0x8E,
                Stm "STM" 0x90 stores,
            }
            Si {
                Tm "TM" 0x91,
                Mvi "MVI" 0x92 stores,
                Ni "NI" 0x94 stores,
                Cli "CLI" 0x95,
                Oi "OI" 0x96 stores,
            }
            Rs {
                Lm "LM" 0x98,
                Stcm "STCM" 0xBE stores,
                Icm "ICM" 0xBF,
            }
            Ss {
                Mvc "MVC" 0xD2 stores,
                Clc "CLC" 0xD5,
                Xc "XC" 0xD7 stores,
                Tr "TR" 0xDC stores,
                Trt "TRT" 0xDD,
            }
            Ss2 {
                Pack "PACK" 0xF2 stores,
                Unpk "UNPK" 0xF3 stores,
            }
        }
    };
}

/// The same with the codes that have no row: the even ones, and the odd ones but X'FF', the last.
#[macro_export]
macro_rules! instruction_codes {
    ([$($then:tt)*] $($given:tt)*) => {
        $crate::instruction_rows! {
            [$($then)*] $($given)*
            [
                0x00 0x02 0x04 0x08 0x0A 0x0C 0x0E 0x10 0x14 0x16 0x1E 0x20 0x22 0x24 0x26 0x28
                0x2A 0x2C 0x2E 0x30 0x32 0x34 0x36 0x38 0x3A 0x3C 0x3E 0x4C 0x52 0x54 0x56 0x5E
                0x60 0x62 0x64 0x66 0x68 0x6A 0x6C 0x6E 0x70 0x72 0x74 0x76 0x78 0x7A 0x7C 0x7E
                0x80 0x82 0x84 0x86 0x8C 0x9A 0x9C 0x9E 0xA0 0xA2 0xA4 0xA6 0xA8 0xAA 0xAC 0xAE
                0xB0 0xB2 0xB4 0xB6 0xB8 0xBA 0xBC 0xC0 0xC2 0xC4 0xC6 0xC8 0xCA 0xCC 0xCE 0xD0
                0xD4 0xD6 0xD8 0xDA 0xDE 0xE0 0xE2 0xE4 0xE6 0xE8 0xEA 0xEC 0xEE 0xF0 0xF4 0xF6
                0xF8 0xFA 0xFC 0xFE
            ]
            [
                0x01 0x03 0x09 0x0B 0x0D 0x0F 0x11 0x1F 0x21 0x23 0x25 0x27 0x29 0x2B 0x2D 0x2F
                0x31 0x33 0x35 0x37 0x39 0x3B 0x3D 0x3F 0x4D 0x51 0x53 0x57 0x5F 0x61 0x63 0x65
                0x67 0x69 0x6B 0x6D 0x6F 0x71 0x73 0x75 0x77 0x79 0x7B 0x7D 0x7F 0x81 0x83 0x85
                0x87 0x8D 0x8F 0x93 0x97 0x99 0x9B 0x9D 0x9F 0xA1 0xA3 0xA5 0xA7 0xA9 0xAB 0xAD
                0xAF 0xB1 0xB3 0xB5 0xB7 0xB9 0xBB 0xBD 0xC1 0xC3 0xC5 0xC7 0xC9 0xCB 0xCD 0xCF
                0xD1 0xD3 0xD9 0xDB 0xDF 0xE1 0xE3 0xE5 0xE7 0xE9 0xEB 0xED 0xEF 0xF1 0xF5 0xF7
                0xF9 0xFB 0xFD
            ]
        }
    };
}

/// The operations of a format, as a pattern.
#[macro_export]
macro_rules! rows_of {
    ($format:ident) => {
        $crate::instruction_rows!([$crate::rows_among] $format [])
    };
}

/// The operations that were found, and those of a format among the rows that are left.
#[macro_export]
macro_rules! rows_among {
    ($format:ident [$($found:ident)*]) => {
        $($crate::Op::$found)|*
    };
    (@found $format:ident [$($found:ident)*] { $($row:ident $name:literal $code:literal $($stores:ident)?,)* } $($rest:tt)*) => {
        $crate::rows_among!($format [$($found)* $($row)*] $($rest)*)
    };
    (Rr $found:tt Rr $($rest:tt)*) => { $crate::rows_among!(@found Rr $found $($rest)*) };
    (Rx $found:tt Rx $($rest:tt)*) => { $crate::rows_among!(@found Rx $found $($rest)*) };
    (Rs $found:tt Rs $($rest:tt)*) => { $crate::rows_among!(@found Rs $found $($rest)*) };
    (Si $found:tt Si $($rest:tt)*) => { $crate::rows_among!(@found Si $found $($rest)*) };
    (Ss $found:tt Ss $($rest:tt)*) => { $crate::rows_among!(@found Ss $found $($rest)*) };
    (Ss2 $found:tt Ss2 $($rest:tt)*) => { $crate::rows_among!(@found Ss2 $found $($rest)*) };
    ($format:ident $found:tt $other:ident { $($row:tt)* } $($rest:tt)*) => {
        $crate::rows_among!($format $found $($rest)*)
    };
}

/// All operations of the rows.
macro_rules! operations {
    ($($format:ident { $($row:ident $name:literal $code:literal $($stores:ident)?,)* })*) => {
        [$($(Op::$row),*),*]
    };
}

/// The row of an operation.
macro_rules! row_by_op {
    ($op:tt $($format:ident { $($row:ident $name:literal $code:literal $($stores:ident)?,)* })*) => {
        match $op {
            $($(Op::$row => ($name, $code, Format::$format),)*)*
        }
    };
}

/// The format of an operation.
macro_rules! format_by_op {
    ($op:tt $($format:ident { $($row:ident $name:literal $code:literal $($stores:ident)?,)* })*) => {
        match $op {
            $($(Op::$row)|* => Format::$format,)*
        }
    };
}

/// The operation of a code.
macro_rules! op_by_code {
    ($code:ident $($format:ident { $($row:ident $name:literal $number:literal $($stores:ident)?,)* })*) => {
        match $code {
            $($($number => Some(Op::$row),)*)*
            _ => None,
        }
    };
}

/// Whether the row of an operation has the word `stores`.
macro_rules! stores_by_op {
    ($op:tt $($format:ident { $($row:ident $name:literal $code:literal $($stores:ident)?,)* })*) => {
        match $op {
            $($($(Op::$row => marked!($stores),)?)*)*
            _ => false,
        }
    };
}

/// A row has a word.
macro_rules! marked {
    (stores) => {
        true
    };
}

impl Op {
    /// All instructions, in the order of their codes.
    const ALL: [Op; 56] = instruction_rows!([operations]);

    /// The row of the table: mnemonic, operation code, format.
    #[tactic(auto, unfolding(crate::specs::Table::operation_row))]
    fn row(self) -> (&'static str, u8, Format)
        ensures { table_row result.0.now result.1 result.2 ≡ operation_row self }
    {
        instruction_rows!([row_by_op] self)
    }

    /// The operation code, the first byte of the instruction.
    pub fn code(self) -> u8
        ensures { result ≡ code_of self }
    {
        self.row().1
    }

    /// The mnemonic, in capital letters, as `BALR`.
    pub fn name(self) -> &'static str
        ensures { result.now ≡ mnemonic_of self }
    {
        self.row().0
    }

    /// The format, which says what fields the instruction has.
    #[tactic(auto, unfolding(crate::specs::Table::operation_row))]
    #[inline]
    pub fn format(self) -> Format
        ensures { result ≡ format_of self }
    {
        instruction_rows!([format_by_op] self)
    }

    /// How many bytes the instruction has: 2, 4 or 6, by its format.
    pub fn length(self) -> usize
        ensures { result ≡ length_of self }
    {
        self.format().length()
    }

    /// Whether it is a shift (SRL, SLL, SRA, SLA, SRDA), which ignores its R3 field.
    #[tactic(auto, unfolding(crate::specs::Table::is_shift))]
    pub fn is_shift(self) -> bool
        ensures { result ≡ is_shift self }
    {
        matches!(self, Op::Srl | Op::Sll | Op::Sra | Op::Sla | Op::Srda)
    }

    /// Whether it stores into its operand in storage. EX isn't one of these: it does as its target does.
    #[inline(always)]
    pub fn stores(self) -> bool
        ensures { result ≡ stores self }
    {
        instruction_rows!([stores_by_op] self)
    }

    /// The instruction of this operation code; `None` where the table has none.
    #[tactic(auto, unfolding(crate::specs::Table::op_at, crate::specs::Table::ops, crate::specs::Table::operation_row))]
    #[inline]
    pub fn from_code(code: u8) -> Option<Op>
        ensures { result ≡ op_at code }
    {
        instruction_rows!([op_by_code] code)
    }

    /// The instruction of this mnemonic, in capital letters; `None` where the table has none.
    #[tactic(auto, unfolding(crate::specs::Table::op_named, crate::specs::Table::ops))]
    pub fn from_name(name: &str) -> Option<Op>
        ensures { result ≡ op_named name.now }
    {
        Op::ALL.iter().copied().find(|op| op.name() == name)
    }

    /// The instruction whose mnemonic these bytes are, in capital letters (ASCII); `None` where the
    /// table has none.
    #[tactic(auto, unfolding(crate::specs::Table::op_named, crate::specs::Table::ops))]
    pub fn from_name_bytes(name: &[u8]) -> Option<Op>
        ensures { result ≡ op_named name.now }
    {
        Op::ALL
            .iter()
            .copied()
            .find(|op| op.name().as_bytes() == name)
    }
}
