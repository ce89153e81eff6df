//! The bytes of a constant.

ghost use Rattle.std.specs.Prelude.{◌≡◌, ◌≤◌, ◌<◌, ◌-◌, ◌*◌, ◌^◌, IfOk, None, Some, if◌then◌else◌, map};
ghost use Rattle.std.specs.List.{flat_map};
ghost use Rattle.std.specs.Option.{option_copied};
ghost use Rattle.cx_asm_expressions.specs.Digits.{digit_value};
ghost use Rattle.cx_asm_expressions.specs.Faults.{lowest};
ghost use Rattle.cx_asm_expressions.specs.Symbols.{find_in};
ghost use Rattle.cx_asm_expressions.specs.Expressions.{Answers};
ghost use Rattle.cx_asm_expressions.specs.Items.{value_length, values_in};
ghost use Rattle.cx_asm_expressions.specs.Weights.{stands_in};
ghost use Rattle.cx_asm_expressions.specs.Texts.{characters, code};
ghost use Rattle.cx_asm_expressions.specs.Bytes.{copy_of_constant, constant_copy, address_constant, plain_made};
ghost use Rattle.cx_asm_expressions.specs.Kinds.{bit_from_right, bits_from_right, bounded_decimal, character_bytes, digit_from_right, half_byte, half_bytes, integer_bytes, integer_fault, is_below, packed_from_right, row_of_kind};

use crate::digits::{digit, is_number, number};
use crate::expressions::value_of;
use crate::faults::{FaultKind, TermFault, lower};
use crate::fields::{fields, is_decimal, unsigned};
use crate::items::Constant;
use crate::kinds::{ConstantKind, Style};
use crate::lengths::value_length;
use crate::symbols::SymbolTable;
use crate::texts::{code, has_codes, is_doubled_mark, repeats};
use crate::values::Value;
use byteorder::{BigEndian, ByteOrder};
use cx_ebcdic::Name8;
use std::alloc::{AllocError, Global};
use std::marker::Model;

/// The code of a blank.
const BLANK: u8 = 0x40;

/// The entry of commands, an address that isn't relocated.
const COMMAND_ENTRY: [u8; 4] = [0, 0, 8, 0];

/// The bytes of one copy of a constant, and whether they are a word to which the load address is added.
#[derive(Drop)]
pub struct ConstantBytes {
    bytes: Vec<u8>,
    is_relocated: bool,
}

impl Model for ConstantBytes {
    ghost use Rattle.cx_asm_expressions.specs.Bytes.{CopyOfConstant, copy_of_constant};

    ghost Value = { CopyOfConstant };

    ghost view = { λ copy. copy_of_constant copy.bytes.items copy.is_relocated };
}

impl ConstantBytes {
    /// One copy of these bytes.
    fn new(bytes: Vec<u8>, is_relocated: bool) -> ConstantBytes
        ensures { result ≡ copy_of_constant bytes.items is_relocated }
    {
        ConstantBytes {
            bytes,
            is_relocated,
        }
    }

    /// The bytes of the copy, in their order; none of a constant without a value.
    pub fn as_slice(&self) -> &[u8]
        ensures { result.now ≡ self.now.bytes }
    {
        self.bytes.as_slice()
    }

    /// Whether the bytes are a word to which the load address is added.
    pub fn is_relocated(&self) -> bool
        ensures { result ≡ self.now.is_relocated }
    {
        self.is_relocated
    }

    /// The bytes as a `Vec`, without the rest. It takes no memory.
    pub fn into_vec(self) -> Vec<u8>
        ensures { result.items ≡ self.bytes }
    {
        let ConstantBytes { bytes, .. } = self;
        bytes
    }
}

/// The codes of a text's characters.
fn codes_of(alloc: Global, body: &[u8]) -> Result<Vec<u8>, AllocError>
    ensures { IfOk result (λ found. found.items ≡ map code (characters body.now)) }
{
    let mut found = Vec::new(alloc);
    let mut opened = false;
    for c in body {
        if repeats(opened, *c) {
            opened = false;
        } else {
            found.push(code(*c))?;
            opened = is_doubled_mark(*c);
        }
    }
    Ok(found)
}

/// `n` bytes of characters: filled with blanks, or cut, on the right.
fn character_bytes(alloc: Global, n: usize, body: &[u8]) -> Result<Vec<u8>, AllocError>
    ensures { IfOk result (λ found. found.items ≡ character_bytes body.now n) }
{
    let mut found = codes_of(alloc, body)?;
    let blanks = vec![in alloc; BLANK; n]?;
    found.extend_from_slice(blanks.as_slice())?;
    found.truncate(n);
    Ok(found)
}

/// The value of a digit, counted from the right; 0 where none is written.
fn digit_from_right(digits: &[u8], j: u128) -> u8
    ensures value { result ≡ digit_from_right digits.now j }
    ensures bound { result < 16 }
{
    if j < digits.len() as u128 {
        let place = digits.len() - 1 - j as usize;
        digit_value(digits[place])
    } else {
        0
    }
}

/// The value of a digit; 0 where it is none.
fn digit_value(c: u8) -> u8
    ensures value { result ≡ digit_value c }
    ensures bound { result < 16 }
{
    match digit(c) {
        Some(value) => value,
        None => 0,
    }
}

/// A bit, counted from the right; 0 where none is written.
fn bit_from_right(digits: &[u8], j: u128) -> u8
    ensures value { result ≡ bit_from_right digits.now j }
    ensures bound { result ≤ 1 }
{
    if j < digits.len() as u128 {
        let place = digits.len() - 1 - j as usize;
        if digits[place] == b'1' { 1 } else { 0 }
    } else {
        0
    }
}

/// Four bits, counted from the right.
fn bits_from_right(digits: &[u8], j: u128) -> u8
    requires { j < 2 ^ 100 }
    ensures value { result ≡ bits_from_right digits.now j }
    ensures bound { result < 16 }
{
    let low = 4 * j;
    8 * bit_from_right(digits, low + 3)
        + 4 * bit_from_right(digits, low + 2)
        + 2 * bit_from_right(digits, low + 1)
        + bit_from_right(digits, low)
}

/// A half byte of a packed decimal, counted from the right: its sign, then its digits.
fn packed_from_right(field: &[u8], j: u128) -> u8
    ensures value { result ≡ packed_from_right field.now j }
    ensures bound { result < 16 }
{
    if j > 0 {
        return digit_from_right(unsigned(field), j - 1);
    }
    if !field.is_empty() && field[0] == b'-' {
        0xD
    } else {
        0xC
    }
}

/// A half byte of a value, counted from the right.
fn half_byte(kind: ConstantKind, value: &[u8], j: u128) -> u8
    requires { j < 2 ^ 100 }
    ensures value { result ≡ half_byte kind value.now j }
    ensures bound { result < 16 }
{
    match kind {
        ConstantKind::Binary => bits_from_right(value, j),
        ConstantKind::Packed => packed_from_right(value, j),
        _ => digit_from_right(value, j),
    }
}

/// `n` bytes of two half bytes each, the highest first.
#[tactic(auto, using(crate::proofs::ByteLemmas::half_more))]
fn half_bytes(
    alloc: Global,
    kind: ConstantKind,
    value: &[u8],
    n: usize,
) -> Result<Vec<u8>, AllocError>
    ensures { IfOk result (λ found. found.items ≡ half_bytes kind value.now n) }
{
    let mut found = Vec::new(alloc);
    let mut left = n;
    while left > 0 {
        left -= 1;
        let low = left as u128 * 2;
        found.push(half_byte(kind, value, low + 1) * 16 + half_byte(kind, value, low))?;
    }
    Ok(found)
}

/// Whether n bytes hold a signed number.
fn is_signed_word(n: usize, number: i128) -> bool
    ensures { result ≡ is_below n number (2 ^ (8 * n - 1)) }
{
    match n {
        1 => -128 <= number && number < 128,
        2 => -32_768 <= number && number < 32_768,
        3 => -8_388_608 <= number && number < 8_388_608,
        4 => -2_147_483_648 <= number && number < 2_147_483_648,
        _ => false,
    }
}

/// Whether n bytes hold a number, signed or unsigned.
fn is_absolute_word(n: usize, number: i128) -> bool
    ensures { result ≡ is_below n number (2 ^ (8 * n)) }
{
    match n {
        1 => -128 <= number && number < 256,
        2 => -32_768 <= number && number < 65_536,
        3 => -8_388_608 <= number && number < 16_777_216,
        4 => -2_147_483_648 <= number && number < 4_294_967_296,
        _ => false,
    }
}

/// The lowest n bytes of a number, the highest of them first.
fn integer_bytes(alloc: Global, n: usize, number: i128) -> Result<Vec<u8>, AllocError>
    ensures { IfOk result (λ found. found.items ≡ integer_bytes n number) }
{
    if n < 1 || n > 4 {
        return Ok(Vec::new(alloc));
    }
    let mut word = [0; 4];
    BigEndian::write_int128(&mut word, number, n);
    Vec::from_slice(alloc, &word[..n])
}

/// The number that a decimal writes; None where it is beyond the bound.
#[tactic(auto, using(crate::proofs::NumberLemmas::bounded_number, crate::proofs::NumberLemmas::unbounded_number))]
fn decimal_number(field: &[u8]) -> Option<i128>
    ensures { result ≡ bounded_decimal field.now }
{
    let number = number(unsigned(field), 10)? as i128;
    if !field.is_empty() && field[0] == b'-' {
        Some(-number)
    } else {
        Some(number)
    }
}

/// The fault of a binary number of n bytes.
fn integer_fault(n: usize, value: &[u8]) -> Option<FaultKind>
    ensures { result ≡ integer_fault value.now n }
{
    if !is_decimal(value) {
        return Some(FaultKind::BadOperand);
    }
    match decimal_number(value) {
        Some(number) if is_signed_word(n, number) => None,
        _ => Some(FaultKind::ValueOutOfRange),
    }
}

/// BadOperand for a value that isn't good.
fn bad_unless(good: bool) -> Option<FaultKind>
    ensures { result ≡ (if good then None else Some FaultKind.BadOperand) }
{
    if good {
        None
    } else {
        Some(FaultKind::BadOperand)
    }
}

/// The fault of one value; that of an address is its expression's.
fn fault_of_value(kind: ConstantKind, modifier: Option<u16>, value: &[u8]) -> Option<FaultKind>
    ensures { result ≡ (row_of_kind kind).fault value.now (value_length kind modifier value.now) }
{
    match kind {
        ConstantKind::Character => bad_unless(has_codes(value)),
        ConstantKind::Hexadecimal => bad_unless(is_number(value, 16)),
        ConstantKind::Binary => bad_unless(is_number(value, 2)),
        ConstantKind::Packed => bad_unless(is_decimal(value)),
        ConstantKind::Fullword | ConstantKind::Halfword => {
            integer_fault(value_length(kind, modifier, value), value)
        }
        ConstantKind::External => bad_unless(value == b"DFHEI1".as_slice()),
        _ => None,
    }
}

/// The bytes of one value; those of an address are its expression's.
fn bytes_of_value(
    alloc: Global,
    kind: ConstantKind,
    modifier: Option<u16>,
    value: &[u8],
) -> Result<Vec<u8>, AllocError>
    ensures { let n = value_length kind modifier value.now in
        IfOk result (λ found. found.items ≡ (row_of_kind kind).bytes value.now n) }
{
    let n = value_length(kind, modifier, value);
    match kind {
        ConstantKind::Character => character_bytes(alloc, n, value),
        ConstantKind::Hexadecimal | ConstantKind::Binary | ConstantKind::Packed => {
            half_bytes(alloc, kind, value, n)
        }
        ConstantKind::Fullword | ConstantKind::Halfword => {
            integer_bytes(alloc, n, decimal_number(value).unwrap_or(0))
        }
        ConstantKind::External => Vec::from_slice(alloc, &COMMAND_ENTRY),
        _ => Ok(Vec::new(alloc)),
    }
}

/// The lowest fault of values.
fn values_fault(kind: ConstantKind, modifier: Option<u16>, values: &[&[u8]]) -> Option<FaultKind>
    ensures { let values = map (λ value. value.now) values.now in
        result ≡ lowest (map (λ value. (row_of_kind kind).fault value (value_length kind modifier value)) values) }
{
    let mut fault = None;
    for value in values {
        fault = lower(fault, fault_of_value(kind, modifier, value));
    }
    fault
}

/// The bytes of values, one after the other.
fn values_bytes(
    alloc: Global,
    kind: ConstantKind,
    modifier: Option<u16>,
    values: &[&[u8]],
) -> Result<Vec<u8>, AllocError>
    ensures { let values = map (λ value. value.now) values.now in
        IfOk result (λ found. found.items
        ≡ flat_map (λ value. (row_of_kind kind).bytes value (value_length kind modifier value)) values) }
{
    let mut found = Vec::new(alloc);
    for value in values {
        let bytes = bytes_of_value(alloc, kind, modifier, value)?;
        found.extend_from_slice(bytes.as_slice())?;
    }
    Ok(found)
}

/// The values of a constant.
fn values_in(alloc: Global, style: Style, body: &[u8]) -> Result<Vec<&[u8]>, AllocError>
    ensures { IfOk result (λ found. map (λ value. value.now) found.items ≡ values_in style body.now) }
{
    match style {
        Style::Values => fields(alloc, body),
        Style::Text | Style::Expression | Style::Nothing => {
            let mut found = Vec::new(alloc);
            found.push(body)?;
            Ok(found)
        }
    }
}

/// One copy of a constant that is no address.
fn plain_bytes(
    alloc: Global,
    kind: ConstantKind,
    modifier: Option<u16>,
    body: &[u8],
) -> Result<ConstantBytes, TermFault>
    ensures { Answers (plain_made kind modifier body.now) result }
{
    let values = values_in(alloc, kind.style(), body)?;
    if let Some(fault) = values_fault(kind, modifier, values.as_slice()) {
        return Err(TermFault::Refused(fault));
    }
    let bytes = values_bytes(alloc, kind, modifier, values.as_slice())?;
    Ok(ConstantBytes::new(bytes, false))
}

/// Whether a place is in the control section.
fn is_in_control(section: Name8, control: Option<Name8>) -> bool
    ensures { result ≡ stands_in section control }
{
    match control {
        Some(control) => section == control,
        None => false,
    }
}

/// One copy of an address of n bytes.
fn address_bytes(
    alloc: Global,
    n: usize,
    control: Option<Name8>,
    value: Value,
) -> Result<ConstantBytes, TermFault>
    ensures { Answers (address_constant n control value.section value.number) result }
{
    let section: Option<Name8> = value.section;
    let Some(section) = section else {
        if !is_absolute_word(n, value.number) {
            return Err(TermFault::Refused(FaultKind::ValueOutOfRange));
        }
        let bytes = integer_bytes(alloc, n, value.number)?;
        return Ok(ConstantBytes::new(bytes, false));
    };
    if n != 4 || !is_in_control(section, control) {
        return Err(TermFault::Refused(FaultKind::NotRelocatable));
    }
    let word = integer_bytes(alloc, 4, value.number)?;
    Ok(ConstantBytes::new(word, true))
}

impl Constant<'_> {
    /// The bytes of one copy, and whether they are a word to which the load address is added: `here` is where the
    /// location counter is, if anywhere, and `control` the control section, if there is one. A constant without a value
    /// has no bytes.
    ///
    /// Of all its values' faults the lowest is answered: BadOperand for digits of X, B, F, H or P that are none, for a
    /// character without a code, for V of a name other than DFHEI1, for an address that is no expression;
    /// ValueOutOfRange for F and H outside their range and an absolute address of n bytes outside -2^(8n-1) to
    /// 2^(8n)-1; NotRelocatable for a place that has not 4 bytes or isn't in the control section; the faults of
    /// `value_of`. Memory comes only where an allocation failed.
    #[tactic(auto, unfolding(crate::specs::Bytes::constant_copy))]
    pub fn bytes(
        &self,
        alloc: Global,
        symbols: &SymbolTable,
        here: Option<&Value>,
        control: Option<Name8>,
    ) -> Result<ConstantBytes, TermFault>
        ensures { Answers (constant_copy (find_in symbols.now) (option_copied here.entry) control self.now) result }
    {
        let kind = self.kind();
        let modifier = self.modifier();
        let Some(body) = self.value() else {
            return Ok(ConstantBytes::new(Vec::new(alloc), false));
        };
        match kind {
            ConstantKind::Address => {
                let value = value_of(alloc, body, symbols, here)?;
                address_bytes(alloc, value_length(kind, modifier, body), control, value)
            }
            _ => plain_bytes(alloc, kind, modifier, body),
        }
    }
}
