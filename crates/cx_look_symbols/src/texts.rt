//! What is written of symbols.
ghost use Rattle.std.specs.Prelude.{◌≡◌, ◌≤◌, ◌++◌, IfOk, IfSome, OnOk, codes, option_and_then};
ghost use Rattle.std.specs.Fmt.{decimal};
ghost use Rattle.cx_asm_pass1.specs.PassState.{is_control};
ghost use Rattle.cx_look_symbols.specs.Texts.{address_of_value, offset_up_to, symbol_line, value_word};
ghost use Rattle.std.specs.Option.{option_map_or};
ghost use Rattle.cx_look_lines.specs.Words.{written_name};

use crate::rows::Symbol;
use cx_asm_expressions::Value;
use cx_base::hexadecimal;
use cx_ebcdic::Name8;
use cx_load::Loaded;
use cx_look_lines::{Report, decimal, joined, written_name};
use std::alloc::{AllocError, Global};

/// A value in hexadecimal digits.
fn value_word(alloc: Global, number: i128) -> Result<Vec<u8>, AllocError>
    ensures { IfOk result (λ text. text.items ≡ value_word number) }
{
    if number >= 0 && number < 0x100_0000 {
        return hexadecimal::<6>(number as u32).to_vec(alloc);
    }
    if number < -2_147_483_648 || number > 4_294_967_295 {
        return b"--".to_vec(alloc);
    }
    hexadecimal::<8>(number.rem_euclid(0x1_0000_0000) as u32).to_vec(alloc)
}

/// The section of a value.
fn section_word(alloc: Global, section: Option<Name8>) -> Result<Vec<u8>, AllocError>
    ensures { IfOk result (λ text. text.items ≡ option_map_or
        (λ it. codes "SECTION " ++ written_name it) section (codes "ABSOLUTE")) }
{
    let Some(name) = section else {
        return b"ABSOLUTE".to_vec(alloc);
    };
    joined(alloc, b"SECTION ", &written_name(alloc, &name.bytes())?)
}

/// A length attribute in decimal digits.
///
/// An error comes only where memory for the text was refused.
pub fn length_word(alloc: Global, length: u128) -> Result<Vec<u8>, AllocError>
    ensures { IfOk result (λ text. text.items ≡ decimal length) }
{
    Ok(length.to_string(alloc)?.into_bytes())
}

/// Whether a section is the control section; false where there is none of one of them. It takes no memory.
pub fn is_control(section: Option<Name8>, control: Option<Name8>) -> bool
    ensures { result ≡ is_control section control }
{
    match (section, control) {
        (Some(section), Some(control)) => section == control,
        _ => false,
    }
}

/// The offset of a value in a section, where it is one up to a most. It takes no memory.
pub fn offset_up_to(most: u32, section: Option<Name8>, value: &Value) -> Option<u32>
    ensures value { result ≡ offset_up_to most section value.now }
    ensures bound { IfSome result (λ offset. offset ≤ most) }
{
    if !is_control(value.section, section) {
        return None;
    }
    if value.number < 0 || value.number > i128::from(most) {
        return None;
    }
    Some(value.number as u32)
}

/// Where a value is in a loaded program.
fn address_of_value(control: Option<Name8>, value: &Value, loaded: &Loaded) -> Option<u32>
    ensures { result ≡ address_of_value control value.now loaded.now }
{
    let offset = offset_up_to(loaded.len, control, value)?;
    Some(((u64::from(loaded.at) + u64::from(offset)) % 0x100_0000) as u32)
}

/// Where a value is in a program, if that is loaded.
fn address_of(control: Option<Name8>, program: Option<Loaded>, value: &Value) -> Option<u32>
    ensures { result ≡ option_and_then (address_of_value control value.now) program }
{
    let loaded = program?;
    address_of_value(control, value, &loaded)
}

/// Adds the line of a symbol.
pub(crate) fn symbol_line(
    report: &mut Report,
    control: &Option<Name8>,
    program: &Option<Loaded>,
    name: Name8,
    symbol: &Symbol,
) -> Result<(), AllocError>
    ensures { let line = symbol_line control.now program.now (name, symbol.now) in
        OnOk result (report.new ≡ report.old ++ line) }
{
    let alloc = report.alloc();
    let address = address_of(*control, *program, &symbol.value);
    let name = written_name(alloc, &name.bytes())?;
    let value = value_word(alloc, symbol.value.number)?;
    let section = section_word(alloc, symbol.value.section)?;
    let length = length_word(alloc, symbol.value.length)?;
    let line = decimal(alloc, symbol.line)?;
    let Some(address) = address else {
        return report.line(&[
            b"SYMBOL", &name, b"VALUE", &value, &section, b"LENGTH", &length, b"LINE", &line,
        ]);
    };
    let address = hexadecimal::<6>(address);
    report.line(&[
        b"SYMBOL", &name, b"VALUE", &value, &section, b"LENGTH", &length, b"LINE", &line, b"AT",
        &address,
    ])
}
