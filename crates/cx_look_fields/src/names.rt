//! The names of a source that have a byte.
ghost use Rattle.std.specs.Prelude.{◌≡◌, ◌<◌, ◌^◌, ◌++◌, [], IfOk, OnOk};
ghost use Rattle.std.specs.List.{cons_option, filter_map};
ghost use Rattle.cx_storage.specs.Address.{distance};
ghost use Rattle.cx_look_fields.specs.Addresses.{near_field, near_in, near_label, nearest_by, nearest_field, nearest_label};

use crate::Standing;
use crate::fields::{Field, LevelFields, field_by, is_field};
use crate::nearest::{Near, nearest};
use cx_ebcdic::Name8;
use cx_look_symbols::{Names, Symbol, names_in, offset_up_to};
use cx_source::Text;
use std::alloc::{AllocError, Global};

/// How many bytes an address is after another.
fn distance(from: u32, address: u32) -> u32
    requires { from < 2 ^ 24 }
    ensures { result ≡ distance from address }
{
    ((u64::from(address) + (0x100_0000 - u64::from(from))) % 0x100_0000) as u32
}

/// How far a byte is from the first of a field, where the field has it.
fn near_in(address: u32, name: Name8, field: Field) -> Option<Near>
    requires { field.address < 2 ^ 24 }
    ensures { result ≡ near_in address name field }
{
    let distance = distance(field.address, address);
    if u128::from(distance) < field.length {
        Some(Near { name, distance })
    } else {
        None
    }
}

/// Adds a name, if there is one.
fn push_near(nears: &mut Vec<Near>, near: Option<Near>) -> Result<(), AllocError>
    ensures { OnOk result (nears.new.items ≡ nears.old.items ++ cons_option near []) }
{
    let Some(near) = near else {
        return Ok(());
    };
    nears.push(near)?;
    Ok(())
}

impl LevelFields {
    /// How far a byte is from the first of a symbol's, where that is a field that has the byte.
    fn near_field(&self, address: u32, name: Name8, symbol: &Symbol) -> Option<Near>
        ensures { let near = near_field address self.now.regs self.now.bases self.now.named.control in
            result ≡ near (name, symbol.now) }
    {
        if !is_field(self.names.control, &symbol.value) {
            return None;
        }
        let field = field_by(&self.regs, &self.bases, symbol.value)?;
        near_in(address, name, field)
    }

    /// The fields that have a byte.
    #[tactic(auto, using(crate::proofs::AddLemmas::added_before))]
    fn nears(&self, alloc: Global, address: u32) -> Result<Vec<Near>, AllocError>
        ensures { let near = near_field address self.now.regs self.now.bases self.now.named.control in
            IfOk result (λ nears. nears.items ≡ filter_map near self.now.named.rows) }
    {
        let mut nears = Vec::new(alloc);
        for (name, symbol) in self.names.symbols.iter() {
            let near = self.near_field(address, *name, symbol);
            push_near(&mut nears, near)?;
        }
        Ok(nears)
    }

    /// The field that has the byte at an address: of several the one that begins last, and of those that begin together
    /// the one that is defined first; None where no field has it.
    ///
    /// An error comes only where memory was refused.
    pub fn nearest(&self, alloc: Global, address: u32) -> Result<Option<Near>, AllocError>
        ensures { IfOk result (λ near. near ≡ nearest_by address self.now) }
    {
        let nears = self.nears(alloc, address)?;
        Ok(nearest(nears.as_slice()))
    }
}

/// The nearest field of a level that has a byte, where the level stands at a statement of its source.
pub(crate) fn nearest_field(
    alloc: Global,
    address: u32,
    lines: &[Text],
    standing: &Standing,
) -> Result<Option<Near>, AllocError>
    ensures { IfOk result (λ near. near ≡ nearest_field address lines.now standing.now) }
{
    match LevelFields::at(alloc, lines, standing)? {
        Some(fields) => fields.nearest(alloc, address),
        None => Ok(None),
    }
}

/// How far an offset is from a symbol, where that is a label at it or before it.
fn near_label(offset: u32, control: Option<Name8>, name: Name8, symbol: &Symbol) -> Option<Near>
    ensures { result ≡ near_label offset control (name, symbol.now) }
{
    let at = offset_up_to(offset, control, &symbol.value)?;
    let distance = offset - at;
    Some(Near { name, distance })
}

/// The labels at an offset or before it.
#[tactic(auto, using(crate::proofs::AddLemmas::added_before))]
fn labels_among(alloc: Global, offset: u32, names: &Names) -> Result<Vec<Near>, AllocError>
    ensures { let near = near_label offset names.now.control in
        IfOk result (λ nears. nears.items ≡ filter_map near names.now.symbols.entries) }
{
    let mut nears = Vec::new(alloc);
    for (name, symbol) in names.symbols.iter() {
        let near = near_label(offset, names.control, *name, symbol);
        push_near(&mut nears, near)?;
    }
    Ok(nears)
}

/// The nearest label at an offset or before it.
pub(crate) fn nearest_label(
    alloc: Global,
    offset: u32,
    lines: &[Text],
) -> Result<Option<Near>, AllocError>
    ensures { IfOk result (λ near. near ≡ nearest_label offset lines.now) }
{
    let Some(names) = names_in(alloc, lines)? else {
        return Ok(None);
    };
    let nears = labels_among(alloc, offset, &names)?;
    Ok(nearest(nears.as_slice()))
}
