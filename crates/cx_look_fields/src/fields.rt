//! The fields of a level's source.
ghost use Rattle.std.specs.Prelude.{◌≡◌, ◌<◌, ◌^◌, IfOk, IfSome};
ghost use Rattle.cx_asm_operands.specs.Bases.{none_in_use};
ghost use Rattle.cx_asm_pass2.specs.Whole.{whole_by};
ghost use Rattle.cx_exec.specs.Machine.{address_part, effective};
ghost use Rattle.cx_look_fields.specs.Fields.{bases_at, bases_at_offset, field_by, fields_at, fields_in, is_field, stands_at};
ghost use Rattle.cx_look_fields.specs.FieldTexts.{named_field, typed_field};

use crate::{NamedReading, Reading, Standing, reading_named, readings_of};
use cx_asm_expressions::Value;
use cx_asm_operands::{Address, Bases};
use cx_asm_pass1::Places;
use cx_asm_pass2::{Statement, control_name, pass_bases};
use cx_ebcdic::Name8;
use cx_look_symbols::{
    Names, PlacedSource, Symbol, has_offset, is_control, statement_place, translated_in,
};
use cx_source::Text;
use std::alloc::{AllocError, Global};
use std::marker::Model;

/// A field: the address of its first byte, and its length attribute, in bytes.
#[derive(Clone, Copy)]
pub struct Field {
    pub address: u32,
    pub length: u128,
}

/// A field, and how its bytes are read as a number, if they may be one.
#[derive(Clone, Copy)]
pub struct TypedField {
    pub field: Field,
    pub reading: Option<Reading>,
}

/// Whether a statement has the byte at an offset of the control section.
fn stands_at(
    alloc: Global,
    places: &Places<'_>,
    offset: u32,
    statement: &Statement<'_>,
) -> Result<bool, AllocError>
    ensures { IfOk result (λ is_there. is_there ≡ stands_at (whole_by places.now) offset statement.now) }
{
    match statement_place(alloc, control_name(places), statement)? {
        Some(place) => Ok(has_offset(&place, offset)),
        None => Ok(false),
    }
}

/// The bases in use in front of the statement that has the byte at an offset.
#[tactic(auto, unfolding(crate::specs::Fields::bases_at))]
fn bases_at(
    alloc: Global,
    places: &Places<'_>,
    offset: u32,
    statements: &[Statement<'_>],
) -> Result<Option<Bases>, AllocError>
    ensures { IfOk result (λ bases. bases ≡ bases_at (whole_by places.now) offset none_in_use statements.now) }
{
    let mut bases = Bases::new();
    for statement in statements {
        if stands_at(alloc, places, offset, statement)? {
            return Ok(Some(bases));
        }
        pass_bases(alloc, places, &mut bases, statement)?;
    }
    Ok(None)
}

/// The bases in use in a source in front of the statement that has the byte at an offset of its control section; None
/// where no statement has it.
fn bases_at_offset(
    alloc: Global,
    placed: &PlacedSource<'_>,
    offset: u32,
) -> Result<Option<Bases>, AllocError>
    ensures { IfOk result (λ bases. bases ≡ bases_at_offset placed.now offset) }
{
    let statements = placed.statements(alloc)?;
    bases_at(alloc, placed.places(), offset, statements.as_slice())
}

/// What a register gives to an address: register 0 gives zero.
fn address_part(regs: &[u32; 16], register: u8) -> u32
    ensures { result ≡ address_part regs.now register }
{
    if register == 0 {
        return 0;
    }
    regs.get(usize::from(register)).copied().unwrap_or(0)
}

/// The address that a base and a displacement make.
#[tactic(auto, unfolding(cx_exec::specs::Machine::effective))]
fn effective(regs: &[u32; 16], at: Address) -> u32
    ensures value { result ≡ effective regs.now 0 at.base at.displacement }
    ensures below_2_24 { result < 2 ^ 24 }
{
    let base = address_part(regs, at.base);
    base.wrapping_add(u32::from(at.displacement)) % 0x100_0000
}

/// The address of a value, below 2^24, by the base that the assembler chooses for it and what that register holds, and
/// its length; None where the assembler finds no address for it. It takes no memory.
#[tactic(auto, unfolding(crate::specs::Fields::field_by))]
pub(crate) fn field_by(regs: &[u32; 16], bases: &Bases, value: Value) -> Option<Field>
    ensures value { result ≡ field_by regs.now bases.now value }
    ensures below_2_24 { IfSome result (λ field. field.address < 2 ^ 24) }
{
    let length = value.length;
    let implied = bases.implied_address(value);
    let Ok(at) = implied else {
        return None;
    };
    let address = effective(regs, at);
    Some(Field { address, length })
}

/// Whether a value is that of a field: a place in a dummy section.
pub(crate) fn is_field(control: Option<Name8>, value: &Value) -> bool
    ensures { result ≡ is_field control value.now }
{
    value.section.is_some() && !is_control(value.section, control)
}

/// What the fields of a level are found by: its registers, the bases in use at its statement, the names of its source,
/// and how the bytes of these are read.
#[derive(Drop)]
pub struct LevelFields {
    pub(crate) regs: [u32; 16],
    pub(crate) bases: Bases,
    pub(crate) names: Names,
    readings: Vec<NamedReading>,
}

impl Model for LevelFields {
    ghost use Rattle.cx_look_symbols.specs.Names.{symbols_named};
    ghost use Rattle.cx_look_fields.specs.Fields.{LevelFields as FoundBy};

    ghost Value = { FoundBy };

    ghost view = { λ it.
        record { regs = it.regs; bases = it.bases; named = symbols_named it.names; readings = it.readings.items } };
}

impl LevelFields {
    /// What the fields of a level with these registers are found by, which is at the statement that has the byte at an
    /// offset of its source's control section; None where no statement has it.
    ///
    /// An error comes only where memory was refused.
    pub fn of(
        alloc: Global,
        placed: &PlacedSource<'_>,
        regs: &[u32; 16],
        offset: u32,
    ) -> Result<Option<LevelFields>, AllocError>
        ensures { IfOk result (λ fields. fields ≡ fields_in regs.now offset placed.now) }
    {
        let Some(bases) = bases_at_offset(alloc, placed, offset)? else {
            return Ok(None);
        };
        let names = placed.names(alloc)?;
        let readings = readings_of(alloc, placed.source())?;
        Ok(Some(LevelFields {
            regs: *regs,
            bases,
            names,
            readings,
        }))
    }

    /// What the fields of a level are found by, whose program's source has these lines: the source is placed once, for
    /// any number of fields. None where the level isn't at a statement of its source.
    ///
    /// An error comes only where memory was refused.
    pub fn at(
        alloc: Global,
        lines: &[Text],
        standing: &Standing,
    ) -> Result<Option<LevelFields>, AllocError>
        ensures { IfOk result (λ fields. fields ≡ fields_at lines.now standing.now) }
    {
        let Some(offset) = standing.offset() else {
            return Ok(None);
        };
        let source = translated_in(alloc, lines)?;
        match PlacedSource::of(alloc, &source)? {
            Some(placed) => LevelFields::of(alloc, &placed, &standing.regs, offset),
            None => Ok(None),
        }
    }

    /// The field of a symbol, at an address below 2^24, and how it is read.
    pub(crate) fn typed_field(&self, name: Name8, symbol: &Symbol) -> Option<TypedField>
        ensures value { result ≡ typed_field self.now (name, symbol.now) }
        ensures below_2_24 { IfSome result (λ it. it.field.address < 2 ^ 24) }
    {
        let field = field_by(&self.regs, &self.bases, symbol.value)?;
        let reading = reading_named(&self.readings, name);
        Some(TypedField { field, reading })
    }

    /// The field of a name, at an address below 2^24, and how it is read; None where no base in use reaches it, or the
    /// source has no such symbol. It takes no memory.
    pub fn named_field(&self, name: Name8) -> Option<TypedField>
        ensures value { result ≡ named_field name self.now }
        ensures below_2_24 { IfSome result (λ it. it.field.address < 2 ^ 24) }
    {
        let symbol = self.names.symbols.get(&name)?;
        self.typed_field(name, symbol)
    }
}
