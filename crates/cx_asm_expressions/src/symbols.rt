//! The table of symbols.

ghost use Rattle.std.specs.Prelude.{◌≡◌, [], OnErr, OnOk, IsErrOf, IsOkUnless, MatchOption};
ghost use Rattle.indexmap.specs.IndexMap.{insert_entry};
ghost use Rattle.cx_asm_expressions.specs.Names.{is_same, symbol_name};
ghost use Rattle.cx_asm_expressions.specs.Symbols.{Defines, find_in};

use crate::faults::{FaultKind, TermFault};
use crate::values::Value;
use cx_ebcdic::Name8;
use cx_source::is_symbol_name;
use indexmap::IndexMap;
use std::alloc::{AllocError, Global};
use std::marker::Model;

/// The name that a symbol is known by, or None where a text is no symbol: 1 to 8 letters (A to Z, `@ # $`) and digits,
/// the first a letter (GC33-4010, "Symbols"). It takes no memory.
#[tactic(auto, using(crate::proofs::NameLemmas::names_are_text), unfolding(crate::specs::Names::symbol_name))]
pub fn symbol_name(text: &[u8]) -> Option<Name8>
    ensures { result ≡ symbol_name text.now }
{
    if !is_symbol_name(text) {
        return None;
    }
    let Ok(name) = str::from_utf8(text) else {
        return None;
    };
    Name8::from_text(name)
}

/// The symbols of a source, each with its value (GC33-4010, "Symbol Table").
#[derive(Drop)]
pub struct SymbolTable {
    symbols: IndexMap<Name8, Value>,
}

impl Model for SymbolTable {
    ghost use Rattle.cx_asm_expressions.specs.Symbols.{Symbols};

    ghost Value = { Symbols };

    ghost view = { λ table. table.symbols.entries };
}

impl SymbolTable {
    /// A table without a symbol. It takes no memory.
    pub fn new(alloc: Global) -> SymbolTable
        ensures { result ≡ [] }
    {
        SymbolTable {
            symbols: IndexMap::new(alloc),
        }
    }

    /// The value of the symbol with this name; None where the table has no such symbol. It takes no memory.
    pub fn get(&self, name: Name8) -> Option<Value>
        ensures { result ≡ find_in self.now name }
    {
        self.symbols.get(&name).copied()
    }

    /// Defines the symbol with this name, which has this value from then on.
    ///
    /// DuplicateSymbol comes exactly where the name is a symbol's already, and Memory only where an allocation failed;
    /// then all is as before.
    #[tactic(auto, using(crate::proofs::TableLemmas::defined_by_insert))]
    pub fn define(&mut self, name: Name8, value: Value) -> Result<(), TermFault>
        ensures defined { OnOk result (Defines self.old name value self.new) }
        ensures refused { MatchOption (find_in self.old name) (IsOkUnless result TermFault.Memory)
            (λ _. IsErrOf result (TermFault.Refused FaultKind.DuplicateSymbol)) }
        ensures err { OnErr result (self.new ≡ self.old) }
    {
        if self.get(name).is_some() {
            return Err(TermFault::Refused(FaultKind::DuplicateSymbol));
        }
        put(&mut self.symbols, name, value)?;
        Ok(())
    }
}

/// Puts a value under a name.
fn put(symbols: &mut IndexMap<Name8, Value>, name: Name8, value: Value) -> Result<(), AllocError>
    ensures put { OnOk result (symbols.new.entries ≡ insert_entry is_same symbols.old.entries name value) }
    ensures err { OnErr result (symbols.new.entries ≡ symbols.old.entries) }
{
    symbols.insert(name, value)?;
    Ok(())
}
