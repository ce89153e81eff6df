//! Whether a sum of values is absolute, or a place in a section.

ghost use Rattle.std.specs.Prelude.{◌≡◌, ◌∷◌, [], List, ℕ, ℤ, not, pos, unwrap_or, IfOk, OnOk};
ghost use Rattle.std.specs.Map.{lookup};
ghost use Rattle.std.specs.Ordering.{int_eq};
ghost use Rattle.indexmap.specs.IndexMap.{insert_entry};
ghost use Rattle.cx_asm_expressions.specs.Names.{is_same};
ghost use Rattle.std.specs.List.{filter};
ghost use Rattle.cx_asm_expressions.specs.Parts.Sections.{section_in, unit, weights_from};
ghost use Rattle.cx_asm_expressions.specs.Weights.{relocation};

use crate::expressions::Signed;
use crate::terms::Sign;
use cx_ebcdic::Name8;
use indexmap::IndexMap;
use std::alloc::{AllocError, Global};

/// What a value with this sign adds to its section's weight.
fn unit(sign: Sign) -> i128
    ensures { result ≡ unit sign }
{
    match sign {
        Sign::Plus => 1,
        Sign::Minus => -1,
    }
}

/// What a section weighs so far.
fn weight_of(weights: &IndexMap<Name8, i128>, section: Name8) -> i128
    ensures { result ≡ unwrap_or (lookup (is_same section) weights.now.entries) (pos 0) }
{
    weights.get(&section).copied().unwrap_or(0)
}

/// Puts what a section weighs.
fn put_weight(
    weights: &mut IndexMap<Name8, i128>,
    section: Name8,
    weight: i128,
) -> Result<(), AllocError>
    ensures { OnOk result (weights.new.entries ≡ insert_entry is_same weights.old.entries section weight) }
{
    weights.insert(section, weight)?;
    Ok(())
}

/// The sections of values, each with the sum of its signs.
#[tactic(auto, using(crate::proofs::WeightLemmas::put_as_inserted))]
fn weights(alloc: Global, values: &[Signed]) -> Result<IndexMap<Name8, i128>, AllocError>
    ensures { IfOk result (λ weights. weights.entries ≡ weights_from [] values.now) }
{
    let mut weights = IndexMap::new(alloc);
    for value in values {
        let Some(section) = value.value.section else {
            continue;
        };
        let weight = weight_of(&weights, section);
        put_weight(&mut weights, section, weight + unit(value.sign))?;
    }
    Ok(weights)
}

/// The sections that weigh something.
fn heavy_sections(
    alloc: Global,
    weights: &IndexMap<Name8, i128>,
) -> Result<Vec<(Name8, i128)>, AllocError>
    ensures { IfOk result (λ found. found.items
        ≡ filter (λ (entry : List ℕ × ℤ). not (int_eq entry.1 (pos 0))) weights.now.entries) }
{
    let mut found = Vec::new(alloc);
    for (section, weight) in weights.iter() {
        if *weight != 0 {
            found.push((*section, *weight))?;
        }
    }
    Ok(found)
}

/// What the sections that weigh something say of a sum.
fn section_in(heavy: &[(Name8, i128)]) -> Option<Option<Name8>>
    ensures { result ≡ section_in heavy.now }
{
    match heavy {
        [] => Some(None),
        [entry] if entry.1 == 1 => Some(Some(entry.0)),
        _ => None,
    }
}

/// The section that a sum of values is a place in: Some(None) where it is absolute, None where it is neither.
#[tactic(auto, using(crate::proofs::WeighLemmas::by_weights))]
pub(crate) fn relocation(
    alloc: Global,
    values: &[Signed],
) -> Result<Option<Option<Name8>>, AllocError>
    ensures { IfOk result (λ found. found ≡ relocation values.now) }
{
    let weights = weights(alloc, values)?;
    let heavy = heavy_sections(alloc, &weights)?;
    Ok(section_in(heavy.as_slice()))
}
