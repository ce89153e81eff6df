//! Sources, and where everything in them is, as text.
use cx_asm_pass1::{Places, place_all};
use cx_asm_pools::Pool;
use cx_source::read_source;
use std::alloc::{AllocError, Global};
use std::test::Fail;

/// The offsets of a pool's literals, each with a comma after it.
fn push_pool(alloc: Global, text: &mut String, pool: &Pool<'_>) -> Result<(), AllocError> {
    text.push_str("=")?;
    for i in 0..pool.len() {
        if let Some((_, literal)) = pool.literal(i) {
            text.push_str(format!(in alloc; "{},", literal.offset)?.as_str())?;
        }
    }
    text.push_str(" ")?;
    Ok(())
}

/// Each statement's offset, with those of its items where it has two or more; the pools; the length of the control
/// section and of DFHEISTG.
fn shown(alloc: Global, places: &Places<'_>) -> Result<String, AllocError> {
    let mut text = String::new(alloc);
    for place in places.statements.as_slice() {
        text.push_str(format!(in alloc; "{}", place.offset)?.as_str())?;
        if place.items.as_slice().len() > 1 {
            for item in place.items.as_slice() {
                text.push_str(format!(in alloc; ",{item}")?.as_str())?;
            }
        }
        text.push_str(" ")?;
    }
    for pool in places.pools.as_slice() {
        push_pool(alloc, &mut text, pool)?;
    }
    let length = match places.control {
        Some(control) => control.length,
        None => 0,
    };
    text.push_str(format!(in alloc; "L{} S{}", length, places.stg_length)?.as_str())?;
    Ok(text)
}

/// Where everything of a source is, or its fault.
pub(crate) fn placed(alloc: Global, source: &[u8]) -> Result<String, Fail> {
    let source = read_source(alloc, source)?;
    match place_all(alloc, &source)? {
        Ok(places) => Ok(shown(alloc, &places)?),
        Err(first) => Ok(format!(in alloc; "{} {}", first.line, first.kind.name())?),
    }
}
