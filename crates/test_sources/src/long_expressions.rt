//! Operands as long as a source may have them.
use cx_asm_expressions::{Constant, SymbolTable, Value, value_of};
use std::alloc::{AllocError, Global};
use std::test::Fail;

/// The characters of the longest operand: 10,000 lines of 56 columns.
const LONGEST: usize = 560_000;

/// A front, then a part repeated so that all together has at most a given number of bytes, and an end.
fn repeated(
    alloc: Global,
    front: &[u8],
    part: &[u8],
    end: &[u8],
    times: usize,
) -> Result<Vec<u8>, AllocError> {
    let mut text = Vec::new(alloc);
    text.extend_from_slice(front)?;
    for _ in 0..times {
        text.extend_from_slice(part)?;
    }
    text.extend_from_slice(end)?;
    Ok(text)
}

fn is_number(alloc: Global, text: &[u8], number: i128) -> bool {
    value_of(alloc, text, &SymbolTable::new(alloc), None) == Ok(Value::absolute(number))
}

/// Whether a constant has `len` bytes in each copy.
fn has_bytes(alloc: Global, text: &[u8], len: usize) -> bool {
    let Ok(item) = Constant::read(text, false) else {
        return false;
    };
    match item.bytes(alloc, &SymbolTable::new(alloc), None, None) {
        Ok(copy) => copy.as_slice().len() == len,
        Err(_) => false,
    }
}

#[test]
fn a_sum_may_be_as_long_as_a_source(rt: HostRuntime) -> Result<(), Fail> {
    let alloc = rt.alloc();
    let text = repeated(alloc, b"1", b"+1", b"", LONGEST / 2)?;
    assert!(rt; is_number(alloc, text.as_slice(), 280_001));
    Ok(())
}

#[test]
fn a_constant_may_have_as_many_values(rt: HostRuntime) -> Result<(), Fail> {
    let alloc = rt.alloc();
    let text = repeated(alloc, b"F'1", b",1", b"'", LONGEST / 2)?;
    assert!(rt; has_bytes(alloc, text.as_slice(), 1_120_004));
    Ok(())
}
