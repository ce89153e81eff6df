//! Whether a case ends as it says.

use crate::call_case::Case;
use crate::call_layout::{Layout, symbols_of};
use crate::call_program::source_of;
use cx_asm_build::prepare;
use cx_ebcdic::encode_line;
use cx_exec::{Cpu, Halt, advance};
use cx_load::{CheckedImage, FIRST_OF_PROGRAMS, Loaded, check, load};
use cx_region_state::{Call, read_call};
use cx_storage::{FlatStore, Kind, Owner, Store, address_in};
use std::alloc::{AllocError, Global};

/// The owner of all areas.
const OWNER: Owner = Owner {
    slot: 0,
    kind: Kind::Fixed,
};

/// Where the EXEC interface block is, and its length.
const EIB: u32 = 0x20_0000;

const EIB_LENGTH: u32 = 88;

/// The address past the end of storage.
const END: u32 = 0x100_0000;

/// The image of a case's program.
fn image_of(alloc: Global, case: &Case) -> Result<Option<CheckedImage>, AllocError> {
    let lines = source_of(alloc, case)?;
    match prepare(alloc, lines.as_slice(), false, false) {
        Ok(prepared) => Ok(check(prepared.image).ok()),
        Err(_) => Ok(None),
    }
}

/// Makes an area of some bytes at an address. Whether it is there.
fn has_area(store: &mut FlatStore, at: u32, len: u32) -> Result<bool, AllocError> {
    let last = at.saturating_add(len).saturating_sub(1);
    if len == 0 || last >= END {
        return Ok(false);
    }
    Ok(store.get_area(at, last, len, OWNER)? == Some(at))
}

/// Loads the program at the case's address: what is before it in the range of programs is taken.
fn loaded(
    alloc: Global,
    case: &Case,
    image: &CheckedImage,
    store: &mut FlatStore,
) -> Result<Option<Loaded>, AllocError> {
    let before = case.at.saturating_sub(FIRST_OF_PROGRAMS);
    if before > 0 && !has_area(store, FIRST_OF_PROGRAMS, before)? {
        return Ok(None);
    }
    match load(alloc, image, store) {
        Ok(loaded) if loaded.at == case.at => Ok(Some(loaded)),
        _ => Ok(None),
    }
}

/// The registers at the first instruction.
fn registers_of(layout: &Layout<'_>) -> Option<[u32; 16]> {
    let mut regs = [0; 16];
    regs[3] = layout.program;
    regs[11] = layout.eib;
    regs[13] = layout.storage;
    for register in layout.case.registers.iter() {
        let value = layout.sum(register.value.as_str())?;
        if let Some(word) = regs.get_mut(register.number) {
            *word = value;
        }
    }
    Some(regs)
}

/// The name of how a run ended.
fn halt_name(halt: Halt) -> &'static str {
    match halt {
        Halt::AtEntry => "AtEntry",
        Halt::Limit => "Limit",
        Halt::Interrupt(_, _) => "Interrupt",
    }
}

/// Runs the program. Whether the run ends where it must: without a limit with the last of two instructions for each
/// word of the list and four.
fn ends_so(case: &Case, cpu: &mut Cpu, store: &mut FlatStore) -> bool {
    if let Some(limit) = case.limit {
        return halt_name(advance(cpu, store, limit)) == case.ends.as_str();
    }
    let arguments = u32::try_from(case.arguments.len()).unwrap_or(0);
    let most = arguments.wrapping_mul(2).wrapping_add(5);
    case.ends.as_str() == "AtEntry"
        && advance(cpu, store, most) == Halt::Limit
        && advance(cpu, store, 1) == Halt::AtEntry
}

/// The name that a literal holds, as `=CL8'PROG'`, with its width.
fn name_in(text: &str) -> Option<(usize, &str)> {
    let (width, name) = match text.strip_prefix("=CL8'") {
        Some(name) => (8, name),
        None => (4, text.strip_prefix("=CL4'")?),
    };
    Some((width, name.strip_suffix("'")?))
}

/// Whether storage has bytes, eight at most, at an address.
fn has_bytes(store: &FlatStore, place: u32, bytes: Option<&[u8]>) -> bool {
    let Some(bytes) = bytes else {
        return false;
    };
    let mut found = [0; 8];
    match found.get_mut(..bytes.len()) {
        Some(found) => store.read(address_in(place), found) && bytes == &*found,
        None => false,
    }
}

/// Whether storage has a name, filled with blanks, at an address.
fn holds(
    alloc: Global,
    store: &FlatStore,
    place: u32,
    width: usize,
    name: &str,
) -> Result<bool, AllocError> {
    let name = format!(in alloc; "{name:<8}")?;
    match encode_line(alloc, name.as_str()) {
        Ok(bytes) => Ok(has_bytes(store, place, bytes.as_slice().get(..width))),
        Err(_) => Ok(false),
    }
}

/// Whether each argument's place is the one that its expression has.
fn are_places(
    alloc: Global,
    layout: &Layout<'_>,
    regs: &[u32; 16],
    store: &FlatStore,
    places: &[u32],
) -> Result<bool, AllocError> {
    if places.len() != layout.case.arguments.len() {
        return Ok(false);
    }
    for (place, argument) in places.iter().zip(layout.case.arguments.iter()) {
        let agrees = match name_in(argument.as_str()) {
            Some((width, name)) => holds(alloc, store, *place, width, name)?,
            None => layout.place(regs, argument.as_str()) == Some(*place),
        };
        if !agrees {
            return Ok(false);
        }
    }
    Ok(true)
}

/// Whether a call is the case's command with its options and conditions.
fn is_command(case: &Case, call: &Call) -> bool {
    call.command().name() == case.command.as_str()
        && call.first() == case.first
        && call.has_nohandle() == case.statement.as_str().contains("NOHANDLE")
        && call.resp().is_some() == case.statement.as_str().contains("RESP(")
        && call.conditions() == case.listed.as_slice()
}

/// The call whose list is at an address, where there is one.
fn call_at(store: &FlatStore, address: u32) -> Option<Call> {
    read_call(store, address_in(address)).ok()
}

/// Whether a call is the case's, and its arguments are where it says.
fn is_call(
    alloc: Global,
    layout: &Layout<'_>,
    regs: &[u32; 16],
    store: &FlatStore,
    call: &Call,
) -> Result<bool, AllocError> {
    Ok(is_command(layout.case, call) && are_places(alloc, layout, regs, store, call.places())?)
}

/// Runs a loaded program. Whether the call at its end is the case's.
fn arrives(
    alloc: Global,
    layout: &Layout<'_>,
    entry: u32,
    store: &mut FlatStore,
) -> Result<bool, AllocError> {
    let Some(regs) = registers_of(layout) else {
        return Ok(false);
    };
    let mut cpu = Cpu {
        regs,
        cc: 0,
        next: address_in(entry),
    };
    if !ends_so(layout.case, &mut cpu, store) {
        return Ok(false);
    }
    if layout.case.ends.as_str() != "AtEntry" {
        return Ok(true);
    }
    match call_at(store, cpu.regs[1]) {
        Some(call) => is_call(alloc, layout, &regs, store, &call),
        None => Ok(false),
    }
}

/// Runs a case's program that is loaded. Whether it ends as the case says.
fn runs(
    alloc: Global,
    case: &Case,
    loaded: Loaded,
    store: &mut FlatStore,
) -> Result<bool, AllocError> {
    let storage = case.storage.unwrap_or(END.saturating_sub(loaded.stg_len));
    if !has_area(store, EIB, EIB_LENGTH)? || !has_area(store, storage, loaded.stg_len)? {
        return Ok(false);
    }
    let symbols = symbols_of(alloc, case)?;
    let layout = Layout {
        case,
        symbols: symbols.as_slice(),
        program: loaded.at,
        storage,
        eib: EIB,
    };
    arrives(alloc, &layout, loaded.entry, store)
}

/// Loads a case's image and runs it. Whether it ends as the case says.
fn ends_in(
    alloc: Global,
    case: &Case,
    image: &CheckedImage,
    store: &mut FlatStore,
) -> Result<bool, AllocError> {
    match loaded(alloc, case, image, store)? {
        Some(loaded) => runs(alloc, case, loaded, store),
        None => Ok(false),
    }
}

/// Whether a case ends as it says.
pub fn agrees(alloc: Global, case: &Case) -> Result<bool, AllocError> {
    match image_of(alloc, case)? {
        Some(image) => ends_in(alloc, case, &image, &mut FlatStore::new(alloc)),
        None => Ok(false),
    }
}
