//! What may be wrong with a statement in the first pass.

ghost use Rattle.std.specs.Prelude.{◌≡◌, ◌||◌, is_none, option_and_then};
ghost use Rattle.cx_asm_pass1.specs.Layout.{fault_beyond};
ghost use Rattle.cx_asm_expressions.specs.Faults.{lower};
ghost use Rattle.cx_asm_pass1.specs.PassState.{bad_label, bad_name, first_fault_after, is_astray, is_control, name_fault, operation_fault, section_fault};

use crate::given::stands_in;
use crate::layout::beyond;
use crate::place::LineFault;
use crate::roles::Role;
use cx_asm_expressions::{FaultKind, lower, symbol_name};
use cx_ebcdic::Name8;

/// How a statement begins.
#[derive(Clone, Copy)]
pub(crate) struct Heading {
    /// What its operation does.
    pub(crate) role: Role,
    /// Its name, where it has one.
    pub(crate) name: Option<Name8>,
    /// The section that it is in.
    pub(crate) section: Option<Name8>,
    /// The control section.
    pub(crate) control: Option<Name8>,
}

/// Whether there is no such operation.
fn operation_fault(role: Role) -> Option<FaultKind>
    ensures { result ≡ operation_fault role }
{
    match role {
        Role::Unknown => Some(FaultKind::UnknownOperation),
        _ => None,
    }
}

/// Whether a name that must be one isn't.
fn bad_name(text: &[u8]) -> Option<FaultKind>
    ensures { result ≡ bad_name text.now }
{
    if symbol_name(text).is_some() {
        None
    } else {
        Some(FaultKind::BadOperand)
    }
}

/// Whether a name that may be left out is none.
fn bad_label(text: &[u8]) -> Option<FaultKind>
    ensures { result ≡ bad_label text.now }
{
    if text.is_empty() {
        None
    } else {
        bad_name(text)
    }
}

/// What is wrong with a statement's name.
fn name_fault(role: Role, text: &[u8]) -> Option<FaultKind>
    ensures { result ≡ name_fault role text.now }
{
    match role {
        Role::Control | Role::Dummy | Role::Equate => bad_name(text),
        Role::Instruction(_) | Role::Storage { is_ds: _ } | Role::Pool => bad_label(text),
        _ => None,
    }
}

/// Whether a section is the control section.
fn is_control(section: Option<Name8>, control: Option<Name8>) -> bool
    ensures { result ≡ is_control section control }
{
    match section {
        Some(section) => stands_in(section, control),
        None => false,
    }
}

/// Whether no control section of a different name has begun.
fn is_first(name: Option<Name8>, control: Option<Name8>) -> bool
    ensures { result ≡ (is_none name || is_none control || is_control name control) }
{
    match (name, control) {
        (Some(name), Some(control)) => name == control,
        _ => true,
    }
}

/// Whether a statement is where it isn't allowed, or begins a second control section.
fn section_fault(heading: &Heading) -> Option<FaultKind>
    ensures { result ≡ section_fault heading.now.role heading.now.name heading.now.section heading.now.control }
{
    let is_well_placed = match heading.role {
        Role::Instruction(_) | Role::Pool => is_control(heading.section, heading.control),
        Role::Storage { is_ds: _ } => heading.section.is_some(),
        Role::Control => is_first(heading.name, heading.control),
        _ => true,
    };
    if is_well_placed {
        None
    } else {
        Some(FaultKind::BadOperand)
    }
}

/// Whether a statement is where it isn't allowed, or a CSECT or START without a name.
pub(crate) fn is_astray(heading: &Heading) -> bool
    ensures { result ≡ is_astray heading.now.role heading.now.name heading.now.section heading.now.control }
{
    match (heading.role, heading.name) {
        (Role::Control, None) => true,
        _ => section_fault(heading).is_some(),
    }
}

/// The lowest fault of a statement's operation, its name and its section, or a further one.
pub(crate) fn lowest_fault(
    heading: &Heading,
    text: &[u8],
    other: Option<FaultKind>,
) -> Option<FaultKind>
    ensures { result ≡ lower (operation_fault heading.now.role) (lower (name_fault heading.now.role text.now)
        (lower (section_fault heading.now.role heading.now.name heading.now.section heading.now.control) other)) }
{
    let placed = lower(section_fault(heading), other);
    lower(
        operation_fault(heading.role),
        lower(name_fault(heading.role, text), placed),
    )
}

/// Whether a pool goes beyond the bound.
pub(crate) fn extent_fault(extent: Option<u128>) -> Option<FaultKind>
    ensures { result ≡ option_and_then fault_beyond extent }
{
    beyond(extent?)
}

/// The first fault so far, after a statement of a line: the first stays, and of several on its line it is the lowest.
/// It takes no memory.
pub fn first_fault_after(
    line: usize,
    fault: Option<FaultKind>,
    first: Option<LineFault>,
) -> Option<LineFault>
    ensures { result ≡ first_fault_after line fault first }
{
    let Some(first) = first else {
        let kind = fault?;
        return Some(LineFault { line, kind });
    };
    if line != first.line {
        return Some(first);
    }
    let kind = lower(Some(first.kind), fault)?;
    Some(LineFault {
        line: first.line,
        kind,
    })
}
