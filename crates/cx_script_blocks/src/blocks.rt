//! Lines and blocks: what each line of a script leads to.

ghost use Rattle.std.specs.Prelude.{◌≡◌, ℕ, ◌+◌, ◌<◌, ◌≤◌, ◌/◌, ◌^◌, ◌++◌, ◌∷◌, [], None, Err, IfOk, IfSome, OnErr, MatchOption, Some, is_some, true, false, length};
ghost use Rattle.cx_script_actions.specs.Words.{hex_bytes};
ghost use Rattle.cx_script_blocks.specs.Blocks.{body_with, block_step, block_end, image_of, kept_text, kept_lines, fault_of_line, step_at, step_in, step_of, with_line};
ghost use Rattle.cx_script_actions.specs.declared.actions.Action.TheVariants as action;
ghost use Rattle.std.specs.Option.{option_map};
ghost use Rattle.cx_script_blocks.specs.Faults.{is_memory, is_read, is_write};
ghost use Rattle.cx_script_blocks.specs.declared.faults.RunFault.TheVariants.{BadLine};
ghost use Rattle.cx_asm_build.specs.declared.faults.PrepareFault.TheVariants.{At};

use crate::faults::RunFault;
use cx_asm_build::{PrepareFault, Prepared, prepare};
use cx_base::List;
use cx_code::{Bytes, Image, Offsets};
use cx_ebcdic::Name8;
use cx_script_actions::{Action, Line, ScriptAction, Wanted};
use cx_script_io::is_too_long;
use cx_source::Text;
use std::alloc::{AllocError, Global};

/// The most bytes that a line of hexadecimal digits spells.
const MOST_IN_LINE: usize = 2_048;

/// The most bytes of a text that are kept: one byte more than an image may have.
const MOST_KEPT: usize = 65_537;

/// The most lines of a block that are kept: one line more than a source may have.
const MOST_LINES: usize = 10_001;

/// A block of a script, up to some line of it; `H` is what begins a block of lines that are handed over.
#[derive(Drop)]
pub struct Block<H> {
    /// The number of the line that begins it, counted from 1.
    pub line: usize,
    /// What that line says, and what it has so far, as far as that is kept.
    pub body: Body<H>,
}

/// What the line that begins a block says, and what the block has so far, as far as that is kept.
#[derive(Drop)]
pub enum Body<H> {
    /// An image: its program's name, the length of its working storage in bytes, and its bytes so far, at most 65,537.
    Image(Name8, u32, Bytes),
    /// A source: its program's name, what is to be written of it, and its lines so far, at most 10,001.
    Source(Name8, Wanted, List<Text>),
    /// Lines that are handed over: what begins them, and those that are kept.
    Lines(H, List<Text>),
}

/// The fault of a source that begins after this line. It is Memory only where the source's is, since no source has too
/// many lines for the sum to fit.
fn refused<A: ScriptAction>(
    first: usize,
    fault: PrepareFault,
) -> Result<LineStep<A, A::Heading>, RunFault>
    ensures value { is_memory result ≡ false → result ≡ Err (fault_of_line first fault) }
    ensures memory { (line : ℕ) (kind : _) → fault ≡ At line kind → first + line < 2 ^ 64
        → is_memory result ≡ false }
    ensures allowed { IfOk result (λ step. IfSome step.action A.allowed) }
    ensures unwritten { is_write result ≡ false }
    ensures unread { is_read result ≡ false }
{
    match fault {
        PrepareFault::At(number, kind) => match first.checked_add(number) {
            Some(line) => Err(RunFault::Source(line, kind)),
            None => Err(RunFault::Memory),
        },
        PrepareFault::Memory => Err(RunFault::Memory),
    }
}

/// The action of an image's block.
fn image_action(alloc: Global, name: Name8, stg_len: u32, text: Bytes) -> Action
    ensures { result ≡ action.Image name (image_of stg_len text) }
{
    let image = Image {
        text,
        entry: 0,
        relocs: Offsets::from_vec(Vec::new(alloc)),
        stg_len,
    };
    Action::Image(name, image)
}

/// What the end of a source's block leads to: the program of its source, or the fault.
#[tactic(auto, using(crate::proofs::BlockLemmas::source_refused))]
fn end_source<A: ScriptAction>(
    alloc: Global,
    first: usize,
    name: Name8,
    wanted: Wanted,
    lines: Vec<Text>,
) -> Result<LineStep<A, A::Heading>, RunFault>
    ensures value { is_memory result ≡ false
        → result ≡ block_end A.language first (Body.Source name wanted lines.items) }
    ensures allowed { IfOk result (λ step. IfSome step.action A.allowed) }
    ensures unwritten { is_write result ≡ false }
    ensures unread { is_read result ≡ false }
{
    match prepare(alloc, lines.as_slice(), wanted.listing, wanted.disassembly) {
        Ok(Prepared { text, image }) => Ok(LineStep {
            action: Some(A::of_source(name, lines, Action::Source(name, text, image))),
            block: None,
        }),
        Err(fault) => refused(first, fault),
    }
}

impl<H: Copy + Drop> Body<H> {
    /// What it has with one more line, where it may have that line.
    fn with_line<A: ScriptAction<Heading = H>>(
        self,
        alloc: Global,
        line: &[u8],
    ) -> Result<Option<Body<H>>, AllocError>
        requires { length line.now ≤ 4096 }
        ensures value { IfOk result (λ more. more ≡ body_with A.language self line.now) }
        ensures memory { OnErr result (is_some (body_with A.language self line.now) ≡ true) }
    {
        Ok(match self {
            Body::Image(name, stg_len, text) => match with_bytes(text, line)? {
                Some(text) => Some(Body::Image(name, stg_len, text)),
                None => None,
            },
            Body::Source(name, wanted, lines) => {
                Some(Body::Source(name, wanted, with_text(alloc, lines, line)?))
            }
            Body::Lines(heading, lines) => match A::with_line(alloc, Some(heading), lines, line)? {
                Some(lines) => Some(Body::Lines(heading, lines)),
                None => None,
            },
        })
    }
}

impl<H: Copy + Drop> Block<H> {
    /// What its end leads to.
    fn end<A: ScriptAction<Heading = H>>(self, alloc: Global) -> Result<LineStep<A, H>, RunFault>
        ensures value { is_memory result ≡ false → result ≡ block_end A.language self.line self.body }
        ensures allowed { IfOk result (λ step. IfSome step.action A.allowed) }
        ensures unwritten { is_write result ≡ false }
        ensures unread { is_read result ≡ false }
    {
        let Block { line, body } = self;
        let action = match body {
            Body::Image(name, stg_len, text) => {
                Some(A::of_block(image_action(alloc, name, stg_len, text)))
            }
            Body::Source(name, wanted, lines) => {
                return end_source(alloc, line, name, wanted, lines.into_vec());
            }
            Body::Lines(heading, lines) => A::of_lines(alloc, line, Some(heading), lines)?,
        };
        Ok(LineStep {
            action,
            block: None,
        })
    }

    /// The block with one more line, where it may have that line.
    fn with_line<A: ScriptAction<Heading = H>>(
        self,
        alloc: Global,
        text: &[u8],
    ) -> Result<Option<Block<H>>, AllocError>
        requires { length text.now ≤ 4096 }
        ensures value { IfOk result (λ block. block ≡ with_line A.language self text.now) }
        ensures memory { OnErr result (is_some (with_line A.language self text.now) ≡ true) }
    {
        let Block { line, body } = self;
        Ok(match body.with_line::<A>(alloc, text)? {
            Some(body) => Some(Block { line, body }),
            None => None,
        })
    }
}

/// What a line leads to: what is done, and the block that the next line is in.
#[derive(Drop)]
pub struct LineStep<A, H> {
    /// What is done; None where the line asks nothing, begins a block, or is inside one.
    pub action: Option<A>,
    /// The block that the next line is in; None outside of blocks.
    pub block: Option<Block<H>>,
}

/// A block that begins with this line, which leaves it to the next.
fn begun<A, H>(line: usize, body: Body<H>) -> LineStep<A, H>
    ensures { result ≡ block_step (record { line = line; body = body }) }
{
    LineStep {
        action: None,
        block: Some(Block { line, body }),
    }
}

/// What a line outside a block leads to.
fn step_of<A, H>(alloc: Global, number: usize, line: Line<A, H>) -> LineStep<A, H>
    ensures { result ≡ step_of number line }
{
    match line {
        Line::Blank => LineStep {
            action: None,
            block: None,
        },
        Line::Image(name, stg_len) => {
            let text = Bytes::from_vec(Vec::new(alloc));
            begun(number, Body::Image(name, stg_len, text))
        }
        Line::Source(name, wanted) => {
            let lines = List::from_vec(Vec::new(alloc));
            begun(number, Body::Source(name, wanted, lines))
        }
        Line::Lines(heading) => {
            let lines = List::from_vec(Vec::new(alloc));
            begun(number, Body::Lines(heading, lines))
        }
        Line::Action(action) => LineStep {
            action: Some(action),
            block: None,
        },
    }
}

/// Puts the bytes that a line of hexadecimal digits spells into a buffer of that length; false where it isn't one.
#[tactic(auto, using(crate::proofs::HexLines::spelled))]
fn decode_line(line: &[u8], out: &mut [u8]) -> bool
    requires { length out.old ≡ length line.now / 2 }
    ensures { MatchOption (hex_bytes line.now) (result ≡ false) (λ bytes. (result ≡ true) × (out.new ≡ bytes)) }
{
    hex::decode_to_slice(line, out).is_ok()
}

/// Drops what is not kept of a text.
#[tactic(auto, unfolding(crate::specs::Blocks::kept_text))]
fn keep(text: &mut Vec<u8>)
    ensures { text.new.items ≡ kept_text text.old.items }
{
    text.truncate(MOST_KEPT);
}

/// A text with the bytes that a line of hexadecimal digits spells, as far as they are kept; None where it isn't one.
fn with_bytes(text: Bytes, line: &[u8]) -> Result<Option<Bytes>, AllocError>
    requires { length line.now ≤ 4096 }
    ensures value { IfOk result
        (λ more. more ≡ option_map (λ bytes. kept_text (text ++ bytes)) (hex_bytes line.now)) }
    ensures memory { OnErr result (is_some (hex_bytes line.now) ≡ true) }
{
    let mut buffer = [0; MOST_IN_LINE];
    let out = &mut buffer[..line.len() / 2];
    if !decode_line(line, out) {
        return Ok(None);
    }
    let mut text = text.into_vec();
    text.extend_from_slice(out)?;
    keep(&mut text);
    Ok(Some(Bytes::from_vec(text)))
}

/// The lines of a block with one more, as far as they are kept: the first 10,001.
///
/// An error comes only where an allocation failed.
#[tactic(auto, unfolding(crate::specs::Blocks::kept_lines))]
#[doc(hidden)]
pub fn with_text(alloc: Global, lines: List<Text>, line: &[u8]) -> Result<List<Text>, AllocError>
    ensures { IfOk result (λ more. more ≡ kept_lines (lines ++ line.now ∷ [])) }
{
    let mut lines = lines.into_vec();
    lines.push(Text::from_slice(alloc, line)?)?;
    lines.truncate(MOST_LINES);
    Ok(List::from_vec(lines))
}

/// What a line inside a block leads to.
#[tactic(auto, using(crate::proofs::BlockLemmas::end_is_good))]
fn step_within<A: ScriptAction>(
    alloc: Global,
    number: usize,
    block: Block<A::Heading>,
    line: &[u8],
) -> Result<LineStep<A, A::Heading>, RunFault>
    requires { length line.now ≤ 4096 }
    ensures value { is_memory result ≡ false → result ≡ step_in A.language number (Some block) line.now }
    ensures bad { let due = step_in A.language number (Some block) line.now in
        due ≡ Err (BadLine number) → result ≡ Err (BadLine number) }
    ensures allowed { IfOk result (λ step. IfSome step.action A.allowed) }
    ensures unwritten { is_write result ≡ false }
    ensures unread { is_read result ≡ false }
{
    if line == b"/*".as_slice() {
        return block.end(alloc);
    }
    match block.with_line::<A>(alloc, line)? {
        Some(block) => Ok(LineStep {
            action: None,
            block: Some(block),
        }),
        None => Err(RunFault::BadLine(number)),
    }
}

/// What a line outside a block leads to, by its text.
fn step_outside<A: ScriptAction>(
    alloc: Global,
    number: usize,
    line: &[u8],
) -> Result<LineStep<A, A::Heading>, RunFault>
    ensures value { is_memory result ≡ false → result ≡ step_in A.language number None line.now }
    ensures bad { let due = step_in A.language number None line.now in
        due ≡ Err (BadLine number) → result ≡ Err (BadLine number) }
    ensures allowed { IfOk result (λ step. IfSome step.action A.allowed) }
    ensures unwritten { is_write result ≡ false }
    ensures unread { is_read result ≡ false }
{
    match A::read_line(alloc, number, line)? {
        Some(line) => Ok(step_of(alloc, number, line)),
        None => Err(RunFault::BadLine(number)),
    }
}

/// What a line leads to in a script of these actions: `number` is the line's number, counted from 1, and `block` the
/// block that it is in.
///
/// An error is the line's fault, or Memory where an allocation failed. A bad line is BadLine with its number, never
/// Memory.
#[tactic(auto, unfolding(crate::specs::Blocks::step_at))]
pub fn step_at<A: ScriptAction>(
    alloc: Global,
    number: usize,
    block: Option<Block<A::Heading>>,
    line: &[u8],
) -> Result<LineStep<A, A::Heading>, RunFault>
    ensures value { is_memory result ≡ false → result ≡ step_at A.language number block line.now }
    ensures bad { let due = step_at A.language number block line.now in
        due ≡ Err (BadLine number) → result ≡ Err (BadLine number) }
    ensures allowed { IfOk result (λ step. IfSome step.action A.allowed) }
    ensures unwritten { is_write result ≡ false }
    ensures unread { is_read result ≡ false }
{
    if is_too_long(line) {
        return Err(RunFault::BadLine(number));
    }
    match block {
        Some(block) => step_within(alloc, number, block, line),
        None => step_outside(alloc, number, line),
    }
}
