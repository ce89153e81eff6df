//! What is accepted and is most likely not meant.

ghost use Rattle.std.specs.Prelude.{◌≡◌, ◌++◌, [], IfOk, OnOk, None, codes, false, flat_map, if◌then◌else◌, is_none, map, option_and_then, option_map};
ghost use Rattle.std.specs.List.{filter_map, find, list_all, list_any};
ghost use Rattle.std.specs.Option.{option_map_or};
ghost use Rattle.std.specs.Result.{result_ok};
ghost use Rattle.std.specs.Str.{bytes_eq};
ghost use Rattle.cx_asm_expressions.specs.Digits.{is_digit, is_number};
ghost use Rattle.cx_asm_expressions.specs.Items.{Constant as ConstantValue, constant_in};
ghost use Rattle.cx_asm_expressions.specs.Expressions.{value_of};
ghost use Rattle.cx_asm_expressions.specs.declared.values.Value.{Value as ValueOf};
ghost use Rattle.cx_asm_operands.specs.Storage.{is_literal};
ghost use Rattle.cx_asm_pass1.specs.Locations.{IsPlaced, final_state};
ghost use Rattle.cx_asm_pass2.specs.Whole.{whole_by, whole_of};
ghost use Rattle.cx_base.specs.Options.{option_name};
ghost use Rattle.cx_translate.specs.Names.{bare_argument};
ghost use Rattle.cx_look_faults.specs.Notes.{
  copies_place,
  copy_remark,
  exec_remarks,
  if_absolute,
  if_literal,
  note_on,
  notes_on,
  of_read,
  of_written,
  remark,
  remark_on,
  remarks_in,
  written_argument,
};
ghost use Rattle.cx_look_faults.specs.Commands.{written_phrase};
ghost use Rattle.cx_look_faults.specs.Faults.{kind_at};
ghost use Rattle.cx_look_faults.specs.Spans.{span_text, spans_of};
ghost use Rattle.cx_look_faults.specs.declared.spans.Cut.TheVariants.{Operands};
ghost use Rattle.cx_base.specs.declared.options.CommandOption.{CommandOption as OptionValue};
ghost use Rattle.cx_source.specs.declared.source.Stmt.{Stmt as StmtValue};

use crate::commands::{
    Phrase, command_in_words, operand_has_word, phrases, words_after, written_phrase,
};
use crate::faults::{Kinds, Placed, kind_at};
use crate::lists::push_some;
use crate::positions::{SourceStmt, Spot};
use crate::spans::{Cut, Span, span_text, spans_of};
use cx_asm_expressions::{Constant, TermFault, parenthesized_body, value_of};
use cx_asm_pass1::Places;
use cx_base::{ArgumentKind, CommandOption};
use cx_source::{Item, Source, Stmt, Text, skip_blanks, trim_blanks};
use std::alloc::{AllocError, Global};

/// What is said of an item of several copies with `*`.
const SAME: &[u8] = b" IS THE SAME IN ALL COPIES";

/// Something in a source that has no fault and is most likely not meant.
#[derive(Debug, Drop)]
pub struct Note {
    /// Where it is on its line.
    pub spot: Spot,
    /// What is written of it.
    pub text: Text,
}

/// A text without the blanks round it.
#[tactic(auto, unfolding(cx_translate::specs::Names::bare_argument))]
fn bare(text: &[u8]) -> &[u8]
    ensures { result.now ≡ bare_argument text.now }
{
    trim_blanks(skip_blanks(text))
}

/// The argument after a word; empty where there is none.
fn written_argument(operand: &[u8], phrase: Phrase) -> &[u8]
    ensures { result.now ≡ written_argument operand.now phrase }
{
    let after = Span {
        start: phrase.word.end,
        end: phrase.full.end,
    };
    match parenthesized_body(bare(span_text(after, operand))) {
        Some(body) => bare(body),
        None => &[],
    }
}

/// Whether a text's value is absolute.
fn is_absolute(alloc: Global, places: &Places<'_>, text: &[u8]) -> Result<bool, AllocError>
    ensures { let value = result_ok (value_of (whole_by places.now).find None text.now) in
        IfOk result (λ is. is ≡ option_map_or (λ (value : ValueOf). is_none value.section) value false) }
{
    match value_of(alloc, text, &places.symbols, None) {
        Ok(value) => Ok(value.section.is_none()),
        Err(TermFault::Refused(_)) => Ok(false),
        Err(TermFault::Memory) => Err(AllocError),
    }
}

/// Whether a text is a literal.
fn is_literal(text: &[u8]) -> bool
    ensures { result ≡ is_literal text.now }
{
    match text {
        [] => false,
        [first, ..] => *first == b'=',
    }
}

/// Whether a character is a digit.
#[tactic(auto, using(crate::proofs::NoteLemmas::one_digit))]
fn is_digit(c: u8) -> bool
    ensures { result ≡ is_digit 10 c }
{
    b'0' <= c && c <= b'9'
}

/// Whether a text has digits alone.
fn are_digits(text: &[u8]) -> bool
    ensures { result ≡ list_all (is_digit 10) text.now }
{
    text.iter().all(|c| is_digit(*c))
}

/// Whether a text is a number.
fn is_digits(text: &[u8]) -> bool
    ensures { result ≡ is_number 10 text.now }
{
    !text.is_empty() && are_digits(text)
}

/// A text between two others.
fn between(alloc: Global, before: &[u8], text: &[u8], after: &[u8]) -> Result<Vec<u8>, AllocError>
    ensures { IfOk result (λ made. made.items ≡ before.now ++ text.now ++ after.now) }
{
    let mut made = before.to_vec(alloc)?;
    made.extend_from_slice(text)?;
    made.extend_from_slice(after)?;
    Ok(made)
}

/// The literal that has a value in a halfword.
fn halfword_literal(alloc: Global, text: &[u8]) -> Result<Vec<u8>, AllocError>
    ensures { let digits = codes "=H'" ++ text.now ++ codes "'" in let other = codes "=AL2(" ++ text.now ++ codes ")" in
        IfOk result (λ made. made.items ≡ (if is_number 10 text.now then digits else other)) }
{
    if is_digits(text) {
        between(alloc, b"=H'", text, b"'")
    } else {
        between(alloc, b"=AL2(", text, b")")
    }
}

/// What is said of an argument that is an address.
fn if_absolute(
    alloc: Global,
    places: &Places<'_>,
    text: &[u8],
    due: &[u8],
) -> Result<Option<Text>, AllocError>
    ensures { IfOk result (λ said. said ≡ if_absolute (whole_by places.now) text.now due.now) }
{
    if !is_absolute(alloc, places, text)? {
        return Ok(None);
    }
    let said = between(alloc, b" IS AN ADDRESS: ", due, b"")?;
    Ok(Some(Text::from_vec(said)))
}

/// What is said of an argument that is a literal.
fn if_literal(alloc: Global, text: &[u8], due: &[u8]) -> Result<Option<Text>, AllocError>
    ensures { IfOk result (λ said. said ≡ if_literal text.now due.now) }
{
    if !is_literal(text) {
        return Ok(None);
    }
    let said = between(alloc, b" IS WRITTEN: ", due, b"")?;
    Ok(Some(Text::from_vec(said)))
}

/// What is said of a halfword that the command reads.
fn of_read(alloc: Global, places: &Places<'_>, text: &[u8]) -> Result<Option<Text>, AllocError>
    ensures { IfOk result (λ said. said ≡ of_read (whole_by places.now) text.now) }
{
    let due = halfword_literal(alloc, text)?;
    if_absolute(alloc, places, text, &due)
}

/// What is said of a halfword that the command writes.
fn of_written(alloc: Global, places: &Places<'_>, text: &[u8]) -> Result<Option<Text>, AllocError>
    ensures { IfOk result (λ said. said ≡ of_written (whole_by places.now) text.now) }
{
    if is_literal(text) {
        return if_literal(alloc, text, b"A HALFWORD FIELD");
    }
    if_absolute(alloc, places, text, b"A HALFWORD FIELD")
}

/// What is said of an option's argument.
fn remark(
    alloc: Global,
    places: &Places<'_>,
    rewrites: bool,
    text: &[u8],
    kind: ArgumentKind,
) -> Result<Option<Text>, AllocError>
    ensures { IfOk result (λ said. said ≡ remark (whole_by places.now) rewrites text.now kind) }
{
    match kind {
        ArgumentKind::Halfword => of_read(alloc, places, text),
        ArgumentKind::HalfwordOutWithoutRewrite if rewrites => of_read(alloc, places, text),
        ArgumentKind::HalfwordBothWays
        | ArgumentKind::HalfwordBothWaysWithoutSet
        | ArgumentKind::HalfwordOut
        | ArgumentKind::HalfwordOutWithoutRewrite => of_written(alloc, places, text),
        ArgumentKind::Byte => {
            let due = between(alloc, b"=AL1(", text, b")")?;
            if_absolute(alloc, places, text, &due)
        }
        ArgumentKind::BytesWritten => if_literal(alloc, text, b"A FIELD"),
        _ => Ok(None),
    }
}

/// The option whose name a word is.
fn option_of_word<'a>(
    options: &'a [CommandOption],
    operand: &[u8],
    word: Span,
) -> Option<&'a CommandOption>
    ensures { option_map (λ option. option.now) result
        ≡ find (λ o. bytes_eq (option_name o.name) (span_text word operand.now)) options.now }
{
    options.iter().find(|option| option.name.name().as_bytes() == span_text(word, operand))
}

/// What the arguments of a command are judged by.
#[derive(Clone, Copy)]
struct Arguments<'a, 'p> {
    /// Where everything of the source is.
    places: &'a Places<'p>,
    /// Whether REWRITE is given.
    rewrites: bool,
    /// The command's options.
    options: &'a [CommandOption],
}

/// What is said of a word and its argument, with where they are.
fn with_part(said: Option<Text>, operand: &[u8], phrase: Phrase) -> Option<(Text, Span)>
    ensures { result ≡ option_map (λ text. (text, written_phrase operand.now phrase)) said }
{
    match said {
        Some(said) => Some((said, written_phrase(operand, phrase))),
        None => None,
    }
}

impl Arguments<'_, '_> {
    /// What is said of a word's argument; of none where there is no such option.
    fn remark_of(
        &self,
        alloc: Global,
        operand: &[u8],
        phrase: Phrase,
    ) -> Result<Option<Text>, AllocError>
        ensures { let by = self.now in let text = written_argument operand.now phrase in
            let name = span_text phrase.word operand.now in
            let option = find (λ o. bytes_eq (option_name o.name) name) by.options.now in
            let due = λ (o : OptionValue). remark (whole_by by.places.now) by.rewrites text o.kind in
            IfOk result (λ said. said ≡ option_and_then due option) }
    {
        match option_of_word(self.options, operand, phrase.word) {
            Some(option) => {
                let text = written_argument(operand, phrase);
                remark(alloc, self.places, self.rewrites, text, option.kind)
            }
            None => Ok(None),
        }
    }

    /// What is said of a word and its argument.
    #[tactic(auto, unfolding(crate::specs::Notes::remark_on))]
    fn remark_on(
        &self,
        alloc: Global,
        operand: &[u8],
        phrase: Phrase,
    ) -> Result<Option<(Text, Span)>, AllocError>
        ensures { let by = self.now in
            let due = remark_on (whole_by by.places.now) by.rewrites by.options.now operand.now phrase in
            IfOk result (λ said. said ≡ due) }
    {
        let said = self.remark_of(alloc, operand, phrase)?;
        Ok(with_part(said, operand, phrase))
    }

    /// What is said of some words.
    fn remarks_on(
        &self,
        alloc: Global,
        operand: &[u8],
        phrases: &[Phrase],
    ) -> Result<Vec<(Text, Span)>, AllocError>
        ensures { let by = self.now in
            let remark = remark_on (whole_by by.places.now) by.rewrites by.options.now operand.now in
            IfOk result (λ all. all.items ≡ filter_map remark phrases.now) }
    {
        let mut all = Vec::new(alloc);
        for phrase in phrases {
            let said = self.remark_on(alloc, operand, *phrase)?;
            push_some(&mut all, said)?;
        }
        Ok(all)
    }
}

/// What is said of an EXEC statement.
fn exec_remarks(
    alloc: Global,
    places: &Places<'_>,
    operand: &[u8],
) -> Result<Vec<(Text, Span)>, AllocError>
    ensures { IfOk result (λ all. all.items ≡ exec_remarks (whole_by places.now) operand.now) }
{
    let words = spans_of(alloc, Cut::Words, operand)?;
    let Some((command, last)) = command_in_words(operand, &words) else {
        return Ok(Vec::new(alloc));
    };
    let more = words_after(&words, last);
    let phrases = phrases(alloc, operand, more)?;
    let arguments = Arguments {
        places,
        rewrites: operand_has_word(operand, more, b"REWRITE"),
        options: command.options(),
    };
    arguments.remarks_on(alloc, operand, &phrases)
}

/// How many copies an item of a DC has; 0 where it is none.
fn copies_of(text: &[u8]) -> u32
    ensures { let item = result_ok (constant_in false text.now) in
        result ≡ option_map_or (λ (item : ConstantValue). item.duplication) item 0 }
{
    match Constant::read(text, false) {
        Ok(item) => item.duplication(),
        Err(_) => 0,
    }
}

/// Whether one of some parts of a text is `*`.
fn has_place(text: &[u8], terms: &[Span]) -> bool
    ensures { result ≡ list_any (λ term. bytes_eq (span_text term text.now) (codes "*")) terms.now }
{
    terms
        .iter()
        .any(|term| span_text(*term, text) == b"*".as_slice())
}

/// Whether an item of a DC has several copies, and `*` in each.
#[tactic(auto, unfolding(crate::specs::Notes::copies_place))]
fn copies_place(alloc: Global, text: &[u8]) -> Result<bool, AllocError>
    ensures { IfOk result (λ is. is ≡ copies_place text.now) }
{
    if copies_of(text) < 2 {
        return Ok(false);
    }
    let terms = spans_of(alloc, Cut::Terms, text)?;
    Ok(has_place(text, &terms))
}

/// What is said of an item of a DC.
fn copy_remark(
    alloc: Global,
    operand: &[u8],
    part: Span,
) -> Result<Option<(Text, Span)>, AllocError>
    ensures { IfOk result (λ said. said ≡ copy_remark operand.now part) }
{
    if !copies_place(alloc, span_text(part, operand))? {
        return Ok(None);
    }
    Ok(Some((Text::from_slice(alloc, SAME)?, part)))
}

/// What is said of the items of a DC.
fn copy_remarks(alloc: Global, operand: &[u8]) -> Result<Vec<(Text, Span)>, AllocError>
    ensures { let all = filter_map (copy_remark operand.now) (spans_of Operands operand.now) in
        IfOk result (λ found. found.items ≡ all) }
{
    let parts = spans_of(alloc, Cut::Operands, operand)?;
    let mut all = Vec::new(alloc);
    for part in &parts {
        let said = copy_remark(alloc, operand, *part)?;
        push_some(&mut all, said)?;
    }
    Ok(all)
}

/// What is said of a statement.
fn remarks_in(
    alloc: Global,
    places: &Places<'_>,
    stmt: &Stmt,
) -> Result<Vec<(Text, Span)>, AllocError>
    ensures { IfOk result (λ all. all.items ≡ remarks_in (whole_by places.now) stmt.now) }
{
    let operation = stmt.operation.as_slice();
    if operation == b"EXEC".as_slice() {
        return exec_remarks(alloc, places, stmt.operand.as_slice());
    }
    if operation == b"DC".as_slice() {
        return copy_remarks(alloc, stmt.operand.as_slice());
    }
    Ok(Vec::new(alloc))
}

/// The note that says something of a part.
#[tactic(auto, unfolding(crate::specs::Notes::note_on))]
fn note_on(alloc: Global, found: &SourceStmt<'_>, said: &(Text, Span)) -> Result<Note, AllocError>
    ensures { let it = found.now in
        IfOk result (λ note. note ≡ note_on it.items.now it.item.now it.stmt.now said.now) }
{
    let part = said.1;
    let text = between(
        alloc,
        span_text(part, found.operand()),
        said.0.as_slice(),
        b"",
    )?;
    Ok(Note {
        spot: found.part_spot(alloc, Some(part))?,
        text: Text::from_vec(text),
    })
}

/// Adds notes on a statement.
fn push_notes(
    alloc: Global,
    notes: &mut Vec<Note>,
    found: &SourceStmt<'_>,
    remarks: &[(Text, Span)],
) -> Result<(), AllocError>
    ensures { let it = found.now in
        let more = map (note_on it.items.now it.item.now it.stmt.now) remarks.now in
        OnOk result (notes.new.items ≡ notes.old.items ++ more) }
{
    for said in remarks {
        notes.push(note_on(alloc, found, said)?)?;
    }
    Ok(())
}

/// Adds the notes on a line's statement.
fn notes_of_line(
    alloc: Global,
    notes: &mut Vec<Note>,
    places: &Places<'_>,
    items: &[Item],
    item: &Item,
) -> Result<(), AllocError>
    ensures { let remarks = remarks_in (whole_by places.now) in
        let more = λ (stmt : StmtValue). map (note_on items.now item.now stmt) (remarks stmt) in
        OnOk result (notes.new.items ≡ notes.old.items ++ option_map_or more item.now.stmt []) }
{
    let Some(stmt) = &item.stmt else {
        return Ok(());
    };
    let remarks = remarks_in(alloc, places, stmt)?;
    push_notes(alloc, notes, &SourceStmt { items, item, stmt }, &remarks)
}

/// The notes on lines without a fault.
#[tactic(auto, unfolding(crate::specs::Notes::notes_on))]
fn notes_in(
    alloc: Global,
    places: &Places<'_>,
    kinds: &Kinds,
    items: &[Item],
) -> Result<Vec<Note>, AllocError>
    ensures { let notes = notes_on (whole_by places.now) (kind_at kinds.now.entries) items.now in
        IfOk result (λ found. found.items ≡ flat_map notes items.now) }
{
    let mut notes = Vec::new(alloc);
    for item in items {
        if kind_at(kinds, item.line).is_none() {
            notes_of_line(alloc, &mut notes, places, items, item)?;
        }
    }
    Ok(notes)
}

/// What is most likely not meant on those lines of a source without a fault that was read and placed.
#[tactic(auto, using(cx_asm_pass2::specs::Facts::Whole::whole_is))]
pub(crate) fn notes_placed(
    alloc: Global,
    read: &Source,
    placed: &Placed<'_, '_, '_>,
    kinds: &Kinds,
) -> Result<Vec<Note>, AllocError>
    requires { IsPlaced (final_state placed.now.made.now) placed.now.places.now }
    ensures { let notes = notes_on (whole_of placed.now.made.now) (kind_at kinds.now.entries) read.now.items in
        IfOk result (λ found. found.items ≡ flat_map notes read.now.items) }
{
    notes_in(alloc, placed.places, kinds, read.items.as_slice())
}
