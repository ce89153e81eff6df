//! A command as a source writes it, and what it reads.

ghost use Rattle.std.specs.Prelude.{◌≡◌, ◌≤◌, ◌++◌, ◌∷◌, [], IfOk, OnOk, map, min, codes};
ghost use Rattle.std.specs.List.{flat_map};
ghost use Rattle.cx_base.specs.Arguments.{has_option};
ghost use Rattle.cx_region_state.specs.Call.{place_of};
ghost use Rattle.cx_region_state.specs.Inputs.{bytes_of, halfword_of};
ghost use Rattle.cx_look_tasks.specs.Commands.{call_text, command_line, condition_word, count_read, input_line, input_lines, is_data, is_input, kind_read, option_value, option_word, option_words, reads_halfword, value_by, with_value};
ghost use Rattle.cx_look_tasks.specs.Parts.Words.{nohandle_words, resp_words};
ghost use Rattle.cx_base.specs.Digits.{digits};
ghost use Rattle.std.specs.Option.{option_map_or};
ghost use Rattle.cx_look_lines.specs.Words.{with_blanks, written_bytes, written_name};

use cx_base::{ArgumentKind, Command, CommandOption, OptionName, has_bit, hexadecimal};
use cx_look_lines::{Report, push_word, written_bytes, written_name};
use cx_region_state::{Call, Listed, halfword, read_argument};
use cx_storage::Store;
use std::alloc::{AllocError, Global};

/// The most bytes of an input that are written.
const MOST_BYTES: usize = 64;

/// Whether an option is a halfword that the command reads, beside the options of option byte 1.
fn reads_halfword(kind: ArgumentKind, command: Command, first: u8) -> bool
    ensures { result ≡ reads_halfword kind (has_option command first) }
{
    match kind {
        ArgumentKind::Halfword | ArgumentKind::HalfwordBothWays => true,
        ArgumentKind::HalfwordBothWaysWithoutSet => !command.has_option(first, OptionName::Set),
        ArgumentKind::HalfwordOutWithoutRewrite => command.has_option(first, OptionName::Rewrite),
        _ => false,
    }
}

/// The value of a name of four or eight bytes.
fn name_value<S: Store, const WIDTH: usize>(
    alloc: Global,
    store: &S,
    call: &Call,
    name: OptionName,
) -> Result<Vec<u8>, AllocError>
    requires { WIDTH ≤ 8 }
    ensures { let bytes = bytes_of (S.storage store.now) call.now name WIDTH in
        IfOk result (λ value. value.items ≡ option_map_or written_name bytes (codes "--")) }
{
    let mut bytes = [0; WIDTH];
    if !read_argument(store, call, name, &mut bytes) {
        return b"--".to_vec(alloc);
    }
    written_name(alloc, &bytes)
}

/// The value of a halfword.
fn halfword_value(alloc: Global, halfword: Option<u16>) -> Result<Vec<u8>, AllocError>
    ensures { IfOk result (λ value. value.items ≡ option_map_or (digits 16 4) halfword (codes "--")) }
{
    match halfword {
        Some(halfword) => hexadecimal::<4>(u32::from(halfword)).to_vec(alloc),
        None => b"--".to_vec(alloc),
    }
}

/// The value that is an address.
fn address_value(alloc: Global, place: Option<u32>) -> Result<Vec<u8>, AllocError>
    ensures { IfOk result (λ value. value.items ≡ option_map_or (digits 16 6) place (codes "--")) }
{
    match place {
        Some(place) => hexadecimal::<6>(place).to_vec(alloc),
        None => b"--".to_vec(alloc),
    }
}

/// The value of an option, by its kind.
#[tactic(auto, unfolding(crate::specs::Commands::option_value))]
fn option_value<S: Store>(
    alloc: Global,
    store: &S,
    call: &Call,
    option: &CommandOption,
) -> Result<Vec<u8>, AllocError>
    ensures { IfOk result (λ value. value.items ≡ option_value (S.storage store.now) call.now option.now) }
{
    let is_read = reads_halfword(option.kind, call.command(), call.first());
    match option.kind {
        ArgumentKind::Name4 => name_value::<S, 4>(alloc, store, call, option.name),
        ArgumentKind::Name8 => name_value::<S, 8>(alloc, store, call, option.name),
        _ if is_read => halfword_value(alloc, halfword(store, call, option.name)),
        _ => address_value(alloc, call.place(option.name)),
    }
}

/// A name followed by its value in parentheses.
fn with_value(alloc: Global, name: &[u8], value: &[u8]) -> Result<Vec<u8>, AllocError>
    ensures { IfOk result (λ word. word.items ≡ with_value name.now value.now) }
{
    let mut word = name.to_vec(alloc)?;
    word.push(b'(')?;
    word.extend_from_slice(value)?;
    word.push(b')')?;
    Ok(word)
}

/// The word of an option.
#[tactic(auto, unfolding(crate::specs::Commands::option_word))]
fn option_word<S: Store>(
    alloc: Global,
    store: &S,
    call: &Call,
    option: &CommandOption,
) -> Result<Vec<u8>, AllocError>
    ensures { IfOk result (λ word. word.items ≡ option_word (S.storage store.now) call.now option.now) }
{
    let name = option.name.name().as_bytes();
    if !option.kind.takes_argument() {
        return name.to_vec(alloc);
    }
    let value = option_value(alloc, store, call, option)?;
    with_value(alloc, name, value.as_slice())
}

/// The word of a condition that is listed.
fn condition_word(alloc: Global, listed: Listed) -> Result<Vec<u8>, AllocError>
    ensures { IfOk result (λ word. word.items ≡ condition_word listed) }
{
    let name = listed.condition.name().as_bytes();
    match listed.label {
        Some(label) => with_value(alloc, name, &hexadecimal::<6>(label)),
        None => name.to_vec(alloc),
    }
}

/// Adds the word of an option, where the option is there.
#[tactic(auto, unfolding(crate::specs::Commands::option_words))]
fn push_option<S: Store>(
    text: &mut Vec<u8>,
    alloc: Global,
    store: &S,
    call: &Call,
    option: &CommandOption,
) -> Result<(), AllocError>
    ensures { let more = with_blanks (option_words (S.storage store.now) call.now (option.now ∷ [])) in
        OnOk result (text.new.items ≡ text.old.items ++ more) }
{
    if has_bit(call.first(), option.bit) {
        let word = option_word(alloc, store, call, option)?;
        push_word(text, word.as_slice())?;
    }
    Ok(())
}

/// Adds the words of those of some options that are there.
fn push_options<S: Store>(
    text: &mut Vec<u8>,
    alloc: Global,
    store: &S,
    call: &Call,
    options: &[CommandOption],
) -> Result<(), AllocError>
    ensures { let more = with_blanks (option_words (S.storage store.now) call.now options.now) in
        OnOk result (text.new.items ≡ text.old.items ++ more) }
{
    for option in options {
        push_option(text, alloc, store, call, option)?;
    }
    Ok(())
}

/// Adds the words of conditions that are listed.
fn push_conditions(
    text: &mut Vec<u8>,
    alloc: Global,
    conditions: &[Listed],
) -> Result<(), AllocError>
    ensures { OnOk result (text.new.items ≡ text.old.items ++ with_blanks (map condition_word conditions.now)) }
{
    for listed in conditions {
        let word = condition_word(alloc, *listed)?;
        push_word(text, word.as_slice())?;
    }
    Ok(())
}

/// Adds NOHANDLE, where it is there.
fn push_nohandle(text: &mut Vec<u8>, call: &Call) -> Result<(), AllocError>
    ensures { OnOk result (text.new.items ≡ text.old.items ++ with_blanks (nohandle_words call.now)) }
{
    if call.has_nohandle() {
        push_word(text, b"NOHANDLE")?;
    }
    Ok(())
}

/// Adds RESP with the address of its word, where it is there.
fn push_resp(text: &mut Vec<u8>, alloc: Global, call: &Call) -> Result<(), AllocError>
    ensures { OnOk result (text.new.items ≡ text.old.items ++ with_blanks (resp_words call.now)) }
{
    let Some(place) = call.resp() else {
        return Ok(());
    };
    let word = with_value(alloc, b"RESP", &hexadecimal::<6>(place))?;
    push_word(text, word.as_slice())
}

/// Adds the command's line.
#[tactic(auto, unfolding(crate::specs::Commands::command_line), using(cx_look_lines::specs::Facts::Spaced::spaced_both))]
fn command_line<S: Store>(report: &mut Report, store: &S, call: &Call) -> Result<(), AllocError>
    ensures { OnOk result (report.new ≡ report.old ++ command_line (S.storage store.now) call.now) }
{
    let alloc = report.alloc();
    let mut line = call.command().name().as_bytes().to_vec(alloc)?;
    push_options(&mut line, alloc, store, call, call.command().options())?;
    push_conditions(&mut line, alloc, call.listed().as_slice())?;
    push_nohandle(&mut line, call)?;
    push_resp(&mut line, alloc, call)?;
    report.push(line)
}

/// Whether an option is data.
fn is_data(kind: ArgumentKind) -> bool
    ensures { result ≡ is_data kind }
{
    matches!(
        kind,
        ArgumentKind::BytesRead | ArgumentKind::BytesOrAddress | ArgumentKind::Byte
    )
}

/// How an option's argument is read: a COMMAREA as what the program finds there, also that of LINK, which passes its
/// address.
fn kind_read(name: OptionName, kind: ArgumentKind) -> ArgumentKind
    ensures { result ≡ kind_read name kind }
{
    match name {
        OptionName::Commarea => ArgumentKind::BytesRead,
        _ => kind,
    }
}

/// How many bytes are read at an option's argument.
fn count_read<S: Store>(store: &S, call: &Call, option: &CommandOption) -> usize
    ensures { result ≡ count_read (S.storage store.now) call.now option.now }
{
    let length = halfword(store, call, OptionName::Length);
    let kind = kind_read(option.name, option.kind);
    let count = call.command().input_len(call.first(), kind, length);
    usize::from(count)
}

/// Whether an option is data of which some byte is read.
#[tactic(auto, unfolding(crate::specs::Commands::is_input))]
fn is_input<S: Store>(store: &S, call: &Call, option: &CommandOption) -> bool
    ensures { result ≡ is_input (S.storage store.now) call.now option.now }
{
    is_data(kind_read(option.name, option.kind)) && count_read(store, call, option) > 0
}

/// The first bytes that the command reads at an option's argument.
fn input_value<S: Store>(
    alloc: Global,
    store: &S,
    call: &Call,
    option: &CommandOption,
) -> Result<Vec<u8>, AllocError>
    ensures { let storage = S.storage store.now in let count = min 64 (count_read storage call.now option.now) in
        let bytes = bytes_of storage call.now option.now.name count in
        IfOk result (λ value. value.items ≡ option_map_or written_bytes bytes (codes "--")) }
{
    let mut buffer = [0; MOST_BYTES];
    let count = count_read(store, call, option).min(MOST_BYTES);
    let bytes = &mut buffer[..count];
    if !read_argument(store, call, option.name, bytes) {
        return b"--".to_vec(alloc);
    }
    written_bytes(alloc, bytes)
}

/// Adds the line of an input.
#[tactic(auto, unfolding(crate::specs::Commands::input_line))]
fn input_line<S: Store>(
    report: &mut Report,
    store: &S,
    call: &Call,
    option: &CommandOption,
) -> Result<(), AllocError>
    ensures { OnOk result (report.new ≡ report.old ++ input_line (S.storage store.now) call.now option.now) }
{
    let value = input_value(report.alloc(), store, call, option)?;
    report.line(&[option.name.name().as_bytes(), value.as_slice()])
}

/// Adds the line of an option, where it is an input.
#[tactic(auto, unfolding(crate::specs::Commands::input_lines, cx_base::specs::Arguments::arguments_in))]
fn if_input<S: Store>(
    report: &mut Report,
    store: &S,
    call: &Call,
    option: &CommandOption,
) -> Result<(), AllocError>
    ensures { let more = input_lines (S.storage store.now) call.now (option.now ∷ []) in
        OnOk result (report.new ≡ report.old ++ more) }
{
    if option.is_argument(call.first()) && is_input(store, call, option) {
        input_line(report, store, call, option)?;
    }
    Ok(())
}

/// Adds the lines of those of some options that are inputs.
fn input_lines<S: Store>(
    report: &mut Report,
    store: &S,
    call: &Call,
    options: &[CommandOption],
) -> Result<(), AllocError>
    ensures { let lines = input_lines (S.storage store.now) call.now options.now in
        OnOk result (report.new ≡ report.old ++ lines) }
{
    for option in options {
        if_input(report, store, call, option)?;
    }
    Ok(())
}

/// A command as a source writes it, and a line for each of its inputs.
///
/// An error comes only where memory for them was refused.
#[tactic(auto, unfolding(crate::specs::Commands::call_text))]
pub fn call_text<S: Store>(alloc: Global, store: &S, call: &Call) -> Result<Report, AllocError>
    ensures { IfOk result (λ report. report ≡ call_text (S.storage store.now) call.now) }
{
    let mut report = Report::new(alloc);
    command_line(&mut report, store, call)?;
    input_lines(&mut report, store, call, call.command().options())?;
    Ok(report)
}
