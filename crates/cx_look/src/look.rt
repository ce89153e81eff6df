//! Looks, and how a line of a script is read as one.
ghost use Rattle.std.specs.Prelude.{◌≡◌, ◌≤◌, IfSome, None, Some, if◌then◌else◌, length, option_and_then, option_map};
ghost use Rattle.std.specs.List.{find};
ghost use Rattle.std.specs.Option.{option_copied};
ghost use Rattle.std.specs.Str.{bytes_eq};
ghost use Rattle.cx_script_actions.specs.Words.{hex_bytes};
ghost use Rattle.cx_look.specs.Looks.{abend_look, ahead_look, count_after, count_up_to, covered_look, field_look, help_line, level_asked_for, look_of, look_by_word, queue_look, queue_name_of, subject_of};
ghost use Rattle.cx_look.specs.declared.look.Look.TheVariants as look;
ghost use Rattle.cx_ebcdic.specs.Names.{padded_name};
ghost use Rattle.cx_script_actions.specs.Words.{two_words, word};
ghost use Rattle.cx_look.specs.declared.look.Subject.TheVariants as subject;

use cx_base::List;
use cx_ebcdic::{Name4, Name8};
use cx_script_actions::{hex_address, name4, name8, number, split_word};
use cx_source::Text;

/// The most bytes of storage that are looked at together.
const MOST_BYTES: u32 = 4_096;

/// The highest number of a queue's item.
const LAST_ITEM: u32 = 32_767;

/// The most levels of a task.
const LEVELS: u32 = 16;

/// How many instructions of a turn are looked at together, where no number is given.
const LAST_INSTRUCTIONS: u32 = 16;

/// The most instructions of a turn that are looked at together.
const MOST_INSTRUCTIONS: u32 = 256;

/// The most instructions of a turn.
const TURN_INSTRUCTIONS: u32 = 65_536;

/// The highest number of a line of a source.
const LAST_LINE: u32 = 99_999;

/// The digits that spell the eight bytes of a queue's name.
const NAME_DIGITS: usize = 16;

/// The lines of a source in a block of a script, which a line with a word and a name begins.
#[derive(Debug, Drop)]
pub struct SourceLines {
    /// The number in the script of the line that begins the block, counted from 1.
    pub first: usize,
    /// The name after the word of that line.
    pub name: Name8,
    /// The source's lines, each without its end: those after that line, up to the block's end.
    pub lines: List<Text>,
}

/// A look, with what its line says of it.
#[derive(Debug, Drop)]
pub enum Look {
    /// Storage from an address on, below 2^24, and how many bytes: 1 to 4,096.
    Storage(u32, u32),
    /// What is at an address, below 2^24, and whose it is.
    Where(u32),
    /// All areas of storage.
    Areas,
    /// The areas of storage that a terminal's task owns.
    AreasOf(Name4),
    /// The task of a terminal, and each of its levels.
    Task(Name4),
    /// Each terminal, and what its task is doing.
    Tasks,
    /// The last abend that a terminal has had.
    Abend(Name4),
    /// The DFHEISTG of the level that abended, as it was then.
    AbendStorage(Name4),
    /// The fields of the DFHEISTG of the level that abended, as they were then.
    AbendFields(Name4),
    /// All temporary storage queues.
    Queues,
    /// A temporary storage queue and its items.
    Queue(Name8),
    /// A queue's item of a number, 1 to 32,767, as a whole.
    Item(Name8, u32),
    /// All resources that are owned, and who waits for them.
    Resources,
    /// All programs that are defined.
    Programs,
    /// The command that is due at a terminal.
    Command(Name4),
    /// What the next turn of a terminal will do, with the last so many of its instructions: 1 to 256.
    Ahead(Name4, u32),
    /// What a terminal's task has where its next turn first comes to a line of a program's source: the line's number, 1
    /// to 99,999.
    AheadAt(Name4, Name8, u32),
    /// What a terminal's task has after so many instructions of its next turn: 1 to 65,536.
    AheadAfter(Name4, u32),
    /// All fields of each level of a terminal's task after so many instructions of its next turn: 1 to 65,536.
    FieldsAfter(Name4, u32),
    /// A symbol of a program's source: the program and the symbol.
    Symbol(Name8, Name8),
    /// All symbols of a program's source.
    Symbols(Name8),
    /// Where a program's source uses its names, its literals and its base registers.
    Xref(Name8),
    /// The clock, and of each terminal what its next key attaches, the input that is held, and EDF there.
    Terminals,
    /// A field of a level of a terminal's task: the terminal, the symbol, and the level's number, 1 to 16; without one
    /// the current level.
    Field(Name4, Name8, Option<u8>),
    /// All fields of a level of a terminal's task: the terminal, and the level's number, 1 to 16; without one the
    /// current level.
    Fields(Name4, Option<u8>),
    /// How much was run of each program that a source defined.
    CoveredAll,
    /// What of a program was never run, and which of its conditional branches went one way only.
    Covered(Name8),
    /// How often each statement of a program was run.
    CoveredLines(Name8),
    /// The table of lines, or the line of a word in it.
    Help(Option<Subject>),
    /// The faulty lines of a source, and notes on the others.
    Faults(SourceLines),
}

/// A word that begins a look, or another line that a script of `cicsedf` doesn't have: a word of the table of HELP.
#[derive(Clone, Copy, Debug, PartialEq, Eq)]
pub enum Subject {
    /// RUN: turns of a terminal.
    Run,
    /// WATCH: each change of some bytes.
    Watch,
    /// COVER: what is run from here on is counted, or no more.
    Cover,
    /// COVERED: what was run since then, and what never was.
    Covered,
    /// QUEUES: the temporary storage queues.
    Queues,
    /// QUEUE: one of them with its items, or one item.
    Queue,
    /// PROGRAMS: the programs.
    Programs,
    /// TASKS: each terminal, and what its task is doing.
    Tasks,
    /// RESOURCES: the resources that are owned, and who waits for them.
    Resources,
    /// TERMINALS: the clock, and each terminal's next transaction, input and EDF.
    Terminals,
    /// COMMAND: the command that is due at a terminal.
    Command,
    /// AHEAD: what a terminal's next turn will do.
    Ahead,
    /// TASK: a terminal's task, and each of its levels.
    Task,
    /// FIELD: a field of a level of a terminal's task.
    Field,
    /// FIELDS: all fields of such a level.
    Fields,
    /// AREAS: areas of storage.
    Areas,
    /// STORAGE: bytes from an address on.
    Storage,
    /// WHERE: what is at an address, and whose it is.
    Where,
    /// ABEND: a terminal's last abend.
    Abend,
    /// SYMBOL: a symbol of a program's source.
    Symbol,
    /// SYMBOLS: all symbols of a program's source.
    Symbols,
    /// XREF: which lines use a source's symbols, literals and base registers.
    Xref,
    /// FAULTS: the faulty lines of a source that follows.
    Faults,
    /// ORDERS: what every order of turns and keys leads to.
    Orders,
    /// CHOICES: what every list of keys leads to.
    Choices,
    /// HELP: the table of these words.
    Help,
}

/// The table of HELP: each subject with its line, which has its form, the word first and brackets round what may be
/// left out, and what it does. A macro is called with what it is given and the rows.
macro_rules! subject_rows {
    ([$then:ident] $($given:tt)*) => {
        $then! {
            $($given)*
            Run b"RUN term [n] [stop]  at most n turns of the terminal; stop: BEFORE ABEND, TO program line",
            Watch b"WATCH aaaaaa n       each change of one of n bytes; also WATCH term name, WATCH OFF",
            Cover b"COVER ON             counts from here on how often each instruction is run; also COVER OFF",
            Covered b"COVERED [program]    what was run since then, and what never was; also COVERED program LINES",
            Queues b"QUEUES               the temporary storage queues",
            Queue b"QUEUE name [k]       a queue with its items, or its item k as a whole",
            Programs b"PROGRAMS             the programs",
            Tasks b"TASKS                each terminal, and what its task is doing",
            Resources b"RESOURCES            the resources that are owned, and who waits for them",
            Terminals b"TERMINALS            the clock, next transactions, input that is held, EDF",
            Command b"COMMAND term         the command that is due at the terminal",
            Ahead b"AHEAD term [n]       what the terminal's next turn will do; also AT program line, [FIELDS] AFTER n",
            Task b"TASK term            the terminal's task, and each of its levels",
            Field b"FIELD term name [k]  a field of the current level, or of level k",
            Fields b"FIELDS term [k]      all fields of that level",
            Areas b"AREAS [term]         all areas of storage, or those of the terminal's task",
            Storage b"STORAGE aaaaaa n     n bytes of storage from an address on",
            Where b"WHERE aaaaaa         what is at an address, and whose it is",
            Abend b"ABEND term           the terminal's last abend; also ABEND term STORAGE, ABEND term FIELDS",
            Symbol b"SYMBOL program name  a symbol of the program's source",
            Symbols b"SYMBOLS program      all symbols of the program's source",
            Xref b"XREF program         which lines use its symbols, literals and base registers",
            Faults b"FAULTS name          and the lines of a source, and /*: its faulty lines",
            Orders b"ORDERS [n]           and keys and looks, and /*: what every order leads to; also TYPED AHEAD",
            Choices
                b"CHOICES n [states]   and keys and looks, and /*: what every list of n keys leads to; also ONE NUMBER",
            Help b"HELP [word]          this table, or the line of a word in it",
        }
    };
}

/// All subjects of the rows.
macro_rules! subjects {
    ($($row:ident $line:literal,)*) => {
        [$(Subject::$row),*]
    };
}

/// The line of a subject.
macro_rules! line_by_subject {
    ($subject:tt $($row:ident $line:literal,)*) => {
        match $subject {
            $(Subject::$row => $line,)*
        }
    };
}

impl Subject {
    /// Each of these words once, in the order of the table of HELP.
    pub const ALL: [Subject; 26] = subject_rows!([subjects]);

    /// The word's line in the table of HELP: its form, in which brackets are round what may be left out, and what it
    /// does.
    pub fn help_line(self) -> &'static [u8]
        ensures { result.now ≡ help_line self }
    {
        subject_rows!([line_by_subject] self)
    }

    /// The word as it is written.
    fn name(self) -> &'static [u8]
        ensures { result.now ≡ word (help_line self) }
    {
        split_word(self.help_line()).0
    }
}

/// The first of some words that begin a look which is this text.
fn subject_in(subjects: &[Subject], text: &[u8]) -> Option<Subject>
    ensures { result ≡ find (λ s. bytes_eq (word (help_line s)) text.now) subjects.now }
{
    subjects
        .iter()
        .copied()
        .find(|subject| subject.name() == text)
}

/// The subject of a word, which is in upper case and whole; None for every other word. It takes no memory.
#[tactic(auto, unfolding(crate::specs::Looks::subject_of))]
pub fn subject_of(word: &[u8]) -> Option<Subject>
    ensures { result ≡ subject_of word.now }
{
    subject_in(&Subject::ALL, word)
}

/// The number from 1 to a most that at most five decimal digits spell. It takes no memory.
#[tactic(auto, using(std::proofs::lemmas::Bool::Decides::nat_tests), unfolding(crate::specs::Looks::count_up_to))]
pub fn count_up_to(word: &[u8], most: u32) -> Option<u32>
    ensures value { result ≡ count_up_to most word.now }
    ensures most { IfSome result (λ n. n ≤ most) }
{
    let n = number(word, 1, 5)?;
    if n < 1 || n > most {
        return None;
    }
    Some(n)
}

/// Puts the bytes that sixteen hexadecimal digits spell into a buffer of eight; false where they don't spell bytes.
#[tactic(auto, using(crate::proofs::NameLemmas::spelled))]
fn decode(word: &[u8], bytes: &mut [u8]) -> bool
    requires digits { length word.now ≡ 16 }
    requires bytes { length bytes.old ≡ 8 }
    ensures { hex_bytes word.now ≡ (if result then Some bytes.new else None) }
{
    hex::decode_to_slice(word, bytes).is_ok()
}

/// The name of a queue whose eight bytes sixteen hexadecimal digits spell.
fn hex_bytes(word: &[u8]) -> Option<Name8>
    requires { length word.now ≡ 16 }
    ensures { result ≡ hex_bytes word.now }
{
    let mut bytes = [0; 8];
    if decode(word, &mut bytes) {
        Some(Name8::from_bytes(bytes))
    } else {
        None
    }
}

/// The name of a queue that a word spells.
#[tactic(auto, unfolding(crate::specs::Looks::queue_name_of))]
fn queue_name_of(word: &[u8]) -> Option<Name8>
    ensures { result ≡ queue_name_of word.now }
{
    if word.len() == NAME_DIGITS {
        hex_bytes(word)
    } else {
        name8(word)
    }
}

/// A look at a queue, or at its item of the number that follows its name.
fn queue_look(name: Name8, rest: Option<&[u8]>) -> Option<Look>
    ensures { result ≡ queue_look name (option_copied rest.entry) }
{
    let Some(rest) = rest else {
        return Some(Look::Queue(name));
    };
    let n = count_up_to(rest, LAST_ITEM)?;
    Some(Look::Item(name, n))
}

/// QUEUE, by what follows it.
#[tactic(auto, unfolding(crate::specs::Looks::look_by_word))]
fn queue(text: &[u8]) -> Option<Look>
    ensures { result ≡ look_by_word subject.Queue (Some text.now) }
{
    let (word, rest) = split_word(text);
    let name = queue_name_of(word)?;
    queue_look(name, rest)
}

/// STORAGE, by what follows it.
#[tactic(auto, unfolding(crate::specs::Looks::look_by_word))]
fn storage(text: &[u8]) -> Option<Look>
    ensures { result ≡ look_by_word subject.Storage (Some text.now) }
{
    let (word, rest) = split_word(text);
    let address = hex_address(word)?;
    let count = count_up_to(rest?, MOST_BYTES)?;
    Some(Look::Storage(address, count))
}

/// SYMBOL, by what follows it.
#[tactic(auto, unfolding(crate::specs::Looks::look_by_word))]
fn symbol(text: &[u8]) -> Option<Look>
    ensures { result ≡ look_by_word subject.Symbol (Some text.now) }
{
    let (word, rest) = split_word(text);
    let program = name8(word)?;
    let name = name8(rest?)?;
    Some(Look::Symbol(program, name))
}

/// The number of a level, 1 to 16, where there is one.
fn level_asked_for(rest: Option<&[u8]>) -> Option<Option<u8>>
    ensures { result ≡ level_asked_for (option_copied rest.entry) }
{
    let Some(rest) = rest else {
        return Some(None);
    };
    let k = count_up_to(rest, LEVELS)?;
    Some(Some(k as u8))
}

/// A field of a terminal's task, by what follows the terminal.
fn field_look(term: Name4, text: &[u8]) -> Option<Look>
    ensures { result ≡ field_look term text.now }
{
    let (word, rest) = split_word(text);
    let name = name8(word)?;
    let k = level_asked_for(rest)?;
    Some(Look::Field(term, name, k))
}

/// FIELD, by what follows it.
#[tactic(auto, unfolding(crate::specs::Looks::look_by_word))]
fn field(text: &[u8]) -> Option<Look>
    ensures { result ≡ look_by_word subject.Field (Some text.now) }
{
    let (word, rest) = split_word(text);
    let term = name4(word)?;
    field_look(term, rest?)
}

/// FIELDS, by what follows it.
#[tactic(auto, unfolding(crate::specs::Looks::look_by_word))]
fn fields(text: &[u8]) -> Option<Look>
    ensures { result ≡ look_by_word subject.Fields (Some text.now) }
{
    let (word, rest) = split_word(text);
    let term = name4(word)?;
    let k = level_asked_for(rest)?;
    Some(Look::Fields(term, k))
}

/// The last abend of a terminal, its storage, or its fields, by what follows the terminal.
fn abend_look(name: Name4, rest: Option<&[u8]>) -> Option<Look>
    ensures { result ≡ abend_look name (option_copied rest.entry) }
{
    let Some(rest) = rest else {
        return Some(Look::Abend(name));
    };
    if rest == b"STORAGE".as_slice() {
        Some(Look::AbendStorage(name))
    } else if rest == b"FIELDS".as_slice() {
        Some(Look::AbendFields(name))
    } else {
        None
    }
}

/// ABEND, by what follows it.
#[tactic(auto, unfolding(crate::specs::Looks::look_by_word))]
fn abend(text: &[u8]) -> Option<Look>
    ensures { result ≡ look_by_word subject.Abend (Some text.now) }
{
    let (word, rest) = split_word(text);
    let name = name4(word)?;
    abend_look(name, rest)
}

/// A line of a source to which the next turn of a terminal comes, by its program and its number.
fn line_look(term: Name4, text: &[u8]) -> Option<Look>
    ensures { result ≡ two_words (look.AheadAt term) (padded_name 8) (count_up_to 99999) text.now }
{
    let (word, rest) = split_word(text);
    let program = name8(word)?;
    let line = count_up_to(rest?, LAST_LINE)?;
    Some(Look::AheadAt(term, program, line))
}

/// After how many instructions of a turn, 1 to 65,536.
fn count_after(text: &[u8]) -> Option<u32>
    ensures { result ≡ count_after text.now }
{
    let (first, rest) = split_word(text);
    if first == b"AFTER".as_slice() {
        count_up_to(rest?, TURN_INSTRUCTIONS)
    } else {
        None
    }
}

/// The state of a terminal's task after so many instructions of its next turn.
fn after_look(term: Name4, text: &[u8]) -> Option<Look>
    ensures { result ≡ option_map (look.AheadAfter term) (count_after text.now) }
{
    let n = count_after(text)?;
    Some(Look::AheadAfter(term, n))
}

/// The fields of a terminal's task after so many instructions of its next turn.
fn fields_after_look(term: Name4, rest: Option<&[u8]>) -> Option<Look>
    ensures { let n = option_and_then count_after (option_copied rest.entry) in
        result ≡ option_map (look.FieldsAfter term) n }
{
    let n = count_after(rest?)?;
    Some(Look::FieldsAfter(term, n))
}

/// The next turn of a terminal, by the words after the terminal.
fn ahead_with(term: Name4, text: &[u8]) -> Option<Look>
    ensures { result ≡ ahead_look term (Some text.now) }
{
    let (first, rest) = split_word(text);
    if first == b"AT".as_slice() {
        line_look(term, rest?)
    } else if first == b"AFTER".as_slice() {
        after_look(term, text)
    } else if first == b"FIELDS".as_slice() {
        fields_after_look(term, rest)
    } else {
        let n = count_up_to(text, MOST_INSTRUCTIONS)?;
        Some(Look::Ahead(term, n))
    }
}

/// The next turn of a terminal, by what follows the terminal.
fn ahead_look(term: Name4, rest: Option<&[u8]>) -> Option<Look>
    ensures { result ≡ ahead_look term (option_copied rest.entry) }
{
    match rest {
        Some(text) => ahead_with(term, text),
        None => Some(Look::Ahead(term, LAST_INSTRUCTIONS)),
    }
}

/// AHEAD, by what follows it.
#[tactic(auto, unfolding(crate::specs::Looks::look_by_word))]
fn ahead(text: &[u8]) -> Option<Look>
    ensures { result ≡ look_by_word subject.Ahead (Some text.now) }
{
    let (word, rest) = split_word(text);
    let term = name4(word)?;
    ahead_look(term, rest)
}

/// What was run of a program, by what follows its name.
fn covered_look(program: Name8, rest: Option<&[u8]>) -> Option<Look>
    ensures { result ≡ covered_look program (option_copied rest.entry) }
{
    match rest {
        None => Some(Look::Covered(program)),
        Some(text) if text == b"LINES".as_slice() => Some(Look::CoveredLines(program)),
        Some(_) => None,
    }
}

/// COVERED, by what follows it.
#[tactic(auto, unfolding(crate::specs::Looks::look_by_word))]
fn covered(text: &[u8]) -> Option<Look>
    ensures { result ≡ look_by_word subject.Covered (Some text.now) }
{
    let (word, rest) = split_word(text);
    let program = name8(word)?;
    covered_look(program, rest)
}

/// HELP, by what follows it.
#[tactic(auto, unfolding(crate::specs::Looks::look_by_word))]
fn help(text: &[u8]) -> Option<Look>
    ensures { result ≡ look_by_word subject.Help (Some text.now) }
{
    let subject = subject_of(text)?;
    Some(Look::Help(Some(subject)))
}

/// A look whose word is alone.
#[tactic(auto, unfolding(crate::specs::Looks::look_by_word))]
fn alone(subject: Subject) -> Option<Look>
    ensures { result ≡ look_by_word subject None }
{
    match subject {
        Subject::Areas => Some(Look::Areas),
        Subject::Tasks => Some(Look::Tasks),
        Subject::Queues => Some(Look::Queues),
        Subject::Resources => Some(Look::Resources),
        Subject::Programs => Some(Look::Programs),
        Subject::Terminals => Some(Look::Terminals),
        Subject::Covered => Some(Look::CoveredAll),
        Subject::Help => Some(Look::Help(None)),
        _ => None,
    }
}

/// A look by its word and what follows it.
#[tactic(auto, unfolding(crate::specs::Looks::look_by_word))]
fn at(subject: Subject, text: &[u8]) -> Option<Look>
    ensures { result ≡ look_by_word subject (Some text.now) }
{
    match subject {
        Subject::Storage => storage(text),
        Subject::Where => hex_address(text).map(|address| Look::Where(address)),
        Subject::Areas => name4(text).map(|name| Look::AreasOf(name)),
        Subject::Task => name4(text).map(|name| Look::Task(name)),
        Subject::Abend => abend(text),
        Subject::Queue => queue(text),
        Subject::Command => name4(text).map(|name| Look::Command(name)),
        Subject::Ahead => ahead(text),
        Subject::Symbol => symbol(text),
        Subject::Symbols => name8(text).map(|name| Look::Symbols(name)),
        Subject::Xref => name8(text).map(|name| Look::Xref(name)),
        Subject::Field => field(text),
        Subject::Fields => fields(text),
        Subject::Covered => covered(text),
        Subject::Help => help(text),
        _ => None,
    }
}

/// What a line looks at; None where it is no look, or one of several lines (FAULTS, ORDERS), or what follows its word
/// isn't as that asks. It takes no memory.
#[tactic(auto, unfolding(crate::specs::Looks::look_of))]
pub fn look_of(line: &[u8]) -> Option<Look>
    ensures { result ≡ look_of line.now }
{
    let (word, rest) = split_word(line);
    let subject = subject_of(word)?;
    match rest {
        Some(text) => at(subject, text),
        None => alone(subject),
    }
}
