//! Reading a source, whole or piece by piece.

ghost use Rattle.std.specs.Prelude.{◌≡◌, ◌≢◌, [], Err, IfErr, IfOk, IsOk, Ok, OnErr, OnOk, fold, if◌then◌else◌, length, take};
ghost use Rattle.std.specs.Str.Lines.{strip_carriage_return};
ghost use Rattle.cx_source.specs.Faults.{source_from, source_of};
ghost use Rattle.cx_source.specs.Statements.{is_continued, is_last};
ghost use Rattle.cx_source.specs.Reader.{Reading, ReadsAs, Refuses, reading_at_start, finish, take_byte, take_line, reading_after};

use crate::faults::source_fault;
use crate::lines::text_of;
use crate::source::{Items, Source, SourceFault, Text};
use crate::statements::{is_continued, is_last, items_of};
use std::alloc::{AllocError, Global};
use std::collections::VecDeque;
use std::marker::Model;

/// The byte that ends a line.
const LINE_FEED: u8 = b'\n';

/// The byte that is dropped before it.
const CARRIAGE_RETURN: u8 = b'\r';

/// How far a reader has come.
#[derive(Clone, Copy)]
pub enum Progress {
    /// It expects a line; whether the line before is continued.
    Expects(bool),
    /// END was met.
    Ended,
    /// A line was faulty.
    Faulty(SourceFault),
}

/// A line without the carriage return at its end, if it has one.
fn strip_carriage_return(line: &[u8]) -> &[u8]
    ensures { result.now ≡ strip_carriage_return line.now }
{
    let len = line.len();
    if len > 0 && line[len - 1] == CARRIAGE_RETURN {
        return &line[..len - 1];
    }
    line
}

/// What a line of this text leads to.
fn after_line(continues: bool, text: &[u8]) -> Progress
    ensures { result ≡ (if is_last continues text.now then Progress.Ended
        else Progress.Expects (is_continued continues text.now)) }
{
    if is_last(continues, text) {
        return Progress::Ended;
    }
    Progress::Expects(is_continued(continues, text))
}

/// Takes a whole line: what it leads to. A faulty line isn't kept, and where an allocation fails none is.
fn take_line(
    alloc: Global,
    texts: &mut VecDeque<Text>,
    continues: bool,
    line: &[u8],
) -> Result<Progress, AllocError>
    ensures taken { let expected = Progress.Expects continues in
        let old : Reading = record { texts = texts.old.items; unfinished = []; progress = expected } in
        IfOk result (λ progress. reading_after continues line.now old
        ≡ record { texts = texts.new.items; unfinished = []; progress = progress }) }
    ensures err { OnErr result (texts.new.items ≡ texts.old.items) }
{
    if let Some(fault) = source_fault(continues, texts.len() + 1, line) {
        return Ok(Progress::Faulty(fault));
    }
    let text = text_of(line);
    texts.push_back(Text::from_slice(alloc, text)?)?;
    Ok(after_line(continues, text))
}

/// The source whose lines have these texts.
fn source_from(alloc: Global, texts: VecDeque<Text>) -> Result<Source, SourceFault>
    ensures { ReadsAs (Ok (source_from texts.items)) result }
{
    Ok(Source {
        items: Items::from_vec(items_of(alloc, texts)?),
    })
}

/// The answer where the last line has no line feed; it may be empty.
#[tactic(auto, unfolding(crate::specs::Reader::finish))]
fn finish_line(
    alloc: Global,
    mut texts: VecDeque<Text>,
    continues: bool,
    line: &[u8],
) -> Result<Source, SourceFault>
    ensures reads { let progress = Progress.Expects continues in
        ReadsAs (finish (record { texts = texts.items; unfinished = line.now; progress = progress })) result }
    ensures faulty { let progress = Progress.Expects continues in
        let due = finish (record { texts = texts.items; unfinished = line.now; progress = progress }) in
        IfErr due (λ fault. result ≡ Err fault) }
{
    let number = texts.len() + 1;
    if line.is_empty() {
        return Err(SourceFault::NoEnd(number));
    }
    if let Some(fault) = source_fault(continues, number, line) {
        return Err(fault);
    }
    let text = text_of(line);
    if !is_last(continues, text) {
        return Err(SourceFault::NoEnd(number + 1));
    }
    texts.push_back(Text::from_slice(alloc, text)?)?;
    source_from(alloc, texts)
}

/// A reader of a source that comes in pieces.
///
/// It keeps the texts of the lines that are complete, up to END's, and what came of the next line.
#[derive(Drop)]
pub struct SourceReader {
    alloc: Global,
    texts: VecDeque<Text>,
    unfinished: Vec<u8>,
    progress: Progress,
}

impl Model for SourceReader {
    ghost use Rattle.cx_source.specs.Reader.{Reading};

    ghost Value = { Reading };

    ghost view = { λ r. record { texts = r.texts.items; unfinished = r.unfinished.items; progress = r.progress } };
}

impl SourceReader {
    /// A reader that was fed nothing. It takes no memory.
    pub fn new(alloc: Global) -> SourceReader
        ensures { result ≡ reading_at_start }
    {
        SourceReader {
            alloc,
            texts: VecDeque::new(alloc),
            unfinished: Vec::new(alloc),
            progress: Progress::Expects(false),
        }
    }

    /// Takes the next piece of the source, of any length. A line ends with a line feed; a carriage return before it is
    /// dropped.
    ///
    /// A fault is answered at the first call after which a line that is complete with its line feed is faulty; the
    /// reader keeps it, and every later call answers it. Lines after END's are taken and not judged. NoEnd never comes.
    /// Memory comes only where an allocation failed, and the reader is then as it was.
    pub fn feed(&mut self, piece: &[u8]) -> Result<(), SourceFault>
        ensures taken { OnOk result (self.new ≡ fold take_byte self.old piece.now) }
        ensures sound { OnOk result ((fault : SourceFault) → self.new.progress ≢ Progress.Faulty fault) }
        ensures refused { IfErr result (λ fault. Refuses fault self.old (fold take_byte self.old piece.now) self.new) }
        ensures kept { (fault : SourceFault) → self.old.progress ≡ Progress.Faulty fault
            → (result ≡ Err fault) × (self.new ≡ self.old) }
        ensures ended { self.old.progress ≡ Progress.Ended → IsOk result }
    {
        match self.progress {
            Progress::Expects(_) => self.feed_more(piece),
            Progress::Ended => Ok(()),
            Progress::Faulty(kept) => Err(kept),
        }
    }

    /// Takes a piece where no fault was met.
    fn feed_more(&mut self, piece: &[u8]) -> Result<(), SourceFault>
        requires { (fault : SourceFault) → self.old.progress ≢ Progress.Faulty fault }
        ensures taken { OnOk result (self.new ≡ fold take_byte self.old piece.now) }
        ensures sound { OnOk result ((fault : SourceFault) → self.new.progress ≢ Progress.Faulty fault) }
        ensures refused { IfErr result (λ fault. Refuses fault self.old (fold take_byte self.old piece.now) self.new) }
    {
        let (count, progress) = (self.texts.len(), self.progress);
        let unfinished = Vec::from_slice(self.alloc, self.unfinished.as_slice())?;
        if self.take_bytes(piece).is_err() {
            self.texts.truncate(count);
            self.unfinished = unfinished;
            self.progress = progress;
            return Err(SourceFault::Memory);
        }
        match self.progress {
            Progress::Faulty(fault) => Err(fault),
            _ => Ok(()),
        }
    }

    /// Takes bytes one by one. Where an allocation fails the lines from before are still there.
    #[tactic(auto, using(crate::proofs::ReaderLemmas::texts_kept))]
    fn take_bytes(&mut self, piece: &[u8]) -> Result<(), AllocError>
        ensures ok { OnOk result (self.new ≡ fold take_byte self.old piece.now) }
        ensures err { OnErr result (take (length self.old.texts) self.new.texts ≡ self.old.texts) }
    {
        for byte in piece {
            self.take_byte(*byte)?;
        }
        Ok(())
    }

    /// Takes a byte.
    #[tactic(auto, unfolding(crate::specs::Reader::take_byte))]
    fn take_byte(&mut self, byte: u8) -> Result<(), AllocError>
        ensures ok { OnOk result (self.new ≡ take_byte self.old byte) }
        ensures err { OnErr result (self.new ≡ self.old) }
    {
        let Progress::Expects(continues) = self.progress else {
            return Ok(());
        };
        if byte != LINE_FEED {
            self.unfinished.push(byte)?;
            return Ok(());
        }
        let line = strip_carriage_return(self.unfinished.as_slice());
        let progress = take_line(self.alloc, &mut self.texts, continues, line)?;
        self.unfinished.clear();
        self.progress = progress;
        Ok(())
    }

    /// Takes one complete line without its end; what is unfinished is its beginning. It is taken as it is: no
    /// carriage return is dropped, and a line feed in it is a character without a code.
    ///
    /// It answers as `feed` does: the line's fault, which the reader keeps, and every later call answers; lines after
    /// END's are taken and not judged. Memory comes only where an allocation failed, and the reader is then as it was.
    pub fn feed_line(&mut self, line: &[u8]) -> Result<(), SourceFault>
        ensures taken { OnOk result (self.new ≡ take_line self.old line.now) }
        ensures sound { OnOk result ((fault : SourceFault) → self.new.progress ≢ Progress.Faulty fault) }
        ensures refused { IfErr result (λ fault. Refuses fault self.old (take_line self.old line.now) self.new) }
        ensures kept { (fault : SourceFault) → self.old.progress ≡ Progress.Faulty fault
            → (result ≡ Err fault) × (self.new ≡ self.old) }
        ensures ended { self.old.progress ≡ Progress.Ended → IsOk result }
    {
        match self.progress {
            Progress::Expects(continues) => self.feed_whole_line(continues, line),
            Progress::Ended => Ok(()),
            Progress::Faulty(met) => Err(met),
        }
    }

    /// Takes a line where one is expected.
    fn feed_whole_line(&mut self, continues: bool, line: &[u8]) -> Result<(), SourceFault>
        requires { self.old.progress ≡ Progress.Expects continues }
        ensures taken { OnOk result (self.new ≡ take_line self.old line.now) }
        ensures sound { OnOk result ((fault : SourceFault) → self.new.progress ≢ Progress.Faulty fault) }
        ensures refused { IfErr result (λ fault. Refuses fault self.old (take_line self.old line.now) self.new) }
    {
        self.end_line(continues, line)?;
        if let Progress::Faulty(fault) = self.progress {
            return Err(fault);
        }
        Ok(())
    }

    /// Ends the unfinished line with these bytes.
    #[tactic(auto, unfolding(crate::specs::Reader::take_line))]
    fn end_line(&mut self, continues: bool, line: &[u8]) -> Result<(), AllocError>
        requires { self.old.progress ≡ Progress.Expects continues }
        ensures ok { OnOk result (self.new ≡ take_line self.old line.now) }
        ensures err { OnErr result (self.new ≡ self.old) }
    {
        let begun = self.unfinished.len();
        self.unfinished.extend_from_slice(line)?;
        let whole = self.unfinished.as_slice();
        let Ok(progress) = take_line(self.alloc, &mut self.texts, continues, whole) else {
            self.unfinished.truncate(begun);
            return Err(AllocError);
        };
        self.unfinished.clear();
        self.progress = progress;
        Ok(())
    }

    /// The source that the pieces make. A last line without a line feed is a line too; no carriage return is dropped
    /// from it.
    ///
    /// A fault is that of the first faulty line; without END it is NoEnd, with the number after the last line's. Memory
    /// comes only where an allocation failed, and never for a faulty source.
    #[tactic(auto, unfolding(crate::specs::Reader::finish))]
    pub fn finish(self) -> Result<Source, SourceFault>
        ensures reads { ReadsAs (finish self) result }
        ensures faulty { IfErr (finish self) (λ fault. result ≡ Err fault) }
    {
        let SourceReader {
            alloc,
            texts,
            unfinished,
            progress,
        } = self;
        match progress {
            Progress::Expects(continues) => {
                finish_line(alloc, texts, continues, unfinished.as_slice())
            }
            Progress::Ended => source_from(alloc, texts),
            Progress::Faulty(fault) => Err(fault),
        }
    }
}

/// The source that bytes make: its lines up to END's, and the statements that begin on them. A line ends with a line
/// feed; a carriage return before it is dropped; the last line needs none.
///
/// The fault is that of the first faulty line, and of that line the first that applies: TooLong, BadCharacter,
/// BadContinuation, BadName. Without END it is NoEnd, with the number after the last line's. Memory comes only where an
/// allocation failed.
///
/// OS/VS-DOS/VSE-VM/370 Assembler Language, GC33-4010, "Assembler Language Coding Conventions".
#[tactic(auto, using(crate::proofs::ReaderLemmas::whole_source))]
pub fn read_source(alloc: Global, bytes: &[u8]) -> Result<Source, SourceFault>
    ensures { ReadsAs (source_of bytes.now) result }
{
    let mut reader = SourceReader::new(alloc);
    reader.feed(bytes)?;
    reader.finish()
}
