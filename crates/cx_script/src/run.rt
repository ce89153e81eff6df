//! Running a script line by line.

ghost use Rattle.std.specs.Prelude.{◌≡◌, ◌+◌, ◌++◌, ◌<◌, ◌≤◌, ◌^◌, ℕ, List, IfOk, IfErr, IfSome, IsOkAnd, OnOk, OnErr, MatchOption, Err, None, [], true, false, length};
ghost use Rattle.std.specs.Str.Lines.{strip_carriage_return};
ghost use Rattle.cx_script_io.specs.Input.{is_failure};
ghost use Rattle.cx_script_io.specs.Lines.{is_too_long, lines_met};
ghost use Rattle.cx_script.specs.Session.{RanIn};
ghost use Rattle.cx_script.specs.Script.{actions_of, bad_look_after, fault_at_ending, first_place, step_from};
ghost use Rattle.cx_script_blocks.specs.Faults.{is_read, is_write};
ghost use Rattle.cx_script.specs.Parts.Progress.{Acted, ActsOnce, Calling, Came, Closes, Stopped, TakesLine};
ghost use Rattle.cx_script_io.specs.Devices.{device_output};
ghost use Rattle.cx_script_io.specs.Unbroken.{IsUnbroken};
ghost use Rattle.cx_script_blocks.specs.declared.faults.RunFault.TheVariants.{BadLine};

use arrayvec::ArrayVec;
use cx_script_actions::{Performer, ScriptAction};
use cx_script_blocks::{Block, RunFault, Summary, step_at};
use cx_script_io::{
    Ending, OutputBuffer, ScriptDevices, ScriptOut, in_front, is_too_long, last_line, split_line,
    strip_carriage_return,
};
use std::alloc::{AllocError, Global};

/// How many bytes are asked for at once.
const CHUNK: usize = 4_096;

/// The most bytes of an unfinished line that may be a line yet: 4,096, and a carriage return.
const MOST_KEPT: usize = 4_097;

/// The most bytes that a script may have.
const MOST_BYTES: usize = 16_777_216;

/// What the lines of a script that were taken leave to the next one.
#[derive(Drop)]
pub struct Place<H> {
    /// The block that the next line is in, where it is in one.
    pub block: Option<Block<H>>,
    /// The number of the line with the first bad look, counted from 1, where there was one.
    pub bad_look: Option<usize>,
}

impl<H> Place<H> {
    /// That of a script's first line.
    fn first() -> Place<H>
        ensures { result ≡ first_place }
    {
        Place {
            block: None,
            bad_look: None,
        }
    }
}

/// Performs an action, and puts its text after what waits to be written.
fn act_once<P: Performer, W: ScriptOut>(
    performer: &mut P,
    alloc: Global,
    waiting: &mut OutputBuffer,
    writer: &mut W,
    action: P::Action,
) -> Result<(), RunFault>
    requires allowed { P.Action.allowed action }
    requires failure { W.has_failed writer.old ≡ false }
    ensures acted { Calling W.writes writer.old writer.new (λ log later.
        ActsOnce P.performs P.refused action performer.old (device_output log waiting.old)
        result performer.new (device_output later waiting.new)) }
    ensures failure { W.has_failed writer.new ≡ is_write result }
    ensures unread { is_read result ≡ false }
{
    let text = performer.perform(alloc, action)?;
    match waiting.put(writer, text.as_slice()) {
        Ok(()) => Ok(()),
        Err(_) => Err(RunFault::Write),
    }
}

/// Performs the actions that a line asks, one after another: the text of each is put after what waits to be written
/// before the next is performed.
fn act<P: Performer, W: ScriptOut>(
    performer: &mut P,
    alloc: Global,
    waiting: &mut OutputBuffer,
    writer: &mut W,
    action: Option<P::Action>,
) -> Result<(), RunFault>
    requires allowed { IfSome action P.Action.allowed }
    requires failure { W.has_failed writer.old ≡ false }
    ensures acted { Calling W.writes writer.old writer.new (λ log later.
        Acted P.performs P.refused (actions_of P.Action.language action) performer.old (device_output log waiting.old)
        result performer.new (device_output later waiting.new)) }
    ensures failure { W.has_failed writer.new ≡ is_write result }
    ensures unread { is_read result ≡ false }
{
    let mut due = action;
    'actions: while let Some(action) = due {
        due = action.following();
        if let Err(fault) = act_once(performer, alloc, waiting, writer, action) {
            return Err(fault);
        }
    }
    Ok(())
}

/// The first bad look, after a line with this number that asks this action.
fn bad_look_after<A: ScriptAction>(
    before: Option<usize>,
    action: &Option<A>,
    number: usize,
) -> Option<usize>
    ensures { result ≡ bad_look_after A.language number before action.now }
{
    match action {
        Some(action) if before.is_none() && action.is_deferred_fault() => Some(number),
        _ => before,
    }
}

/// Lines that were taken: what they were performed on, the texts that wait to be written, how many they are, and what
/// they leave to the next one.
#[derive(Drop)]
pub struct Progress<P: Performer> {
    performer: P,
    waiting: OutputBuffer,
    lines: usize,
    place: Place<<P::Action as ScriptAction>::Heading>,
}

impl<P: Performer + Drop> Progress<P> {
    /// Takes one complete line: does what it asks, and puts its text after what waits.
    fn take_line<W: ScriptOut>(
        &mut self,
        alloc: Global,
        writer: &mut W,
        line: &[u8],
    ) -> Result<(), RunFault>
        requires lines { self.old.lines < 2 ^ 32 }
        requires failure { W.has_failed writer.old ≡ false }
        ensures taken { let number = self.old.lines + 1 in
            let due = step_from P.Action.language number self.old.place line.now in
            Calling W.writes writer.old writer.new (λ log later.
            TakesLine P.performs number due self.old.performer (device_output log self.old.waiting)
            result self.new.performer (device_output later self.new.waiting) self.new.place) }
        ensures lines { self.new.lines ≡ self.old.lines + 1 }
        ensures failure { W.has_failed writer.new ≡ is_write result }
        ensures unread { is_read result ≡ false }
    {
        self.lines += 1;
        let step = match step_at(alloc, self.lines, self.place.block.take(), line) {
            Ok(step) => step,
            Err(fault) => return Err(fault),
        };
        self.place = Place {
            block: step.block,
            bad_look: bad_look_after(self.place.bad_look, &step.action, self.lines),
        };
        act(
            &mut self.performer,
            alloc,
            &mut self.waiting,
            writer,
            step.action,
        )
    }

    /// Takes one complete line where nothing waits, and writes its text.
    fn take_last<W: ScriptOut>(
        &mut self,
        alloc: Global,
        writer: &mut W,
        line: &[u8],
    ) -> Result<(), RunFault>
        requires lines { self.old.lines < 2 ^ 32 }
        requires waits { self.old.waiting ≡ [] }
        requires failure { W.has_failed writer.old ≡ false }
        ensures taken { let number = self.old.lines + 1 in
            let due = step_from P.Action.language number self.old.place line.now in
            Calling W.writes writer.old writer.new (λ log later.
            TakesLine P.performs number due self.old.performer (device_output log [])
            result self.new.performer (device_output later []) self.new.place) }
        ensures lines { self.new.lines ≡ self.old.lines + 1 }
        ensures failure { W.has_failed writer.new ≡ is_write result }
        ensures unread { is_read result ≡ false }
    {
        let answer = self.take_line(alloc, writer, line);
        if writer.failed() {
            return answer;
        }
        if self.waiting.flush(writer).is_err() {
            return Err(RunFault::Write);
        }
        answer
    }

    /// The answer where no line is left.
    #[tactic(auto, unfolding(crate::specs::Script::fault_at_ending))]
    fn end(&self, ending: Ending) -> Result<Summary, RunFault>
        ensures value { MatchOption (fault_at_ending ending self.now.place)
            (IsOkAnd result (λ summary. summary.lines ≡ self.now.lines)) (λ fault. result ≡ Err fault) }
        ensures unwritten { is_write result ≡ false }
        ensures read { is_read result ≡ is_failure ending }
    {
        match ending {
            Ending::AtEnd => match (&self.place.block, self.place.bad_look) {
                (Some(block), _) => Err(RunFault::BadLine(block.line)),
                (None, Some(line)) => Err(RunFault::BadLook(line)),
                (None, None) => Ok(Summary { lines: self.lines }),
            },
            Ending::Failed => Err(RunFault::Read),
            Ending::PastBound => Err(RunFault::ReadBound),
        }
    }
}

/// A run of a script: the lines that were taken so far, and the bytes of the next one that were read.
#[derive(Drop)]
pub struct ScriptRun<P: Performer> {
    progress: Progress<P>,
    part: ArrayVec<u8, MOST_KEPT>,
}

impl<P: Performer + Drop> ScriptRun<P> {
    /// A run that has taken no line.
    pub fn new(performer: P) -> ScriptRun<P>
        ensures performer { result.progress.performer ≡ performer }
        ensures waits { result.progress.waiting ≡ [] }
        ensures lines { result.progress.lines ≡ 0 }
        ensures place { result.progress.place ≡ first_place }
        ensures part { result.part.items ≡ [] }
    {
        ScriptRun {
            progress: Progress {
                performer,
                waiting: OutputBuffer::new(),
                lines: 0,
                place: Place::first(),
            },
            part: ArrayVec::new(),
        }
    }

    /// Takes the line that these bytes end.
    fn end_line<W: ScriptOut>(
        &mut self,
        alloc: Global,
        writer: &mut W,
        bytes: &[u8],
    ) -> Result<(), RunFault>
        requires lines { self.old.progress.lines < 2 ^ 32 }
        requires failure { W.has_failed writer.old ≡ false }
        ensures taken { let old = self.old.progress in let new = self.new.progress in let number = old.lines + 1 in
            let line = strip_carriage_return (self.old.part.items ++ bytes.now) in
            let due = step_from P.Action.language number old.place line in
            Calling W.writes writer.old writer.new (λ log later.
            TakesLine P.performs number due old.performer (device_output log old.waiting)
            result new.performer (device_output later new.waiting) new.place) }
        ensures lines { self.new.progress.lines ≡ self.old.progress.lines + 1 }
        ensures part { OnOk result (self.new.part.items ≡ []) }
        ensures failure { W.has_failed writer.new ≡ is_write result }
        ensures unread { is_read result ≡ false }
    {
        if self.part.try_extend_from_slice(bytes).is_err() {
            self.progress.lines += 1;
            return Err(RunFault::BadLine(self.progress.lines));
        }
        let line = strip_carriage_return(self.part.as_slice());
        if let Err(fault) = self.progress.take_line(alloc, writer, line) {
            return Err(fault);
        }
        self.part.clear();
        Ok(())
    }

    /// Keeps bytes of a line that is not ended yet; a bad line where they are too many already.
    #[tactic(auto, using(cx_script_io::specs::Facts::Lines::long_bytes))]
    fn keep(&mut self, bytes: &[u8]) -> Result<(), RunFault>
        requires { self.old.progress.lines < 2 ^ 32 }
        ensures part { OnOk result (self.new.part.items ≡ self.old.part.items ++ bytes.now) }
        ensures not_too_long { OnOk result (is_too_long (strip_carriage_return self.new.part.items) ≡ false) }
        ensures fault { IfErr result (λ fault. fault ≡ BadLine (self.old.progress.lines + 1)) }
        ensures long { OnErr result (is_too_long (strip_carriage_return (self.old.part.items ++ bytes.now)) ≡ true) }
        ensures progress { self.new.progress ≡ self.old.progress }
    {
        if self.part.try_extend_from_slice(bytes).is_err() {
            return Err(RunFault::BadLine(self.progress.lines + 1));
        }
        if is_too_long(strip_carriage_return(self.part.as_slice())) {
            return Err(RunFault::BadLine(self.progress.lines + 1));
        }
        Ok(())
    }

    /// Takes the lines that end in a piece of the script, and keeps the bytes after the last.
    #[tactic(auto, using(cx_script_io::specs::Facts::Lines::unbroken_nil, cx_script_io::specs::Facts::Lines::unbroken_append))]
    fn take_piece<W: ScriptOut>(
        &mut self,
        alloc: Global,
        writer: &mut W,
        piece: &[u8],
    ) -> Result<(), RunFault>
        requires lines { self.old.progress.lines + length piece.now < 2 ^ 32 }
        requires unbroken { IsUnbroken self.old.part.items }
        requires failure { W.has_failed writer.old ≡ false }
        ensures came { let old = self.old.progress in let new = self.new.progress in
            let ahead = self.old.part.items ++ piece.now in
            OnOk result (Calling W.writes writer.old writer.new (λ log later.
            Came P.Action.language P.performs old.performer old.lines old.place ahead (device_output log old.waiting)
            new.performer new.lines new.place self.new.part.items (device_output later new.waiting))) }
        ensures unbroken { OnOk result (IsUnbroken self.new.part.items) }
        ensures not_too_long { OnOk result (is_too_long (strip_carriage_return self.new.part.items) ≡ false) }
        ensures lines { OnOk result (self.new.progress.lines ≤ self.old.progress.lines + length piece.now) }
        ensures err { let old = self.old.progress in let ahead = self.old.part.items ++ piece.now in
            IfErr result (λ fault. Calling W.writes writer.old writer.new (λ log later.
            Stopped P.Action.language P.performs old.performer old.lines old.place ahead fault
            (device_output log old.waiting) (device_output later self.new.progress.waiting))) }
        ensures failure { W.has_failed writer.new ≡ is_write result }
        ensures unread { is_read result ≡ false }
    {
        let mut rest = piece;
        'lines: while let Some((bytes, following)) = split_line(rest) {
            if let Err(fault) = self.end_line(alloc, writer, bytes) {
                return Err(fault);
            }
            rest = following;
        }
        self.keep(rest)
    }

    /// Takes a piece of the script, and writes what waits then: no more is read, and no fault is answered, before.
    fn serve<W: ScriptOut>(
        &mut self,
        alloc: Global,
        writer: &mut W,
        piece: &[u8],
    ) -> Result<(), RunFault>
        requires lines { self.old.progress.lines + length piece.now < 2 ^ 32 }
        requires unbroken { IsUnbroken self.old.part.items }
        requires waits { self.old.progress.waiting ≡ [] }
        requires failure { W.has_failed writer.old ≡ false }
        ensures came { let old = self.old.progress in let new = self.new.progress in
            let ahead = self.old.part.items ++ piece.now in
            OnOk result (Calling W.writes writer.old writer.new (λ log later.
            Came P.Action.language P.performs old.performer old.lines old.place ahead (device_output log [])
            new.performer new.lines new.place self.new.part.items (device_output later []))) }
        ensures unbroken { OnOk result (IsUnbroken self.new.part.items) }
        ensures not_too_long { OnOk result (is_too_long (strip_carriage_return self.new.part.items) ≡ false) }
        ensures lines { OnOk result (self.new.progress.lines ≤ self.old.progress.lines + length piece.now) }
        ensures waits { OnOk result (self.new.progress.waiting ≡ []) }
        ensures err { let old = self.old.progress in let ahead = self.old.part.items ++ piece.now in
            IfErr result (λ fault. Calling W.writes writer.old writer.new (λ log later.
            Stopped P.Action.language P.performs old.performer old.lines old.place ahead fault
            (device_output log []) (device_output later []))) }
        ensures failure { W.has_failed writer.new ≡ is_write result }
        ensures unread { is_read result ≡ false }
    {
        let answer = self.take_piece(alloc, writer, piece);
        if writer.failed() {
            return answer;
        }
        if self.progress.waiting.flush(writer).is_err() {
            return Err(RunFault::Write);
        }
        answer
    }

    /// Ends the run where no more is read: the bytes that are kept may be a line yet.
    fn finish<W: ScriptOut>(
        mut self,
        alloc: Global,
        writer: &mut W,
        ending: Ending,
    ) -> Result<Summary, RunFault>
        requires lines { self.progress.lines < 2 ^ 32 }
        requires unbroken { IsUnbroken self.part.items }
        requires not_too_long { is_too_long (strip_carriage_return self.part.items) ≡ false }
        requires waits { self.progress.waiting ≡ [] }
        requires failure { W.has_failed writer.old ≡ false }
        ensures ends { let old = self.progress in let lines = lines_met ending self.part.items in
            Calling W.writes writer.old writer.new (λ log later.
            Closes P.Action.language P.performs old.performer ending old.lines old.place lines
            result (device_output log []) (device_output later [])) }
        ensures failure { W.has_failed writer.new ≡ is_write result }
        ensures read { is_read result ≡ is_failure ending }
    {
        let Some(line) = last_line(self.part.as_slice(), ending) else {
            return self.progress.end(ending);
        };
        if let Err(fault) = self.progress.take_last(alloc, writer, line) {
            return Err(fault);
        }
        self.progress.end(ending)
    }

    /// Runs the script that the devices have, line by line as it is read, from a run that has taken no line. Its faults
    /// are those of `run_script_on`. Neither device may have failed.
    pub fn run<D: ScriptDevices>(
        mut self,
        alloc: Global,
        devices: &mut D,
    ) -> Result<Summary, RunFault>
        requires lines { self.progress.lines ≡ 0 }
        requires place { self.progress.place ≡ first_place }
        requires part { self.part.items ≡ [] }
        requires waits { self.progress.waiting ≡ [] }
        requires reader { D.ScriptIn.has_failed devices.old ≡ false }
        requires writer { D.ScriptOut.has_failed devices.old ≡ false }
        ensures ran { let start = self.progress.performer in
            RanIn P.Action.language P.performs start D.reads D.writes devices.old result devices.new }
        ensures read { D.ScriptIn.has_failed devices.new ≡ is_read result }
        ensures write { D.ScriptOut.has_failed devices.new ≡ is_write result }
    {
        let mut buffer = [0; CHUNK];
        let mut read = 0;
        'pieces: for _turn in 0..MOST_BYTES + 1 {
            let Ok(taken) = devices.read(&mut buffer) else {
                return self.finish(alloc, devices, Ending::Failed);
            };
            if taken == 0 {
                return self.finish(alloc, devices, Ending::AtEnd);
            }
            let room = taken.min(MOST_BYTES - read);
            let piece = in_front(&buffer, room);
            if let Err(fault) = self.serve(alloc, devices, piece) {
                return Err(fault);
            }
            if room < taken {
                return self.finish(alloc, devices, Ending::PastBound);
            }
            read += taken;
        }
        unreachable!()
    }
}
