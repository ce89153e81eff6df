//! One image, turned many times in a region of its own.

use crate::acts::{Act, Done, Sent, perform, perform_alone};
use crate::counts::{Counts, words};
use crate::draws::Draws;
use crate::modes::{Mode, Watch};
use crate::seen::{Seen, are_same, is_whole, task_alone, task_of};
use crate::setup::{HOSTILE, OTHERS};
use crate::stop::{Stop, Violation, unless};
use cx_ebcdic::{Aid, Name4};
use cx_edf::{Answer, Debugged};
use cx_edf_display::EdfDisplays;
use cx_region::{AlterReply, Region, Reply};
use cx_storage_pages::PagedStore;

/// The first turns of each other terminal.
const FIRST_TURNS: u32 = 3;

/// A key in Stopped: mostly ENTER, else one of EDF's or one that has no effect.
fn stopped_key(draws: &mut Draws) -> Act {
    if !draws.is_one_in(4) {
        return Act::Key(Aid::Enter, Sent::Nothing);
    }
    let aid = draws.pick(&Aid::ALL).unwrap_or(Aid::Enter);
    let sent = draws.pick(&[Sent::Nothing, Sent::AbendEnd, Sent::Error, Sent::Wrong]);
    Act::Key(aid, sent.unwrap_or(Sent::Nothing))
}

/// A region under EDF, beside it perhaps one without, and what is to be seen of them.
#[derive(Drop)]
pub struct Trial {
    debugged: Debugged<PagedStore, EdfDisplays>,
    alone: Option<Region<PagedStore>>,
    watch: Watch,
    seen: [Seen; 3],
    last: Option<Answer>,
    /// How many events there were.
    pub events: u64,
}

impl Trial {
    /// A region under EDF, and none without.
    pub fn new(debugged: Debugged<PagedStore, EdfDisplays>) -> Trial {
        let [second, third] = OTHERS;
        let hostile = Seen::new(&debugged, Name4::from_bytes(HOSTILE));
        let second = Seen::new(&debugged, Name4::from_bytes(second));
        let third = Seen::new(&debugged, Name4::from_bytes(third));
        Trial {
            debugged,
            alone: None,
            watch: Watch::new(),
            seen: [hostile, second, third],
            last: None,
            events: 0,
        }
    }

    /// Has a region without EDF beside it, alike in what is defined.
    pub fn compare_with(&mut self, region: Region<PagedStore>) {
        self.alone = Some(region);
    }

    /// What was answered last, in two words (`counts::words`).
    pub fn last_words(&self) -> (&'static str, &'static str) {
        match &self.last {
            Some(answer) => words(answer),
            None => ("nothing", ""),
        }
    }

    /// `turns` turns of the hostile program's terminal, with what comes between them.
    pub fn run(&mut self, turns: u32, draws: &mut Draws, counts: &mut Counts) -> Result<(), Stop> {
        for terminal in OTHERS {
            self.begin(Name4::from_bytes(terminal), counts)?;
        }
        for _turn in 0..turns {
            self.turn(draws, counts)?;
        }
        Ok(())
    }

    /// Another terminal gets a task, and some turns.
    fn begin(&mut self, terminal: Name4, counts: &mut Counts) -> Result<(), Stop> {
        self.event(terminal, Act::Key(Aid::Enter, Sent::Other), counts)?;
        for _turn in 0..FIRST_TURNS {
            self.event(terminal, Act::Turn, counts)?;
        }
        Ok(())
    }

    /// A turn of the hostile program's terminal, and what comes before it: at times an event of another terminal; an
    /// event of EDF; and a key.
    fn turn(&mut self, draws: &mut Draws, counts: &mut Counts) -> Result<(), Stop> {
        self.other_event(draws, counts)?;
        self.session(draws, counts)?;
        self.key(draws, counts)?;
        self.event(Name4::from_bytes(HOSTILE), Act::Turn, counts)
    }

    /// A key where there is no task, which attaches one, or at times.
    fn key(&mut self, draws: &mut Draws, counts: &mut Counts) -> Result<(), Stop> {
        let hostile = Name4::from_bytes(HOSTILE);
        let has_task = task_of(&self.debugged, hostile).is_some();
        if !has_task && self.watch.mode != Mode::Stopped {
            return self.event(hostile, Act::Key(Aid::Enter, Sent::Hostile), counts);
        }
        if draws.is_one_in(8) {
            let aid = draws.pick(&Aid::ALL).unwrap_or(Aid::Enter);
            return self.event(hostile, Act::Key(aid, Sent::Hostile), counts);
        }
        Ok(())
    }

    /// At times an event of another terminal.
    fn other_event(&mut self, draws: &mut Draws, counts: &mut Counts) -> Result<(), Stop> {
        if !draws.is_one_in(8) {
            return Ok(());
        }
        let name = draws.pick(&OTHERS).unwrap_or(HOSTILE);
        let terminal = Name4::from_bytes(name);
        let act = if task_of(&self.debugged, terminal).is_some() {
            Act::Turn
        } else {
            Act::Key(Aid::Enter, Sent::Other)
        };
        self.event(terminal, act, counts)
    }

    /// EDF's own events at the hostile program's terminal: ON where it is off, a key in Stopped, and rarely OFF.
    fn session(&mut self, draws: &mut Draws, counts: &mut Counts) -> Result<(), Stop> {
        if self.alone.is_none() {
            return Ok(());
        }
        let hostile = Name4::from_bytes(HOSTILE);
        match self.watch.mode {
            Mode::Off => self.event(hostile, Act::On, counts),
            Mode::Stopped => self.event(hostile, stopped_key(draws), counts),
            _ if draws.is_one_in(64) => self.event(hostile, Act::Off, counts),
            _ => Ok(()),
        }
    }

    /// Does an event at a terminal, and looks at all that it left.
    fn event(&mut self, terminal: Name4, act: Act, counts: &mut Counts) -> Result<(), Stop> {
        self.events = self.events.saturating_add(1);
        let done = perform(&mut self.debugged, terminal, act)?;
        self.last = Some(done.answer);
        self.after(&done, counts)
    }

    /// Counts and looks at what was done.
    fn after(&mut self, done: &Done, counts: &mut Counts) -> Result<(), Stop> {
        counts.answer(&done.answer)?;
        self.judge(done)?;
        self.compare(done)?;
        self.look(done.terminal)
    }

    /// Compares what was done at the hostile program's terminal with its mode.
    fn judge(&mut self, done: &Done) -> Result<(), Stop> {
        if done.terminal != Name4::from_bytes(HOSTILE) {
            return Ok(());
        }
        let fits = self.watch.answers(done);
        self.watch.note(done);
        unless(fits, Violation::Answer)
    }

    /// Does the event without EDF, where it isn't EDF's own, and compares its answer and the terminal's task.
    fn compare(&mut self, done: &Done) -> Result<(), Stop> {
        let Some(alone) = &mut self.alone else {
            return Ok(());
        };
        let task = task_of(&self.debugged, done.terminal);
        let is_alike = match perform_alone(alone, done)? {
            None => true,
            Some(Reply::Alter(reply)) => reply == AlterReply::Altered,
            Some(reply) => done.answer == Answer::Region(reply),
        };
        unless(
            is_alike && are_same(&task, &task_alone(alone, done.terminal)),
            Violation::Erased,
        )
    }

    /// Looks at what an event of a terminal left.
    fn look(&mut self, terminal: Name4) -> Result<(), Stop> {
        unless(self.are_others_still(terminal), Violation::Other)?;
        unless(self.are_tasks_whole(), Violation::Task)?;
        unless(self.are_displays_kept(), Violation::Display)?;
        for seen in self.seen.iter_mut() {
            if seen.is_of(terminal) {
                *seen = Seen::new(&self.debugged, terminal);
            }
        }
        Ok(())
    }

    /// Whether the other terminals are as they were seen.
    fn are_others_still(&self, terminal: Name4) -> bool {
        self.seen.iter().all(|seen| seen.is_of(terminal) || seen.is_still(&self.debugged))
    }

    /// Whether each live task has what it must have.
    fn are_tasks_whole(&self) -> bool {
        self.seen
            .iter()
            .all(|seen| is_whole(&self.debugged, seen.terminal))
    }

    /// Whether a display is shown exactly in Stopped, and as many are kept as there were stops, ten at most.
    fn are_displays_kept(&self) -> bool {
        let hostile = Name4::from_bytes(HOSTILE);
        let kept = self.watch.displays;
        self.debugged.display(hostile).is_some() == (self.watch.mode == Mode::Stopped)
            && self.debugged.previous(hostile, kept).is_none()
            && (kept == 0 || self.debugged.previous(hostile, kept - 1).is_some())
    }
}
