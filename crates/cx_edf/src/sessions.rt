//! Sessions.
ghost use Rattle.std.specs.Prelude.{◌≡◌, ◌≢◌, ◌<◌, ◌^◌, None, Some, IfOk, IsTrue, is_some, length};
ghost use Rattle.std.specs.Option.{option_copied, option_map};
ghost use Rattle.cx_edf.specs.Sessions.{session_after_change, after_key, after_reply, fresh_session, is_stopped, nth_back, older, shown_of, stop_of, stop_session, takes_in, turned_to};

use crate::displays::{Display, MakesDisplays};
use crate::modes::{Mode, PageName, View};
use crate::stop_words::Stops;
use crate::stops::{Ending, StopPoint};
use circular_buffer::HeapCircularBuffer;
use cx_base::{Abend, Condition};
use cx_ebcdic::{Aid, Name4};
use cx_region::{Change, Region, TurnReply};
use cx_storage::Store;
use std::alloc::{AllocError, Global};
use std::marker::Model;

/// The most displays that a session keeps.
const MOST_DISPLAYS: usize = 10;

/// A session of a terminal: its mode, its stop conditions, what is shown, and the last displays.
#[derive(Drop)]
pub struct Session {
    mode: Mode,
    stops: Stops,
    view: View,
    displays: HeapCircularBuffer<Display>,
}

impl Model for Session {
    ghost use Rattle.std.specs.Prelude.{◌≡◌, ◌<◌, IsTrue, length};
    ghost use Rattle.cx_edf.specs.Sessions.{SessionState, is_stopped};

    ghost Value = { SessionState };

    ghost view = { λ s. record { mode = s.mode; stops = s.stops; view = s.view; displays = s.displays.items } };

    ghost invariant = { λ s. (s.displays.capacity ≡ 10)
        × (IsTrue (is_stopped s.mode) → s.view.back < length s.displays.items) };
}

impl Session {
    /// A session as EDF ON makes it, with room for ten displays.
    ///
    /// An error comes only where memory for these was refused.
    pub(crate) fn new(alloc: Global) -> Result<Session, AllocError>
        ensures { IfOk result (λ session. session ≡ fresh_session) }
    {
        let displays = HeapCircularBuffer::with_capacity(alloc, MOST_DISPLAYS)?;
        Ok(Session {
            mode: Mode::Free,
            stops: Stops::at_first(),
            view: View::NEWEST,
            displays,
        })
    }

    /// The session's mode: Free, Stopped or Suppressed.
    pub fn mode(&self) -> Mode
        ensures { result ≡ self.now.mode }
    {
        self.mode
    }

    /// The stop conditions, which count in Suppressed alone.
    pub fn stops(&self) -> Stops
        ensures { result ≡ self.now.stops }
    {
        self.stops
    }

    /// Whether it is in Stopped.
    pub(crate) fn is_stopped(&self) -> bool
        ensures { result ≡ is_stopped self.now.mode }
    {
        matches!(self.mode, Mode::Stopped(_))
    }

    /// Whether it takes a stop.
    pub(crate) fn takes(&self, kind: &StopPoint) -> bool
        ensures { result ≡ takes_in self.now.mode self.now.stops kind.now }
    {
        match self.mode {
            Mode::Free => true,
            Mode::Stopped(_) => false,
            Mode::Suppressed => self.stops.takes(kind),
        }
    }

    /// The display `back` displays before the newest; None past the oldest.
    pub(crate) fn previous(&self, back: usize) -> Option<&Display>
        ensures { option_copied result ≡ nth_back self.now.displays back }
    {
        self.displays.nth_back(back)
    }

    /// In Stopped the display that is shown, and the view of it.
    pub(crate) fn shown(&self) -> Option<(&Display, View)>
        ensures shown { option_map (λ p. (p.0.now, p.1)) result ≡ shown_of self.now }
        ensures stopped { is_some result ≡ is_stopped self.now.mode }
    {
        if !self.is_stopped() {
            return None;
        }
        let display = self.previous(self.view.back)?;
        Some((display, self.view))
    }

    /// Stops it, with the display taken there.
    pub(crate) fn stop(&mut self, kind: StopPoint, display: Display)
        ensures { self.new ≡ stop_session self.old kind display }
    {
        self.displays.push_back(display);
        self.mode = Mode::Stopped(kind);
        self.view = View::NEWEST;
    }

    /// What a turn's reply does, where the region is as it was after the turn: at a stop that the session takes, it
    /// stops, with the display of the terminal.
    #[tactic(auto, unfolding(crate::specs::Sessions::after_reply))]
    pub(crate) fn note<S: Store + Drop, M: MakesDisplays>(
        &mut self,
        region: &Region<S>,
        name: Name4,
        reply: &TurnReply,
    )
        ensures { self.new ≡ after_reply self.old reply.now (M.make region.now name) }
    {
        let Some(kind) = stop_of(reply) else {
            return;
        };
        if self.takes(&kind) {
            let display = M::take(region, name, &kind);
            self.stop(kind, display);
        }
    }

    /// What an alteration does, where the region is as it was after it: after `Change::Nop` the task goes on, and after
    /// `Change::Abend` it is stopped over, with the display of the terminal.
    #[tactic(auto, unfolding(crate::specs::Sessions::session_after_change))]
    pub(crate) fn alter<S: Store + Drop, M: MakesDisplays>(
        &mut self,
        region: &Region<S>,
        name: Name4,
        change: Change,
    )
        ensures { self.new ≡ session_after_change self.old change (M.make region.now name) }
    {
        match change {
            Change::Nop => self.mode = Mode::Free,
            Change::Abend => {
                let kind = StopPoint::Over(Ending::Abended(Abend::Xedf.code()));
                let display = M::take(region, name, &kind);
                self.stop(kind, display);
            }
            Change::Register(_, _) => (),
            Change::Byte(_, _) => (),
        }
    }

    /// What a key other than PF3 does in Stopped.
    #[tactic(auto, unfolding(crate::specs::Sessions::after_key))]
    pub(crate) fn press(&mut self, aid: Aid, bytes: &[u8])
        requires { IsTrue (is_stopped self.old.mode) }
        ensures { aid ≢ Aid.Pf3 → after_key self.old aid bytes.now ≡ Some self.new }
    {
        match aid {
            Aid::Enter => self.mode = Mode::Free,
            Aid::Pf4 => self.mode = Mode::Suppressed,
            Aid::Pf5 => self.view.page = turned_to(PageName::Storage, self.view.page),
            Aid::Pf6 => self.view.page = turned_to(PageName::User, self.view.page),
            Aid::Pf9 => self.stops = Stops::named(bytes).unwrap_or(self.stops),
            Aid::Pf10 => self.view = older(self.view, self.displays.len()),
            _ => (),
        }
    }
}

impl View {
    ghost use Rattle.cx_edf.specs.Sessions.{newest};

    /// The main page of the newest display.
    pub const NEWEST: View = View {
        back: 0,
        page: PageName::Main,
    };
}

/// The page that a key asks for, or the main page if that very page is shown.
fn turned_to(asked: PageName, shown: PageName) -> PageName
    ensures { result ≡ turned_to asked shown }
{
    match (asked, shown) {
        (PageName::Storage, PageName::Storage) => PageName::Main,
        (PageName::User, PageName::User) => PageName::Main,
        _ => asked,
    }
}

/// The display before the shown one of `kept`; at the oldest no change.
fn older(view: View, kept: usize) -> View
    requires { kept < 2 ^ 63 }
    ensures { result ≡ older view kept }
{
    if view.back >= kept || view.back + 1 >= kept {
        return view;
    }
    View {
        back: view.back + 1,
        page: PageName::Main,
    }
}

/// Where a turn's reply stops the task.
pub(crate) fn stop_of(reply: &TurnReply) -> Option<StopPoint>
    ensures { result ≡ stop_of reply.now }
{
    match reply {
        TurnReply::AtCommand => Some(StopPoint::Before),
        TurnReply::Performed(condition) => Some(StopPoint::After(*condition)),
        TurnReply::TookLabel(condition) => Some(StopPoint::After(*condition)),
        TurnReply::Entered => Some(StopPoint::After(Condition::Normal)),
        TurnReply::Returned => Some(StopPoint::After(Condition::Normal)),
        TurnReply::TookExit(code) => Some(StopPoint::Exit(*code)),
        TurnReply::Ended => Some(StopPoint::Over(Ending::Ended)),
        TurnReply::Abended(code) => Some(StopPoint::Over(Ending::Abended(*code))),
        TurnReply::Waiting => None,
        TurnReply::Idle => None,
        TurnReply::NoSuchTerminal => None,
    }
}
