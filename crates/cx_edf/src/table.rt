//! The table of sessions.
ghost use Rattle.std.specs.Prelude.{◌≡◌, ◌≢◌, false, not, IsTrue, None, Some, IfOk, OnOk, OnErr, is_some};
ghost use Rattle.std.specs.Option.{option_copied, option_and_then, option_map_or};
ghost use Rattle.std.specs.List.{IsDistinct};
ghost use Rattle.std.specs.Map.{keys_of};
ghost use Rattle.indexmap.specs.IndexMap.{insert_entry};
ghost use Rattle.cx_ebcdic.specs.Names.{is_name};
ghost use Rattle.cx_edf.specs.Sessions.{SessionState, session_after_change, after_key, fresh_session, is_stopped, session_in, with_session};
ghost use Rattle.cx_edf.specs.Steps.{with_session_changed, sessions_after};
ghost use Rattle.cx_region.specs.declared.replies.Event.TheVariants as event;
ghost use Rattle.cx_region.specs.declared.replies.Reply.TheVariants as reply;

use crate::displays::MakesDisplays;
use crate::sessions::Session;
use cx_ebcdic::{Aid, Name4};
use cx_region::{AlterReply, Change, Region, TurnReply};
use cx_storage::Store;
use indexmap::IndexMap;
use std::alloc::{AllocError, Global};

/// Begins a session of a terminal that has none.
pub(crate) fn begin(
    alloc: Global,
    sessions: &mut IndexMap<Name4, Session>,
    name: Name4,
) -> Result<(), AllocError>
    ensures begun { OnOk result (sessions.new.entries ≡ with_session sessions.old.entries name (Some fresh_session)) }
    ensures err { OnErr result (sessions.new.entries ≡ sessions.old.entries) }
{
    let session = Session::new(alloc)?;
    sessions.insert(name, session)?;
    Ok(())
}

/// Ends the session of a terminal.
pub(crate) fn end(sessions: &mut IndexMap<Name4, Session>, name: Name4)
    ensures { sessions.new.entries ≡ with_session sessions.old.entries name None }
{
    sessions.retain(
        |other: &Name4, session: &mut Session| -> bool
            ensures { (result ≡ not (is_name name other.now)) × (session.new ≡ session.old) }
        { name != *other },
    );
}

/// A key in Stopped, other than PF3.
fn press(sessions: &mut IndexMap<Name4, Session>, name: Name4, aid: Aid, bytes: &[u8])
    requires { (it : SessionState) → session_in sessions.old.entries name ≡ Some it
        → IsTrue (is_stopped it.mode) }
    ensures { aid ≢ Aid.Pf3 → (session : SessionState) → session_in sessions.old.entries name ≡ Some session
        → sessions.new.entries
        ≡ with_session_changed sessions.old.entries name (λ session. after_key session aid bytes.now) }
{
    let Some(session) = sessions.get_mut(&name) else {
        return;
    };
    session.press(aid, bytes);
}

/// Whether a terminal is in Stopped.
pub(crate) fn is_stopped(sessions: &IndexMap<Name4, Session>, name: Name4) -> bool
    ensures { result ≡ option_map_or (λ s. is_stopped s.mode) (session_in sessions.now.entries name) false }
{
    match sessions.get(&name) {
        Some(session) => session.is_stopped(),
        None => false,
    }
}

/// A key of a terminal in Stopped.
#[tactic(auto, using(crate::proofs::TableLemmas::ended_there), unfolding(crate::specs::Sessions::after_key))]
pub(crate) fn key(sessions: &mut IndexMap<Name4, Session>, name: Name4, aid: Aid, bytes: &[u8])
    requires { IsTrue (option_map_or (λ s. is_stopped s.mode) (session_in sessions.old.entries name) false) }
    ensures { sessions.new.entries
        ≡ with_session_changed sessions.old.entries name (λ session. after_key session aid bytes.now) }
{
    match aid {
        Aid::Pf3 => end(sessions, name),
        _ => press(sessions, name, aid, bytes),
    }
}

/// A turn's reply at a terminal, where the region is as it was after the turn.
pub(crate) fn note<S: Store + Drop, M: MakesDisplays>(
    sessions: &mut IndexMap<Name4, Session>,
    region: &Region<S>,
    name: Name4,
    turn: &TurnReply,
)
    ensures { let reported = reply.Turn turn.now in
        sessions.new.entries
        ≡ sessions_after sessions.old.entries (event.Turn name) reported (M.make region.now) }
{
    let Some(session) = sessions.get_mut(&name) else {
        return;
    };
    session.note::<S, M>(region, name, turn);
}

/// An alteration's reply at a terminal, where the region is as it was after the alteration.
#[tactic(auto, using(crate::proofs::TableLemmas::refused_leaves))]
pub(crate) fn alter<S: Store + Drop, M: MakesDisplays>(
    sessions: &mut IndexMap<Name4, Session>,
    region: &Region<S>,
    name: Name4,
    change: Change,
    given: AlterReply,
)
    ensures { let altered = event.Alter name change in
        sessions.new.entries
        ≡ sessions_after sessions.old.entries altered (reply.Alter given) (M.make region.now) }
{
    match given {
        AlterReply::Altered => altered::<S, M>(sessions, region, name, change),
        _ => (),
    }
}

/// An alteration that was done at a terminal, where the region is as it was after it.
fn altered<S: Store + Drop, M: MakesDisplays>(
    sessions: &mut IndexMap<Name4, Session>,
    region: &Region<S>,
    name: Name4,
    change: Change,
)
    ensures { let display = M.make region.now name in
        sessions.new.entries
        ≡ with_session_changed sessions.old.entries name (λ it. Some (session_after_change it change display)) }
{
    let Some(session) = sessions.get_mut(&name) else {
        return;
    };
    session.alter::<S, M>(region, name, change);
}
