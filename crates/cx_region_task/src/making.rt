//! What a command makes before its outputs are written.
ghost use Rattle.std.specs.Prelude.{◌≡◌, ◌<◌, ◌≤◌, ◌^◌, length, replicate, unwrap_or, is_some, [], false, true, IfOk, IsOk, OnOk, OnErr, None, Some, MatchOption, ⊤};
ghost use Rattle.std.specs.Fn.{CalledAt};
ghost use Rattle.std.specs.Option.{option_map_or};
ghost use Rattle.cx_program.specs.Entries.{turned_off, turned_on};
ghost use Rattle.cx_program.specs.Handles.{after_pop, after_push, put_entry, put_exit};
ghost use Rattle.cx_service.specs.Queues.{item_of, rewrite_fault, with_item, with_item_at, write_fault};
ghost use Rattle.cx_service.specs.Resources.{enq_fault, enqueue};
ghost use Rattle.cx_service.specs.Screen.{ShowsText};
ghost use Rattle.cx_region_state.specs.Areas.{IsTaskPlace, bytes_in, with_cap, with_copied, with_copy_area, with_filled, with_stg_area};
ghost use Rattle.cx_region_state.specs.State.{context, with_storage};
ghost use Rattle.cx_region_state.specs.Parts.Fits.{FitsChange, FitsCopy, FitsLevel, FitsMade, FitsPiece, IsThere, FitsGot, FitsTransaction};
ghost use Rattle.cx_region_task.specs.Changes.{AppliesBefore, change_takes_memory, after_request, kept_next, with_got, with_stg, with_handles, with_ignored, with_labels, with_replacement};
ghost use Rattle.cx_region_task.specs.Parts.Making.{MatchCopy, MatchItem, MatchPush};
ghost use Rattle.cx_program.specs.declared.entries.Handler.TheVariants as Entry;

use crate::areas::{MOST_BYTES, get_at, get_both, get_filled, get_stg, put_cap};
use crate::blocks::{copy, fill};
use cx_base::List;
use cx_ebcdic::Name8;
use cx_program::HandleTable;
use cx_region_state::{
    BeforeOutputs, Copying, Fill, Got, Listed, NewLevel, NextTransaction, Request,
    RequestedTransaction, Shared, StorageSpan, Task, TaskChange, TerminalEntry,
};
use cx_service::{Enqueues, Queues, ResourceName, Screen};
use cx_storage::laws::store_is_sound;
use cx_storage::{Kind, Owner, Store};
use std::alloc::{AllocError, Global};

/// What is made of a piece's bytes: they are lent where storage has them in one block, and else copied.
fn with_bytes<S: Store, R, F: FnMut(&[u8]) -> R>(store: &S, piece: StorageSpan, take: &mut F) -> R
    requires there { IsThere (S.storage store.now) piece }
    requires callable { F.IsAlwaysCallable take.old }
    ensures { CalledAt F.FnMut take.old (bytes_in (S.storage store.now) piece) result take.new }
{
    match store.slice(piece.place, piece.len as usize) {
        Some(bytes) => take(bytes),
        None => with_copy(store, piece, take),
    }
}

/// What is made of a copy of a piece's bytes. The buffer costs at entry, so it has a function of its own.
#[inline(never)]
fn with_copy<S: Store, R, F: FnMut(&[u8]) -> R>(store: &S, piece: StorageSpan, take: &mut F) -> R
    requires there { IsThere (S.storage store.now) piece }
    requires callable { F.IsAlwaysCallable take.old }
    ensures { CalledAt F.FnMut take.old (bytes_in (S.storage store.now) piece) result take.new }
{
    let mut buffer = [0; MOST_BYTES];
    let bytes = &mut buffer[..piece.len as usize];
    store.read(piece.place, bytes);
    take(bytes)
}

/// A piece's bytes are a new item, the last of a queue.
fn put_item<S: Store>(
    store: &S,
    queues: &mut Queues,
    name: Name8,
    piece: StorageSpan,
) -> Result<(), AllocError>
    requires writes { write_fault queues.old name piece.len ≡ None }
    requires there { IsThere (S.storage store.now) piece }
    ensures ok { OnOk result (queues.new ≡ with_item queues.old name (bytes_in (S.storage store.now) piece)) }
    ensures err { OnErr result (queues.new ≡ queues.old) }
{
    let mut write = |bytes: &[u8]| queues.write(name, bytes);
    match with_bytes(store, piece, &mut write) {
        Ok(_number) => Ok(()),
        Err(_refused) => Err(AllocError),
    }
}

/// A piece's bytes replace a queue's item.
fn put_item_at<S: Store>(
    store: &S,
    queues: &mut Queues,
    name: Name8,
    n: usize,
    piece: StorageSpan,
) -> Result<(), AllocError>
    requires rewrites { rewrite_fault queues.old name n piece.len ≡ None }
    requires there { IsThere (S.storage store.now) piece }
    ensures ok { OnOk result (queues.new ≡ with_item_at queues.old name n (bytes_in (S.storage store.now) piece)) }
    ensures err { OnErr result (queues.new ≡ queues.old) }
{
    let mut rewrite = |bytes: &[u8]| queues.rewrite(name, n, bytes);
    match with_bytes(store, piece, &mut rewrite) {
        Ok(_done) => Ok(()),
        Err(_refused) => Err(AllocError),
    }
}

/// A task owns a resource once more.
fn own<'a>(enqueues: &mut Enqueues, slot: u8, resource: &'a ResourceName) -> Result<(), AllocError>
    requires { enq_fault enqueues.old slot resource.now ≡ None }
    ensures ok { OnOk result (enqueues.new ≡ enqueue enqueues.old slot resource.now) }
    ensures err { OnErr result (enqueues.new ≡ enqueues.old) }
{
    match enqueues.enq(slot, resource) {
        Ok(_done) => Ok(()),
        Err(_refused) => Err(AllocError),
    }
}

/// A piece's bytes are shown.
fn show<S: Store>(store: &S, screen: &mut Screen, piece: StorageSpan, erase: bool)
    requires { IsThere (S.storage store.now) piece }
    ensures { ShowsText screen.old (bytes_in (S.storage store.now) piece) erase screen.new }
{
    let mut send = |bytes: &[u8]| screen.send_text(bytes, erase);
    with_bytes(store, piece, &mut send)
}

/// HANDLE CONDITION of one condition.
fn handle_one(table: &mut HandleTable, listed: Listed)
    ensures { table.new ≡ put_entry table.old listed.condition
        (option_map_or Entry.Label listed.label Entry.NoEntry) }
{
    match listed.label {
        Some(label) => table.set(listed.condition, label),
        None => table.default(listed.condition),
    }
}

/// HANDLE CONDITION.
#[tactic(auto, using(crate::proofs::HandleLemmas::labels_step, crate::proofs::HandleLemmas::labels_end))]
fn handle_all(table: &mut HandleTable, conditions: &[Listed])
    ensures { table.new ≡ with_labels conditions.now table.old }
{
    for listed in conditions {
        handle_one(table, *listed);
    }
}

/// IGNORE CONDITION.
#[tactic(auto, using(crate::proofs::HandleLemmas::ignored_step, crate::proofs::HandleLemmas::ignored_end))]
fn ignore_all(table: &mut HandleTable, conditions: &[Listed])
    ensures { table.new ≡ with_ignored conditions.now table.old }
{
    for listed in conditions {
        table.ignore(listed.condition);
    }
}

/// What a program asks of its level's handles.
#[tactic(auto, unfolding(crate::specs::Changes::after_request))]
fn handle(table: &mut HandleTable, request: &Request)
    requires { MatchPush request.now (length table.old.kept < 16) }
    ensures { table.new ≡ after_request request.now table.old }
{
    match request {
        Request::Handle(conditions) => handle_all(table, conditions.as_slice()),
        Request::Ignore(conditions) => ignore_all(table, conditions.as_slice()),
        Request::Push => push(table),
        Request::Pop => pop(table),
        Request::SetExit(label) => table.set_exit(*label),
        Request::ExitOff => table.exit_off(),
        Request::ExitOn => table.exit_on(),
    }
}

/// PUSH HANDLE where fewer than sixteen are kept.
fn push(table: &mut HandleTable)
    requires { length table.old.kept < 16 }
    ensures { table.new ≡ after_push table.old }
{
    match table.push() {
        Ok(_done) => (),
        Err(_fault) => (),
    }
}

/// POP HANDLE.
fn pop(table: &mut HandleTable)
    ensures { table.new ≡ unwrap_or (after_pop table.old.kept) table.old }
{
    match table.pop() {
        Ok(_done) => (),
        Err(_fault) => (),
    }
}

/// What a program asks of its current level's handles.
fn handle_current(task: &mut Task, request: &Request)
    requires { MatchPush request.now (length task.old.levels.current.handles.kept < 16) }
    ensures { task.new ≡ with_handles task.old (after_request request.now task.old.levels.current.handles) }
{
    let level = task.levels.current_mut();
    handle(&mut level.handles, request);
}

/// What a command makes.
///
/// An error comes only where an allocation failed; then all is as before.
#[tactic(auto, unfolding(crate::specs::Changes::AppliesBefore))]
fn make<S: Store + Drop>(
    made: &BeforeOutputs,
    shared: &mut Shared<S>,
    terminal_entry: &mut TerminalEntry,
    task: &mut Task,
) -> Result<(), AllocError>
    requires { FitsMade made.now (context shared.old terminal_entry.old task.old) }
    ensures ok { let before = context shared.old terminal_entry.old task.old in
        let after = context shared.new terminal_entry.new task.new in
        OnOk result (AppliesBefore (TaskChange.Before made.now) before after) }
    ensures err { OnErr result
        (context shared.new terminal_entry.new task.new ≡ context shared.old terminal_entry.old task.old) }
    ensures memory { OnErr result (change_takes_memory (TaskChange.Before made.now) ≡ true) }
{
    match made {
        BeforeOutputs::ItemLast(name, piece) => {
            put_item(&shared.store, &mut shared.queues, *name, *piece)?;
        }
        BeforeOutputs::ItemAt(name, n, piece) => {
            put_item_at(&shared.store, &mut shared.queues, *name, *n, *piece)?;
        }
        BeforeOutputs::Enqueues(resource) => own(
            &mut shared.enqueues,
            terminal_entry.slot,
            resource,
        )?,
        BeforeOutputs::Shows(piece, erase) => show(
            &shared.store,
            &mut terminal_entry.screen,
            *piece,
            *erase,
        ),
        BeforeOutputs::Handles(request) => handle_current(task, request),
    }
    Ok(())
}

/// The bytes that an item of a queue has; none where it isn't there.
pub(crate) fn item_bytes(queues: &Queues, name: Name8, n: usize) -> &[u8]
    ensures { result.now ≡ unwrap_or (item_of queues.now name n) [] }
{
    queues.item(name, n).unwrap_or(&[])
}

/// An area of which each byte is the same. A fresh one has zeros.
#[tactic(auto, using(crate::proofs::FreshAreas::fresh_ends, crate::proofs::FreshAreas::fresh_there, crate::proofs::FreshAreas::fresh_zeros), unfolding(cx_region_state::specs::Areas::with_filled))]
fn get_of_byte<S: Store>(
    store: &mut S,
    place: u32,
    len: u32,
    owner: Owner,
    byte: u8,
) -> Result<(), AllocError>
    requires nonempty { 0 < len }
    requires place { IsTaskPlace (S.storage store.old) len (Some place) }
    ensures ok { let bytes = replicate len byte in
        OnOk result (S.storage store.new ≡ with_filled (S.storage store.old) place len owner bytes) }
    ensures err { OnErr result (S.storage store.new ≡ S.storage store.old) }
{
    store_is_sound(store);
    get_at(store, place, len, owner)?;
    if byte != 0 {
        fill(store, place, len, byte);
    }
    Ok(())
}

/// An area that the program gets, filled.
#[tactic(auto, unfolding(crate::specs::Changes::with_got))]
fn get_got<S: Store>(store: &mut S, queues: &Queues, slot: u8, got: &Got) -> Result<(), AllocError>
    requires nonempty { 0 < got.now.len }
    requires at_most_65520 { got.now.len ≤ 65520 }
    requires place { IsTaskPlace (S.storage store.old) got.now.len (Some got.now.place) }
    requires fill { MatchItem got.now.fill queues.now got.now.len }
    ensures ok { OnOk result (S.storage store.new ≡ with_got (S.storage store.old) queues.now slot got.now) }
    ensures err { OnErr result (S.storage store.new ≡ S.storage store.old) }
{
    let owner = Owner {
        slot,
        kind: Kind::Got,
    };
    let len = got.len;
    match &got.fill {
        Fill::Byte(byte) => get_of_byte(store, got.place, len, owner, *byte)?,
        Fill::Item(name, n) => {
            get_filled(store, got.place, len, owner, item_bytes(queues, *name, *n))?;
        }
    }
    Ok(())
}

/// Puts a copy into its area.
#[tactic(auto, unfolding(cx_region_state::specs::Areas::with_copied))]
fn put_copied<S: Store>(store: &mut S, copying: Option<Copying>)
    requires { MatchCopy copying (S.storage store.old) }
    ensures { let bytes = option_map_or (λ it. bytes_in (S.storage store.old) it.from) copying [] in
        S.storage store.new ≡ with_copied (S.storage store.old) copying bytes }
{
    let Some(copying) = copying else {
        return;
    };
    copy(store, copying);
}

/// Makes and fills the areas of a level that begins in place of another.
///
/// An error comes only where an allocation failed; then all is as before.
#[tactic(auto, using(crate::proofs::FreshAreas::copyable))]
fn get_replacement<S: Store>(
    store: &mut S,
    slot: u8,
    copying: Option<Copying>,
    level: &NewLevel,
) -> Result<(), AllocError>
    requires copy { FitsCopy copying (S.storage store.old) }
    requires level { FitsLevel (with_copy_area (S.storage store.old) slot copying) level.now }
    ensures ok { OnOk result (S.storage store.new ≡ with_replacement (S.storage store.old) slot copying level.now) }
    ensures err { OnErr result (S.storage store.new ≡ S.storage store.old) }
{
    get_both(store, slot, copying, level)?;
    put_copied(store, copying);
    put_cap(store, level);
    Ok(())
}

/// A piece's bytes, in a list of their own.
fn listed<S: Store>(alloc: Global, store: &S, piece: StorageSpan) -> Result<List<u8>, AllocError>
    requires { IsThere (S.storage store.now) piece }
    ensures { IfOk result (λ bytes. bytes ≡ bytes_in (S.storage store.now) piece) }
{
    let mut list = |bytes: &[u8]| List::from_slice(alloc, bytes);
    with_bytes(store, piece, &mut list)
}

/// The COMMAREA's bytes, in a list of their own.
#[tactic(auto, using(crate::proofs::CopyLemmas::piece_few))]
fn kept_bytes<S: Store>(
    alloc: Global,
    store: &S,
    commarea: Option<StorageSpan>,
) -> Result<List<u8>, AllocError>
    requires { FitsPiece commarea (S.storage store.now) }
    ensures bytes { IfOk result (λ bytes. bytes ≡ option_map_or (bytes_in (S.storage store.now)) commarea []) }
    ensures at_most_32767 { IfOk result (λ bytes. length bytes ≤ 32767) }
    ensures memory { OnErr result (is_some commarea ≡ true) }
{
    let Some(piece) = commarea else {
        return Ok(List::from_vec(Vec::new(alloc)));
    };
    let bytes = listed(alloc, store, piece)?;
    Ok(bytes)
}

/// The next transaction, with the COMMAREA that is kept for it.
#[tactic(auto, unfolding(crate::specs::Changes::kept_next))]
fn keep_next<S: Store>(
    alloc: Global,
    store: &S,
    next: Option<RequestedTransaction>,
) -> Result<Option<NextTransaction>, AllocError>
    requires { MatchOption next ⊤ (λ it. FitsPiece it.commarea (S.storage store.now)) }
    ensures kept { IfOk result (λ following. following ≡ kept_next (S.storage store.now) next) }
    ensures memory { OnErr result (change_takes_memory (TaskChange.TaskEnds next) ≡ true) }
{
    let Some(next) = next else {
        return Ok(None);
    };
    let commarea = kept_bytes(alloc, store, next.commarea)?;
    Ok(Some(NextTransaction {
        tran: next.tran,
        commarea,
    }))
}

/// The next transaction is kept at the terminal.
fn leave_next<S: Store + Drop>(
    shared: &Shared<S>,
    terminal_entry: &mut TerminalEntry,
    next: Option<RequestedTransaction>,
) -> Result<(), AllocError>
    requires { MatchOption next ⊤ (λ it. FitsPiece it.commarea shared.now.storage) }
    ensures ok { OnOk result
        (terminal_entry.new ≡ record terminal_entry.old { following = kept_next shared.now.storage next }) }
    ensures err { OnErr result (terminal_entry.new ≡ terminal_entry.old) }
    ensures memory { OnErr result (change_takes_memory (TaskChange.TaskEnds next) ≡ true) }
{
    let following = keep_next(shared.alloc, &shared.store, next)?;
    terminal_entry.following = following;
    Ok(())
}

/// What a change makes before the outputs are written.
///
/// An error comes only where an allocation failed, and only for a change that takes memory; then all is as before.
#[tactic(auto, unfolding(crate::specs::Changes::AppliesBefore, crate::specs::Changes::with_stg))]
pub(crate) fn apply_before<S: Store + Drop>(
    change: &TaskChange,
    shared: &mut Shared<S>,
    terminal_entry: &mut TerminalEntry,
    task: &mut Task,
) -> Result<(), AllocError>
    requires { FitsChange change.now (context shared.old terminal_entry.old task.old) }
    ensures ok { let before = context shared.old terminal_entry.old task.old in
        let after = context shared.new terminal_entry.new task.new in
        OnOk result (AppliesBefore change.now before after) }
    ensures err { OnErr result
        (context shared.new terminal_entry.new task.new ≡ context shared.old terminal_entry.old task.old) }
    ensures memory { OnErr result (change_takes_memory change.now ≡ true) }
{
    match change {
        TaskChange::Before(made) => make(made, shared, terminal_entry, task)?,
        TaskChange::Gets(got) => get_got(
            &mut shared.store,
            &shared.queues,
            terminal_entry.slot,
            got,
        )?,
        TaskChange::Enters(level) => enter_area(&mut shared.store, terminal_entry.slot, level)?,
        TaskChange::Replaces(copying, level) => {
            get_replacement(&mut shared.store, terminal_entry.slot, *copying, level)?;
        }
        TaskChange::TaskEnds(next) => leave_next(shared, terminal_entry, *next)?,
        _ => (),
    }
    Ok(())
}

/// The DFHEISTG of a level that begins.
#[tactic(auto, unfolding(crate::specs::Changes::with_stg))]
fn enter_area<S: Store>(store: &mut S, slot: u8, level: &NewLevel) -> Result<(), AllocError>
    requires { FitsLevel (S.storage store.old) level.now }
    ensures ok { OnOk result (S.storage store.new ≡ with_stg (S.storage store.old) slot level.now) }
    ensures err { OnErr result (S.storage store.new ≡ S.storage store.old) }
{
    get_stg(store, slot, level)?;
    put_cap(store, level);
    Ok(())
}
