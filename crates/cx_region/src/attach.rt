//! A key of a terminal: a task is attached, or the input is held for the one that is there.
ghost use Rattle.std.specs.Prelude.{◌≡◌, ◌≢◌, ◌<◌, ◌≤◌, ◌+◌, ◌^◌, ◌==◌, ⊤, false, if◌then◌else◌, [], None, Some, length, unwrap_or, IfOk, IfErr, OnOk, OnErr, IfSome, position, MatchBool, MatchOption};
ghost use Rattle.std.specs.List.{AllByRecursion};
ghost use Rattle.std.specs.Option.{option_copied, option_map};
ghost use Rattle.std.specs.Map.{lookup, set_value};
ghost use Rattle.cx_ebcdic.specs.Names.{is_name, pad};
ghost use Rattle.cx_storage.specs.Storage.{IsSoundStorage, is_of_other_slot, with_area, with_areas_kept};
ghost use Rattle.cx_storage.specs.Place.{IsLeastPlace};
ghost use Rattle.cx_base.specs.Eib.{eib_len};
ghost use Rattle.cx_region_state.specs.Eib.{fields_at_attach};
ghost use Rattle.cx_region_state.specs.Areas.{IsSoundProgram, IsTaskPlace, system_owner};
ghost use Rattle.cx_region_state.specs.State.{TaskState};
ghost use Rattle.cx_region.specs.Tables.{program_of, terminal_of, transaction_of};
ghost use Rattle.cx_region.specs.Attach.{IsCopyPlace, KeyTakesMemory, TakesKey, commarea_kept, with_areas_filled, first_word, fresh_task, input_from, next_number, sends_data, transaction_named, with_copy, with_task};
ghost use Rattle.cx_region.specs.Parts.Asking.{Asks, Giving, Starting, input_with, level_of, task_of_start};
ghost use Rattle.cx_region.specs.Parts.Placing.{ArePlacesBelow, ArePlacesFor, HasNoPlacesFor, IsReadyTask, IsSlotFree, with_areas_of};
ghost use Rattle.cx_region.specs.Events.{MayTakeMemory};
ghost use Rattle.cx_region.specs.declared.replies.Event.TheVariants as event;
ghost use Rattle.cx_region.specs.Sound.{IsSound};

use crate::asking::{KeyEffect, Places, Start};
use crate::replies::KeyReply;
use crate::state::{Region, Terminal};
use cx_base::List;
use cx_ebcdic::{Aid, Name4, Name8};
use cx_exec::Cpu;
use cx_load::Loaded;
use cx_program::LevelStack;
use cx_region_state::eib::{InitialEib, begin};
use cx_region_state::{
    FIRST_OF_TASKS, Input, LAST_OF_TASKS, NewLevel, NextTransaction, Shared, StorageSpan, Task,
};
use cx_region_task::{entry_level, entry_registers, get_at, put_cap, system_owner};
use cx_storage::laws::store_is_sound;
use cx_storage::{Owner, Store};
use indexmap::IndexMap;
use std::alloc::{AllocError, Global};

/// The code of a blank.
const BLANK: u8 = 0x40;

/// The bytes that a key sends: none for CLEAR, PA1 and PA2.
#[tactic(auto, unfolding(crate::specs::Attach::input_from))]
fn bytes_sent(aid: Aid, bytes: &[u8]) -> &[u8]
    ensures value { result.now ≡ (input_from aid bytes.now).bytes }
    ensures no_longer { length result.now ≤ length bytes.now }
{
    match aid {
        Aid::Clear | Aid::Pa1 | Aid::Pa2 => &[],
        _ => bytes,
    }
}

/// The transaction that an input names: its bytes before the first blank, at most four.
#[tactic(auto, unfolding(crate::specs::Attach::first_word))]
fn first_word(bytes: &[u8]) -> Name4
    ensures { result ≡ first_word bytes.now }
{
    let end = first_blank(bytes).unwrap_or(bytes.len()).min(4);
    Name4::from_bytes(pad(&bytes[..end]))
}

/// The place of the first blank.
fn first_blank(bytes: &[u8]) -> Option<usize>
    ensures value { result ≡ position (λ byte. byte == 0x40) bytes.now }
    ensures within { IfSome result (λ k. k < length bytes.now) }
{
    bytes.iter().position(|byte| *byte == BLANK)
}

/// Bytes filled with blanks on the right.
fn pad(word: &[u8]) -> [u8; 4]
    requires { length word.now ≤ 4 }
    ensures { result ≡ pad 4 word.now }
{
    let mut filled = [BLANK; 4];
    for (i, byte) in word.iter().enumerate() {
        filled[i] = *byte;
    }
    filled
}

/// The COMMAREA kept for a terminal's next transaction; no bytes where there is none.
fn commarea_kept(following: &Option<NextTransaction>) -> &[u8]
    ensures value { result.now ≡ commarea_kept following.now }
    ensures at_most_32767 { length result.now ≤ 32767 }
{
    match following {
        Some(following) => following.commarea.as_slice(),
        None => &[],
    }
}

/// The length of an EIB.
const EIB_LEN: u32 = 88;

/// Makes the area of the copy of a COMMAREA at its place, where there is one.
///
/// An error comes only where an allocation failed; then all is as before.
#[tactic(auto, using(crate::proofs::PlacingLemmas::copy_nonempty, crate::proofs::PlacingLemmas::no_area))]
fn get_copy<S: Store>(
    store: &mut S,
    place: Option<u32>,
    len: u16,
    owner: Owner,
) -> Result<(), AllocError>
    requires { IsCopyPlace (S.storage store.old) len place }
    ensures ok { OnOk result (S.storage store.new ≡ with_area (S.storage store.old) place len owner) }
    ensures err { OnErr result (S.storage store.new ≡ S.storage store.old) }
{
    match place {
        Some(place) => get_at(store, place, u32::from(len), owner),
        None => Ok(()),
    }
}

/// Makes the areas of a task at their places. After an error some of them may be there; all belong to the slot.
fn make_areas<S: Store>(store: &mut S, start: &Start, places: &Places) -> Result<(), AllocError>
    requires stg { 0 < start.now.loaded.stg_len }
    requires placed { ArePlacesFor (S.storage store.old) start.now places.now }
    ensures ok { OnOk result (S.storage store.new ≡ with_areas_of (S.storage store.old) start.now places.now) }
    ensures others { OnErr result (with_areas_kept (is_of_other_slot start.now.slot) (S.storage store.new)
        ≡ with_areas_kept (is_of_other_slot start.now.slot) (S.storage store.old)) }
{
    let owner = system_owner(start.slot);
    get_at(store, places.eib, EIB_LEN, owner)?;
    get_copy(store, places.commarea, start.calen, owner)?;
    get_at(store, places.stg, start.loaded.stg_len, owner)?;
    Ok(())
}

/// Makes the areas of a task whose slot has none at their places; or none of them.
///
/// An error comes only where an allocation failed; then all is as before.
#[tactic(auto, using(crate::proofs::PlacingLemmas::given_back))]
fn place_task<S: Store>(store: &mut S, start: &Start, places: &Places) -> Result<(), AllocError>
    requires stg { 0 < start.now.loaded.stg_len }
    requires free { IsSlotFree (S.storage store.old) start.now.slot }
    requires placed { ArePlacesFor (S.storage store.old) start.now places.now }
    ensures ok { OnOk result (S.storage store.new ≡ with_areas_of (S.storage store.old) start.now places.now) }
    ensures err { OnErr result (S.storage store.new ≡ S.storage store.old) }
{
    match make_areas(store, start, places) {
        Ok(_done) => Ok(()),
        Err(refused) => {
            store.free_slot(start.slot);
            Err(refused)
        }
    }
}

/// The level with which a task begins.
fn level_of(start: &Start, places: &Places) -> NewLevel
    ensures { result ≡ level_of start.now places.now }
{
    let len = start.calen;
    NewLevel {
        program: start.program,
        loaded: start.loaded,
        commarea: places.commarea.map(|place| StorageSpan { place, len }),
        stg: places.stg,
    }
}

/// A task as it starts.
#[tactic(auto, unfolding(crate::specs::Attach::fresh_task))]
fn fresh_task(
    alloc: Global,
    tran: Name4,
    number: u32,
    eib: u32,
    level: &NewLevel,
) -> Result<Task, AllocError>
    requires eib { eib < 2 ^ 24 }
    requires entry { level.now.loaded.entry < 2 ^ 24 }
    ensures { IfOk result (λ task. task ≡ fresh_task tran number eib level.now) }
{
    let levels = Box::new(alloc, LevelStack::new(entry_level(level, eib)))?;
    Ok(Task {
        tran,
        number,
        eib,
        levels,
        cpu: Cpu {
            regs: entry_registers(level, eib),
            cc: 0,
            next: level.loaded.entry,
        },
        due: false,
    })
}

/// What a key sent.
fn input_with(alloc: Global, aid: Aid, bytes: &[u8]) -> Result<Input, AllocError>
    requires { length bytes.now ≤ 1920 }
    ensures { IfOk result (λ input. input ≡ input_with aid bytes.now) }
{
    let bytes = List::from_slice(alloc, bytes)?;
    Ok(Input { aid, bytes })
}

/// A task that is to be attached, and the key that it begins with.
#[derive(Drop)]
struct NewTask<'a> {
    start: Start,
    number: u32,
    aid: Aid,
    bytes: &'a [u8],
}

/// A task that is ready to be attached, with the input that it begins with.
#[derive(Drop)]
struct Ready {
    places: Places,
    level: NewLevel,
    task: Task,
    input: Input,
}

/// Makes a task and its input.
fn make_ready(alloc: Global, new_task: &NewTask<'_>, places: Places) -> Result<Ready, AllocError>
    requires eib { places.eib < 2 ^ 24 }
    requires entry { new_task.now.start.loaded.entry < 2 ^ 24 }
    requires at_most_1920 { length new_task.now.bytes.now ≤ 1920 }
    ensures places { IfOk result (λ ready. ready.places ≡ places) }
    ensures level { IfOk result (λ ready. ready.level ≡ level_of new_task.now.start places) }
    ensures task { IfOk result (λ ready.
        ready.task ≡ task_of_start new_task.now.start new_task.now.number places) }
    ensures input { IfOk result (λ ready. ready.input ≡ input_with new_task.now.aid new_task.now.bytes.now) }
{
    let start = &new_task.start;
    let level = level_of(start, &places);
    let task = fresh_task(alloc, start.tran, new_task.number, places.eib, &level)?;
    let input = input_with(alloc, new_task.aid, new_task.bytes)?;
    Ok(Ready {
        places,
        level,
        task,
        input,
    })
}

/// The least place in a range, beside an area that isn't made.
#[tactic(auto, using(crate::proofs::BesideLemmas::beside_low, crate::proofs::BesideLemmas::beside_high))]
fn place_beside<S: Store>(
    store: &S,
    first: u32,
    last: u32,
    len: u32,
    area: StorageSpan,
) -> Option<u32>
    requires last { last < 2 ^ 24 }
    requires len { 0 < len }
    requires start { 0 < area.place }
    requires end { area.place + area.len < 2 ^ 32 }
    ensures { (owner : _)
        → IsLeastPlace (with_area (S.storage store.now) (Some area.place) area.len owner) first last len result }
{
    match store.place(first, last.min(area.place - 1), len) {
        Some(place) => Some(place),
        None => store.place(first.max(area.place + u32::from(area.len)), last, len),
    }
}

/// The least place for a task's area, beside two areas that aren't made.
#[tactic(auto, using(crate::proofs::BesideLemmas::beside_low, crate::proofs::BesideLemmas::beside_high))]
fn place_beside_both<S: Store>(
    store: &S,
    len: u32,
    area: StorageSpan,
    other: StorageSpan,
) -> Option<u32>
    requires len { 0 < len }
    requires start { 0 < area.place }
    requires end { area.place + area.len < 2 ^ 32 }
    requires other_start { 0 < other.place }
    requires other_end { other.place + other.len < 2 ^ 32 }
    ensures { (owner : _) → let made = with_area (S.storage store.now) (Some area.place) area.len owner in
        IsTaskPlace (with_area made (Some other.place) other.len owner) len result }
{
    match place_beside(
        store,
        FIRST_OF_TASKS,
        LAST_OF_TASKS.min(other.place - 1),
        len,
        area,
    ) {
        Some(place) => Some(place),
        None => {
            let first = FIRST_OF_TASKS.max(other.place + u32::from(other.len));
            place_beside(store, first, LAST_OF_TASKS, len, area)
        }
    }
}

/// The places of the areas of a task whose EIB has this one, where none of them is made.
#[tactic(auto, using(crate::proofs::PlacingLemmas::placed_without, crate::proofs::PlacingLemmas::placed_with, crate::proofs::PlacingLemmas::none_without, crate::proofs::PlacingLemmas::none_for_copy, crate::proofs::PlacingLemmas::none_with, crate::proofs::PlacingLemmas::placed_high, crate::proofs::PlacingLemmas::placed_below))]
fn places_beside<S: Store>(store: &S, start: &Start, eib: u32) -> Option<Places>
    requires stg { 0 < start.now.loaded.stg_len }
    requires eib { IsTaskPlace (S.storage store.now) eib_len (Some eib) }
    ensures { MatchOption result (HasNoPlacesFor (S.storage store.now) start.now)
        (ArePlacesFor (S.storage store.now) start.now) }
{
    let area = StorageSpan {
        place: eib,
        len: EIB_LEN as u16,
    };
    let stg_len = start.loaded.stg_len;
    let len = start.calen;
    if len == 0 {
        let stg = place_beside(store, FIRST_OF_TASKS, LAST_OF_TASKS, stg_len, area)?;
        return Some(Places {
            eib,
            commarea: None,
            stg,
        });
    }
    let place = place_beside(store, FIRST_OF_TASKS, LAST_OF_TASKS, u32::from(len), area)?;
    let stg = place_beside_both(store, stg_len, area, StorageSpan { place, len })?;
    Some(Places {
        eib,
        commarea: Some(place),
        stg,
    })
}

/// The places of a task's areas, where none of them is made; None where there are no places for all. It takes no memory.
#[tactic(auto, using(crate::proofs::PlacingLemmas::none_for_eib))]
fn find_places<S: Store>(store: &S, start: &Start) -> Option<Places>
    requires { IsSoundProgram start.now.loaded }
    ensures { MatchOption result (HasNoPlacesFor (S.storage store.now) start.now)
        (ArePlacesFor (S.storage store.now) start.now) }
{
    match store.place(FIRST_OF_TASKS, LAST_OF_TASKS, EIB_LEN) {
        Some(eib) => places_beside(store, start, eib),
        None => None,
    }
}

/// Makes a task, its input, and its areas; None where there are no places for the areas.
///
/// An error comes only where there are, and an allocation failed. Then, and with None, all is as before.
#[tactic(auto, using(crate::proofs::PlacingLemmas::eib_below, crate::proofs::PlacingLemmas::places_below, crate::proofs::PlacingLemmas::places_there))]
fn prepare<S: Store + Drop>(
    shared: &mut Shared<S>,
    new_task: &NewTask<'_>,
) -> Result<Option<Ready>, AllocError>
    requires program { IsSoundProgram new_task.now.start.loaded }
    requires free { IsSlotFree shared.old.storage new_task.now.start.slot }
    requires at_most_1920 { length new_task.now.bytes.now ≤ 1920 }
    ensures ready { let before = shared.old.storage in let after = shared.new.storage in
        let input = input_with new_task.now.aid new_task.now.bytes.now in
        let nowhere = HasNoPlacesFor before new_task.now.start × (after ≡ before) in
        let is_ready = IsReadyTask before new_task.now.start new_task.now.number input in
        IfOk result (λ found.
        MatchOption found nowhere (λ it. is_ready it.places it.level it.task it.input after)) }
    ensures rest { shared.new ≡ record shared.old { storage = shared.new.storage } }
    ensures memory { OnErr result (HasNoPlacesFor shared.old.storage new_task.now.start → ⊥) }
    ensures err { OnErr result (shared.new.storage ≡ shared.old.storage) }
{
    let Some(places) = find_places(&shared.store, &new_task.start) else {
        return Ok(None);
    };
    let ready = make_ready(shared.alloc, new_task, places)?;
    place_task(&mut shared.store, &new_task.start, &ready.places)?;
    Ok(Some(ready))
}

/// Fills the areas of a task that begins.
#[tactic(auto, unfolding(crate::specs::Attach::with_areas_filled, crate::specs::Attach::with_copy))]
fn fill<S: Store>(
    store: &mut S,
    places: &Places,
    begun: &InitialEib,
    commarea: &[u8],
    level: &NewLevel,
)
    requires below { ArePlacesBelow places.now }
    requires at_most_32767 { length commarea.now ≤ 32767 }
    ensures { S.storage store.new
        ≡ with_areas_filled (S.storage store.old) places.now (fields_at_attach begun.now) commarea.now level.now }
{
    begin(store, places.eib, begun);
    if let Some(place) = places.commarea {
        store.write(place, commarea);
    }
    put_cap(store, level);
}

/// Fills the areas of a terminal's task that begins, with the COMMAREA kept at the terminal.
fn fill_from<S: Store + Drop>(
    shared: &mut Shared<S>,
    terminals: &IndexMap<Name4, Terminal>,
    name: Name4,
    ready: &Ready,
    begun: &InitialEib,
)
    requires { ArePlacesBelow ready.now.places }
    ensures filled { let fields = fields_at_attach begun.now in
        let before = shared.old.storage in let places = ready.now.places in let level = ready.now.level in
        let terminal = lookup (is_name name) terminals.now.entries in
        let after = shared.new.storage in
        MatchOption terminal ⊤
        (λ it. after ≡ with_areas_filled before places fields (commarea_kept it.entry.following) level) }
    ensures rest { shared.new ≡ record shared.old { storage = shared.new.storage } }
    ensures sound { IsSoundStorage shared.new.storage }
{
    store_is_sound(&shared.store);
    let Some(terminal) = terminals.get(&name) else {
        return;
    };
    fill(
        &mut shared.store,
        &ready.places,
        begun,
        commarea_kept(&terminal.entry.following),
        &ready.level,
    );
    store_is_sound(&shared.store);
}

/// Gives a terminal its task, and the input that it begins with.
fn start_at(terminals: &mut IndexMap<Name4, Terminal>, name: Name4, input: Input, task: Task)
    ensures { MatchOption (lookup (is_name name) terminals.old.entries) ⊤ (λ terminal. terminals.new.entries
        ≡ set_value (is_name name) terminals.old.entries (with_task terminal input task)) }
{
    let Some(terminal) = terminals.get_mut(&name) else {
        return;
    };
    terminal.entry.input = Some(input);
    terminal.entry.following = None;
    terminal.task = Some(task);
}

/// Holds an input for a terminal's task.
fn hold_input_at(terminals: &mut IndexMap<Name4, Terminal>, name: Name4, input: Input)
    ensures { MatchOption (lookup (is_name name) terminals.old.entries) ⊤ (λ terminal.
        let held = record terminal { entry = record terminal.entry { input = Some input } } in
        terminals.new.entries ≡ set_value (is_name name) terminals.old.entries held) }
{
    let Some(terminal) = terminals.get_mut(&name) else {
        return;
    };
    terminal.entry.input = Some(input);
}

/// The number of the task after this one.
fn next_number(counter: u32) -> u32
    requires { counter ≤ 9999999 }
    ensures { result ≡ next_number counter }
{
    if counter == 9_999_999 { 1 } else { counter + 1 }
}

impl Terminal {
    /// The transaction that a key asks for.
    fn transaction_named(&self, bytes: &[u8]) -> Name4
        ensures { result ≡ transaction_named self.now.entry.following bytes.now }
    {
        match &self.entry.following {
            Some(following) => following.tran,
            None => first_word(bytes),
        }
    }
}

impl<S: Store + Drop> Region<S> {
    /// What a key asks for.
    #[tactic(auto, using(crate::proofs::KeyLemmas::key_nowhere, crate::proofs::KeyLemmas::key_unknown, crate::proofs::KeyLemmas::key_unloaded))]
    fn asked(&self, name: Name4, bytes: &[u8]) -> KeyEffect
        ensures value { Asks self.now name bytes.now result }
        ensures sound { IsSound self.now }
    {
        let Some(terminal) = self.terminal(name) else {
            return KeyEffect::Answer(KeyReply::NoSuchTerminal);
        };
        if terminal.task.is_some() {
            if terminal.entry.input.is_some() {
                return KeyEffect::Answer(KeyReply::AlreadyHeldInput);
            }
            return KeyEffect::Hold;
        }
        let tran = terminal.transaction_named(bytes);
        let Some(program) = self.transaction(tran) else {
            return KeyEffect::Answer(KeyReply::NoSuchTransaction);
        };
        let Some(loaded) = self.program(program) else {
            return KeyEffect::Answer(KeyReply::NoSuchTransaction);
        };
        KeyEffect::Attach(Start {
            slot: terminal.entry.slot,
            tran,
            program,
            loaded,
            calen: commarea_kept(&terminal.entry.following).len() as u16,
        })
    }

    /// The terminal of a name.
    fn terminal(&self, name: Name4) -> Option<&Terminal>
        ensures value { option_copied result ≡ terminal_of self.now name }
        ensures sound { IsSound self.now }
    {
        self.terminals.get(&name)
    }

    /// The program's name of a transaction.
    fn transaction(&self, tran: Name4) -> Option<Name8>
        ensures { result ≡ transaction_of self.now tran }
    {
        self.transactions.get(&tran).copied()
    }

    /// Where the program of a name is.
    fn program(&self, name: Name8) -> Option<Loaded>
        ensures { result ≡ program_of self.now name }
    {
        self.shared.programs.get(&name).copied()
    }

    /// Attaches a task.
    fn attach_task(
        &mut self,
        name: Name4,
        aid: Aid,
        bytes: &[u8],
        start: &Start,
    ) -> Result<KeyReply, AllocError>
        requires starting { Starting self.old name bytes.now start.now }
        requires at_most_1920 { length bytes.now ≤ 1920 }
        ensures keyed { IfOk result (λ reply. TakesKey self.old name (input_with aid bytes.now) reply self.new) }
        ensures memory { OnErr result (KeyTakesMemory self.old name (input_with aid bytes.now)) }
        ensures err { OnErr result (self.new ≡ self.old) }
        ensures sound { IsSound self.new }
    {
        let number = next_number(self.counter);
        let new_task = NewTask {
            start: *start,
            number,
            aid,
            bytes,
        };
        let prepared = prepare(&mut self.shared, &new_task)?;
        let Some(ready) = prepared else {
            return Ok(KeyReply::NoStorage);
        };
        let begun = InitialEib {
            time: self.time,
            date: self.date,
            tran: start.tran.bytes(),
            number,
            terminal: name.bytes(),
            calen: start.calen,
            aid: aid.code(),
        };
        fill_from(&mut self.shared, &self.terminals, name, &ready, &begun);
        start_at(&mut self.terminals, name, ready.input, ready.task);
        self.counter = number;
        Ok(KeyReply::Attached)
    }

    /// Holds an input for a terminal's task.
    fn hold_input(&mut self, name: Name4, aid: Aid, bytes: &[u8]) -> Result<(), AllocError>
        requires giving { Giving self.old name }
        requires at_most_1920 { length bytes.now ≤ 1920 }
        ensures keyed { OnOk result (TakesKey self.old name (input_with aid bytes.now) KeyReply.Given self.new) }
        ensures memory { OnErr result (KeyTakesMemory self.old name (input_with aid bytes.now)) }
        ensures err { OnErr result (self.new ≡ self.old) }
        ensures sound { IsSound self.new }
    {
        let input = input_with(self.alloc, aid, bytes)?;
        hold_input_at(&mut self.terminals, name, input);
        Ok(())
    }

    /// A key of a terminal with the bytes that it sends, at most 1,920. CLEAR, PA1 and PA2 send none: theirs are
    /// dropped.
    ///
    /// Without a task, the terminal's next transaction, or that of the bytes before the first blank, at most four, is
    /// attached: Attached; or NoSuchTransaction where it isn't defined, or NoStorage where its areas have no place. The
    /// task begins with its areas at their least places, its EIB and its DFHEISTG, the registers of an entry, the next
    /// number and the input. With a task the input is held for it: Given; or AlreadyHeldInput. NoSuchTerminal where
    /// there is no such terminal. All answers but Attached and Given leave all as before.
    ///
    /// An error comes only where an allocation failed, and only where Attached or Given is due. Then all is as before.
    #[tactic(auto, using(crate::proofs::KeyLemmas::keyed_answer, crate::proofs::EventLemmas::key_memory), unfolding(crate::specs::Attach::input_from))]
    pub fn key(&mut self, name: Name4, aid: Aid, bytes: &[u8]) -> Result<KeyReply, AllocError>
        requires { length bytes.now ≤ 1920 }
        ensures keyed { IfOk result (λ reply. TakesKey self.old name (input_from aid bytes.now) reply self.new) }
        ensures memory { OnErr result (MayTakeMemory self.old (event.Key name aid bytes.now)) }
        ensures err { OnErr result (self.new ≡ self.old) }
        ensures sound { IsSound self.new }
    {
        let sent = bytes_sent(aid, bytes);
        match self.asked(name, sent) {
            KeyEffect::Answer(reply) => Ok(reply),
            KeyEffect::Hold => {
                self.hold_input(name, aid, sent)?;
                Ok(KeyReply::Given)
            }
            KeyEffect::Attach(start) => self.attach_task(name, aid, sent, &start),
        }
    }
}
