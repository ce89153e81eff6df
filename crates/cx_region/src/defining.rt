//! A region, and what is defined in it.
ghost use Rattle.std.specs.Prelude.{◌≡◌, ◌≢◌, Ok, Err, IfErr, MatchBool, ◌≤◌, ◌<◌, ◌+◌, [], None, IfOk, OnErr, OnOk, IsErrOf, IsOkUnless, MatchOption, length};
ghost use Rattle.std.specs.List.{IsDistinct};
ghost use Rattle.std.specs.Result.{result_err};
ghost use Rattle.std.specs.Map.{keys_of};
ghost use Rattle.indexmap.specs.IndexMap.{insert_entry};
ghost use Rattle.cx_storage.specs.Storage.{IsSoundStorage};
ghost use Rattle.cx_load.specs.Program.{IsLoaded, IsProgramPlace};
ghost use Rattle.cx_ebcdic.specs.Names.{is_name};
ghost use Rattle.cx_region.specs.Defining.{DefinesProgram, fresh_region, program_fault, terminal_fault, transaction_fault};
ghost use Rattle.cx_region.specs.Parts.Loading.{MatchLoadRefusal};
ghost use Rattle.cx_load.specs.Fault.{IsFit};
ghost use Rattle.cx_region_state.specs.Areas.{IsSoundProgram};
ghost use Rattle.cx_region.specs.Events.{MayTakeMemory};
ghost use Rattle.cx_region.specs.declared.replies.Event.TheVariants as event;
ghost use Rattle.cx_region.specs.Sound.{IsSound};
ghost use Rattle.cx_region.specs.Tables.{fresh_terminal};

use crate::replies::DefineFault;
use crate::state::{Region, Terminal};
use cx_ebcdic::{Name4, Name8};
use cx_load::{CheckedImage, Loaded, load};
use cx_region_state::Shared;
use cx_service::{Enqueues, Queues};
use cx_storage::laws::store_is_sound;
use cx_storage::{Kind, Owner, Store};
use indexmap::IndexMap;
use std::alloc::{AllocError, Global};

/// The most programs, transactions and terminals.
const MOST_PROGRAMS: usize = 64;

const MOST_TRANSACTIONS: usize = 64;

const MOST_TERMINALS: usize = 16;

/// The address and the length of the common work area, and its last address.
const CWA: u32 = 0x00_1000;

const CWA_LEN: u32 = 512;

const CWA_LAST: u32 = 0x00_11FF;

/// The owner of what is the region's own.
const REGION_OWNER: Owner = Owner {
    slot: 0,
    kind: Kind::Fixed,
};

impl<S: Store + Drop> Region<S> {
    /// A region without programs, transactions and terminals, over an empty store. The common work area of 512 bytes
    /// is at X'001000'; the clock is 000000 and 00000.
    ///
    /// An error comes only where an allocation failed; the store is dropped then.
    pub fn new(alloc: Global, store: S) -> Result<Region<S>, AllocError>
        requires { S.storage store ≡ [] }
        ensures fresh { IfOk result (λ region. region ≡ fresh_region) }
        ensures sound { IfOk result IsSound }
    {
        let mut store = store;
        place_cwa(&mut store)?;
        let queues = Queues::new(alloc)?;
        let enqueues = Enqueues::new(alloc)?;
        Ok(Region {
            alloc,
            shared: Shared {
                alloc,
                store,
                programs: IndexMap::new(alloc),
                queues,
                enqueues,
            },
            transactions: IndexMap::new(alloc),
            terminals: IndexMap::new(alloc),
            time: 0,
            date: 0,
            counter: 0,
        })
    }

    /// Sets the clock, for the tasks attached later: the time as hhmmss (at most 999,999) and the date as yyddd (at
    /// most 99,999). It takes no memory.
    pub fn set_clock(&mut self, time: u32, date: u32)
        requires time { time ≤ 999999 }
        requires date { date ≤ 99999 }
        ensures set { self.new ≡ record self.old { time = time; date = date } }
        ensures sound { IsSound self.new }
    {
        self.time = time;
        self.date = date;
    }

    /// Loads a program and defines it by its name. It stays, and all tasks share it.
    ///
    /// Duplicate comes where the name is defined; then Full where 64 programs are defined; then NoRoom where
    /// storage has no place for it from X'010000' to X'1FFFFF'; then Memory where an allocation failed. Then all is
    /// as before.
    #[tactic(auto, unfolding(crate::specs::Defining::DefinesProgram, crate::specs::Events::MayTakeMemory))]
    pub fn define_program(
        &mut self,
        name: Name8,
        image: &CheckedImage,
    ) -> Result<Loaded, DefineFault>
        ensures defined { IfOk result (λ loaded. DefinesProgram self.old name image.now (Ok loaded) self.new) }
        ensures refused { IfErr result (λ fault. fault ≢ DefineFault.Memory
            → DefinesProgram self.old name image.now (Err fault) self.new) }
        ensures memory { IsErrOf result DefineFault.Memory → MayTakeMemory self.old (event.Program name image.now) }
        ensures err { OnErr result (self.new ≡ self.old) }
        ensures sound { IsSound self.new }
    {
        self.can_define_program(name)?;
        let loaded = load_into(&mut self.shared, name, image)?;
        Ok(loaded)
    }

    /// The refusal of a program that its name or the limit gives.
    #[tactic(auto, unfolding(crate::specs::Defining::program_fault))]
    fn can_define_program(&self, name: Name8) -> Result<(), DefineFault>
        ensures value { result_err result ≡ program_fault self.now name }
        ensures no_memory { IfErr result (λ fault. fault ≢ DefineFault.Memory) }
    {
        if self.shared.programs.contains_key(&name) {
            return Err(DefineFault::Duplicate);
        }
        if self.shared.programs.len() >= MOST_PROGRAMS {
            return Err(DefineFault::Full);
        }
        Ok(())
    }

    /// Defines a transaction by its name and that of its program.
    ///
    /// Duplicate comes where the name is defined; then Full where 64 transactions are defined; then NoProgram where the
    /// program isn't defined; then Memory where an allocation failed. Then all is as before.
    pub fn define_transaction(&mut self, name: Name4, program: Name8) -> Result<(), DefineFault>
        ensures defined { let transactions = insert_entry is_name self.old.transactions name program in
            OnOk result (self.new ≡ record self.old { transactions = transactions }) }
        ensures refused { MatchOption (transaction_fault self.old name program)
            (IsOkUnless result DefineFault.Memory) (IsErrOf result) }
        ensures err { OnErr result (self.new ≡ self.old) }
        ensures sound { IsSound self.new }
    {
        self.can_define_transaction(name, program)?;
        put_transaction(&mut self.transactions, name, program)?;
        Ok(())
    }

    /// The refusal of a transaction that its names or the limit give.
    #[tactic(auto, unfolding(crate::specs::Defining::transaction_fault))]
    fn can_define_transaction(&self, name: Name4, program: Name8) -> Result<(), DefineFault>
        ensures { result_err result ≡ transaction_fault self.now name program }
    {
        if self.transactions.contains_key(&name) {
            return Err(DefineFault::Duplicate);
        }
        if self.transactions.len() >= MOST_TRANSACTIONS {
            return Err(DefineFault::Full);
        }
        if !self.shared.programs.contains_key(&program) {
            return Err(DefineFault::NoProgram);
        }
        Ok(())
    }

    /// Defines a terminal by its name: with a blank screen, no input, no next transaction and no task.
    ///
    /// Duplicate comes where the name is defined; then Full where 16 terminals are defined; then Memory
    /// where an allocation failed. Then all is as before.
    pub fn define_terminal(&mut self, name: Name4) -> Result<(), DefineFault>
        ensures defined { OnOk result (self.new ≡ record self.old {
          terminals = insert_entry is_name self.old.terminals name (fresh_terminal (length self.old.terminals + 1));
        }) }
        ensures refused { MatchOption (terminal_fault self.old name)
            (IsOkUnless result DefineFault.Memory) (IsErrOf result) }
        ensures err { OnErr result (self.new ≡ self.old) }
        ensures sound { IsSound self.new }
    {
        self.can_define_terminal(name)?;
        put_terminal(&mut self.terminals, name)?;
        Ok(())
    }

    /// The refusal of a terminal that its name or the limit gives.
    #[tactic(auto, unfolding(crate::specs::Defining::terminal_fault))]
    fn can_define_terminal(&self, name: Name4) -> Result<(), DefineFault>
        ensures { result_err result ≡ terminal_fault self.now name }
    {
        if self.terminals.contains_key(&name) {
            return Err(DefineFault::Duplicate);
        }
        if self.terminals.len() >= MOST_TERMINALS {
            return Err(DefineFault::Full);
        }
        Ok(())
    }
}

/// Places the common work area in an empty store.
#[tactic(auto, using(crate::proofs::FreshLemmas::cwa_place))]
fn place_cwa<S: Store>(store: &mut S) -> Result<(), AllocError>
    requires { S.storage store.old ≡ [] }
    ensures { OnOk result (S.storage store.new ≡ fresh_region.shared.storage) }
{
    store.get_area(CWA, CWA_LAST, CWA_LEN, REGION_OWNER)?;
    Ok(())
}

/// Puts a new terminal last.
fn put_terminal(terminals: &mut IndexMap<Name4, Terminal>, name: Name4) -> Result<(), AllocError>
    requires { length terminals.old.entries < 16 }
    ensures put { OnOk result (terminals.new.entries
        ≡ insert_entry is_name terminals.old.entries name (fresh_terminal (length terminals.old.entries + 1))) }
    ensures distinct { OnOk result (IsDistinct is_name (keys_of terminals.new.entries)) }
    ensures err { OnErr result (terminals.new.entries ≡ terminals.old.entries) }
{
    let slot = (terminals.len() + 1) as u8;
    terminals.insert(name, Terminal::new(slot))?;
    Ok(())
}

/// Puts a new transaction last.
fn put_transaction(
    transactions: &mut IndexMap<Name4, Name8>,
    name: Name4,
    program: Name8,
) -> Result<(), AllocError>
    ensures put { OnOk result
        (transactions.new.entries ≡ insert_entry is_name transactions.old.entries name program) }
    ensures distinct { OnOk result (IsDistinct is_name (keys_of transactions.new.entries)) }
    ensures err { OnErr result (transactions.new.entries ≡ transactions.old.entries) }
{
    transactions.insert(name, program)?;
    Ok(())
}

/// Loads a program, and puts it last. NoRoom comes exactly where storage has no place for it, before Memory.
#[tactic(auto, using(cx_storage::specs::Facts::Places::place_decides, crate::specs::Facts::SoundDefining::sound_loaded))]
fn load_program<S: Store>(
    alloc: Global,
    store: &mut S,
    programs: &mut IndexMap<Name8, Loaded>,
    name: Name8,
    image: &CheckedImage,
) -> Result<Loaded, DefineFault>
    ensures fit { IsFit image.now }
    ensures good { IfOk result IsSoundProgram }
    ensures loaded { IfOk result (λ loaded. IsLoaded (S.storage store.old) image.now loaded (S.storage store.new)) }
    ensures put { IfOk result
        (λ loaded. programs.new.entries ≡ insert_entry is_name programs.old.entries name loaded) }
    ensures distinct { OnOk result (IsDistinct is_name (keys_of programs.new.entries)) }
    ensures refused { IfErr result (λ fault. MatchLoadRefusal (S.storage store.old) (length image.now.text) fault) }
    ensures store_stays { OnErr result (S.storage store.new ≡ S.storage store.old) }
    ensures programs_stay { OnErr result (programs.new.entries ≡ programs.old.entries) }
{
    if !has_room(store, image) {
        return Err(DefineFault::NoRoom);
    }
    programs.reserve(1)?;
    let loaded = load(alloc, image, store)?;
    programs.insert(name, loaded)?;
    Ok(loaded)
}

/// Loads a program into what tasks share.
fn load_into<S: Store + Drop>(
    shared: &mut Shared<S>,
    name: Name8,
    image: &CheckedImage,
) -> Result<Loaded, DefineFault>
    ensures fit { IsFit image.now }
    ensures good { IfOk result IsSoundProgram }
    ensures loaded { IfOk result (λ loaded. IsLoaded shared.old.storage image.now loaded shared.new.storage) }
    ensures put { IfOk result
        (λ loaded. shared.new.programs ≡ insert_entry is_name shared.old.programs name loaded) }
    ensures distinct { OnOk result (IsDistinct is_name (keys_of shared.new.programs)) }
    ensures queues { shared.new.queues ≡ shared.old.queues }
    ensures resources { shared.new.resources ≡ shared.old.resources }
    ensures refused { IfErr result (λ fault. MatchLoadRefusal shared.old.storage (length image.now.text) fault) }
    ensures err { OnErr result (shared.new ≡ shared.old) }
    ensures sound { IsSoundStorage shared.new.storage }
{
    let result = load_program(
        shared.alloc,
        &mut shared.store,
        &mut shared.programs,
        name,
        image,
    );
    store_is_sound(&shared.store);
    result
}

/// Whether storage has a place for a program.
fn has_room<S: Store>(store: &S, image: &CheckedImage) -> bool
    ensures room { MatchBool result (IsProgramPlace (S.storage store.now) (length image.now.text) None → ⊥)
        (IsProgramPlace (S.storage store.now) (length image.now.text) None) }
    ensures fit { IsFit image.now }
{
    let len = image.image().text.as_slice().len() as u32;
    cx_load::has_room(store, len)
}
