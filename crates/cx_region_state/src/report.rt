//! What a command reports: in the EXEC interface block, and then in RESP's word.
ghost use Rattle.std.specs.Prelude.{◌≡◌, ◌<◌, ◌^◌, Some, None, IfSome, [], ◌∷◌, option_map};
ghost use Rattle.std.specs.Int.{to_be_bytes, w32};
ghost use Rattle.cx_region_state.specs.Report.{with_report, resource_of, with_eib, with_set};
ghost use Rattle.cx_region_state.specs.Outputs.{with_output};

use crate::call::Call;
use crate::eib::{put, put_calen};
use crate::inputs::name8;
use cx_base::{EibField, OptionName};
use cx_ebcdic::Name8;
use cx_storage::Store;

/// What a command reports in the EIB and in RESP's word.
#[derive(Clone, Copy)]
pub struct CommandReport {
    /// The function value of the command after which the program goes on.
    pub function: u16,
    /// The number of the condition that it met.
    pub condition: u8,
    /// The resource that EIBRSRCE names, where the command has one.
    pub resource: Option<Name8>,
    /// The EIBAID that the command sets, if it sets one: the code of a key.
    pub aid: Option<u8>,
    /// The EIBCALEN that it sets, if it sets one.
    pub calen: Option<u16>,
}

/// The resource that EIBRSRCE names: the program or the queue of the commands that have one. None for all other
/// commands, and where one of the name's bytes is in no area.
#[tactic(auto, unfolding(crate::specs::Report::resource_of))]
pub fn resource<S: Store>(store: &S, call: &Call) -> Option<Name8>
    ensures { result ≡ resource_of (S.storage store.now) call.now }
{
    let program = name8(store, call, OptionName::Program);
    let queue = name8(store, call, OptionName::Queue);
    program.or(queue)
}

/// Writes EIBRSRCE, where the command has a resource.
#[tactic(auto, unfolding(crate::specs::Report::with_set))]
fn put_resource<S: Store>(store: &mut S, eib: u32, resource: Option<Name8>)
    requires { eib < 2 ^ 24 }
    ensures { S.storage store.new ≡ with_set (S.storage store.old) eib EibField.Rsrce resource }
{
    if let Some(resource) = resource {
        put(store, eib, EibField::Rsrce, &resource.bytes());
    }
}

/// Writes EIBAID, where the command sets it.
#[tactic(auto, unfolding(crate::specs::Report::with_set))]
fn put_aid<S: Store>(store: &mut S, eib: u32, aid: Option<u8>)
    requires { eib < 2 ^ 24 }
    ensures { S.storage store.new
        ≡ with_set (S.storage store.old) eib EibField.Aid (option_map (λ byte. byte ∷ []) aid) }
{
    if let Some(aid) = aid {
        put(store, eib, EibField::Aid, &[aid]);
    }
}

/// Writes the fields of the EIB that a command reports in.
#[tactic(auto, unfolding(crate::specs::Report::with_eib))]
fn put_eib<S: Store>(store: &mut S, eib: u32, answer: &CommandReport)
    requires { eib < 2 ^ 24 }
    ensures { S.storage store.new ≡ with_eib (S.storage store.old) eib answer.now }
{
    put(store, eib, EibField::Fn, &answer.function.to_be_bytes());
    put(
        store,
        eib,
        EibField::Rcode,
        &[answer.condition, 0, 0, 0, 0, 0],
    );
    put(
        store,
        eib,
        EibField::Resp,
        &u32::from(answer.condition).to_be_bytes(),
    );
    put_resource(store, eib, answer.resource);
    put_aid(store, eib, answer.aid);
    put_calen(store, eib, answer.calen);
}

/// Writes a command's report: into the EIB at an address (below 2^24) EIBFN, EIBRCODE and EIBRESP, and EIBRSRCE, EIBAID
/// and EIBCALEN where the command sets them; then RESP's word, over whatever is there. Each is written where all its
/// bytes are in storage. No other byte changes.
#[tactic(auto, unfolding(crate::specs::Report::with_report))]
pub fn put_report<S: Store>(store: &mut S, eib: u32, call: &Call, answer: &CommandReport)
    requires { eib < 2 ^ 24 }
    ensures { S.storage store.new ≡ with_report (S.storage store.old) eib call.now answer.now }
{
    put_eib(store, eib, answer);
    if let Some(place) = call.resp() {
        store.write(place, &u32::from(answer.condition).to_be_bytes());
    }
}
