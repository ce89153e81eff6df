//! Which abends are kept.
ghost use Rattle.cx_look_abend.specs.Laws.{AbendsAreKept, DumpsAreOfRecords, FieldsAreOfDumps, NotedDecide};

/// An abend as which a turn is answered is kept as its terminal's last one, with its task, its code and why it came;
/// any other turn leaves what is kept.
pub fn abends_are_kept()
    ensures { AbendsAreKept }
{
    cx_region_task::laws::abend_records_explain();
}

/// The state and the kept abends before an event decide its answer, the state after it, and the last abends that are
/// kept then.
pub fn noted_events_decide()
    ensures { NotedDecide }
{
    cx_edf::laws::edf_events_decide();
    cx_region_task::laws::abend_records_explain();
    cx_exec_laws::laws::runs_decide();
}

/// The storage that is kept of a turn's abend is of the machine whose registers are kept: of a command as it found it,
/// else as the turn's instructions left it.
pub fn dumps_are_of_records()
    ensures { DumpsAreOfRecords }
{
    cx_exec_laws::laws::runs_decide();
}

/// What is written of a field of the working storage that is kept, all of whose bytes are among those, is what FIELD
/// writes of it in the storage at the abend.
pub fn fields_are_of_dumps()
    ensures { FieldsAreOfDumps }
{
    cx_look_fields::laws::kept_fields_are_of_storage();
}
