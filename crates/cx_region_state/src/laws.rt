//! What holds of every argument list.
ghost use Rattle.cx_region_state.specs.Laws.Calls.{ArgumentsHavePlaces, CallIsRead, LabelsHavePlaces, RespHasItsPlace};

/// In sound storage a call is read exactly where the argument list there is that of the call: its block, the conditions
/// that it lists, and a word for each of its addresses, of which the last alone has its high bit set.
pub fn call_is_read()
    ensures { CallIsRead }
{
    cx_base::laws::commands_are_found();
}

/// The address of each present option that has an argument, of each condition's label, and of RESP, is the one in its
/// word of the list.
pub fn arguments_have_places()
    ensures options { ArgumentsHavePlaces }
    ensures labels { LabelsHavePlaces }
    ensures resp { RespHasItsPlace }
{
    cx_base::laws::arguments_are_found_by_name();
}
