//! The headline, one public function for each clause. They hold of every list of events under EDF, and of every script
//! that ran, by the very record that `run_script` ensures of it.

ghost use Rattle.cx_asm_laws.specs.Laws.Again.{AssemblesAgain};
ghost use Rattle.cx_asm_laws.specs.Laws.Back.{ComesBack};
ghost use Rattle.cx_edf.specs.Laws.Outcomes.{EdfEventListsAreRuns};
ghost use Rattle.cx_edf.specs.Laws.Watched.{RunsCanBeWatched};
ghost use Rattle.cx_headline.specs.Laws.Choices.{ChoicesAreTrue, ChoicesBlocksAreTrue, ListsLeadThere};
ghost use Rattle.cx_headline.specs.Laws.Due.{AlwaysKeepsWhatIsDue, EventsKeepWhatIsDue, KeepsWhatIsDue, RunsKeepWhatIsDue, StillKeepsWhatIsDue};
ghost use Rattle.cx_headline.specs.Laws.Entries.{EntriesHoldTheirBases, TasksBeginSo};
ghost use Rattle.cx_headline.specs.Laws.Looks.{ScriptsAreLookedOver};
ghost use Rattle.cx_headline.specs.Laws.Orders.{BlocksAreTrue, LinesLeadThere, OrdersAreTrue};
ghost use Rattle.cx_headline.specs.Laws.Pointers.{PointersAreGiven};
ghost use Rattle.cx_headline.specs.Laws.Rows.{EachIsItsRow};
ghost use Rattle.cx_headline.specs.Laws.Runs.{OfEachRun, OfEachScript};
ghost use Rattle.cx_headline.specs.Laws.Sources.{BlocksComeBack};
ghost use Rattle.cx_headline.specs.Laws.Watching.{IsAsUnwatched, ShowingChangesNothing};
ghost use Rattle.cx_look_script.specs.Laws.Choices.{ChoicesAreReportedOnce};
ghost use Rattle.cx_look_script.specs.Laws.Looks.{LooksAreMarked, LooksAreReportedOnce, LooksChangeNothing};
ghost use Rattle.cx_look_script.specs.Laws.Orders.{OrdersAreReportedOnce};
ghost use Rattle.cx_look_script.specs.Laws.Outcomes.{LookInputsDecide};
ghost use Rattle.cx_region.specs.Defining.{fresh_region};

use cx_look_steps::Seen;
use cx_storage::Store;

/// Each event of a run changes the region exactly as its row says. A turn is one half-turn of the terminal's task: the
/// instructions up to its next command, or that command. The region has the task and what it reaches as the half-turn
/// left them, and all else is as before. An event that EDF answers itself leaves the region, except a PF12 that ends a
/// task, which is that alteration.
pub fn every_half_turn_is_its_row()
    ensures runs { OfEachRun EachIsItsRow }
    ensures scripts { OfEachScript EachIsItsRow }
{
    cx_region_task::laws::half_turns_decide();
    cx_edf::laws::what_is_erased_changes_nothing();
    cx_script::laws::a_script_runs_its_events();
}

/// Assembling an accepted source and disassembling its text by the places of its instructions gives what is in its
/// control section: its statements, resolved. In a script that is what DISASM writes of a block, read, translated and
/// assembled. These lines, with gaps as DS, are assembled again to the same text.
pub fn what_was_assembled_comes_back()
    ensures sources { ComesBack }
    ensures scripts { BlocksComeBack }
    ensures again { AssemblesAgain }
{
    cx_asm_laws::laws::what_was_assembled_comes_back();
    cx_asm_laws::laws::a_disassembly_is_assembled_again();
}

/// Under EDF, begun, ended and shown anywhere, the region after each event is that of a plain run of the events that
/// are left without EDF, whatever a display is. Where nothing was altered these are exactly the events that the region
/// answered, except refused alterations, in their order, each as it was given; and with EDF Off everywhere they are
/// answered so, and lead to that region, and in no other way.
pub fn watching_changes_nothing()
    ensures runs { OfEachRun IsAsUnwatched }
    ensures scripts { OfEachScript IsAsUnwatched }
    ensures shown { ShowingChangesNothing }
{
    cx_region_laws::laws::runs_decide();
    cx_edf::laws::single_events_are_a_run();
    cx_edf::laws::what_is_left_is_a_run();
    cx_edf::laws::what_is_erased_changes_nothing();
    cx_edf::laws::off_is_the_region();
    cx_script::laws::a_script_runs_its_events();
}

/// There are such runs. Each list of events, images checked, is a run under EDF, from every state. And each run of the
/// region without alterations can be watched: with EDF ON given at any terminals before any of its events, and ENTER at
/// each that meets its terminal stopped, it is what is left of a run under EDF.
pub fn there_are_runs()
    ensures runs { EdfEventListsAreRuns }
    ensures watched { RunsCanBeWatched }
{
    cx_edf::laws::each_event_has_an_outcome();
    cx_edf::laws::every_run_can_be_watched();
}

/// A look changes nothing. In each run of a script with looks each action has a part: one of `cicsedf` stands for
/// itself, RUN for the turns that it did, and a look for nothing. What they stand for, in order, is a run of `cicsedf`
/// from the same state to the same state, and the text is that run's, with each look's at its place. A look's text is a
/// function of the state there, and is lines that begin with `> `, with no other LF than that at their ends. And what
/// the reads give decides the answer of a run of `cicslook` and its transcript, in whatever pieces they give it.
pub fn looking_changes_nothing()
    ensures runs { LooksChangeNothing }
    ensures scripts { ScriptsAreLookedOver }
    ensures reported { LooksAreReportedOnce }
    ensures marked { LooksAreMarked }
    ensures decided { LookInputsDecide }
{
    cx_look_script::laws::looks_change_nothing();
    cx_look_script::laws::looks_are_reported_once();
    cx_look_script::laws::looks_are_marked();
    cx_look_script::laws::a_transcript_is_one();
    cx_script::laws::a_script_runs_its_events();
}

/// No order is missed. Where ORDERS finds all states, each list of turns and keys that ends at rest, of whatever
/// length, ends with one of the outcomes that are written; else each list of so many moves as were tried. Each
/// outcome is real: its steps end at rest, what is seen there is its text, their turns and keys lead there in
/// `cicsedf` with EDF Off too, no other list is sooner, and what is written of each turn is told of it. No text
/// stands twice. SOME NEVER REST and SOME CANNOT REST stand exactly where that is so. All of this holds whatever is
/// to be seen of a region and told of a turn, and whether keys come where an operator could press them or are typed
/// ahead; and so of a block of ORDERS.
///
/// The lines that are written of steps are read as lines of a script, and ask for EDF OFF where EDF is on, and then for
/// the steps' turns, by RUN with their number, and keys, in their order. Done one after another, wherever a script may
/// be, they lead to the region to which the steps lead, of which screens and looks show there what they show of the
/// outcome; but TERMINALS, which shows EDF. And of a region in which no two terminals share a name, as in each state of
/// a script, what is written for a block is one text.
pub fn no_order_is_missed<S: Store + Drop, V: Seen<S>>()
    ensures missed { (seen : V) → OrdersAreTrue (V.shows seen) (V.tells seen) }
    ensures blocks { BlocksAreTrue }
    ensures led { LinesLeadThere }
    ensures reported { OrdersAreReportedOnce }
{
    cx_edf::laws::off_is_the_region();
    cx_look::laws::keys_are_asked_by_their_lines();
    cx_look_steps::laws::steps_are_runs();
    cx_look_steps::laws::scripts_ask_for_steps();
    cx_look_orders::laws::loops_are_endless();
    cx_look_script::laws::scripts_lead_there();
    cx_look_script::laws::scripts_name_their_terminals();
    cx_look_script::laws::orders_are_reported_once();
    cx_search::laws::one_list_is_sooner();
}

/// No list of keys is missed. Unless CHOICES writes MORE THAN, each list of at most as many keys as were asked for leads
/// to one of the states that are written; else each list of as many as it says, and lists of one key more lead to more
/// states than may be kept. Each state is real: its keys and turns lead there, what is seen there is its text, and no
/// other list that leads there is sooner. No state stands twice, and no text. Each key that can be pressed in a state
/// has its arrow, which goes to the state that the key leads to, or to MORE where that isn't written; no other key has
/// one. Where numbers don't show, CLOSED stands exactly where no list of keys, of whatever length, leads elsewhere, and no
/// arrow goes to MORE then. All of this holds whatever is to be seen of a region, and so of a block of CHOICES, for which
/// one text is written.
///
/// Without one number all of this is said of the region itself, where numbers never show: the run of a state's keys and
/// turns leads it to that very state, in `cicsedf` with EDF Off too. With one number it is said of another region, where
/// each key begins with that number; where the lists that are written lead the region itself is said by
/// `cx_look_choices::laws::lists_lead_to_what_is_written`.
///
/// The lines that are written of a list are read as lines of a script, and ask for EDF OFF where EDF is on, and then for
/// the list's keys and, by RUN with their number, the turns that follow each, in their order. Without one number, done
/// one after another, wherever a script may be, they lead to the region of the state that they are written of.
pub fn no_choice_is_missed<S: Store + Drop, V: Seen<S>>()
    ensures missed { (seen : V) → ChoicesAreTrue (V.shows seen) }
    ensures blocks { ChoicesBlocksAreTrue }
    ensures led { ListsLeadThere }
    ensures reported { ChoicesAreReportedOnce }
{
    cx_edf::laws::off_is_the_region();
    cx_look::laws::keys_are_asked_by_their_lines();
    cx_look_choices::laws::presses_are_runs();
    cx_look_steps::laws::scripts_ask_for_steps();
    cx_look_script::laws::choices_are_reported_once();
    cx_look_script::laws::scripts_lead_there();
    cx_look_script::laws::scripts_name_their_terminals();
}

/// A premise of an EXEC statement's arrival: where a program is entered, at attach, by LINK and by XCTL, the registers
/// that the translator's USING statements name hold what these say: the entry's address, that of DFHEISTG and that of
/// the EXEC interface block.
#[tactic(auto, using(crate::proofs::EntryLemmas::entries_hold_their_bases, crate::proofs::EntryLemmas::tasks_begin_so))]
pub fn entries_hold_their_bases()
    ensures entries { EntriesHoldTheirBases }
    ensures tasks { TasksBeginSo }
{}

/// Wherever a command is due, the task's current level keeps the registers and the condition code that its program has
/// at the command. So it is in a fresh region, and after each event of one in which it is so: definitions, the clock,
/// keys, turns and alterations. So it is after each event of a run under EDF that begins in such a region, and in every
/// state of a script.
pub fn what_is_due_is_kept()
    ensures fresh { KeepsWhatIsDue fresh_region }
    ensures events { EventsKeepWhatIsDue }
    ensures runs { RunsKeepWhatIsDue }
    ensures watched { OfEachRun StillKeepsWhatIsDue }
    ensures scripts { OfEachScript AlwaysKeepsWhatIsDue }
{
    cx_region_laws::laws::half_turns_leave_callers();
    cx_region_laws::laws::an_alteration_keeps_to_its_task();
    cx_edf::laws::single_events_are_a_run();
    cx_edf::laws::what_is_left_is_a_run();
    cx_script::laws::a_script_runs_its_events();
}

/// A pointer that a command gives comes back to its program, from the EXEC statement on: where the statement's
/// instructions have come to the command, and a half-turn has performed it, the program goes on at the pointer's load,
/// and that load gives the register named in SET or CWA the very pointer that the command wrote, and leaves all else.
/// So it is of each EXEC statement of an accepted translation that is loaded, if the register is an operand by itself;
/// the load's four bytes are as loaded still; DFHEITP's base register held its base at the statement, and is none of 1,
/// 14 and 15, which the call sets; and no output after the pointer, the EIB or RESP's word has one of the pointer's
/// four addresses.
pub fn a_pointer_comes_back()
    ensures { PointersAreGiven }
{
    cx_base::laws::arguments_are_found_by_name();
    cx_region_laws::laws::a_pointer_stays();
}
