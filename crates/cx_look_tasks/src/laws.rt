//! Who is reported as waiting, and that each text is one.
ghost use Rattle.cx_look_tasks.specs.Laws.{ActivitiesDecide, ResourcesTextsDecide, TasksTextsDecide, WaitsAreReported, WaitsTextsDecide};

/// A terminal is reported as waiting exactly where its next turn would be answered Waiting.
pub fn waits_are_reported()
    ensures { WaitsAreReported }
{
    cx_region_task::laws::decisions_decide();
}

/// A region and a terminal of it determine what the terminal's task is doing.
pub fn activities_decide()
    ensures { ActivitiesDecide }
{
    cx_region_task::laws::decisions_decide();
}

/// Each region has one text of its tasks, one of those that wait, and one of its resources.
pub fn texts_decide()
    ensures tasks { TasksTextsDecide }
    ensures waits { WaitsTextsDecide }
    ensures resources { ResourcesTextsDecide }
{
    activities_decide();
}
