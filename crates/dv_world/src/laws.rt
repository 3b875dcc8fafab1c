//! Laws of the definitions, each a function with an empty body whose clauses are the laws.

ghost use Rattle.dv_world.specs.Laws.{TasksEndOnce, EndedTasksAreLeftAlone, TurnsHaveTheirBodies};

/// A task that has ended stays as it has ended, whatever is done; where it is to end again, nothing
/// is logged, and nobody is answered.
pub fn tasks_end_once()
    ensures stays { TasksEndOnce }
    ensures again { EndedTasksAreLeftAlone }
{}

/// Each turn of a loop has its body: the first turn the first one, each turn after it the next one,
/// and from the last one on that.
pub fn turns_have_their_bodies()
    ensures { TurnsHaveTheirBodies }
{}
