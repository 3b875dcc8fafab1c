//! Laws of what documents say, each a function with an empty body whose clauses are the laws.

ghost use Rattle.dv_reader.specs.Laws.{SaysOneAtMost, RefusedForOneReason, RefusedSaysNone};
ghost use Rattle.dv_reader.specs.Laws.{SaysOrIsRefused, ParentsOfScriptsStandBefore};
ghost use Rattle.dv_reader.specs.Laws.{PathsOfScriptsGoUp, TimesAreKept};

/// A document says a script or is refused, one of the two, and says no other script. What is
/// refused, a document or not, is so for one reason, out of memory aside.
pub fn documents_say_one_script_or_are_refused()
    ensures one { SaysOneAtMost }
    ensures either { SaysOrIsRefused }
    ensures never_both { RefusedSaysNone }
    ensures reason { RefusedForOneReason }
{}

/// In the table of a script each class's parent stands before it, so that the path of a class is
/// the class and then the path of its parent.
pub fn the_paths_of_a_script_go_up()
    ensures ordered { ParentsOfScriptsStandBefore }
    ensures paths { PathsOfScriptsGoUp }
{}

/// The world cuts a delay and an interval to 10^12 ticks, an interval to no less than 1, and the
/// time of its clock to 10^15. In a script that is read this changes nothing.
pub fn times_of_scripts_are_kept()
    ensures { TimesAreKept }
{}
