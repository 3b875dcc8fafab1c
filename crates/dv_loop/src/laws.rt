//! Laws of the meaning, each a function with an empty body whose clauses are the laws.

ghost use Rattle.dv_loop.specs.Laws.{FramesEnd, FramesHaveOneResult, StoppedWorldsStay};
ghost use Rattle.dv_loop.specs.Laws.{StoppedActionsStay, EveryScriptEnds, EachScriptHasOneMeaning};
ghost use Rattle.dv_loop.specs.Defined.{ScriptsMeanWhatIsDefined, ActionsMeanWhatIsDefined};
ghost use Rattle.dv_loop.specs.Defined.{BodiesMeanWhatIsDefined, CancelsMeanWhatIsDefined};
ghost use Rattle.dv_loop.specs.Defined.{SettlingMeansWhatIsDefined, OccurrencesMeanWhatIsDefined};
ghost use Rattle.dv_loop.specs.Defined.{RunsMeanWhatIsDefined, EveryScriptLeads};
ghost use Rattle.dv_loop.specs.Defined.{EachScriptLeadsToOneWorld};

/// Frames end, and in one way; in a world that has stopped neither they nor an action change
/// anything.
pub fn frames_end()
    ensures ends { FramesEnd }
    ensures one { FramesHaveOneResult }
    ensures stopped { StoppedWorldsStay }
    ensures actions { StoppedActionsStay }
{}

/// Every script leads to a world, and to one only.
pub fn scripts_end()
    ensures ends { EveryScriptEnds }
    ensures one { EachScriptHasOneMeaning }
{}

/// A script leads to a world by its frames if and only if it leads there by the definition; by the
/// definition every script leads to a world, and to one only.
pub fn scripts_mean_what_is_defined()
    ensures defined { ScriptsMeanWhatIsDefined }
    ensures ends { EveryScriptLeads }
    ensures one { EachScriptLeadsToOneWorld }
{}

/// Nor is there a difference in what an action, a body, a cancel and a settling give, in any world.
pub fn parts_mean_what_is_defined()
    ensures actions { ActionsMeanWhatIsDefined }
    ensures bodies { BodiesMeanWhatIsDefined }
    ensures cancels { CancelsMeanWhatIsDefined }
    ensures settling { SettlingMeansWhatIsDefined }
{}

/// Nor in what an engine makes of an event and of a post, and of several, one after the other: the
/// batch of a drain after the drain, and the last batch.
pub fn calls_mean_what_is_defined()
    ensures occurrences { OccurrencesMeanWhatIsDefined }
    ensures runs { RunsMeanWhatIsDefined }
{}
