//! Laws of the table of classes, each a function with an empty body whose clause is the law.

ghost use Rattle.dv_value.specs.Builtin.{builtin, later_builtin};
ghost use Rattle.dv_value.specs.Laws.{DeclaredClassesKeepTheOrder, PathsOfOrderedTablesGoUp};
ghost use Rattle.dv_value.specs.Laws.{PathsGoUp, BuiltinsHaveTheirPlaces, FindsTheFirst};
ghost use Rattle.dv_value.specs.Laws.{NamesAreDistinct};

/// Where each class's parent stands before it, the path of a class is the class and then the path
/// of its parent.
pub fn paths_go_up()
    ensures { PathsOfOrderedTablesGoUp }
{}

/// The classes that every script has are such a table.
pub fn builtin_paths_go_up()
    ensures { PathsGoUp builtin }
{}

/// And so are those that every later script has.
pub fn later_paths_go_up()
    ensures { PathsGoUp later_builtin }
{}

/// A table in which each class's parent stands before it is such a table still once a class is
/// declared.
pub fn declared_classes_keep_the_order()
    ensures { DeclaredClassesKeepTheOrder }
{}

/// The classes that rules name stand where the rules look for them.
pub fn builtins_have_their_places()
    ensures { BuiltinsHaveTheirPlaces }
{}

/// A name finds the first class of that name, and nothing where there is none.
pub fn the_first_of_a_name_is_found()
    ensures { FindsTheFirst }
{}

/// No two of the classes that every script has share a name.
pub fn builtin_names_are_distinct()
    ensures { NamesAreDistinct builtin }
{}

/// And no two of those that every later script has do.
pub fn later_names_are_distinct()
    ensures { NamesAreDistinct later_builtin }
{}
