ghost use Rattle.std.specs.Prelude.{◌≡◌};
ghost use Rattle.dv_reader.specs.Texts.{refusal_number, refusal_name, refusal_text};

use dv_forms::shape_fault::ShapeFault;
use thiserror::Error;

/// Why a script is refused: the least of these of which the condition holds.
#[derive(Clone, Copy, Debug, PartialEq, Eq, Drop, Error)]
#[error("{}", refusal_text(*self))]
pub enum ScriptFault {
    /// It has more than 1,048,576 bytes, or in version 3 more than 67,108,864.
    TooLong,
    /// It isn't JSON in UTF-8, or it nests too deeply.
    NotJson,
    /// It isn't an object, or its `version` is absent or isn't the integer 1, 2 or 3.
    BadVersion,
    /// It is outside the grammar, or a number is outside its range.
    BadShape,
    /// It has more than 65,536 nodes, or in version 3 more than 1,000,000 (each array, object and
    /// scalar is one), with those that its repeats add; 256 classes, 4 pools, 256 bodies or 256
    /// Cooperators that it names, 8 callers or 256 posts of a caller; or its advances sum to more
    /// than 10^15.
    TooMany,
    /// A name of an object, of a pool, of a body, of a Cooperator or of a declared class isn't of 1
    /// to 32 of A to Z, a to z, 0 to 9 and `_`, and in version 3 `-`, `.` and `:` after the first, nor `@` where a
    /// Deferred that is there is named.
    BadName,
    /// A declared class has a name that is taken; or a parent, or a class that is used, isn't in
    /// the table.
    BadClass,
    /// An allocation failed: this may stand in place of any other answer.
    OutOfMemory,
    /// A pool's name is given twice, or a pool that is used isn't declared.
    BadPool,
    /// A body's name is given twice, or a body that is used by its name isn't declared.
    BadBody,
    /// A Cooperator's name is given twice, or a Cooperator that is used by its name isn't declared.
    BadCooperator,
}

impl From<ShapeFault> for ScriptFault {
    ghost use Rattle.std.specs.Prelude.{◌≡◌};
    ghost use Rattle.dv_reader.specs.Passes.{script_fault_of};

    ghost from_gives = { λ stop fault. fault ≡ script_fault_of stop };

    fn from(stop: ShapeFault) -> ScriptFault {
        match stop {
            ShapeFault::BadShape => ScriptFault::BadShape,
            ShapeFault::OutOfMemory => ScriptFault::OutOfMemory,
        }
    }
}

/// The refusals, by number.
pub const REFUSALS: [ScriptFault; 11] = [
    ScriptFault::TooLong,
    ScriptFault::NotJson,
    ScriptFault::BadVersion,
    ScriptFault::BadShape,
    ScriptFault::TooMany,
    ScriptFault::BadName,
    ScriptFault::BadClass,
    ScriptFault::OutOfMemory,
    ScriptFault::BadPool,
    ScriptFault::BadBody,
    ScriptFault::BadCooperator,
];

/// The number of a refusal.
pub fn refusal_number(refusal: ScriptFault) -> u32
    ensures { result ≡ refusal_number refusal }
{
    match refusal {
        ScriptFault::TooLong => 1,
        ScriptFault::NotJson => 2,
        ScriptFault::BadVersion => 3,
        ScriptFault::BadShape => 4,
        ScriptFault::TooMany => 5,
        ScriptFault::BadName => 6,
        ScriptFault::BadClass => 7,
        ScriptFault::OutOfMemory => 8,
        ScriptFault::BadPool => 9,
        ScriptFault::BadBody => 10,
        ScriptFault::BadCooperator => 11,
    }
}

/// The name of a refusal.
pub fn refusal_name(refusal: ScriptFault) -> &'static str
    ensures { result.now ≡ refusal_name refusal }
{
    match refusal {
        ScriptFault::TooLong => "TooLong",
        ScriptFault::NotJson => "NotJson",
        ScriptFault::BadVersion => "BadVersion",
        ScriptFault::BadShape => "BadShape",
        ScriptFault::TooMany => "TooMany",
        ScriptFault::BadName => "BadName",
        ScriptFault::BadClass => "BadClass",
        ScriptFault::OutOfMemory => "OutOfMemory",
        ScriptFault::BadPool => "BadPool",
        ScriptFault::BadBody => "BadBody",
        ScriptFault::BadCooperator => "BadCooperator",
    }
}

/// What goes to standard error where a script is refused: a line of this text.
pub fn refusal_text(refusal: ScriptFault) -> &'static str
    ensures { result.now ≡ refusal_text refusal }
{
    match refusal {
        ScriptFault::TooLong => "script refused: 1 TooLong",
        ScriptFault::NotJson => "script refused: 2 NotJson",
        ScriptFault::BadVersion => "script refused: 3 BadVersion",
        ScriptFault::BadShape => "script refused: 4 BadShape",
        ScriptFault::TooMany => "script refused: 5 TooMany",
        ScriptFault::BadName => "script refused: 6 BadName",
        ScriptFault::BadClass => "script refused: 7 BadClass",
        ScriptFault::OutOfMemory => "script refused: 8 OutOfMemory",
        ScriptFault::BadPool => "script refused: 9 BadPool",
        ScriptFault::BadBody => "script refused: 10 BadBody",
        ScriptFault::BadCooperator => "script refused: 11 BadCooperator",
    }
}
