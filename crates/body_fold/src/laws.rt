//! What holds of a program with functions folded, as laws.

ghost use Rattle.body_fold.specs.Claims.{FoldIsAccepted, FoldIsSpellable, FoldReplaces, FoldsAreAccepted, FoldsAreSpellable, FoldsReplace, TopFoldsReplace};

/// A program in which functions are folded, all at once, by values that hold in each run of the program as it is, may replace
/// it: it does what that one did in the same mode, on an input of i64 numbers, and has no more parts than it had. That one
/// function is folded is a case of it, and the values of every function from top facts hold in each run.
pub fn folding_keeps_runs()
    ensures one { FoldReplaces }
    ensures all { FoldsReplace }
    ensures top { TopFoldsReplace }
{}

/// A program in which functions are folded, one or all at once, has no type fault where it had none, whatever the facts of
/// their values, and a text can spell it where one can spell its source.
pub fn folding_keeps_acceptance()
    ensures accepted { FoldIsAccepted }
    ensures spelled { FoldIsSpellable }
    ensures all_accepted { FoldsAreAccepted }
    ensures all_spelled { FoldsAreSpellable }
{}
