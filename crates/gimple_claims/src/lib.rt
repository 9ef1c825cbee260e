//! What holds in every run of a program, as laws: a state comes up in a run after the events that lie before it.
#![tactic(auto)]

ghost use Rattle.gimple_claims.specs.Checks.{FunctionsAreChecked, RunsBegin, NothingIsLost, AbortsOfAbort};
ghost use Rattle.gimple_claims.specs.Laws.{SerialsGrow, EntriesAreNew, FramesAreLiveCalls, LivingAreOfFrames, DeadStayDead, GlobalsHold, RegistersAreDeclared, SettledRunsStay};
ghost use Rattle.gimple_claims.specs.Pointers.{PointersAreOld, EntriesGetOldPointers};
ghost use Rattle.gimple_claims.specs.Private.{PrivateLocalsUnheld, FramesHaveBegun, PrivateLocalsNotPassed, PrivateLocalsByName};
ghost use Rattle.gimple_claims.specs.Shapes.{MemoryIsLaidOut, SlotsAreOnce};
ghost use Rattle.gimple_claims.specs.Slots.{SlotsKeepValues};
ghost use Rattle.gimple_claims.specs.Typed.{EventsAreTyped, ValuesAreTyped};
ghost use Rattle.gimple_claims.specs.Variables.{VariablesLive, VariablesHaveSlots, AccessesFindSlots};
ghost use Rattle.gimple_claims.specs.Updates.{StoredSlotsHold, OtherSlotsStay, StoredAccessesFind, OtherAccessesFind, AssignedRegistersHold, OtherRegistersStay, AssignmentsKeepCounts};
ghost use Rattle.gimple_claims.specs.Addressed.{FunctionValuesAreAddressed};

/// Each frame and each event so far has a serial below the next one.
pub fn serials_grow()
    ensures { SerialsGrow }
{}

/// Each call that begins has a serial above those of all events before it, so no two calls of a run have the same.
pub fn entries_are_new()
    ensures { EntriesAreNew }
{}

/// The frames of a state are the calls that have begun and not returned, by what has happened so far, and each return was
/// that of the latest of them.
pub fn frames_are_live_calls()
    ensures { FramesAreLiveCalls }
{}

/// Each living object is a global or a local of a frame of the state.
pub fn living_objects_are_of_frames()
    ensures { LivingAreOfFrames }
{}

/// An object that lives in one state of a run, and not in a later one, lives in no state after that.
pub fn dead_objects_stay_dead()
    ensures { DeadStayDead }
{}

/// Each global lives throughout a run, and the slots of a read-only one hold its items, then zero or null.
pub fn globals_hold()
    ensures { GlobalsHold }
{}

/// Each frame has as many registers as its function declares, its formals among them.
pub fn registers_are_declared()
    ensures { RegistersAreDeclared }
{}

/// In a program without a type fault each function has blocks, and each of its statements and ends passes its checks.
pub fn functions_are_checked()
    ensures { FunctionsAreChecked }
{}

/// A program without a type fault has a `main` with blocks, so it begins to run.
pub fn runs_begin()
    ensures { RunsBegin }
{}

/// In a run of a program without a type fault the function that a call enters has a first block, a call by name enters one,
/// and each block that an end leads to is there.
pub fn nothing_is_lost()
    ensures { NothingIsLost }
{}

/// In a run of a program without a type fault only the statement `abort` traps with `Abort`.
pub fn aborts_are_of_abort()
    ensures { AbortsOfAbort }
{}

/// In a run of a program without a type fault, on numbers of i64, each register and each slot of memory holds a value of
/// its scalar, and so does what each event tells: arguments, what a load gives and what a store puts.
pub fn values_are_typed()
    ensures states { ValuesAreTyped }
    ensures events { EventsAreTyped }
{}

/// In a run of a program without a type fault each function value in a register or a slot is of a function of the program
/// whose address is taken there.
pub fn function_values_are_addressed()
    ensures { FunctionValuesAreAddressed }
{}

/// A run that has ended or trapped comes to the same with more transfers.
pub fn settled_runs_stay()
    ensures { SettledRunsStay }
{}

/// The globals live, then the locals of the frames by their serials, and nothing else; the slots of memory are those of
/// their layouts, and no two of them have the same object and the same offset.
pub fn memory_is_laid_out()
    ensures shape { MemoryIsLaidOut }
    ensures once { SlotsAreOnce }
{}

/// Each pointer to a local, in a register or a slot, is of a frame with a serial below the next one; so a call that begins
/// gets no pointer to its own locals, in an argument or in memory.
pub fn pointers_are_old()
    ensures states { PointersAreOld }
    ensures entries { EntriesGetOldPointers }
{}

/// A local whose address no operand of its function takes, so that its name stands only as the base of loads and stores: in
/// each state no register and no slot points to that local of a call that has begun, as each frame of a state is one; no call
/// gets a pointer to it, in an argument or in memory; and each load of it and store to it is of that call, by its name.
pub fn private_locals_unheld()
    ensures states { PrivateLocalsUnheld }
    ensures frames { FramesHaveBegun }
    ensures entries { PrivateLocalsNotPassed }
    ensures accesses { PrivateLocalsByName }
{}

/// Between two states of a run in which an object lives, each of its slots to which nothing is stored keeps its value.
pub fn slots_keep_values()
    ensures { SlotsKeepValues }
{}

/// Each global and each local of a frame of the state lives, has the slots of its layout, and an access to one of them does
/// not trap: it finds what the slot holds.
pub fn variables_live()
    ensures lives { VariablesLive }
    ensures slots { VariablesHaveSlots }
    ensures accesses { AccessesFindSlots }
{}

/// In any memory, after a store to a slot: the slot, if it is there, holds what was stored, and an access to it, which found
/// something before, finds that; each other slot holds what it held, and each other access finds what it found.
pub fn slots_after_stores()
    ensures stored { StoredSlotsHold }
    ensures others { OtherSlotsStay }
    ensures found { StoredAccessesFind }
    ensures others_found { OtherAccessesFind }
{}

/// In any registers, after an assignment: the register, if the frame has it, holds what was assigned, each other one holds
/// what it held, and there are as many as before.
pub fn registers_after_assignments()
    ensures assigned { AssignedRegistersHold }
    ensures others { OtherRegistersStay }
    ensures count { AssignmentsKeepCounts }
{}
