//! What holds of the values in the runs of a program, as laws.

ghost use Rattle.body_values.specs.AtPoints.{FoundHold, FoundHoldAlways, OperandsHold};
ghost use Rattle.body_values.specs.Claims.{ValuesHold, ValuesHoldAlways, FoundAnalysed};
ghost use Rattle.body_values.specs.FoundWhere.{FoundThere, FoundThereAlone};
ghost use Rattle.body_values.specs.TopRuns.{TopFactsHold, TopValuesHold};

use crate::analysis::ValueAnalysis;
use crate::facts::{Facts, LoadFact};
use crate::load_table::LoadTable;
use crate::program_tables::ProgramTables;
use crate::scene::Scene;
use crate::values::BodyValues;
use std::marker::{Send, Sync};

/// Each solution of the equations holds in each run, on an input of i64 numbers: at each point at which an activation of the function is whose
/// arguments and loads so far meet the facts, the point is reached and each register is in its value there. Where the facts
/// hold in each run, that is so of every activation. The values that are found of a function are such a solution.
pub fn values_hold()
    ensures activation { ValuesHold }
    ensures always { ValuesHoldAlways }
    ensures found { FoundAnalysed }
{}

/// Each activation of a function of a program without a type fault, in each run on an input of i64 numbers, meets top facts: each
/// argument is a value of its formal's scalar, and nothing is given of loads. So the values that are found from top facts hold
/// at each point of each activation.
pub fn top_facts_hold()
    ensures facts { TopFactsHold }
    ensures values { TopValuesHold }
{}

/// A value is found at the points of the function that are reached, for the names of its registers, and nowhere else.
pub fn values_found()
    ensures there { FoundThere }
    ensures alone { FoundThereAlone }
{}

/// What `BodyValues::at` finds holds in each run of a program without a type fault, on an input of i64 numbers: at each point at
/// which an activation of the function is whose arguments and loads so far meet the facts, it finds a value of each register,
/// and the register has a value of it. Where the facts hold in each run, that is so of every activation.
pub fn found_values_hold()
    ensures activation { FoundHold }
    ensures always { FoundHoldAlways }
{}

/// At each such point, of each operand that may stand there as a value of a scalar: the point is reached, and the operand has a
/// value of its abstract value there.
pub fn operand_holds()
    ensures { OperandsHold }
{}

fn crosses<T: Send + Sync>(_value: &T) {}

/// Facts, values, the tables that workers share and what they make of a function may be given to another thread, and read by
/// several at once.
pub fn body_values_cross(
    values: &BodyValues,
    facts: &Facts,
    tables: &ProgramTables,
    scene: &Scene,
) {
    crosses(values);
    crosses(facts);
    crosses(tables);
    crosses(scene);
}

/// The parts of them too.
pub fn body_parts_cross(analysis: &ValueAnalysis, loads: &LoadTable, fact: &LoadFact) {
    crosses(analysis);
    crosses(loads);
    crosses(fact);
}
