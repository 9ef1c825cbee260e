//! The dump of classes of functions.

ghost use Rattle.std.specs.Prelude.{◌≡◌, ◌+◌, ◌<◌, ◌≤◌, ◌^◌, ◌++◌, ℕ, [], List, length, take, slice_index_or, IfOk, OnOk};
ghost use Rattle.std.specs.List.{flat_map};
ghost use Rattle.ipa_dumps.specs.Classes.{AreNumbers, members_from, class_text, class_at, classes_from, icf_text};
ghost use Rattle.ipa_dumps.specs.Groups.{AreGroups};

use crate::cgraph::push_members;
use crate::place::{header, push_name};
use gimple_core::{Checked, Listed, Numbers, OutOfMemory, Program, Text};
use std::alloc::Global as Heap;

/// Classes of functions as their dump shows them.
pub trait ClassView {
    /// What the view tells: for each function the number of its class's representative.
    ghost classes: { Self → List ℕ };

    /// The number of the representative of a function's class.
    fn class_of(&self, function: u32) -> u32
        requires { function < length (classes self.now) }
        ensures { result ≡ slice_index_or (classes self.now) function function };
}

/// Lists without members, one for each function.
fn no_members(alloc: Heap, functions: u32) -> Result<Vec<Numbers>, OutOfMemory>
    ensures { IfOk result (λ groups. AreGroups [] functions groups.items) }
{
    let mut groups = Vec::new(alloc);
    for _ in 0..functions {
        groups.push(Listed::new(alloc))?;
    }
    Ok(groups)
}

/// The members of each class in file order.
fn members_by_class<V: ClassView>(
    alloc: Heap,
    view: &V,
    functions: u32,
) -> Result<Vec<Numbers>, OutOfMemory>
    requires count { length (V.classes view.now) ≡ functions }
    requires numbers { AreNumbers (V.classes view.now) functions }
    ensures { IfOk result (λ groups. AreGroups (V.classes view.now) functions groups.items) }
{
    let mut groups = no_members(alloc, functions)?;
    for function in 0..functions {
        let class = view.class_of(function);
        groups[class as usize].push(function)?;
    }
    Ok(groups)
}

#[tactic(auto, unfolding(crate::specs::Classes::class_text))]
fn push_class(
    text: &mut Text,
    program: &Program,
    class: u32,
    members: &[u32],
) -> Result<(), OutOfMemory>
    ensures { OnOk result (text.new ≡ text.old ++ class_text program.now class members.now) }
{
    text.push_all("class ".as_bytes())?;
    push_name(text, program, class)?;
    text.push_all(":".as_bytes())?;
    push_members(text, program, members)?;
    text.push_all("\n".as_bytes())
}

/// Puts the line of a class of at least two behind a text, where this is its first member.
#[tactic(auto, unfolding(crate::specs::Classes::class_at))]
fn push_class_at(
    text: &mut Text,
    program: &Program,
    class: u32,
    function: u32,
    members: &[u32],
) -> Result<(), OutOfMemory>
    ensures { OnOk result (text.new ≡ text.old ++ class_at program.now class function members.now) }
{
    match members {
        [first, _, ..] => {
            if *first == function {
                push_class(text, program, class, members)
            } else {
                Ok(())
            }
        }
        _ => Ok(()),
    }
}

/// Puts the lines of all classes of at least two behind a text.
fn push_classes<V: ClassView>(
    text: &mut Text,
    program: &Program,
    view: &V,
    groups: &[Numbers],
) -> Result<(), OutOfMemory>
    requires few { length (V.classes view.now) < 2 ^ 32 }
    requires numbers { AreNumbers (V.classes view.now) (length (V.classes view.now)) }
    requires groups { AreGroups (V.classes view.now) (length (V.classes view.now)) groups.now }
    ensures { OnOk result (text.new ≡ text.old ++ classes_from program.now (V.classes view.now) 0 (V.classes view.now)) }
{
    for function in 0..groups.len() as u32 {
        let class = view.class_of(function);
        push_class_at(
            text,
            program,
            class,
            function,
            groups[class as usize].as_slice(),
        )?;
    }
    Ok(())
}

/// The dump of classes: a header, and for each class of at least two a line with the name of its representative and those
/// of its members, in file order, by the first member. The answer is want of memory alone.
#[tactic(auto, unfolding(crate::specs::Classes::icf_text))]
pub fn dump_icf<V: ClassView>(alloc: Heap, program: &Checked, view: &V) -> Result<Text, OutOfMemory>
    requires few { length program.now.program.functions < 2 ^ 32 }
    requires count { length (V.classes view.now) ≡ length program.now.program.functions }
    requires numbers { AreNumbers (V.classes view.now) (length program.now.program.functions) }
    ensures { IfOk result (λ text. text ≡ icf_text program.now.program (V.classes view.now)) }
{
    let functions = program.program().functions.len() as u32;
    let groups = members_by_class(alloc, view, functions)?;
    let mut text = header(alloc, "icf")?;
    push_classes(&mut text, program.program(), view, groups.as_slice())?;
    Ok(text)
}
