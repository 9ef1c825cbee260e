//! The classes of the largest congruence.

ghost use Rattle.std.specs.Prelude.{◌≡◌, ◌<◌, ◌^◌, map, length, IfOk};
ghost use Rattle.gimple_core.specs.Accepted.{IsAccepted};
ghost use Rattle.icf_classes.specs.Congruence.{class_of, AreLargestClasses};
ghost use Rattle.icf_classes.specs.Settled.{settled_class, settled_classes};

use crate::callees::Numbered;
use crate::forms::form_classes;
use gimple_core::{Checked, Listed, Numbers, OutOfMemory};
use partition_refinement::refine;
use std::alloc::Global as Heap;

fn class_of(classes: &[u32], number: u32) -> u32
    ensures { result ≡ class_of classes.now number }
{
    match classes.get(number as usize) {
        Some(class) => *class,
        None => number,
    }
}

fn settled_class(of_main: u32, main: u32, class: u32) -> u32
    ensures { result ≡ settled_class of_main main class }
{
    if class == of_main { main } else { class }
}

/// The classes, with `main` as the representative of its own.
fn settled(alloc: Heap, classes: &[u32], main: u32) -> Result<Numbers, OutOfMemory>
    ensures { IfOk result (λ settled. settled ≡ settled_classes classes.now main) }
{
    let of_main = class_of(classes, main);
    let mut made = Listed::new(alloc);
    for class in classes {
        made.push(settled_class(of_main, main, *class))?;
    }
    Ok(made)
}

/// The class of each function of the program, by the number of its representative: `main` if it is in the class, else the
/// first in file order. Functions are in one class where some congruence relates them: their forms are the same, with
/// registers, locals and labels by position, and their direct callees are related. Err is want of memory.
pub fn classes(alloc: Heap, program: &Checked) -> Result<Numbers, OutOfMemory>
    requires few { length program.now.program.functions < 2 ^ 32 }
    ensures largest { IfOk result (AreLargestClasses program.now.program) }
{
    let source = program.program();
    let numbered = Numbered::new(alloc, source)?;
    let first = form_classes(alloc, source)?;
    let rows = numbered.rows(alloc)?;
    let classes = refine(alloc, first.as_slice(), rows.as_slice())?;
    let main = numbered.number(b"main") as u32;
    let representatives = settled(alloc, classes.as_slice(), main)?;
    Ok(representatives)
}
