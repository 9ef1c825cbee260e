//! The numbers of functions by their names.

ghost use Rattle.std.specs.Prelude.{◌≡◌, map};
ghost use Rattle.std.specs.Str.{bytes_eq};
ghost use Rattle.gimple_core.specs.Run.{main_name};
ghost use Rattle.call_graph.specs.Calls.{number_in};

use gimple_core::{Function, Text};
use name_tables::NamedFunctions;

/// The number of the function of a name, or how many functions there are.
pub fn number_of(functions: &NamedFunctions<'_>, name: &Text) -> usize
    ensures { result ≡ number_in (map (λ f. f.name) functions.now) name.now }
{
    match functions.place(name) {
        Some(number) => number,
        None => functions.len(),
    }
}

/// The number of the function `main`, or how many functions there are.
#[tactic(auto, unfolding(crate::specs::Calls::number_in))]
pub fn main_number(functions: &[Function]) -> usize
    ensures { result ≡ number_in (map (λ f. f.name) functions.now) main_name }
{
    for number in 0..functions.len() {
        if is_main(&functions[number]) {
            return number;
        }
    }
    functions.len()
}

#[tactic(auto, using(gimple_core::proofs::EnvLemmas::same_test))]
fn is_main(function: &Function) -> bool
    ensures { result ≡ bytes_eq function.now.name main_name }
{
    b"main".as_slice() == function.name.as_slice()
}
