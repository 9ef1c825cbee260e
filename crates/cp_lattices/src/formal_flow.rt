//! The equations of the values of formals as a flow.

ghost use Rattle.std.specs.Prelude.{◌≡◌, IfOk};
ghost use Rattle.std.specs.Option.{option_copied};
ghost use Rattle.value_domain.specs.Values.{none_val};
ghost use Rattle.cp_lattices.specs.FormalEquations.{jump_source, start_of, IsLawfulFlow};
ghost use Rattle.cp_lattices.specs.Makers.{making};

use crate::carry::Maker;
use crate::gift::Gift;
use crate::numbering::{Node, Numbering};
use body_symbols::JumpFn;
use fix_engine::{Flow, Lattice};
use gimple_core::{OutOfMemory, Passes};
use value_domain::{AbsVal, Bits, Range, Vals, top};

/// The value that holds nothing.
fn none() -> AbsVal
    ensures { result ≡ none_val }
{
    AbsVal {
        vals: Vals::Nothing,
        bits: Bits { mask: 0, value: 0 },
        range: Range { low: 1, high: 0 },
    }
}

/// Any value of the scalar for a formal of a function whose address is taken, and nothing for the others.
fn start_of(node: Option<&Node>) -> AbsVal
    ensures { result ≡ start_of (option_copied node.entry) }
{
    match node {
        Some(node) if node.addressed => top(node.scalar),
        _ => none(),
    }
}

/// The equations whose least solution has the values of formals: a node is a formal, an edge is a gift, and a value flows
/// from the caller's formal that the jump function speaks of to the callee's.
#[derive(Drop)]
pub struct FormalFlow<'a> {
    pub maker: Maker<'a>,
    pub passes: &'a Passes,
    pub numbering: &'a Numbering,
    pub gifts: &'a [Gift],
    pub ghost lawful: { IsLawfulFlow (making maker) passes.now numbering.now gifts.now },
}

impl<'a> Flow for FormalFlow<'a> {
    ghost use Rattle.cp_lattices.specs.FormalEquations.{formal_equations, kind_in};
    ghost use Rattle.cp_lattices.specs.FormalLaws.{flow_laws};

    type Value = AbsVal;

    ghost kind = { λ f. kind_in (making f.maker) };

    ghost equations = { λ f. formal_equations (making f.maker) f.passes.now f.numbering.now f.gifts.now };

    ghost laws = { λ f. flow_laws (making f.maker) f.passes.now f.numbering.now f.gifts.now f.lawful };

    fn nodes(&self) -> u32 {
        self.numbering.nodes.len() as u32 + 1
    }

    fn edges(&self) -> u32 {
        self.gifts.len() as u32
    }

    fn ends(&self, edge: u32) -> (u32, u32) {
        let gift = &self.gifts[edge as usize];
        (
            self.source(gift),
            self.numbering.node_of(gift.callee, gift.formal),
        )
    }

    fn start(&self, node: u32) -> Result<AbsVal, OutOfMemory> {
        Ok(start_of(self.numbering.at(node as usize)))
    }

    #[tactic(auto, using(crate::specs::FormalLaws::kind_fits))]
    fn flow(&self, edge: u32, from: &AbsVal) -> Result<AbsVal, OutOfMemory> {
        let gift = &self.gifts[edge as usize];
        self.maker
            .given(self.passes, gift.scalar, gift.jump, &gift.local, from)
    }
}

impl<'a> FormalFlow<'a> {
    /// The node of the caller's formal that the jump function of a gift speaks of.
    fn source(&self, gift: &Gift) -> u32
        ensures { result ≡ jump_source self.now.numbering.now gift.now.caller gift.now.jump }
    {
        match gift.jump {
            JumpFn::Pass { param, .. } | JumpFn::Ancestor { param, .. } => {
                self.numbering.node_of(gift.caller, param)
            }
            _ => 0,
        }
    }
}
