//! Sets of constants.

ghost use Rattle.std.specs.Prelude.{◌≡◌, OnOk, OnErr, IfOk};
ghost use Rattle.value_domain.specs.Values.{vals_joined, vals_below, vals_capped};

use crate::constant::ConstantOrder;
use gimple_core::{Constant, Constants, Listed, OutOfMemory};
use lattice_parts::{is_within, unite};

/// A set of constants: any, none, or those of a list in order, of which there are at most `limit`.
#[derive(Debug, Drop)]
pub enum Vals {
    Any,
    Nothing,
    Among { limit: u64, constants: Constants },
}

impl Vals {
    pub(crate) fn copy(&self) -> Result<Vals, OutOfMemory>
        ensures { IfOk result (λ v. v ≡ self.now) }
    {
        match self {
            Vals::Any => Ok(Vals::Any),
            Vals::Nothing => Ok(Vals::Nothing),
            Vals::Among { limit, constants } => Ok(Vals::Among {
                limit: *limit,
                constants: constants.clone()?,
            }),
        }
    }

    pub(crate) fn joined(&self, other: &Vals) -> Result<Vals, OutOfMemory>
        ensures { IfOk result (λ v. v ≡ vals_joined self.now other.now) }
    {
        match (self, other) {
            (
                Vals::Among { limit, constants },
                Vals::Among {
                    limit: _,
                    constants: others,
                },
            ) => {
                let mut all = Vec::from_slice(others.allocator(), others.as_slice())?;
                unite::<Constant, ConstantOrder>(&mut all, constants.as_slice())?;
                Ok(capped(*limit, all))
            }
            (_, _) => Ok(Vals::Any),
        }
    }

    pub(crate) fn leq(&self, other: &Vals) -> bool
        ensures { result ≡ vals_below self.now other.now }
    {
        match (self, other) {
            (_, Vals::Any) => true,
            (Vals::Any, _) => false,
            (Vals::Nothing, _) => true,
            (
                Vals::Among {
                    limit: _,
                    constants,
                },
                Vals::Nothing,
            ) => is_within::<Constant, ConstantOrder>(constants.as_slice(), &[]),
            (
                Vals::Among {
                    limit: _,
                    constants,
                },
                Vals::Among {
                    limit: _,
                    constants: others,
                },
            ) => is_within::<Constant, ConstantOrder>(constants.as_slice(), others.as_slice()),
        }
    }
}

/// The set of these constants, or any where there are too many.
pub(crate) fn capped(limit: u64, constants: Vec<Constant>) -> Vals
    ensures { result ≡ vals_capped limit constants.items }
{
    if constants.len() as u64 <= limit {
        Vals::Among {
            limit,
            constants: Listed::from_vec(constants),
        }
    } else {
        Vals::Any
    }
}
