//! The order of constants.

ghost use Rattle.std.specs.Prelude.{◌≡◌};
ghost use Rattle.value_domain.specs.Constants.{before};

use gimple_core::Constant;
use lattice_parts::Order;

/// Integers by value, then null, then addresses by the global's number and the offset.
pub struct ConstantOrder;

impl Order<Constant> for ConstantOrder {
    ghost use Rattle.value_domain.specs.OrderLemmas.{constant_order};

    ghost before = { before };

    ghost order = { constant_order };

    fn comes_before(left: &Constant, right: &Constant) -> bool {
        match (left, right) {
            (Constant::Int(x), Constant::Int(y)) => *x < *y,
            (Constant::Int(_), _) => true,
            (
                Constant::Null,
                Constant::Global {
                    number: _,
                    offset: _,
                },
            ) => true,
            (
                Constant::Global { number, offset },
                Constant::Global {
                    number: other_number,
                    offset: other_offset,
                },
            ) => *number < *other_number || *number == *other_number && *offset < *other_offset,
            (_, _) => false,
        }
    }
}

/// Numbers by value.
pub struct NumberOrder;

impl Order<i128> for NumberOrder {
    ghost use Rattle.std.specs.Prelude.{int_lt};
    ghost use Rattle.value_domain.specs.OrderLemmas.{int_order};

    ghost before = { int_lt };

    ghost order = { int_order };

    fn comes_before(left: &i128, right: &i128) -> bool {
        *left < *right
    }
}
