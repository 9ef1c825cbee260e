//! Layouts and operators against tables worked out by hand.

ghost use Rattle.std.specs.Prelude.{◌≡◌, [], ◌∷◌, Some, None, IfOk};
ghost use Rattle.gimple_ir.specs.declared.scalar.Scalar.{Scalar};
ghost use Rattle.gimple_ir.specs.declared.declarations.Shape.{Shape};

use super::*;
use std::alloc::Global as Heap;
use std::test::Fail;

fn field(alloc: Heap, name: u8, scalar: Scalar, length: Option<u64>) -> Result<Decl, OutOfMemory>
    ensures { IfOk result (λ d. d ≡ record { name = name ∷ []; shape = Shape.Plain scalar; length = length }) }
{
    Ok(Decl {
        name: Text::from_bytes(alloc, &[name])?,
        shape: Shape::Plain(scalar),
        length,
    })
}

/// The program of `struct s { i8 a; i64 b; i16 c[3]; };`.
fn padded(alloc: Heap) -> Result<Program, OutOfMemory>
    ensures { IfOk result (λ p. p.structs ≡ record { name = 115 ∷ []; fields = record { name = 97 ∷ []; shape = Shape.Plain Scalar.I8; length = None } ∷ record { name = 98 ∷ []; shape = Shape.Plain Scalar.I64; length = None } ∷ record { name = 99 ∷ []; shape = Shape.Plain Scalar.I16; length = Some 3 } ∷ [] } ∷ []) }
{
    let mut fields = Decls::new(alloc);
    fields.push(field(alloc, b'a', Scalar::I8, None)?)?;
    fields.push(field(alloc, b'b', Scalar::I64, None)?)?;
    fields.push(field(alloc, b'c', Scalar::I16, Some(3))?)?;
    let mut structs = StructDefs::new(alloc);
    structs.push(StructDef {
        name: Text::from_bytes(alloc, b"s")?,
        fields,
    })?;
    Ok(Program {
        profile: 1,
        structs,
        globals: Globals::new(alloc),
        functions: Functions::new(alloc),
    })
}

#[test]
fn lays_out_fields_with_gaps(rt: HostRuntime) -> Result<(), Fail> {
    let program = padded(rt.alloc())?;
    let variable = Decl {
        name: Text::new(rt.alloc()),
        shape: Shape::Named(Text::from_bytes(rt.alloc(), b"s")?),
        length: None,
    };
    let layout = layout_of(rt.alloc(), &program, &variable)?;
    let slots = [
        (0, Scalar::I8),
        (8, Scalar::I64),
        (16, Scalar::I16),
        (18, Scalar::I16),
        (20, Scalar::I16),
    ];
    assert_eq!(rt; (layout.size, layout.align), (24, 8));
    assert_eq!(rt; layout.slots.len(), slots.len());
    for (slot, want) in layout.slots.as_slice().iter().zip(slots.iter()) {
        assert_eq!(rt; (slot.offset, slot.scalar), *want);
    }
    Ok(())
}

#[test]
fn computes_as_two_complement_machines_do(rt: HostRuntime) {
    let rows = [
        (Op::Add, Scalar::U8, 255, 1, Ok(0)),
        (Op::Add, Scalar::I8, 127, 1, Err(TrapKind::Overflow)),
        (Op::Sub, Scalar::U16, 0, 1, Ok(65535)),
        (Op::Mul, Scalar::U64, 4294967296, 4294967296, Ok(0)),
        (
            Op::Mul,
            Scalar::I64,
            4294967296,
            -2147483648,
            Ok(-9223372036854775808),
        ),
        (Op::Div, Scalar::I32, -7, 2, Ok(-3)),
        (Op::Div, Scalar::I8, -128, -1, Err(TrapKind::Overflow)),
        (Op::Div, Scalar::U32, 1, 0, Err(TrapKind::Divide)),
        (Op::Rem, Scalar::I32, -7, 2, Ok(-1)),
        (Op::Rem, Scalar::I16, -32768, -1, Err(TrapKind::Overflow)),
        (Op::And, Scalar::I8, -1, 15, Ok(15)),
        (Op::Or, Scalar::I8, -128, 1, Ok(-127)),
        (Op::Xor, Scalar::I16, -1, 1, Ok(-2)),
        (Op::Shl, Scalar::I8, 1, 7, Ok(-128)),
        (Op::Shl, Scalar::U8, 3, 8, Err(TrapKind::Shift)),
        (Op::Shr, Scalar::I8, -128, 7, Ok(-1)),
        (Op::Shr, Scalar::U8, 128, 7, Ok(1)),
        (Op::Shr, Scalar::I64, 1, 64, Err(TrapKind::Shift)),
    ];
    for (op, scalar, left, right, want) in rows {
        if fits(scalar, left) && fits(scalar, right) {
            assert_eq!(rt; eval_op(Mode::Trap, op, scalar, left, right), want);
        }
    }
    assert_eq!(rt; eval_op(Mode::Wrap, Op::Add, Scalar::I8, 127, 1), Ok(-128));
    assert_eq!(rt;
        eval_op(Mode::Wrap, Op::Mul, Scalar::I32, 65536, 65536),
        Ok(0)
    );
    assert_eq!(rt;
        eval_op(Mode::Wrap, Op::Div, Scalar::I8, -128, -1),
        Err(TrapKind::Overflow)
    );
    assert_eq!(rt; wrap(Scalar::I8, 255), -1);
    assert_eq!(rt; wrap(Scalar::U8, -1), 255);
    assert!(rt; eval_cmp(Cmp::Lt, -1, 0) && !eval_cmp(Cmp::Lt, 0, 0));
}
