//! The numbers of what stands in a function.

ghost use Rattle.std.specs.Prelude.{◌≡◌, ◌++◌, ◌∷◌, pos, position, map, OnOk, IfOk};
ghost use Rattle.std.specs.Str.{bytes_eq};
ghost use Rattle.gimple_core.specs.State.{registers_of};
ghost use Rattle.gimple_ir.specs.declared.statement.Stmt.TheVariants as stmt;
ghost use Rattle.icf_classes.specs.Placed.{spot_in, seen_in, label_in, placed_operand, placed_operands, placed_base, placed_target, placed_stmt, placed_case, placed_result, placed_end, placed_block, placed_function};
ghost use Rattle.icf_classes.specs.Codes.{code_items, code_spot, code_seen, code_operand, code_operands, code_cmp, code_base, code_target, code_stmt, code_case, code_cases, code_returned, code_end, code_body, code_block, code_blocks, code_function};

use crate::coding::{
    put_cmp, put_locals, put_op, put_place, put_registers, put_result, put_scalar, put_signature,
    put_text,
};
use crate::row::Row;
use gimple_core::{
    Base, Block, Case, Cmp, End, Function, Op, Operand, OutOfMemory, Place, Register, Scalar,
    Signature, Stmt, Text,
};
use name_tables::{Labels, NamedLocals, Names};
use std::alloc::Global as Heap;
use std::marker::Model;

/// A function with tables of its registers, locals and labels, in which each is found by its name.
#[derive(Drop)]
pub(crate) struct Placer<'a> {
    function: &'a Function,
    registers: Names<'a>,
    locals: NamedLocals<'a>,
    labels: Labels,
}

impl<'a> Model for Placer<'a> {
    ghost use Rattle.gimple_ir.specs.declared.program.Function.{Function};
    ghost use Rattle.icf_classes.specs.Codes.{AreTables};

    ghost Value = { Function };

    ghost view = { λ p. p.function.now };

    ghost invariant = { λ p. AreTables p.function.now p.registers p.locals p.labels };
}

fn put_names<'a>(registers: &'a [Register], names: &mut Names<'a>) -> Result<(), OutOfMemory>
    ensures { OnOk result (names.new ≡ names.old ++ map (λ r. r.name) registers.now) }
{
    for register in registers {
        names.push(register.name.as_slice())?;
    }
    Ok(())
}

#[tactic(auto, using(crate::proofs::Rows::names_put))]
fn names_of<'a>(alloc: Heap, function: &'a Function) -> Result<Names<'a>, OutOfMemory>
    ensures { IfOk result (λ names. names ≡ map (λ r. r.name) (registers_of function.now)) }
{
    let mut names = Names::new(alloc);
    put_names(function.params.as_slice(), &mut names)?;
    put_names(function.registers.as_slice(), &mut names)?;
    Ok(names)
}

fn labels_of(alloc: Heap, blocks: &[Block]) -> Result<Labels, OutOfMemory>
    ensures { IfOk result (λ labels. labels ≡ map (λ b. b.label) blocks.now) }
{
    let mut labels = Labels::new(alloc);
    for block in blocks {
        labels.push(block.label)?;
    }
    Ok(labels)
}

impl<'a> Placer<'a> {
    /// Err is want of memory.
    pub(crate) fn new(alloc: Heap, function: &'a Function) -> Result<Placer<'a>, OutOfMemory>
        ensures { IfOk result (λ p. p ≡ function.now) }
    {
        let registers = names_of(alloc, function)?;
        let locals = NamedLocals::new(alloc, function.locals.as_slice())?;
        let labels = labels_of(alloc, function.blocks.as_slice())?;
        Ok(Placer {
            function,
            registers,
            locals,
            labels,
        })
    }

    /// The position of a register.
    #[tactic(auto, unfolding(gimple_core::specs::State::register_place))]
    fn spot(&self, name: &Text) -> Option<usize>
        ensures { result ≡ spot_in self.now name.now }
    {
        self.registers.place(name.as_slice())
    }

    /// The position of the first block of a label.
    fn label(&self, label: u64) -> Option<usize>
        ensures { result ≡ label_in self.now label }
    {
        self.labels.place(label)
    }

    /// The position of a local.
    fn local(&self, name: &Text) -> Option<usize>
        ensures { result ≡ position (λ d. bytes_eq d.name name.now) self.now.locals }
    {
        self.locals.place(name)
    }

    fn put_spot(&self, row: &mut Row, name: &Text) -> Result<(), OutOfMemory>
        ensures { OnOk result (row.new ≡ code_spot (spot_in self.now name.now) row.old) }
    {
        put_place(row, self.spot(name))
    }

    fn put_label(&self, row: &mut Row, label: u64) -> Result<(), OutOfMemory>
        ensures { OnOk result (row.new ≡ code_spot (label_in self.now label) row.old) }
    {
        put_place(row, self.label(label))
    }

    #[tactic(auto, unfolding(crate::specs::Codes::code_seen))]
    fn put_seen(&self, row: &mut Row, name: &Text) -> Result<(), OutOfMemory>
        ensures { OnOk result (row.new ≡ code_seen (seen_in self.now name.now) row.old) }
    {
        match self.local(name) {
            Some(place) => {
                row.put_count(place as u64)?;
                row.put_count(0)
            }
            None => {
                put_text(row, name)?;
                row.put_count(1)
            }
        }
    }

    #[tactic(auto, unfolding(crate::specs::Codes::code_operand))]
    fn put_operand(&self, row: &mut Row, operand: &Operand) -> Result<(), OutOfMemory>
        ensures { OnOk result (row.new ≡ code_operand (placed_operand self.now operand.now) row.old) }
    {
        match operand {
            Operand::Reg(name) => {
                self.put_spot(row, name)?;
                row.put_count(0)
            }
            Operand::Number(number) => {
                row.put(*number)?;
                row.put_count(1)
            }
            Operand::Null => row.put_count(2),
            Operand::Address { variable, offset } => {
                self.put_seen(row, variable)?;
                row.put(*offset)?;
                row.put_count(3)
            }
        }
    }

    #[tactic(auto, unfolding(crate::specs::Codes::code_items))]
    fn put_each_operand(&self, row: &mut Row, operands: &[Operand]) -> Result<(), OutOfMemory>
        ensures { OnOk result (row.new ≡ code_items code_operand (placed_operands self.now operands.now) row.old) }
    {
        for operand in operands {
            self.put_operand(row, operand)?;
        }
        Ok(())
    }

    #[tactic(auto, unfolding(crate::specs::Codes::code_operands), using(crate::proofs::Rows::list_put))]
    fn put_operands(&self, row: &mut Row, operands: &[Operand]) -> Result<(), OutOfMemory>
        ensures { OnOk result (row.new ≡ code_operands (placed_operands self.now operands.now) row.old) }
    {
        self.put_each_operand(row, operands)?;
        row.put_count(operands.len() as u64)
    }

    #[tactic(auto, unfolding(crate::specs::Codes::code_base))]
    fn put_base(&self, row: &mut Row, base: &Base) -> Result<(), OutOfMemory>
        ensures { OnOk result (row.new ≡ code_base (placed_base self.now base.now) row.old) }
    {
        match base {
            Base::Reg(name) => {
                self.put_spot(row, name)?;
                row.put_count(0)
            }
            Base::Variable(name) => {
                self.put_seen(row, name)?;
                row.put_count(1)
            }
        }
    }

    /// Puts the base of a place, and its offset.
    fn put_access(&self, row: &mut Row, place: &Place) -> Result<(), OutOfMemory>
        ensures { OnOk result (row.new ≡ place.now.offset ∷ code_base (placed_base self.now place.now.base) row.old) }
    {
        self.put_base(row, &place.base)?;
        row.put(place.offset)
    }

    #[tactic(auto, unfolding(crate::specs::Codes::code_target, crate::specs::Codes::code_option))]
    fn put_target(&self, row: &mut Row, to: &Option<Text>) -> Result<(), OutOfMemory>
        ensures { OnOk result (row.new ≡ code_target (placed_target self.now to.now) row.old) }
    {
        match to {
            Some(name) => {
                self.put_spot(row, name)?;
                row.put_count(1)
            }
            None => row.put_count(0),
        }
    }

    #[tactic(auto, unfolding(crate::specs::Placed::placed_stmt, crate::specs::Codes::code_stmt))]
    fn put_copy(&self, row: &mut Row, to: &Text, from: &Operand) -> Result<(), OutOfMemory>
        ensures { OnOk result (row.new ≡ code_stmt (placed_stmt self.now (stmt.Copy to.now from.now)) row.old) }
    {
        self.put_spot(row, to)?;
        self.put_operand(row, from)?;
        row.put_count(0)
    }

    #[tactic(auto, unfolding(crate::specs::Placed::placed_stmt, crate::specs::Codes::code_stmt))]
    fn put_arith(
        &self,
        row: &mut Row,
        to: &Text,
        left: &Operand,
        op: Op,
        right: &Operand,
    ) -> Result<(), OutOfMemory>
        ensures { OnOk result (row.new ≡ code_stmt (placed_stmt self.now (stmt.Arith to.now left.now op right.now)) row.old) }
    {
        self.put_spot(row, to)?;
        self.put_operand(row, left)?;
        put_op(row, op)?;
        self.put_operand(row, right)?;
        row.put_count(1)
    }

    #[tactic(auto, unfolding(crate::specs::Placed::placed_stmt, crate::specs::Codes::code_stmt))]
    fn put_compare(
        &self,
        row: &mut Row,
        to: &Text,
        left: &Operand,
        cmp: Cmp,
        right: &Operand,
    ) -> Result<(), OutOfMemory>
        ensures { OnOk result (row.new ≡ code_stmt (placed_stmt self.now (stmt.Compare to.now left.now cmp right.now)) row.old) }
    {
        self.put_spot(row, to)?;
        self.put_operand(row, left)?;
        put_cmp(row, cmp)?;
        self.put_operand(row, right)?;
        row.put_count(2)
    }

    #[tactic(auto, unfolding(crate::specs::Placed::placed_stmt, crate::specs::Codes::code_stmt))]
    fn put_convert(
        &self,
        row: &mut Row,
        to: &Text,
        scalar: Scalar,
        from: &Operand,
    ) -> Result<(), OutOfMemory>
        ensures { OnOk result (row.new ≡ code_stmt (placed_stmt self.now (stmt.Convert to.now scalar from.now)) row.old) }
    {
        self.put_spot(row, to)?;
        put_scalar(row, scalar)?;
        self.put_operand(row, from)?;
        row.put_count(3)
    }

    #[tactic(auto, unfolding(crate::specs::Placed::placed_stmt, crate::specs::Codes::code_stmt))]
    fn put_load(
        &self,
        row: &mut Row,
        to: &Text,
        scalar: Scalar,
        place: &Place,
    ) -> Result<(), OutOfMemory>
        ensures { OnOk result (row.new ≡ code_stmt (placed_stmt self.now (stmt.Load to.now scalar place.now)) row.old) }
    {
        self.put_spot(row, to)?;
        put_scalar(row, scalar)?;
        self.put_access(row, place)?;
        row.put_count(4)
    }

    #[tactic(auto, unfolding(crate::specs::Placed::placed_stmt, crate::specs::Codes::code_stmt))]
    fn put_store(
        &self,
        row: &mut Row,
        scalar: Scalar,
        place: &Place,
        from: &Operand,
    ) -> Result<(), OutOfMemory>
        ensures { OnOk result (row.new ≡ code_stmt (placed_stmt self.now (stmt.Store scalar place.now from.now)) row.old) }
    {
        put_scalar(row, scalar)?;
        self.put_access(row, place)?;
        self.put_operand(row, from)?;
        row.put_count(5)
    }

    /// Puts a call, with nothing of its callee.
    #[tactic(auto, unfolding(crate::specs::Placed::placed_stmt, crate::specs::Codes::code_stmt))]
    fn put_call(
        &self,
        row: &mut Row,
        to: &Option<Text>,
        callee: &Text,
        arguments: &[Operand],
    ) -> Result<(), OutOfMemory>
        ensures { OnOk result (row.new ≡ code_stmt (placed_stmt self.now (stmt.Call to.now callee.now arguments.now)) row.old) }
    {
        self.put_target(row, to)?;
        self.put_operands(row, arguments)?;
        row.put_count(6)
    }

    #[tactic(auto, unfolding(crate::specs::Placed::placed_stmt, crate::specs::Codes::code_stmt))]
    fn put_indirect(
        &self,
        row: &mut Row,
        to: &Option<Text>,
        signature: &Signature,
        callee: &Text,
        arguments: &[Operand],
    ) -> Result<(), OutOfMemory>
        ensures { OnOk result (row.new ≡ code_stmt (placed_stmt self.now (stmt.Indirect to.now signature.now callee.now arguments.now)) row.old) }
    {
        self.put_target(row, to)?;
        put_signature(row, signature)?;
        self.put_spot(row, callee)?;
        self.put_operands(row, arguments)?;
        row.put_count(7)
    }

    #[tactic(auto, unfolding(crate::specs::Placed::placed_stmt, crate::specs::Codes::code_stmt))]
    fn put_get(&self, row: &mut Row, to: &Text) -> Result<(), OutOfMemory>
        ensures { OnOk result (row.new ≡ code_stmt (placed_stmt self.now (stmt.Get to.now)) row.old) }
    {
        self.put_spot(row, to)?;
        row.put_count(8)
    }

    #[tactic(auto, unfolding(crate::specs::Placed::placed_stmt, crate::specs::Codes::code_stmt))]
    fn put_put(&self, row: &mut Row, from: &Operand) -> Result<(), OutOfMemory>
        ensures { OnOk result (row.new ≡ code_stmt (placed_stmt self.now (stmt.Put from.now)) row.old) }
    {
        self.put_operand(row, from)?;
        row.put_count(9)
    }

    #[tactic(auto, unfolding(crate::specs::Placed::placed_stmt, crate::specs::Codes::code_stmt))]
    fn put_abort(&self, row: &mut Row) -> Result<(), OutOfMemory>
        ensures { OnOk result (row.new ≡ code_stmt (placed_stmt self.now stmt.Abort) row.old) }
    {
        row.put_count(10)
    }

    fn put_statement(&self, row: &mut Row, statement: &Stmt) -> Result<(), OutOfMemory>
        ensures { OnOk result (row.new ≡ code_stmt (placed_stmt self.now statement.now) row.old) }
    {
        match statement {
            Stmt::Copy { to, from } => self.put_copy(row, to, from),
            Stmt::Arith {
                to,
                left,
                op,
                right,
            } => self.put_arith(row, to, left, *op, right),
            Stmt::Compare {
                to,
                left,
                cmp,
                right,
            } => self.put_compare(row, to, left, *cmp, right),
            Stmt::Convert { to, scalar, from } => self.put_convert(row, to, *scalar, from),
            Stmt::Load { to, scalar, place } => self.put_load(row, to, *scalar, place),
            Stmt::Store {
                scalar,
                place,
                from,
            } => self.put_store(row, *scalar, place, from),
            Stmt::Call {
                to,
                callee,
                arguments,
            } => self.put_call(row, to, callee, arguments.as_slice()),
            Stmt::Indirect {
                to,
                signature,
                callee,
                arguments,
            } => self.put_indirect(row, to, signature, callee, arguments.as_slice()),
            Stmt::Get { to } => self.put_get(row, to),
            Stmt::Put { from } => self.put_put(row, from),
            Stmt::Abort => self.put_abort(row),
        }
    }

    #[tactic(auto, unfolding(crate::specs::Codes::code_items))]
    fn put_each_statement(&self, row: &mut Row, body: &[Stmt]) -> Result<(), OutOfMemory>
        ensures { OnOk result (row.new ≡ code_items code_stmt (map (placed_stmt self.now) body.now) row.old) }
    {
        for statement in body {
            self.put_statement(row, statement)?;
        }
        Ok(())
    }

    #[tactic(auto, unfolding(crate::specs::Codes::code_body), using(crate::proofs::Rows::list_put))]
    fn put_body(&self, row: &mut Row, body: &[Stmt]) -> Result<(), OutOfMemory>
        ensures { OnOk result (row.new ≡ code_body (map (placed_stmt self.now) body.now) row.old) }
    {
        self.put_each_statement(row, body)?;
        row.put_count(body.len() as u64)
    }

    #[tactic(auto, unfolding(crate::specs::Codes::code_case))]
    fn put_case(&self, row: &mut Row, case: &Case) -> Result<(), OutOfMemory>
        ensures { OnOk result (row.new ≡ code_case (placed_case self.now case.now) row.old) }
    {
        row.put(case.value)?;
        self.put_label(row, case.target)
    }

    #[tactic(auto, unfolding(crate::specs::Codes::code_items))]
    fn put_each_case(&self, row: &mut Row, cases: &[Case]) -> Result<(), OutOfMemory>
        ensures { OnOk result (row.new ≡ code_items code_case (map (placed_case self.now) cases.now) row.old) }
    {
        for case in cases {
            self.put_case(row, case)?;
        }
        Ok(())
    }

    #[tactic(auto, unfolding(crate::specs::Codes::code_cases), using(crate::proofs::Rows::list_put))]
    fn put_cases(&self, row: &mut Row, cases: &[Case]) -> Result<(), OutOfMemory>
        ensures { OnOk result (row.new ≡ code_cases (map (placed_case self.now) cases.now) row.old) }
    {
        self.put_each_case(row, cases)?;
        row.put_count(cases.len() as u64)
    }

    #[tactic(auto, unfolding(crate::specs::Codes::code_returned, crate::specs::Codes::code_option))]
    fn put_returned(&self, row: &mut Row, value: &Option<Operand>) -> Result<(), OutOfMemory>
        ensures { OnOk result (row.new ≡ code_returned (placed_result self.now value.now) row.old) }
    {
        match value {
            Some(operand) => {
                self.put_operand(row, operand)?;
                row.put_count(1)
            }
            None => row.put_count(0),
        }
    }

    /// Puts the operands and the comparison of a branch.
    fn put_test(
        &self,
        row: &mut Row,
        left: &Operand,
        cmp: Cmp,
        right: &Operand,
    ) -> Result<(), OutOfMemory>
        ensures { OnOk result (row.new ≡ code_operand (placed_operand self.now right.now) (code_cmp cmp (code_operand (placed_operand self.now left.now) row.old))) }
    {
        self.put_operand(row, left)?;
        put_cmp(row, cmp)?;
        self.put_operand(row, right)
    }

    fn put_branch(&self, row: &mut Row, yes: u64, no: u64) -> Result<(), OutOfMemory>
        ensures { OnOk result (row.new ≡ pos 1 ∷ code_spot (label_in self.now no) (code_spot (label_in self.now yes) row.old)) }
    {
        self.put_label(row, yes)?;
        self.put_label(row, no)?;
        row.put_count(1)
    }

    fn put_switch(
        &self,
        row: &mut Row,
        on: &Operand,
        cases: &[Case],
        other: u64,
    ) -> Result<(), OutOfMemory>
        ensures { OnOk result (row.new ≡ pos 2 ∷ code_spot (label_in self.now other) (code_cases (map (placed_case self.now) cases.now) (code_operand (placed_operand self.now on.now) row.old))) }
    {
        self.put_operand(row, on)?;
        self.put_cases(row, cases)?;
        self.put_label(row, other)?;
        row.put_count(2)
    }

    #[tactic(auto, unfolding(crate::specs::Placed::placed_end, crate::specs::Codes::code_end))]
    fn put_end(&self, row: &mut Row, end: &End) -> Result<(), OutOfMemory>
        ensures { OnOk result (row.new ≡ code_end (placed_end self.now end.now) row.old) }
    {
        match end {
            End::Goto(to) => {
                self.put_label(row, *to)?;
                row.put_count(0)
            }
            End::If {
                left,
                cmp,
                right,
                yes,
                no,
            } => {
                self.put_test(row, left, *cmp, right)?;
                self.put_branch(row, *yes, *no)
            }
            End::Switch { on, cases, other } => self.put_switch(row, on, cases.as_slice(), *other),
            End::Return(value) => {
                self.put_returned(row, value)?;
                row.put_count(3)
            }
        }
    }

    #[tactic(auto, unfolding(crate::specs::Codes::code_block))]
    fn put_block(&self, row: &mut Row, block: &Block) -> Result<(), OutOfMemory>
        ensures { OnOk result (row.new ≡ code_block (placed_block self.now block.now) row.old) }
    {
        self.put_body(row, block.body.as_slice())?;
        self.put_end(row, &block.end)
    }

    #[tactic(auto, unfolding(crate::specs::Codes::code_items))]
    fn put_each_block(&self, row: &mut Row, blocks: &[Block]) -> Result<(), OutOfMemory>
        ensures { OnOk result (row.new ≡ code_items code_block (map (placed_block self.now) blocks.now) row.old) }
    {
        for block in blocks {
            self.put_block(row, block)?;
        }
        Ok(())
    }

    #[tactic(auto, unfolding(crate::specs::Codes::code_blocks), using(crate::proofs::Rows::list_put))]
    fn put_blocks(&self, row: &mut Row, blocks: &[Block]) -> Result<(), OutOfMemory>
        ensures { OnOk result (row.new ≡ code_blocks (map (placed_block self.now) blocks.now) row.old) }
    {
        self.put_each_block(row, blocks)?;
        row.put_count(blocks.len() as u64)
    }

    /// Puts all of the function but its name and its callees.
    #[tactic(auto, unfolding(crate::specs::Codes::code_function))]
    pub(crate) fn put_function(&self, row: &mut Row) -> Result<(), OutOfMemory>
        ensures { OnOk result (row.new ≡ code_function (placed_function self.now) row.old) }
    {
        put_registers(row, self.function.params.as_slice())?;
        put_result(row, self.function.result)?;
        put_locals(row, self.function.locals.as_slice())?;
        put_registers(row, self.function.registers.as_slice())?;
        self.put_blocks(row, self.function.blocks.as_slice())
    }
}
