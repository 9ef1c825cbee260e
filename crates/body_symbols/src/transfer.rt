//! What statements make of the symbols of registers.

ghost use Rattle.std.specs.Prelude.{◌≡◌, ◌<◌, ◌^◌, length, nat_lt, if◌then◌else◌, slice_get, slice_set, IfOk, IfSome, IsTrue};
ghost use Rattle.std.specs.Option.{option_copied};
ghost use Rattle.gimple_core.specs.Operators.{in_scalar};
ghost use Rattle.gimple_core.specs.State.{offset_in};
ghost use Rattle.gimple_core.specs.Statements.{is_pointer};
ghost use Rattle.body_symbols.specs.Bodies.{global_symbol, address_symbol, symbol_or, operand_symbol, arith_symbol, compare_symbol, register_scalar, set_symbol, set_reached, set_result, change_of, changed, formal_symbol, zero_symbol, first_symbols};
ghost use Rattle.body_symbols.specs.Scenes.{body_in};

use crate::change::Change;
use crate::evaluation::{arithmetic, comparison};
use crate::scene::Scene;
use crate::symbol::{Symbol, Variable};
use block_flow::BodyAnalysis;
use fix_engine::{Lifted, Rows};
use gimple_core::{Cmp, Constant, End, Op, Operand, OutOfMemory, Scalar, Stmt, Text, fits};
use name_tables::{NamedGlobals, NamedLocals, RegisterTable};

/// An offset as it is read.
#[tactic(auto, unfolding(gimple_core::specs::State::number_in))]
fn inside(offset: i128) -> i128
    ensures value { result ≡ offset_in offset }
    ensures fits { IsTrue (in_scalar Scalar.I64 result) }
{
    if fits(Scalar::I64, offset) { offset } else { 0 }
}

/// An offset as a number of i64.
fn offset_of(offset: i128) -> i64
    ensures { result ≡ offset_in offset }
{
    inside(offset) as i64
}

/// The address of a global, by its number; that of a function has no symbol.
fn global_address(number: Option<usize>, offset: i128) -> Symbol
    requires { IfSome number (λ k. k < 2 ^ 32) }
    ensures { result ≡ global_symbol number offset }
{
    match number {
        Some(number) => Symbol::VariableAt {
            variable: Variable::Global(number as u32),
            offset: Some(offset_of(offset)),
        },
        None => Symbol::Unknown,
    }
}

/// The address of a variable or of a function, by its name.
#[tactic(auto, unfolding(crate::specs::Bodies::address_symbol))]
pub(crate) fn address(
    globals: &NamedGlobals,
    locals: &NamedLocals,
    name: &Text,
    offset: i128,
) -> Symbol
    requires globals { length globals.now < 2 ^ 32 }
    requires locals { length locals.now < 2 ^ 32 }
    ensures { result ≡ address_symbol globals.now locals.now name.now offset }
{
    match locals.place(name) {
        Some(number) => Symbol::VariableAt {
            variable: Variable::Local(number as u32),
            offset: Some(offset_of(offset)),
        },
        None => global_address(globals.place(name), offset),
    }
}

/// The symbol at a place of a row.
fn symbol_at(row: &[Symbol], place: usize) -> Symbol
    ensures { result ≡ symbol_or (slice_get row.now place) }
{
    match row.get(place) {
        Some(symbol) => *symbol,
        None => Symbol::Unknown,
    }
}

/// The scalar of the first register of a name; of no register it is `ptr`.
fn scalar_of(registers: &RegisterTable, name: &Text) -> Scalar
    ensures { result ≡ register_scalar registers.now name.now }
{
    match registers.named(name) {
        Some(register) => register.scalar,
        None => Scalar::Ptr,
    }
}

fn pointer(scalar: Scalar) -> bool
    ensures { result ≡ is_pointer scalar }
{
    matches!(scalar, Scalar::Ptr)
}

/// The symbol of a formal at the entry.
fn formal(number: u32, scalar: Scalar) -> Symbol
    ensures { result ≡ formal_symbol number scalar }
{
    if pointer(scalar) {
        Symbol::FormalAt {
            param: number,
            offset: Some(0),
        }
    } else {
        Symbol::Formal(number)
    }
}

/// The symbol of a register at the entry.
fn zero(scalar: Scalar) -> Symbol
    ensures { result ≡ zero_symbol scalar }
{
    if pointer(scalar) {
        Symbol::Const(Constant::Null)
    } else {
        Symbol::Const(Constant::Int(0))
    }
}

/// The symbols after a change.
pub(crate) fn apply(row: Rows<Symbol>, change: Change) -> Lifted<Rows<Symbol>>
    ensures { result ≡ changed row change }
{
    match change {
        Change::Nothing => Lifted::Reached(row),
        Change::Sets { place, symbol } => Lifted::Reached(with_symbol(row, place, symbol)),
        Change::Ends => Lifted::NotReached,
    }
}

/// The symbols with another one at a place, if there is one.
fn with_symbol(row: Rows<Symbol>, place: usize, symbol: Symbol) -> Rows<Symbol>
    ensures { result ≡ slice_set row place symbol }
{
    let mut row = row;
    if place < row.as_slice().len() {
        row.set(place, symbol);
    }
    row
}

impl<'a, 'g, 'l> Scene<'a, 'g, 'l> {
    /// The symbol of an operand, by those of the registers.
    #[tactic(auto, unfolding(crate::specs::Bodies::operand_symbol))]
    pub(crate) fn operand(&self, row: &[Symbol], operand: &Operand) -> Symbol
        ensures { result ≡ operand_symbol (body_in self.now) row.now operand.now }
    {
        match operand {
            Operand::Reg(name) => symbol_at(row, self.registers.place(name)),
            Operand::Number(value) => Symbol::Const(Constant::Int(*value)),
            Operand::Null => Symbol::Const(Constant::Null),
            Operand::Address { variable, offset } => {
                address(self.globals, self.locals, variable, *offset)
            }
        }
    }

    fn set(&self, to: &Text, symbol: Symbol) -> Change
        ensures { result ≡ set_symbol (body_in self.now) to.now symbol }
    {
        Change::Sets {
            place: self.registers.place(to),
            symbol,
        }
    }

    fn set_reached(&self, to: &Text, symbol: Lifted<Symbol>) -> Change
        ensures { result ≡ set_reached (body_in self.now) to.now symbol }
    {
        match symbol {
            Lifted::NotReached => Change::Ends,
            Lifted::Reached(symbol) => self.set(to, symbol),
        }
    }

    fn arithmetic(
        &self,
        row: &[Symbol],
        to: &Text,
        left: &Operand,
        op: Op,
        right: &Operand,
    ) -> Change
        ensures { result ≡ set_reached (body_in self.now) to.now (arith_symbol self.now.mode (register_scalar self.now.registers.now to.now) (operand_symbol (body_in self.now) row.now left.now) op (operand_symbol (body_in self.now) row.now right.now)) }
    {
        let scalar = scalar_of(self.registers, to);
        let (left, right) = (self.operand(row, left), self.operand(row, right));
        self.set_reached(to, arithmetic(self.mode, scalar, left, op, right))
    }

    fn comparison(
        &self,
        row: &[Symbol],
        to: &Text,
        left: &Operand,
        cmp: Cmp,
        right: &Operand,
    ) -> Change
        ensures { result ≡ set_symbol (body_in self.now) to.now (compare_symbol (operand_symbol (body_in self.now) row.now left.now) cmp (operand_symbol (body_in self.now) row.now right.now)) }
    {
        let (left, right) = (self.operand(row, left), self.operand(row, right));
        self.set(to, comparison(left, cmp, right))
    }

    fn result(&self, to: Option<&Text>) -> Change
        ensures { result ≡ set_result (body_in self.now) (option_copied to.entry) }
    {
        match to {
            Some(to) => self.set(to, Symbol::Unknown),
            None => Change::Nothing,
        }
    }

    /// What a statement changes.
    #[tactic(auto, unfolding(crate::specs::Bodies::change_of))]
    pub(crate) fn change(&self, row: &[Symbol], statement: &Stmt) -> Change
        ensures { result ≡ change_of (body_in self.now) row.now statement.now }
    {
        match statement {
            Stmt::Copy { to, from } => self.set(to, self.operand(row, from)),
            Stmt::Arith {
                to,
                left,
                op,
                right,
            } => self.arithmetic(row, to, left, *op, right),
            Stmt::Compare {
                to,
                left,
                cmp,
                right,
            } => self.comparison(row, to, left, *cmp, right),
            Stmt::Convert {
                to,
                scalar: _,
                from: _,
            } => self.set(to, Symbol::Unknown),
            Stmt::Load {
                to,
                scalar: _,
                place: _,
            } => self.set(to, Symbol::Unknown),
            Stmt::Call {
                to,
                callee: _,
                arguments: _,
            } => self.result(to.as_ref()),
            Stmt::Indirect {
                to,
                signature: _,
                callee: _,
                arguments: _,
            } => self.result(to.as_ref()),
            Stmt::Get { to } => self.set(to, Symbol::Unknown),
            Stmt::Store { .. } | Stmt::Put { .. } => Change::Nothing,
            Stmt::Abort => Change::Ends,
        }
    }

    /// The symbols of the registers at the entry.
    fn first(&self) -> Result<Vec<Symbol>, OutOfMemory>
        ensures { IfOk result (λ v. v.items ≡ first_symbols self.now.formals 0 self.now.registers.now) }
    {
        let registers = self.registers.as_slice();
        let mut row = Vec::new(self.alloc);
        for at in 0..registers.len() {
            row.push(self.first_of(at, registers[at].scalar))?;
        }
        Ok(row)
    }

    fn first_of(&self, at: usize, scalar: Scalar) -> Symbol
        ensures { result ≡ (if nat_lt at self.now.formals then formal_symbol at scalar else zero_symbol scalar) }
    {
        if at < self.formals {
            formal(at as u32, scalar)
        } else {
            zero(scalar)
        }
    }
}

impl<'a, 'g, 'l> BodyAnalysis for Scene<'a, 'g, 'l> {
    ghost use Rattle.std.specs.Prelude.{[], ◌∷◌, length};
    ghost use Rattle.body_symbols.specs.Bodies.{symbol_steps};
    ghost use Rattle.body_symbols.specs.BodiesLaws.{symbol_steps_laws};
    ghost use Rattle.body_symbols.specs.Scenes.{body_in};

    type Value = Rows<Symbol>;

    ghost kind = { λ s. length s.registers.now ∷ [] };

    ghost steps = { λ s. symbol_steps (body_in s) };

    ghost laws = { λ s. symbol_steps_laws (body_in s) };

    fn begin(&self) -> Result<Lifted<Rows<Symbol>>, OutOfMemory> {
        let row = self.first()?;
        Ok(Lifted::Reached(Rows::new(row)))
    }

    fn statement(
        &self,
        _block: u32,
        _index: u32,
        statement: &Stmt,
        value: Rows<Symbol>,
    ) -> Result<Lifted<Rows<Symbol>>, OutOfMemory> {
        let change = self.change(value.as_slice(), statement);
        Ok(apply(value, change))
    }

    fn branch(
        &self,
        _block: u32,
        _end: &End,
        _slot: u32,
        value: Rows<Symbol>,
    ) -> Result<Lifted<Rows<Symbol>>, OutOfMemory> {
        Ok(Lifted::Reached(value))
    }
}
