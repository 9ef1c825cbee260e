//! A program whose calls are sent to the representatives of classes.

ghost use Rattle.std.specs.Prelude.{◌≡◌, ◌++◌, [], ◌∷◌, IfOk, OnOk, map, slice_index_or, false};
ghost use Rattle.std.specs.Str.{bytes_eq};
ghost use Rattle.gimple_core.specs.Run.{main_name};
ghost use Rattle.icf_classes.specs.Placed.{number_of};
ghost use Rattle.icf_classes.specs.Congruence.{class_of};
ghost use Rattle.icf_classes.specs.Merged.{sent_stmt, sent_body, sent_block, sent_function};
ghost use Rattle.icf_classes.specs.Mergers.{stays_in, sent_in, kept_in, merged_in};

use gimple_core::{
    Block, Blocks, Exact, Function, Functions, Listed, Marks, Numbers, OutOfMemory, Program, Stmt,
    Stmts, Text,
};
use name_tables::NamedFunctions;
use std::alloc::Global as Heap;
use std::marker::Model;

/// A program with the marks of its addressed functions, and classes of its functions.
#[derive(Drop)]
pub(crate) struct Merger<'a> {
    program: &'a Program,
    named: NamedFunctions<'a>,
    marks: Marks,
    classes: &'a Numbers,
}

impl<'a> Model for Merger<'a> {
    ghost use Rattle.std.specs.Prelude.{◌≡◌};
    ghost use Rattle.icf_classes.specs.Mergers.{Merging};

    ghost Value = { Merging };

    ghost view = { λ m. record { program = m.program.now; marks = m.marks; classes = m.classes.now } };

    ghost invariant = { λ m. m.named ≡ m.program.now.functions };
}

/// Whether this is the name of `main`.
#[tactic(auto, using(gimple_core::proofs::EnvLemmas::same_test))]
fn is_main(name: &Text) -> bool
    ensures { result ≡ bytes_eq name.now main_name }
{
    b"main".as_slice() == name.as_slice()
}

impl<'a> Merger<'a> {
    /// Err is want of memory.
    pub(crate) fn new(
        alloc: Heap,
        program: &'a Program,
        marks: Marks,
        classes: &'a Numbers,
    ) -> Result<Merger<'a>, OutOfMemory>
        ensures { IfOk result (λ m. m ≡ record { program = program.now; marks = marks; classes = classes.now }) }
    {
        let named = NamedFunctions::new(alloc, program.functions.as_slice())?;
        Ok(Merger {
            program,
            named,
            marks,
            classes,
        })
    }

    /// The number of the first function of a name, or how many functions there are.
    #[tactic(auto, unfolding(crate::specs::Placed::number_of))]
    fn number_of(&self, name: &Text) -> usize
        ensures { result ≡ number_of self.now.program name.now }
    {
        match self.named.place(name) {
            Some(number) => number,
            None => self.named.len(),
        }
    }

    /// The number of the representative of a function's class.
    fn class_of(&self, number: usize) -> usize
        ensures { result ≡ class_of self.now.classes number }
    {
        match self.classes.get(number) {
            Some(class) => *class as usize,
            None => number,
        }
    }

    fn is_marked(&self, number: usize) -> bool
        ensures { result ≡ slice_index_or self.now.marks number false }
    {
        match self.marks.get(number) {
            Some(mark) => *mark,
            None => false,
        }
    }

    /// Whether the function of a name, which has this number, stays as it is under its own name.
    fn stays(&self, name: &Text, number: usize) -> bool
        requires { number ≡ number_of self.now.program name.now }
        ensures { result ≡ stays_in self.now name.now }
    {
        if is_main(name) {
            return true;
        }
        self.is_marked(number)
    }

    /// Whether a function is in the program that comes out.
    fn keeps(&self, name: &Text) -> bool
        ensures { result ≡ kept_in self.now name.now }
    {
        let number = self.number_of(name);
        if self.stays(name, number) {
            return true;
        }
        self.class_of(number) == number
    }

    /// What is called in the place of a function.
    #[tactic(auto, unfolding(crate::specs::Merged::representative))]
    fn sent(&self, name: &Text) -> Result<Text, OutOfMemory>
        ensures { IfOk result (λ other. other ≡ sent_in self.now name.now) }
    {
        let number = self.number_of(name);
        if self.stays(name, number) {
            return name.copy();
        }
        match self.program.functions.get(self.class_of(number)) {
            Some(function) => function.name.copy(),
            None => name.copy(),
        }
    }

    fn statement(&self, statement: &Stmt) -> Result<Stmt, OutOfMemory>
        ensures { IfOk result (λ x. x ≡ sent_stmt (sent_in self.now) statement.now) }
    {
        match statement {
            Stmt::Call {
                to,
                callee,
                arguments,
            } => Ok(Stmt::Call {
                to: to.copy()?,
                callee: self.sent(callee)?,
                arguments: arguments.copy()?,
            }),
            _ => statement.copy(),
        }
    }

    fn body(&self, alloc: Heap, body: &[Stmt]) -> Result<Stmts, OutOfMemory>
        ensures { IfOk result (λ xs. xs ≡ sent_body (sent_in self.now) body.now) }
    {
        let mut made = Listed::new(alloc);
        for statement in body {
            made.push(self.statement(statement)?)?;
        }
        Ok(made)
    }

    fn block(&self, alloc: Heap, block: &Block) -> Result<Block, OutOfMemory>
        ensures { IfOk result (λ b. b ≡ sent_block (sent_in self.now) block.now) }
    {
        Ok(Block {
            label: block.label,
            body: self.body(alloc, block.body.as_slice())?,
            end: block.end.copy()?,
        })
    }

    fn blocks(&self, alloc: Heap, blocks: &[Block]) -> Result<Blocks, OutOfMemory>
        ensures { IfOk result (λ bs. bs ≡ map (sent_block (sent_in self.now)) blocks.now) }
    {
        let mut made = Listed::new(alloc);
        for block in blocks {
            made.push(self.block(alloc, block)?)?;
        }
        Ok(made)
    }

    fn function(&self, alloc: Heap, function: &Function) -> Result<Function, OutOfMemory>
        ensures { IfOk result (λ f. f ≡ sent_function (sent_in self.now) function.now) }
    {
        Ok(Function {
            name: function.name.copy()?,
            params: function.params.copy()?,
            result: function.result,
            locals: function.locals.copy()?,
            registers: function.registers.copy()?,
            blocks: self.blocks(alloc, function.blocks.as_slice())?,
        })
    }

    /// Puts a function with its calls sent behind the others, if it is in the program that comes out.
    #[tactic(auto, unfolding(crate::specs::Mergers::merged_in))]
    fn push_kept(
        &self,
        alloc: Heap,
        function: &Function,
        kept: &mut Functions,
    ) -> Result<(), OutOfMemory>
        ensures { OnOk result (kept.new ≡ kept.old ++ merged_in self.now (function.now ∷ [])) }
    {
        if self.keeps(&function.name) {
            kept.push(self.function(alloc, function)?)?;
        }
        Ok(())
    }

    /// The functions of the program that comes out.
    pub(crate) fn functions(&self, alloc: Heap) -> Result<Functions, OutOfMemory>
        ensures { IfOk result (λ fs. fs ≡ merged_in self.now self.now.program.functions) }
    {
        let mut kept = Listed::new(alloc);
        for function in self.program.functions.as_slice() {
            self.push_kept(alloc, function, &mut kept)?;
        }
        Ok(kept)
    }
}
