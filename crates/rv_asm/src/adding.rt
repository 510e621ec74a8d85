//! What a statement makes.

ghost use Rattle.rv_asm.specs.inner.Draft.{with_statement};
ghost use Rattle.rv_asm.specs.inner.Passes.{or_range, Gives};

use crate::draft::Draft;
use crate::fault::AsmFault;
use crate::node::callable_in;
use crate::step::Step;
use crate::switch::values_of;
use cfi_aux::Kind;
use rv_line::Statement;

impl Draft {
    /// Adds what a statement makes.
    pub fn add(&mut self, step: &Step, statement: &Statement) -> Result<(), AsmFault>
        ensures { let row = step.now.row.now in Gives result self.new (or_range row.number
            (with_statement step.now.file.now row.spot self.old statement.now)) }
    {
        let number = step.row.number;
        let file = step.file;
        match statement {
            Statement::Blank | Statement::Text | Statement::Data | Statement::Globl(_) => Ok(()),
            Statement::Word(datum) => self.add_word(step, statement, datum),
            Statement::Zero(count) => self.add_zeros(step, *count),
            Statement::Node { kind, fields } => self.add_node(step, *kind, fields.as_slice()),
            Statement::Func { name, node, taken } => self.begin_function(step, name, *node, *taken),
            Statement::EndFunc => self.end_function(step.row.spot),
            Statement::KindCall(node) => self.set_kind(
                number,
                callable_in(file.kinds.as_slice(), *node).map(Kind::Call),
            ),
            Statement::KindTail(node) => self.set_kind(
                number,
                callable_in(file.kinds.as_slice(), *node).map(Kind::Tail),
            ),
            Statement::KindReturn => self.set_kind(number, Some(Kind::Return)),
            Statement::KindSwitch(names) => {
                let values = values_of(step.alloc, &file.names, names.as_slice())?;
                self.set_switch(number, values)
            }
            Statement::Jalr { .. } | Statement::Ret => {
                self.add_jump(number, file.records)?;
                self.add_code(step, statement)
            }
            Statement::Op { .. }
            | Statement::OpImm { .. }
            | Statement::Load { .. }
            | Statement::Store { .. }
            | Statement::Branch { .. }
            | Statement::Lui { .. }
            | Statement::Auipc { .. }
            | Statement::Jal { .. }
            | Statement::Fence
            | Statement::Ecall
            | Statement::Ebreak
            | Statement::Li { .. }
            | Statement::La { .. }
            | Statement::Call(_)
            | Statement::Tail(_) => self.add_code(step, statement),
        }
    }
}
