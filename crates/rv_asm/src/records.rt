//! What the lines of a source have made so far: its records.

ghost use Rattle.std.specs.Prelude.{◌<◌, ◌^◌, length, Ok};
ghost use Rattle.std.specs.Option.{ForSome};
ghost use Rattle.cfi_aux.specs.Records.{list_length};
ghost use Rattle.rv_asm.specs.Node.{node_of};
ghost use Rattle.rv_asm.specs.inner.Draft.{with_node, with_function, closed, with_kind, with_switch};
ghost use Rattle.rv_asm.specs.inner.Passes.{or_range, Gives};

use crate::draft::Draft;
use crate::fault::AsmFault;
use crate::node::{callable_in, node_of};
use crate::spot::Spot;
use crate::step::Step;
use cfi_aux::{Function, Kind};
use cfi_values::Items;
use cfi_word::limits::{MAX_FUNCTIONS, MAX_NAME, MAX_NODES};
use elf_read::Name;
use rv_line::NodeKind;

impl Draft {
    pub(crate) fn add_node(
        &mut self,
        step: &Step,
        kind: NodeKind,
        fields: &[i64],
    ) -> Result<(), AsmFault>
        ensures { Gives result self.new
            (or_range step.now.row.now.number (with_node self.old (node_of kind fields.now))) }
    {
        let number = step.row.number;
        let Some(node) = node_of(step.alloc, kind, fields)? else {
            return Err(AsmFault::Range(number));
        };
        if self.nodes.len() >= MAX_NODES as usize {
            return Err(AsmFault::Range(number));
        }
        self.nodes.push(node)?;
        Ok(())
    }

    pub(crate) fn begin_function(
        &mut self,
        step: &Step,
        name: &Name,
        node: i64,
        taken: bool,
    ) -> Result<(), AsmFault>
        ensures { let row = step.now.row.now in Gives result self.new (or_range row.number
            (with_function step.now.file.now.kinds row.spot self.old name.now node taken)) }
    {
        let number = step.row.number;
        let name = name.as_str();
        let Some(ty) = callable_in(step.file.kinds.as_slice(), node) else {
            return Err(AsmFault::Range(number));
        };
        if self.functions.len() >= MAX_FUNCTIONS as usize || name.len() > MAX_NAME as usize {
            return Err(AsmFault::Range(number));
        }
        self.function = Some(Function {
            offset: step.row.spot.text_end,
            length: 0,
            ty,
            taken,
            name: Name::from_string(String::from_str(step.alloc, name)?),
        });
        Ok(())
    }

    pub(crate) fn end_function(&mut self, spot: Spot) -> Result<(), AsmFault>
        ensures { Gives result self.new (Ok (closed spot self.old self.old.function)) }
    {
        self.functions.reserve(1)?;
        if let Some(function) = self.function.take() {
            self.functions.push_reserved(Function {
                length: spot.text_end.saturating_sub(function.offset),
                ..function
            });
        }
        Ok(())
    }

    pub(crate) fn set_kind(&mut self, number: u32, kind: Option<Kind>) -> Result<(), AsmFault>
        requires { ForSome kind (λ kind. list_length kind < 2 ^ 32) }
        ensures { Gives result self.new (or_range number (with_kind self.old kind)) }
    {
        match kind {
            Some(kind) => {
                self.kind = Some(kind);
                Ok(())
            }
            None => Err(AsmFault::Range(number)),
        }
    }

    pub(crate) fn set_switch(&mut self, number: u32, values: Vec<u32>) -> Result<(), AsmFault>
        ensures { Gives result self.new (or_range number (with_switch self.old values.items)) }
    {
        if values.len() > u32::MAX as usize {
            return Err(AsmFault::Range(number));
        }
        self.set_kind(number, Some(Kind::Switch(Items::from_vec(values))))
    }
}
