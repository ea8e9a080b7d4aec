//! The registers of a function in their order, and what its names stand for.

ghost use Rattle.std.specs.Prelude.{◌≡◌, OnOk, IfOk};
ghost use Rattle.types.specs.names.Layout as spec;

use crate::names::scope::{Holding, Named, Origin, Register, Scope};
use crate::names::table::NameTable;
use lists::{Name, Seq};
use program::{Alloca, AllocaId, BlockId, ObjectName, RegisterId, RegisterKind, Width};
use std::alloc::{AllocError, Global};
use std::hash::RandomState;
use syntax::{Block, Conversion, Function, Instruction, Parameter, Phi, Step};

/// The names of a function with its registers and its allocas, each in the order of the text.
#[derive(Drop)]
pub struct Layout {
    pub scope: Scope,
    pub registers: Seq<RegisterKind>,
    pub allocas: Seq<Alloca>,
}

fn kind_of(holding: Holding) -> RegisterKind
    ensures { result ≡ spec.kind_of holding }
{
    match holding {
        Holding::Number(width) => RegisterKind::Number(width),
        Holding::Truth => RegisterKind::Truth,
        Holding::Object { .. } => RegisterKind::Object,
        Holding::Element => RegisterKind::Element,
        Holding::Region => RegisterKind::Region,
    }
}

/// The width of what a conversion gives.
fn target_width(conversion: Conversion) -> Width
    ensures { result ≡ spec.target_width conversion }
{
    match conversion {
        Conversion::Truncate => Width::Bits32,
        Conversion::SignExtend => Width::Bits64,
        Conversion::ZeroExtend => Width::Bits64,
    }
}

impl Layout {
    fn new(alloc: Global, state: RandomState) -> Layout
        ensures { result ≡ spec.no_layout }
    {
        Layout {
            scope: NameTable::new(alloc, state),
            registers: Seq::new(alloc),
            allocas: Seq::new(alloc),
        }
    }

    /// The next register.
    fn add(
        &mut self,
        alloc: Global,
        name: &Name,
        holding: Holding,
        origin: Origin,
    ) -> Result<(), AllocError>
        ensures { OnOk result (self.new ≡ spec.with_register self.old name.now holding origin) }
    {
        let id = RegisterId(self.registers.len());
        let register = Register {
            id,
            holding,
            origin,
        };
        self.scope.define(alloc, name, Named::Register(register))?;
        self.registers.push(kind_of(holding))?;
        Ok(())
    }

    fn add_parameter(&mut self, alloc: Global, parameter: &Parameter) -> Result<(), AllocError>
        ensures { OnOk result (self.new ≡ spec.with_parameter self.old parameter.now) }
    {
        match parameter {
            Parameter::Number { name } => {
                let holding = Holding::Number(Width::Bits64);
                self.add(alloc, name, holding, Origin::Parameter)
            }
            Parameter::Pointer { name, cells } => {
                let object = ObjectName::Parameter(RegisterId(self.registers.len()));
                let holding = Holding::Object {
                    name: object,
                    cells: *cells,
                };
                self.add(alloc, name, holding, Origin::Parameter)
            }
        }
    }

    fn add_phi(&mut self, alloc: Global, phi: &Phi) -> Result<(), AllocError>
        ensures { OnOk result (self.new ≡ spec.with_phi self.old phi.now) }
    {
        let holding = Holding::Number(phi.width);
        self.add(alloc, &phi.register, holding, Origin::Phi)
    }

    fn add_alloca(
        &mut self,
        alloc: Global,
        line: u32,
        name: &Name,
        cells: u64,
        origin: Origin,
    ) -> Result<(), AllocError>
        ensures { OnOk result (self.new ≡ spec.with_alloca self.old line name.now cells origin) }
    {
        let register = RegisterId(self.registers.len());
        let holding = Holding::Object {
            name: ObjectName::Alloca(AllocaId(self.allocas.len())),
            cells,
        };
        self.add(alloc, name, holding, origin)?;
        self.allocas.push(Alloca {
            line,
            register,
            cells,
        })?;
        Ok(())
    }

    fn add_call(
        &mut self,
        alloc: Global,
        register: &Option<Name>,
        origin: Origin,
    ) -> Result<(), AllocError>
        ensures { OnOk result (self.new ≡ spec.with_call self.old register.now origin) }
    {
        match register {
            None => Ok(()),
            Some(name) => self.add(alloc, name, Holding::Number(Width::Bits64), origin),
        }
    }

    /// The register that an instruction defines, if it defines one.
    fn add_instruction(
        &mut self,
        alloc: Global,
        line: u32,
        origin: Origin,
        instruction: &Instruction,
    ) -> Result<(), AllocError>
        ensures { OnOk result (self.new ≡ spec.with_instruction self.old line origin instruction.now) }
    {
        match instruction {
            Instruction::Binary {
                register,
                width,
                ..
            } => self.add(alloc, register, Holding::Number(*width), origin),
            Instruction::Compare { register, .. } => {
                self.add(alloc, register, Holding::Truth, origin)
            }
            Instruction::Convert {
                register,
                conversion,
                ..
            } => {
                let holding = Holding::Number(target_width(*conversion));
                self.add(alloc, register, holding, origin)
            }
            Instruction::Alloca { register, size } => {
                self.add_alloca(alloc, line, register, size.cells(), origin)
            }
            Instruction::ElementPointer { register, .. } => {
                self.add(alloc, register, Holding::Element, origin)
            }
            Instruction::Load { register, .. } => {
                self.add(alloc, register, Holding::Number(Width::Bits64), origin)
            }
            Instruction::Store { .. } => Ok(()),
            Instruction::StoreZeros { .. } => Ok(()),
            Instruction::AtomicAdd { .. } => Ok(()),
            Instruction::Call { register, .. } => self.add_call(alloc, register, origin),
            Instruction::StartRegion { register } => {
                self.add(alloc, register, Holding::Region, origin)
            }
        }
    }

    fn add_phis(&mut self, alloc: Global, phis: &[Phi]) -> Result<(), AllocError>
        ensures { OnOk result (self.new ≡ spec.with_phis self.old phis.now) }
    {
        for phi in phis {
            self.add_phi(alloc, phi)?;
        }
        Ok(())
    }

    fn add_steps(&mut self, alloc: Global, block: usize, steps: &[Step]) -> Result<(), AllocError>
        ensures { OnOk result (self.new ≡ spec.with_steps block self.old steps.now) }
    {
        for step in steps {
            self.add_instruction(alloc, step.line, Origin::Step(block), &step.instruction)?;
        }
        Ok(())
    }

    fn add_block(&mut self, alloc: Global, place: usize, block: &Block) -> Result<(), AllocError>
        ensures { OnOk result (self.new ≡ spec.with_block place self.old block.now) }
    {
        self.add_phis(alloc, block.phis.as_slice())?;
        self.add_steps(alloc, place, block.steps.as_slice())
    }

    fn add_parameters(&mut self, alloc: Global, parameters: &[Parameter]) -> Result<(), AllocError>
        ensures { OnOk result (self.new ≡ spec.with_parameters self.old parameters.now) }
    {
        for parameter in parameters {
            self.add_parameter(alloc, parameter)?;
        }
        Ok(())
    }

    fn add_blocks(&mut self, alloc: Global, blocks: &[Block]) -> Result<(), AllocError>
        ensures { OnOk result (self.new ≡ spec.with_blocks 0 self.old blocks.now) }
    {
        for place in 0..blocks.len() {
            self.add_block(alloc, place, &blocks[place])?;
        }
        Ok(())
    }

    fn add_label(&mut self, alloc: Global, place: usize, block: &Block) -> Result<(), AllocError>
        ensures { OnOk result (self.new ≡ spec.with_label place self.old block.now) }
    {
        let label = Named::Label(BlockId(place));
        self.scope.define(alloc, &block.label, label)
    }

    fn add_labels(&mut self, alloc: Global, blocks: &[Block]) -> Result<(), AllocError>
        ensures { OnOk result (self.new ≡ spec.with_labels 0 self.old blocks.now) }
    {
        for place in 0..blocks.len() {
            self.add_label(alloc, place, &blocks[place])?;
        }
        Ok(())
    }

    /// The layout of a function. The parameters come first, then the other registers, then the labels; a name that is
    /// defined twice keeps its first meaning.
    pub fn of(alloc: Global, state: RandomState, function: &Function) -> Result<Layout, AllocError>
        ensures { IfOk result (λ layout. layout ≡ spec.layout_of function.now) }
    {
        let mut layout = Layout::new(alloc, state);
        layout.add_parameters(alloc, function.parameters.as_slice())?;
        layout.add_blocks(alloc, function.blocks.as_slice())?;
        layout.add_labels(alloc, function.blocks.as_slice())?;
        Ok(layout)
    }
}
