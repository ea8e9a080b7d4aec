//! What a text asks of numbers before its instructions and along its edges.

use annotate_facts::{Heap, Sum, block_at, definition_of};
use lists::Name;
use syntax::{
    Address, Argument, BinaryOperator, Form, Function, Inequality, Instruction, Module, Operand,
    Parameter, Step, Width,
};

/// A function of a module.
#[derive(Clone, Copy)]
pub struct Scope<'a> {
    pub heap: &'a Heap,
    pub module: &'a Module,
    pub function: &'a Function,
}

/// A call, as the annotations of its callee see it.
#[derive(Clone, Copy)]
pub struct Call<'a> {
    heap: &'a Heap,
    pub callee: &'a Function,
    arguments: &'a [Argument],
    result: Option<&'a Name>,
}

fn is_named(parameter: &Parameter, name: &str) -> bool {
    match parameter {
        Parameter::Number { name: own } | Parameter::Pointer { name: own, .. } => {
            own.as_str() == name
        }
    }
}

impl<'a> Call<'a> {
    /// The argument of a parameter.
    pub fn argument(self, name: &str) -> Option<&'a Argument> {
        for (place, parameter) in self.callee.parameters.as_slice().iter().enumerate() {
            if is_named(parameter, name) {
                return self.arguments.get(place);
            }
        }
        None
    }

    fn put_term(self, placed: &mut Sum<'a>, name: &str, times: i128) {
        match (self.argument(name), self.result) {
            (Some(Argument::Number(value)), _) => placed.add_operand(value, times),
            (None, Some(result)) => placed.add_term(result.as_str(), times),
            _ => {}
        }
    }

    /// A sum over the callee's parameters and result, with the call's in their place.
    fn put_in(self, sum: &Sum<'a>) -> Sum<'a> {
        let mut placed = Sum::number(self.heap, sum.constant);
        for (name, coefficient) in &sum.terms {
            self.put_term(&mut placed, name, *coefficient);
        }
        placed
    }

    /// A form of the callee's lines, over its parameters and result, with the call's arguments and result in their place.
    pub fn put_in_form(self, form: &'a Form) -> Sum<'a> {
        self.put_in(&Sum::of_form(self.heap, form))
    }

    /// What an inequality of the callee says of the call to be at least 0.
    pub fn said(self, inequality: &'a Inequality) -> Sum<'a> {
        self.put_in(&Sum::of_inequality(self.heap, inequality))
    }
}

/// The least number of a width, and the greatest.
pub fn ends_of(width: Width) -> (i128, i128) {
    match width {
        Width::Bits64 => (-9_223_372_036_854_775_808, 9_223_372_036_854_775_807),
        Width::Bits32 => (-2_147_483_648, 2_147_483_647),
    }
}

/// How many cells the object of a pointer has that is a parameter of this name.
pub fn pointer_cells(function: &Function, name: &Name) -> Option<u64> {
    for parameter in function.parameters.as_slice() {
        if let Parameter::Pointer { name: own, cells } = parameter {
            if own.is_same(name) {
                return Some(*cells);
            }
        }
    }
    None
}

/// The size of an `alloca` among these.
fn alloca_cells(steps: &[Step], name: &Name) -> Option<u64> {
    for step in steps {
        if let Instruction::Alloca { register, size } = &step.instruction {
            if register.is_same(name) {
                return Some(size.cells());
            }
        }
    }
    None
}

impl<'a> Scope<'a> {
    /// The function of this name.
    fn function_of(self, name: &Name) -> Option<&'a Function> {
        for function in self.module.functions.as_slice() {
            if function.name.is_same(name) {
                return Some(function);
            }
        }
        None
    }

    fn global_cells(self, name: &Name) -> Option<u64> {
        for global in self.module.globals.as_slice() {
            if global.name.is_same(name) {
                return Some(global.cells);
            }
        }
        None
    }

    /// How many cells an object has.
    pub fn cells_of(self, address: &Address) -> Option<u64> {
        match address {
            Address::Global(name) => self.global_cells(name),
            Address::Register(name) => match (
                pointer_cells(self.function, name),
                block_at(self.function, 0),
            ) {
                (None, Some(entry)) => alloca_cells(entry.steps.as_slice(), name),
                (cells, _) => cells,
            },
        }
    }

    /// The call that an instruction is.
    pub fn call_of(self, instruction: &'a Instruction) -> Option<Call<'a>> {
        match instruction {
            Instruction::Call {
                register,
                callee,
                arguments,
            } => match self.function_of(callee) {
                Some(callee) => Some(Call {
                    heap: self.heap,
                    callee,
                    arguments: arguments.as_slice(),
                    result: register.as_ref(),
                }),
                None => None,
            },
            _ => None,
        }
    }

    /// What an instruction asks to be at least 0.
    pub fn goals(self, instruction: &'a Instruction) -> Vec<Sum<'a>> {
        let mut goals = Goals {
            scope: self,
            sums: self.heap.list(),
        };
        goals.push_own(instruction);
        if let Some(call) = self.call_of(instruction) {
            goals.push_asked(call);
            goals.push_measure(call);
        }
        goals.sums
    }
}

/// Sums that are to be at least 0, while they are gathered.
#[derive(Drop)]
struct Goals<'a> {
    scope: Scope<'a>,
    sums: Vec<Sum<'a>>,
}

impl<'a> Goals<'a> {
    fn push(&mut self, sum: Sum<'a>) {
        self.scope.heap.push(&mut self.sums, sum);
    }

    /// Asks that a value lies from one number to another.
    fn push_between(&mut self, value: &Sum<'a>, low: i128, high: i128) {
        self.push(value.raised(0i128.saturating_sub(low)));
        self.push(value.below(high));
    }

    fn push_operand(&mut self, operand: &'a Operand, low: i128, high: i128) {
        let value = Sum::of_operand(self.scope.heap, operand, 1);
        self.push_between(&value, low, high);
    }

    /// Asks what the facts that an operation makes, or its result, ask of its operands.
    fn push_operation(&mut self, instruction: &'a Instruction) {
        let Instruction::Binary {
            operator,
            width,
            left,
            right,
            ..
        } = instruction
        else {
            return;
        };
        let (low, high) = ends_of(*width);
        match operator {
            BinaryOperator::AddNoWrap
            | BinaryOperator::SubtractNoWrap
            | BinaryOperator::MultiplyNoWrap => {
                if let Some(sum) = definition_of(self.scope.heap, instruction) {
                    self.push_between(&sum, low, high);
                }
            }
            BinaryOperator::SignedDivide | BinaryOperator::SignedRemainder => {
                self.push_operand(left, 0, high);
                self.push_operand(right, 1, high);
            }
            BinaryOperator::UnsignedDivide | BinaryOperator::UnsignedRemainder => {
                self.push_operand(right, 1, high);
            }
            BinaryOperator::ShiftLeft
            | BinaryOperator::LogicalShiftRight
            | BinaryOperator::ArithmeticShiftRight => {
                let most = if *width == Width::Bits64 { 63 } else { 31 };
                self.push_operand(right, 0, most);
            }
            _ => {}
        }
    }

    /// Asks what an instruction asks of its operands.
    fn push_own(&mut self, instruction: &'a Instruction) {
        match instruction {
            Instruction::ElementPointer { base, index, .. } => {
                if let Some(cells) = self.scope.cells_of(base) {
                    self.push_operand(index, 0, i128::from(cells).saturating_sub(1));
                }
            }
            Instruction::Convert { value, .. } => {
                let (low, high) = ends_of(Width::Bits32);
                self.push_operand(value, low, high);
            }
            _ => self.push_operation(instruction),
        }
    }

    /// Asks what a callee asks of its parameters.
    fn push_asked(&mut self, call: Call<'a>) {
        for inequality in call.callee.notes.requirements.as_slice() {
            self.push(call.said(inequality));
        }
    }

    /// Asks that the measure falls at a self call, and is not below 0.
    fn push_measure(&mut self, call: Call<'a>) {
        let function = self.scope.function;
        if call.callee.name.is_same(&function.name) {
            let measure = &function.notes.measure.form;
            let next = call.put_in_form(measure);
            let mut fallen = Sum::of_form(self.scope.heap, measure);
            fallen.add(&next, -1);
            fallen.add_number(-1);
            self.push(fallen);
            self.push(next);
        }
    }
}
