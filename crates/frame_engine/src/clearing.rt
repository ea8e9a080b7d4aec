//! The array store: so many cells of an object take the number 0.

ghost use Rattle.std.specs.Prelude.{◌≡◌, ◌≢◌, ◌<◌, ◌≤◌, ◌+◌, ◌+ℤ◌, ℕ, ℤ, pos, IfErr, IsTrue, OnOk, Some, length};
ghost use Rattle.semantics.specs.Arithmetic.{wrapped};
ghost use Rattle.semantics.specs.Paths.{Path};
ghost use Rattle.semantics.specs.Cells.{Memory, Object};
ghost use Rattle.semantics.specs.Frames as frames;
ghost use Rattle.semantics.specs.Frames.{Does, item_at, object_at};
ghost use Rattle.program.specs.declared.function.Program.{Program};
ghost use Rattle.program.specs.declared.instruction.Instruction.TheVariants as instruction;
ghost use Rattle.syntax.specs.declared.operator.Width.TheVariants.{Bits64};
ghost use Rattle.frame_engine.specs.Accesses.{Zeroed, ZeroedOf, ZeroingRefused};
ghost use Rattle.frame_engine.specs.Activation.{LedFrame, ShowsFrame, allocas_of, bases_in};
ghost use Rattle.frame_engine.specs.Names.{HasObject, sizes};
ghost use Rattle.frame_engine.specs.Words.{IsFirst};
ghost use Rattle.frame_engine.specs.Shows.{IsSafe, Layout, Safe, ShowsCells, address};

use crate::activation::{Frame, Places};
use crate::cells::Cells;
use crate::words::{behind, first};
use program::ObjectName;

/// Gives so many cells, from an address on, the number 0.
pub fn write_zeros<C: Cells>(cells: &mut C, at: &i64, count: u64) -> Result<(), C::Stop>
    requires { (i : ℕ) → i < count → IsTrue (C.reaches cells.old (wrapped Bits64 (at.now +ℤ pos i))) }
    ensures zeros { OnOk result ((i : ℕ) → i < count → C.holds cells.new (wrapped Bits64 (at.now +ℤ pos i)) (pos 0)) }
    ensures others { OnOk result ((a z : ℤ) → C.holds cells.old a z →
        ((i : ℕ) → i < count → a ≢ wrapped Bits64 (at.now +ℤ pos i)) → C.holds cells.new a z) }
    ensures reaches { (a : ℤ) → IsTrue (C.reaches cells.old a) → IsTrue (C.reaches cells.new a) }
    ensures zeroed { OnOk result (Zeroed C.does at.now cells.old count cells.new) }
    ensures refused { IfErr result (λ stop. ZeroingRefused C.does C.refuses at.now count cells.old cells.new stop) }
{
    let mut next = *at;
    for _index in 0..count {
        cells.store(next, 0)?;
        next = behind(next, 1);
    }
    Ok(())
}

impl Frame {
    /// The address of the object's first cell.
    pub fn first_cell(&self, places: &Places, object: ObjectName) -> i64
        requires there { self.now.function.0 < length places.now.allocas }
        requires names { HasObject (sizes (length self.now.registers.items) (length places.now.globals)
            (length (allocas_of places.now self.now.function.0))) object }
        ensures { IsFirst (bases_in places.now self.now) self.now.registers.items object result }
    {
        let allocas = &places.allocas.as_slice()[self.function.0];
        first(
            &places.globals,
            allocas,
            &self.home,
            self.registers.as_slice(),
            object,
        )
    }

    /// Does the array store at its place: so many cells of the object take the number 0.
    pub fn clear<C: Cells>(
        &mut self,
        places: &Places,
        cells: &mut C,
        object: ObjectName,
        count: u64,
    ) -> Result<(), C::Stop>
        requires there { self.old.function.0 < length places.now.allocas }
        requires names { HasObject (sizes (length self.old.registers.items) (length places.now.globals)
            (length (allocas_of places.now self.old.function.0))) object }
        requires index { self.old.place.index + 1 < 18446744073709551616 }
        requires safe { IsSafe (bases_in places.now self.old) (C.reaches cells.old) (C.holds cells.old)
            self.old.registers.items (instruction.StoreZeros count object) }
        ensures only { OnOk result (self.new ≡ record self.old { place = record { block = self.old.place.block; index = self.old.place.index + 1 } }) }
        ensures led { OnOk result ((prog : Program) (l : Layout) (p : Path) (g : frames.Frame) (m : Memory) →
            ShowsFrame l places.now p g self.old → ShowsCells l (C.reaches cells.old) (C.holds cells.old) m →
            item_at prog g.function g.block g.index ≡ Some (Does (instruction.StoreZeros count object)) → Safe prog l p g m →
            LedFrame prog l places.now p g m 0 1 (C.reaches cells.new) (C.holds cells.new) self.new) }
        ensures zeroed { OnOk result ((prog : Program) (l : Layout) (p : Path) (g : frames.Frame) (m : Memory) →
            ShowsFrame l places.now p g self.old → ShowsCells l (C.reaches cells.old) (C.holds cells.old) m →
            item_at prog g.function g.block g.index ≡ Some (Does (instruction.StoreZeros count object)) → Safe prog l p g m →
            ZeroedOf C.does l g object count cells.old cells.new) }
        ensures refused { IfErr result (λ stop. (prog : Program) (l : Layout) (p : Path) (g : frames.Frame) (m : Memory) →
            ShowsFrame l places.now p g self.old → ShowsCells l (C.reaches cells.old) (C.holds cells.old) m →
            item_at prog g.function g.block g.index ≡ Some (Does (instruction.StoreZeros count object)) → Safe prog l p g m →
            (o : Object) × (object_at g object ≡ Some o) × ZeroingRefused C.does C.refuses (address l (frames.first_cell o)) count cells.old cells.new stop) }
    {
        let at = self.first_cell(places, object);
        match write_zeros(cells, &at, count) {
            Ok(()) => {
                self.place.index += 1;
                Ok(())
            }
            Err(stop) => Err(stop),
        }
    }
}
