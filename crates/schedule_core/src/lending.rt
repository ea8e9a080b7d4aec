//! Cells that workers have apart from the machine, for the frames of their strands.
ghost use Rattle.std.specs.Prelude.{◌*◌, OnOk};
ghost use Rattle.schedule_workers.specs.Lent.{Lends};
ghost use Rattle.schedule_core.specs.Replaying.{IsMachine, LeavesAsBefore};
ghost use Rattle.schedule_core.specs.Stages.{workers_of};

use crate::machine::Machine;
use crate::stage::Stage;
use lists::OutOfMemory;

/// The cells that a worker is lent, 32 KB. A call for whose allocas none are left is a border; but a run makes each worker's, whether it uses them or not.
const LENT: usize = 4096;

/// Lends so many cells to the workers, where none are lent yet.
fn lend_cells(stage: &mut Stage<'_>, cells: usize) -> Result<(), OutOfMemory>
    requires { ∥ IsMachine stage.old ∥₁ }
    ensures lends { OnOk result (Lends cells stage.old.run stage.new.run) }
    ensures as_before { LeavesAsBefore stage.old stage.new }
    ensures machine { ∥ IsMachine stage.new ∥₁ }
{
    stage.run.lend(cells)
}

impl Machine<'_> {
    /// Lends each worker cells for the frames of its strands, where none are lent yet. Nothing changes that is seen of the machine.
    ///
    /// # Errors
    ///
    /// Memory was refused.
    pub fn lend(&mut self) -> Result<(), OutOfMemory>
        ensures lends { OnOk result (Lends (workers_of self.old.stage * 4096) self.old.stage.run self.new.stage.run) }
        ensures as_before { LeavesAsBefore self.old.stage self.new.stage }
    {
        let Some(cells) = self.stage.run.hands.len().checked_mul(LENT) else {
            return Err(OutOfMemory);
        };
        lend_cells(&mut self.stage, cells)
    }
}
