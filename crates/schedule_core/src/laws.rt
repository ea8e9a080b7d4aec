//! The law that once the root has returned no event is enabled, whatever the program.

ghost use Rattle.schedule_core.specs.Over.{EndedEnablesNothing};

/// Whatever the program: once the root has returned no event is enabled, no worker's step and no steal.
pub fn ended_enables_nothing()
    ensures { EndedEnablesNothing }
{}
