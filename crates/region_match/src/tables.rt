//! The table of tasks: one for each block of each function.

use crate::task::Task;
use lists::Seq;

/// The task of each block of a function.
#[derive(Drop)]
pub struct FunctionTasks {
    pub tasks: Seq<Task>,
}

/// The tasks of the blocks of each function.
pub struct Regions {
    pub functions: Seq<FunctionTasks>,
}

/// Written out, so that no crate above proves it anew.
impl Drop for Regions {
    fn drop(self) {
        let Regions { functions: _ } = self;
    }
}
