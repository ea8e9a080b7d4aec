//! Within how many detaches a block stands, by the task labels of its function's blocks (nesting depth).

ghost use Rattle.std.specs.Prelude.{◌≡◌, ◌≤◌, length};
ghost use Rattle.ranges.specs.region_match.Tasks.{task_at};
ghost use Rattle.cost_table.specs.Depth.{detaches_around};

use ranges::Task;

/// The task of a block.
fn task_at(tasks: &[Task], block: usize) -> Task
    ensures { result ≡ task_at tasks.now block }
{
    tasks.get(block).copied().unwrap_or(Task::Unreached)
}

/// Within how many detaches a block stands.
pub fn detaches_around(tasks: &[Task], block: usize) -> usize
    ensures level { result ≡ detaches_around tasks.now block }
    ensures within { result ≤ length tasks.now }
{
    let mut task = task_at(tasks, block);
    let mut level: usize = 0;
    for _step in 0..tasks.len() {
        match task {
            Task::Child(detach) => {
                task = task_at(tasks, detach.0);
                level += 1;
            }
            Task::Unreached | Task::Body => return level,
        }
    }
    level
}
