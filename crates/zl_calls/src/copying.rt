//! Another running world like one, of the same programs.

ghost use Rattle.std.specs.Prelude.{◌≡◌, IfOk};
ghost use Rattle.zl_calls.specs.Calling.{HasRoom, parts_in};

use crate::parts::Parts;
use crate::process::Process;
use crate::processes::Processes;
use crate::step::taken::Taken;
use std::alloc::{AllocError, Global};

impl Parts {
    /// The same once more, with room for each process to block. What the last call took isn't taken
    /// along.
    pub fn copy(&self, alloc: Global) -> Result<Parts, AllocError>
        ensures parts { IfOk result (λ parts. parts_in parts ≡ parts_in self.now) }
        ensures room { IfOk result HasRoom }
    {
        let processes = self.processes.copy(alloc)?;
        let mut blocked = Vec::with_capacity(alloc, processes.list.len())?;
        blocked.extend_from_slice(&self.blocked)?;
        Ok(Parts {
            processes,
            objects: self.objects.copy(alloc)?,
            blocked,
            taken: Taken::none(alloc),
        })
    }
}

impl Processes {
    /// The same once more.
    fn copy(&self, alloc: Global) -> Result<Processes, AllocError>
        ensures { IfOk result (λ processes. processes.list.items ≡ self.now.list.items) }
    {
        let mut unstarted = Vec::with_capacity(alloc, self.unstarted.capacity())?;
        unstarted.extend_from_slice(&self.unstarted)?;
        Ok(Processes {
            list: copied_processes(alloc, &self.list)?,
            unstarted,
            near: self.near,
        })
    }
}

/// The same processes once more, with as much room.
fn copied_processes(alloc: Global, processes: &Vec<Process>) -> Result<Vec<Process>, AllocError>
    ensures { IfOk result (λ copy. copy.items ≡ processes.now.items) }
{
    let mut copy = Vec::with_capacity(alloc, processes.capacity())?;
    for process in processes {
        let again = process.copy(alloc)?;
        copy.push(again)?;
    }
    Ok(copy)
}

impl Process {
    /// The same once more.
    fn copy(&self, alloc: Global) -> Result<Process, AllocError>
        ensures { IfOk result (λ process. process ≡ self.now) }
    {
        Ok(Process {
            pid: self.pid,
            program: self.program,
            state: self.state,
            cpu: self.cpu.copy(alloc)?,
            table: self.table.copy(alloc)?,
        })
    }
}
