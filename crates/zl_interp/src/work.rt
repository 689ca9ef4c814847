//! Where a burst works, and what is left of that for another turn.

ghost use Rattle.std.specs.Prelude.{◌≡◌, IfOk, length};

use crate::cpu::Cpu;
use std::alloc::{AllocError, Global};

/// What a turn carries to what was done: the Cpu with which it begins, the one that goes on, and a
/// mark for each instruction of the program.
///
/// It is large, so it lies in one place, in which a burst works.
#[derive(Drop)]
pub struct Work {
    pub from: Cpu,
    pub to: Cpu,
    pub marks: Vec<bool>,
}

impl Work {
    /// What a turn with this Cpu begins with, and so many marks that aren't set. It lies where a turn lay
    /// that is over, if something is left of one.
    pub fn begun(
        alloc: Global,
        cpu: &Cpu,
        len: usize,
        spare: &mut Option<Spent>,
    ) -> Result<Box<Work>, AllocError>
        ensures from { IfOk result (λ work. work.value.from ≡ cpu.now) }
        ensures to { IfOk result (λ work. work.value.to ≡ cpu.now) }
        ensures marks { IfOk result (λ work. length work.value.marks.items ≡ len) }
    {
        if let Some(spent) = spare.take() {
            return spent.begun_anew(alloc, cpu, len);
        }
        let work = Work {
            from: cpu.copy(alloc)?,
            to: cpu.copy(alloc)?,
            marks: vec![in alloc; false; len]?,
        };
        Ok(Box::new(alloc, work)?)
    }
}

/// What is left of a turn behind its burst: memory, for another turn.
///
/// Source: own profile.
#[derive(Drop)]
pub struct Spent {
    pub(crate) work: Box<Work>,
}

impl Spent {
    /// What a turn with this Cpu begins with, in the memory of the one that is over.
    fn begun_anew(self, alloc: Global, cpu: &Cpu, len: usize) -> Result<Box<Work>, AllocError>
        ensures from { IfOk result (λ work. work.value.from ≡ cpu.now) }
        ensures to { IfOk result (λ work. work.value.to ≡ cpu.now) }
        ensures marks { IfOk result (λ work. length work.value.marks.items ≡ len) }
    {
        let Spent { mut work } = self;
        work.from.copy_from(alloc, cpu)?;
        work.to.copy_from(alloc, cpu)?;
        work.marks.clear();
        work.marks.resize(len, false)?;
        Ok(work)
    }
}
