//! A trace, done again step by step.
ghost use Rattle.std.specs.Prelude.{◌≡◌, ◌≢◌, IfOk, IfErr, true, false, ℕ};
ghost use Rattle.zl_code.specs.declared.boot.BootCause.TheVariants.{NoMemory};
ghost use Rattle.zl_code.specs.declared.boot.BootFault.{BootFault as BootFaultValue};
ghost use Rattle.zl_code.specs.Boot.{FirstFault};
ghost use Rattle.zl_code.specs.Steps.{pid_of};
ghost use Rattle.zl_calls.specs.Makes.{IsReached};
ghost use Rattle.zl_calls.specs.Own.{StepsOwn};
ghost use Rattle.zl_calls.specs.Steps.{StepsTo};
ghost use Rattle.zl_calls.specs.World.{own_here};
ghost use Rattle.zl_trace.specs.Replaying.{Differs, DiffersAt, IsReplayed, Repeats, StepDiffers};

use crate::fault::ReplayFault;
use std::alloc::Global;
use zl_calls::World;
use zl_code::{Boot, TraceItem};
use zl_interp::Library;
use zl_rights::Pid;

/// Boots the statements, does the steps for which the items stand, and gives the world to which they
/// lead.
///
/// `Boot` has the fault of the statements. `At` names the first item, from 1, that the lab's own steps
/// don't give: its process isn't ready, or its own step has another item; or it is one past
/// `Boot::MOST_ITEMS`. That isn't to say that no step has it. A call for which the lab has memory may
/// also be answered `NoMemory`; and as a step may give any unused value to a new handle, a trace with
/// another choice may differ from the first exit that tells of such a value on. Where the lab wants
/// memory itself, the other item is that of some step. What was handed in is then gone.
///
/// Source: own profile; what a step is follows `World`.
pub fn replay(
    alloc: Global,
    library: Library,
    boot: Boot,
    items: &[TraceItem],
) -> Result<World, ReplayFault>
    ensures ok { IfOk result
        (IsReplayed library boot.statements.items boot.limit items.now) }
    ensures at { IfErr result (λ fault. (n : ℕ) → fault ≡ ReplayFault.At n
        → DiffersAt library boot.statements.items boot.limit items.now n) }
    ensures boot { IfErr result (λ fault. (lost : BootFaultValue) → fault ≡ ReplayFault.Boot lost
        → lost.cause ≢ NoMemory → FirstFault library boot.statements.items boot.limit
        lost.statement lost.cause) }
    ensures reached { IfErr result (λ fault. (lost : BootFaultValue)
        → fault ≡ ReplayFault.Boot lost → lost.cause ≡ NoMemory
        → IsReached library boot.statements.items lost.statement) }
{
    let mut world = World::boot(alloc, library, &boot)?;
    for (index, item) in items.iter().enumerate() {
        if index as u64 == Boot::MOST_ITEMS || !repeat(&mut world, *item) {
            return Err(ReplayFault::At(index + 1));
        }
    }
    Ok(world)
}

/// Does the steps for which the item stands, and tells whether they give it. Where they don't, the
/// world is of no use.
fn repeat(world: &mut World, item: TraceItem) -> bool
    ensures same { result ≡ true → Repeats world.old item world.new }
    ensures other { result ≡ false → Differs world.old.programs (own_here world.old) item }
{
    match item {
        TraceItem::Run { pid, count } => repeat_run(world, pid, count),
        TraceItem::Call { pid, .. } | TraceItem::Stuck { pid } => repeat_step(world, pid, item),
    }
}

/// Does so many local instructions of the process, if there is one at least and these come next.
fn repeat_run(world: &mut World, pid: Pid, count: u32) -> bool
    ensures same { result ≡ true → Repeats world.old (TraceItem.Run pid count) world.new }
    ensures other { result ≡ false → Differs world.old.programs (own_here world.old)
        (TraceItem.Run pid count) }
{
    for turn in 0..count {
        if !repeat_step(world, pid, TraceItem::Run { pid, count: 1 }) {
            return false;
        }
    }
    count > 0
}

/// Does a step of the process, and tells whether the item is that of this step.
fn repeat_step(world: &mut World, pid: Pid, item: TraceItem) -> bool
    requires pid { pid_of item ≡ pid }
    ensures same { result ≡ true → StepsTo world.old item world.new }
    ensures own { result ≡ true → StepsOwn world.old.programs (own_here world.old) pid item
        (own_here world.new) }
    ensures other { result ≡ false → StepDiffers world.old.programs (own_here world.old) item }
{
    let Some((own, told)) = world.step(pid) else {
        return false;
    };
    world.put_back(told);
    own.is_same(item)
}
