//! The engine of a search over all orders: a scenario is read, and each end written that some order has.
ghost use Rattle.std.specs.Prelude.{◌≡◌, ◌≢◌, IfOk, IfErr, OnErr};
ghost use Rattle.zlab.specs.Ends.{sought_by};
ghost use Rattle.zlab.specs.Exploring.{Begins, BeginsExplored, Explores, IsBegun};
ghost use Rattle.zlab.specs.Input.{FitsInput, Holds, IsBounded, TakesNoMore};
ghost use Rattle.std.specs.Prelude.{List, ℕ};

use crate::ends::{Progress, Sought, write_ends};
use crate::engine::{TOO_LONG, fault_of_boot, write_refusal};
use crate::fault::{EngineFault, Verdict};
use crate::hints::explain_search;
use crate::input::{Input, read_input};
use std::alloc::Global;
use std::io::{Read, Write};
use zl_calls::World;
use zl_explain::{STANDARD_INPUT, explain_scenario};
use zl_scenario::{PlacedFault, Reading, Scenario, read_scenario};

/// What a scenario leads to.
#[derive(Drop)]
pub enum Begun {
    /// Its boot world, and how many items a trace may have.
    World(World, u64),
    /// The scenario has this fault.
    Refused(PlacedFault),
}

/// Reads a scenario, whose schedule doesn't count, searches all orders of the turns of its processes, each
/// up to its next call, and writes each end, or the line of the first fault. All input is read before
/// anything is written.
///
/// Each end that is written has a schedule, along which the lab's own steps lead from the lab's boot world
/// to a world in which nobody is ready, and in which the processes are in the states that stand there. A
/// last line with `all`, by which it is `Done`, comes only where every order of such steps, of any length,
/// that comes to a world in which nobody is ready comes to the states of one of those ends, and no order has
/// what one of the patterns names. Of a part that is said of its own orders, so that the answers of all parts
/// together say it of all. It is `Bad` where one has, with a schedule that leads there, `Cut` where there
/// would be more worlds than there may be, and `Memory` where memory was refused. No more is read than one
/// byte past 4,194,304. `progress` is told of each doubling of the worlds. To `hints` it adds for a person
/// why the input is refused, or why the search isn't whole.
/// A fault of the reader is `Read`, with nothing written. A fault of the writer, and a want of memory
/// before the search begins, leave nothing or a beginning of such an answer.
pub fn explore_engine<R: Read, W: Write, P: Progress>(
    alloc: Global,
    reader: &mut R,
    writer: &mut W,
    progress: &mut P,
    hints: &mut String,
    asked: Sought,
) -> Result<Verdict, EngineFault>
    ensures ok { IfOk result (λ verdict. Explores (R.remaining reader.old) (sought_by asked) verdict
        (W.contents writer.old) (W.contents writer.new)) }
    ensures err { OnErr result (BeginsExplored (R.remaining reader.old) (sought_by asked)
        (W.contents writer.old) (W.contents writer.new)) }
    ensures read { IfErr result (λ fault. fault ≡ EngineFault.Read → W.contents writer.new
        ≡ W.contents writer.old) }
    ensures taken { TakesNoMore (R.remaining reader.old) (R.remaining reader.new) }
{
    let input = read_input(alloc, reader)?;
    match begin(alloc, &input, hints)? {
        Begun::World(world, limit) => {
            let worlds = asked.worlds;
            let ended = write_ends(alloc, writer, progress, world, asked, limit);
            explain_search(hints, &ended, worlds);
            ended
        }
        Begun::Refused(fault) => write_refusal(alloc, writer, &fault),
    }
}

/// What the scenario that was read leads to.
fn begin(alloc: Global, input: &Input, hints: &mut String) -> Result<Begun, EngineFault>
    requires { IsBounded input.now }
    ensures ok { IfOk result (λ begun. (text : List ℕ) → Holds text input.now
        → Begins text begun) }
    ensures err { IfErr result (λ fault. fault ≡ EngineFault.NoMemory) }
{
    match input {
        Input::Text(text) => {
            let begun = boot_world(alloc, text.as_slice())?;
            if let Begun::Refused(fault) = &begun {
                explain_scenario(hints, alloc, STANDARD_INPUT, text.as_slice(), fault);
            }
            Ok(begun)
        }
        Input::TooLong => {
            let fault = TOO_LONG.alone();
            explain_scenario(hints, alloc, STANDARD_INPUT, &[], &fault);
            Ok(Begun::Refused(fault))
        }
    }
}

/// Reads the text and boots what it says. A fault of booting is in an earlier line than one of reading.
fn boot_world(alloc: Global, text: &[u8]) -> Result<Begun, EngineFault>
    requires { FitsInput text.now }
    ensures ok { IfOk result (Begins text.now) }
    ensures err { IfErr result (λ fault. fault ≡ EngineFault.NoMemory) }
{
    let Reading { scenario, fault } = read_scenario(alloc, text)?;
    let Scenario {
        library,
        boot,
        lines,
        ..
    } = scenario;
    match World::boot(alloc, library, &boot) {
        Err(refused) => Ok(Begun::Refused(fault_of_boot(lines.as_slice(), refused)?)),
        Ok(world) => Ok(match fault {
            Some(fault) => Begun::Refused(fault),
            None => Begun::World(world, boot.limit),
        }),
    }
}
