//! The text of a search over all orders: each end with a schedule that leads there, and what was met.
ghost use Rattle.std.specs.Prelude.{◌≡◌, ◌≢◌, ◌++◌, ◌∷◌, [], IfOk, IfErr, OnOk, OnErr, codes, false, string_bytes};
ghost use Rattle.std.specs.List.{flat_map};
ghost use Rattle.zl_calls.specs.World.{Machine as MachineValue, own_here};
ghost use Rattle.zl_explore.specs.Private.{IsStill};
ghost use Rattle.zl_explore.specs.Searching.{BeganWith};
ghost use Rattle.zl_sched.specs.Follows.{turns_of};
ghost use Rattle.zl_trace.specs.Text.{state_line};
ghost use Rattle.zlab.specs.Ends.{BeginsEnd, BeginsEnds, BeginsLast, BeginsTurns, PushesEnd, PushesTurns, WritesEnd, WritesEnds, WritesLast, WritesTurns, bad_line, by_line, endless_line, sought, sought_by, together_line, turn_line, verdict_word};

use crate::fault::{EngineFault, Verdict};
use std::alloc::{AllocError, Global};
use std::io::Write;
use zl_calls::World;
use zl_code::ProcState;
use zl_explore::{
    Bad, BadTurn, BadWorld, End, Never, Next, Part, Search, named_end, push_together,
};
use zl_rights::Pid;
use zl_trace::{empty_block, push_state, write_all};

/// What is asked of a search.
#[derive(Drop)]
pub struct Sought {
    /// What no order may have.
    pub never: Never,
    /// Of which part the orders are.
    pub part: Part,
    /// How many worlds there may be.
    pub worlds: u32,
}

/// Who is told how far a search is.
pub trait Progress {
    /// So many worlds were met.
    fn met(&mut self, worlds: usize);
}

/// Searches all orders of turns from the world on, and writes each end as it is met, and the last line. An
/// end whose schedule is longer than `limit` says how long it is. `progress` is told of each doubling of the
/// worlds.
///
/// `Done` comes where all orders are known, `Bad` where one has what a pattern names, `Cut` where there would
/// be more worlds, and `Memory` where memory is refused to the search. The world has to be as boots and own
/// steps leave one.
pub fn write_ends<W: Write, P: Progress>(
    alloc: Global,
    writer: &mut W,
    progress: &mut P,
    world: World,
    asked: Sought,
    limit: u64,
) -> Result<Verdict, EngineFault>
    requires { IsStill (own_here world) }
    ensures ok { IfOk result (λ verdict. WritesEnds world.programs (own_here world) (sought_by asked) limit
        verdict (W.contents writer.old) (W.contents writer.new)) }
    ensures err { OnErr result (BeginsEnds world.programs (own_here world) (sought_by asked) limit
        (W.contents writer.old) (W.contents writer.new)) }
    ensures fault { IfErr result (λ fault. fault ≢ EngineFault.Read) }
{
    let mut text = empty_block(alloc)?;
    let Sought {
        never,
        part,
        worlds,
    } = asked;
    let mut search = Search::new(alloc, world, never, part, worlds as usize)?;
    write_found(alloc, writer, progress, &mut text, &mut search, limit)
}

/// Writes each end that the search meets, and the last line, each in place of what stands in the text.
fn write_found<W: Write, P: Progress>(
    alloc: Global,
    writer: &mut W,
    progress: &mut P,
    text: &mut String,
    search: &mut Search,
    limit: u64,
) -> Result<Verdict, EngineFault>
    requires { search.old.told ≡ [] }
    ensures ok { IfOk result (λ verdict. (m : MachineValue) → IsStill (own_here m)
        → BeganWith m search.old → WritesEnds m.programs (own_here m) (sought search.old) limit
        verdict (W.contents writer.old) (W.contents writer.new)) }
    ensures err { OnErr result ((m : MachineValue) → IsStill (own_here m)
        → BeganWith m search.old → BeginsEnds m.programs (own_here m) (sought search.old) limit
        (W.contents writer.old) (W.contents writer.new)) }
    ensures fault { IfErr result (λ fault. fault ≢ EngineFault.Read) }
{
    loop {
        let ends = search.ends();
        let end = match search.next_end() {
            Next::End(end) => end,
            Next::Doubled => {
                progress.met(search.worlds());
                continue;
            }
            Next::Bad(turn) => return write_turn(alloc, writer, text, search, &turn, limit, ends),
            Next::BadWorld(at) => return write_world(alloc, writer, text, search, &at, limit, ends),
            Next::All { endless } => {
                return write_last(writer, text, search, Verdict::Done, endless, ends);
            }
            Next::Cut => return write_last(writer, text, search, Verdict::Cut, false, ends),
            Next::Memory => return write_memory(writer, text, search, ends),
        };
        if let Some(verdict) = write_end(alloc, writer, text, search, &end, limit, ends)? {
            return Ok(verdict);
        }
    }
}

/// Writes an end behind so many others, in place of what stands in the text, and nothing else where it may be.
/// Where a pattern names what one is in there, the last line comes behind it, and the verdict with it. Where
/// memory is refused, the last line says so, and the end isn't written.
fn write_end<W: Write>(
    alloc: Global,
    writer: &mut W,
    text: &mut String,
    search: &Search,
    end: &End,
    limit: u64,
    ends: usize,
) -> Result<Option<Verdict>, EngineFault>
    ensures ok { IfOk result (WritesEnd search.now.bad limit end.now search.now.worlds ends (W.contents writer.old)
        (W.contents writer.new)) }
    ensures err { OnErr result (BeginsEnd search.now.bad limit end.now search.now.worlds ends
        (W.contents writer.old) (W.contents writer.new)) }
    ensures fault { IfErr result (λ fault. fault ≢ EngineFault.Read) }
{
    text.clear();
    if push_end(alloc, text, end, limit).is_err() {
        return Ok(Some(write_memory(writer, text, search, ends)?));
    }
    let Some(bad) = named_end(search.bad(), &end.states) else {
        write_all(writer, text.as_bytes())?;
        return Ok(None);
    };
    if push_bad(text, bad).is_err() {
        return Ok(Some(write_memory(writer, text, search, ends)?));
    }
    write_all(writer, text.as_bytes())?;
    Ok(Some(Verdict::Bad))
}

/// Writes a schedule whose last turn has what a pattern names, and the last line, behind so many ends and in
/// place of what stands in the text. Where memory is refused, the last line alone says so.
fn write_turn<W: Write>(
    alloc: Global,
    writer: &mut W,
    text: &mut String,
    search: &Search,
    turn: &BadTurn,
    limit: u64,
    ends: usize,
) -> Result<Verdict, EngineFault>
    ensures ok { IfOk result (WritesTurns limit turn.now.turns.items (bad_line turn.now.bad)
        search.now.worlds ends (W.contents writer.old) (W.contents writer.new)) }
    ensures err { OnErr result (BeginsTurns limit turn.now.turns.items (bad_line turn.now.bad)
        search.now.worlds ends (W.contents writer.old) (W.contents writer.new)) }
    ensures fault { IfErr result (λ fault. fault ≢ EngineFault.Read) }
{
    text.clear();
    if push_turn(alloc, text, turn, limit).is_err() {
        return write_memory(writer, text, search, ends);
    }
    write_all(writer, text.as_bytes())?;
    Ok(Verdict::Bad)
}

/// Writes a schedule that leads to a world which may not be, and the last line, behind so many ends and in
/// place of what stands in the text. Where memory is refused, the last line alone says so.
fn write_world<W: Write>(
    alloc: Global,
    writer: &mut W,
    text: &mut String,
    search: &Search,
    at: &BadWorld,
    limit: u64,
    ends: usize,
) -> Result<Verdict, EngineFault>
    ensures ok { IfOk result (WritesTurns limit at.now.turns.items (together_line at.now.together.items)
        search.now.worlds ends (W.contents writer.old) (W.contents writer.new)) }
    ensures err { OnErr result (BeginsTurns limit at.now.turns.items (together_line at.now.together.items)
        search.now.worlds ends (W.contents writer.old) (W.contents writer.new)) }
    ensures fault { IfErr result (λ fault. fault ≢ EngineFault.Read) }
{
    text.clear();
    if push_world(alloc, text, at, limit).is_err() {
        return write_memory(writer, text, search, ends);
    }
    write_all(writer, text.as_bytes())?;
    Ok(Verdict::Bad)
}

/// Writes the last line of a search that wants memory, in place of what stands in the text.
fn write_memory<W: Write>(
    writer: &mut W,
    text: &mut String,
    search: &Search,
    ends: usize,
) -> Result<Verdict, EngineFault>
    ensures verdict { IfOk result (λ ended. ended ≡ Verdict.Memory) }
    ensures ok { OnOk result (WritesLast false (codes "memory") search.now.worlds ends (W.contents writer.old)
        (W.contents writer.new)) }
    ensures err { OnErr result (BeginsLast false (codes "memory") search.now.worlds ends (W.contents writer.old)
        (W.contents writer.new)) }
    ensures fault { IfErr result (λ fault. fault ≢ EngineFault.Read) }
{
    write_last(writer, text, search, Verdict::Memory, false, ends)
}

/// Writes the last line, in place of what stands in the text, below a line that says whether an order may go
/// on for ever.
fn write_last<W: Write>(
    writer: &mut W,
    text: &mut String,
    search: &Search,
    verdict: Verdict,
    endless: bool,
    ends: usize,
) -> Result<Verdict, EngineFault>
    ensures verdict { IfOk result (λ ended. ended ≡ verdict) }
    ensures ok { OnOk result (WritesLast endless (verdict_word verdict) search.now.worlds ends (W.contents writer.old)
        (W.contents writer.new)) }
    ensures err { OnErr result (BeginsLast endless (verdict_word verdict) search.now.worlds ends (W.contents writer.old)
        (W.contents writer.new)) }
    ensures fault { IfErr result (λ fault. fault ≢ EngineFault.Read) }
{
    text.clear();
    let (worlds, turns) = (search.worlds(), search.turns());
    let (above, word) = (endless_line(endless), verdict_word(verdict));
    write!(
        text,
        "{above}{word} {worlds} worlds {turns} turns {ends} ends\n"
    )?;
    write_all(writer, text.as_bytes())?;
    Ok(verdict)
}

/// The line above the last one, if an order may go on for ever.
fn endless_line(endless: bool) -> &'static str
    ensures { result.now ≡ endless_line endless }
{
    if endless {
        return "endless\n";
    }
    ""
}

/// The word that says how far a search came.
fn verdict_word(verdict: Verdict) -> &'static str
    ensures { result.now ≡ verdict_word verdict }
{
    match verdict {
        Verdict::Done => "all",
        Verdict::Cut => "cut",
        Verdict::Memory => "memory",
        Verdict::Bad => "bad",
        Verdict::Refused => "refused",
    }
}

/// Adds the end. Where memory is refused, a beginning of it may stand there.
fn push_end(alloc: Global, text: &mut String, end: &End, limit: u64) -> Result<(), AllocError>
    ensures { OnOk result (PushesEnd limit end.now (string_bytes text.old)
        (string_bytes text.new)) }
{
    let schedule = grouped(alloc, &end.turns)?;
    text.push_str("end\n")?;
    push_states(text, &end.states)?;
    push_by(text, end.turns.len() as u64, limit)?;
    push_schedule(text, &schedule)
}

/// Adds the schedule of a turn that no order may have, and the last line behind it. Where memory is refused, a
/// beginning of them may stand there.
fn push_turn(alloc: Global, text: &mut String, turn: &BadTurn, limit: u64) -> Result<(), AllocError>
    ensures { OnOk result (PushesTurns limit turn.now.turns.items (bad_line turn.now.bad)
        (string_bytes text.old) (string_bytes text.new)) }
{
    let schedule = grouped(alloc, &turn.turns)?;
    push_by(text, turn.turns.len() as u64, limit)?;
    push_schedule(text, &schedule)?;
    push_bad(text, turn.bad)
}

/// Adds the schedule that leads to a world which may not be, and the last line behind it. Where memory is
/// refused, a beginning of them may stand there.
fn push_world(alloc: Global, text: &mut String, at: &BadWorld, limit: u64) -> Result<(), AllocError>
    ensures { OnOk result (PushesTurns limit at.now.turns.items (together_line at.now.together.items)
        (string_bytes text.old) (string_bytes text.new)) }
{
    let schedule = grouped(alloc, &at.turns)?;
    push_by(text, at.turns.len() as u64, limit)?;
    push_schedule(text, &schedule)?;
    text.push_str("bad ")?;
    push_together(text, &at.together)?;
    text.push_str("\n")
}

/// Adds the last line of a search that met what a pattern names.
fn push_bad(text: &mut String, bad: Bad) -> Result<(), AllocError>
    ensures { OnOk result (string_bytes text.new ≡ string_bytes text.old ++ bad_line bad) }
{
    text.push_str("bad ")?;
    bad.push_words(text)?;
    text.push_str("\n")
}

/// Adds the line of each process.
fn push_states(text: &mut String, states: &[(Pid, ProcState)]) -> Result<(), AllocError>
    ensures { OnOk result (string_bytes text.new
        ≡ string_bytes text.old ++ flat_map (λ p. state_line p.0 p.1) states.now) }
{
    for (pid, state) in states {
        push_state(text, *pid, *state)?;
    }
    Ok(())
}

/// Adds the line above a schedule of so many turns.
fn push_by(text: &mut String, turns: u64, limit: u64) -> Result<(), AllocError>
    ensures { OnOk result (string_bytes text.new
        ≡ string_bytes text.old ++ by_line limit turns) }
{
    if turns <= limit {
        return text.push_str("by\n");
    }
    write!(text, "by {turns} items\n")
}

/// Adds a line for each process with so many turns.
fn push_schedule(text: &mut String, schedule: &[(Pid, u32)]) -> Result<(), AllocError>
    ensures { OnOk result (string_bytes text.new
        ≡ string_bytes text.old ++ flat_map turn_line schedule.now) }
{
    for (pid, count) in schedule {
        write!(text, "{pid} {count}\n")?;
    }
    Ok(())
}

/// The turns as a schedule, in which turns of one process in a row stand together. Only memory can be
/// refused.
fn grouped(alloc: Global, turns: &[Pid]) -> Result<Vec<(Pid, u32)>, AllocError>
    ensures { IfOk result (λ schedule. turns_of schedule.items ≡ turns.now) }
{
    let mut schedule = Vec::new(alloc);
    let Some(first) = turns.first() else {
        return Ok(schedule);
    };
    let mut run = (*first, 0);
    for pid in turns {
        add_turn(&mut schedule, &mut run, *pid)?;
    }
    schedule.push(run)?;
    Ok(schedule)
}

/// Adds a turn to the run of turns that stands behind the schedule, or puts that into it and begins
/// another.
fn add_turn(
    schedule: &mut Vec<(Pid, u32)>,
    run: &mut (Pid, u32),
    pid: Pid,
) -> Result<(), AllocError>
    ensures { OnOk result (turns_of (schedule.new.items ++ run.new ∷ [])
        ≡ turns_of (schedule.old.items ++ run.old ∷ []) ++ pid ∷ []) }
{
    if run.0 == pid && run.1 < u32::MAX {
        run.1 += 1;
        return Ok(());
    }
    schedule.push(*run)?;
    *run = (pid, 1);
    Ok(())
}
