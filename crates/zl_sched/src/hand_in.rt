//! Processes that are taken out to go on by themselves, and what they did handed in.

ghost use Rattle.std.specs.Prelude.{◌≡◌, ◌≤◌, ◌+◌, ◌++◌, [], true, false, IsTrue, MatchBool, MatchOption, MatchResult, length, vec_capacity, if◌then◌else◌};
ghost use Rattle.zl_interp.specs.Bursts.{IsBurst};
ghost use Rattle.zl_calls.specs.World.{is_ready_in};
ghost use Rattle.zl_calls.specs.Turns.{Fits};
ghost use Rattle.zl_code.specs.Common.{is_process, lives};
ghost use Rattle.zl_sched.specs.Ready.{is_in};
ghost use Rattle.zl_sched.specs.HandIn.{Accepts, EndsFrom, GoesFrom, HandsIn, HasRoom, IsAwaited, Judges, LacksTurn, TakesNone, TakesOne, is_more as ends_with_more, items_of, put_back, run_items, unmarked};

use crate::ready::{is_out, is_ready, queue, unmark};
use crate::system::{System, make_room};
use std::alloc::AllocError;
use zl_calls::{Told, World};
use zl_code::TraceItem;
use zl_interp::{Done, Spent, Stop, Turn};
use zl_rights::Pid;

/// What became of a burst that was handed in.
///
/// Source: own profile.
#[derive(Clone, Copy, PartialEq, Eq, Debug)]
pub enum HandIn {
    /// Its items are in the trace.
    Taken,
    /// The process isn't out, or it lives with another Cpu, or with a program of another version or
    /// length or with other instructions in the filled places.
    Stranger,
    /// The process was out, and lives no more.
    Gone,
    /// The trace has no room for its items.
    Limit,
    /// Memory was refused.
    NoMemory,
}

/// What `hand_in` finds before it changes anything.
#[derive(Clone, Copy, PartialEq, Eq)]
pub(crate) enum Judged {
    NotOut,
    Gone,
    Other,
    Full,
    Fits,
}

impl System {
    /// The first of the ready list, with its program and its Cpu as they stand. It is out from then on,
    /// and stays so if the turn is dropped.
    ///
    /// Nothing only where the list is empty. Where something is left of another turn, it is used up for
    /// this one. Only memory can be refused; then nothing changes.
    pub fn take(&mut self, spare: &mut Option<Spent>) -> Result<Option<Turn>, AllocError>
        ensures { MatchResult result
            (λ taken. MatchOption taken (TakesNone self.old self.new)
            (λ turn. TakesOne self.old turn self.new))
            (λ refused. LacksTurn self.old self.new) }
    {
        if self.ready.is_empty() {
            return Ok(None);
        }
        if self.out.reserve(1).is_err() {
            return Err(AllocError);
        }
        let pid = self.ready[0];
        let Ok(turn) = self.world.turn(pid, spare) else {
            return Err(AllocError);
        };
        self.ready.remove(0);
        self.out.push_reserved(pid);
        Ok(Some(turn))
    }

    /// What a process did that is out: the local instructions become one item, if there were any, and
    /// where it is at a call, or stuck, it does that too. It isn't out any more. What is left of its turn
    /// comes back, whatever the answer.
    ///
    /// `Stranger` comes where the process isn't out, or lives with another Cpu than that with which it
    /// began, or with a program of another version, of more or fewer instructions than places are carried,
    /// or with another one in a place that is filled; `Gone` where it lives no more; else `Limit` where the trace has no
    /// room for the items, and `NoMemory` where memory is refused. That it was refused no clause says. After
    /// these nothing is different but that a living process which was out is last in the ready list.
    pub fn hand_in(&mut self, done: Done) -> (HandIn, Spent)
        ensures { HandsIn self.old done result.0 self.new }
    {
        let pid = done.pid();
        self.world.find(pid);
        match self.judge(&done) {
            Judged::NotOut => (HandIn::Stranger, done.spent()),
            Judged::Gone => {
                self.forget(pid);
                (HandIn::Gone, done.spent())
            }
            Judged::Other => {
                self.put_back(pid);
                (HandIn::Stranger, done.spent())
            }
            Judged::Full => {
                self.put_back(pid);
                (HandIn::Limit, done.spent())
            }
            Judged::Fits => {
                let (is_taken, spent) = self.accept(done);
                if !is_taken {
                    self.put_back(pid);
                    return (HandIn::NoMemory, spent);
                }
                (HandIn::Taken, spent)
            }
        }
    }

    /// What is to become of it. Nothing changes.
    pub(crate) fn judge(&self, done: &Done) -> Judged
        ensures { Judges self.now done.now result }
    {
        let pid = done.pid();
        if !is_out(&self.out, pid) {
            return Judged::NotOut;
        }
        if !is_ready(&self.world, pid) {
            return Judged::Gone;
        }
        if !self.world.fits(done) {
            return Judged::Other;
        }
        if self.free() < count_of(done) {
            return Judged::Full;
        }
        Judged::Fits
    }

    /// A process that lives no more isn't out any more.
    fn forget(&mut self, pid: Pid)
        requires { is_process self.old.machine.world lives pid ≡ false }
        ensures { self.new ≡ unmarked self.old pid }
    {
        unmark(&mut self.out, pid);
    }

    /// A ready process that is out isn't out any more, and is last in the list.
    pub(crate) fn put_back(&mut self, pid: Pid)
        requires out { is_in pid self.old.out ≡ true }
        requires ready { IsTrue (is_ready_in self.old.machine pid) }
        ensures { self.new ≡ put_back self.old pid }
    {
        unmark(&mut self.out, pid);
        self.ready.push_reserved(pid);
    }

    /// Takes what was done, where there is memory for its items; else nothing changes.
    fn accept(&mut self, done: Done) -> (bool, Spent)
        requires awaited { IsAwaited self.old done }
        requires room { HasRoom self.old done }
        ensures { MatchBool result.0 (Accepts self.old done self.new) (self.new ≡ self.old) }
    {
        if self.items.reserve(count_of(&done) as usize).is_err() {
            return (false, done.spent());
        }
        if make_room(&mut self.ready, &self.world).is_err() {
            return (false, done.spent());
        }
        let pid = done.pid();
        let (told, spent) = go(&mut self.world, &mut self.items, done);
        unmark(&mut self.out, pid);
        queue(&mut self.ready, &self.out, &mut self.world, pid, told);
        (true, spent)
    }
}

/// How many items tell of what was done.
fn count_of(done: &Done) -> u64
    ensures { result ≡ items_of done.now }
{
    let run = if done.ran() == 0 { 0 } else { 1 };
    let end = if is_more(done.stop()) { 0 } else { 1 };
    run + end
}

/// Whether nothing comes behind the local instructions.
fn is_more(stop: Stop) -> bool
    ensures { result ≡ ends_with_more stop }
{
    match stop {
        Stop::More => true,
        Stop::AtCall => false,
        Stop::Stuck => false,
    }
}

/// The local instructions that were done, and the step behind them, with their items. It tells what
/// they changed of who is ready.
fn go(world: &mut World, items: &mut Vec<TraceItem>, done: Done) -> (Told, Spent)
    requires ready { IsTrue (is_ready_in world.old done.pid) }
    requires fits { Fits world.old done }
    requires room { length items.old.items + items_of done ≤ vec_capacity items.old }
    ensures { GoesFrom world.old items.old.items done result.0 world.new items.new.items }
{
    let pid = done.pid();
    let is_only_local = is_more(done.stop());
    push_run(items, pid, done.ran());
    let spent = world.advance(done);
    (end(world, items, pid, is_only_local), spent)
}

/// The step behind the local instructions, unless these are all that was done. It tells what that
/// changed of who is ready.
fn end(world: &mut World, items: &mut Vec<TraceItem>, pid: Pid, is_only_local: bool) -> Told
    requires ready { IsTrue (is_ready_in world.old pid) }
    requires room { length items.old.items + (if is_only_local then 0 else 1)
        ≤ vec_capacity items.old }
    ensures { EndsFrom is_only_local world.old items.old.items pid result world.new items.new.items }
{
    if is_only_local {
        return Told::Same;
    }
    let Some((item, told)) = world.step(pid) else {
        unreachable!()
    };
    items.push_reserved(item);
    told
}

/// The item of so many local instructions, if there were any.
fn push_run(items: &mut Vec<TraceItem>, pid: Pid, ran: u32)
    requires room { length items.old.items + length (run_items pid ran) ≤ vec_capacity items.old }
    ensures items { items.new.items ≡ items.old.items ++ run_items pid ran }
    ensures capacity { vec_capacity items.new ≡ vec_capacity items.old }
{
    if ran != 0 {
        items.push_reserved(TraceItem::Run { pid, count: ran });
    }
}
