//! What a step tells beside its item: who became ready, and who may have ceased to be.

ghost use Rattle.std.specs.Prelude.{ℕ, [], ◌≡◌, ◌++◌, ◌∷◌, true, None, Some, IfSome, IsTrue, if◌then◌else◌};
ghost use Rattle.std.specs.Option.{option_to_list};
ghost use Rattle.zl_calls.specs.Told.{is_asleep, is_started, killed_of, woke_of, Fits, IsEffect};
ghost use Rattle.zl_calls.specs.Woke.{tells_all, pids_told};

use crate::step::taken::Taken;
use zl_code::{CallName, Outcome, TraceItem};
use zl_objects::{Objects, TaskList};
use zl_rights::{Pid, Status};

/// What a step tells of who is ready.
///
/// Source: own profile.
#[derive(Drop)]
pub enum Told {
    /// The same as before, its process too.
    Same,
    /// These became ready. Its process may have fallen asleep or ended, and no other ceased to be ready.
    Woke(Woke),
    /// Some became ready, and others than its process may have been killed.
    Killed(Killed),
}

/// Who became ready behind a step, but for its process: those that woke, and the one that it started.
///
/// Source: own profile.
#[derive(Drop)]
pub enum Woke {
    /// No process.
    Nobody,
    /// This process alone.
    One(Pid),
    /// These. The world wants their list back (`World::put_back`), as it has the room for the next one.
    Several(WokeList),
}

/// What a kill tells.
///
/// Source: own profile.
#[derive(Drop)]
pub struct Killed {
    /// Whom it may have killed, and perhaps others. The world wants the list back (`World::put_back`).
    pub tasks: TaskList,
    /// Who became ready.
    pub woke: Woke,
}

impl Told {
    /// What a step with this effect tells, behind which these became ready. Of a kill there is noted whom
    /// it may have killed, which is then not noted any more.
    #[inline(always)]
    pub(crate) fn of(effect: Effect, woke: Woke, taken: &mut Taken) -> Told
        ensures woke { woke_of result ≡ woke }
        ensures killed { IfSome (killed_of result) (λ tasks. tasks ≡ taken.old.killed) }
        ensures fits { Fits effect result }
    {
        match effect {
            Effect::Killed => Told::Killed(Killed {
                tasks: taken.take_killed(),
                woke,
            }),
            Effect::GoesOn | Effect::Started => told_if_any(woke),
            Effect::Asleep | Effect::Stopped => Told::Woke(woke),
        }
    }
}

/// What a step with this effect tells that nobody was killed in, and in which its process goes on.
#[inline(always)]
fn told_if_any(woke: Woke) -> Told
    ensures woke { woke_of result ≡ woke }
    ensures none { killed_of result ≡ None }
{
    match woke {
        Woke::Nobody => Told::Same,
        woke => Told::Woke(woke),
    }
}

impl Woke {
    /// Nobody woke; this process was started, if there is one.
    #[inline(always)]
    pub(crate) fn of(started: Option<Pid>) -> Woke
        ensures told { pids_told result ≡ option_to_list started }
        ensures all { IsTrue (tells_all result) }
    {
        match started {
            Some(pid) => Woke::One(pid),
            None => Woke::Nobody,
        }
    }
}

/// A list of processes that became ready.
///
/// Source: own profile.
#[derive(Drop)]
pub struct WokeList {
    /// Each once, in no order.
    pub pids: Vec<Pid>,
    /// Whether all are listed: where there was no room for one more, not all are.
    pub whole: bool,
}

impl WokeList {
    /// The process that was started, if there is one, in this empty list.
    pub(crate) fn with(list: Vec<Pid>, started: Option<Pid>) -> WokeList
        requires { list.items ≡ [] }
        ensures { result.whole ≡ true → result.pids.items ≡ option_to_list started }
    {
        let mut woken = WokeList {
            pids: list,
            whole: true,
        };
        if let Some(pid) = started {
            woken.note(pid);
        }
        woken
    }

    /// One more, if there is room.
    pub(crate) fn note(&mut self, pid: Pid)
        ensures { self.new.whole ≡ true → (self.old.whole ≡ true)
            × (self.new.pids.items ≡ self.old.pids.items ++ pid ∷ []) }
    {
        if self.pids.len() == self.pids.capacity() {
            self.whole = false;
            return;
        }
        self.pids.push_reserved(pid);
    }

    /// Who that is; where it is one process or none, the objects get the list back.
    pub(crate) fn told(self, objects: &mut Objects) -> Woke
        ensures told { pids_told result ≡ self.pids.items }
        ensures all { tells_all result ≡ true → self.whole ≡ true }
        ensures unchanged { objects.new ≡ objects.old }
    {
        if !self.whole || self.pids.len() > 1 {
            return Woke::Several(self);
        }
        let first = self.pids.first().copied();
        objects.return_list(self.pids);
        Woke::of(first)
    }
}

/// What a step did, as far as it bears on who is ready before others wake.
#[derive(Clone, Copy)]
pub(crate) enum Effect {
    /// Its process goes on, and nobody else is touched.
    GoesOn,
    /// Its process goes on, and one was started.
    Started,
    /// Its process fell asleep.
    Asleep,
    /// Its process ended.
    Stopped,
    /// Processes may have been killed, its own too.
    Killed,
}

impl Effect {
    /// Whether the process of the step fell asleep.
    #[inline(always)]
    pub(crate) fn is_asleep(self) -> bool
        ensures { result ≡ is_asleep self }
    {
        matches!(self, Effect::Asleep)
    }

    /// The process that was noted as the one to be started, if it was.
    #[inline(always)]
    pub(crate) fn started(self, noted: Pid) -> Option<Pid>
        ensures { result ≡ (if is_started self then Some noted else None) }
    {
        match self {
            Effect::Started => Some(noted),
            Effect::GoesOn | Effect::Asleep | Effect::Stopped | Effect::Killed => None,
        }
    }
}

/// What the step did of which the item tells.
#[inline(always)]
pub(crate) fn effect_of(item: &TraceItem) -> Effect
    ensures { IsEffect item.now result }
{
    match item {
        TraceItem::Run { .. } => Effect::GoesOn,
        TraceItem::Stuck { .. } => Effect::Stopped,
        TraceItem::Call {
            outcome: Outcome::Blocked,
            ..
        } => Effect::Asleep,
        TraceItem::Call {
            call: CallName::TaskKill,
            ..
        } => Effect::Killed,
        TraceItem::Call {
            call: CallName::ProcessStart,
            outcome: Outcome::Answered(Status::Ok),
            ..
        } => Effect::Started,
        TraceItem::Call {
            outcome: Outcome::Answered(_),
            ..
        } => Effect::GoesOn,
        TraceItem::Call {
            outcome: Outcome::Ended(_),
            ..
        } => Effect::Stopped,
    }
}
