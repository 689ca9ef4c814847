//! Laws of the definitions: each function's contract is one law, and its body is empty.

ghost use Rattle.std.specs.List.{AllByRecursion};
ghost use Rattle.std.specs.Prelude.{ℕ, ◌≡◌, ◌≢◌, ◌==◌, ◌↔◌, ◌⊎◌, ℤ, Bool, true, false};
ghost use Rattle.std.specs.Prelude.{slice_get, IsTrue, List, [], None, Option, Some, Ok};
ghost use Rattle.zl_rights.specs.Common.{World, Cpu, Process, Ready, get, runs};
ghost use Rattle.zl_rights.specs.declared.status.Status.{Status};
ghost use Rattle.zl_rights.specs.declared.status.Status.TheVariants as status;
ghost use Rattle.zl_code.specs.declared.boot.Statement.{Statement};
ghost use Rattle.zl_code.specs.declared.history.CallName.{CallName};
ghost use Rattle.zl_code.specs.declared.history.CallName.TheVariants as name;
ghost use Rattle.zl_code.specs.declared.history.Outcome.TheVariants as outcome;
ghost use Rattle.zl_code.specs.declared.history.TraceItem.{TraceItem};
ghost use Rattle.zl_code.specs.declared.history.TraceItem.TheVariants as item;
ghost use Rattle.zl_code.specs.declared.image.Version.TheVariants as version;
ghost use Rattle.zl_code.specs.declared.instr.CallInstr.{CallInstr};
ghost use Rattle.zl_code.specs.Image.{Image, Library, call_at, is_among};
ghost use Rattle.zl_code.specs.Operands.{by_policy, creates, examined};
ghost use Rattle.zl_code.specs.Refusals.{condition_of, handle_operands};
ghost use Rattle.zl_rights.specs.declared.policy.Condition.{Condition};
ghost use Rattle.zl_code.specs.Spells.{is_in_range};
ghost use Rattle.zl_code.specs.Handles.{HandlesAreSound};
ghost use Rattle.zl_code.specs.Request.{Site};
ghost use Rattle.zl_code.specs.Calls.{Calls};
ghost use Rattle.zl_code.specs.Starting.{program_of};
ghost use Rattle.zl_code.specs.Steps.{Moves, IsStuck, Runs, Step, next_at, pid_of};
ghost use Rattle.zl_abs.specs.States.{State};
ghost use Rattle.zl_abs.specs.Rule.{Edge};
ghost use Rattle.zl_abs.specs.Typing.{rule, IsTyping};
ghost use Rattle.zl_verify.specs.Steps.{is_pause, IsStepBound, IsOver};
ghost use Rattle.zl_verify.specs.Over.{IsOverByCount};
ghost use Rattle.zl_verify.specs.Conforms.{Conforms};
ghost use Rattle.zl_verify.specs.LocalLaws.{GoesOn};
ghost use Rattle.zl_verify.specs.CallLaws.{QueuesAreSized, StandsAtCall};
ghost use Rattle.zl_verify.specs.CallLaws.{IsAnswered, IsWaiting, IsOwnEnd, CanCall};
ghost use Rattle.zl_verify.specs.RunLaws.{IsFineItem, IsUnderWay, HasEnded};
ghost use Rattle.zl_verify.specs.SizedLaws.{CpusAreSized};
ghost use Rattle.zl_verify.specs.SizedLaws.{HoldsInRuns, HoldsInHistories};
ghost use Rattle.zl_verify.specs.WakeLaws.{IsBooted, IsRunStep, EndsStep, OthersLeave};
ghost use Rattle.zl_verify.specs.Covered.{IsVerified, IsCovered, IsAble};
ghost use Rattle.zl_code.specs.Sound.{IsSound};
ghost use Rattle.zl_code.specs.Boot.{are_declared};
ghost use Rattle.zl_code.specs.Headline.{is_fault, KeepsBudget, IsSizedBoot, IsProperStart, StartsChild, IsStarted};
ghost use Rattle.zl_code.specs.Headline.{IsNeverRefused, CoveredGoWell};
ghost use Rattle.zl_verify.specs.Checks.{HasStepBound};
ghost use Rattle.zl_verify.specs.NoLeak.{NeverLeaks};

/// In a world with sound handles, a process that is as a typing of its image says is never stuck.
/// After a local instruction it stands at the end of a followed edge, and is there as the typing
/// says. Own profile.
pub fn local_step()
    ensures not_stuck { (i : Image) (t : ℕ → Option State) (w : World) (p : ℕ) (q : Process)
        → IsTrue (is_in_range i) → IsTyping i t → HandlesAreSound w
        → get w.processes p ≡ Some q → Conforms i t w p q
        → next_at i q.cpu ≢ IsStuck }
    ensures goes_on { (i : Image) (t : ℕ → Option State) (w : World) (p : ℕ) (q : Process)
        → IsTrue (is_in_range i) → IsTyping i t → HandlesAreSound w
        → get w.processes p ≡ Some q → Conforms i t w p q
        → q.state ≡ Ready → (c : Cpu) → next_at i q.cpu ≡ Moves c → GoesOn i t w p q c }
{}

/// A process that is as a typing of its image says can ask for its call. In a sound world in which
/// what is queued fits who receives it, however the call then ends: no answer is BAD_HANDLE,
/// WRONG_TYPE or ACCESS_DENIED, and behind an answer the process stands at the end of a followed
/// edge, as the typing says there; where the call blocks, the process is as the typing says where
/// it stands; and no policy ends it, as nothing does but its own `process_exit`, or its own
/// `task_kill` of itself or of a job above it. The world is that right after the call, before
/// handles that nothing holds go and processes wake. Own profile.
pub fn own_call()
    ensures can_call { (i : Image) (t : ℕ → Option State) (w : World) (p : ℕ) (q : Process)
        → IsTrue (is_in_range i) → IsTyping i t → HandlesAreSound w
        → get w.processes p ≡ Some q → Conforms i t w p q
        → (call : CallInstr) → call_at i q.cpu.counter ≡ Some call → CanCall i q.cpu call }
    ensures no_fault { (i : Image) (t : ℕ → Option State) (w : World) (p : ℕ) (q : Process)
        (called : CallName) (s : Site) → StandsAtCall i t w p q called s
        → (lib : Library) (answer : Status) (w2 : World)
        → Calls lib w p s (outcome.Answered answer) w2 → is_fault answer ≡ false }
    ensures goes_on { (i : Image) (t : ℕ → Option State) (w : World) (p : ℕ) (q : Process)
        (called : CallName) (s : Site) → StandsAtCall i t w p q called s
        → (lib : Library) (answer : Status) (w2 : World)
        → Calls lib w p s (outcome.Answered answer) w2 → IsAnswered i t p q w2 }
    ensures waits { (i : Image) (t : ℕ → Option State) (w : World) (p : ℕ) (q : Process)
        (called : CallName) (s : Site) → StandsAtCall i t w p q called s
        → (lib : Library) (w2 : World) → Calls lib w p s outcome.Blocked w2 → IsWaiting i t p q w2 }
    ensures ends_itself { (i : Image) (t : ℕ → Option State) (w : World) (p : ℕ) (q : Process)
        (called : CallName) (s : Site) → StandsAtCall i t w p q called s
        → (lib : Library) (code : ℤ) (w2 : World)
        → Calls lib w p s (outcome.Ended code) w2 → IsOwnEnd w p called s code }
{}

/// In every world of a run from a boot world, and of a legal history from one, what is queued fits
/// who receives it, where the images are in their ranges and each word with which a process starts
/// has 64 bits: a message has at most 65,536 bytes, each below 256, and at most 64 handles, and the
/// numbers of a packet have 64 bits. For registers and slot arrays hold numbers of 64 bits, and
/// memories bytes. Own profile.
pub fn runs_keep_queues_sized()
    ensures queues { HoldsInRuns QueuesAreSized }
    ensures cpus { HoldsInRuns CpusAreSized }
    ensures histories { HoldsInHistories QueuesAreSized }
{}

/// A process that is started with handles as its image declares them, and whose job allows what the
/// image needs, is as a typing of its image says; a boot starts each of its processes so, where the
/// handles that it gives to it are as the image declares them and the policy of its job allows what
/// the image needs. And in each step of a run from a boot world, a process that is so right after
/// what the step does is so at its end, once handles that nothing holds are gone, waits have given
/// their packets and processes are awake: it is as it was, or it waited, and stands ready at the
/// end of a followed edge. Own profile.
pub fn start_and_wake()
    ensures starts { (i : Image) (t : ℕ → Option State)
        (lib : Library) (w : World) (p : ℕ) (q : Process)
        → IsTrue (is_in_range i) → IsTyping i t → IsProperStart lib i w p q → Conforms i t w p q }
    ensures boots { (lib : Library) (statements : List Statement) (boot : World)
        (p : ℕ) (q : Process)
        → IsSizedBoot lib statements boot → get boot.processes p ≡ Some q
        → (s : IsBooted lib q) × ((i : Image) (checked : Bool)
        → slice_get lib s.program ≡ Some (record { checked = checked; image = i })
        → IsTrue (are_declared i.starts s.handles)
        → ((c : Condition) → IsTrue (is_among i.needs c) → creates boot p c ≡ None)
        → IsProperStart lib i boot p q) }
    ensures wakes { (i : Image) (t : ℕ → Option State)
        (lib : Library) (w : World) (p : ℕ) (x : TraceItem) (w2 : World)
        → IsTrue (is_in_range i) → IsTyping i t → (run : IsRunStep lib w p x w2)
        → (q : ℕ) (process : Process) → get run.step.acted.processes q ≡ Some process
        → IsTrue (runs process.state) → Conforms i t run.step.acted q process
        → EndsStep i t q process w2 }
{}

/// Every start of a checked program is a proper one: the process is ready, with handles as its image
/// declares them, and its job allows what the image needs. So it is with each process of a boot
/// world, and in a run from one with a process that another starts by a `process_start` that is
/// answered OK. What is promised from a proper start on is promised of both. Own profile.
pub fn checked_starts_are_proper()
    ensures boots { (i : Image) (lib : Library) (statements : List Statement) (boot : World) (p : ℕ)
        → IsSizedBoot lib statements boot
        → program_of lib boot p ≡ Some (record { checked = true; image = i })
        → IsStarted lib i boot p }
    ensures calls { (i : Image) (lib : Library)
        (w : World) (p : ℕ) (x : TraceItem) (w2 : World) (k : ℕ)
        → (run : IsRunStep lib w p x w2)
        → x ≡ item.Call p name.ProcessStart (outcome.Answered status.Ok)
        → StartsChild lib w p run.step.process k
        → program_of lib w k ≡ Some (record { checked = true; image = i })
        → IsStarted lib i w2 k }
{}

/// In each step of a run from a boot world, a process that runs and is as a typing of its image
/// says is so after the step of another, whatever that does: it is as it was, or it waited, and
/// stands ready at the end of a followed edge. Or it was killed, and has ended. Own profile.
pub fn steps_of_others()
    ensures { (i : Image) (t : ℕ → Option State)
        (lib : Library) (w : World) (p : ℕ) (x : TraceItem) (w2 : World)
        → IsTrue (is_in_range i) → IsTyping i t → IsRunStep lib w p x w2
        → (q : ℕ) (process : Process) → (p == q) ≡ false → get w.processes q ≡ Some process
        → IsTrue (runs process.state) → Conforms i t w q process → OthersLeave i t q process w2 }
{}

/// In a run from a boot world, from where a process runs and is as a typing of its image says,
/// whatever it and others do: none of its calls is answered BAD_HANDLE, WRONG_TYPE or
/// ACCESS_DENIED, no call of its own ends it but `process_exit` and, with the code of the killed,
/// `task_kill`, so that no policy does, and it is never stuck. In each world that follows it runs,
/// and is as the typing says, or has ended, as it also does where another kills it. Own profile.
pub fn never_refused()
    ensures fine { (i : Image) (t : ℕ → Option State) → IsTrue (is_in_range i) → IsTyping i t
        → (lib : Library) (statements : List Statement) (boot w after : World)
        (items more : List TraceItem) (p : ℕ)
        → IsSizedBoot lib statements boot → Runs lib boot items w → IsUnderWay lib i t w p
        → Runs lib w more after → AllByRecursion (IsFineItem p) more }
    ensures stays { (i : Image) (t : ℕ → Option State) → IsTrue (is_in_range i) → IsTyping i t
        → (lib : Library) (statements : List Statement) (boot w after : World)
        (items more : List TraceItem) (p : ℕ)
        → IsSizedBoot lib statements boot → Runs lib boot items w → IsUnderWay lib i t w p
        → Runs lib w more after → IsUnderWay lib i t after p ⊎ HasEnded after p }
{}

/// In a run from a boot world, from where a process runs and is as a typing of its image says that
/// has a step bound, whatever others do: it takes no more instructions than the budget up to its
/// next wait or its exit, and no more than the budget behind each wait. Own profile.
pub fn budget_kept()
    ensures { (i : Image) (t : ℕ → Option State) (steps : ℕ → List ℕ → ℕ)
        → IsTrue (is_in_range i) → IsTyping i t → IsStepBound i t steps
        → (lib : Library) (statements : List Statement) (boot w after : World)
        (items more : List TraceItem) (p : ℕ)
        → IsSizedBoot lib statements boot → Runs lib boot items w → IsUnderWay lib i t w p
        → Runs lib w more after → KeepsBudget i.budget p i.budget more }
{}

/// From an instruction that is no wait and not `process_exit` an edge is followed wherever its rule
/// holds. So in a typing an instruction is over, as a refusal for the budget says it, just where
/// more instructions than the budget, none of them a wait or `process_exit`, follow one another
/// from it, itself the first: the last of them needs no edge to be counted. Own profile.
pub fn over_is_by_count()
    ensures leads_on { (i : Image) (n : ℕ) (s : State) (edges : List Edge)
        → is_pause (call_at i n) ≡ false → rule i n s ≡ Ok edges → edges ≢ [] }
    ensures same { (i : Image) (t : ℕ → Option State) (n : ℕ)
        → IsTrue (is_in_range i) → IsTyping i t → (IsOver i t n ↔ IsOverByCount i t n) }
{}

/// An image of version 1 as one of version 2 has the same typings, and they have the same step bounds.
/// Own profile.
pub fn upgrade_keeps_typing()
    ensures typing { (i : Image) (t : ℕ → Option State)
        → IsTrue (is_in_range i) → i.version ≡ version.One
        → (IsTyping i t ↔ IsTyping (record i { version = version.Two }) t) }
    ensures bound { (i : Image) (t : ℕ → Option State) (steps : ℕ → List ℕ → ℕ)
        → IsTrue (is_in_range i) → i.version ≡ version.One
        → (IsStepBound i t steps ↔ IsStepBound (record i { version = version.Two }) t steps) }
{}

/// Where a library's checked programs have a typing with a step bound: in a boot world each process of
/// one is as a typing of its image says, and each step from a sound world keeps this of all of them at
/// once, of who steps, of those who wake or are started, and of the others. Own profile.
pub fn covered_stay()
    ensures boots { (lib : Library) (statements : List Statement) (boot : World)
        → IsVerified lib → IsSizedBoot lib statements boot → IsCovered lib boot }
    ensures steps { (lib : Library) (w : World) (x : TraceItem) (w2 : World)
        → IsVerified lib → IsSound w → IsCovered lib w → Step lib w (pid_of x) x w2
        → IsCovered lib w2 }
{}

/// A Cpu that is as some typing of its image says, with some table, is never stuck, and a local
/// instruction leaves it so: the table stays as it is. A process that conforms has such a Cpu. Own
/// profile.
pub fn able_stay()
    ensures not_stuck { (i : Image) (c : Cpu) → IsTrue (is_in_range i) → IsAble i c
        → next_at i c ≢ IsStuck }
    ensures goes_on { (i : Image) (c d : Cpu) → IsTrue (is_in_range i) → IsAble i c
        → next_at i c ≡ Moves d → IsAble i d }
    ensures conforming { (i : Image) (t : ℕ → Option State) (w : World) (p : ℕ) (q : Process)
        → IsTrue (is_in_range i) → IsTyping i t → HandlesAreSound w
        → get w.processes p ≡ Some q → Conforms i t w p q → IsAble i q.cpu }
{}

/// A process that stands at a call as a typing of its image says passes what is examined first: each
/// of its handle operands is live, of its kind and with its rights, from left to right, and no policy
/// keeps it from making an object. Own profile.
pub fn operands_pass()
    ensures operands { (i : Image) (t : ℕ → Option State) (w : World) (p : ℕ) (q : Process)
        (called : CallName) (s : Site) → StandsAtCall i t w p q called s
        → examined w p [] (handle_operands s.request) ≡ None }
    ensures policy { (i : Image) (t : ℕ → Option State) (w : World) (p : ℕ) (q : Process)
        (called : CallName) (s : Site) → StandsAtCall i t w p q called s
        → by_policy w p (condition_of s.request) ≡ None }
{}

/// What has a typing with a step bound is what the headline speaks of, and doesn't leak: an accepted
/// image, and so each image of which it is known that it would be accepted. Own profile.
pub fn bounded_images_are_sound()
    ensures never_refused { (i : Image) → HasStepBound i → IsNeverRefused i }
    ensures no_leak { (i : Image) (t : ℕ → Option State) → IsTyping i t → NeverLeaks i t }
{}

/// Where a library's checked programs have a typing with a step bound: in every legal history from a
/// boot world, each process of a program that is listed as checked goes well from its start on, whether
/// the boot started it or a `process_start` answered OK: no item of it is answered BAD_HANDLE,
/// WRONG_TYPE or ACCESS_DENIED, is stuck or an end by a policy, and its budget is kept over the items,
/// local instructions that are joined in one item among them. Own profile.
pub fn covered_processes_go_well()
    ensures { (lib : Library) (statements : List Statement) (boot : World) (history : List TraceItem)
        → IsVerified lib → IsSizedBoot lib statements boot → CoveredGoWell lib boot history }
{}
