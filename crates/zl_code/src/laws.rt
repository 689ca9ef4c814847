//! Laws of the definitions: each function's contract is one law, and its body is empty.

ghost use Rattle.std.specs.List.{flat_map, list_any};
ghost use Rattle.std.specs.Prelude.{ℕ, ◌==◌, ◌≡◌, ◌≢◌, ◌↔◌, false, IsTrue, List};
ghost use Rattle.zl_rights.specs.declared.status.Status.TheVariants as status;
ghost use Rattle.zl_rights.specs.Map.{get, has_key};
ghost use Rattle.zl_rights.specs.Wakes.{wakes};
ghost use Rattle.zl_rights.specs.World.{Cpu, World, Process, Ready};
ghost use Rattle.zl_code.specs.declared.history.CallName.{CallName};
ghost use Rattle.zl_code.specs.declared.history.Outcome.TheVariants as outcome;
ghost use Rattle.zl_code.specs.declared.history.TraceItem.{TraceItem};
ghost use Rattle.zl_code.specs.declared.history.TraceItem.TheVariants as item;
ghost use Rattle.zl_code.specs.Image.{Image, Library};
ghost use Rattle.zl_code.specs.Spells.{Spells};
ghost use Rattle.zl_code.specs.declared.boot.Statement.{Statement};
ghost use Rattle.zl_code.specs.Steps.{Step, Runs, single, IsLegalHistory};
ghost use Rattle.zl_code.specs.Boot.{IsBoot};
ghost use Rattle.zl_code.specs.Koids.{HasGivenKoids, KeepsKoids};
ghost use Rattle.zl_code.specs.Handles.{HandlesAreNamed, HandlesAreSound, Throughout};
ghost use Rattle.zl_code.specs.Effects.{may_get, on_process};
ghost use Rattle.zl_code.specs.Frame.{LeavesOthers};
ghost use Rattle.zl_code.specs.Headline.{GoesWell};
ghost use Rattle.zl_code.specs.Programs.{HavePrograms};
ghost use Rattle.zl_code.specs.Sound.{IsSound, KeepsProcesses, is_value};

/// No bytes spell two images.
pub fn no_bytes_spell_two_images()
    ensures { (bytes : List ℕ) (i j : Image) → Spells bytes i → Spells bytes j → i ≡ j }
{}

/// A ready process has a step.
pub fn a_ready_process_has_a_step()
    ensures { (lib : Library) (w : World) (p : ℕ) (process : Process)
        → get w.processes p ≡ Some process → process.state ≡ Ready
        → (x : TraceItem) × (after : World) × Step lib w p x after }
{}

/// In a sound world a ready process has a step that isn't a call answered NO_MEMORY.
pub fn a_ready_process_has_a_step_with_memory()
    ensures { (lib : Library) (w : World) (p : ℕ) (process : Process)
        → IsSound w → get w.processes p ≡ Some process → process.state ≡ Ready
        → (x : TraceItem) × (after : World)
        × ((pid : ℕ) (call : CallName) → x ≢ item.Call pid call (outcome.Answered status.NoMemory))
        × Step lib w p x after }
{}

/// Where each object has a koid that was given, a step gives no koid again, and no object changes its
/// kind.
pub fn koids_are_not_reused()
    ensures { (lib : Library) (w : World) (p : ℕ) (x : TraceItem) (after : World)
        → HasGivenKoids w → Step lib w p x after → KeepsKoids w after }
{}

/// Where each object has a koid that was given, each has one after a step too.
pub fn steps_keep_given_koids()
    ensures { (lib : Library) (w : World) (p : ℕ) (x : TraceItem) (after : World)
        → HasGivenKoids w → Step lib w p x after → HasGivenKoids after }
{}

/// In a boot world each object has a koid that was given.
pub fn boot_worlds_have_given_koids()
    ensures { (lib : Library) (statements : List Statement) (w : World)
        → IsBoot lib statements w → HasGivenKoids w }
{}

/// From any point of a run that begins at a boot world, the rest of the run gives no koid again.
pub fn runs_reuse_no_koid()
    ensures { (lib : Library) (statements : List Statement) (boot w after : World) (items more : List TraceItem)
        → IsBoot lib statements boot → Runs lib boot items w → Runs lib w more after → KeepsKoids w after }
{}

/// In a boot world handles stand at places of their own, with rights that a first handle of the kind has.
pub fn boot_worlds_have_sound_handles()
    ensures { (lib : Library) (statements : List Statement) (w : World)
        → IsBoot lib statements w → HandlesAreSound w }
{}

/// Where handles are sound, a step brings none to the place of another, and none to rights that a first
/// handle of its kind lacks.
pub fn steps_keep_handles_sound()
    ensures { (lib : Library) (w : World) (p : ℕ) (x : TraceItem) (after : World)
        → HandlesAreSound w → Step lib w p x after → HandlesAreSound after }
{}

/// In the last world of a run from a boot world handles are sound.
pub fn runs_keep_handles_sound()
    ensures { (lib : Library) (statements : List Statement) (boot after : World) (items : List TraceItem)
        → IsBoot lib statements boot → Runs lib boot items after → HandlesAreSound after }
{}

/// In every world of a legal history from a boot world, the last one too, handles are sound.
pub fn histories_keep_handles_sound()
    ensures { (lib : Library) (statements : List Statement) (boot after : World) (history : List TraceItem)
        → IsBoot lib statements boot → (legal : IsLegalHistory lib boot history after)
        → Throughout HandlesAreSound lib boot (flat_map single history) after legal.run × HandlesAreSound after }
{}

/// In a boot world each handle names an object that is there, of the kind that the handle has.
pub fn boot_worlds_name_objects()
    ensures { (lib : Library) (statements : List Statement) (w : World)
        → IsBoot lib statements w → HandlesAreNamed w }
{}

/// Where each object has a koid that was given, after a step each handle still names an object that is
/// there, of the kind that the handle has.
pub fn steps_keep_handles_named()
    ensures { (lib : Library) (w : World) (p : ℕ) (x : TraceItem) (after : World)
        → HasGivenKoids w → HandlesAreNamed w → Step lib w p x after → HandlesAreNamed after }
{}

/// In the last world of a run from a boot world each handle names an object that is there, of the kind
/// that the handle has.
pub fn runs_keep_handles_named()
    ensures { (lib : Library) (statements : List Statement) (boot after : World) (items : List TraceItem)
        → IsBoot lib statements boot → Runs lib boot items after → HandlesAreNamed after }
{}

/// In every world of a legal history from a boot world, the last one too, each handle names such an
/// object.
pub fn histories_keep_handles_named()
    ensures { (lib : Library) (statements : List Statement) (boot after : World) (history : List TraceItem)
        → IsBoot lib statements boot → (legal : IsLegalHistory lib boot history after)
        → Throughout HandlesAreNamed lib boot (flat_map single history) after legal.run × HandlesAreNamed after }
{}

/// A boot world is sound.
pub fn boot_worlds_are_sound()
    ensures { (lib : Library) (statements : List Statement) (w : World)
        → IsBoot lib statements w → IsSound w }
{}

/// A step leads from a sound world to a sound one.
pub fn steps_keep_worlds_sound()
    ensures { (lib : Library) (w : World) (p : ℕ) (x : TraceItem) (after : World)
        → IsSound w → Step lib w p x after → IsSound after }
{}

/// The last world of a run from a boot world is sound.
pub fn runs_keep_worlds_sound()
    ensures { (lib : Library) (statements : List Statement) (boot after : World) (items : List TraceItem)
        → IsBoot lib statements boot → Runs lib boot items after → IsSound after }
{}

/// Every world of a legal history from a boot world, the last one too, is sound.
pub fn histories_keep_worlds_sound()
    ensures { (lib : Library) (statements : List Statement) (boot after : World) (history : List TraceItem)
        → IsBoot lib statements boot → (legal : IsLegalHistory lib boot history after)
        → Throughout IsSound lib boot (flat_map single history) after legal.run × IsSound after }
{}

/// In a sound world a new handle gets a value of 16 bits, not 0, that no handle of its table has.
pub fn new_handles_get_free_values()
    ensures { (w : World) (p v : ℕ) (q : Process)
        → IsSound w → get w.processes p ≡ Some q → IsTrue (may_get q v)
        → IsTrue (is_value v) × (has_key q.handles v ≡ false) }
{}

/// In a step from a sound world no process vanishes, and none changes its program.
pub fn processes_stay()
    ensures { (lib : Library) (w : World) (p : ℕ) (x : TraceItem) (after : World)
        → IsSound w → Step lib w p x after → KeepsProcesses w after }
{}

/// From any point of a run that begins at a boot world, in the rest of the run no process vanishes, and
/// none changes its program.
pub fn runs_keep_processes()
    ensures { (lib : Library) (statements : List Statement) (boot w after : World)
        (items more : List TraceItem)
        → IsBoot lib statements boot → Runs lib boot items w → Runs lib w more after
        → KeepsProcesses w after }
{}

/// In each world of a run from a boot world, the step of a process leaves every other living process as
/// it was, unless it starts, wakes or kills it, or drops it before its start. It keeps each object that
/// the table of such a process names, where the process lives after the step too, and the policy of each
/// job that a living process is in or below, where the job is there after the step. When it wakes,
/// starts, kills or drops one is said by the step, and not here.
pub fn frame()
    ensures { (lib : Library) (statements : List Statement) (boot w after : World)
        (items : List TraceItem) (p : ℕ) (x : TraceItem)
        → IsBoot lib statements boot → Runs lib boot items w
        → Step lib w p x after → LeavesOthers w p after }
{}

/// In the last world of a run from a boot world nothing is due: waking once more changes nothing.
pub fn runs_are_awake()
    ensures { (lib : Library) (statements : List Statement) (boot after : World) (items : List TraceItem)
        → IsBoot lib statements boot → Runs lib boot items after → wakes after ≡ after }
{}

/// Where nothing is due, nothing is due either once a process that isn't blocked went on by itself.
pub fn local_steps_wake_nothing()
    ensures { (w : World) (p : ℕ) (c : Cpu)
        → list_any (λ q. p == q) w.blocked ≡ false → wakes w ≡ w
        → wakes (on_process w p (λ q. record q { cpu = c })) ≡ on_process w p (λ q. record q { cpu = c }) }
{}

/// In the last world of a run from a boot world each process runs a program of the library, or is to
/// run one.
pub fn runs_have_programs()
    ensures { (lib : Library) (statements : List Statement) (boot after : World) (items : List TraceItem)
        → IsBoot lib statements boot → Runs lib boot items after → HavePrograms lib after }
{}

/// A history tells of a process just what the single steps tell that it stands for: local instructions
/// that are joined in one item are no fault, and count against a budget as they do one by one.
pub fn joined_items_tell_the_same()
    ensures { (i : Image) (p : ℕ) (history : List TraceItem)
        → (GoesWell i p history ↔ GoesWell i p (flat_map single history)) }
{}
