//! Laws of booting: each function's contract is one law, and its body is empty.

ghost use Rattle.std.specs.Prelude.{ℕ, ◌≡◌, ◌⊎◌, List, IsTrue};
ghost use Rattle.std.specs.List.{list_all};
ghost use Rattle.zl_rights.specs.World.{World};
ghost use Rattle.zl_code.specs.declared.boot.BootCause.{BootCause};
ghost use Rattle.zl_code.specs.declared.boot.Statement.{Statement};
ghost use Rattle.zl_code.specs.Boot.{boot_fault, Boots, IsBoot, IsBooted, FirstFault, origin, values_given, gives_no_handle};
ghost use Rattle.zl_code.specs.Image.{Library};

/// Statements with a limit have a boot world or a first fault.
pub fn a_boot_world_or_a_first_fault()
    ensures { (lib : Library) (statements : List Statement) (limit : ℕ)
        → ((w : World) × IsBooted lib statements limit w)
        ⊎ ((n : ℕ) × (c : BootCause) × FirstFault lib statements limit n c) }
{}

/// They don't have both.
pub fn no_boot_world_beside_a_first_fault()
    ensures { (lib : Library) (statements : List Statement) (limit : ℕ)
        → (w : World) (n : ℕ) (c : BootCause)
        → IsBooted lib statements limit w → FirstFault lib statements limit n c → ⊥ }
{}

/// Two first faults are that of one statement, with one cause.
pub fn the_first_fault_is_one()
    ensures { (lib : Library) (statements : List Statement) (limit : ℕ)
        → (n m : ℕ) (c d : BootCause)
        → FirstFault lib statements limit n c → FirstFault lib statements limit m d
        → (n ≡ m) × (c ≡ d) }
{}

/// Which fault a statement has doesn't depend on the values that handles got before it.
pub fn faults_depend_on_no_choice()
    ensures { (lib : Library) (before : List Statement) (u v : World) (s : Statement)
        → Boots lib origin before u → Boots lib origin before v
        → boot_fault lib u s ≡ boot_fault lib v s }
{}

/// Two boot worlds of the same statements are one, where their handles got the same values.
pub fn the_boot_world_is_one()
    ensures { (lib : Library) (statements : List Statement) (u v : World)
        → (x : IsBoot lib statements u) (y : IsBoot lib statements v)
        → values_given lib origin statements x.made x.boots
        ≡ values_given lib origin statements y.made y.boots
        → u ≡ v }
{}

/// Two boot worlds of the same statements are one, where no statement gives a handle.
pub fn the_boot_world_without_handles_is_one()
    ensures { (lib : Library) (statements : List Statement) (u v : World)
        → IsTrue (list_all gives_no_handle statements)
        → IsBoot lib statements u → IsBoot lib statements v → u ≡ v }
{}
