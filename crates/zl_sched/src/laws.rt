//! Laws of the definitions: each function's contract is one law, and its body is empty.

ghost use Rattle.std.specs.Prelude.{ℕ, List};
ghost use Rattle.zl_rights.specs.World.{World};
ghost use Rattle.zl_code.specs.declared.history.TraceItem.{TraceItem};
ghost use Rattle.zl_code.specs.Image.{Library};
ghost use Rattle.zl_code.specs.Steps.{IsLegalHistory};
ghost use Rattle.zl_sched.specs.declared.system.End.{End};
ghost use Rattle.zl_sched.specs.Follows.{EndsBy};

/// However the turns of a schedule end, the items that they gave are a legal history.
pub fn schedules_give_legal_histories()
    ensures { (lib : Library) (w : World) (turns : List ℕ) (limit : ℕ) (items : List TraceItem)
        (after : World) (e : End) → EndsBy lib w turns limit items after e
        → IsLegalHistory lib w items after }
{}
