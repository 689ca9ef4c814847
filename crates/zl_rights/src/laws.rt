//! Laws of the definitions: each function's contract is one law, and its body is empty.

ghost use Rattle.std.specs.Prelude.{◌≡◌};
ghost use Rattle.zl_rights.specs.World.{World};
ghost use Rattle.zl_rights.specs.Settle.{Settles};
ghost use Rattle.zl_rights.specs.Settled.{settled};
ghost use Rattle.zl_rights.specs.Wakes.{wakes};

/// Every world settles, and what it leaves is computed.
pub fn every_world_settles()
    ensures settles { (w : World) → (left : World) × Settles w left }
    ensures computed { (w : World) → Settles w (settled w) }
{}

/// What settling leaves of a world is one world.
pub fn settling_is_one()
    ensures { (w u v : World) → Settles w u → Settles w v → u ≡ v }
{}

/// One round of waking suffices: packets and wakes change no signal, so a second round changes nothing.
pub fn one_round_of_waking_suffices()
    ensures { (w : World) → wakes (wakes w) ≡ wakes w }
{}
