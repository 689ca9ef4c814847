ghost use Rattle.std.specs.Prelude.{◌≡◌};
ghost use Rattle.zl_abs.specs.Rule.{passes, writes};
ghost use Rattle.zl_abs.specs.LocalRules.{turned};
ghost use Rattle.zl_abs.specs.CallRules.{stops};
ghost use Rattle.zl_abs.specs.Changes.{changed, ways_by, ways_told};

use crate::cause::{Cause, RuleFault, Wanted};
use crate::change::Change;
use crate::state::AbsState;
use crate::value::AbsVal;
use zl_code::Register;

/// What is different at the ends of the edges that are followed from an instruction.
#[derive(Clone, Copy)]
pub(crate) struct Changes {
    /// Where it jumps.
    pub jumped: Option<Change>,
    /// Where it goes on to the next instruction.
    pub passed: Option<Change>,
}

impl Changes {
    /// The next instruction stands there with this change of the state.
    pub fn passing(state: &AbsState, change: Change) -> Changes
        ensures { ways_by state.now result ≡ passes (changed state.now change) }
    {
        Changes {
            jumped: None,
            passed: Some(change),
        }
    }

    /// No edge is followed.
    pub fn stopping(state: &AbsState) -> Changes
        ensures { ways_by state.now result ≡ stops }
    {
        Changes {
            jumped: None,
            passed: None,
        }
    }

    /// The edges exchanged.
    pub fn turned(self, state: &AbsState) -> Changes
        ensures { ways_by state.now result ≡ turned (ways_by state.now self) }
    {
        Changes {
            jumped: self.passed,
            passed: self.jumped,
        }
    }

    /// The register is written, which must not have a handle.
    pub fn writing(
        state: &AbsState,
        register: Register,
        value: AbsVal,
    ) -> Result<Changes, RuleFault>
        ensures { ways_told state.now result ≡ writes state.now register value }
    {
        if state.get(register).is_has() {
            Err(Cause::Leak.of(register, Wanted::Room))
        } else {
            Ok(Changes::passing(state, Change::Written(register, value)))
        }
    }
}
