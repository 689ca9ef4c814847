ghost use Rattle.std.specs.Prelude.{◌≡◌};
ghost use Rattle.zl_abs.specs.Bounds.{RoundAlike, bounds_of};
ghost use Rattle.zl_abs.specs.Changes.{steps_told};
ghost use Rattle.zl_abs.specs.Typing.{rule};

use zl_abs::{AbsState, Bounds, RuleFault, Steps, step_by};
use zl_code::Image;

/// The edges that are followed from the instruction in this state, or why its rule doesn't hold
/// there, by bounds that were made once for the image. The state becomes what the edges change.
#[tactic(auto, using(zl_abs::proofs::RoundingAlike::same_rule))]
pub(crate) fn edges_at(
    bounds: &Bounds,
    image: &Image,
    at: usize,
    state: &mut AbsState,
) -> Result<Steps, RuleFault>
    requires { RoundAlike bounds.now (bounds_of image.now.code) }
    ensures { steps_told state.new result ≡ rule image.now at state.old }
{
    step_by(bounds, image, at, state)
}
