// Settings that are not refused.
ghost use Rattle.std.specs.Prelude.{◌≡◌, ℕ, false, List, ◌∷◌, IfOk, IfErr};
ghost use Rattle.std.proofs.Math.Option.{some};
ghost use Rattle.signals.specs.Tables.{Row, ◌⇐◌, first_applying};
ghost use Rattle.signals.specs.Refusals.{number_of};
ghost use Rattle.addressgen.specs.Overwriting.{overwrites_itself};
ghost use Rattle.addressgen.specs.Run.{bad_mask};

use addressgen::Settings;
use signals::Refusal;

// Settings with a legal mask that do not overwrite themselves.
// The run of `addressgen` makes the same two tests before its others: a type for both crates would be longer than the two tests are.
#[derive(Clone, Copy)]
pub(crate) struct Legal {
    pub(crate) settings: Settings,
    ghost mask: { bad_mask settings ≡ false },
    ghost strides: { overwrites_itself settings ≡ false },
}

impl Legal {
    // Refusal 10 or 11, or the settings as they are.
    pub(crate) fn new(settings: Settings) -> Result<Legal, Refusal>
        ensures legal { IfOk result (λ legal. legal.settings ≡ settings) }
        ensures refused { IfErr result (λ why. (more : List (Row ℕ)) → first_applying (10 ⇐ bad_mask settings ∷ 11 ⇐ overwrites_itself settings ∷ more) ≡ some (number_of why)) }
    {
        if settings.bad_mask() {
            return Err(Refusal::BadMask);
        }
        if settings.overwrites_itself() {
            return Err(Refusal::OverwritesItself);
        }
        Ok(Legal { settings })
    }
}
