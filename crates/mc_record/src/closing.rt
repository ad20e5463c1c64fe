//! Closing a history.
ghost use Rattle.std.specs.Prelude.{◌≡◌};
ghost use Rattle.std.specs.List.{AllByRecursion};
ghost use Rattle.mc_model.specs.Grows.{Lengthens};
ghost use Rattle.mc_history.specs.Lawful.{IsHistory};
ghost use Rattle.mc_record.specs.Closing.{IsWholeIn};

use crate::clerk::SeatClerk;
use mc_history::{Evidence, Member};

/// Joins what the witness and all clerks of its history have seen into one history.
pub fn close(witness: Member, clerks: Vec<SeatClerk>) -> Evidence
    requires { AllByRecursion (λ clerk. clerk.name ≡ witness.name) clerks.items }
    ensures name { result.name ≡ witness.name }
    ensures lawful { IsHistory result.name.sizes result.events }
    ensures whole { AllByRecursion (λ clerk. IsWholeIn result.events clerk) clerks.items }
{
    let (mut witness, mut clerks) = (witness, clerks);
    hear_clerks(&mut witness, &mut clerks);
    show_clerks(&mut witness, &mut clerks);
    witness.show()
}

/// The witness sees what each clerk has seen.
fn hear_clerks(witness: &mut Member, clerks: &mut Vec<SeatClerk>)
    requires { AllByRecursion (λ clerk. clerk.name ≡ witness.old.name) clerks.old.items }
    ensures name { witness.new.name ≡ witness.old.name }
    ensures seen { AllByRecursion (λ clerk. Lengthens clerk.events witness.new.events)
        clerks.old.items }
    ensures kept { clerks.new.items ≡ clerks.old.items }
{
    for clerk in clerks.iter_mut() {
        witness.hear(clerk.show());
    }
}

/// Shows each clerk what the witness has seen. None of it is an event of the clerk's own that the
/// clerk had not seen.
fn show_clerks(witness: &mut Member, clerks: &mut Vec<SeatClerk>)
    requires history { AllByRecursion (λ clerk. clerk.name ≡ witness.old.name) clerks.old.items }
    requires seen { AllByRecursion (λ clerk. Lengthens clerk.events witness.old.events)
        clerks.old.items }
    ensures kept { witness.new ≡ witness.old }
    ensures whole { AllByRecursion (λ clerk. IsWholeIn witness.old.events clerk) clerks.old.items }
{
    for clerk in clerks.iter_mut() {
        clerk.see(witness.show());
    }
}
