// The checks that the calls on lent tables share.
ghost use Rattle.std.specs.Prelude.{◌≡◌, ℕ};
ghost use Rattle.machine.specs.Calls.{check as checked};
ghost use Rattle.schedule.specs.Verdict.{answered, earliest};
ghost use Rattle.mesh.specs.Answers.{table_checks};
ghost use Rattle.mesh.specs.Needed.{WithAnyRules};
ghost use Rattle.mesh.specs.Shared.{tables_of};

use super::lent::Lent;
use super::needed::tables_long_enough;
use schedule::refusal::Refusal;

// A refusal where a test fails.
#[tactic(auto, unfolding(machine::specs::Calls::check))]
pub(crate) fn check(passes: bool, why: Refusal) -> Result<(), Refusal>
    ensures { result ≡ answered (checked passes why) }
{
    if passes { Ok(()) } else { Err(why) }
}

impl<P: Copy> Lent<'_, P> {
    // The tables are long enough and sound.
    pub(crate) fn check_tables(&self) -> Result<(), Refusal>
        ensures { WithAnyRules self.now.plan.now (λ m. result ≡ answered (earliest (table_checks m (tables_of self.now)))) }
    {
        let long = tables_long_enough(
            self.plan,
            self.queues.len(),
            self.places.len(),
            self.payloads.len(),
            self.words.len(),
        );
        check(long, Refusal::TableTooShort)?;
        check(self.sound(), Refusal::UnsoundTable)
    }
}
