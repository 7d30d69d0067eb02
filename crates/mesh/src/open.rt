// Opening: the mesh begins at cycle 0, every queue empty and every word 0.
ghost use Rattle.std.specs.Prelude.{◌≡◌, ℕ, ◌≤◌, [], length};
ghost use Rattle.machine.specs.Calls.{outcome_of, opening};
ghost use Rattle.machine.specs.Moves.{edit};
ghost use Rattle.machine.specs.Tables.{no_packets, tables};
ghost use Rattle.mesh.specs.Answers.{without_number};
ghost use Rattle.mesh.specs.Needed.{WithAnyRules};

use super::checks::check;
use super::needed::{queues_needed, tables_long_enough};
use machine::tables::{Place, Queue};
use schedule::plan::Plan;
use schedule::refusal::Refusal;

// Empties every queue and clears every word of a mesh, and puts it to cycle 0. What the places hold stays.
// The tables are lent one by one, a rule of the project: a caller keeps its own slices, and gives up to be changed only what changes.
pub fn open<P: Copy>(
    plan: &Plan,
    cycle: &mut u32,
    queues: &mut [Queue],
    places: &mut [Place],
    payloads: &mut [P],
    words: &mut [u32],
) -> Result<(), Refusal>
    ensures { WithAnyRules plan.now (λ m.
        outcome_of (without_number result)
        (tables cycle.new queues.new places.new payloads.new words.new) [] []
        ≡ opening m
        (tables cycle.old queues.old places.old payloads.old words.old)) }
{
    let long = tables_long_enough(
        plan,
        queues.len(),
        places.len(),
        payloads.len(),
        words.len(),
    );
    check(long, Refusal::TableTooShort)?;
    let n = queues_needed(plan);
    queues[..n].fill(Queue::default());
    words[..n].fill(0);
    *cycle = 0;
    Ok(())
}
