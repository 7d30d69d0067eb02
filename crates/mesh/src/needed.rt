// How long the tables of a mesh must be. Longer ones do as well: what lies beyond is left alone.
ghost use Rattle.std.specs.Prelude.{◌≡◌, ℕ, ◌*◌, ◌≤◌, ◌&&◌, nat_le};
ghost use Rattle.machine.specs.Calls.{long_enough};
ghost use Rattle.machine.specs.Machine.{depth, queues as queue_count, routers as router_count};
ghost use Rattle.mesh.specs.Needed.{WithAnyRules, six};

use schedule::plan::Plan;

// How many queue records a mesh has, and how many words.
#[tactic(auto, unfolding(machine::specs::Machine::queues, machine::specs::Machine::routers, machine::specs::Machine::domains))]
pub fn queues_needed(plan: &Plan) -> usize
    ensures { WithAnyRules plan.now (λ m. result ≡ queue_count m) }
{
    plan.routers() as usize * 5 * plan.sizes.domains as usize
}

// How many places its queues have, and how many payloads.
#[tactic(auto, unfolding(machine::specs::Machine::depth))]
pub fn places_needed(plan: &Plan) -> usize
    ensures { WithAnyRules plan.now (λ m. result ≡ queue_count m * depth m) }
{
    queues_needed(plan) * plan.sizes.depth as usize
}

// How many delivery records a step writes, and how many delivered payloads lie beside them.
#[tactic(auto, unfolding(machine::specs::Machine::routers))]
pub fn deliveries_needed(plan: &Plan) -> usize
    ensures { WithAnyRules plan.now (λ m. result ≡ router_count m) }
{
    usize::from(plan.routers())
}

// Whether the four tables that every call is lent have these lengths or more.
#[tactic(auto, using(std::proofs::lemmas::Bool::Decides::nat_tests), unfolding(machine::specs::Calls::long_enough))]
pub(crate) fn tables_long_enough(
    plan: &Plan,
    queues: usize,
    places: usize,
    payloads: usize,
    words: usize,
) -> bool
    ensures { WithAnyRules plan.now (λ m. result ≡ long_enough m (six queues places payloads words 0 0)) }
{
    let queue_count = queues_needed(plan);
    let place_count = places_needed(plan);
    queue_count <= queues
        && (place_count <= places && (place_count <= payloads && queue_count <= words))
}

// Whether the two delivery tables that a step is lent have these lengths or more.
#[tactic(auto, using(std::proofs::lemmas::Bool::Decides::nat_tests))]
pub(crate) fn deliveries_long_enough(plan: &Plan, deliveries: usize, delivered: usize) -> bool
    ensures { WithAnyRules plan.now (λ m. result ≡ (nat_le (router_count m) deliveries && nat_le (router_count m) delivered)) }
{
    let router_count = deliveries_needed(plan);
    router_count <= deliveries && router_count <= delivered
}
