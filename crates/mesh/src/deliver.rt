// What the local ports hand over to the routers' own cores.
ghost use Rattle.std.specs.Prelude.{◌≡◌, ℕ, ◌/◌, ◌<◌, ◌≤◌, length};
ghost use Rattle.machine.specs.Moves.{edit};
ghost use Rattle.mesh.specs.After.{delivery_after, delivered_after};
ghost use Rattle.mesh.specs.Ports.{move_at};

use super::moves::Move;
use machine::tables::Delivery;

// Writes the delivery records of a cycle, and the payloads beside those with a mark. Each router has five ports, its own core's last.
// The two tables are told one by one: callers lend records and payloads apart, each of a length of its own.
pub(crate) fn deliver<P: Copy>(
    moves: &[Option<Move>],
    payloads: &[P],
    deliveries: &mut [Delivery],
    delivered: &mut [P],
)
    requires deliveries_in { length moves.now / 5 ≤ length deliveries.old }
    requires delivered_in { length moves.now / 5 ≤ length delivered.old }
    requires froms { (k : ℕ) → (move_at moves.now k).from < length payloads.now }
    ensures marked { deliveries.new
        ≡ edit 0 (length moves.now / 5) (delivery_after moves.now) deliveries.old }
    ensures handed { delivered.new
        ≡ edit 0 (length moves.now / 5) (delivered_after moves.now payloads.now) delivered.old }
{
    let (routers, _) = moves.as_chunks::<5>();
    for (router, ports) in routers.iter().enumerate() {
        let Some(m) = ports[4] else {
            deliveries[router] = Delivery::default();
            continue;
        };
        deliveries[router] = Delivery {
            mark: 1,
            domain: m.owner,
            source: m.source,
        };
        delivered[router] = payloads[m.from];
    }
}
