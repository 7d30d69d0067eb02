// Whether the queue records and the packets that they hold belong into the mesh and the present cycle.
ghost use Rattle.std.specs.Prelude.{◌≡◌, ℕ, ◌+◌, ◌*◌, ◌<◌, ◌≤◌, not, ◌&&◌, length};
ghost use Rattle.machine.specs.Tables.{all_below};
ghost use Rattle.mesh.specs.Heads.{queue_count, routers};
ghost use Rattle.mesh.specs.Scan.{held, sound_place, sound_in, sound_ring, sound as sound_tables};

use super::lent::Lent;
use super::needed::queues_needed;
use machine::tables::{Place, Queue};

// Whether place `s` of a queue of B places holds a packet. The record is the caller's and may say anything, so that its first place is below B is asked here.
fn holds<const B: usize>(x: Queue, s: usize) -> bool
    requires { x.first < B }
    ensures { result ≡ held B x s }
{
    let first = x.first as usize;
    let turn = if s < first { B - first + s } else { s - first };
    turn < x.count as usize
}

impl<P: Copy> Lent<'_, P> {
    fn place_sound(&self, x: Place) -> bool
        ensures { result ≡ sound_place self.now.plan.now self.now.cycle x }
    {
        let routers = self.plan.routers();
        x.destination < routers
            && x.source < routers
            && x.ready <= u64::from(self.cycle) + u64::from(self.plan.sizes.hop) - 1
    }

    // Whether what stands at place `s` of a queue is a packet that does not belong there.
    fn spoils<const B: usize>(&self, x: Queue, s: usize, place: Place) -> bool
        requires { x.first < B }
        ensures { result ≡ (not (sound_place self.now.plan.now self.now.cycle place) && held B x s) }
    {
        !self.place_sound(place) && holds::<B>(x, s)
    }

    // Whether the packets of a queue with B places are sound. Looking at each place in order is faster than following the ring.
    fn packets_sound<const B: usize>(&self, x: Queue, ring: &[Place; B]) -> bool
        requires first { x.first < B }
        requires count { x.count ≤ B }
        ensures { result ≡ all_below (sound_in self.now.plan.now self.now.cycle B ring.now x.first) x.count }
    {
        if x.count == 0 {
            return true;
        }
        // a loop and no `all`, here and below: the closure of an `all` would have to state in clauses what it is given and answers
        for (s, place) in ring.iter().enumerate() {
            if self.spoils::<B>(x, s, *place) {
                return false;
            }
        }
        true
    }

    // Whether a queue with B places, which has the record `x`, is sound.
    #[tactic(auto, using(std::proofs::lemmas::Bool::Decides::nat_tests), unfolding(crate::specs::Scan::sound_ring))]
    fn queue_sound<const B: usize>(&self, x: Queue, ring: &[Place; B]) -> bool
        ensures { result ≡ sound_ring self.now.plan.now self.now.cycle B x ring.now }
    {
        if x.first as usize >= B {
            return false;
        }
        if x.count as usize > B {
            return false;
        }
        self.packets_sound(x, ring)
    }

    fn queues_sound<const B: usize>(&self) -> bool
        requires deep { B ≡ self.now.plan.now.sizes.depth }
        requires queues_in { queue_count self.now.plan.now ≤ length self.now.queues.now }
        requires long { queue_count self.now.plan.now * self.now.plan.now.sizes.depth ≤ length self.now.places.now }
        ensures { result ≡ sound_tables self.now.plan.now self.now.cycle self.now.queues.now self.now.places.now }
    {
        let (rings, _) = self.places.as_chunks::<B>();
        let needed = &self.queues[..queues_needed(self.plan)];
        for (x, ring) in needed.iter().zip(rings) {
            if !self.queue_sound(*x, ring) {
                return false;
            }
        }
        true
    }

    // Whether every queue is sound. That the tables are long enough the caller has just tested: it is asked here and above.
    // Each depth has code of its own, in which the loop over the places of a queue has a fixed length: only a `match` makes a number that is
    // known when it runs a const argument.
    pub(crate) fn sound(&self) -> bool
        requires queues_in { queue_count self.now.plan.now ≤ length self.now.queues.now }
        requires long { queue_count self.now.plan.now * self.now.plan.now.sizes.depth ≤ length self.now.places.now }
        ensures { result ≡ sound_tables self.now.plan.now self.now.cycle self.now.queues.now self.now.places.now }
    {
        match self.plan.sizes.depth {
            1 => self.queues_sound::<1>(),
            2 => self.queues_sound::<2>(),
            3 => self.queues_sound::<3>(),
            _ => self.queues_sound::<4>(),
        }
    }
}
