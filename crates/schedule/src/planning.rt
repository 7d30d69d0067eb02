// Plan calls: a timetable is checked and, if it passes, replaces the one that the caller's plan holds.
ghost use Rattle.std.specs.Prelude.{◌≡◌, ℕ, ◌<◌, ◌≤◌, length, is_ok, Decides};
ghost use Rattle.schedule.specs.Built.{built};
ghost use Rattle.schedule.specs.Plans.{timetable_of, BuiltKeep, smallest as smallest_timetable, outcome, replaced};
ghost use Rattle.schedule.specs.Timetable.{timetable, padded, ports as port_count};
ghost use Rattle.schedule.specs.Verdict.{Keeps, Assigned};

use super::check::{check, check_sizes};
use super::plan::Plan;
use super::refusal::Refusal;
use super::sizes::Sizes;

// The entries at the front of an array, and 0 behind them.
fn stored<const N: usize>(entries: &[u8]) -> [u8; N]
    requires { length entries.now ≤ N }
    ensures { result ≡ padded N entries.now }
{
    let mut array = [0; N];
    array[..entries.len()].copy_from_slice(entries);
    array
}

impl Plan {
    // The plan that a caller starts with: all six sizes are 1.
    pub fn smallest() -> Plan
        ensures { timetable_of result ≡ smallest_timetable }
    {
        Plan {
            sizes: Sizes {
                width: 1,
                height: 1,
                domains: 1,
                depth: 1,
                hop: 1,
            },
            period: 1,
            slots: [0; 64],
            offsets: [0; 320],
        }
    }

    // Takes up a timetable with an offset for each port, or refuses it and stays as it is. Sizes, slots and offsets are told one by one: what
    // holds the three together is a plan.
    pub fn adopt(&mut self, sizes: Sizes, slots: &[u8], offsets: &[u8]) -> Result<(), Refusal>
        ensures left { outcome result (timetable_of self.new)
            ≡ replaced (timetable sizes slots.now offsets.now) (timetable_of self.old) }
        ensures accepted { Decides (is_ok result) (Keeps (timetable sizes slots.now offsets.now)) }
    {
        check(sizes, slots, offsets)?;
        *self = Plan {
            sizes,
            period: slots.len() as u8,
            slots: stored(slots),
            offsets: stored(offsets),
        };
        Ok(())
    }

    // Takes up a timetable whose offsets are built so that each domain's turns run over the mesh as waves.
    pub fn adopt_built(&mut self, sizes: Sizes, slots: &[u8]) -> Result<(), Refusal>
        ensures left { outcome result (timetable_of self.new)
            ≡ replaced (timetable sizes slots.now (built sizes (length slots.now))) (timetable_of self.old) }
        ensures accepted { Decides (is_ok result) (Assigned sizes slots.now) }
        ensures built_keep { BuiltKeep sizes (length slots.now) }
    {
        let allowed = check_sizes(sizes, slots.len())?;
        let offsets = allowed.built_offsets();
        self.adopt(sizes, slots, &offsets[..allowed.ports()])
    }
}
