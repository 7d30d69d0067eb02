// Offsets by which the turns run over the mesh as waves.
ghost use Rattle.std.specs.Prelude.{◌≡◌, ℕ, ◌*◌, ◌<◌, ◌≤◌};
ghost use Rattle.schedule.specs.Built.{built as built_list, built_offset as built_port, built_entry as entry_of};
ghost use Rattle.schedule.specs.Timetable.{padded, ports as port_count};

use super::allowed::AllowedSizes;

// The offset of a port of a router that is so many cycles of hops away from column 0 and row 0.
// The port is a number, the place in a list of five: as a `Side` it would need a conversion whose failure cannot happen.
fn built_offset(period: u16, cycles: u16, port: usize) -> u16
    requires { 1 ≤ period }
    ensures { result ≡ built_port period cycles port }
{
    match port {
        1 | 3 => cycles % period,
        _ => (period - cycles % period) % period,
    }
}

impl AllowedSizes {
    #[tactic(auto, unfolding(crate::specs::Built::built_entry))]
    fn built_entry(self, k: usize) -> u8
        requires { k < port_count self.sizes }
        ensures { result ≡ entry_of self.sizes self.period k }
    {
        let at = self.position_of((k / 5) as u8);
        let cycles = u16::from(self.sizes.hop) * (u16::from(at.column) + u16::from(at.row));
        built_offset(u16::from(self.period), cycles, k % 5) as u8
    }

    // An offset for each port, and 0 behind them: an array as a plan has it, since there is no heap.
    pub(crate) fn built_offsets(self) -> [u8; 320]
        ensures { result ≡ padded 320 (built_list self.sizes self.period) }
    {
        let mut offsets = [0; 320];
        for (k, offset) in offsets[..self.ports()].iter_mut().enumerate() {
            *offset = self.built_entry(k);
        }
        offsets
    }
}
