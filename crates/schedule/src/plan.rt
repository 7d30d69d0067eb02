ghost use Rattle.std.specs.Prelude.{◌≡◌, ℕ, take};
ghost use Rattle.schedule.specs.Timetable.{From1To, SlotsNameDomains, DomainsHaveSlots, OffsetsBelow, WaveRule, ports, padded};

use super::sizes::Sizes;

// A timetable that may go into a chip.
// Arrays of a fixed length, with what is used at the front: a plan lies in memory that its owner lends, and there is no heap.
#[repr(C)]
#[derive(Clone, Copy, Debug)]
pub struct Plan {
    pub sizes: Sizes,
    pub period: u8,
    pub slots: [u8; 64],
    pub offsets: [u8; 320],
    ghost width: { From1To 8 sizes.width },
    ghost height: { From1To 8 sizes.height },
    ghost domains: { From1To 8 sizes.domains },
    ghost depth: { From1To 4 sizes.depth },
    ghost hop: { From1To 8 sizes.hop },
    ghost slotted: { From1To 64 period },
    ghost named: { SlotsNameDomains sizes.domains (take period slots) },
    ghost shared: { DomainsHaveSlots sizes.domains (take period slots) },
    ghost below: { OffsetsBelow period (take (ports sizes) offsets) },
    ghost wave: { WaveRule sizes period (take (ports sizes) offsets) },
    ghost slots_clear: { slots ≡ padded 64 (take period slots) },
    ghost offsets_clear: { offsets ≡ padded 320 (take (ports sizes) offsets) },
}
