// The checks that a timetable must pass, one function each.
ghost use Rattle.std.specs.Prelude.{◌≡◌, ℕ, ◌+◌, ◌*◌, ◌<◌, ◌≤◌, length, Some, None, IfSome, OnOk, IfOk, IfErr, nat_le};
ghost use Rattle.std.specs.List.{position};
ghost use Rattle.schedule.specs.Limits.{largest};
ghost use Rattle.schedule.specs.Timetable.{timetable, From1To, routers as router_count, ports as port_count, offset as offset_of, share as share_of};
ghost use Rattle.schedule.specs.Verdict.{answered, verdict, limit, size_check, count_check, slot_check, domain_check, offset_check, wave_check, breaks, WithinLimits};

use super::allowed::AllowedSizes;
use super::refusal::Refusal;
use super::sizes::{Size, Sizes};

fn check_limit(size: Size, n: usize) -> Result<(), Refusal>
    ensures is { result ≡ answered (limit size n) }
    ensures kept { OnOk result (From1To (largest size) n) }
{
    if (1..=usize::from(size.largest())).contains(&n) {
        Ok(())
    } else {
        Err(Refusal::SizeOutOfLimits { size })
    }
}

#[tactic(auto, unfolding(crate::specs::Verdict::size_check))]
pub(crate) fn check_sizes(sizes: Sizes, period: usize) -> Result<AllowedSizes, Refusal>
    ensures passed { IfOk result (λ allowed. (size_check sizes period ≡ None) × (allowed.sizes ≡ sizes) × (allowed.period ≡ period)) }
    ensures refused { IfErr result (λ why. size_check sizes period ≡ Some why) }
{
    check_limit(Size::Width, usize::from(sizes.width))?;
    check_limit(Size::Height, usize::from(sizes.height))?;
    check_limit(Size::Domains, usize::from(sizes.domains))?;
    check_limit(Size::Depth, usize::from(sizes.depth))?;
    check_limit(Size::Hop, usize::from(sizes.hop))?;
    check_limit(Size::Period, period)?;
    Ok(AllowedSizes {
        sizes,
        period: period as u8,
    })
}

// How many slots name a domain: a sum, since a filter and a count look at the slots one by one, and take nine times as long.
pub(crate) fn share(slots: &[u8], domain: u8) -> usize
    ensures is { result ≡ share_of slots.now domain }
    ensures few { result ≤ length slots.now }
{
    slots
        .iter()
        .map(|named| usize::from(*named == domain))
        .sum()
}

// The first place in a list whose entry is not below a bound.
fn first_not_below(entries: &[u8], bound: u8) -> Option<usize>
    ensures is { result ≡ position (λ entry. nat_le bound entry) entries.now }
    ensures within { IfSome result (λ k. k < length entries.now) }
{
    entries.iter().position(|entry| bound <= *entry)
}

impl AllowedSizes {
    #[tactic(auto, using(crate::proofs::Refuse::slots_refused))]
    fn check_slots(self, slots: &[u8]) -> Result<(), Refusal>
        requires { length slots.now ≡ self.period }
        ensures { result ≡ answered (slot_check self.sizes slots.now) }
    {
        match first_not_below(slots, self.sizes.domains) {
            Some(slot) => Err(Refusal::UnknownDomain { slot: slot as u8 }),
            None => Ok(()),
        }
    }

    fn check_domains(self, slots: &[u8]) -> Result<(), Refusal>
        ensures { result ≡ answered (domain_check self.sizes slots.now) }
    {
        for domain in 0..self.sizes.domains {
            if share(slots, domain) == 0 {
                return Err(Refusal::DomainWithoutSlot { domain });
            }
        }
        Ok(())
    }
}

// Offsets for the ports of a mesh, five for each router.
#[derive(Clone, Copy)]
struct PortOffsets<'a> {
    allowed: AllowedSizes,
    offsets: &'a [u8],
    ghost counted: { length offsets.now ≡ port_count allowed.sizes },
}

fn check_count<'a>(allowed: AllowedSizes, offsets: &'a [u8]) -> Result<PortOffsets<'a>, Refusal>
    ensures passed { IfOk result (λ counted. (count_check allowed.sizes offsets.now ≡ None)
        × (counted.allowed ≡ allowed) × (counted.offsets.now ≡ offsets.now)) }
    ensures refused { IfErr result (λ why. count_check allowed.sizes offsets.now ≡ Some why) }
{
    if offsets.len() == allowed.ports() {
        Ok(PortOffsets { allowed, offsets })
    } else {
        Err(Refusal::OffsetCount)
    }
}

impl<'a> PortOffsets<'a> {
    // The offset of a port of a router. The side is a number here and below, as it stands in the number of the list's entry.
    fn offset(&self, router: u8, side: u8) -> u16
        requires router { router < router_count self.now.allowed.sizes }
        requires side { side < 5 }
        ensures is { result ≡ offset_of self.now.offsets.now router side }
        ensures few { result ≤ 255 }
    {
        u16::from(self.offsets[usize::from(router) * 5 + usize::from(side)])
    }

    #[tactic(auto, using(crate::proofs::Refuse::offsets_refused))]
    fn check_below_period(&self) -> Result<(), Refusal>
        ensures { result ≡ answered (offset_check self.now.allowed.period self.now.offsets.now) }
    {
        match first_not_below(self.offsets, self.allowed.period) {
            Some(k) => Err(Refusal::OffsetTooLarge {
                router: (k / 5) as u8,
                port: (k % 5) as u8,
            }),
            None => Ok(()),
        }
    }

    // Whether the wave breaks between a router and its neighbour on a side, if it has one there. The refusal tells both by their numbers.
    #[tactic(auto, unfolding(crate::specs::Verdict::breaks))]
    fn wave_breaks(&self, router: u8, side: u8) -> bool
        requires router { router < router_count self.now.allowed.sizes }
        requires side { side < 4 }
        ensures { result ≡ breaks self.now.allowed.sizes self.now.allowed.period self.now.offsets.now router side }
    {
        let Some(to) = self.allowed.neighbour(router, side) else {
            return false;
        };
        let ahead = self.offset(to, side) + u16::from(self.allowed.sizes.hop);
        let period = u16::from(self.allowed.period);
        ahead % period != self.offset(router, side) % period
    }

    // The wave at each port, by router and then by side.
    // Two loops and a label: the refusal tells both numbers, so a chain over the pairs would be no plainer.
    fn check_wave(&self) -> Result<(), Refusal>
        ensures { result ≡ answered (wave_check self.now.allowed.sizes self.now.allowed.period self.now.offsets.now) }
    {
        let mut found = Ok(());
        'scan: for router in 0..self.allowed.routers() {
            for side in 0..4 {
                if self.wave_breaks(router, side) {
                    found = Err(Refusal::WaveBroken { router, side });
                    break 'scan;
                }
            }
        }
        found
    }
}

pub(crate) fn check(sizes: Sizes, slots: &[u8], offsets: &[u8]) -> Result<(), Refusal>
    ensures is { result ≡ answered (verdict (timetable sizes slots.now offsets.now)) }
    ensures kept { OnOk result (WithinLimits sizes (length slots.now)) }
{
    let allowed = check_sizes(sizes, slots.len())?;
    let counted = check_count(allowed, offsets)?;
    allowed.check_slots(slots)?;
    allowed.check_domains(slots)?;
    counted.check_below_period()?;
    counted.check_wave()
}
