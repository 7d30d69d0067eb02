// What a plan tells of its routers, ports and domains.
ghost use Rattle.std.specs.Prelude.{◌≡◌, ℕ, ◌+◌, ◌<◌, ◌≤◌, IfSome, ◌++◌, length, take, drop, nat_eq};
ghost use Rattle.std.specs.List.{position};
ghost use Rattle.schedule.specs.Plans.{place_of, owner_of, gap_of, share_of, beside as beside_of};
ghost use Rattle.schedule.specs.Timetable.{routers as router_count};
ghost use Rattle.schedule.specs.Turns.{until_next as until_next_of};

use super::allowed::AllowedSizes;
use super::check::share;
use super::geometry::Position;
use super::plan::Plan;

// How many slots after slot k, the list taken as a ring, stand before one that names the domain; none where no slot names it.
fn passed_over(turns: &[u8], domain: u8, k: usize) -> Option<usize>
    requires { k < length turns.now }
    ensures is { result ≡ position (λ named. nat_eq named domain) (drop (k + 1) turns.now ++ take (k + 1) turns.now) }
    ensures within { IfSome result (λ j. j < length turns.now) }
{
    turns[k + 1..]
        .iter()
        .chain(&turns[..=k])
        .position(|named| *named == domain)
}

impl Plan {
    // The six sizes, which a plan keeps within their limits.
    fn allowed(&self) -> AllowedSizes
        ensures sizes { result.sizes ≡ self.now.sizes }
        ensures period { result.period ≡ self.now.period }
    {
        AllowedSizes {
            sizes: self.sizes,
            period: self.period,
        }
    }

    // The slots, a domain each.
    fn turns(&self) -> &[u8]
        ensures is { result.now ≡ take self.now.period self.now.slots }
        ensures long { length result.now ≡ self.now.period }
    {
        &self.slots[..usize::from(self.period)]
    }

    // How many routers the mesh has.
    pub fn routers(&self) -> u8
        ensures is { result ≡ router_count self.now.sizes }
        ensures few { result ≤ 64 }
    {
        self.allowed().routers()
    }

    // Where a router stands; none where the mesh has no such router.
    pub fn position(&self, router: u8) -> Option<Position>
        ensures { result ≡ place_of self.now router }
    {
        if router >= self.routers() {
            return None;
        }
        Some(self.allowed().position_of(router))
    }

    // The domain that a port belongs to in a cycle; none where the mesh has no such router or port.
    // The port is a number, by which the offset list is indexed; a `Side` would ask more of callers, who may name any.
    pub fn owner(&self, router: u8, port: u8, cycle: u32) -> Option<u8>
        ensures { result ≡ owner_of self.now router port cycle }
    {
        if router >= self.routers() || port >= 5 {
            return None;
        }
        let offset = self.offsets[usize::from(router) * 5 + usize::from(port)];
        let slot = (u64::from(cycle) + u64::from(offset)) % u64::from(self.period);
        Some(self.slots[slot as usize])
    }

    // The largest number of cycles from one of a domain's slots to its next; none where the plan has no such domain.
    pub fn gap(&self, domain: u8) -> Option<u8>
        ensures { result ≡ gap_of self.now domain }
    {
        if domain >= self.sizes.domains {
            return None;
        }
        let mut longest: u8 = 0;
        for (k, named) in self.turns().iter().enumerate() {
            if *named == domain {
                longest = longest.max(self.until_next(domain, k));
            }
        }
        Some(longest)
    }

    // The cycles from slot k to the domain's next slot, the list taken as a ring; one more than the list has slots where none
    // names the domain: a number and no Option, since the definition has it so.
    fn until_next(&self, domain: u8, k: usize) -> u8
        requires { k < self.now.period }
        ensures { result ≡ until_next_of (take self.now.period self.now.slots) domain k }
    {
        let turns = self.turns();
        passed_over(turns, domain, k).unwrap_or(turns.len()) as u8 + 1
    }

    // How many slots name a domain; none where the plan has no such domain.
    pub fn share(&self, domain: u8) -> Option<u8>
        ensures { result ≡ share_of self.now domain }
    {
        if domain >= self.sizes.domains {
            return None;
        }
        Some(share(self.turns(), domain) as u8)
    }

    // The router on a side of another; none where the mesh has no such router, or nothing on that side.
    // The side is a number; a `Side` would ask more of callers, who may name any.
    pub fn neighbour(&self, router: u8, side: u8) -> Option<u8>
        ensures { result ≡ beside_of self.now router side }
    {
        if router >= self.routers() {
            return None;
        }
        self.allowed().neighbour(router, side)
    }
}
