// Which sides of a router ask for each of its ports.
ghost use Rattle.std.specs.Prelude.{◌≡◌, ℕ, ◌+◌, ◌*◌, ◌<◌, cond, ◌&&◌, ◌==◌, slice_index_or};
ghost use Rattle.mesh.specs.Heads.{asking_set, routers};
ghost use Rattle.mesh.specs.Shared.{outset_of};
ghost use Rattle.mesh.specs.Ports.{owner as owner_of};
ghost use Rattle.mesh.specs.Asked.{no_port, asked};

use super::outset::Outset;
use rules::arbiter::Arbiter;
use rules::route::RouteRule;
use std::array;

// A port of a router in a cycle: the domain that it belongs to, and the sides that ask for it there, bit i for side i.
#[derive(Clone, Copy)]
pub(crate) struct Asked {
    pub(crate) owner: u8,
    pub(crate) sides: u8,
}

// One side more in the set of the port that it wants, if that port belongs to the domain. `wants` is the number that the route rule tells, and may be
// no port's.
fn mark(ports: &mut [Asked; 5], wants: u8, domain: u8, bit: u8)
    requires low { bit < 128 }
    requires small { (p : ℕ) → p < 5 → (slice_index_or ports.old p no_port).sides < 32 }
    ensures { (p : ℕ) → p < 5 →
        let x = slice_index_or ports.old p no_port in
        slice_index_or ports.new p no_port
        ≡ asked x.owner (cond (x.owner == domain && wants == p) (x.sides + bit) x.sides) }
{
    if wants >= 5 {
        return;
    }
    let port = &mut ports[usize::from(wants)];
    if port.owner == domain {
        port.sides += bit;
    }
}

impl<A: Arbiter, R: RouteRule> Outset<'_, A, R> {
    // The ports of a router, of which none is asked for yet.
    fn unasked(&self, router: u8) -> [Asked; 5]
        requires { router < routers self.now.plan.now }
        ensures { (p : ℕ) → p < 5 → slice_index_or result p no_port ≡ asked (owner_of self.now.plan.now self.now.cycle (router * 5 + p)) 0 }
    {
        array::from_fn(|port| Asked {
            owner: self.owner(router, port as u8),
            sides: 0,
        })
    }

    // Adds the sides that ask for those ports of a router that belong to one domain; the other ports stay.
    fn ask_in(&self, router: u8, domain: u8, ports: &mut [Asked; 5])
        requires router_in { router < routers self.now.plan.now }
        requires domain_in { domain < self.now.plan.now.sizes.domains }
        requires empty { (p : ℕ) → p < 5 →
            let x = slice_index_or ports.old p no_port in
            x.owner ≡ domain → x.sides ≡ 0 }
        requires small { (p : ℕ) → p < 5 → (slice_index_or ports.old p no_port).sides < 32 }
        ensures { (p : ℕ) → p < 5 →
            let x = slice_index_or ports.old p no_port in
            slice_index_or ports.new p no_port
            ≡ asked x.owner
            (cond (x.owner == domain) (asking_set (outset_of R.RouteRule.meaning self.now) router p domain) x.sides) }
    {
        for side in 0..5 {
            let q = (router as usize * 5 + side) * self.plan.sizes.domains as usize
                + domain as usize;
            if let Some(port) = self.wanted(router, q) {
                mark(ports, port, domain, 1 << side);
            }
        }
    }

    // The ports of a router, each with its owner and the sides that ask for it. The first packet of a queue is looked at once.
    pub(crate) fn asking(&self, router: u8) -> [Asked; 5]
        requires { router < routers self.now.plan.now }
        ensures { (p : ℕ) → p < 5 →
            let domain = owner_of self.now.plan.now self.now.cycle (router * 5 + p) in
            slice_index_or result p no_port
            ≡ asked domain (asking_set (outset_of R.RouteRule.meaning self.now) router p domain) }
    {
        let mut ports = self.unasked(router);
        for domain in 0..self.plan.sizes.domains {
            if ports.iter().any(|port| port.owner == domain) {
                self.ask_in(router, domain, &mut ports);
            }
        }
        ports
    }
}
