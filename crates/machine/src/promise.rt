ghost use Rattle.machine.specs.Machine.{machine};
ghost use Rattle.machine.specs.Promise.{Promise};

use rules::arbiter::Arbiter;
use rules::route::RouteRule;
use schedule::plan::Plan;

// What every caller of a mesh of this plan, arbiter and route rule is promised, whatever its payloads are. It does nothing: to call it
// is to have the promise.
pub fn promise<A: Arbiter, R: RouteRule, P: Copy>(plan: &Plan, arbiter: &A, route: &R)
    ensures { Promise P (machine plan.now (A.Arbiter.meaning arbiter.now) (R.RouteRule.meaning route.now)) }
{}
