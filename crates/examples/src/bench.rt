// A mesh to try the calls on, with tables just as long as its plan needs.
use machine::tables::{Delivery, Place, Queue};
use mesh::inject::inject;
use mesh::needed::{deliveries_needed, places_needed, queues_needed};
use mesh::open::open;
use mesh::room::room;
use mesh::step::step;
use rules::arbiter::Arbiter;
use rules::route::{ColumnsFirst, RouteRule};
use schedule::plan::Plan;
use schedule::refusal::Refusal;
use std::alloc::{AllocError, Global};

const NO_PLACE: Place = Place {
    destination: 77,
    source: 88,
    ready: 99,
};

const NO_DELIVERY: Delivery = Delivery {
    mark: 5,
    domain: 5,
    source: 5,
};

// What the queue records, the payloads and the words hold before the first call.
#[derive(Clone, Copy)]
pub(crate) struct Filling<P> {
    pub(crate) queue: Queue,
    pub(crate) payload: P,
    pub(crate) word: u32,
}

#[derive(Drop)]
pub(crate) struct Bench<P> {
    plan: Plan,
    pub(crate) cycle: u32,
    queues: Vec<Queue>,
    places: Vec<Place>,
    payloads: Vec<P>,
    words: Vec<u32>,
    deliveries: Vec<Delivery>,
    delivered: Vec<P>,
}

// An answer with the number of its refusal: the tests' values are these numbers, by which the pages list the refusals.
pub(crate) fn numbered<T: Drop>(answer: Result<T, Refusal>) -> Result<T, u8> {
    answer.map_err(|refusal| refusal.number())
}

impl<P: Copy> Bench<P> {
    pub(crate) fn new(
        alloc: Global,
        plan: Plan,
        cycle: u32,
        filling: Filling<P>,
    ) -> Result<Bench<P>, AllocError> {
        let queues = queues_needed(&plan);
        let places = places_needed(&plan);
        let routers = deliveries_needed(&plan);
        Ok(Bench {
            plan,
            cycle,
            queues: vec![in alloc; filling.queue; queues]?,
            places: vec![in alloc; NO_PLACE; places]?,
            payloads: vec![in alloc; filling.payload; places]?,
            words: vec![in alloc; filling.word; queues]?,
            deliveries: vec![in alloc; NO_DELIVERY; routers]?,
            delivered: vec![in alloc; filling.payload; routers]?,
        })
    }

    pub(crate) fn open(&mut self) -> Result<(), u8> {
        numbered(open(
            &self.plan,
            &mut self.cycle,
            &mut self.queues,
            &mut self.places,
            &mut self.payloads,
            &mut self.words,
        ))
    }

    pub(crate) fn inject(
        &mut self,
        router: u8,
        domain: u8,
        destination: u8,
        payload: P,
    ) -> Result<u8, u8> {
        numbered(inject(
            &self.plan,
            self.cycle,
            &mut self.queues,
            &mut self.places,
            &mut self.payloads,
            &self.words,
            router,
            domain,
            destination,
            payload,
        ))
    }

    pub(crate) fn room(&self, router: u8, domain: u8) -> Result<u8, u8> {
        numbered(room(
            &self.plan,
            self.cycle,
            &self.queues,
            &self.places,
            &self.payloads,
            &self.words,
            router,
            domain,
        ))
    }

    // A step by columns first.
    pub(crate) fn step<A: Arbiter>(&mut self, arbiter: &A) -> Result<u32, u8> {
        self.step_by(arbiter, &ColumnsFirst)
    }

    pub(crate) fn step_by<A: Arbiter, R: RouteRule>(
        &mut self,
        arbiter: &A,
        rule: &R,
    ) -> Result<u32, u8> {
        numbered(step(
            &self.plan,
            arbiter,
            rule,
            &mut self.cycle,
            &mut self.queues,
            &mut self.places,
            &mut self.payloads,
            &mut self.words,
            &mut self.deliveries,
            &mut self.delivered,
        ))
    }

    // What the last step told of a router.
    pub(crate) fn told(&self, router: usize) -> Option<Delivery> {
        self.deliveries.get(router).copied()
    }

    // The payload that lies beside it.
    pub(crate) fn delivered(&self, router: usize) -> Option<P> {
        self.delivered.get(router).copied()
    }
}
