//! Takes the joined threads apart, into sources and clerks.
ghost use Rattle.std.specs.Prelude.{◌≡◌, [], IfOk, OnOk, map};
ghost use Rattle.std.specs.List.{AllByRecursion, flat_map};
ghost use Rattle.mc_record.specs.Clerk.{IsSeatActor};
ghost use Rattle.mc_session.specs.Routes.{AreOnRoutes};
ghost use Rattle.mc_session.specs.Session.{seat_clerk, seat_ends};
ghost use Rattle.mc_serve.specs.Recorded.{route_from};

use crate::connection_slot::ConnectionSlot;
use crate::reactor::Reactor;
use mc_history::Evidence;
use mc_net::ConnectionSource;
use mc_poll::ThreadGroupError;
use mc_record::SeatClerk;
use mc_transport::{Clock, Transport};
use mc_worker::Gate;
use std::alloc::{AllocError, Global};

/// Space for what the threads return. It is reserved before they start, so that nothing can be lost
/// after the connections were served.
#[derive(Drop)]
pub(crate) struct ReturnRoom<D: ConnectionSource> {
    slots: Vec<ConnectionSlot<D>>,
    sources: Vec<D>,
    clerks: Vec<SeatClerk>,
    ghost no_slots: { slots.items ≡ [] },
    ghost no_sources: { sources.items ≡ [] },
    ghost no_clerks: { clerks.items ≡ [] },
}

impl<D: ConnectionSource + Drop> ReturnRoom<D>
where
    D::Transport: Transport<Warrant = Evidence>,
{
    /// Space for `slots` slots.
    pub(crate) fn new(alloc: Global, slots: usize) -> Result<ReturnRoom<D>, AllocError> {
        Ok(ReturnRoom {
            slots: Vec::with_capacity(alloc, slots)?,
            sources: Vec::with_capacity(alloc, slots)?,
            clerks: Vec::with_capacity(alloc, slots)?,
        })
    }

    /// Returns the sources and the clerks of the slots of all reactors, in order. Each clerk knows
    /// the routes of its slot's channels. Fails with `Memory` if there are more than were reserved
    /// and memory is refused.
    pub(crate) fn take_back<G: Gate + Drop, K: Clock + Drop>(
        self,
        parts: Vec<Reactor<D, G, K>>,
    ) -> Result<(Vec<D>, Vec<SeatClerk>), ThreadGroupError>
        ensures sources { IfOk result (λ back. back.0.items ≡
            map (λ slot. slot.source) (flat_map (λ part. part.seats.all.items) parts.items)) }
        ensures clerks { IfOk result (λ back. back.1.items ≡
            map (λ slot. seat_clerk slot.session)
            (flat_map (λ part. part.seats.all.items) parts.items)) }
        ensures actors { IfOk result (λ _.
            AllByRecursion (λ slot. IsSeatActor (seat_clerk slot.session))
            (flat_map (λ part. part.seats.all.items) parts.items)) }
        ensures routes { IfOk result (λ _.
            AllByRecursion
            (λ slot. AreOnRoutes (route_from (seat_clerk slot.session)) (seat_ends slot.session))
            (flat_map (λ part. part.seats.all.items) parts.items)) }
    {
        let ReturnRoom {
            mut slots,
            mut sources,
            mut clerks,
        } = self;
        take_apart(parts, &mut slots)?;
        finish_all(slots, &mut sources, &mut clerks)?;
        Ok((sources, clerks))
    }
}

/// Appends the slots of all reactors, in order.
fn take_apart<D: ConnectionSource + Drop, G: Gate + Drop, K: Clock + Drop>(
    parts: Vec<Reactor<D, G, K>>,
    slots: &mut Vec<ConnectionSlot<D>>,
) -> Result<(), AllocError>
where
    D::Transport: Transport<Warrant = Evidence>,
    requires { slots.old.items ≡ [] }
    ensures { OnOk result
        (slots.new.items ≡ flat_map (λ part. part.seats.all.items) parts.items) }
{
    for part in parts {
        let mut own = part.into_seats();
        slots.append(&mut own)?;
    }
    Ok(())
}

/// Appends the sources and the clerks of the slots, in order.
fn finish_all<D: ConnectionSource + Drop>(
    slots: Vec<ConnectionSlot<D>>,
    sources: &mut Vec<D>,
    clerks: &mut Vec<SeatClerk>,
) -> Result<(), AllocError>
where
    D::Transport: Transport<Warrant = Evidence>,
    requires no_sources { sources.old.items ≡ [] }
    requires no_clerks { clerks.old.items ≡ [] }
    ensures sources { OnOk result (sources.new.items ≡ map (λ slot. slot.source) slots.items) }
    ensures clerks { OnOk result
        (clerks.new.items ≡ map (λ slot. seat_clerk slot.session) slots.items) }
    ensures actors { OnOk result
        (AllByRecursion (λ slot. IsSeatActor (seat_clerk slot.session)) slots.items) }
    ensures routes { OnOk result
        (AllByRecursion
        (λ slot. AreOnRoutes (route_from (seat_clerk slot.session)) (seat_ends slot.session))
        slots.items) }
{
    for slot in slots {
        let (source, clerk) = slot.finish();
        sources.push(source)?;
        clerks.push(clerk)?;
    }
    Ok(())
}
