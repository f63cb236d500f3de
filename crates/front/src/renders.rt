//! The renders of flights.
ghost use Rattle.std.specs.List.{find};
ghost use Rattle.std.specs.Prelude.{◌≡◌, ◌<◌, ◌&&◌, IfOk, IsTrue, Some, length, option_map, position, slice_get};
ghost use Rattle.sp_base.specs.MediaTypes.{is_kind};
ghost use Rattle.dispatch_rules.specs.Asking.{publisher_ask};
ghost use Rattle.run_events.specs.declared.flying.Flying as model;
ghost use Rattle.run_events.specs.Events as events;
ghost use Rattle.run_events.specs.Events.{is_unrendered};
ghost use Rattle.front.specs.Caches.{RendersAt};

use crate::cache::Cache;
use crate::ticketed::first_unrendered;
use connections::FlightId;
use dispatch_rules::ask_of;
use run_events::Pick;
use sp_base::{Answer, Ask, Mem};
use std::alloc::Global;

impl Cache {
    /// Where the first flight stands that is asked for and isn't rendered.
    pub(crate) fn first_unrendered(&self, pick: &Pick) -> Option<usize>
        ensures { result ≡ position (λ flying. events.is_picked pick.now flying && is_unrendered flying) self.now.flying }
    {
        first_unrendered(&self.flights, pick)
    }

    /// The number of the first flight that isn't rendered.
    pub(crate) fn unrendered(&self) -> Option<FlightId>
        ensures { result ≡ option_map (λ (flying : model.Flying). flying.number) (find is_unrendered self.now.flying) }
    {
        let at = first_unrendered(&self.flights, &Pick::First)?;
        Some(self.flights[at].flying.number)
    }

    /// What the publisher is asked for the flight that stands there. A POST's body is shared with it.
    pub(crate) fn ask_at(&mut self, alloc: Global, at: usize) -> Mem<Ask>
        requires { at < length self.old.flying }
        ensures ask { IfOk result (λ ask. (flying : model.Flying) → slice_get self.old.flying at ≡ Some flying → ask ≡ publisher_ask self.old.core.farm flying.request) }
        ensures same { self.new ≡ self.old }
    {
        ask_of(
            alloc,
            self.core.farm(),
            &mut self.flights[at].flying.request,
        )
    }

    /// The flight that stands there is rendered. Its number is given.
    pub(crate) fn render(&mut self, at: usize, answer: Answer) -> FlightId
        requires within { at < length self.old.flying }
        requires kind { IsTrue (is_kind answer.kind) }
        ensures number { (flying : model.Flying) → slice_get self.old.flying at ≡ Some flying → result ≡ flying.number }
        ensures flying { RendersAt at answer self.old self.new }
        ensures core { self.new.core ≡ self.old.core }
        ensures flushes { self.new.flushes ≡ self.old.flushes }
    {
        self.flights[at].flying.rendered = Some(answer);
        self.flights[at].flying.number
    }
}
