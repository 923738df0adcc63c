ghost use Rattle.std.specs.Prelude.{◌≡◌};
ghost use Rattle.rb_play_defs.specs.Play.{steps_of_event};
ghost use Rattle.rb_pair.specs.Action.{steps_of_action};

use rb_base::{Event, SiteId};
use rb_site::SiteEvent;

/// The steps of an event of a script.
#[derive(Drop)]
pub(crate) enum Action {
    /// One event of a site.
    One(SiteId, SiteEvent),
    /// `DeliverAll`, then `Inject`, at the same site.
    Log(SiteId),
    /// None: the event is not supported yet.
    Idle,
}

/// Returns the steps of an event.
pub(crate) fn action_of(event: Event) -> Action
    ensures { steps_of_action result ≡ steps_of_event event }
{
    match event {
        Event::Tx(site, operations) => Action::One(site, SiteEvent::Tx(operations)),
        Event::Close(site, gci) => Action::One(site, SiteEvent::Close(gci)),
        Event::Deliver(site, place) => Action::One(site, SiteEvent::Deliver(place)),
        Event::DeliverAll(site) => Action::One(site, SiteEvent::DeliverAll),
        Event::Inject(site) => Action::One(site, SiteEvent::Inject),
        Event::Log(site) => Action::Log(site),
        Event::Fail(site, node) => Action::One(site, SiteEvent::Fail(node)),
        Event::Restart(site, node) => Action::One(site, SiteEvent::Restart(node)),
        Event::Resend(site) => Action::One(site, SiteEvent::Resend),
        Event::Injector(site) => Action::One(site, SiteEvent::Injector),
        _ => Action::Idle,
    }
}
