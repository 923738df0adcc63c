use crate::site::Site;
use rb_base::Outcome;
use rb_cluster::StoppedCluster;

/// What an event leaves of a site.
#[derive(Drop)]
pub enum Stepped {
    /// The site after the event, and the event's outcome.
    On(Site, Outcome),
    /// The log device failed. The injector and its event buffer are gone, and the rest of the site
    /// is unchanged by the event.
    Stopped(StoppedSite),
    /// Memory ran out, and the site is gone. Its log can be recovered.
    NoMemory,
}

/// A site whose injector and event buffer are gone. Unless a group is lost, its nodes still have
/// all unacknowledged messages.
#[derive(Drop)]
pub struct StoppedSite {
    pub(crate) cluster: StoppedCluster,
}
