//! One site of a run: a cluster that plays the site's events over the site's device.
//!
//! A [`Site`] represents a point of a run (`IsSite`). [`Site::step`] plays one event: whatever
//! point the site represented, it now represents the point after the event, and the outcome is the
//! event's. If the log device fails during an event, a [`StoppedSite`] is left. The crate
//! uses the cluster and the definitions of a run; a pair uses it.
#![tactic(auto)]

mod site;
mod stepped;

pub use rb_cluster::{InjectFault, SiteEvent};
pub use site::Site;
pub use stepped::{Stepped, StoppedSite};
