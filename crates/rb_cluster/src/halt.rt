use crate::stopped::StoppedCluster;

/// Why a cluster did not play an event to its end.
#[derive(Drop)]
pub enum Halt {
    /// The log device failed. The injector and its event buffer are gone, and the rest of the
    /// cluster is unchanged by the event.
    Stopped(StoppedCluster),
    /// Memory ran out, and the cluster is gone. Its log can be recovered.
    NoMemory,
}
