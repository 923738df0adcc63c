use rb_base::{MappedTables, SiteId};
use rb_commit::Clock;
use rb_store::Tables;

/// What a cluster keeps of its transactions: its tables and its clock.
#[derive(Drop)]
pub(crate) struct Books {
    pub(crate) id: SiteId,
    pub(crate) tables: Tables,
    // The tables as the log names them.
    pub(crate) mapped: MappedTables,
    pub(crate) clock: Clock,
}
