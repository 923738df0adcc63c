ghost use Rattle.std.specs.Prelude.{◌≡◌, IfOk};

use crate::list::Items;
use crate::memory::NoMemory;
use crate::row::Row;
use crate::schema::Schemas;
use crate::site::SiteId;
use std::alloc::Global;

/// The conflict detection function of a script, by its name in the MySQL manual.
#[derive(Clone, Copy, Debug, PartialEq, Eq)]
pub enum Mode {
    /// No conflict detection: every change is applied.
    Plain,
    /// `NDB$OLD`.
    Old,
    /// `NDB$MAX`.
    Max,
    /// `NDB$MAX_DELETE_WIN`.
    MaxDeleteWin,
    /// `NDB$EPOCH`.
    Epoch,
    /// `NDB$EPOCH_TRANS`.
    EpochTrans,
}

/// The setup of one site: its node groups, the nodes in each group, and the length in bytes from
/// which a binlog file is rotated.
#[derive(Clone, Copy, Debug, PartialEq, Eq)]
pub struct SiteSetup {
    pub groups: u32,
    pub replicas: u32,
    pub limit: u64,
}

/// The setup lines of a script.
#[derive(Debug, Drop)]
pub struct Setup {
    pub mode: Mode,
    pub a: SiteSetup,
    pub b: SiteSetup,
    pub tables: Schemas,
}

/// The kind of a client's operation. `Put` overwrites the row if the key is present, and otherwise
/// inserts it.
#[derive(Clone, Copy, Debug, PartialEq, Eq)]
pub enum Op {
    Ins,
    Upd,
    Put,
    Del,
}

/// One operation of a client's transaction. Every operation except `Del` has a row; its value 0 is
/// the key.
#[derive(Debug, Drop)]
pub struct ClientOp {
    pub op: Op,
    pub table: u16,
    pub key: u64,
    pub row: Option<Row>,
}

pub type ClientOps = Items<ClientOp>;

impl ClientOp {
    /// Returns an equal operation.
    pub fn copy(&self, alloc: Global) -> Result<ClientOp, NoMemory>
        ensures { IfOk result (λ copy. copy ≡ self.now) }
    {
        Ok(ClientOp {
            op: self.op,
            table: self.table,
            key: self.key,
            row: Row::copy_of(alloc, &self.row)?,
        })
    }
}

/// One event of a script.
#[derive(Debug, Drop)]
pub enum Event {
    /// A client commits a transaction.
    Tx(SiteId, ClientOps),
    /// The open epoch closes. If the flag is true, the next GCI begins.
    Close(SiteId, bool),
    /// The message at this place of the site's Sent list is delivered.
    Deliver(SiteId, u64),
    /// Every message that was never delivered is delivered, except those of a sender that has
    /// failed since.
    DeliverAll(SiteId),
    /// The injector takes the closed epochs in order, and stops before the first that is not whole.
    /// It logs those that have something to log.
    Inject(SiteId),
    /// `DeliverAll`, then `Inject`.
    Log(SiteId),
    /// A data node fails.
    Fail(SiteId, u32),
    /// A data node restarts.
    Restart(SiteId, u32),
    /// Each owner resends its unacknowledged messages.
    Resend(SiteId),
    /// The injector stops and recovers.
    Injector(SiteId),
    /// Bytes of the peer's log reach the relay.
    Piece {
        site: SiteId,
        file: u32,
        position: u64,
        count: u64,
    },
    /// The rest of the peer's log reaches the relay, piece by piece.
    Pull(SiteId),
    /// The oldest decoded epoch is applied.
    Apply(SiteId),
    /// `Pull`, then `Apply` until no decoded epoch is left.
    Flow(SiteId),
    /// The applier stops and restarts.
    Applier(SiteId),
    /// The events of the site's files are listed.
    Dump(SiteId),
    /// Both sites replicate until each has applied everything that the other wrote.
    Drain,
}

impl Event {
    /// Returns an equal event.
    pub fn copy(&self, alloc: Global) -> Result<Event, NoMemory>
        ensures { IfOk result (λ copy. copy ≡ self.now) }
    {
        Ok(match self {
            Event::Tx(site, operations) => Event::Tx(*site, copy_of(alloc, operations)?),
            Event::Close(site, gci) => Event::Close(*site, *gci),
            Event::Deliver(site, place) => Event::Deliver(*site, *place),
            Event::DeliverAll(site) => Event::DeliverAll(*site),
            Event::Inject(site) => Event::Inject(*site),
            Event::Log(site) => Event::Log(*site),
            Event::Fail(site, node) => Event::Fail(*site, *node),
            Event::Restart(site, node) => Event::Restart(*site, *node),
            Event::Resend(site) => Event::Resend(*site),
            Event::Injector(site) => Event::Injector(*site),
            Event::Piece {
                site,
                file,
                position,
                count,
            } => Event::Piece {
                site: *site,
                file: *file,
                position: *position,
                count: *count,
            },
            Event::Pull(site) => Event::Pull(*site),
            Event::Apply(site) => Event::Apply(*site),
            Event::Flow(site) => Event::Flow(*site),
            Event::Applier(site) => Event::Applier(*site),
            Event::Dump(site) => Event::Dump(*site),
            Event::Drain => Event::Drain,
        })
    }
}

fn copy_of(alloc: Global, operations: &ClientOps) -> Result<ClientOps, NoMemory>
    ensures { IfOk result (λ copy. copy ≡ operations.now) }
{
    let mut copy = Vec::new(alloc);
    for operation in operations.as_slice() {
        copy.push(operation.copy(alloc)?)?;
    }
    Ok(Items::from_vec(copy))
}
