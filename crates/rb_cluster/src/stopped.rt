ghost use Rattle.std.specs.Prelude.{◌≡◌, ◌≢◌, ◌++◌, ◌<◌, ◌*◌, ◌^◌, true, List, length, IfOk, OnOk};
ghost use Rattle.rb_base.specs.declared.script.ClientOp.{ClientOp};
ghost use Rattle.rb_journal_defs.specs.Body.{Shape};
ghost use Rattle.rb_play_defs.specs.Step.{Progress, beginning, sent_to_injector, tx_step, close_step, fail_step, restart_step, resend_step, site_step};
ghost use Rattle.rb_play_defs.specs.Play.{setup_at, shape_of};
ghost use Rattle.rb_nodes.specs.Net.{HasGroups, SameSize};
ghost use Rattle.rb_cluster.specs.Outcome.{outcome_of_fault};
ghost use Rattle.rb_play_defs.specs.Point.{AreDeclared, needs_all_groups};
ghost use Rattle.rb_cluster.specs.Cluster.{IsStoppedCluster};
ghost use Rattle.rb_cluster.specs.Plays.{Plays, SomePoint, RestReady, Whole, TxReady, Accepts, CloseReady, NodeReady};

use crate::books::Books;
use crate::mapping::map_tables;
use crate::rows::store;
use rb_base::{Changes, ClientOps, NoMemory, Outcome, Setup, SiteId, SiteSetup};
use rb_commit::{Clock, TxFault, prepare};
use rb_group::GroupFault;
use rb_nodes::{NodeFailure, SiteNodes};
use rb_play_defs::SiteEvent;
use rb_store::Tables;
use std::alloc::Global;

/// A cluster whose event buffer and injector are gone. Unless a group is lost, its nodes still have
/// all unacknowledged messages.
#[derive(Drop)]
pub struct StoppedCluster {
    pub(crate) alloc: Global,
    pub(crate) books: Books,
    pub(crate) nodes: SiteNodes,
}

impl StoppedCluster {
    /// Returns a cluster of a setup at its start, without a log.
    pub(crate) fn begin(
        alloc: Global,
        id: SiteId,
        setup: &Setup,
    ) -> Result<StoppedCluster, NoMemory>
        requires declared { AreDeclared (shape_of setup.now id) }
        requires some { 0 < (setup_at id setup.now).groups * (setup_at id setup.now).replicas }
        requires few { (setup_at id setup.now).groups * (setup_at id setup.now).replicas < 2 ^ 32 }
        requires tables { length setup.now.tables < 2 ^ 16 }
        ensures begun { IfOk result (λ cluster.
            IsStoppedCluster cluster (shape_of setup.now id)
            (beginning (setup_at id setup.now).groups (setup_at id setup.now).replicas)) }
        ensures nodes { IfOk result (λ cluster. HasGroups (setup_at id setup.now).groups
            (setup_at id setup.now).replicas cluster.nodes) }
    {
        let own = own_setup(id, setup);
        let schemas = setup.tables.as_slice();
        let clock = Clock::new();
        let tables = Tables::new(alloc, schemas)?;
        let mapped = map_tables(alloc, schemas)?;
        let nodes = SiteNodes::new(alloc, own.groups, own.replicas, clock.open())?;
        Ok(StoppedCluster {
            alloc,
            books: Books {
                id,
                tables,
                mapped,
                clock,
            },
            nodes,
        })
    }

    /// Plays an event that needs all groups. A cluster with a lost group refuses it.
    pub(crate) fn step(self, event: SiteEvent) -> Result<(StoppedCluster, Outcome), NoMemory>
        requires needs { needs_all_groups event ≡ true }
        requires fits { SomePoint (RestReady event self) }
        ensures stepped { IfOk result (λ pair. Plays (RestReady event self)
            (IsStoppedCluster pair.0) (λ shape run. site_step shape run event) pair.1) }
        ensures size { IfOk result (λ pair. SameSize self.nodes pair.0.nodes) }
    {
        if let Some((group, epoch)) = self.nodes.lost() {
            return Ok((self, Outcome::SiteLost { group, epoch }));
        }
        match event {
            SiteEvent::Tx(operations) => self.transact(operations),
            SiteEvent::Close(gci) => self.close(gci),
            SiteEvent::Fail(node) => self.fail(node),
            SiteEvent::Restart(node) => self.restart(node),
            SiteEvent::Resend => self.resend(),
            SiteEvent::Deliver(_) => unreachable!(),
            SiteEvent::DeliverAll => unreachable!(),
            SiteEvent::Inject => unreachable!(),
            SiteEvent::Injector => unreachable!(),
        }
    }

    // Plays a client's transaction: it is refused and changes nothing, or it is accepted.
    fn transact(self, operations: ClientOps) -> Result<(StoppedCluster, Outcome), NoMemory>
        requires fits { SomePoint (TxReady operations self) }
        ensures stepped { IfOk result (λ pair. Plays (TxReady operations self)
            (IsStoppedCluster pair.0) (λ shape run. tx_step shape operations run) pair.1) }
        ensures size { IfOk result (λ pair. SameSize self.nodes pair.0.nodes) }
    {
        let Some(transid) = self.books.clock.next_transid() else {
            unreachable!();
        };
        let author = self.books.id.server_id();
        let prepared = prepare(
            self.alloc,
            &self.books.tables,
            operations.as_slice(),
            author,
            transid,
        );
        match prepared {
            Ok(changes) => self.commit(changes),
            Err(fault) => {
                let outcome = refused(fault)?;
                Ok((self, outcome))
            }
        }
    }

    // Accepts the changes of a transaction: numbers, buffers, sends and stores them.
    fn commit(self, changes: Changes) -> Result<(StoppedCluster, Outcome), NoMemory>
        requires accepted { (operations : List ClientOp)
            × SomePoint (Accepts operations changes self) }
        ensures committed { IfOk result (λ pair. (operations : List ClientOp) →
            Plays (Accepts operations changes self) (IsStoppedCluster pair.0)
            (λ shape run. tx_step shape operations run) pair.1) }
        ensures size { IfOk result (λ pair. SameSize self.nodes pair.0.nodes) }
    {
        let mut cluster = self;
        let Some(transid) = cluster.books.clock.draw() else {
            unreachable!();
        };
        let epoch = cluster.books.clock.open();
        let nodes = cluster.nodes.commit(changes.as_slice())?;
        store(
            cluster.alloc,
            &mut cluster.books.tables,
            changes.as_slice(),
            epoch,
        )?;
        let sent = nodes.sent_len();
        let cluster = StoppedCluster { nodes, ..cluster };
        Ok((
            cluster,
            Outcome::Committed {
                transid,
                epoch,
                sent,
            },
        ))
    }

    // Closes the open epoch: the owners send their Dones, and the next epoch opens.
    fn close(self, gci: bool) -> Result<(StoppedCluster, Outcome), NoMemory>
        requires fits { SomePoint (CloseReady self) }
        ensures closed { IfOk result (λ pair. Plays (CloseReady self) (IsStoppedCluster pair.0)
            (λ shape run. close_step shape gci run) pair.1) }
        ensures size { IfOk result (λ pair. SameSize self.nodes pair.0.nodes) }
    {
        let mut cluster = self;
        let prev = cluster.books.clock.prev();
        let Some(epoch) = cluster.books.clock.close(gci) else {
            unreachable!();
        };
        let nodes = cluster.nodes.close(prev, cluster.books.clock.open())?;
        let sent = nodes.sent_len();
        let cluster = StoppedCluster { nodes, ..cluster };
        Ok((cluster, Outcome::Closed { epoch, sent }))
    }

    // Fails a node that is up: the next node of its group that covers takes over its buckets, or
    // the group is lost.
    fn fail(self, node: u32) -> Result<(StoppedCluster, Outcome), NoMemory>
        requires fits { SomePoint (NodeReady node self) }
        ensures failed { IfOk result (λ pair. Plays (NodeReady node self)
            (IsStoppedCluster pair.0) (λ shape run. fail_step shape node run) pair.1) }
        ensures size { IfOk result (λ pair. SameSize self.nodes pair.0.nodes) }
    {
        let mut cluster = self;
        let outcome = match cluster.nodes.fail(node) {
            Ok(NodeFailure::Takeover(takeover)) => {
                let sent = cluster.nodes.sent_len();
                Outcome::Failed { takeover, sent }
            }
            Ok(NodeFailure::Lost { group, epoch }) => Outcome::Lost { group, epoch },
            Err(GroupFault::NodeDown(node)) => Outcome::NodeDown(node),
            Err(GroupFault::NodeUp(_)) => unreachable!(),
            Err(GroupFault::NoMemory) => return Err(NoMemory),
        };
        Ok((cluster, outcome))
    }

    // Restarts a node that is down.
    fn restart(self, node: u32) -> Result<(StoppedCluster, Outcome), NoMemory>
        requires fits { SomePoint (NodeReady node self) }
        ensures restarted { IfOk result (λ pair. Plays (NodeReady node self)
            (IsStoppedCluster pair.0) (λ shape run. restart_step node run) pair.1) }
        ensures size { IfOk result (λ pair. SameSize self.nodes pair.0.nodes) }
    {
        let mut cluster = self;
        let outcome = match cluster.nodes.restart(node) {
            Ok(since) => Outcome::Restarted { since },
            Err(GroupFault::NodeUp(node)) => Outcome::NodeUp(node),
            Err(GroupFault::NodeDown(_)) => unreachable!(),
            Err(GroupFault::NoMemory) => return Err(NoMemory),
        };
        Ok((cluster, outcome))
    }

    // Has each owner resend what is unacknowledged of its buckets.
    fn resend(self) -> Result<(StoppedCluster, Outcome), NoMemory>
        requires fits { SomePoint (Whole self) }
        ensures resent { IfOk result (λ pair. Plays (Whole self) (IsStoppedCluster pair.0)
            resend_step pair.1) }
        ensures size { IfOk result (λ pair. SameSize self.nodes pair.0.nodes) }
    {
        let mut cluster = self;
        cluster.nodes.resend()?;
        let sent = cluster.nodes.sent_len();
        Ok((cluster, Outcome::Resent { sent }))
    }

    /// Has each owner resend its buckets to a new injector, unless a group is lost.
    pub(crate) fn send_again(&mut self) -> Result<(), NoMemory>
        requires fits { SomePoint (IsStoppedCluster self.old) }
        ensures sent { OnOk result ((shape : Shape) (run : Progress) →
            IsStoppedCluster self.old shape run →
            IsStoppedCluster self.new shape (record run {
              sent = run.sent
                  ++ sent_to_injector shape run;
            })) }
        ensures rest { OnOk result (self.new ≡ record self.old { nodes = self.new.nodes }) }
        ensures size { OnOk result (SameSize self.old.nodes self.new.nodes) }
    {
        if self.nodes.lost().is_some() {
            return Ok(());
        }
        self.nodes.resend()?;
        Ok(())
    }
}

/// Returns the groups, nodes and limit of one site of a setup.
pub(crate) fn own_setup(id: SiteId, setup: &Setup) -> SiteSetup
    ensures { result ≡ setup_at id setup.now }
{
    match id {
        SiteId::A => setup.a,
        SiteId::B => setup.b,
    }
}

// Returns the outcome of a refused transaction.
fn refused(fault: TxFault) -> Result<Outcome, NoMemory>
    ensures outcome { IfOk result (λ outcome. outcome ≡ outcome_of_fault fault) }
    ensures refused { OnOk result (fault ≢ TxFault.NoMemory) }
{
    match fault {
        TxFault::RowTwice(number) => Ok(Outcome::RowTwice(number)),
        TxFault::KeyThere(number) => Ok(Outcome::KeyThere(number)),
        TxFault::NoKey(number) => Ok(Outcome::NoKey(number)),
        TxFault::NoMemory => Err(NoMemory),
    }
}
