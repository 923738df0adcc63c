ghost use Rattle.std.specs.Prelude.{◌≡◌, ◌≤◌, ◌+◌, ◌-◌, ◌^◌, ◌↔◌, IsNone, IsSome, IfSome, OnSome};
ghost use Rattle.rb_journal_defs.specs.Clock.{first_epoch, epoch_after};

use rb_base::{Epoch, FIRST_EPOCH};
use std::marker::Model;

/// The clock of a site: the open epoch, the epoch closed before it, and the number of transactions,
/// of clients and of the applier, that were numbered.
#[derive(Debug, Drop)]
pub struct Clock {
    open: Epoch,
    prev: Epoch,
    drawn: u64,
}

impl Model for Clock {
    ghost use Rattle.rb_commit.specs.Hand.{Hand};

    ghost Value = { Hand };

    ghost view = { λ clock. record {
      opened = clock.open.0;
      previous = clock.prev.0;
      drawn = clock.drawn;
    } };
}

impl Clock {
    /// Returns the clock of a new site: micro GCI 0 of GCI 1 is open, no epoch is closed, and no
    /// transaction is numbered.
    pub fn new() -> Clock
        ensures { result ≡ record { opened = first_epoch; previous = 0; drawn = 0 } }
    {
        Clock {
            open: FIRST_EPOCH,
            prev: Epoch(0),
            drawn: 0,
        }
    }

    /// Returns the open epoch.
    pub fn open(&self) -> Epoch
        ensures { result.0 ≡ self.now.opened }
    {
        self.open
    }

    /// Returns the epoch that was closed before the open one, or epoch 0.
    pub fn prev(&self) -> Epoch
        ensures { result.0 ≡ self.now.previous }
    {
        self.prev
    }

    /// Closes the open epoch and returns it. The epoch with the next number opens or, if `gci` is
    /// true, micro GCI 0 of the next GCI. If there is no such epoch, the result is `None` and
    /// nothing changes.
    pub fn close(&mut self, gci: bool) -> Option<Epoch>
        ensures none { IsNone result ↔ (2 ^ 64 ≤ epoch_after gci self.old.opened) }
        ensures some { IfSome result (λ closed. closed.0 ≡ self.old.opened) }
        ensures closed { OnSome result (self.new
            ≡ record {
              opened = epoch_after gci self.old.opened;
              previous = self.old.opened;
              drawn = self.old.drawn;
            }) }
        ensures kept { IsNone result → self.new ≡ self.old }
    {
        let closed = self.open;
        self.open = epoch_following(closed, gci)?;
        self.prev = closed;
        Some(closed)
    }

    /// Returns the number of the next transaction, if there is one.
    pub fn next_transid(&self) -> Option<u64>
        ensures none { IsNone result ↔ (self.now.drawn ≡ 2 ^ 64 - 1) }
        ensures some { IfSome result (λ transid. transid ≡ self.now.drawn + 1) }
    {
        self.drawn.checked_add(1)
    }

    /// Draws the number of the next transaction, counted from 1. After the greatest number the
    /// result is `None` and nothing changes.
    pub fn draw(&mut self) -> Option<u64>
        ensures none { IsNone result ↔ (self.old.drawn ≡ 2 ^ 64 - 1) }
        ensures some { IfSome result (λ transid. transid ≡ self.old.drawn + 1) }
        ensures drawn { OnSome result (self.new
            ≡ record {
              opened = self.old.opened;
              previous = self.old.previous;
              drawn = self.old.drawn + 1;
            }) }
        ensures kept { IsNone result → self.new ≡ self.old }
    {
        let transid = self.drawn.checked_add(1)?;
        self.drawn = transid;
        Some(transid)
    }
}

// Returns the epoch that opens when one closes.
fn epoch_following(closed: Epoch, gci: bool) -> Option<Epoch>
    ensures none { IsNone result ↔ (2 ^ 64 ≤ epoch_after gci closed.0) }
    ensures some { IfSome result (λ next. next.0 ≡ epoch_after gci closed.0) }
{
    if gci {
        closed.next_gci()
    } else {
        closed.next()
    }
}
