ghost use Rattle.std.specs.Prelude.{◌≡◌, ◌<◌, ◌-◌, ◌^◌};
ghost use Rattle.rb_cluster.specs.Tally.{sum_of, with_answer};

use rb_base::Outcome;
use rb_evbuf::Received;

/// How many messages the event buffer kept, knew and found old.
#[derive(Clone, Copy, Debug)]
pub(crate) struct Tally {
    pub(crate) kept: u64,
    pub(crate) known: u64,
    pub(crate) outdated: u64,
}

impl Tally {
    /// Returns the tally of no delivery.
    pub(crate) fn new() -> Tally
        ensures { result ≡ record { kept = 0; known = 0; outdated = 0 } }
    {
        Tally {
            kept: 0,
            known: 0,
            outdated: 0,
        }
    }

    /// Counts one delivery.
    pub(crate) fn add(&mut self, answer: Received)
        requires room { sum_of self.old < 2 ^ 64 - 1 }
        ensures { self.new ≡ with_answer answer self.old }
    {
        match answer {
            Received::Kept => self.kept += 1,
            Received::Known => self.known += 1,
            Received::Old => self.outdated += 1,
        }
    }

    /// Returns the outcome of delivering all messages.
    pub(crate) fn outcome(self) -> Outcome
        ensures { result ≡ Outcome.Delivered self.kept self.known self.outdated }
    {
        Outcome::Delivered {
            kept: self.kept,
            known: self.known,
            old: self.outdated,
        }
    }
}
