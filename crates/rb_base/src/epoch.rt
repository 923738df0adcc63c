ghost use Rattle.std.specs.Prelude.{◌≡◌, ◌≢◌, ◌+◌, ◌*◌, ◌/◌, ◌%◌, ◌^◌, ◌-◌, ◌<◌, ◌↔◌, IfSome, IsNone};
ghost use Rattle.rb_base.specs.Epoch.{gci_of, micro_of, next_gci_of};

/// The number of epochs in a GCI. A micro GCI has 32 bits.
const EPOCHS_PER_GCI: u64 = 1 << 32;

/// The first epoch of a new site: micro GCI 0 of GCI 1.
pub const FIRST_EPOCH: Epoch = Epoch(EPOCHS_PER_GCI);

/// An epoch of NDB Cluster: a 64-bit number whose high 32 bits are the GCI (global checkpoint
/// index) and whose low 32 bits are the micro GCI.
#[derive(Clone, Copy, Debug, PartialEq, Eq)]
pub struct Epoch(pub u64);

impl Epoch {
    /// Returns the GCI.
    pub fn gci(self) -> u32
        ensures { result ≡ gci_of self }
    {
        (self.0 / EPOCHS_PER_GCI) as u32
    }

    /// Returns the micro GCI.
    pub fn micro(self) -> u32
        ensures { result ≡ micro_of self }
    {
        (self.0 % EPOCHS_PER_GCI) as u32
    }

    /// Returns the epoch with the next number, or `None` at the greatest number.
    pub fn next(self) -> Option<Epoch>
        ensures none { IsNone result ↔ (self.0 ≡ 2 ^ 64 - 1) }
        ensures some { IfSome result (λ next. next.0 ≡ self.0 + 1) }
    {
        match self.0.checked_add(1) {
            Some(number) => Some(Epoch(number)),
            None => None,
        }
    }

    /// Returns the first epoch of the next GCI, or `None` at the greatest GCI.
    pub fn next_gci(self) -> Option<Epoch>
        ensures none { IsNone result ↔ (gci_of self ≡ 2 ^ 32 - 1) }
        ensures some { IfSome result (λ next. next.0 ≡ next_gci_of self) }
    {
        let gci = self.gci();
        if gci == u32::MAX {
            None
        } else {
            Some(Epoch(u64::from(gci + 1) * EPOCHS_PER_GCI))
        }
    }
}
