ghost use Rattle.std.specs.Prelude.{◌≡◌};
ghost use Rattle.rb_base.specs.Site.{server_of, peer_of};

/// One of the two replicating sites: A is the primary, B the secondary.
#[derive(Clone, Copy, Debug, PartialEq, Eq)]
pub enum SiteId {
    A,
    B,
}

impl SiteId {
    /// Returns the site's server id, as in its events and its apply-status rows: 1 for A, 2 for B.
    pub fn server_id(self) -> u32
        ensures { result ≡ server_of self }
    {
        match self {
            SiteId::A => 1,
            SiteId::B => 2,
        }
    }

    /// Returns the other site.
    pub fn peer(self) -> SiteId
        ensures { result ≡ peer_of self }
    {
        match self {
            SiteId::A => SiteId::B,
            SiteId::B => SiteId::A,
        }
    }
}
