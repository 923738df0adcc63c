ghost use Rattle.std.specs.Prelude.{◌≡◌, ◌<◌, ℕ, List, None};
ghost use Rattle.rb_base.specs.declared.site.SiteId.{SiteId};
ghost use Rattle.rb_base.specs.declared.script.Setup.{Setup};
ghost use Rattle.rb_journal_defs.specs.Order.{IsClosed};
ghost use Rattle.rb_text_defs.specs.declared.script.LinedEvent.{LinedEvent};
ghost use Rattle.rb_play_defs.specs.Play.{HasBuckets, setup_at, shape_of, progress_at, play_of};
ghost use Rattle.rb_play_defs.specs.Sound.{CanSendAgain};

/// In every run, at each site that lost no group, owners can resend.
///
/// For each bucket and each closed epoch above the acknowledged one, the bucket's owner is up and
/// has buffered since that epoch or an earlier one. It therefore holds every message of the bucket
/// that is not acknowledged.
pub fn owners_can_send_again()
    ensures { (setup : Setup) (site : SiteId) (lined : List LinedEvent) →
        HasBuckets (setup_at site setup) →
        (progress_at site (play_of setup lined).sites).lost ≡ None →
        (bucket epoch : ℕ) → bucket < (shape_of setup site).buckets →
        IsClosed epoch (progress_at site (play_of setup lined).sites).journal →
        (progress_at site (play_of setup lined).sites).acknowledged < epoch →
        CanSendAgain (shape_of setup site) (progress_at site (play_of setup lined).sites)
        bucket epoch }
{}
