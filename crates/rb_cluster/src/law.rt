ghost use Rattle.std.specs.Prelude.{◌≡◌, ◌<◌, ℕ, List, None};
ghost use Rattle.rb_journal_defs.specs.Body.{Shape};
ghost use Rattle.rb_play_defs.specs.Step.{Progress};
ghost use Rattle.rb_cluster.specs.Cluster.{IsCluster, OwnerHolds};
ghost use Rattle.rb_cluster.specs.declared.cluster.Cluster.{Cluster};

/// At each point of a run without a loss, for each cluster that represents it (as those that
/// `create` and `step` return do): the node that owns a bucket is up, and its buffer holds every
/// unacknowledged message of the bucket. These are the changes and the end of each closed epoch
/// above the acknowledged one, and the changes of the open epoch. So the owner can resend each of
/// them.
pub fn owners_hold_what_is_not_acknowledged()
    ensures { (cluster : Cluster) (seen : ℕ → List ℕ) (shape : Shape) (run : Progress) →
        IsCluster cluster seen shape run → run.lost ≡ None → (bucket : ℕ) →
        bucket < shape.buckets → OwnerHolds shape cluster run bucket }
{}
