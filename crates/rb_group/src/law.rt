ghost use Rattle.std.specs.Prelude.{◌≡◌, ◌+◌, ◌<◌, ℕ, length, Some, None};
ghost use Rattle.std.specs.List.{AllByRecursion};
ghost use Rattle.rb_base.specs.declared.change.Change.{Change};
ghost use Rattle.rb_group.specs.Kept.{Kept, new_group, since_in, successor_in, with_part, with_close, with_takeover, with_since, with_acknowledged};
ghost use Rattle.rb_group.specs.Group.{AllCover, IsNumberOf, IsOrdered};

/// The owner of each bucket covers: it is up, and has everything that is unacknowledged. This holds
/// in a new group, and each call keeps it: a commit, a close, the failure of a node with a
/// successor, the restart of a node that is down, and an acknowledgement. So a commit, a close and
/// a resend find what they need of the owners, as long as the group is not lost.
///
/// The premises on the order and on the owners hold of everything that a group represents
/// (`Keeps`).
pub fn owners_go_on_covering()
    ensures beginning { (first nodes opened : ℕ) → AllCover (new_group first nodes opened) }
    ensures commit { (kept : Kept) (bucket : ℕ) (change : Change) → AllCover kept →
        AllCover (with_part bucket change kept) }
    ensures close { (kept : Kept) (prev next : ℕ) → AllCover kept → kept.opened < next →
        AllCover (with_close prev next kept) }
    ensures takeover { (kept : Kept) (number successor : ℕ) →
        length kept.owners ≡ length kept.nodes → AllByRecursion (IsNumberOf kept) kept.owners →
        AllCover kept → successor_in kept number ≡ Some successor →
        AllCover (with_takeover number successor kept) }
    ensures restart { (kept : Kept) (number : ℕ) → AllCover kept → since_in kept number ≡ None →
        AllCover (with_since number (Some (kept.opened + 1)) kept) }
    ensures acknowledgement { (kept : Kept) (through : ℕ) → IsOrdered kept → AllCover kept →
        AllCover (with_acknowledged through kept) }
{}
