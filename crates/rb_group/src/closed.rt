ghost use Rattle.std.specs.Prelude.{◌≡◌, ◌<◌, nat_lt, ℕ, true, false, filter};
ghost use Rattle.std.specs.VecDeque.{deque_len};
ghost use Rattle.rb_bucket.specs.Bucket.{Rising};
ghost use Rattle.rb_group.specs.Nodes.{epoch_numbers};

use rb_base::Epoch;
use std::collections::VecDeque;

/// Releases the epochs up to this one. The epochs rise, so these come first.
pub fn forget_closed(closed: &mut VecDeque<Epoch>, through: u64)
    requires rising { (top : ℕ) × Rising top (epoch_numbers closed.old.items) }
    ensures later { epoch_numbers closed.new.items
        ≡ filter (nat_lt through) (epoch_numbers closed.old.items) }
{
    while forget_first(closed, through) {}
}

// Releases the first epoch if it is not above this one. Returns whether it was.
fn forget_first(closed: &mut VecDeque<Epoch>, through: u64) -> bool
    requires rising { (top : ℕ) × Rising top (epoch_numbers closed.old.items) }
    ensures rising { (top : ℕ) × Rising top (epoch_numbers closed.new.items) }
    ensures same { filter (nat_lt through) (epoch_numbers closed.new.items)
        ≡ filter (nat_lt through) (epoch_numbers closed.old.items) }
    ensures none { result ≡ false →
        epoch_numbers closed.new.items ≡ filter (nat_lt through) (epoch_numbers closed.old.items) }
    ensures fewer { result ≡ true → deque_len closed.new < deque_len closed.old }
{
    match closed.front() {
        Some(epoch) if epoch.0 <= through => {}
        _ => return false,
    }
    closed.pop_front();
    true
}
