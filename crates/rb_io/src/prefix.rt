ghost use Rattle.std.specs.Prelude.{◌≡◌, ◌++◌, min, length, take, drop};

/// Copies as many bytes as fit from the start of `from` to the start of `into`, and returns their
/// number.
pub(crate) fn copy_prefix(from: &[u8], into: &mut [u8]) -> usize
    ensures count { result ≡ min (length from.now) (length into.old) }
    ensures prefix { from.now ≡ take result into.new ++ drop result from.now }
    ensures following { drop result into.new ≡ drop result into.old }
    ensures length { length into.new ≡ length into.old }
{
    let count = from.len().min(into.len());
    into[..count].copy_from_slice(&from[..count]);
    count
}
