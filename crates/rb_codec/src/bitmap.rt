ghost use Rattle.std.specs.Prelude.{◌≡◌, ◌-◌, ◌<◌, ◌^◌, ◌%◌, ◌==◌, length, if◌then◌else◌};
ghost use Rattle.rb_log_defs.specs.Table.{bitmap_size};
ghost use Rattle.rb_read_defs.specs.Events.{all_clear, all_set};
ghost use Rattle.rb_codec.specs.Bitmap.{are_all, ones, whole_byte};

/// Returns whether the bits of the first `count` columns are all 0, as in a null bitmap without
/// NULL values. The unused bits of the last byte are ignored.
pub fn all_clear(count: usize, bitmap: &[u8]) -> bool
    requires { length bitmap.now ≡ bitmap_size count }
    ensures { result ≡ all_clear count bitmap.now }
{
    are_all(false, count, bitmap)
}

/// Returns whether the bits of the first `count` columns are all 1, as in the present bitmap of a
/// full row image. The unused bits of the last byte are ignored.
pub fn all_set(count: usize, bitmap: &[u8]) -> bool
    requires { length bitmap.now ≡ bitmap_size count }
    ensures { result ≡ all_set count bitmap.now }
{
    are_all(true, count, bitmap)
}

// Returns whether each of the first `count` bits is `bit`.
fn are_all(bit: bool, count: usize, bitmap: &[u8]) -> bool
    requires { length bitmap.now ≡ bitmap_size count }
    ensures { result ≡ are_all bit count bitmap.now }
{
    let whole = whole_byte(bit);
    let mut left = count;
    let mut bytes = bitmap;
    while let Some((first, rest)) = bytes.split_first() {
        if left < 8 {
            return are_low_bits(bit, left, *first);
        }
        if *first != whole {
            return false;
        }
        left -= 8;
        bytes = rest;
    }
    true
}

// Returns the byte in which each bit is `bit`.
fn whole_byte(bit: bool) -> u8
    ensures { result ≡ whole_byte bit }
{
    if bit { u8::MAX } else { 0 }
}

// Returns whether each of the lowest `count` bits of a byte is `bit`.
fn are_low_bits(bit: bool, count: usize, byte: u8) -> bool
    requires { count < 8 }
    ensures { result ≡ (byte % 2 ^ count == ones bit count) }
{
    let values = 1u8 << count;
    byte % values == if bit { values - 1 } else { 0 }
}
