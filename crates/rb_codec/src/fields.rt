ghost use Rattle.std.specs.Prelude.{◌≡◌, ◌+◌, ◌^◌, ◌<◌, ◌≤◌, length, drop, true, false, Err, IfOk, OnOk, OnErr};
ghost use Rattle.rb_base.specs.declared.faults.CodecFault.TheVariants as faults;
ghost use Rattle.byteorder.specs.Endian.{little_number};
ghost use Rattle.rb_read_defs.specs.Reading.{number, some_bytes, length_number, the_end};
ghost use Rattle.rb_codec.specs.Fields.{Gives};

use byteorder::{ByteOrder, LittleEndian};
use rb_base::{CodecFault, Field, LengthRead, read_length};

/// A cursor over the fields of an event's header or payload. A call that returns a fault does not
/// move the cursor: the next call starts at the same field.
#[derive(Debug, Drop)]
pub struct Fields<'a> {
    bytes: &'a [u8],
    at: usize,
    ghost within: { at ≤ length bytes.now },
}

impl<'a> Fields<'a> {
    /// Creates a cursor at the first of these bytes.
    pub fn new(bytes: &'a [u8]) -> Fields<'a>
        ensures bytes { result.bytes.now ≡ bytes.now }
        ensures at { result.at ≡ 0 }
    {
        Fields { bytes, at: 0 }
    }

    /// Returns the place of the next field, in bytes from the first byte.
    pub fn at(&self) -> usize
        ensures { result ≡ self.now.at }
    {
        self.at
    }

    /// Returns the number of `width` bytes, the lowest byte first, that starts `ahead` bytes after
    /// the cursor. Returns `Short` if it does not end within the bytes.
    #[tactic(auto, unfolding(rb_read_defs::specs::Reading::number))]
    pub(crate) fn number_ahead(&self, ahead: usize, width: usize) -> Result<u64, CodecFault>
        requires ahead { ahead < 2 ^ 32 }
        requires some { 1 ≤ width }
        requires most { width ≤ 8 }
        ensures gives { Gives (λ n. n) result (self.now.at + ahead + width)
            (number width self.now.bytes.now (self.now.at + ahead)) }
        ensures fits { IfOk result (λ n. n < 256 ^ width) }
        ensures within { IfOk result (λ _.
            self.now.at + ahead + width ≤ length self.now.bytes.now) }
    {
        let at = self.at + ahead;
        if self.bytes.len() < at + width {
            return Err(CodecFault::Short(at));
        }
        Ok(number_in(&self.bytes[at..], width))
    }

    /// Reads the next number of `width` bytes, the lowest byte first. Returns `Short` if it does
    /// not end within the bytes.
    pub fn number(&mut self, width: usize) -> Result<u64, CodecFault>
        requires some { 1 ≤ width }
        requires most { width ≤ 8 }
        ensures gives { Gives (λ n. n) result self.new.at
            (number width self.old.bytes.now self.old.at) }
        ensures fits { IfOk result (λ n. n < 256 ^ width) }
        ensures bytes { self.new.bytes ≡ self.old.bytes }
        ensures err { OnErr result (self.new.at ≡ self.old.at) }
    {
        let number = self.number_ahead(0, width)?;
        self.at += width;
        Ok(number)
    }

    /// Reads the next `count` bytes. Returns `Short` if fewer remain.
    #[tactic(auto, unfolding(rb_read_defs::specs::Reading::some_bytes))]
    pub fn some_bytes(&mut self, count: usize) -> Result<&'a [u8], CodecFault>
        ensures gives { Gives (λ bytes. bytes.now) result self.new.at
            (some_bytes count self.old.bytes.now self.old.at) }
        ensures size { IfOk result (λ bytes. length bytes.now ≡ count) }
        ensures bytes { self.new.bytes ≡ self.old.bytes }
        ensures err { OnErr result (self.new.at ≡ self.old.at) }
    {
        if self.bytes.len() - self.at < count {
            return Err(CodecFault::Short(self.at));
        }
        let start = self.at;
        self.at += count;
        Ok(&self.bytes[start..self.at])
    }

    /// Reads the next length-encoded number. Returns `Short` if it does not end within the bytes,
    /// and `BadField` with `field` if its first byte begins no number.
    #[tactic(auto, unfolding(rb_read_defs::specs::Reading::length_number))]
    pub fn length_number(&mut self, field: Field) -> Result<u64, CodecFault>
        ensures gives { Gives (λ n. n) result self.new.at
            (length_number field self.old.bytes.now self.old.at) }
        ensures bytes { self.new.bytes ≡ self.old.bytes }
        ensures err { OnErr result (self.new.at ≡ self.old.at) }
    {
        match read_length(self.bytes, self.at) {
            LengthRead::Number(number, after) => {
                self.at = after;
                Ok(number)
            }
            LengthRead::Short => Err(CodecFault::Short(self.at)),
            LengthRead::Wrong => Err(CodecFault::BadField(self.at, field)),
        }
    }

    /// Reads all bytes that remain.
    pub fn rest(&mut self) -> &'a [u8]
        ensures value { result.now ≡ drop self.old.at self.old.bytes.now }
        ensures at { self.new.at ≡ length self.old.bytes.now }
        ensures bytes { self.new.bytes ≡ self.old.bytes }
    {
        let start = self.at;
        self.at = self.bytes.len();
        &self.bytes[start..]
    }

    /// Checks that no bytes remain. Returns `BadField` with `EventSize` if some do.
    pub fn end(&self) -> Result<(), CodecFault>
        ensures gives { Gives (λ end. end) result self.now.at
            (the_end self.now.bytes.now self.now.at) }
    {
        if self.at < self.bytes.len() {
            return Err(CodecFault::BadField(self.at, Field::EventSize));
        }
        Ok(())
    }
}

/// Checks that the field that starts at `at` is right. Returns `BadField` if it is not.
pub fn check(is_right: bool, at: usize, field: Field) -> Result<(), CodecFault>
    ensures ok { OnOk result (is_right ≡ true) }
    ensures err { OnErr result ((is_right ≡ false) × (result ≡ Err (faults.BadField at field))) }
{
    if !is_right {
        return Err(CodecFault::BadField(at, field));
    }
    Ok(())
}

/// Returns the number in the first `width` bytes, the lowest byte first.
fn number_in(bytes: &[u8], width: usize) -> u64
    requires some { 1 ≤ width }
    requires most { width ≤ 8 }
    requires room { width ≤ length bytes.now }
    ensures value { result ≡ little_number width bytes.now }
    ensures fits { result < 256 ^ width }
{
    LittleEndian::read_uint(bytes, width)
}
