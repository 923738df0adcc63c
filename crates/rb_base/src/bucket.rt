ghost use Rattle.std.specs.Prelude.{◌≡◌, ◌<◌};
ghost use Rattle.rb_base.specs.Bucket.{bucket_number};

/// Returns the bucket, below `buckets`, of a key of a table.
pub fn bucket_of(table: u16, key: u64, buckets: u32) -> u32
    requires { 0 < buckets }
    ensures bucket { result ≡ bucket_number table key buckets }
    ensures within { result < buckets }
{
    let count = u64::from(buckets);
    ((key % count + u64::from(table)) % count) as u32
}
