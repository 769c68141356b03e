// The bucket of a name in the table's index.
ghost use Rattle.std.specs.Prelude.{◌≡◌, ◌<◌};
ghost use Rattle.names.specs.Index.{bucket_of};

const BUCKETS: usize = 1024;

// A text is compared with the names of its own bucket, and with no others.
pub fn bucket(text: &[u8]) -> usize
    ensures number { result ≡ bucket_of text.now }
    ensures within { result < 1024 }
{
    let mut bucket: usize = 0;
    for byte in text {
        bucket = (bucket * 31 + usize::from(*byte)) % BUCKETS;
    }
    bucket
}
