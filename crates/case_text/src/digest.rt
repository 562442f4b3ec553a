// A digest of numbers and bytes.

ghost use Rattle.std.specs.Prelude.{◌≡◌, ℕ};
ghost use Rattle.std.specs.List.{fold};
ghost use Rattle.case_text.specs.Digest.{folded};

// Below this, so that no sum wraps.
const LIMIT: u64 = 4294967291;

// A digest with one more value in it.
pub fn folded(digest: u64, value: u64) -> u64
    ensures { result ≡ folded digest value }
{
    (digest % LIMIT * 31 + value % LIMIT) % LIMIT
}

pub fn digest_of(bytes: &[u8]) -> u64
    ensures { result ≡ fold folded 0 bytes.now }
{
    bytes
        .iter()
        .fold(0, |digest, &byte| folded(digest, u64::from(byte)))
}
