//! A hash of a file's bytes.

ghost use Rattle.std.specs.Prelude.{◌≡◌, ◌∷◌, [], ◌++◌, List, ℕ};
ghost use Rattle.textarea_disk.specs.ContentHash.{hash_from};

/// The hash of no bytes.
pub const NEW_HASH: u64 = 0xcbf2_9ce4_8422_2325;

/// Returns the hash of more bytes after those of a hash, by FNV-1a with 64 bits. Equal bytes have
/// equal hashes in whatever pieces they are read; others hardly ever do.
pub fn hash_with(hash: u64, bytes: &[u8]) -> u64
    ensures { result ≡ hash_from hash bytes.now }
{
    let mut hash = hash;
    for &byte in bytes {
        hash = (hash ^ u64::from(byte)).wrapping_mul(0x0000_0100_0000_01b3);
    }
    hash
}

/// The hash of bytes that are read in pieces is that of all of them.
pub fn hash_of_pieces()
    ensures { (hash : ℕ) (a b : List ℕ)
        → hash_from (hash_from hash a) b ≡ hash_from hash (a ++ b) }
{}
