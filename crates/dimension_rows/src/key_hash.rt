//! The number of a key. What is found by it is in `look_up`.
ghost use Rattle.std.specs.Prelude.{◌≡◌};
ghost use Rattle.dimension_rows.specs.Keys.{key_of};
ghost use Rattle.dimension_rows.specs.Hash.{hash_of, hash_of_key, text_hash};

use star_values::{Row, Value};
use std::hash::{BuildHasher, Hasher, RandomState};

/// The number of a key: the bits of an integer, and a keyed hash of a text.
#[tactic(auto, unfolding(crate::specs::Hash::hash_of))]
pub(crate) fn key_hash(hash_keys: RandomState, key: &Value) -> u64
    ensures { result ≡ hash_of hash_keys key.now }
{
    match key {
        Value::Int(n) => n.cast_unsigned(),
        Value::Str(text) => bytes_hash(hash_keys, text.as_bytes()),
    }
}

/// The number of a row's key, and 0 where the row has none.
pub(crate) fn row_hash(hash_keys: RandomState, row: &Row) -> u64
    ensures { result ≡ hash_of_key hash_keys (key_of row.now) }
{
    match row.as_slice().first() {
        Some(key) => key_hash(hash_keys, key),
        None => 0,
    }
}

/// SipHash-1-3 over bytes. Texts that collide in a hash without keys would
/// collide in any map over it.
fn bytes_hash(hash_keys: RandomState, bytes: &[u8]) -> u64
    ensures { result ≡ text_hash hash_keys bytes.now }
{
    let mut hasher = hash_keys.build_hasher();
    hasher.write(bytes);
    hasher.finish()
}
