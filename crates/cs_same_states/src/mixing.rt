//! Digests: numbers that are equal for equal values, and rarely for others. They aren't
//! cryptographic. A wrong digest costs time, never an answer, so nothing here has a contract.
//! cs_different has a `mix` of its own, in `digest`, which has one.
use cs_names::UserName;
use cs_trace::Rights;
use cs_tree_model::Metadata;

/// The digest of a sequence with one more part. `digest` is that of the sequence before; 0 is that
/// of an empty one. The factors are odd, so that no bit is lost; the second is 2^64 divided by the
/// golden ratio. The shift brings high bits down.
pub fn mix(digest: u64, part: u64) -> u64 {
    let sum = digest.wrapping_mul(31).wrapping_add(part);
    let spread = sum.wrapping_mul(0x9e37_79b9_7f4a_7c15);
    spread ^ (spread >> 29)
}

/// The digest of the bytes and of how many they are.
pub fn digest_of_bytes(bytes: &[u8]) -> u64 {
    let mut digest = bytes.len() as u64;
    for byte in bytes {
        digest = mix(digest, u64::from(*byte));
    }
    digest
}

/// The digest of an owner, a group and the lowest nine bits of a mode, the permissions.
fn digest_of_parts(owner: &UserName, group: &UserName, mode: u32) -> u64 {
    let users = mix(
        digest_of_bytes(owner.as_bytes()),
        digest_of_bytes(group.as_bytes()),
    );
    mix(users, u64::from(mode % 512))
}

/// The digest of an owner, a group and permissions.
pub fn digest_of_rights(rights: &Rights) -> u64 {
    digest_of_parts(&rights.owner, &rights.group, u32::from(rights.permissions))
}

/// The digest of the owner, group and permissions of a record with this metadata: the same as that
/// of equal rights by `digest_of_rights`.
pub fn digest_of_metadata(record: &Metadata<'_>) -> u64 {
    digest_of_parts(record.owner, record.group, record.mode)
}
