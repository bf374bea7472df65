// The rules that are played.
use anyhow::anyhow;
use checking::rule::Rule;
use loading::load;
use std::alloc::{AllocError, Global};

// Either nothing, or a card is entered and then, shuffled with the same again, adjusted, cap-tested and published.
pub(crate) const CARD_RULE: &[u8] =
    b"\x08\x07\x04\x01\x02\x00\x13\x06\x03\x00\x4B\x01\x04\x01\x01\x00\x00\x00\x00\x07\x05\x00\x05\x4B\x01\x06\x02\x01\x00\x00\x00\x00\x4B\x01\x07\x03\x01\x00\x00\x00\x00\x4B\x01\x01\x04\x01\x00\x00\x00\x00";

// Events of type 1 without end.
pub(crate) const AGAIN: &[u8] = b"\x01\x0B\x01\x00\x01";

// The same under a binder whose variable no pattern names.
pub(crate) const UNBOUND: &[u8] = b"\x02\x13\x06\x01\x00\x0B\x01\x00\x01";

// An event of type 48, and then one of type 1 with card 7.
pub(crate) const MIXED: &[u8] = b"\x03\x0B\x01\x01\x30\x4B\x01\x02\x01\x00\x00\x00\x00\x07\x00";

// A rule of bytes that are known to be one.
pub(crate) fn rule_of(bytes: &[u8]) -> anyhow::Result<Rule> {
    load(bytes).map_err(|fault| anyhow!("the bytes are no rule: {fault}"))
}

// The deepest rule that makes large states: 64 ors one below the other, then 62 filters, and events of type 1 without end. Its rank
// is 127, and its states have 63 cells.
pub(crate) fn deep_rule(heap: Global) -> Result<Vec<u8>, AllocError> {
    let mut bytes = vec![in heap; 128u8]?;
    for n in 0u8..64 {
        bytes.extend_from_slice(&[7, 4, n + 1, 127])?;
    }
    for n in 64u8..126 {
        bytes.extend_from_slice(&[0x0B, 7, n + 1, 1])?;
    }
    bytes.extend_from_slice(&[0x0B, 1, 126, 1, 0])?;
    Ok(bytes)
}
