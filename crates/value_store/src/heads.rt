// Reading the head of a change: its key, its flag, and the length of its value.
ghost use Rattle.std.specs.Prelude.{◌≡◌, ◌≤◌, length, option_map, IfSome};
ghost use Rattle.base_model.specs.Fields.{Field};
ghost use Rattle.trie_model.specs.Maps.{limits};
ghost use Rattle.batch_model.specs.Batch.{key_at};
ghost use Rattle.value_store.specs.Index.{IsShort};
ghost use Rattle.value_store.specs.ChangeHeads.{or_outside, limited_at, count_at, head_at};
ghost use Rattle.value_store.specs.SeenHeads.{seen_head};

use crate::last_key::LastKey;
use mdb_base::{KEY_LIMIT, VALUE_LIMIT, read_uvarint};

/// The key of a change, how many bytes its value has, None where it is deleted, and how many bytes
/// stand before those of the value.
#[derive(Clone, Copy)]
pub(crate) struct Head<'a> {
    pub(crate) key: &'a [u8],
    pub(crate) count: Option<u32>,
    pub(crate) length: usize,
}

#[tactic(auto, unfolding(crate::specs::ChangeHeads::limited_at, base_model::specs::Fields::number_at))]
// A length that is no greater than the limit, and the place after it.
fn read_limited(bytes: &[u8], at: usize, limit: usize) -> Option<(usize, usize)>
    requires { at ≤ length bytes.now }
    ensures exact { or_outside result ≡ limited_at limit bytes.now at }
    ensures within { IfSome result (λ x. (x.0 ≤ limit) × (x.1 ≤ length bytes.now)) }
{
    let Ok((count, next)) = read_uvarint(bytes, at) else {
        return None;
    };
    if count > limit as u64 {
        return None;
    }
    Some((count as usize, next))
}

#[tactic(auto, unfolding(crate::specs::ChangeHeads::limited_at, batch_model::specs::Batch::key_at, batch_model::specs::Sized::sized_at, base_model::specs::Fields::bytes_at))]
// A key that comes after the last one, and the place after it.
fn read_key<'a>(bytes: &'a [u8], last: &LastKey) -> Option<(&'a [u8], usize)>
    ensures exact { or_outside (option_map (λ x. (x.0.now, x.1)) result) ≡ key_at limits last.now bytes.now 0 }
    ensures within { IfSome result (λ x. x.1 ≤ length bytes.now) }
    ensures short { IfSome result (λ x. IsShort x.0.now) }
{
    let Some((count, start)) = read_limited(bytes, 0, KEY_LIMIT) else {
        return None;
    };
    if bytes.len() - start < count {
        return None;
    }
    let end = start + count;
    let key = &bytes[start..end];
    if !last.precedes(key) {
        return None;
    }
    Some((key, end))
}

#[tactic(auto, unfolding(crate::specs::ChangeHeads::count_at, base_model::specs::Fields::flag_at))]
// The flag, and where it is 1 the length of the value; and the place after them.
fn read_count(bytes: &[u8], at: usize) -> Option<(Option<u32>, usize)>
    requires { at ≤ length bytes.now }
    ensures exact { or_outside result ≡ count_at limits bytes.now at }
    ensures within { IfSome result (λ x. x.1 ≤ length bytes.now) }
{
    if at == bytes.len() {
        return None;
    }
    match bytes[at] {
        0 => Some((None, at + 1)),
        1 => match read_limited(bytes, at + 1, VALUE_LIMIT) {
            Some((count, next)) => Some((Some(count as u32), next)),
            None => None,
        },
        _ => None,
    }
}

#[tactic(auto, unfolding(crate::specs::ChangeHeads::head_at))]
/// Reads the head of the change that stands in front; None where it is outside the grammar.
pub(crate) fn read_head<'a>(bytes: &'a [u8], last: &LastKey) -> Option<Head<'a>>
    ensures exact { or_outside (option_map seen_head result) ≡ head_at limits last.now bytes.now 0 }
    ensures within { IfSome result (λ h. h.length ≤ length bytes.now) }
    ensures short { IfSome result (λ h. IsShort h.key.now) }
{
    let Some((key, behind)) = read_key(bytes, last) else {
        return None;
    };
    let Some((count, length)) = read_count(bytes, behind) else {
        return None;
    };
    Some(Head { key, count, length })
}
