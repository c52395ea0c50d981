// How a key changed over several commits.
ghost use Rattle.std.specs.Prelude.{◌≡◌, ◌<◌, ◌^◌, ◌++◌, IfOk, option_map};
ghost use Rattle.history_model.specs.Changes.{same_value, change_of, change_size};
ghost use Rattle.change_history.specs.Histories.{undo_of};
ghost use Rattle.change_history.specs.NetChanges.{net_of};

use crate::Delta;
use crate::delta::value_len;
use mdb_base::{Change, NoMemory};
use std::alloc::Global;

/// The first and the last of the deltas of one key over several commits: its value before the first one and after the
/// last. Nothing is copied.
#[derive(Clone, Copy)]
pub(crate) struct Net<'a> {
    pub(crate) first: &'a Delta,
    pub(crate) last: &'a Delta,
}

fn copy_value(alloc: Global, value: &Option<Vec<u8>>) -> Result<Option<Vec<u8>>, NoMemory>
    ensures { IfOk result (λ v. option_map (λ x. x.items) v ≡ option_map (λ x. x.items) value.now) }
{
    match value {
        Some(bytes) => Ok(Some(Vec::from_slice(alloc, bytes)?)),
        None => Ok(None),
    }
}

impl<'a> Net<'a> {
    pub(crate) fn key(&self) -> &'a [u8]
        ensures { result.now ≡ (net_of self.now).key }
    {
        let first = self.first;
        first.key.as_slice()
    }

    /// Whether the last one led back to where the first one began.
    pub(crate) fn is_idle(&self) -> bool
        ensures { result ≡ same_value (net_of self.now).before (net_of self.now).after }
    {
        let (first, last) = (self.first, self.last);
        match (&first.before, &last.after) {
            (Some(before), Some(after)) => before.as_slice().cmp(after.as_slice()).is_eq(),
            (None, None) => true,
            _ => false,
        }
    }

    /// The change that the commits together made, with copies of key and value.
    pub(crate) fn change(&self, alloc: Global) -> Result<Change, NoMemory>
        ensures { IfOk result (λ c. c ≡ change_of (net_of self.now)) }
    {
        let last = self.last;
        let value = copy_value(alloc, &last.after)?;
        Ok(Change {
            key: Vec::from_slice(alloc, self.key())?,
            value,
        })
    }

    /// The change that takes them back.
    pub(crate) fn undo(&self, alloc: Global) -> Result<Change, NoMemory>
        ensures { IfOk result (λ c. c ≡ undo_of (net_of self.now)) }
    {
        let first = self.first;
        let value = copy_value(alloc, &first.before)?;
        Ok(Change {
            key: Vec::from_slice(alloc, self.key())?,
            value,
        })
    }

    /// The bytes of the change.
    pub(crate) fn size(&self) -> u128
        ensures exact { result ≡ change_size (change_of (net_of self.now)) }
        ensures small { result < 2 ^ 64 }
    {
        let last = self.last;
        self.key().len() as u128 + value_len(&last.after)
    }
}
