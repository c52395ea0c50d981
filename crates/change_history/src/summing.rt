// What changed between two maps of a history.
ghost use Rattle.std.specs.Prelude.{◌≡◌, ◌≤◌, ◌<◌, ◌+◌, length, IfOk};
ghost use Rattle.change_history.specs.NetChanges.{nets_of, IsSum};

use crate::listing::list;
use crate::merging::merge;
use crate::{History, Net};
use bit_keys::Range;
use mdb_base::NoMemory;
use std::alloc::Global;

impl History {
    /// What one commit changed in a range.
    fn one(&self, alloc: Global, range: &Range, place: usize) -> Result<Vec<Net<'_>>, NoMemory>
        requires { place < length self.now.ring }
        ensures { IfOk result (λ v. IsSum self.now range.now (place + 1) place (nets_of v.items)) }
    {
        match self.ring.get(place) {
            Some(commit) => list(alloc, commit.deltas(), range),
            None => Ok(Vec::new(alloc)),
        }
    }

    /// What changed in a range from the map of one place to that of a later one. It costs what the commits between
    /// them changed there, each key once for each time that the commits can be halved.
    pub(crate) fn sum(
        &self,
        alloc: Global,
        range: &Range,
        former: usize,
        later: usize,
    ) -> Result<Vec<Net<'_>>, NoMemory>
        requires order { later ≤ former }
        requires within { former ≤ length self.now.ring }
        ensures { IfOk result (λ v. IsSum self.now range.now former later (nets_of v.items)) }
    {
        if former == later {
            return Ok(Vec::new(alloc));
        }
        if former - later == 1 {
            return self.one(alloc, range, later);
        }
        let middle = later + (former - later) / 2;
        let older = self.sum(alloc, range, former, middle)?;
        let newer = self.sum(alloc, range, middle, later)?;
        merge(alloc, &older, &newer)
    }
}
