// Which maps a history holds.
ghost use Rattle.std.specs.Prelude.{◌≡◌, ◌≤◌, ℕ, List, length, drop, slice_get, option_map, IfSome};
ghost use Rattle.std.specs.List.{list_any};
ghost use Rattle.trie_model.specs.Maps.{Map, root as root_of};
ghost use Rattle.proof_model.specs.Refusals.{first_place, same_bytes};
ghost use Rattle.history_model.specs.Held.{is_held, back as map_back};
ghost use Rattle.change_history.specs.Histories.{Recalls, held_by, roots, is_root};

use crate::History;
use bit_keys::Id;

impl History {
    /// The root of the map at a place, where the present map has place 0.
    fn root_at(&self, place: usize) -> Option<Id>
        ensures { result ≡ slice_get (roots self.now) place }
    {
        if place == 0 {
            return Some(self.root);
        }
        match self.ring.get(place - 1) {
            Some(commit) => Some(commit.former()),
            None => None,
        }
    }

    /// Whether the map at a place has this root.
    fn is_at(&self, root: &Id, place: usize) -> bool
        ensures { result ≡ is_root root.now (slice_get (roots self.now) place) }
    {
        match self.root_at(place) {
            Some(known) => root.as_slice().cmp(known.as_slice()).is_eq(),
            None => false,
        }
    }

    /// The place of the latest map with this root, at or behind a place.
    pub(crate) fn find(&self, root: &Id, from: usize) -> Option<usize>
        ensures first { result ≡ first_place (same_bytes root.now) from (drop from (roots self.now)) }
        ensures within { IfSome result (λ place. (from ≤ place) × (place ≤ length self.now.ring)) }
    {
        let end = self.ring.len() + 1;
        for place in from..end {
            if self.is_at(root, place) {
                return Some(place);
            }
        }
        None
    }

    /// Whether the map of a root is held. It takes no memory.
    pub fn held(&self, root: &Id) -> bool
        ensures roots { result ≡ list_any (same_bytes root.now) (roots self.now) }
        ensures recalls { (w : ℕ) (maps : List Map) → Recalls w self.now maps → result ≡ is_held w (held_by self.now maps) root.now }
    {
        self.find(root, 0).is_some()
    }

    /// The root of the map so many commits back, where it is held. It takes no memory.
    pub fn back(&self, commits: u64) -> Option<Id>
        ensures roots { result ≡ slice_get (roots self.now) commits }
        ensures recalls { (w : ℕ) (maps : List Map) → Recalls w self.now maps → result ≡ option_map (root_of w) (map_back commits (held_by self.now maps)) }
    {
        self.root_at(commits as usize)
    }
}
