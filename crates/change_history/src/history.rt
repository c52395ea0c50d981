// The history of a store, and how it grows.
ghost use Rattle.std.specs.Prelude.{◌≡◌, ◌<◌, ℕ, List, [], ◌∷◌, IfOk, option_map};
ghost use Rattle.trie_model.specs.Maps.{Map, root as root_of};
ghost use Rattle.history_model.specs.Changes.{deltas as deltas_of, weight as weight_of};
ghost use Rattle.history_model.specs.Held.{is_held, back as map_back};
ghost use Rattle.change_history.specs.Histories.{no_commits, pushed, restarted, Recalls, held_by, roots};

use crate::trimming::put;
use crate::{Commit, Delta};
use bit_keys::Id;
use circular_buffer::HeapCircularBuffer;
use mdb_base::NoMemory;
use std::alloc::Global;
use std::marker::Model;

/// What the latest commits of a store changed, and the root of its map before each of them and now.
#[derive(Drop)]
pub struct History {
    /// The latest commit stands first.
    pub(crate) ring: HeapCircularBuffer<Commit>,
    /// How much the commits may weigh together, and how much they do.
    limit: u64,
    weight: u64,
    pub(crate) root: Id,
}

impl Model for History {
    ghost use Rattle.change_history.specs.Histories.{HistoryState, AreKept};

    ghost Value = { HistoryState };

    ghost view = { λ h. record { commits = h.ring.capacity; weight = h.limit; root = h.root; ring = h.ring.items } };

    ghost invariant = { λ h. AreKept h.ring.items h.ring.capacity h.weight };
}

impl History {
    /// The history of a store with this root, before its first commit. It keeps so many commits at most, which weigh so
    /// much at most.
    pub fn new(alloc: Global, commits: usize, weight: u64, root: Id) -> Result<History, NoMemory>
        ensures empty { IfOk result (λ h. h ≡ no_commits commits weight root) }
        ensures recalls { IfOk result (λ h. (w : ℕ) (m : Map) → root ≡ root_of w m → Recalls w h (m ∷ [])) }
    {
        let ring = HeapCircularBuffer::with_capacity(alloc, commits)?;
        Ok(History {
            ring,
            limit: weight,
            weight: 0,
            root,
        })
    }

    /// One commit more, which changed these keys, in their order, and led to a map of this root. It takes no memory. What is
    /// told of the commit is true where the deltas are those of the two maps.
    pub fn push(&mut self, deltas: Vec<Delta>, root: Id)
        ensures pushed { self.new ≡ pushed self.old deltas.items root }
        ensures recalls { (w : ℕ) (m former : Map) (maps : List Map) → Recalls w self.old (former ∷ maps) → deltas.items ≡ deltas_of former m → root ≡ root_of w m → Recalls w self.new (m ∷ former ∷ maps) }
    {
        let commit = Commit::new(deltas, self.root);
        self.weight = put(&mut self.ring, self.weight, self.limit, commit);
        self.root = root;
    }

    /// One commit more, which led to a map of this root, and weighs more than all commits may. It and those before it
    /// are let go, so that of the maps the present one alone is held, as after a push of all its deltas.
    pub fn restart(&mut self, root: Id)
        ensures restarted { self.new ≡ restarted self.old root }
        ensures recalls { (w : ℕ) (m former : Map) (maps : List Map) → Recalls w self.old (former ∷ maps) → self.old.weight < weight_of former m → root ≡ root_of w m → Recalls w self.new (m ∷ former ∷ maps) }
    {
        self.ring.clear();
        self.weight = 0;
        self.root = root;
    }

    /// How much the commits may weigh together.
    pub fn limit(&self) -> u64
        ensures { result ≡ self.now.weight }
    {
        self.limit
    }
}
