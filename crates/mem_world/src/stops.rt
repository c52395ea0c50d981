// Which calls are to fail.
ghost use Rattle.std.specs.Prelude.{◌≡◌, ◌↔◌, IsTrue};
ghost use Rattle.mem_world.specs.Stops.{FailsNext, NeverFails, next_stops};

use std::alloc::Global;

/// The calls that a disk is told to fail.
#[derive(Drop)]
pub struct Stops {
    /// How many further calls are left until all fail.
    pub(crate) fuse: Option<u64>,
    /// The numbers of the calls that fail.
    pub(crate) failing: Vec<u64>,
    /// The number of the next call.
    pub(crate) call: u64,
}

impl Stops {
    pub(crate) fn never(alloc: Global) -> Stops
        ensures { NeverFails result }
    {
        Stops {
            fuse: None,
            failing: Vec::new(alloc),
            call: 0,
        }
    }

    /// Counts a call, and says whether it is to fail.
    pub(crate) fn next(&mut self) -> bool
        ensures fails { IsTrue result ↔ FailsNext self.old }
        ensures stops { self.new ≡ next_stops self.old }
    {
        let call = self.call;
        self.call = call.saturating_add(1);
        let burnt = self.fuse == Some(0);
        if let Some(left) = self.fuse {
            self.fuse = Some(left.saturating_sub(1));
        }
        burnt || self.failing.contains(&call)
    }
}
