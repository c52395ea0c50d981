ghost use Rattle.std.specs.Prelude.{◌≡◌};

use mdb_base::NoMemory;
use thiserror::Error;

/// Why a history tells no changes.
#[derive(Clone, Copy, Debug, PartialEq, Eq, Error)]
pub enum HistoryFault {
    /// No map that is held has the root at which the changes end.
    #[error("the map of the later root is not held")]
    NoEnd,
    /// Neither that map nor a map before it has the root from which they start.
    #[error("the map of the former root is not held before the later one")]
    NoStart,
    /// There was no memory.
    #[error("out of memory")]
    NoMemory,
}

impl From<NoMemory> for HistoryFault {
    ghost use Rattle.change_history.specs.declared.fault.HistoryFault.TheVariants.{NoMemory as LacksMemory};

    ghost from_gives = { λ _ e. e ≡ LacksMemory };

    fn from(_error: NoMemory) -> HistoryFault {
        HistoryFault::NoMemory
    }
}
