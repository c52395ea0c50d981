//! Words for disks: files, what a crash may leave of them, and what is known of a disk.
//!
//! It stands on `base_model` alone and holds no code: each function is empty, and its contract is a
//! law of the definitions in `specs/`. Nothing here fails, and nothing here takes memory. That real
//! disks follow the crash rule is claimed nowhere.
#![tactic(auto)]

ghost use Rattle.disk_model.specs.Files.{Files};
ghost use Rattle.disk_model.specs.Laws.{WritesTear, CutsHalve, SyncsKeep, EarlierImagesStay, SyncsNarrow, ImagesTellContents, NowCounts, NowIsAll, OneCall, Joined, Weaker, Quiet, AtLast, EachSince};

/// A property of files, for the laws that hold of each.
pub trait Property {
    ghost has: { Files → Type 0 };
}

/// After a write a crash leaves just what it might have left before, torn in the range of the write.
pub fn writes_tear()
    ensures { WritesTear }
{}

/// After a cut a crash leaves just what it might have left before, half cut.
pub fn cuts_halve()
    ensures { CutsHalve }
{}

/// After a sync a crash leaves just what is read.
pub fn syncs_keep()
    ensures { SyncsKeep }
{}

/// What a crash may leave before a write or a cut it may leave after it.
pub fn earlier_images_stay()
    ensures { EarlierImagesStay }
{}

/// What a crash leaves after a sync it might have left before it.
pub fn syncs_narrow()
    ensures { SyncsNarrow }
{}

/// A disk that tells what a crash may leave tells what is read.
pub fn images_tell_contents()
    ensures { ImagesTellContents }
{}

/// What a crash may leave now it might have left since any earlier moment.
pub fn now_counts()
    ensures { NowCounts }
{}

/// Since this moment there is no other.
pub fn now_is_all()
    ensures { NowIsAll }
{}

/// A call that was begun, or was not, is a run of one moment or none.
pub fn meanwhile_is_one_call<P: Property>()
    ensures { OneCall P.has }
{}

/// Two runs of moments that leave only what has P are one.
pub fn meanwhile_is_joined<P: Property>()
    ensures { Joined P.has }
{}

/// What follows from P holds of what a run of moments leaves, too.
pub fn meanwhile_is_weaker<P: Property, Q: Property>()
    ensures { Weaker P.has Q.has }
{}

/// Where nothing happened there is no moment more.
pub fn meanwhile_is_quiet<P: Property>()
    ensures { Quiet P.has }
{}

/// What holds at the start and at each moment since holds at the last.
pub fn meanwhile_at_last<P: Property>()
    ensures { AtLast P.has }
{}

/// What holds at the start and at each moment since holds of all that a crash might have left since.
pub fn meanwhile_each_since<P: Property>()
    ensures { EachSince P.has }
{}
