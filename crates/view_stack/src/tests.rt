use super::*;
use mdb_base::{Batch, BatchFault, NoMemory};
use std::alloc::Global;
use std::process::Abort;
use std::test::Fail;

mod random;

fn id(number: u64) -> ViewId {
    ViewId { number }
}

fn owned(alloc: Global, bytes: &[u8]) -> Result<Vec<u8>, BatchFault> {
    Vec::from_slice(alloc, bytes).map_err(|_| BatchFault::NoMemory)
}

/// So many puts with keys of one byte and values of so many bytes.
fn puts(alloc: Global, count: u8, value: usize) -> Result<Batch, Fail> {
    let value = vec![in alloc; 0u8; value]?;
    let mut batch = Batch::new(alloc);
    for key in 0..count {
        batch.set(owned(alloc, &[key])?, Some(owned(alloc, &value)?))?;
    }
    Ok(batch)
}

/// Commits a view where that is allowed, and says whether it did.
fn commit(alloc: Global, views: &mut ViewStack, id: ViewId) -> Result<bool, NoMemory> {
    match views.state(id) {
        Some(ViewState::Live) => {
            let chain = views.chain(alloc, id)?;
            if chain.len() != 1 {
                return Ok(false);
            }
            views.committed(id);
            Ok(true)
        }
        _ => Ok(false),
    }
}

fn direct(views: &mut ViewStack) -> Result<ViewId, ViewFault> {
    match views.room() {
        Ok(()) => Ok(views.direct()),
        Err(fault) => Err(fault),
    }
}

fn assert_states(rt: &impl Abort, views: &ViewStack, want: &[ViewState]) {
    assert_eq!(rt; views.state(id(0)), None);
    for (place, state) in want.iter().enumerate() {
        assert_eq!(rt;
            views.state(id(place as u64 + 1)),
            Some(*state),
            "of view {place} from 0"
        );
    }
    assert_eq!(rt; views.state(id(want.len() as u64 + 1)), None);
}

#[test]
fn a_ninth_sibling_is_too_heavy(rt: HostRuntime) -> Result<(), Fail> {
    let alloc = rt.alloc();
    let mut views = ViewStack::new(alloc);
    for number in 1..9 {
        let made = views.make(alloc, None, puts(alloc, 127, 262_144)?);
        assert_eq!(rt; made, Ok(id(number)));
    }
    let batch = puts(alloc, 127, 262_144)?;
    assert_eq!(rt; views.may(None, &batch), Err(ViewFault::TooHeavy));
    assert_eq!(rt; views.may(Some(id(9)), &batch), Err(ViewFault::Unknown));
    let again = puts(alloc, 127, 262_144)?;
    assert_eq!(rt; views.make(alloc, None, again), Err(ViewFault::TooHeavy));
    assert_eq!(rt; views.close(id(3)), Ok(()));
    let closed = ViewFault::NotLive(ViewState::Closed);
    assert_eq!(rt; views.may(Some(id(3)), &batch), Err(closed));
    assert_eq!(rt; views.make(alloc, None, batch), Ok(id(9)));
    Ok(())
}

#[test]
fn a_chain_goes_so_far_past_the_store(rt: HostRuntime) -> Result<(), Fail> {
    let alloc = rt.alloc();
    let mut views = ViewStack::new(alloc);
    let mut parent = None;
    for number in 1..65 {
        assert_eq!(rt;
            views.make(alloc, parent, puts(alloc, 1, 0)?),
            Ok(id(number))
        );
        parent = Some(id(number));
    }
    let batch = puts(alloc, 1, 0)?;
    assert_eq!(rt; views.may(parent, &batch), Err(ViewFault::TooDeep));
    assert_eq!(rt; views.make(alloc, parent, batch), Err(ViewFault::TooDeep));
    // What is committed is no part of the way.
    assert_eq!(rt; commit(alloc, &mut views, id(1)), Ok(true));
    assert_eq!(rt; commit(alloc, &mut views, id(3)), Ok(false));
    assert_eq!(rt; views.make(alloc, parent, puts(alloc, 1, 0)?), Ok(id(65)));
    let deeper = views.make(alloc, Some(id(65)), puts(alloc, 1, 0)?);
    assert_eq!(rt; deeper, Err(ViewFault::TooDeep));
    Ok(())
}

#[test]
fn states_follow_commits_and_closings(rt: HostRuntime) -> Result<(), Fail> {
    use ViewState::{Closed, Committed, Invalid, Live};
    let alloc = rt.alloc();
    let mut views = ViewStack::new(alloc);
    // 1 and 2 stand on the store, 3 and 4 on 1, 5 on 2, 6 on 3, 7 on 5.
    for parent in [None, None, Some(1), Some(1), Some(2), Some(3), Some(5)] {
        let parent = parent.map(id);
        assert!(rt; views.make(alloc, parent, puts(alloc, 2, 3)?).is_ok());
    }
    assert_states(&rt, &views, &[Live, Live, Live, Live, Live, Live, Live]);
    assert_eq!(rt; views.close(id(5)), Ok(()));
    assert_eq!(rt; views.close(id(7)), Err(ViewFault::NotLive(Closed)));
    assert_states(&rt, &views, &[Live, Live, Live, Live, Closed, Live, Closed]);
    // The view's own stay live, its sibling's do not, and what was closed stays closed.
    assert_eq!(rt; commit(alloc, &mut views, id(1)), Ok(true));
    let want = [Committed, Invalid, Live, Live, Closed, Live, Closed];
    assert_states(&rt, &views, &want);
    assert_eq!(rt; views.close(id(1)), Err(ViewFault::NotLive(Committed)));
    assert_eq!(rt; views.close(id(2)), Err(ViewFault::NotLive(Invalid)));
    assert_eq!(rt; views.close(id(8)), Err(ViewFault::Unknown));
    assert_eq!(rt; commit(alloc, &mut views, id(3)), Ok(true));
    assert_eq!(rt; direct(&mut views), Ok(id(8)));
    let want = [
        Committed, Invalid, Committed, Invalid, Closed, Invalid, Closed, Committed,
    ];
    assert_states(&rt, &views, &want);
    Ok(())
}

#[test]
fn numbers_end(rt: HostRuntime) -> Result<(), Fail> {
    let alloc = rt.alloc();
    let mut views = ViewStack::new(alloc);
    for number in 1..1_000_000 {
        assert_eq!(rt; direct(&mut views), Ok(id(number)));
    }
    let batch = puts(alloc, 1, 1)?;
    assert_eq!(rt; views.make(alloc, None, batch), Ok(id(1_000_000)));
    let batch = puts(alloc, 1, 1)?;
    assert_eq!(rt; views.may(None, &batch), Err(ViewFault::TooMany));
    assert_eq!(rt;
        views.may(Some(id(1_000_000)), &batch),
        Err(ViewFault::TooMany)
    );
    assert_eq!(rt;
        views.may(Some(id(1_000_001)), &batch),
        Err(ViewFault::Unknown)
    );
    let committed = ViewFault::NotLive(ViewState::Committed);
    assert_eq!(rt; views.may(Some(id(1)), &batch), Err(committed));
    assert_eq!(rt; direct(&mut views), Err(ViewFault::TooMany));
    assert_eq!(rt; views.state(id(1_000_000)), Some(ViewState::Live));
    Ok(())
}
