// Random calls, beside the definition of a forest as a plain program: every path is a list of numbers, and a state is
// what the lists say.
use super::*;

/// How many calls there are on a forest, and how many forests.
const CALLS: usize = 40;

const FORESTS: u64 = 500;

#[derive(Drop)]
struct PlainView {
    path: Vec<u64>,
    bytes: u64,
    closed: bool,
}

#[derive(Drop)]
struct Plain {
    store: Vec<u64>,
    views: Vec<PlainView>,
}

impl Plain {
    fn new(alloc: Global) -> Plain {
        Plain {
            store: Vec::new(alloc),
            views: Vec::new(alloc),
        }
    }

    fn view(&self, number: u64) -> Option<&PlainView> {
        if number == 0 || number > self.views.len() as u64 {
            return None;
        }
        self.views.get((number - 1) as usize)
    }

    fn state(&self, number: u64) -> Option<ViewState> {
        let view = self.view(number)?;
        let state = if self.store.contains(&number) {
            ViewState::Committed
        } else if view.closed {
            ViewState::Closed
        } else if view.path.len() > self.store.len() && view.path.starts_with(&self.store) {
            ViewState::Live
        } else {
            ViewState::Invalid
        };
        Some(state)
    }

    /// Why nothing is done with a view.
    fn refused(&self, number: u64) -> Option<ViewFault> {
        match self.state(number) {
            None => Some(ViewFault::Unknown),
            Some(ViewState::Live) => None,
            Some(state) => Some(ViewFault::NotLive(state)),
        }
    }

    fn copied(&self, alloc: Global, parent: Option<u64>) -> Result<Vec<u64>, Fail> {
        match parent {
            None => Ok(Vec::from_slice(alloc, &self.store)?),
            Some(number) => match self.view(number) {
                Some(view) => Ok(Vec::from_slice(alloc, &view.path)?),
                None => Ok(Vec::new(alloc)),
            },
        }
    }

    fn make(
        &mut self,
        alloc: Global,
        parent: Option<u64>,
        bytes: u64,
    ) -> Result<Result<ViewId, ViewFault>, Fail> {
        if let Some(number) = parent {
            if let Some(fault) = self.refused(number) {
                return Ok(Err(fault));
            }
        }
        let mut path = self.copied(alloc, parent)?;
        if path.len() >= self.store.len().saturating_add(64) {
            return Ok(Err(ViewFault::TooDeep));
        }
        let number = (self.views.len() as u64).saturating_add(1);
        path.push(number)?;
        self.views.push(PlainView {
            path,
            bytes,
            closed: false,
        })?;
        Ok(Ok(id(number)))
    }

    /// Whether the view may be committed; then it is.
    fn commit(&mut self, number: u64) -> Result<bool, Fail> {
        if self.state(number) != Some(ViewState::Live) {
            return Ok(false);
        }
        let next = match self.view(number) {
            Some(view) => view.path.len() == self.store.len().saturating_add(1),
            None => false,
        };
        if next {
            self.store.push(number)?;
        }
        Ok(next)
    }

    fn close(&mut self, alloc: Global, number: u64) -> Result<Result<(), ViewFault>, Fail> {
        if let Some(fault) = self.refused(number) {
            return Ok(Err(fault));
        }
        let path = self.copied(alloc, Some(number))?;
        for view in self.views.iter_mut() {
            if view.path.starts_with(&path) {
                view.closed = true;
            }
        }
        Ok(Ok(()))
    }
}

/// Numbers below a bound, one after another.
#[derive(Drop)]
struct Dice {
    state: u64,
}

impl Dice {
    fn below(&mut self, bound: u64) -> u64 {
        self.state = self
            .state
            .wrapping_mul(6364136223846793005)
            .wrapping_add(1442695040888963407);
        let high = self.state >> 33;
        if bound == 0 { 0 } else { high % bound }
    }
}

/// A parent: the store, a late view, or any number from 0 to one too many.
fn pick_parent(dice: &mut Dice, given: u64) -> Option<u64> {
    match dice.below(4) {
        0 => None,
        1 => Some(dice.below(given.saturating_add(2))),
        _ => Some(given),
    }
}

fn assert_alike(
    rt: &impl Abort,
    alloc: Global,
    views: &ViewStack,
    plain: &Plain,
) -> Result<(), Fail> {
    let given = plain.views.len() as u64;
    for number in 0..given.saturating_add(2) {
        let state = plain.state(number);
        assert_eq!(rt; views.state(id(number)), state, "of view {number}");
        assert_chain(rt, alloc, views, plain, number)?;
    }
    Ok(())
}

/// That the chain of a live view is its path past the store's, and its batch as heavy as it was.
fn assert_chain(
    rt: &impl Abort,
    alloc: Global,
    views: &ViewStack,
    plain: &Plain,
    number: u64,
) -> Result<(), Fail> {
    let Some((chain, bytes)) = told(alloc, views, id(number))? else {
        return Ok(());
    };
    match plain.view(number) {
        Some(view) => {
            assert_eq!(rt; bytes, view.bytes);
            let past = view.path.iter().skip(plain.store.len());
            assert!(rt; chain.iter().map(|it| it.number).eq(past.copied()));
        }
        None => assert!(rt; false),
    }
    Ok(())
}

/// The chain of a live view, and how heavy its batch is.
fn told(alloc: Global, views: &ViewStack, id: ViewId) -> Result<Option<(Vec<ViewId>, u64)>, Fail> {
    match views.state(id) {
        Some(ViewState::Live) => {
            let chain = views.chain(alloc, id)?;
            Ok(Some((chain, views.batch(id).payload_len())))
        }
        _ => Ok(None),
    }
}

fn make_both(
    rt: &impl Abort,
    alloc: Global,
    views: &mut ViewStack,
    plain: &mut Plain,
    dice: &mut Dice,
) -> Result<(), Fail> {
    let parent = pick_parent(dice, plain.views.len() as u64);
    let count = match dice.below(3) {
        0 => 0,
        1 => 1,
        _ => 2,
    };
    let batch = puts(alloc, count, dice.below(5) as usize)?;
    let bytes = batch.payload_len();
    let may = views.may(parent.map(id), &batch);
    let made = views.make(alloc, parent.map(id), batch);
    assert_eq!(rt; may, made.map(|_| ()));
    assert_eq!(rt; made, plain.make(alloc, parent, bytes)?);
    Ok(())
}

fn call_both(
    rt: &impl Abort,
    alloc: Global,
    views: &mut ViewStack,
    plain: &mut Plain,
    dice: &mut Dice,
) -> Result<(), Fail> {
    let number = dice.below((plain.views.len() as u64).saturating_add(2));
    match dice.below(12) {
        0 => {
            let given = direct(views);
            let same = plain.make(alloc, None, 0)?;
            assert_eq!(rt; given, same);
            if let Ok(given) = same {
                assert!(rt; plain.commit(given.number)?);
            }
        }
        1 => assert_eq!(rt; views.close(id(number)), plain.close(alloc, number)?),
        2 | 3 => assert_eq!(rt; commit(alloc, views, id(number))?, plain.commit(number)?),
        _ => make_both(rt, alloc, views, plain, dice)?,
    }
    Ok(())
}

#[test]
fn random_calls_follow_the_paths(rt: HostRuntime) -> Result<(), Fail> {
    let alloc = rt.alloc();
    let mut dice = Dice { state: 1 };
    for _ in 0..FORESTS {
        let mut views = ViewStack::new(alloc);
        let mut plain = Plain::new(alloc);
        for _ in 0..CALLS {
            call_both(&rt, alloc, &mut views, &mut plain, &mut dice)?;
            assert_alike(&rt, alloc, &views, &plain)?;
        }
    }
    Ok(())
}
