use super::plain::{read_changes, read_point, read_range};
use crate::{ChangeProof, PointProof, RangeProof, WireFault};
use bit_keys::Branch;
use std::alloc::Global;
use std::process::Abort;
use std::test::Fail;

/// What bytes are read as.
#[derive(Clone, Copy)]
pub(super) enum Form {
    Point,
    Range,
    Change,
}

fn told(alloc: Global, form: Form, bytes: &[u8], branch: Branch) -> Result<(), WireFault> {
    match form {
        Form::Point => PointProof::decode(alloc, bytes, branch).map(|_| ()),
        Form::Range => RangeProof::decode(alloc, bytes, branch).map(|_| ()),
        Form::Change => ChangeProof::decode(alloc, bytes, branch).map(|_| ()),
    }
}

fn plainly_told(form: Form, bytes: &[u8], width: u32) -> Result<(), WireFault> {
    match form {
        Form::Point => read_point(bytes, width),
        Form::Range => read_range(bytes, width),
        Form::Change => read_changes(bytes, width),
    }
}

fn assert_read_alike(rt: &impl Abort, alloc: Global, form: Form, bytes: &[u8], branch: Branch) {
    assert_eq!(rt;
        told(alloc, form, bytes, branch),
        plainly_told(form, bytes, u32::from(branch.width())),
        "of {bytes:?}"
    );
}

fn assert_flips_read_alike(
    rt: &impl Abort,
    alloc: Global,
    form: Form,
    bytes: &[u8],
    at: usize,
    branch: Branch,
) -> Result<(), Fail> {
    for bit in 0..8u32 {
        let mut damaged = Vec::from_slice(alloc, bytes)?;
        if let Some(byte) = damaged.get_mut(at) {
            *byte ^= 1 << bit;
        }
        assert_read_alike(rt, alloc, form, &damaged, branch);
    }
    Ok(())
}

/// Each front of the bytes, and the bytes with each one bit flipped, are read as the plain reader does.
pub(super) fn assert_damage_read_alike(
    rt: &impl Abort,
    alloc: Global,
    form: Form,
    bytes: &[u8],
    branch: Branch,
) -> Result<(), Fail> {
    for at in 0..bytes.len() {
        assert_read_alike(rt, alloc, form, &bytes[..at], branch);
        assert_flips_read_alike(rt, alloc, form, bytes, at, branch)?;
    }
    Ok(())
}
