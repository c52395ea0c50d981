// The fields of a form, read from the left. Each is read at a place, and gives its value and the place
// after it, or the fault of that place.
ghost use Rattle.std.specs.Prelude.{◌≡◌, ◌≤◌, ◌∷◌, [], length, option_map, IfOk, IfSome};
ghost use Rattle.base_model.specs.Fields.{number_at, bytes_at, flag_at};
ghost use Rattle.proof_model.specs.Wire.{Short, Flag, wrong, bad_number, head_at, sized_at, maybe_at};
ghost use Rattle.proof_check.specs.ReaderAnswers.{Gives, size_limit, size_fault};

use crate::sized_field::SizedField;
use crate::wire_fault::{WireFault, WireKind};
use crate::writing::VERSION;
use mdb_base::{NoMemory, read_uvarint};
use std::alloc::Global;

/// A number.
#[tactic(auto, unfolding(base_model::specs::Fields::number_at))]
pub(crate) fn number_of(bytes: &[u8], at: usize) -> Result<(u64, usize), WireFault>
    requires { at ≤ length bytes.now }
    ensures exact { Gives (λ x. (x.0, x.1)) result (number_at bad_number bytes.now at) }
    ensures inside { IfOk result (λ x. x.1 ≤ length bytes.now) }
{
    match read_uvarint(bytes, at) {
        Ok(read) => Ok(read),
        Err(why) => Err(WireKind::Varint(why).at(at)),
    }
}

/// The `count` bytes from a place on.
#[tactic(auto, unfolding(base_model::specs::Fields::bytes_at))]
pub(crate) fn bytes_of(bytes: &[u8], at: usize, count: usize) -> Result<(&[u8], usize), WireFault>
    requires { at ≤ length bytes.now }
    ensures exact { Gives (λ x. (x.0.now, x.1)) result (bytes_at (wrong Short) count bytes.now at) }
    ensures inside { IfOk result (λ x. x.1 ≤ length bytes.now) }
    ensures count { IfOk result (λ x. length x.0.now ≡ count) }
{
    if bytes.len() - at < count {
        return Err(WireKind::Short.at(at));
    }
    let end = at + count;
    Ok((&bytes[at..end], end))
}

/// A flag.
#[tactic(auto, unfolding(base_model::specs::Fields::flag_at))]
pub(crate) fn flag_of(bytes: &[u8], at: usize) -> Result<(bool, usize), WireFault>
    requires { at ≤ length bytes.now }
    ensures exact { Gives (λ x. (x.0, x.1)) result (flag_at (wrong Short) (wrong Flag) bytes.now at) }
    ensures inside { IfOk result (λ x. x.1 ≤ length bytes.now) }
{
    if at >= bytes.len() {
        return Err(WireKind::Short.at(at));
    }
    match bytes[at] {
        0 => Ok((false, at + 1)),
        1 => Ok((true, at + 1)),
        _ => Err(WireKind::Flag.at(at)),
    }
}

/// The place behind the version and the kind.
#[tactic(auto, unfolding(proof_model::specs::Wire::head_at, proof_model::specs::Wire::byte_at))]
pub(crate) fn head_of(bytes: &[u8], kind: u8) -> Result<usize, WireFault>
    ensures exact { Gives (λ at. (kind, at)) result (head_at kind bytes.now) }
    ensures inside { IfOk result (λ at. at ≤ length bytes.now) }
{
    let (version, at) = bytes_of(bytes, 0, 1)?;
    if version[0] != VERSION {
        return Err(WireKind::Version.at(0));
    }
    let (second, next) = bytes_of(bytes, at, 1)?;
    if second[0] != kind {
        return Err(WireKind::Kind.at(at));
    }
    Ok(next)
}

/// Bytes behind their length.
#[tactic(auto, unfolding(proof_model::specs::Wire::sized_at))]
pub(crate) fn sized_of(
    bytes: &[u8],
    at: usize,
    what: SizedField,
) -> Result<(&[u8], usize), WireFault>
    requires { at ≤ length bytes.now }
    ensures exact { Gives (λ x. (x.0.now, x.1)) result (sized_at (size_fault what) (size_limit what) bytes.now at) }
    ensures inside { IfOk result (λ x. x.1 ≤ length bytes.now) }
    ensures short { IfOk result (λ x. length x.0.now ≤ size_limit what) }
{
    let (count, start) = number_of(bytes, at)?;
    if count > what.limit() {
        return Err(what.fault().at(at));
    }
    bytes_of(bytes, start, count as usize)
}

/// A flag, and where it is 1 bytes behind their length.
#[tactic(auto, unfolding(proof_model::specs::Wire::maybe_at))]
pub(crate) fn maybe_of(
    bytes: &[u8],
    at: usize,
    what: SizedField,
) -> Result<(Option<&[u8]>, usize), WireFault>
    requires { at ≤ length bytes.now }
    ensures exact { Gives (λ x. (option_map (λ r. r.now) x.0, x.1)) result (maybe_at (size_fault what) (size_limit what) bytes.now at) }
    ensures inside { IfOk result (λ x. x.1 ≤ length bytes.now) }
    ensures short { IfOk result (λ x. IfSome x.0 (λ r. length r.now ≤ size_limit what)) }
{
    let (there, at) = flag_of(bytes, at)?;
    if !there {
        return Ok((None, at));
    }
    let (found, at) = sized_of(bytes, at, what)?;
    Ok((Some(found), at))
}

/// The bytes, where there are some.
pub(crate) fn copied(alloc: Global, bytes: Option<&[u8]>) -> Result<Option<Vec<u8>>, NoMemory>
    ensures { IfOk result (λ v. option_map (λ x. x.items) v ≡ option_map (λ r. r.now) bytes.entry) }
{
    match bytes {
        Some(bytes) => Ok(Some(Vec::from_slice(alloc, bytes)?)),
        None => Ok(None),
    }
}
