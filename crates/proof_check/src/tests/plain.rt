// A reader of proofs for tests alone, written from the form of the bytes and not from the crate: it makes
// no proof, and goes over the bytes once.

use crate::{WireFault, WireKind};
use mdb_base::VarintFault;

/// Bytes, and the place of the next one.
#[derive(Drop)]
struct Plain<'a> {
    bytes: &'a [u8],
    at: usize,
}

fn refused<T>(at: usize, kind: WireKind) -> Result<T, WireFault> {
    Err(WireFault { at, kind })
}

/// What is wrong with bytes that are to be a point proof, at so many bits a token.
pub(super) fn read_point(bytes: &[u8], width: u32) -> Result<(), WireFault> {
    let mut plain = Plain { bytes, at: 0 };
    plain.head(4)?;
    plain.maybe(262_144, WireKind::LongValue)?;
    plain.path(width)?;
    plain.end()
}

/// What is wrong with bytes that are to be a range proof, at so many bits a token.
pub(super) fn read_range(bytes: &[u8], width: u32) -> Result<(), WireFault> {
    let mut plain = Plain { bytes, at: 0 };
    plain.head(1)?;
    plain.flag()?;
    for _ in 0..plain.number()? {
        plain.sized(256, WireKind::LongKey)?;
        plain.sized(262_144, WireKind::LongValue)?;
    }
    plain.path(width)?;
    plain.path(width)?;
    plain.end()
}

/// What is wrong with bytes that are to be a change proof, at so many bits a token.
pub(super) fn read_changes(bytes: &[u8], width: u32) -> Result<(), WireFault> {
    let mut plain = Plain { bytes, at: 0 };
    plain.head(2)?;
    plain.flag()?;
    for _ in 0..plain.number()? {
        plain.sized(256, WireKind::LongKey)?;
        plain.maybe(262_144, WireKind::LongValue)?;
    }
    plain.path(width)?;
    plain.path(width)?;
    plain.end()
}

impl Plain<'_> {
    fn next(&mut self) -> Option<u8> {
        let byte = *self.bytes.get(self.at)?;
        self.at = self.at.saturating_add(1);
        Some(byte)
    }

    /// The one byte that may stand here.
    fn one(&mut self, want: u8, other: WireKind) -> Result<(), WireFault> {
        let at = self.at;
        match self.next() {
            None => refused(at, WireKind::Short),
            Some(byte) if byte == want => Ok(()),
            Some(_) => refused(at, other),
        }
    }

    /// The version and the kind.
    fn head(&mut self, kind: u8) -> Result<(), WireFault> {
        self.one(1, WireKind::Version)?;
        self.one(kind, WireKind::Kind)
    }

    /// Nothing more.
    fn end(&self) -> Result<(), WireFault> {
        if self.at < self.bytes.len() {
            return refused(self.at, WireKind::Trailing);
        }
        Ok(())
    }

    fn flag(&mut self) -> Result<bool, WireFault> {
        let at = self.at;
        match self.next() {
            None => refused(at, WireKind::Short),
            Some(0) => Ok(false),
            Some(1) => Ok(true),
            Some(_) => refused(at, WireKind::Flag),
        }
    }

    fn number(&mut self) -> Result<u64, WireFault> {
        let at = self.at;
        let mut number = 0;
        for group in 0..10u32 {
            let Some(byte) = self.next() else {
                return refused(at, WireKind::Varint(VarintFault::Short));
            };
            if group == 9 && byte > 1 {
                break;
            }
            number |= u64::from(byte % 128) << (7 * group);
            if byte == 0 && group > 0 {
                return refused(at, WireKind::Varint(VarintFault::NotShortest));
            }
            if byte < 128 {
                return Ok(number);
            }
        }
        refused(at, WireKind::Varint(VarintFault::Long))
    }

    /// So many bytes, whatever they are.
    fn skip(&mut self, count: u64) -> Result<(), WireFault> {
        let at = self.at;
        for _ in 0..count {
            if self.next().is_none() {
                return refused(at, WireKind::Short);
            }
        }
        Ok(())
    }

    /// A length of at most `most`, and so many bytes.
    fn sized(&mut self, most: u64, long: WireKind) -> Result<(), WireFault> {
        let at = self.at;
        let count = self.number()?;
        if count > most {
            return refused(at, long);
        }
        self.skip(count)
    }

    /// A flag, and where it is 1 bytes behind their length.
    fn maybe(&mut self, most: u64, long: WireKind) -> Result<(), WireFault> {
        if !self.flag()? {
            return Ok(());
        }
        self.sized(most, long)
    }

    fn path(&mut self, width: u32) -> Result<(), WireFault> {
        for _ in 0..self.number()? {
            self.node(width)?;
        }
        Ok(())
    }

    /// A key in bits, of at most 2,048 and of whole tokens, and then zeros up to the end of its last byte.
    fn key(&mut self, width: u32) -> Result<(), WireFault> {
        let at = self.at;
        let bits = self.number()?;
        if bits > 2_048 {
            return refused(at, WireKind::LongKey);
        }
        if bits.checked_rem(u64::from(width)) != Some(0) {
            return refused(at, WireKind::Tokens);
        }
        let start = self.at;
        self.skip(bits.div_ceil(8))?;
        let last = self.bytes.get(self.at.saturating_sub(1)).copied();
        let unused = (8 - bits % 8) % 8;
        if last.unwrap_or(0).trailing_zeros() < unused as u32 {
            return refused(start, WireKind::Padding);
        }
        Ok(())
    }

    /// A key, maybe a digest, and children whose indices rise and are below the factor.
    fn node(&mut self, width: u32) -> Result<(), WireFault> {
        self.key(width)?;
        self.maybe(32, WireKind::LongDigest)?;
        let mut last = None;
        for _ in 0..self.number()? {
            let at = self.at;
            let index = self.number()?;
            if index.checked_shr(width) != Some(0) {
                return refused(at, WireKind::Index);
            }
            if last.is_some_and(|last| index <= last) {
                return refused(at, WireKind::Order);
            }
            last = Some(index);
            self.skip(32)?;
        }
        Ok(())
    }
}
