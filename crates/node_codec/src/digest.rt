ghost use Rattle.std.specs.Prelude.{◌≡◌, ℕ, ◌<◌, ◌≤◌, length, List, take, MatchOption};

use std::marker::Model;

/// At most 32 bytes, kept in place.
#[derive(Debug, Drop)]
pub struct Digest {
    len: u8,
    room: [u8; 32],
}

impl Model for Digest {
    ghost Value = { List ℕ };

    ghost view = { λ d. take d.len d.room };

    ghost invariant = { λ d. d.len ≤ 32 };
}

impl Digest {
    /// A digest of these bytes, unless they are more than 32.
    pub fn new(bytes: &[u8]) -> Option<Digest>
        ensures { MatchOption result (32 < length bytes.now) (λ d. (d ≡ bytes.now) × (length bytes.now ≤ 32)) }
    {
        if bytes.len() > 32 {
            return None;
        }
        Some(Digest::short(bytes))
    }

    pub(crate) fn short(bytes: &[u8]) -> Digest
        requires { length bytes.now ≤ 32 }
        ensures { result ≡ bytes.now }
    {
        let mut room = [0; 32];
        room[..bytes.len()].copy_from_slice(bytes);
        Digest {
            len: bytes.len() as u8,
            room,
        }
    }

    pub fn bytes(&self) -> &[u8]
        ensures value { result.now ≡ self.now }
        ensures short { length self.now ≤ 32 }
    {
        &self.room[..self.len as usize]
    }

    pub fn copy(&self) -> Digest
        ensures { result ≡ self.now }
    {
        Digest {
            len: self.len,
            room: self.room,
        }
    }
}
