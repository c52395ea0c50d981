// The crash rule, place by place, over a plain list of calls.
use crate::Pick;

/// The bytes of a small file. Those from `len` on say nothing.
#[derive(Clone, Copy, PartialEq, Debug)]
pub struct Small {
    pub bytes: [u8; 8],
    pub len: u64,
}

/// A call on a file.
#[derive(Clone, Copy)]
pub struct Step {
    pub file: u8,
    pub deed: Deed,
    pub fails: bool,
    pub turn: u8,
}

#[derive(Clone, Copy)]
pub enum Deed {
    /// Two of this byte at that place.
    Write(u64, u8),
    Cut(u64),
    Sync,
}

/// What is known of a file: its bytes now and at the last sync, and since then its least and its
/// greatest length and which places a write touched.
#[derive(Clone, Copy)]
struct Ruled {
    now: Small,
    synced: Small,
    least: u64,
    greatest: u64,
    touched: [bool; 8],
}

fn rest(now: Small) -> Ruled {
    Ruled {
        now,
        synced: now,
        least: now.len,
        greatest: now.len,
        touched: [false; 8],
    }
}

fn written(was: Small, at: u64, new: u8) -> Small {
    let mut bytes = was.bytes;
    for (place, byte) in bytes.iter_mut().enumerate() {
        let place = place as u64;
        if at <= place && place <= at.saturating_add(1) {
            *byte = new;
        } else if was.len <= place {
            *byte = 0;
        }
    }
    Small {
        bytes,
        len: was.len.max(at.saturating_add(2)),
    }
}

fn touched(mut flags: [bool; 8], from: u64, to: u64) -> [bool; 8] {
    for (place, flag) in flags.iter_mut().enumerate() {
        if from <= place as u64 && (place as u64) < to {
            *flag = true;
        }
    }
    flags
}

impl Ruled {
    fn follow(&mut self, step: Step) {
        match step.deed {
            Deed::Write(at, byte) => {
                let to = at.saturating_add(2);
                self.touched = touched(self.touched, at.min(self.now.len), to);
                self.greatest = self.greatest.max(to);
                if !step.fails {
                    self.now = written(self.now, at, byte);
                }
            }
            Deed::Cut(length) => {
                self.least = self.least.min(length);
                if !step.fails {
                    self.now.len = self.now.len.min(length);
                }
            }
            Deed::Sync => {
                if !step.fails {
                    *self = rest(self.now);
                }
            }
        }
    }

    fn noise(&self, seed: u64) -> Small {
        let mut bytes = self.synced.bytes;
        for (place, byte) in bytes.iter_mut().enumerate() {
            let touched = self.touched.get(place).copied().unwrap_or(false);
            if touched || self.least <= place as u64 {
                *byte = (seed.wrapping_add(place as u64) % 256) as u8;
            }
        }
        Small {
            bytes,
            len: self.greatest,
        }
    }
}

/// What a crash leaves of a file that began with four bytes, after these calls.
pub fn left(steps: &[Step], file: u8, pick: Pick) -> Small {
    let mut ruled = rest(Small {
        bytes: [1, 2, 3, 4, 0, 0, 0, 0],
        len: 4,
    });
    for step in steps {
        if step.file == file {
            ruled.follow(*step);
        }
    }
    match pick {
        Pick::Kept => ruled.now,
        Pick::Lost => ruled.synced,
        Pick::Noise(seed) => ruled.noise(seed),
    }
}

/// The same, with zeros in place of bytes that say nothing.
pub fn clean(small: Small) -> Small {
    let mut bytes = small.bytes;
    for (place, byte) in bytes.iter_mut().enumerate() {
        if small.len <= place as u64 {
            *byte = 0;
        }
    }
    Small {
        bytes,
        len: small.len,
    }
}
