// How a key changed in a commit.
ghost use Rattle.std.specs.Prelude.{◌≡◌, ◌<◌, ◌^◌, option_map};
ghost use Rattle.history_model.specs.Changes.{value_weight, delta_weight};

use std::marker::Model;

/// A key, and its value before a commit and after it, which differ. `None` is no value.
#[derive(Debug, Drop)]
pub struct Delta {
    pub key: Vec<u8>,
    pub before: Option<Vec<u8>>,
    pub after: Option<Vec<u8>>,
}

impl Model for Delta {
    ghost use Rattle.std.specs.Prelude.{option_map};
    ghost use Rattle.history_model.specs.Changes.{Delta as BothValues};

    ghost Value = { BothValues };

    ghost view = { λ d. record { key = d.key.items; before = option_map (λ v. v.items) d.before; after = option_map (λ v. v.items) d.after } };
}

pub(crate) fn value_len(value: &Option<Vec<u8>>) -> u128
    ensures exact { result ≡ value_weight (option_map (λ v. v.items) value.now) }
    ensures small { result < 2 ^ 63 }
{
    match value {
        Some(bytes) => bytes.len() as u128,
        None => 0,
    }
}

impl Delta {
    /// The bytes of the key and of both values.
    pub fn weight(&self) -> u128
        ensures exact { result ≡ delta_weight self.now }
        ensures small { result < 2 ^ 65 }
    {
        self.key.len() as u128 + value_len(&self.before) + value_len(&self.after)
    }
}
