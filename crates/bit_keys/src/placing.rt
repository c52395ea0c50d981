ghost use Rattle.std.specs.Prelude.{◌≡◌};
ghost use Rattle.range_model.specs.Ranges.{slot_place, key_place as place_of_key};
ghost use Rattle.bit_keys.specs.Ranges.{seen_place};

use crate::key::Key;
use crate::places::Place;
use crate::ranges::Range;

/// Where the keys lie that a slot begins.
#[tactic(auto, unfolding(range_model::specs::Ranges::slot_place))]
pub fn place(slot: &Key, range: &Range) -> Place
    ensures { seen_place result ≡ slot_place range.now slot.now }
{
    if range.starts_above_all(slot) {
        Place::Before
    } else if range.ends_below(slot) {
        Place::After
    } else if range.starts_above(slot) {
        Place::Straddles
    } else if range.ends_at_or_above_all(slot) {
        Place::Inside
    } else {
        Place::Straddles
    }
}

/// Where one key lies. It never straddles.
#[tactic(auto, unfolding(range_model::specs::Ranges::key_place))]
pub fn key_place(key: &Key, range: &Range) -> Place
    ensures { seen_place result ≡ place_of_key range.now key.now }
{
    if range.starts_above(key) {
        Place::Before
    } else if range.ends_below(key) {
        Place::After
    } else {
        Place::Inside
    }
}
