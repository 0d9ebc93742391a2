// What an open tests.
#![tactic(auto)]

ghost use Rattle.model.specs.Shape as model;
ghost use Rattle.std.specs.Prelude.{◌≡◌};
ghost use Rattle.model.specs.Machine.{can_open};
ghost use Rattle.base_protocol.specs.View.{sizes_view};

use base_limits::{MOST_BUCKETS, MOST_ROWS, MOST_VERSIONS};
use base_numbers::within;
use base_protocol::Sizes;

// Whether sizes are within limits.
pub fn good_sizes(sizes: Sizes) -> bool
    ensures { result ≡ model.good_sizes (sizes_view sizes) }
{
    within(sizes.rows, MOST_ROWS as u64)
        && within(sizes.versions, MOST_VERSIONS as u64)
        && within(sizes.buckets, MOST_BUCKETS as u64)
}

// Whether a store can be opened: sizes within limits, and a clock.
#[tactic(auto, unfolding(model::specs::Machine::can_open))]
pub fn can_open(sizes: Sizes, clock: u64) -> bool
    ensures { result ≡ can_open (sizes_view sizes) clock }
{
    good_sizes(sizes) && clock >= 1
}
