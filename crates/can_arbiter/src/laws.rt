ghost use Rattle.std.specs.Prelude.{◌≡◌, ◌<◌, ◌^◌, ◌↔◌, ℕ, Bool};
ghost use Rattle.cany_base.specs.Frame.{FrameParts, key_of};
ghost use Rattle.can_arbiter.specs.Levels.{Beats};
ghost use Rattle.can_arbiter.specs.Offers.{OfferTable};
ghost use Rattle.can_arbiter.specs.Outcome.{IsWinner};
ghost use Rattle.can_arbiter.specs.Walk.{IsWalk, IsWalked};

use cany_base::Format;

/// With SRR and IDE recessive in every frame, the bits of the wire order frames as their keys do.
///
/// Promise: of any two frames one wins on the wire exactly where its key is less (`Beats`).
pub fn walk_orders_by_key(format: Format)
    ensures { (a b : FrameParts) → Beats format a b ↔ (key_of format a < key_of format b) }
{}

/// What the walk over the bits of a slot leaves. Bit by bit each node stops that sends recessive
/// while another that still sends is dominant.
///
/// Promise: let each node offer a word of 32 bits. After the last bit exactly those nodes still
/// send that offer the least word, and nobody is left only where nobody offers (`IsWalked`).
pub fn walk_leaves_least()
    ensures { (offering : ℕ → Bool) (word : ℕ → ℕ) (sending : ℕ → ℕ → Bool) →
        IsWalk offering word sending → ((node : ℕ) → word node < 2 ^ 32) →
        IsWalked offering (sending 0) word 0 }
{}

/// One frame wins at most.
///
/// Promise: two frames that win over the same offers are equal.
pub fn winner_is_unique()
    ensures { (offers : OfferTable) (a b : FrameParts) → IsWinner offers a → IsWinner offers b → a ≡ b }
{}
