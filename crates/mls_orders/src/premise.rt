//! The premise under which the order of a tape doesn't matter.

ghost use Rattle.std.specs.Prelude.{◌≡◌, ◌↔◌, ℕ, ◌<◌, true, List};
ghost use Rattle.mls_model.specs.Studies.{Sizes};
ghost use Rattle.mls_model.specs.Blocks.{overlaps};
ghost use Rattle.mls_model.specs.Frames.{Piece};
ghost use Rattle.mls_model.specs.Lanes.{Lane};
ghost use Rattle.mls_model.specs.Completion.{Key, has_all_shares};
ghost use Rattle.mls_orders.specs.OrderFree.{IsOrderFree, is_order_free, some_life_has_all};

/// The premise holds exactly where its test does, which computes.
pub fn premise_is_tested()
    ensures { (s : Sizes) (lanes : List Lane) → (is_order_free s lanes ≡ true) ↔ IsOrderFree s lanes }
{}

/// Some life has all of a key's pieces exactly where there is a life that has a piece of each client that overlaps the
/// rank's block, of which there is one at least.
pub fn some_life_is_a_life()
    ensures life { (s : Sizes) (rank : ℕ) (key : Key) (pieces : List Piece) →
        some_life_has_all s rank key pieces ≡ true → (life : ℕ) × (has_all_shares s rank key life pieces ≡ true) }
    ensures some { (s : Sizes) (rank : ℕ) (key : Key) (life client : ℕ) (pieces : List Piece) →
        client < s.clients → overlaps s rank client ≡ true →
        has_all_shares s rank key life pieces ≡ true → some_life_has_all s rank key pieces ≡ true }
{}
