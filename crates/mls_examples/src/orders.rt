//! When the order of a tape doesn't matter: a tape that meets the premise, and three that fail a part of it, each with
//! two complete schedules that give different rows.

ghost use Rattle.std.specs.Prelude.{◌≡◌, List, [], ◌∷◌, pos, true, false};
ghost use Rattle.mls_orders.specs.OrderFree.{IsOrderFree, is_order_free};
ghost use Rattle.mls_examples.specs.Small.{small_study};
ghost use Rattle.mls_examples.specs.Assembly.{two_clients, two_clients_lanes};
ghost use Rattle.mls_examples.specs.Orders.{premise_tests, both_complete, piece_and_crash, two_samples, half_a_life, first_of_two, second_of_two, first_of_three, last_of_three};
ghost use Rattle.mls_examples.specs.Ranks.{rows_of};

/// A timestep of two clients, each of which sends its piece once, meets the premise, and its two schedules are complete.
pub fn two_clients_meet_the_premise()
    ensures tests { premise_tests two_clients.sizes two_clients_lanes ≡ true ∷ true ∷ true ∷ [] }
    ensures test { is_order_free two_clients.sizes two_clients_lanes ≡ true }
    ensures premise { IsOrderFree two_clients.sizes two_clients_lanes }
    ensures complete { both_complete two_clients_lanes first_of_two second_of_two ≡ true }
{}

/// A crash on a control lane takes the piece that came before it.
pub fn crash_fails_the_premise()
    ensures tests { premise_tests small_study.sizes piece_and_crash ≡ false ∷ true ∷ true ∷ [] }
    ensures test { is_order_free small_study.sizes piece_and_crash ≡ false }
    ensures premise { IsOrderFree small_study.sizes piece_and_crash → ⊥ }
    ensures complete { both_complete piece_and_crash first_of_two second_of_two ≡ true }
    ensures piece_first { rows_of small_study piece_and_crash first_of_two 0 0 ≡ [] }
    ensures crash_first { rows_of small_study piece_and_crash second_of_two 0 0 ≡ (pos 1 ∷ pos 3 ∷ pos 3 ∷ []) ∷ [] }
{}

/// Of two pieces of one key and client with different samples the first is accepted.
pub fn two_samples_fail_the_premise()
    ensures tests { premise_tests small_study.sizes two_samples ≡ true ∷ false ∷ true ∷ [] }
    ensures test { is_order_free small_study.sizes two_samples ≡ false }
    ensures premise { IsOrderFree small_study.sizes two_samples → ⊥ }
    ensures complete { both_complete two_samples first_of_two second_of_two ≡ true }
    ensures one_first { rows_of small_study two_samples first_of_two 0 0 ≡ (pos 1 ∷ pos 3 ∷ pos 3 ∷ []) ∷ [] }
    ensures other_first { rows_of small_study two_samples second_of_two 0 0 ≡ (pos 5 ∷ pos 1 ∷ pos 1 ∷ []) ∷ [] }
{}

/// A greater life from one client alone keeps an earlier life from completing, where it comes first.
pub fn half_a_life_fails_the_premise()
    ensures tests { premise_tests two_clients.sizes half_a_life ≡ true ∷ true ∷ false ∷ [] }
    ensures test { is_order_free two_clients.sizes half_a_life ≡ false }
    ensures premise { IsOrderFree two_clients.sizes half_a_life → ⊥ }
    ensures complete { both_complete half_a_life first_of_three last_of_three ≡ true }
    ensures life_1_first { rows_of two_clients half_a_life first_of_three 0 0 ≡ (pos 1 ∷ pos 3 ∷ pos 3 ∷ []) ∷ [] }
    ensures life_2_first { rows_of two_clients half_a_life last_of_three 0 0 ≡ [] }
{}
