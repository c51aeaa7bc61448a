//! How a mesh is cut into blocks and parts, and how a rank makes a group's timestep whole.

ghost use Rattle.std.specs.Prelude.{◌≡◌, List, [], ◌∷◌, pos, map, true};
ghost use Rattle.mls_model.specs.declared.outcomes.Outcome.TheVariants.{Accepted, Kept, Replay, Stale, Repeated};
ghost use Rattle.mls_model.specs.Numbers.{below};
ghost use Rattle.mls_model.specs.Blocks.{block, part, overlap};
ghost use Rattle.mls_model.specs.Outcomes.{outcomes};
ghost use Rattle.mls_model.specs.ResultText.{result_text, rank_lines};
ghost use Rattle.mls_model.specs.Schedules.{plain, is_complete};
ghost use Rattle.mls_examples.specs.Assembly.{ten_cells, cells_from, pairs_of, two_clients, two_clients_lanes, two_clients_text, first_client_first, second_client_first, two_lives_lanes, two_lives_text, sent_again_lanes, sent_again_text, late_lanes, three_ranks, twelve_lanes, telling_rows, three_rank_lines};
ghost use Rattle.mls_examples.specs.Small.{small_study};
ghost use Rattle.mls_examples.specs.Ranks.{counts_of, rows_of, survivors};

/// Ten cells in three blocks and two parts. Rank 1 has cells from both clients.
pub fn blocks_and_parts()
    ensures blocks { map (block ten_cells) (below 3) ≡ cells_from 0 3 ∷ cells_from 3 6 ∷ cells_from 6 10 ∷ [] }
    ensures parts { map (part ten_cells) (below 2) ≡ cells_from 0 5 ∷ cells_from 5 10 ∷ [] }
    ensures overlaps { map (overlap ten_cells 1) (below 2) ≡ cells_from 3 5 ∷ cells_from 5 6 ∷ [] }
    ensures pairs { pairs_of ten_cells ≡ (0, 0) ∷ (1, 0) ∷ (1, 1) ∷ (2, 1) ∷ [] }
{}

/// A timestep of two clients is accepted with the second piece, whichever that is, and the text is the same.
pub fn two_clients_in_each_order()
    ensures complete { (is_complete 1 two_clients_lanes first_client_first ≡ true) × (is_complete 1 two_clients_lanes second_client_first ≡ true) }
    ensures first { outcomes two_clients.sizes 0 (survivors two_clients_lanes first_client_first 0) ≡ Kept ∷ Accepted ∷ [] }
    ensures second { outcomes two_clients.sizes 0 (survivors two_clients_lanes second_client_first 0) ≡ Kept ∷ Accepted ∷ [] }
    ensures first_text { result_text two_clients two_clients_lanes first_client_first ≡ two_clients_text }
    ensures second_text { result_text two_clients two_clients_lanes second_client_first ≡ two_clients_text }
{}

/// Pieces of two lives mixed: those of the greater life alone make the timestep whole.
pub fn two_lives()
    ensures outcomes { outcomes two_clients.sizes 0 (survivors two_lives_lanes (plain 1 two_lives_lanes) 0) ≡ Kept ∷ Kept ∷ Stale ∷ Accepted ∷ [] }
    ensures cell_0 { rows_of two_clients two_lives_lanes (plain 1 two_lives_lanes) 0 0 ≡ (pos 10 ∷ pos 11 ∷ pos 12 ∷ []) ∷ [] }
    ensures cell_1 { rows_of two_clients two_lives_lanes (plain 1 two_lives_lanes) 0 1 ≡ (pos 4 ∷ pos 5 ∷ pos 6 ∷ []) ∷ [] }
    ensures text { result_text two_clients two_lives_lanes (plain 1 two_lives_lanes) ≡ two_lives_text }
{}

/// A second piece of a life and client is repeated, and the samples of the first are taken.
pub fn two_lives_sent_again()
    ensures outcomes { outcomes two_clients.sizes 0 (survivors sent_again_lanes (plain 1 sent_again_lanes) 0) ≡ Kept ∷ Kept ∷ Repeated ∷ Stale ∷ Accepted ∷ [] }
    ensures cell_1 { rows_of two_clients sent_again_lanes (plain 1 sent_again_lanes) 0 1 ≡ (pos 4 ∷ pos 5 ∷ pos 6 ∷ []) ∷ [] }
    ensures text { result_text two_clients sent_again_lanes (plain 1 sent_again_lanes) ≡ sent_again_text }
{}

/// Once a timestep is whole, each piece of it is a replay, whatever its life.
pub fn late_pieces()
    ensures outcomes { outcomes small_study.sizes 0 (survivors late_lanes (plain 1 late_lanes) 0) ≡ Accepted ∷ Replay ∷ Replay ∷ Replay ∷ [] }
    ensures rows { rows_of small_study late_lanes (plain 1 late_lanes) 0 0 ≡ (pos 1 ∷ pos 3 ∷ pos 3 ∷ []) ∷ [] }
{}

/// Twelve lanes to three ranks: rank 1 waits for a second client six times, and each cell has its own samples.
pub fn twelve_lanes_to_three_ranks()
    ensures complete { is_complete 3 twelve_lanes (plain 3 twelve_lanes) ≡ true }
    ensures rank_lines { rank_lines (counts_of three_ranks twelve_lanes (plain 3 twelve_lanes)) ≡ three_rank_lines }
    ensures step_0 { map (rows_of three_ranks twelve_lanes (plain 3 twelve_lanes) 0) (below 10) ≡ map (telling_rows 0) (below 10) }
    ensures step_1 { map (rows_of three_ranks twelve_lanes (plain 3 twelve_lanes) 1) (below 10) ≡ map (telling_rows 1) (below 10) }
{}
