//! Bytes as frames, lanes and tapes.

ghost use Rattle.std.specs.Prelude.{◌≡◌, ◌+◌, ◌++◌, length, List, [], ◌∷◌, map, take, replicate, Result, Ok, Err, true, false};
ghost use Rattle.mls_model.specs.declared.lanes.LaneKind.TheVariants.{Client};
ghost use Rattle.mls_model.specs.declared.lanes.LaneEnd.TheVariants.{Clean, Cut, BadKind, BadLength};
ghost use Rattle.mls_model.specs.declared.lanes.TapeWhy.TheVariants as why;
ghost use Rattle.mls_model.specs.declared.outcomes.Outcome.TheVariants.{Accepted, Foreign, Quiet};
ghost use Rattle.mls_model.specs.declared.outcomes.Reason.TheVariants as reason;
ghost use Rattle.mls_model.specs.Numbers.{below, joined};
ghost use Rattle.mls_model.specs.Frames.{hello, welcome, refuse, piece, spelling, sight, whole, more};
ghost use Rattle.mls_model.specs.Lanes.{lane_of, tape_of, tape_bytes, refused};
ghost use Rattle.mls_model.specs.Outcomes.{outcomes};
ghost use Rattle.mls_model.specs.ResultText.{result_text};
ghost use Rattle.mls_model.specs.Schedules.{plain};
ghost use Rattle.mls_examples.specs.Small.{small_study, sent, client_lane};
ghost use Rattle.mls_examples.specs.Lanes.{save_bytes, one_save, two_groups_lane, two_groups_frames, two_groups_tape, signed_no_lane_tape, piece_0_bytes, no_lane_tape, tape_with, cut_bytes, ended, no_event, cut_text, bad_kind_text, foreign_lanes, foreign_text, empty_piece, empty_piece_bytes, huge_piece_bytes, empty_piece_text, group_frames, wrong_kinds, faulty_lanes};
ghost use Rattle.mls_examples.specs.Ranks.{survivors};

/// A piece of three samples has 35 bytes. Each proper prefix of them is too little to tell.
pub fn piece_of_three_samples()
    ensures spelling { spelling (sent 0 1 (1 ∷ 3 ∷ 3 ∷ [])) ≡ piece_0_bytes }
    ensures sight { sight piece_0_bytes ≡ whole (sent 0 1 (1 ∷ 3 ∷ 3 ∷ [])) 35 }
    ensures prefixes { map (λ n. sight (take n piece_0_bytes)) (below 35) ≡ replicate 35 more }
{}

/// The first frames of a connection: a hello, the answers to it, and a refusal of a group.
pub fn greetings()
    ensures hello { spelling (hello 1 0 1 0 0) ≡ 0 ∷ 0 ∷ 0 ∷ 15 ∷ 6 ∷ 0 ∷ 1 ∷ 0 ∷ 0 ∷ 0 ∷ 0 ∷ 0 ∷ 0 ∷ 0 ∷ 1 ∷ 0 ∷ 0 ∷ 0 ∷ 0 ∷ [] }
    ensures welcome { spelling (welcome 1) ≡ 0 ∷ 0 ∷ 0 ∷ 5 ∷ 7 ∷ 0 ∷ 0 ∷ 0 ∷ 1 ∷ [] }
    ensures refuse { spelling (refuse 2 7) ≡ 0 ∷ 0 ∷ 0 ∷ 6 ∷ 8 ∷ 2 ∷ 0 ∷ 0 ∷ 0 ∷ 7 ∷ [] }
    ensures hello_read { sight (spelling (hello 1 0 1 0 0)) ≡ whole (hello 1 0 1 0 0) 19 }
    ensures welcome_read { sight (spelling (welcome 1)) ≡ whole (welcome 1) 9 }
    ensures refuse_read { sight (spelling (refuse 2 7)) ≡ whole (refuse 2 7) 10 }
{}

/// A lane that ends inside its third frame has two events, and its text says where the rest begins.
pub fn cut_lane()
    ensures cut { lane_of 0 Client (cut_bytes 1) ≡ ended (Cut 70) }
    ensures bad_kind { lane_of 0 Client (cut_bytes 9) ≡ ended (BadKind 70) }
    ensures cut_text { result_text small_study (ended (Cut 70) ∷ []) (plain 1 (ended (Cut 70) ∷ [])) ≡ cut_text }
    ensures bad_kind_text { result_text small_study (ended (BadKind 70) ∷ []) (plain 1 (ended (BadKind 70) ∷ [])) ≡ bad_kind_text }
{}

/// A piece of too many cells, a piece of a group too many and a save on a client lane are foreign.
pub fn foreign_events()
    ensures outcomes { outcomes small_study.sizes 0 (survivors foreign_lanes (plain 1 foreign_lanes) 0) ≡ Foreign reason.Cells ∷ Foreign reason.Group ∷ Foreign reason.LaneKind ∷ [] }
    ensures text { result_text small_study foreign_lanes (plain 1 foreign_lanes) ≡ foreign_text }
{}

/// The reasons for which a piece is foreign are tried in one order: each piece has one fault less than the one before it.
pub fn reasons_in_order()
    ensures outcomes { outcomes small_study.sizes 0 (survivors faulty_lanes (plain 1 faulty_lanes) 0) ≡ Foreign reason.Rows ∷ Foreign reason.Group ∷ Foreign reason.Step ∷ Foreign reason.Client ∷ Foreign reason.Cells ∷ Accepted ∷ [] }
{}

/// A crash on a client lane loses nothing, and a piece on a control lane is not taken.
pub fn frames_on_wrong_lanes()
    ensures outcomes { outcomes small_study.sizes 0 (survivors wrong_kinds (plain 1 wrong_kinds) 0) ≡ Accepted ∷ Foreign reason.LaneKind ∷ Foreign reason.LaneKind ∷ [] }
{}

/// What a group sends after its greeting has 61 bytes, and is read as a beat, a piece and a bye.
pub fn lane_of_a_group()
    ensures size { length (joined (map spelling group_frames)) ≡ 61 }
    ensures lane { lane_of 0 Client (joined (map spelling group_frames)) ≡ client_lane group_frames }
    ensures outcomes { outcomes small_study.sizes 0 (survivors (client_lane group_frames ∷ []) (plain 1 (client_lane group_frames ∷ [])) 0) ≡ Quiet ∷ Accepted ∷ Quiet ∷ [] }
{}

/// Bytes that are no frame: how a lane of them ends. A piece without rows is a frame, and is foreign.
pub fn hostile_lanes()
    ensures prefixes { map (λ n. lane_of 0 Client (take (n + 1) piece_0_bytes)) (below 34) ≡ replicate 34 (no_event (Cut 0)) }
    ensures no_length { lane_of 0 Client (0 ∷ 0 ∷ 0 ∷ 0 ∷ []) ≡ no_event (BadLength 0) }
    ensures too_long { lane_of 0 Client (4 ∷ 0 ∷ 0 ∷ 1 ∷ []) ≡ no_event (BadLength 0) }
    ensures unknown { lane_of 0 Client (0 ∷ 0 ∷ 0 ∷ 1 ∷ 10 ∷ []) ≡ no_event (BadKind 0) }
    ensures even { lane_of 0 Client (0 ∷ 0 ∷ 0 ∷ 0x1a ∷ 1 ∷ []) ≡ no_event (BadLength 0) }
    ensures bad_size { lane_of 0 Client (0 ∷ 0 ∷ 0 ∷ 2 ∷ 4 ∷ []) ≡ no_event (BadLength 0) }
    ensures cut_after_one { lane_of 0 Client (save_bytes ++ 0 ∷ 0 ∷ []) ≡ one_save (Cut 5) }
    ensures bad_after_one { lane_of 0 Client (save_bytes ++ 0 ∷ 0 ∷ 0 ∷ 1 ∷ 9 ∷ []) ≡ one_save (BadKind 5) }
    ensures huge { lane_of 0 Client huge_piece_bytes ≡ no_event (BadLength 0) }
    ensures empty { lane_of 0 Client empty_piece_bytes ≡ client_lane (piece empty_piece ∷ []) }
    ensures empty_text { result_text small_study (client_lane (piece empty_piece ∷ []) ∷ []) (plain 1 (client_lane (piece empty_piece ∷ []) ∷ [])) ≡ empty_piece_text }
{}

/// Bytes that are no tape of one rank: the first fault and its place.
pub fn refused_tapes()
    ensures empty { tape_of 1 false [] ≡ refused 0 why.Cut }
    ensures magic { tape_of 1 false (0x4d ∷ 0x54 ∷ 0x41 ∷ 0x51 ∷ []) ≡ refused 0 why.Magic }
    ensures no_version { tape_of 1 false (0x4d ∷ 0x54 ∷ 0x41 ∷ 0x50 ∷ 0 ∷ []) ≡ refused 4 why.Cut }
    ensures version { tape_of 1 false (0x4d ∷ 0x54 ∷ 0x41 ∷ 0x50 ∷ 0 ∷ 3 ∷ []) ≡ refused 4 why.Version }
    ensures lanes { tape_of 1 false (0x4d ∷ 0x54 ∷ 0x41 ∷ 0x50 ∷ 0 ∷ 1 ∷ 0 ∷ 1 ∷ 0 ∷ 0 ∷ []) ≡ refused 6 why.TooManyLanes }
    ensures trailing { tape_of 1 false (no_lane_tape ++ 0 ∷ []) ≡ refused 10 why.Trailing }
    ensures kind { tape_of 1 false (tape_with (2 ∷ 0 ∷ 0 ∷ 0 ∷ 0 ∷ 0 ∷ 0 ∷ [])) ≡ refused 10 why.LaneKind }
    ensures rank { tape_of 1 false (tape_with (1 ∷ 0 ∷ 1 ∷ 0 ∷ 0 ∷ 0 ∷ 0 ∷ [])) ≡ refused 11 why.LaneRank }
    ensures length { tape_of 1 false (tape_with (1 ∷ 0 ∷ 0 ∷ 0 ∷ 0 ∷ 0 ∷ [])) ≡ refused 13 why.Cut }
    ensures bytes { tape_of 1 false (tape_with (1 ∷ 0 ∷ 0 ∷ 0 ∷ 0 ∷ 0 ∷ 2 ∷ 7 ∷ [])) ≡ refused 17 why.Cut }
{}

/// A tape is spelled in one way for each version, and what was spelled is read again.
pub fn spelled_tapes()
    ensures no_lane { tape_bytes false 1 [] ≡ no_lane_tape }
    ensures signed { tape_bytes true 2 [] ≡ signed_no_lane_tape }
    ensures spelled { tape_bytes false 1 (two_groups_lane ∷ []) ≡ two_groups_tape }
    ensures size { length two_groups_tape ≡ 87 }
    ensures read { tape_of 1 false two_groups_tape ≡ Ok (client_lane two_groups_frames ∷ []) }
    ensures read_signed { tape_of 1 true (tape_bytes true 2 []) ≡ Ok [] }
    ensures old_version { tape_of 1 true no_lane_tape ≡ refused 4 why.Version }
    ensures other_samples { tape_of 1 false signed_no_lane_tape ≡ refused 6 why.Samples }
{}
