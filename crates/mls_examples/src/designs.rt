//! The design of a small study: its words, values, text and the solver's samples.

ghost use Rattle.std.specs.Prelude.{◌≡◌, [], ◌∷◌, codes, map, pos, negsuc};
ghost use Rattle.mls_model.specs.Numbers.{below};
ghost use Rattle.mls_model.specs.Designs.{word, design_text, inputs, solve, values};
ghost use Rattle.mls_examples.specs.Designs.{designed_study, negative_study};

/// The first six words of seed 42, as the reference generator of PCG gives them.
pub fn six_words()
    ensures { map (word 42) (below 6) ≡ 0xa15c02b7 ∷ 0x7b47f409 ∷ 0xba1d3330 ∷ 0x83d2f293 ∷ 0xbfa4784b ∷ 0xcbed606e ∷ [] }
{}

/// Two groups of one parameter that has all values of 32 bits.
pub fn design_of_two_groups()
    ensures { design_text designed_study ≡ codes "melissa-design 1\ngroup 0 sim 0 2707161783\ngroup 0 sim 1 2068313097\ngroup 0 sim 2 2068313097\ngroup 1 sim 0 3122475824\ngroup 1 sim 1 2211639955\ngroup 1 sim 2 2211639955\nend\n" }
{}

/// The samples that the solver gives for these values in the first cell.
pub fn solved_samples()
    ensures inputs { map (λ group. map (inputs designed_study group) (below 2)) (below 2) ≡ ((645 ∷ []) ∷ (493 ∷ []) ∷ []) ∷ ((744 ∷ []) ∷ (527 ∷ []) ∷ []) ∷ [] }
    ensures samples { map (λ group. map (λ sim. solve designed_study group sim 0 0 0) (below 2)) (below 2) ≡ (670 ∷ 507 ∷ []) ∷ (777 ∷ 543 ∷ []) ∷ [] }
{}

/// From -4,294,967,296 to -1 a word gives the value of the same distance from the least.
pub fn negative_values()
    ensures { map (values negative_study 0) (below 3) ≡ (negsuc 1587805512 ∷ []) ∷ (negsuc 2226654198 ∷ []) ∷ (negsuc 2226654198 ∷ []) ∷ [] }
{}
