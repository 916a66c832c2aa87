//! Worked tables in numbers, in which a key is its own hash or each has hash 0: what an insertion and searches that find
//! nothing cost, in the words of the clauses `cost` of their calls, whatever was done before. These functions do nothing.
ghost use Rattle.std.specs.Prelude.{◌≡◌, ℕ, [], ◌∷◌, None, false, true, map, nat_eq};
ghost use Rattle.halfbrown.specs.Costs.{insert_cost, key_search_cost, search_cost};
ghost use Rattle.halfbrown.specs.Pairs.{swap_out};
ghost use Rattle.halfbrown.specs.State.{State};
ghost use Rattle.half_callers.specs.Tables.{exact, pairs_of, some_table};

/// Keys 3, 7 and 11 are in buckets 3, 0 and 1 of four, and 15 has their home. Its insertion reads all four to search it. The
/// table grows to eight buckets, where keys 7 and 15 have the last one as their home, and the insertion probe reads two.
pub fn an_insertion_that_grows()
    ensures { (any : State ℕ ℕ ℕ)
        → insert_cost 0 nat_eq (λ _ key. key) (some_table any (pairs_of (3 ∷ 7 ∷ 11 ∷ [])) 3) 15 true ≡ exact 1 0 6 }
{}

/// Keys 6, 14, 7, 15 and 0 are in buckets 6, 7, 0, 1 and 2 of eight. Once 6 is removed the others are in buckets 6, 7, 0 and 1:
/// searches for 8, 22, 23 and 3 read three, five and four buckets, and one.
pub fn after_a_removal()
    ensures { (any : State ℕ ℕ ℕ) → map (key_search_cost nat_eq (λ _ key. key)
        (some_table any (swap_out nat_eq (pairs_of (6 ∷ 14 ∷ 7 ∷ 15 ∷ 0 ∷ [])) 6) 6)) (8 ∷ 22 ∷ 23 ∷ 3 ∷ [])
        ≡ map (exact 1 0) (3 ∷ 5 ∷ 4 ∷ 1 ∷ []) }
{}

/// Keys 1, 2 and 3 of hash 0 are in buckets 0, 1 and 2 of four. A match is asked only of the keys of its hash: of all three
/// under hash 0, where it refuses each, and of none under hash 5, whose home is bucket 1.
pub fn by_a_match()
    ensures of_0 { search_cost (λ _. 0) 0 None 0 false 3 (pairs_of (1 ∷ 2 ∷ 3 ∷ [])) ≡ exact 0 3 4 }
    ensures of_5 { search_cost (λ _. 0) 5 None 0 false 3 (pairs_of (1 ∷ 2 ∷ 3 ∷ [])) ≡ exact 0 0 3 }
{}
