//! Laws of the list of all allowed sets, `every`. "Members" are the sets in it. A call of a
//! function here does nothing: its contract is the law.
ghost use Rattle.std.specs.Prelude.{◌≡◌, ◌≢◌, ◌+◌, ◌<◌, ℕ, Bool, false, true, List, [], length};
ghost use Rattle.std.specs.Prelude.{slice_index_or};
ghost use Rattle.std.specs.List.{All, AllPairs, Contains};
ghost use Rattle.cs_sets.specs.Chains.{IsBackward};
ghost use Rattle.cs_sets.specs.Sets.{IsAllowed};
ghost use Rattle.cs_sets.specs.Different.{IsLike, classes, different, firsts, leave_alike};
ghost use Rattle.cs_sets.specs.Every.{IsBefore, count, every};
ghost use Rattle.cs_sets.specs.Holes.{LacksOne, Loses, hole, is_kept};
ghost use Rattle.cs_sets.specs.Reach.{IsReach, IsTransitive};
ghost use Rattle.cs_sets.specs.Laws.Firsts.{Some_of};

/// Every set of the list is allowed, every allowed set is in it, and the sets ascend, so that each
/// is there once. There are as many as `count` finds.
pub fn members_are_the_allowed_sets()
    ensures allowed { (needs : ℕ → ℕ → Bool) (n : ℕ) → IsBackward needs
        → All (IsAllowed needs n) (every needs n) }
    ensures complete { (needs : ℕ → ℕ → Bool) (n : ℕ) (places : List ℕ) → IsBackward needs
        → IsAllowed needs n places → Contains (every needs n) places }
    ensures ascending { (needs : ℕ → ℕ → Bool) (n : ℕ) → IsBackward needs
        → AllPairs IsBefore (every needs n) }
    ensures once { (needs : ℕ → ℕ → Bool) (n a b : ℕ) → IsBackward needs → a < b
        → b < length (every needs n)
        → slice_index_or (every needs n) a [] ≢ slice_index_or (every needs n) b [] }
    ensures counted { (needs : ℕ → ℕ → Bool) (n : ℕ)
        → length (every needs n) ≡ count needs n 0 (λ j. true) }
{}

/// Of all sets that leave states alike, the first is enough. The sets that are found place by
/// place, one of each class, leave the same states as the first ones of the whole list, in the same
/// order. Each allowed set has one among them that leaves a state like its own; two of them never
/// leave states alike; and each is allowed. States are numbers here.
pub fn different_members_leave_all()
    ensures same { (act : ℕ → ℕ → ℕ) (start : ℕ) (same like : ℕ → ℕ → Bool)
        (needs : ℕ → ℕ → Bool) (n : ℕ) → IsBackward needs → IsLike same → IsLike like
        → ((s t : ℕ) → same s t ≡ true → like s t ≡ true)
        → ((s t k : ℕ) → same s t ≡ true → same (act s k) (act t k) ≡ true)
        → firsts (leave_alike like act start) (classes same act start needs n n)
        ≡ different like act start needs n }
    ensures each { (act : ℕ → ℕ → ℕ) (start : ℕ) (like : ℕ → ℕ → Bool)
        (needs : ℕ → ℕ → Bool) (n : ℕ) (places : List ℕ) → IsBackward needs → IsLike like
        → IsAllowed needs n places
        → Some_of (λ a. leave_alike like act start a places) (different like act start needs n) }
    ensures apart { (act : ℕ → ℕ → ℕ) (start : ℕ) (like : ℕ → ℕ → Bool)
        (needs : ℕ → ℕ → Bool) (n : ℕ) → IsLike like
        → AllPairs (λ a b. leave_alike like act start a b ≡ false)
        (different like act start needs n) }
    ensures allowed { (act : ℕ → ℕ → ℕ) (start : ℕ) (like : ℕ → ℕ → Bool)
        (needs : ℕ → ℕ → Bool) (n : ℕ) → IsBackward needs → IsLike like
        → All (IsAllowed needs n) (different like act start needs n) }
{}

/// An order has the same allowed sets if a place needs directly all that it needed by a chain. That
/// relation is transitive, as the count and the drawing require.
pub fn chains_have_the_same_members()
    ensures same { (needs reach : ℕ → ℕ → Bool) (n : ℕ) → IsReach needs reach
        → every needs n ≡ every reach n }
    ensures passes_on { (needs reach : ℕ → ℕ → Bool) → IsReach needs reach → IsTransitive reach }
{}

/// What a plan with holes covers. If some allowed set has place `k` and lacks place `i`, then the
/// plan has the hole of `i` that ends with `k`, which has `k` and lacks `i`, too. And if an allowed
/// set, of the places up to its last place `k`, lacks only `i` and what needs `i`, it is that hole.
pub fn holes_cover_pairs()
    ensures kept { (needs : ℕ → ℕ → Bool) (n i k : ℕ) (places : List ℕ) → IsBackward needs
        → IsAllowed needs n places → Loses i k places → is_kept needs i k ≡ true }
    ensures loses { (needs : ℕ → ℕ → Bool) (i k : ℕ) → IsBackward needs → i < k
        → is_kept needs i k ≡ true → Loses i k (hole needs i (k + 1)) }
    ensures single { (needs : ℕ → ℕ → Bool) (n i k : ℕ) (places : List ℕ) → IsBackward needs
        → k < n → IsAllowed needs n places → LacksOne needs i k places
        → places ≡ hole needs i (k + 1) }
{}
