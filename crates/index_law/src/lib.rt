//! The law of indexes: what a write to a map changes in the sorted keys that its entries give.
#![tactic(auto)]

ghost use Rattle.std.specs.Prelude.{◌≡◌, List, Option};
ghost use Rattle.std.specs.List.Sorted.{IsStrictlySortedBy};
ghost use Rattle.std.specs.Map.{keys_of};
ghost use Rattle.index_law.specs.Index.{TellsApart, NameOwners, IndexIsKept};

/// The law: where each key of an index names the entry that gave it, a write of an entry changes the index by the keys that
/// the entry gave before and gives after, and by no others.
pub fn index_is_kept<C: Ord + Copy, X: Copy, K: Ord + Copy>()
    ensures { TellsApart C.cmp → TellsApart K.cmp → (keys : C × X → List K) (owner : K → C) → NameOwners K.cmp keys owner → (rows : List (C × X)) → IsStrictlySortedBy C.cmp (keys_of rows) → (c : C) (x : Option X) → IndexIsKept C.cmp K.cmp keys rows c x }
{}
