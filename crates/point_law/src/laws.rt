//! What holds of a point that is on no edge of any holder's map at a moment.

ghost use Rattle.std.specs.Prelude.{◌≡◌, ◌≢◌, ℤ, ℕ, List, IsFalse, IsTrue};
ghost use Rattle.rd_plane.specs.Covering.{cover_count, covers_any};
ghost use Rattle.rd_plane.specs.Plane.{Point, off};
ghost use Rattle.local_check.specs.Maps.{ground_of};
ghost use Rattle.map_rules.specs.Good.{Good};
ghost use Rattle.map_rules.specs.State.{State, area_at, edges_of, map_at, parts_at};

/// Where all is right at every moment, such a point lies in the area of one holder at most. Where it lies in one it lies in exactly one
/// ground part of that holder, and in none of any other; where it lies in no area it lies in no ground part.
pub fn one_area_and_one_part()
    ensures area { (s : State) (moment : ℤ) (p : Point) → Good s → ((h : List ℕ) → IsTrue (off p (edges_of (map_at moment h s)))) → (holder other : List ℕ)
        → IsTrue (covers_any p (area_at moment holder s.areas)) → IsTrue (covers_any p (area_at moment other s.areas)) → holder ≡ other }
    ensures part { (s : State) (moment : ℤ) (p : Point) → Good s → ((h : List ℕ) → IsTrue (off p (edges_of (map_at moment h s)))) → (holder : List ℕ)
        → IsTrue (covers_any p (area_at moment holder s.areas)) → cover_count p (ground_of (parts_at moment holder s.versions)) ≡ 1 }
    ensures others { (s : State) (moment : ℤ) (p : Point) → Good s → ((h : List ℕ) → IsTrue (off p (edges_of (map_at moment h s)))) → (holder other : List ℕ)
        → IsTrue (covers_any p (area_at moment holder s.areas)) → other ≢ holder → cover_count p (ground_of (parts_at moment other s.versions)) ≡ 0 }
    ensures outside { (s : State) (moment : ℤ) (p : Point) → Good s → ((h : List ℕ) → IsTrue (off p (edges_of (map_at moment h s)))) → (holder : List ℕ)
        → IsFalse (covers_any p (area_at moment holder s.areas)) → cover_count p (ground_of (parts_at moment holder s.versions)) ≡ 0 }
{}
