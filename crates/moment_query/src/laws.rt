//! The law of the word for a point: there is one, and no other.

ghost use Rattle.std.specs.Prelude.{◌≡◌, ℤ, ℕ, List};
ghost use Rattle.rd_plane.specs.Plane.{Vertex};
ghost use Rattle.map_rules.specs.Good.{Good};
ghost use Rattle.map_rules.specs.State.{State};
ghost use Rattle.moment_query.specs.Points.{point_word, IsPointWord};

use point_law::laws::one_area_and_one_part;

/// Where all is right at every moment, there is a word for each point: off the borders it lies in one ground part at most. In no
/// state are there two.
pub fn one_word()
    ensures is { (s : State) (moment : ℤ) (p : Vertex) → Good s → IsPointWord s moment p (point_word s moment p) }
    ensures only { (s : State) (moment : ℤ) (p : Vertex) (word : List ℕ) → IsPointWord s moment p word → word ≡ point_word s moment p }
{
    one_area_and_one_part();
}
