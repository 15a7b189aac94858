//! Laws about texts.

ghost use Rattle.std.specs.Prelude.{◌≡◌, ◌≤◌, ◌<◌, ◌⊎◌, length, ℕ, List, Ok, Err};
ghost use Rattle.act_wkt.specs.Grammar.{IsWkt, points_of};
ghost use Rattle.act_wkt.specs.Reading.{Fault, Rings};
ghost use Rattle.act_wkt.specs.Spelling.{AreRings, spelling};
ghost use Rattle.act_wkt.specs.Wkt.{joined_at, polygon_at, ring_at, wkt_of};

/// What `wkt_of` says of a text is what the grammar says: each text has one shape or one fault, and not both.
#[tactic(auto, using(crate::proofs::WholeLaws::sound, crate::proofs::WholeLaws::complete))]
pub fn one_shape_or_fault()
    ensures sound { (digits : ℕ) (text : List ℕ) (rings : Rings) → wkt_of digits text ≡ Ok rings → IsWkt digits text rings }
    ensures complete { (digits : ℕ) (text : List ℕ) (rings : Rings) → IsWkt digits text rings → wkt_of digits text ≡ Ok rings }
    ensures one { (digits : ℕ) (text : List ℕ) (rings others : Rings) → IsWkt digits text rings → IsWkt digits text others → rings ≡ others }
    ensures either { (digits : ℕ) (text : List ℕ) → ((rings : Rings) × IsWkt digits text rings) ⊎ ((fault : Fault) × (wkt_of digits text ≡ Err fault) × ((rings : Rings) → IsWkt digits text rings → ⊥)) }
{}

/// As each item of a list takes a byte, the number of items that the definition lets a list have decides nothing.
pub fn no_list_is_cut_off()
    ensures rings { (digits more most room : ℕ) (text : List ℕ) → length text < more → length text < most → joined_at (ring_at digits) more room text ≡ joined_at (ring_at digits) most room text }
    ensures polygons { (digits more most room : ℕ) (text : List ℕ) → length text < more → length text < most → joined_at (polygon_at digits) more room text ≡ joined_at (polygon_at digits) most room text }
{}

/// What is written of rings is read as these rings, where their points are few enough for a text.
pub fn spelling_is_read_again()
    ensures grammar { (digits : ℕ) (rings : Rings) → AreRings rings → points_of rings ≤ 262144 → IsWkt digits (spelling digits rings) rings }
    ensures read { (digits : ℕ) (rings : Rings) → AreRings rings → points_of rings ≤ 262144 → wkt_of digits (spelling digits rings) ≡ Ok rings }
{}
