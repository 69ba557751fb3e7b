//! The parts of a state: which one is whose, and what is left beside them all. The functions do nothing: what they promise
//! are laws of the definitions.

ghost use Rattle.std.specs.Prelude.{ℕ, ◌≡◌, List, ◌++◌, sum_by};
ghost use Rattle.tag_model.specs.Laws.{Safe};
ghost use Rattle.tag_model.specs.StepRules.{Becomes, Stands};
ghost use Rattle.tag_model.specs.Telling.{AreAllLent, CpuOf, ListOf, PassOf};
ghost use Rattle.tag_model.specs.WordState.{is_cpu, is_list, is_pass};
ghost use Rattle.tag_model.specs.declared.shape.Shape.{Shape};
ghost use Rattle.tag_model.specs.declared.state.Held.{Held};
ghost use Rattle.tag_model.specs.declared.state.Part.TheVariants.{Place};
ghost use Rattle.tag_model.specs.declared.state.Part.{Part};

/// Parts that stand together in a state stand there alone.
pub fn parts_stand_alone()
    ensures front { (v w parts : List Part) → Stands (v ++ w) parts → Stands v parts }
    ensures back { (v w parts : List Part) → Stands (v ++ w) parts → Stands w parts }
{}

/// Parts that become themselves beside others may be left out of what is said of these.
pub fn parts_beside_a_step_may_be_left_out()
    ensures behind { (v w more old new : List Part) → Becomes (v ++ more) (w ++ more) old new → Becomes v w old new }
    ensures before { (v w more old new : List Part) → Becomes (more ++ v) (more ++ w) old new → Becomes v w old new }
{}

/// Where there is one CPU of a number, it stands among the parts; so do the module list and the right to give the next
/// id.
pub fn the_one_of_a_kind_stands()
    ensures cpu { (n : ℕ) (parts : List Part) → sum_by (is_cpu n) parts ≡ 1 → CpuOf n parts }
    ensures list { (parts : List Part) → sum_by is_list parts ≡ 1 → ListOf parts }
    ensures pass { (parts : List Part) → sum_by is_pass parts ≡ 1 → PassOf parts }
{}

/// Where all CPUs, the module list and the right to give the next id are among the parts that are lent, each sum to
/// which no place adds is that of the parts that are lent.
pub fn all_but_places_may_be_lent()
    ensures { (k : Shape) (lent parts : List Part) (weight : Part → ℕ) → AreAllLent k lent → Stands lent parts → Safe k parts → ((n : ℕ) (held : Held) → weight (Place n held) ≡ 0) → sum_by weight parts ≡ sum_by weight lent }
{}
