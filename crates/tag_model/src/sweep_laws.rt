//! The laws of a sweep, as its list sees them: how many words it reads, what becomes of each dead record that it listed,
//! and what a stop says. The functions do nothing: what they promise are laws of the definitions.

ghost use Rattle.std.specs.List.{list_any};
ghost use Rattle.std.specs.Prelude.{ℕ, ◌≡◌, ◌<◌, ◌≤◌, ◌*◌, IsTrue, List, []};
ghost use Rattle.tag_model.specs.Laws.{ids_of, is_reading, rises_from, sweep_fits};
ghost use Rattle.tag_model.specs.StepRules.{Enters, Leaves, Loads, MarksDead, Releases, Scans, Sweeps, dead_ids};
ghost use Rattle.tag_model.specs.Sweeping.{are_above_zero, ids_left, is_accounted, is_off, reads_left, steps_left, tags_of};
ghost use Rattle.tag_model.specs.declared.shape.Shape.{Shape};
ghost use Rattle.tag_model.specs.declared.state.CpuPart.{CpuPart};
ghost use Rattle.tag_model.specs.declared.state.Kind.TheVariants.{Bytes};
ghost use Rattle.tag_model.specs.declared.state.ListPart.{ListPart};
ghost use Rattle.tag_model.specs.declared.state.Part.TheVariants.{Modules};
ghost use Rattle.tag_model.specs.declared.state.Reader.{Reader};
ghost use Rattle.tag_model.specs.declared.state.Record.{Record};

/// Each read leaves fewer reads, and each read or release fewer steps. A sweep of all dead records that begins has at
/// most two reads for each CPU and each of their tags, and a sweep of one record so many for its tags. A sweep that
/// begins where a record is dead reads.
pub fn a_sweep_has_a_read_bound()
    ensures reads_fall { (k : Shape) (left : List ℕ) (r : Reader) (cpu : CpuPart) (old new : ListPart) → IsTrue (rises_from 0 (ids_of old.records)) → IsTrue (sweep_fits k old.sweep old.records) → Scans k left r cpu old new → reads_left k new.records new.sweep < reads_left k old.records old.sweep }
    ensures scans_fall { (k : Shape) (left : List ℕ) (r : Reader) (cpu : CpuPart) (old new : ListPart) → IsTrue (rises_from 0 (ids_of old.records)) → IsTrue (sweep_fits k old.sweep old.records) → Scans k left r cpu old new → steps_left k new.records new.sweep < steps_left k old.records old.sweep }
    ensures releases_fall { (k : Shape) (left : List ℕ) (id : ℕ) (old new : ListPart) → Releases left id old new → steps_left k new.records new.sweep < steps_left k old.records old.sweep }
    ensures of_all { (k : Shape) (old new : ListPart) → IsTrue (rises_from 0 (ids_of old.records)) → Sweeps old new → reads_left k new.records new.sweep ≤ 2 * k.cpus * tags_of (dead_ids old.records) old.records }
    ensures of_one { (k : Shape) (old new : ListPart) (row : MarksDead old new) → IsTrue (rises_from 0 (ids_of old.records)) → reads_left k new.records new.sweep ≤ 2 * k.cpus * row.entry.length }
    ensures lists_all { (old new : ListPart) → Sweeps old new → ids_left new.sweep ≡ dead_ids old.records }
    ensures some_read { (old new : ListPart) → Sweeps old new → IsTrue (list_any (λ (r : Record). r.dead) old.records) → is_reading Bytes (Modules new) ≡ 1 }
{}

/// Each dead record that a sweep listed as it began is on its list or has a stop, as long as it is there: so it is after
/// the beginning, and no read, release, load, enter or leave changes that.
pub fn each_dead_record_is_listed_or_has_a_stop()
    ensures of_all { (old new : ListPart) (id : ℕ) → Sweeps old new → IsTrue (is_accounted id new) }
    ensures of_one { (old new : ListPart) (row : MarksDead old new) → IsTrue (is_accounted row.entry.id new) }
    ensures scans { (k : Shape) (left : List ℕ) (r : Reader) (cpu : CpuPart) (old new : ListPart) (id : ℕ) → Scans k left r cpu old new → IsTrue (is_accounted id old) → IsTrue (is_accounted id new) }
    ensures releases { (left : List ℕ) (gone : ℕ) (old new : ListPart) (id : ℕ) → Releases left gone old new → IsTrue (is_accounted id old) → IsTrue (is_accounted id new) }
    ensures loads { (k : Shape) (section start length next : ℕ) (old new : ListPart) (id : ℕ) → Loads k section start length next old new → IsTrue (is_accounted id old) → IsTrue (is_accounted id new) }
    ensures enters { (old new : ListPart) (id : ℕ) → Enters old new → IsTrue (is_accounted id old) → IsTrue (is_accounted id new) }
    ensures leaves { (old new : ListPart) (id : ℕ) → Leaves old new → IsTrue (is_accounted id old) → IsTrue (is_accounted id new) }
{}

/// A record with a stop is off the sweep's list: so it is where a sweep begins, and no read or release changes that.
pub fn a_record_with_a_stop_is_off_the_list()
    ensures begins { (old new : ListPart) (id : ℕ) → new.stops ≡ [] → IsTrue (is_off id new) }
    ensures scans { (k : Shape) (left : List ℕ) (r : Reader) (cpu : CpuPart) (old new : ListPart) (id : ℕ) → Scans k left r cpu old new → IsTrue (is_off id old) → IsTrue (is_off id new) }
    ensures releases { (left : List ℕ) (gone : ℕ) (old new : ListPart) (id : ℕ) → Releases left gone old new → IsTrue (is_off id old) → IsTrue (is_off id new) }
{}

/// No stop that a read adds has the sum 0; no other step adds one.
pub fn no_stop_has_the_sum_0()
    ensures scans { (k : Shape) (left : List ℕ) (r : Reader) (cpu : CpuPart) (old new : ListPart) → Scans k left r cpu old new → IsTrue (are_above_zero old.stops) → IsTrue (are_above_zero new.stops) }
    ensures of_all { (old new : ListPart) → Sweeps old new → new.stops ≡ [] }
    ensures of_one { (old new : ListPart) → MarksDead old new → new.stops ≡ [] }
    ensures releases { (left : List ℕ) (gone : ℕ) (old new : ListPart) → Releases left gone old new → new.stops ≡ old.stops }
    ensures loads { (k : Shape) (section start length next : ℕ) (old new : ListPart) → Loads k section start length next old new → new.stops ≡ old.stops }
    ensures enters { (old new : ListPart) → Enters old new → new.stops ≡ old.stops }
    ensures leaves { (old new : ListPart) → Leaves old new → new.stops ≡ old.stops }
{}
