//! What holds of all that the readers give.

ghost use Rattle.std.specs.Prelude.{◌≡◌, ℕ, List, Ok};
ghost use Rattle.trace.specs.declared.traces.Trace.{Trace};
ghost use Rattle.trace.specs.Formed.{IsFormedTrace};
ghost use Rattle.trace.specs.TraceReading.{trace_of};

/// What a text spells is a formed trace.
pub fn traces_are_formed()
    ensures { (text : List ℕ) (trace : Trace) → trace_of text ≡ Ok trace → IsFormedTrace trace }
{}
