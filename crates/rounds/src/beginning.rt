//! A run begins.

ghost use Rattle.std.specs.Prelude.{◌≡◌};
ghost use Rattle.std.specs.Arc.{arc_value};
ghost use Rattle.tag_model.specs.declared.shape.Shape as shapes;
ghost use Rattle.plant.specs.Fresh.{FitsShape, IsStarted};
ghost use Rattle.trace.specs.declared.traces.Trace.{Trace};
ghost use Rattle.trace_play.specs.Machine.{machine_of};
ghost use Rattle.rounds.specs.Turns.{StandsAt};

use crate::Desk;
use plant::Started;
use round_keys::KeyStore;
use std::alloc::Global;
use std::sync::Arc;
use tag_section::Sections;

impl Desk {
    /// The desk of a run that begins, with the sections of its trace and so many tags for modules.
    pub fn begin(
        alloc: Global,
        started: Started,
        sections: Arc<Sections, Global>,
        tags: u32,
    ) -> Desk
        ensures { (k : shapes.Shape) (trace : Trace) → (s : IsStarted k trace trace.sections started) → FitsShape k trace → arc_value sections ≡ trace.sections → tags ≡ trace.area → StandsAt s.board trace (machine_of trace) result }
    {
        let Started {
            cpus,
            workers,
            locked,
            pass,
            ..
        } = started;
        Desk {
            alloc,
            cpus,
            workers,
            keys: KeyStore::new(alloc),
            locked,
            pass,
            sections,
            tags,
        }
    }
}
