ghost use Rattle.std.specs.Prelude.{◌≡◌, ◌<◌, ◌^◌, List, Option, Some, None, length, replicate, slice_set, IfOk, IsSome};
ghost use Rattle.tag_model.specs.declared.state.Run.{Run};
ghost use Rattle.cpu_ops.specs.Machine.{run_at, tag_in, is_outside};

use std::alloc::{AllocError, Global};
use std::marker::Model;
use tag_model::{Run, Tag};

/// One CPU's runs: for each section, that on the section's module.
#[derive(Drop)]
pub struct Inside {
    runs: Vec<Option<Run>>,
}

impl Model for Inside {
    ghost Value = { List (Option Run) };

    ghost view = { λ i. i.runs.items };
}

impl Inside {
    /// Inside no module of so many sections.
    pub fn new(alloc: Global, sections: u32) -> Result<Inside, AllocError>
        ensures { IfOk result (λ inside. inside ≡ replicate sections None) }
    {
        Ok(Inside {
            runs: vec![in alloc; None; sections as usize]?,
        })
    }

    /// The run on the section's module.
    pub fn run(&self, section: u32) -> Option<Run>
        requires { section < length self.now }
        ensures { result ≡ run_at self.now section }
    {
        self.runs[section as usize]
    }

    /// Whether the section is a module's, and the CPU isn't inside.
    pub fn is_outside(&self, section: u32) -> bool
        requires { section < length self.now }
        ensures { result ≡ is_outside section self.now }
    {
        section != 0 && self.run(section).is_none()
    }

    /// The tag of an index: the kernel's, or of the module that the CPU is inside.
    pub fn tag(&self, section: u32, index: u32) -> Tag
        requires section { section < length self.now }
        requires number { (tag_in self.now section index).number < 2 ^ 32 }
        ensures { result ≡ tag_in self.now section index }
    {
        let kernel = Tag {
            number: index,
            module: 0,
        };
        if section == 0 {
            return kernel;
        }
        match self.run(section) {
            Some(run) => Tag {
                number: run.start + index,
                module: run.id,
            },
            None => kernel,
        }
    }

    /// Sets the run on the section's module.
    pub fn set(&mut self, section: u32, run: Option<Run>)
        requires { section < length self.old }
        ensures { self.new ≡ slice_set self.old section run }
    {
        self.runs[section as usize] = run;
    }
}
