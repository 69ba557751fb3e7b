//! The hooks of each CPU, and the modules that it is inside.

ghost use Rattle.std.specs.Prelude.{◌≡◌, ◌==◌, ◌<◌, not, length, slice_set, take, vec_len, IfOk, OnOk, ◌-◌, ◌++◌, ◌∷◌, [], count_by};
ghost use Rattle.std.specs.List.{filter, list_any};
ghost use Rattle.round_check.specs.Cpus.{idle, idle_cpus, cpu_at, is_inside};

use std::alloc::{AllocError, Global};
use std::marker::Model;

/// The sections of the tags of the hooks that are out, the last one at the end, and those of the modules that the
/// CPU is inside.
#[derive(Debug, Drop)]
pub(crate) struct CpuLists {
    hooks: Vec<u32>,
    inside: Vec<u32>,
}

impl Model for CpuLists {
    ghost use Rattle.round_check.specs.CpuState.{CpuState};

    ghost Value = { CpuState };

    ghost view = { λ lists. record { hooks = lists.hooks.items; inside = lists.inside.items } };
}

fn remove_all(sections: &mut Vec<u32>, section: u32)
    ensures { sections.new.items ≡ filter (λ other. not (other == section)) sections.old.items }
{
    sections.retain(|other| *other != section);
}

impl CpuLists {
    fn new(alloc: Global) -> CpuLists
        ensures { result ≡ idle }
    {
        CpuLists {
            hooks: Vec::new(alloc),
            inside: Vec::new(alloc),
        }
    }

    fn hook(&mut self, section: u32) -> Result<(), AllocError>
        ensures { OnOk result (self.new ≡ record self.old { hooks = self.old.hooks ++ section ∷ [] }) }
    {
        self.hooks.push(section)?;
        Ok(())
    }

    fn unhook(&mut self)
        ensures { self.new ≡ record self.old { hooks = take (length self.old.hooks - 1) self.old.hooks } }
    {
        let _last = self.hooks.pop();
    }

    fn enter(&mut self, section: u32) -> Result<(), AllocError>
        ensures { OnOk result (self.new ≡ record self.old { inside = self.old.inside ++ section ∷ [] }) }
    {
        self.inside.push(section)?;
        Ok(())
    }

    fn leave(&mut self, section: u32)
        ensures { self.new ≡ record self.old { inside = filter (λ other. not (other == section)) self.old.inside } }
    {
        remove_all(&mut self.inside, section);
    }

    fn hooks_out(&self) -> usize
        ensures { result ≡ length self.now.hooks }
    {
        self.hooks.len()
    }

    fn is_hooked(&self, section: u32) -> bool
        ensures { result ≡ list_any (λ other. other == section) self.now.hooks }
    {
        self.hooks.iter().any(|other| *other == section)
    }

    fn is_inside(&self, section: u32) -> bool
        ensures { result ≡ is_inside section self.now }
    {
        self.inside.iter().any(|other| *other == section)
    }
}

/// The most CPUs.
pub(crate) const CPU_COUNT: usize = 64;

/// The states of all CPUs, by CPU.
#[derive(Debug, Drop)]
pub struct CpuTable {
    cpus: Vec<CpuLists>,
}

impl Model for CpuTable {
    ghost use Rattle.std.specs.Prelude.{◌≡◌, List, vec_len};
    ghost use Rattle.round_check.specs.CpuState.{CpuState};

    ghost Value = { List CpuState };

    ghost view = { λ table. table.cpus.items };

    ghost invariant = { λ table. vec_len table.cpus ≡ 64 };
}

#[tactic(auto, unfolding(crate::specs::Cpus::idle_cpus))]
fn idle_cpus(alloc: Global, count: usize) -> Result<Vec<CpuLists>, AllocError>
    ensures items { IfOk result (λ cpus. cpus.items ≡ idle_cpus count) }
    ensures len { IfOk result (λ cpus. vec_len cpus ≡ count) }
{
    let mut cpus = Vec::new(alloc);
    for _ in 0..count {
        cpus.push(CpuLists::new(alloc))?;
    }
    Ok(cpus)
}

impl CpuTable {
    /// No hook is out, and no CPU is inside a module.
    pub(crate) fn new(alloc: Global) -> Result<CpuTable, AllocError>
        ensures { IfOk result (λ table. table ≡ idle_cpus 64) }
    {
        Ok(CpuTable {
            cpus: idle_cpus(alloc, CPU_COUNT)?,
        })
    }

    pub(crate) fn hook(&mut self, cpu: u32, section: u32) -> Result<(), AllocError>
        requires { cpu < 64 }
        ensures { OnOk result (self.new ≡ slice_set self.old cpu (record (cpu_at self.old cpu) { hooks = (cpu_at self.old cpu).hooks ++ section ∷ [] })) }
    {
        let lists = &mut self.cpus[cpu as usize];
        lists.hook(section)
    }

    pub(crate) fn unhook(&mut self, cpu: u32)
        requires { cpu < 64 }
        ensures { self.new ≡ slice_set self.old cpu (record (cpu_at self.old cpu) { hooks = take (length (cpu_at self.old cpu).hooks - 1) (cpu_at self.old cpu).hooks }) }
    {
        let lists = &mut self.cpus[cpu as usize];
        lists.unhook();
    }

    pub(crate) fn enter(&mut self, cpu: u32, section: u32) -> Result<(), AllocError>
        requires { cpu < 64 }
        ensures { OnOk result (self.new ≡ slice_set self.old cpu (record (cpu_at self.old cpu) { inside = (cpu_at self.old cpu).inside ++ section ∷ [] })) }
    {
        let lists = &mut self.cpus[cpu as usize];
        lists.enter(section)
    }

    pub(crate) fn leave(&mut self, cpu: u32, section: u32)
        requires { cpu < 64 }
        ensures { self.new ≡ slice_set self.old cpu (record (cpu_at self.old cpu) { inside = filter (λ other. not (other == section)) (cpu_at self.old cpu).inside }) }
    {
        let lists = &mut self.cpus[cpu as usize];
        lists.leave(section);
    }

    pub(crate) fn hooks_out(&self, cpu: u32) -> usize
        requires { cpu < 64 }
        ensures { result ≡ length (cpu_at self.now cpu).hooks }
    {
        let lists = &self.cpus[cpu as usize];
        lists.hooks_out()
    }

    pub(crate) fn is_hooked(&self, cpu: u32, section: u32) -> bool
        requires { cpu < 64 }
        ensures { result ≡ list_any (λ other. other == section) (cpu_at self.now cpu).hooks }
    {
        let lists = &self.cpus[cpu as usize];
        lists.is_hooked(section)
    }

    pub(crate) fn is_inside(&self, cpu: u32, section: u32) -> bool
        requires { cpu < 64 }
        ensures { result ≡ is_inside section (cpu_at self.now cpu) }
    {
        let lists = &self.cpus[cpu as usize];
        lists.is_inside(section)
    }

    /// How many CPUs are inside a module.
    pub(crate) fn users(&self, section: u32) -> u32
        ensures { result ≡ count_by (is_inside section) self.now }
    {
        self.cpus
            .iter()
            .filter(|lists| lists.is_inside(section))
            .count() as u32
    }
}
