//! Between rounds: what a worker is told, the keys that it gets and gives, and storage that goes home.

ghost use Rattle.std.specs.Prelude.{◌≡◌, [], All, IfSome, OnOk, map, option_map};
ghost use Rattle.tag_ref.specs.Refs.{moved_by};
ghost use Rattle.slab_cache.specs.Homing.{come_home};
ghost use Rattle.slab_cache.specs.Storage.{home_of};
ghost use Rattle.trace_play.specs.Fits.{entry_at};
ghost use Rattle.trace_play.specs.Fitting.{IsOf};
ghost use Rattle.trace_play.specs.Live as live;
ghost use Rattle.round_worker.specs.Kept.{IsKept, content_of, live_of};
ghost use Rattle.round_worker.specs.Parting.{AreKept};
ghost use Rattle.round_worker.specs.Shown.{Beside};
ghost use Rattle.round_worker.specs.Working.{IsGoing, going_storage, with_node, with_returning};

use crate::keys::{Kept, Keys};
use crate::worker::{Going, Worker};
use module_area::Entry;
use page_ext::take_back;
use slab_cache::take_home;
use std::alloc::AllocError;
use std::mem;
use tag_rule::CpuSeat;

impl Going {
    /// The CPU whose node the storage is of.
    pub fn home(&self) -> u32
        ensures { result ≡ home_of (going_storage self.now) }
    {
        match self {
            Going::Block(returned) => returned.home(),
            Going::Object(back) => back.home(),
        }
    }
}

impl Worker {
    /// Tells the modules as the round begins.
    pub fn know(&mut self, modules: &[Entry]) -> Result<(), AllocError>
        ensures { OnOk result (self.new ≡ record self.old { entries = modules.now }) }
    {
        self.entries = Vec::from_slice(self.alloc, modules)?;
        Ok(())
    }

    /// Takes a key from the worker, with what it is bound to.
    pub fn take(&mut self, key: u32) -> Option<Kept>
        ensures content { option_map content_of result ≡ entry_at key self.old.live }
        ensures own { IfSome result (IsKept self.old.board) }
        ensures rest { self.new ≡ record self.old { live = live.without key self.old.live } }
    {
        self.keys.take(key)
    }

    /// Hands the worker a key with what it is bound to.
    pub fn put(&mut self, key: u32, kept: Kept) -> Result<(), AllocError>
        requires { IsKept self.old.board kept }
        ensures { OnOk result (self.new ≡ record self.old { live = live.put key (content_of kept) self.old.live }) }
    {
        self.keys.put(key, kept)
    }

    /// Gives all keys away, each with what it is bound to.
    pub fn give_keys(&mut self) -> Keys
        ensures live { live_of result ≡ self.old.live }
        ensures own { AreKept self.old.board result }
        ensures none { self.new ≡ record self.old { live = [] } }
    {
        mem::replace(&mut self.keys, Keys::new(self.alloc))
    }

    /// What the worker freed of other nodes, in the order of its frees.
    pub fn returned(&mut self) -> Vec<Going>
        ensures storage { map going_storage result.items ≡ self.old.seat.returning }
        ensures own { All (IsGoing self.old.board) result.items }
        ensures none { self.new ≡ with_returning [] self.old }
    {
        mem::replace(&mut self.returning, Vec::new(self.alloc))
    }

    /// Takes storage home that was freed on another CPU.
    pub fn take_home(&mut self, cpu: &mut CpuSeat, going: Going)
        requires beside { Beside self.old cpu.old }
        requires table { IsGoing self.old.board going }
        requires home { home_of (going_storage going) ≡ self.old.cpu }
        requires there { IsOf self.old.seat.node (going_storage going) }
        ensures node { self.new ≡ with_node (come_home (going_storage going) self.old.seat.node).node self.old }
        ensures cpu { cpu.new ≡ moved_by (come_home (going_storage going) self.old.seat.node).moves cpu.old }
    {
        match going {
            Going::Block(returned) => take_back(self.node.node_mut(), returned),
            Going::Object(back) => take_home(cpu, &mut self.node, back),
        }
    }
}
