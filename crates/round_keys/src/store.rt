//! The store of keys.

ghost use Rattle.std.specs.Prelude.{◌≡◌, ◌==◌, [], IsTrue, OnErr, OnOk, not};
ghost use Rattle.std.specs.FinMap.Entries.{find, is_sorted, put, where_key};
ghost use Rattle.std.specs.Ordering.{nat_cmp};

use crate::pages::{grow_pages, put_at, take_at};
use round_worker::Kept;
use std::alloc::{AllocError, Global};
use std::marker::Model;

/// How many keys a page has places for.
const PAGE: u32 = 256;

/// The keys that no worker has, each with what it is bound to.
#[derive(Drop)]
pub struct KeyStore {
    alloc: Global,
    // What keys are bound to, by page and place. Behind the last place that was needed a page has none.
    pub(crate) pages: Vec<Vec<Option<Kept>>>,
}

impl Model for KeyStore {
    ghost use Rattle.std.specs.Prelude.{◌≤◌, All, length, map};
    ghost use Rattle.round_worker.specs.Kept.{KeyList};
    ghost use Rattle.round_keys.specs.Pages.{IsPage, pages_from};

    ghost Value = { KeyList };

    // By rising key.
    ghost view = { λ store. pages_from 0 (map (λ page. page.items) store.pages.items) };

    ghost invariant = { λ store. record {
      all : All (λ page. IsPage page.items) store.pages.items;
      few : length store.pages.items ≤ 16777216;
    } };
}

impl KeyStore {
    /// A store of no key.
    pub fn new(alloc: Global) -> KeyStore
        ensures { result ≡ [] }
    {
        KeyStore {
            alloc,
            pages: Vec::new(alloc),
        }
    }

    /// Tells what holds of all keys.
    pub fn tell(&self)
        ensures { IsTrue (is_sorted nat_cmp self.now) }
    {
        let _pages = &self.pages;
    }

    // Takes a key out, with what it is bound to.
    pub(crate) fn take(&mut self, key: u32) -> Option<Kept>
        ensures value { result ≡ find nat_cmp key self.old }
        ensures keys { self.new ≡ where_key nat_cmp (λ other. not (other == key)) self.old }
    {
        let number = (key / PAGE) as usize;
        if number < self.pages.len() {
            take_at(&mut self.pages[number], (key % PAGE) as usize)
        } else {
            None
        }
    }

    // Puts a key in.
    pub(crate) fn put(&mut self, key: u32, kept: Kept) -> Result<(), AllocError>
        ensures put { OnOk result (self.new ≡ put nat_cmp key kept self.old) }
        ensures err { OnErr result (self.new ≡ self.old) }
    {
        let number = (key / PAGE) as usize;
        grow_pages(self.alloc, &mut self.pages, number)?;
        put_at(&mut self.pages[number], (key % PAGE) as usize, kept)
    }
}
