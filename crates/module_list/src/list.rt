//! The records, and the sweep with what it found.

ghost use Rattle.std.specs.Prelude.{ℕ, ◌≡◌, ◌+◌, ◌<◌, ◌≤◌, ◌==◌, List, IsTrue, IsSome, IfOk, Some, length, find, nat_le, nat_lt, slice_get, vec_capacity};
ghost use Rattle.std.specs.List.{list_all, position};
ghost use Rattle.tag_model.specs.Shape.{IsChecked};
ghost use Rattle.tag_model.specs.Laws.{ids_of, rises_from, sweep_fits};
ghost use Rattle.tag_model.specs.StepRules.{after_pass, begins_pass, dead_ids, end_of, passes_record, start_of};
ghost use Rattle.tag_model.specs.declared.state.Record.{Record};
ghost use Rattle.module_list.specs.Listing.{IsListing, bare_record, found_at, fresh_listing, loaded, marked_dead, may_release, read_to, reader_of, record_in, record_limit, releasable, released, scanned, swept};
ghost use Rattle.module_list.specs.Stages.{passes_tag, sweep_of};

use std::alloc::{AllocError, Global};
use std::marker::Model;
use tag_model::{Kind, Reader, Record, Shape, Stop};

/// The most records, ids on a sweep's list, and stops.
pub const RECORD_LIMIT: usize = 64;

/// The limit, as a number.
pub fn limit_is_this()
    ensures { RECORD_LIMIT ≡ record_limit }
{}

/// How far a sweep is.
#[derive(Clone, Copy, Debug, PartialEq, Eq)]
enum Stage {
    Idle,
    Reading(Reader),
    Done,
}

/// The module list. Its room is made once, so only `new` takes memory. It counts no users of a module: they change no
/// sweep, and there is no bound on them.
#[derive(Drop)]
pub struct RecordList {
    records: Vec<Record>,
    left: Vec<u32>,
    stage: Stage,
    stops: Vec<Stop>,
}

impl Model for RecordList {
    ghost use Rattle.std.specs.Prelude.{◌≤◌, vec_capacity};
    ghost use Rattle.module_list.specs.Listing.{Listing, IsListing, record_limit};
    ghost use Rattle.module_list.specs.Stages.{sweep_of};

    ghost Value = { Listing };

    ghost view = { λ l. record { records = l.records.items; sweep = sweep_of l.stage l.left.items; stops = l.stops.items } };

    ghost invariant = { λ l. IsListing (record { records = l.records.items; sweep = sweep_of l.stage l.left.items; stops = l.stops.items })
        × (record_limit ≤ vec_capacity l.records) × (record_limit ≤ vec_capacity l.left) × (record_limit ≤ vec_capacity l.stops) };
}

impl RecordList {
    /// A list on which nothing was ever loaded.
    pub fn new(alloc: Global) -> Result<RecordList, AllocError>
        ensures { IfOk result (λ list. list ≡ fresh_listing) }
    {
        Ok(RecordList {
            records: Vec::with_capacity(alloc, RECORD_LIMIT)?,
            left: Vec::with_capacity(alloc, RECORD_LIMIT)?,
            stage: Stage::Idle,
            stops: Vec::with_capacity(alloc, RECORD_LIMIT)?,
        })
    }

    /// The records, loaded and dead, by rising id.
    pub fn records(&self) -> &[Record]
        ensures value { result.now ≡ self.now.records }
        ensures holds { IsListing self.now }
    {
        &self.records
    }

    /// The record of an id.
    pub fn get(&self, id: u32) -> Option<Record>
        ensures value { result ≡ record_in id self.now.records }
        ensures holds { IsListing self.now }
    {
        record_of(&self.records, id)
    }

    /// What took modules off the sweep's list.
    pub fn stops(&self) -> &[Stop]
        ensures { result.now ≡ self.now.stops }
    {
        &self.stops
    }

    /// The word that the sweep reads next.
    pub fn reader(&self) -> Option<Reader>
        ensures { result ≡ reader_of self.now.sweep }
    {
        match self.stage {
            Stage::Reading(reader) => Some(reader),
            Stage::Idle | Stage::Done => None,
        }
    }

    /// The first module that a sweep that is done may release.
    pub fn releasable(&self) -> Option<u32>
        ensures { result ≡ releasable self.now.sweep }
    {
        match self.stage {
            Stage::Done => self.left.first().copied(),
            Stage::Idle | Stage::Reading(_) => None,
        }
    }

    /// Loads a module under an id above all others, over a range that the caller has found.
    pub fn load(&mut self, id: u32, section: u32, start: u32, size: u32)
        requires room { length self.old.records < record_limit }
        requires above_zero { 0 < id }
        requires above { IsTrue (list_all (λ (r : Record). nat_lt r.id id) self.old.records) }
        requires end { start + size ≤ 4294967295 }
        ensures { self.new ≡ loaded id section start size self.old }
    {
        self.records
            .push(Record {
                id,
                section,
                start,
                length: size,
                dead: false,
                users: 0,
            })
            .unwrap();
    }

    /// Unloads a module, and begins a sweep of it alone.
    pub fn mark_dead(&mut self, id: u32)
        requires { IsSome (record_in id self.old.records) }
        ensures { self.new ≡ marked_dead id self.old }
    {
        let place = place_of(&self.records, id);
        self.records[place].dead = true;
        self.stops.clear();
        self.left.clear();
        self.left.push(id).unwrap();
        self.stage = begin(&self.records, &self.left, Kind::Bytes);
    }

    /// Begins a sweep of all dead modules, by rising id.
    pub fn sweep(&mut self)
        ensures { self.new ≡ swept self.old }
    {
        self.stops.clear();
        list_dead(&self.records, &mut self.left);
        self.stage = begin(&self.records, &self.left, Kind::Bytes);
    }

    /// The sweep reads a word. The answer is what takes a module off its list, if that does.
    pub fn scan(&mut self, shape: Shape, word: u64) -> Option<Stop>
        requires checked { IsChecked shape }
        requires fits { IsTrue (sweep_fits shape self.old.sweep self.old.records) }
        ensures after { self.new ≡ scanned shape word self.old }
        ensures found { result ≡ found_at shape word self.old.sweep }
    {
        let Stage::Reading(mut reader) = self.stage else {
            return None;
        };
        reader.sum = reader.sum.wrapping_add(word);
        if reader.cpu + 1 < shape.cpus {
            reader.cpu += 1;
            self.stage = Stage::Reading(reader);
            return None;
        }
        if reader.sum == 0 {
            self.stage = next_tag(&self.records, &self.left, reader);
            return None;
        }
        let stop = Stop {
            id: reader.id,
            tag: reader.tag,
            kind: reader.pass,
            sum: reader.sum,
        };
        self.stops.push(stop).unwrap();
        self.left.retain(|other| *other != reader.id);
        self.stage = pass_record(&self.records, &self.left, reader.pass, reader.id);
        Some(stop)
    }

    /// The sweep goes on in the tag that it reads, from this CPU on and with this sum. Who calls this has read the words
    /// in between.
    pub fn read_to(&mut self, cpu: u32, sum: u64)
        ensures { self.new ≡ read_to cpu sum self.old }
    {
        if let Stage::Reading(reader) = self.stage {
            self.stage = Stage::Reading(Reader { cpu, sum, ..reader });
        }
    }

    /// Releases a module on the list of a sweep that is done.
    pub fn release(&mut self, id: u32)
        requires { IsTrue (may_release id self.old.sweep) }
        ensures { self.new ≡ released id self.old }
    {
        self.records.retain(|record| record.id != id);
        self.left.retain(|other| *other != id);
    }
}

// The record of an id.
fn record_of(records: &[Record], id: u32) -> Option<Record>
    ensures { result ≡ record_in id records.now }
{
    records.iter().copied().find(|record| record.id == id)
}

// The place of the record of an id.
fn place_of(records: &[Record], id: u32) -> usize
    requires { IsSome (record_in id records.now) }
    ensures within { result < length records.now }
    ensures there { slice_get records.now result ≡ record_in id records.now }
{
    position_of(records, id).unwrap()
}

// The place of the record of an id, if there is one.
fn position_of(records: &[Record], id: u32) -> Option<usize>
    ensures { result ≡ position (λ (r : Record). r.id == id) records.now }
{
    records.iter().position(|record| record.id == id)
}

// The dead modules are put on the list.
fn list_dead(records: &[Record], left: &mut Vec<u32>)
    requires few { length records.now ≤ record_limit }
    requires room { record_limit ≤ vec_capacity left.old }
    ensures ids { left.new.items ≡ dead_ids records.now }
    ensures room { record_limit ≤ vec_capacity left.new }
{
    left.clear();
    for place in 0..records.len() {
        let record = records[place];
        if record.dead {
            left.push(record.id).unwrap();
        }
    }
}

// A pass stands at the first tag of a module, at CPU 0.
fn from_start(records: &[Record], pass: Kind, id: u32) -> Reader
    requires { IsTrue (rises_from 0 (ids_of records.now)) }
    ensures { result ≡ record { pass = pass; id = id; tag = start_of id records.now; cpu = 0; sum = 0 } }
{
    let tag = match record_of(records, id) {
        Some(record) => record.start,
        None => 0,
    };
    Reader {
        pass,
        id,
        tag,
        cpu: 0,
        sum: 0,
    }
}

// A pass over the list begins at its first module.
fn begin(records: &[Record], left: &[u32], pass: Kind) -> Stage
    requires { IsTrue (rises_from 0 (ids_of records.now)) }
    ensures { sweep_of result left.now ≡ begins_pass pass left.now records.now }
{
    match left.first() {
        None => Stage::Idle,
        Some(id) => Stage::Reading(from_start(records, pass, *id)),
    }
}

// Behind the pass of bytes comes that of calls, and behind that the releases.
fn end_pass(records: &[Record], left: &[u32], pass: Kind) -> Stage
    requires { IsTrue (rises_from 0 (ids_of records.now)) }
    ensures { sweep_of result left.now ≡ after_pass pass left.now records.now }
{
    if left.is_empty() {
        return Stage::Idle;
    }
    match pass {
        Kind::Bytes => begin(records, left, Kind::Calls),
        Kind::Calls => Stage::Done,
    }
}

// The first id on the list that is above this one.
fn next_above(left: &[u32], id: u32) -> Option<u32>
    ensures { result ≡ find (nat_lt id) left.now }
{
    left.iter().copied().find(|other| id < *other)
}

// The pass is through with a module: it goes to the next one on its list, or ends.
fn pass_record(records: &[Record], left: &[u32], pass: Kind, id: u32) -> Stage
    requires { IsTrue (rises_from 0 (ids_of records.now)) }
    ensures { sweep_of result left.now ≡ passes_record pass left.now records.now id }
{
    match next_above(left, id) {
        Some(next) => Stage::Reading(from_start(records, pass, next)),
        None => end_pass(records, left, pass),
    }
}

// The tag is read, and nothing is counted under it.
fn next_tag(records: &[Record], left: &[u32], reader: Reader) -> Stage
    requires rises { IsTrue (rises_from 0 (ids_of records.now)) }
    requires ends { IsTrue (list_all (λ (r : Record). nat_le (r.start + r.length) 4294967295) records.now) }
    requires below { reader.tag < 4294967295 }
    ensures { sweep_of result left.now ≡ passes_tag left.now records.now reader }
{
    if reader.tag + 1 < end_of(records, reader.id) {
        Stage::Reading(Reader {
            tag: reader.tag + 1,
            cpu: 0,
            sum: 0,
            ..reader
        })
    } else {
        pass_record(records, left, reader.pass, reader.id)
    }
}

// The tag behind the last one of a module.
fn end_of(records: &[Record], id: u32) -> u32
    requires rises { IsTrue (rises_from 0 (ids_of records.now)) }
    requires ends { IsTrue (list_all (λ (r : Record). nat_le (r.start + r.length) 4294967295) records.now) }
    ensures { result ≡ end_of id records.now }
{
    match record_of(records, id) {
        Some(record) => record.start + record.length,
        None => 0,
    }
}
