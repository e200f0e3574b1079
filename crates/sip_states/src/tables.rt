//! The states of every transaction, found by its key.
ghost use Rattle.std.specs.Prelude.{◌≡◌, ◌≢◌, ◌<◌, ◌≤◌, ◌+◌, ◌++◌, ◌-◌, ◌∷◌, [], All, AllPairs, length, slice_get, slice_index_or, ℕ, IfNone, IfOk, IfSome, None, OnErr, OnOk, Some, false, true, ◌↔◌};
ghost use Rattle.std.specs.Borrow.{sem};
ghost use Rattle.indexmap.specs.IndexMap.{keys, values, index_map_len, with_value_at};
ghost use Rattle.sip_states.specs.Agenda.{is_overdue};
ghost use Rattle.sip_states.specs.AnySet.{moment_of, SetWaits};
ghost use Rattle.sip_states.specs.Sweep.{AdvancesAll, AdvancesSome, AppendsNamed, ChangesSets};
ghost use Rattle.sip_states.specs.inner.Advance.{AdvancesAt, AdvancesSomeAt};
ghost use Rattle.sip_states.specs.inner.Marks.{AreMarked, AreMoved, IsMarked};
ghost use Rattle.sip_states.specs.inner.Touching.{FindsOrStarts};
ghost use Rattle.sip_states.specs.Kept.{kept_tables};
ghost use Rattle.sip_states.specs.Restarting.{AreToRestart};
ghost use Rattle.sip_states.specs.Tables.{IsGiven, HasState, Settles, StartsAnew, Touches, due_of, most_keys};

use crate::agenda::Agenda;
use crate::any_set::AnySet;
use crate::each_once::keep_ascending;
use crate::keeping::keep_entries;
use crate::marks::Marks;
use indexmap::IndexMap;
use indexmap::map::Entry;
use sip_key::Key;
use sip_machine::Params;
use std::alloc::{AllocError, Global};
use std::hash::BuildHasher;
use std::marker::Model;

/// The set of each key. Keys are numbered from 1 in order of first appearance.
#[derive(Drop)]
#[derive_where(Debug)]
pub struct Tables<H: BuildHasher> {
    params: Params,
    sets: IndexMap<Key, AnySet, H>,
    agenda: Agenda,
    /// Which of the sets may name a message, and which a restart of the element may change: those that are not marked as named name none,
    /// and those that are not marked as moved are quiet.
    marks: Marks,
}

impl<H: BuildHasher> Model for Tables<H> {
    ghost use Rattle.std.specs.Prelude.{◌≡◌, ◌≤◌, length};
    ghost use Rattle.indexmap.specs.IndexMap.{keys, values, index_map_len};
    ghost use Rattle.sip_states.specs.Tables.{Tabled, most_keys};
    ghost use Rattle.sip_states.specs.inner.Marks.{AreMarked, AreMoved};

    // What tables mean is their times, and each key with its set and its last moment on record. The marks are right of each set.
    ghost Value = { Tabled };

    ghost view = { λ t. record { times = t.params; keys = keys t.sets; sets = values t.sets; records = t.agenda } };

    ghost invariant = { λ t. (index_map_len t.sets ≤ most_keys) × (length t.agenda ≡ index_map_len t.sets)
        × (length t.marks.named ≡ index_map_len t.sets) × AreMarked t.marks.named (values t.sets)
        × (length t.marks.moved ≡ index_map_len t.sets) × AreMoved t.marks.moved t.marks.named (values t.sets) };
}

/// Returns the index of the key. A new key goes after the others, with the set that it starts with. On an error nothing changes, and
/// the key is dropped.
fn find_or_start<H: BuildHasher>(
    sets: &mut IndexMap<Key, AnySet, H>,
    params: Params,
    key: Key,
) -> Result<usize, AllocError>
    ensures ok { IfOk result (λ index. FindsOrStarts params key index sets.old.entries sets.new.entries) }
    ensures err { OnErr result (sets.new.entries ≡ sets.old.entries) }
{
    let alloc = *sets.allocator();
    match sets.entry(key)? {
        Entry::Occupied(entry) => Ok(entry.index()),
        Entry::Vacant(entry) => {
            let index = entry.index();
            match AnySet::start(alloc, params, entry.key()) {
                Ok(set) => {
                    entry.insert(set);
                    Ok(index)
                }
                // There is no memory for the set: the key is taken out of the entry, and dropped.
                Err(refused) => {
                    entry.into_key();
                    Err(refused)
                }
            }
        }
    }
}

/// Makes room for one more index, which has no last moment on record and no mark. On an error nothing changes.
fn push_index(agenda: &mut Agenda, marks: &mut Marks) -> Result<(), AllocError>
    requires room { length marks.old.named < most_keys }
    ensures agenda { OnOk result (agenda.new ≡ agenda.old ++ None ∷ []) }
    ensures marks { OnOk result (marks.new.named ≡ marks.old.named ++ false ∷ []) }
    ensures moved { OnOk result (marks.new.moved ≡ marks.old.moved ++ false ∷ []) }
    ensures err { OnErr result ((agenda.new ≡ agenda.old) × (marks.new ≡ marks.old)) }
{
    agenda.push()?;
    if let Err(refused) = marks.push() {
        agenda.pop();
        return Err(refused);
    }
    Ok(())
}

/// Lets the sets at these indices wait until the moment. On an error some have, and the others are as before.
fn advance_each<H: BuildHasher>(
    sets: &mut IndexMap<Key, AnySet, H>,
    indices: &[u32],
    moment: u64,
) -> Result<(), AllocError>
    requires once { AllPairs (λ a b. a ≢ b) indices.now }
    requires inside { All (λ index. index < index_map_len sets.old) indices.now }
    requires early { All (λ set. moment_of set ≤ moment) (values sets.old) }
    ensures keys { keys sets.new ≡ keys sets.old }
    ensures size { index_map_len sets.new ≡ index_map_len sets.old }
    ensures ok { OnOk result (AdvancesAt moment indices.now (values sets.old) (values sets.new)) }
    ensures err { OnErr result (AdvancesSomeAt moment indices.now (values sets.old) (values sets.new)) }
{
    for index in indices {
        sets[*index as usize].advance(moment)?;
    }
    Ok(())
}

/// Gives back the room that the states of the set at the index do not need.
fn trim_at<H: BuildHasher>(sets: &mut IndexMap<Key, AnySet, H>, index: usize)
    requires { index < index_map_len sets.old }
    ensures { sets.new ≡ sets.old }
{
    sets[index].trim();
}

/// Puts a set into the place of the one at the index, which is dropped.
fn put_at<H: BuildHasher>(sets: &mut IndexMap<Key, AnySet, H>, index: usize, set: AnySet)
    requires { index < index_map_len sets.old }
    ensures { sets.new ≡ with_value_at sets.old index set }
{
    sets[index] = set;
}

/// Takes the mark off each set that names no message, and gives back the memory that this set does not need. On an error some of these sets
/// are still marked.
fn unmark_silent<H: BuildHasher>(
    marks: &mut Marks,
    sets: &mut IndexMap<Key, AnySet, H>,
) -> Result<(), AllocError>
    requires long { length marks.old.named ≡ index_map_len sets.old }
    requires marked { AreMarked marks.old.named (values sets.old) }
    ensures long { length marks.new.named ≡ length marks.old.named }
    ensures marked { AreMarked marks.new.named (values sets.old) }
    ensures fewer { (index : ℕ) → IsMarked marks.new.named index → IsMarked marks.old.named index }
    ensures moved { marks.new.moved ≡ marks.old.moved }
    ensures same { sets.new ≡ sets.old }
{
    let mut numbers = Vec::new(*sets.allocator());
    // From the last place back: an index that loses its mark changes places with the last marked one, which was looked at before.
    for place in (0..marks.named().len()).rev() {
        if let Some(index) = marks.named().get(place).copied() {
            let index = index as usize;
            numbers.clear();
            sets[index].names(&mut numbers)?;
            if numbers.is_empty() {
                marks.unmark_named(index);
                trim_at(sets, index);
            }
        }
    }
    Ok(())
}

/// Takes both marks off each set that is quiet, and gives back the memory that this set does not need.
fn unmark_quiet<H: BuildHasher>(marks: &mut Marks, sets: &mut IndexMap<Key, AnySet, H>)
    requires long { (length marks.old.moved ≡ index_map_len sets.old) × (length marks.old.named ≡ index_map_len sets.old) }
    requires marked { AreMarked marks.old.named (values sets.old) }
    requires moved { AreMoved marks.old.moved marks.old.named (values sets.old) }
    ensures long { (length marks.new.moved ≡ length marks.old.moved) × (length marks.new.named ≡ length marks.old.named) }
    ensures marked { AreMarked marks.new.named (values sets.old) }
    ensures moved { AreMoved marks.new.moved marks.new.named (values sets.old) }
    ensures same { sets.new ≡ sets.old }
{
    // From the last place back: an index that loses its mark changes places with the last marked one, which was looked at before.
    for place in (0..marks.moved().len()).rev() {
        if let Some(index) = marks.moved().get(place).copied() {
            let index = index as usize;
            if sets[index].is_quiet() {
                marks.unmark(index);
                trim_at(sets, index);
            }
        }
    }
}

impl<H: BuildHasher> Tables<H> {
    ghost use Rattle.sip_states.specs.TablesLends.{LendsSet};

    /// Tables without keys, which take no memory.
    pub fn new(alloc: Global, params: Params, hasher: H) -> Self
        ensures { result ≡ record { times = params; keys = []; sets = []; records = [] } }
    {
        Tables {
            params,
            sets: IndexMap::with_hasher(alloc, hasher),
            agenda: Agenda::new(alloc),
            marks: Marks::new(alloc),
        }
    }

    /// Returns the number of the key. A new key gets the next number and the set that it starts with. On an error nothing changes, and
    /// the key is dropped.
    pub fn touch(&mut self, key: Key) -> Result<u64, AllocError>
        requires { length self.old.keys < most_keys }
        ensures ok { IfOk result (λ number. Touches key number self.old self.new) }
        ensures given { IfOk result (IsGiven self.new) }
        ensures err { OnErr result (self.new ≡ self.old) }
    {
        // A key that was there has an index below `count`, the number of keys before.
        let count = self.sets.len();
        let index = find_or_start(&mut self.sets, self.params, key)?;
        if index < count {
            return Ok(index as u64 + 1);
        }
        if let Err(refused) = push_index(&mut self.agenda, &mut self.marks) {
            // Without room for its index the new key is dropped again, with its set.
            self.sets.truncate(count);
            return Err(refused);
        }
        Ok(self.sets.len() as u64)
    }

    /// The set of the key with this number.
    pub fn set(&self, number: u64) -> &AnySet
        requires { IsGiven self.now number }
        ensures { slice_get self.now.sets (number - 1) ≡ Some result.now }
    {
        &self.sets[number as usize - 1]
    }

    /// The set of the key with this number, which the caller may change. Once the borrow ends, the tables have what was left in it, and all
    /// else is as before (`LendsSet`).
    pub fn set_mut(&mut self, number: u64) -> &mut AnySet
        requires { IsGiven self.old number }
        ensures* writes_back { sem 𝓛 (LendsSet H.row H.Hasher.row H.BuildHasher H.Hasher.Hasher self.entry number result) }
        ensures value { slice_get self.old.sets (number - 1) ≡ Some result.now }
    {
        let index = number as usize - 1;
        self.marks.mark(index);
        &mut self.sets[index]
    }

    /// Puts the last moment of the set of the key with this number on record, in place of an older one. On an error nothing changes.
    pub fn settle(&mut self, number: u64) -> Result<(), AllocError>
        requires given { IsGiven self.old number }
        requires state { HasState self.old number }
        ensures ok { OnOk result (Settles number self.old self.new) }
        ensures err { OnErr result (self.new ≡ self.old) }
    {
        let index = number as usize - 1;
        let limit = self.sets[index].last_moment();
        self.agenda.set(index, limit)
    }

    /// The least number whose last moment on record is below the moment, in milliseconds. It looks at the earliest last moment first,
    /// and no further where that one is not below.
    pub fn due(&self, moment: u64) -> Option<u64>
        ensures { result ≡ due_of self.now moment }
    {
        self.agenda.due(moment).map(|index| index as u64 + 1)
    }

    /// A number with the earliest last moment on record, if that is below the moment, in milliseconds. It looks no further than that one.
    pub fn overdue(&self, moment: u64) -> Option<u64>
        ensures some { IfSome result (λ number. IsGiven self.now number × (is_overdue moment (slice_index_or self.now.records (number - 1) None) ≡ true)) }
        ensures none { IfNone result (due_of self.now moment ≡ None) }
    {
        self.agenda.overdue(moment).map(|index| index as u64 + 1)
    }

    /// Lets the key with this number start anew: it gets the set that a new key has, which can wait for ever. The states that it had are
    /// dropped. On an error nothing changes.
    pub fn restart_key(&mut self, number: u64) -> Result<(), AllocError>
        requires { IsGiven self.old number }
        ensures ok { OnOk result (StartsAnew number self.old self.new) }
        ensures err { OnErr result (self.new ≡ self.old) }
    {
        let index = number as usize - 1;
        let set = AnySet::start(*self.sets.allocator(), self.params, self.key(number))?;
        self.agenda.set(index, None)?;
        put_at(&mut self.sets, index, set);
        Ok(())
    }

    /// Lets the sets wait until the moment, in milliseconds; one that names no message may stay as it is. On an error some
    /// have waited, and the others are as before.
    pub fn advance_all(&mut self, moment: u64) -> Result<(), AllocError>
        requires { All (λ set. moment_of set ≤ moment) self.old.sets }
        ensures ok { OnOk result (AdvancesAll moment self.old self.new) }
        ensures err { OnErr result (AdvancesSome moment self.old self.new) }
    {
        advance_each(&mut self.sets, self.marks.named(), moment)?;
        unmark_silent(&mut self.marks, &mut self.sets)
    }

    /// Lets every set wait until the moment, in milliseconds. On an error some have waited, and the others are as before.
    pub fn wait_all(&mut self, moment: u64) -> Result<(), AllocError>
        requires { All (λ set. moment_of set ≤ moment) self.old.sets }
        ensures ok { OnOk result (ChangesSets (SetWaits moment) self.old self.new) }
        ensures err { OnErr result (AdvancesSome moment self.old self.new) }
    {
        let alloc = *self.sets.allocator();
        // All sets are marked, so the moved ones are all.
        let marks = Marks::all(alloc, self.sets.len())?;
        self.marks = marks;
        advance_each(&mut self.sets, self.marks.moved(), moment)?;
        Ok(())
    }

    /// Appends the numbers of the messages that the sets name, ascending, each once. On an error the vector is as before.
    pub fn named(&self, out: &mut Vec<u64>) -> Result<(), AllocError>
        ensures ok { OnOk result (AppendsNamed self.now out.old.items out.new.items) }
        ensures err { OnErr result (out.new.items ≡ out.old.items) }
    {
        // The sets that are not marked as named name nothing.
        let mut found = Vec::new(*out.allocator());
        for index in self.marks.named() {
            self.sets[*index as usize].names(&mut found)?;
        }
        keep_ascending(&mut found);
        out.extend_from_slice(&found)
    }

    /// The numbers of the sets that a restart of the element may change: those that were lent to be changed since the last restart, and
    /// those that it left with more than one state. After `wait_all` or `keep` they are all of them.
    pub fn to_restart(&self) -> Result<Vec<u64>, AllocError>
        ensures { IfOk result (λ numbers. AreToRestart self.now numbers.items) }
    {
        let mut numbers = Vec::new(*self.sets.allocator());
        for index in self.marks.moved() {
            numbers.push(u64::from(*index) + 1)?;
        }
        Ok(numbers)
    }

    /// Says that the sets have taken a restart of the element: those that it left quiet need not take the next one.
    pub fn restarted(&mut self)
        ensures { self.new ≡ self.old }
    {
        unmark_quiet(&mut self.marks, &mut self.sets);
    }

    /// Keeps the keys whose flag is true, in their order, and numbers them anew. On an error nothing changes.
    pub fn keep(&mut self, flags: &[bool]) -> Result<(), AllocError>
        requires { length flags.now ≡ length self.old.keys }
        ensures ok { OnOk result (self.new ≡ kept_tables flags.now self.old) }
        ensures err { OnErr result (self.new ≡ self.old) }
    {
        let alloc = *self.sets.allocator();
        let agenda = self.agenda.kept(alloc, flags)?;
        // The sets that are kept have new indices, so the old marks do not fit them. All are marked.
        let marks = Marks::all(alloc, agenda.len())?;
        keep_entries(&mut self.sets, flags);
        self.agenda = agenda;
        self.marks = marks;
        Ok(())
    }

    /// The key with this number.
    pub fn key(&self, number: u64) -> &Key
        requires { IsGiven self.now number }
        ensures { slice_get self.now.keys (number - 1) ≡ Some result.now }
    {
        let (key, _) = self.sets.get_index(number as usize - 1).unwrap();
        key
    }

    /// The number of keys.
    pub fn len(&self) -> u64
        ensures { result ≡ length self.now.keys }
    {
        self.sets.len() as u64
    }

    /// What all tables keep: no key is there twice, and each has a set and a place for its last moment.
    pub fn known(&self)
        ensures unique { AllPairs (λ a b. a ≢ b) self.now.keys }
        ensures sets { length self.now.sets ≡ length self.now.keys }
        ensures records { length self.now.records ≡ length self.now.keys }
    {
        // Nothing is done: what the contract says holds of all tables at all times.
        let _ = self.sets.len();
    }

    /// The earliest last moment on record, in milliseconds, or `None` where none is: nothing is overdue up to it.
    pub fn earliest(&self) -> Option<u64>
        ensures { (moment : ℕ) → (due_of self.now moment ≡ None) ↔ IfSome result (λ last. moment ≤ last) }
    {
        self.agenda.earliest()
    }
}
