//! The messages of a log, each kept once.
ghost use Rattle.std.specs.Prelude.{◌≡◌, ◌≢◌, ◌<◌, ◌≤◌, ◌⊎◌, ◌↔◌, ◌++◌, ◌∷◌, [], ℕ, None, List, length, map, MatchOption, IfNone, IfSome, IfOk, IfErr, OnOk, OnErr, IsTrue, All, AllPairs};
ghost use Rattle.std.specs.List.{insert, HoldsAt};
ghost use Rattle.std.specs.List.Sorted.{IsSearchInRange, IsBinarySearchResult};
ghost use Rattle.sip_machine.specs.Texts.{Texts, IsBook, Keeps, text_of};
ghost use Rattle.sip_machine.specs.Retained.{only};
ghost use Rattle.sip_message.specs.Reads.{Reads};
ghost use Rattle.sip_machine.specs.inner.ReadAs.{IsReadAs};
ghost use Rattle.sip_machine.specs.inner.Tos.{AreTos, HasThose, IsTo, IsToOf, count_between};
ghost use Rattle.sip_machine.specs.inner.Order.{texts_of, placed, bytes_at, key_of, compare, begins_by, places_of, index_of, most_places, IsLed, IsInRuns, StandInRuns, IsInside, IsGap};

mod retain;

use crate::book::retain::{keep_only, lay_aside, move_all};
use crate::event::is_unsuccessful;
use crate::hashed::{Hashed, hash};
use crate::tos::{MANY, Tos};
use sip_key::solid_of;
use sip_message::{Message, ReadError, StartLine};
use sip_numbers::Numbers;
use std::alloc::{AllocError, Global};
use std::cell::Cell;
use std::cmp::Ordering;
use std::marker::Model;

/// Messages by number: equal bytes have one number. They stand in the order of their numbers. A second list, in runs, has
/// their places in the order of hash and bytes. So a message is found by its number and by its bytes with a logarithm of
/// comparisons, whatever the log is and however the hashes fall, and a new one moves few places. The newest message gets
/// its place only when the next one comes, so that a message that is forgotten at once never has one.
#[derive(Debug, Drop)]
pub struct Book {
    kept: Vec<KeptMessage>,
    order: Vec<PlaceRun>,
    /// Where the place of the newest message goes, if it stands in no run yet.
    loose: Option<Loose>,
    /// The To of some of the messages.
    tos: Tos,
    /// The buffers of messages that were forgotten, for those that come.
    spare: Vec<Vec<u8>>,
    /// Whether a search looked at many messages one by one, so that the Tos of all are wanted beside them.
    wanted: Cell<bool>,
}

/// A message with the number of its first entry.
#[derive(Debug, Drop)]
struct KeptMessage {
    number: u64,
    bytes: Vec<u8>,
}

/// Where a message stands among those that are kept, with the hash of its bytes.
#[derive(Clone, Copy, Debug)]
struct Place {
    hash: u64,
    position: usize,
}

/// Some of the places, in their order: at least one, at most `MOST`. The first one stands here again, so that
/// the run of a message is found without a look into other runs.
#[derive(Debug, Drop)]
struct PlaceRun {
    first: Place,
    places: Vec<Place>,
}

/// A gap between two places: in this run, before this place of it.
#[derive(Clone, Copy, Debug)]
struct Gap {
    run: usize,
    place: usize,
}

/// The gap into which the place of the newest message goes, with the hash of its bytes.
#[derive(Clone, Copy, Debug)]
struct Loose {
    hash: u64,
    gap: Gap,
}

/// A run with as many places as this is halved before it takes another one.
const MOST: usize = 128;

impl Model for Book {
    ghost use Rattle.sip_machine.specs.Texts.{Texts, IsBook};
    ghost use Rattle.sip_machine.specs.inner.Order.{texts_of, StandInRuns};
    ghost use Rattle.sip_machine.specs.inner.Tos.{AreTos};

    // A book means its texts with their numbers: it keeps each text once, finds it by runs of places, and has the Tos that ACKs are owed for beside them.
    ghost Value = { Texts };

    ghost view = { λ b. texts_of b.kept.items };

    // The messages are a book; the runs hold their places, but for that of a newest one that is loose; and each To is that of one of them.
    ghost invariant = { λ b. IsBook (texts_of b.kept.items) × StandInRuns (texts_of b.kept.items) b.order.items b.loose × AreTos (texts_of b.kept.items) b.tos };
}

impl Book {
    /// A book without messages.
    pub fn new(alloc: Global) -> Self
        ensures { result ≡ [] }
    {
        Book {
            kept: Vec::new(alloc),
            order: Vec::new(alloc),
            loose: None,
            tos: Tos::new(alloc),
            spare: Vec::new(alloc),
            wanted: Cell::new(false),
        }
    }

    /// Does nothing. Its contract tells that the numbers rise, and that messages with equal bytes have one number.
    pub fn known(&self)
        ensures { IsBook self.now }
    {
        let _ = &self.kept;
    }

    /// The bytes of the message with this number, and None if it is not kept.
    pub fn bytes(&self, number: u64) -> Option<&[u8]>
        ensures { MatchOption result (Keeps self.now number → ⊥)
            (λ bytes. Keeps self.now number × (bytes.now ≡ text_of self.now number)) }
    {
        match self.kept.binary_search_by_key(&number, |kept| kept.number) {
            Ok(position) => Some(self.kept[position].bytes.as_slice()),
            Err(_) => None,
        }
    }

    /// The bytes of a message that is kept.
    pub(crate) fn bytes_of(&self, number: u64) -> &[u8]
        requires { Keeps self.now number }
        ensures { result.now ≡ text_of self.now number }
    {
        self.bytes(number).unwrap()
    }

    /// The message that is kept with this number, read anew; None where its bytes are no message.
    pub(crate) fn message(
        &self,
        alloc: Global,
        number: u64,
    ) -> Result<Option<Message<'_>>, AllocError>
        requires { Keeps self.now number }
        ensures { IfOk result (IsReadAs (text_of self.now number)) }
    {
        match Message::read(alloc, self.bytes_of(number)) {
            Ok(message) => Ok(Some(message)),
            Err(ReadError::Memory) => Err(AllocError),
            Err(ReadError::Fault(_)) => Ok(None),
        }
    }

    /// Whether the message with this number has this To, from which the blanks were taken. It is read anew where its To does
    /// not stand beside it. A To beside it is looked for at `near` first, and `near` is left after it: so messages that
    /// are asked for in the order of their numbers cost one step each.
    pub(crate) fn has_to(
        &self,
        alloc: Global,
        number: u64,
        to: &Hashed,
        near: &mut usize,
    ) -> Result<bool, AllocError>
        requires { Keeps self.now number }
        ensures { IfOk result (λ has. IsTrue has ↔ IsToOf (text_of self.now number) to.now) }
    {
        match self.to_of(number, near) {
            Some(its) => Ok(its == to),
            None => self.is_read_with(alloc, number, to),
        }
    }

    /// Whether the message with this number, read anew, has this To.
    fn is_read_with(&self, alloc: Global, number: u64, to: &Hashed) -> Result<bool, AllocError>
        requires { Keeps self.now number }
        ensures { IfOk result (λ has. IsTrue has ↔ IsToOf (text_of self.now number) to.now) }
    {
        match self.message(alloc, number)? {
            Some(message) => Ok(solid_of(alloc, message.to())?.as_slice() == to.text()),
            None => Ok(false),
        }
    }

    /// The To, without its blanks, of the message with this number, where it stands beside the message: at `near`, or
    /// where a search finds it.
    fn to_of(&self, number: u64, near: &mut usize) -> Option<&Hashed>
        ensures { IfSome result (λ to. IsToOf (text_of self.now number) to.now) }
    {
        self.tos.get(number, near)
    }

    /// Numbers of messages. Of the messages from `low` up to `high`, those with this To, from which the blanks were taken, are among these, and no others.
    /// Where one of these has not its To beside it, or no sets are kept, the answer is None.
    pub(crate) fn under(&self, low: u64, high: u64, to: &Hashed) -> Option<&Numbers>
        ensures { IfSome result (λ set. HasThose self.now low high to.now set.now) }
    {
        if kept_between(&self.kept, low, high) != self.tos.between(low, high) {
            return None;
        }
        self.tos.under(to)
    }

    /// Puts the To of a message beside it where an ACK is owed for the message, so that no ACK reads it anew. Where a search looked at many
    /// messages one by one, the To of each message is put beside it. Where there is no memory for the To, all is as before.
    pub fn keep_to(&mut self, number: u64, message: &Message<'_>)
        requires kept { Keeps self.old number }
        requires read { Reads (text_of self.old number) message.now }
        ensures { self.new ≡ self.old }
    {
        self.keep_wanted_tos();
        if self.tos.are_below(number) && stands_beside(message, self.tos.takes_all()) {
            let _ = put_to(*self.kept.allocator(), &mut self.tos, number, message);
        }
    }

    /// Puts the To of each kept message beside it, if these are wanted. Where there is no memory for that, those that are there stay.
    fn keep_wanted_tos(&mut self)
        ensures { self.new ≡ self.old }
    {
        if !self.wanted.get() {
            return;
        }
        self.wanted.set(false);
        if let Ok(tos) = tos_of(*self.kept.allocator(), &self.kept, &self.tos) {
            self.tos.replace(tos);
        }
    }

    /// The number of the first kept message with these bytes. Where there is none, the bytes are kept under the number
    /// of their entry, which is above all that are kept.
    pub fn add(&mut self, entry: u64, bytes: &[u8]) -> Result<u64, AllocError>
        requires { (n : ℕ) → Keeps self.old n → n < entry }
        ensures ok { IfOk result (λ n. Keeps self.new n × (text_of self.new n ≡ bytes.now)) }
        ensures grows { IfOk result (λ n. ((self.new ≡ self.old) × Keeps self.old n)
            ⊎ ((self.new ≡ self.old ++ (entry, bytes.now) ∷ []) × (n ≡ entry))) }
        ensures err { OnErr result (self.new ≡ self.old) }
    {
        // The message before this one gets its place first, so that all places are there for the search.
        place_newest(&self.kept, &mut self.order, &mut self.loose)?;
        let hash = hash(bytes);
        match find(&self.kept, &self.order, hash, bytes) {
            Ok(position) => Ok(self.kept[position].number),
            Err(gap) => {
                let bytes = copy(&mut self.spare, self.kept.len(), bytes)?;
                self.kept.push(KeptMessage {
                    number: entry,
                    bytes,
                })?;
                // Its place is put into the gap when the next message comes.
                self.loose = Some(Loose { hash, gap });
                Ok(entry)
            }
        }
    }

    /// Forgets the newest message, if it has this number and neither its place nor its To stands beside it yet. Where the Tos of all
    /// messages are to stand there, its To goes with it.
    pub fn forget_newest(&mut self, number: u64)
        ensures { (self.new ≡ self.old) ⊎ ((bytes : List ℕ) × (self.old ≡ self.new ++ (number, bytes) ∷ [])) }
    {
        self.tos.drop_newest(number);
        if self.loose.is_none() || !self.tos.are_below(number) {
            return;
        }
        if let Some(newest) = pop_newest(&mut self.kept, number) {
            self.loose = None;
            lay_aside(&mut self.spare, newest.bytes);
        }
    }

    /// Counts messages that a search for a To looked at one by one. Where they are many, and the Tos of all do not stand beside them, these are wanted.
    pub(crate) fn count_messages(&self, messages: usize) {
        if messages >= MANY && !self.tos.takes_all() {
            self.wanted.set(true);
        }
    }

    /// How many messages are kept.
    pub fn len(&self) -> usize
        ensures { result ≡ length self.now }
    {
        self.kept.len()
    }

    /// Keeps the messages with these numbers alone, which rise. Their numbers and bytes stay. It takes memory only for the sets of messages with
    /// one To, where there are many. Where there is none, ACKs are found more slowly.
    pub fn retain_only(&mut self, numbers: &[u64])
        requires rising { AllPairs (λ a b. a < b) numbers.now }
        requires kept { All (Keeps self.old) numbers.now }
        ensures { self.new ≡ only numbers.now self.old }
    {
        let is_loose = self.loose.is_some();
        let kept = placed(&self.kept, is_loose);
        move_all(&mut self.order, kept, placed(numbers, is_loose));
        keep_only(&mut self.kept, &mut self.spare, numbers);
        self.loose = loosened(&self.kept, &self.order, is_loose);
        self.tos.retain(numbers);
    }
}

/// Whether the To of the message is to stand beside it: where it refuses an INVITE, since a response that does is owed an ACK; and where
/// those of all messages are to.
fn stands_beside(message: &Message<'_>, takes_all: bool) -> bool {
    if takes_all {
        return true;
    }
    match message.start() {
        StartLine::Status { code, .. } => {
            is_unsuccessful(code) && message.cseq().method == b"INVITE".as_slice()
        }
        StartLine::Request { .. } => false,
    }
}

/// Puts the To of a message, without its blanks, after the others, if the number of the message is above theirs.
fn put_text(tos: &mut Tos, number: u64, text: Hashed) -> Result<(), AllocError>
    ensures { (texts : Texts) → IsTo texts (record { number = number; text = text }) → AreTos texts tos.old → AreTos texts tos.new }
{
    if !tos.are_below(number) {
        return Ok(());
    }
    tos.push(number, text)
}

/// Puts the To of a message after the others, if the number of the message is above theirs.
fn put_to(
    alloc: Global,
    tos: &mut Tos,
    number: u64,
    message: &Message<'_>,
) -> Result<(), AllocError>
    ensures { (texts : Texts) → Keeps texts number → Reads (text_of texts number) message.now → AreTos texts tos.old → AreTos texts tos.new }
{
    let text = solid_of(alloc, message.to())?;
    put_text(tos, number, Hashed::of(text))
}

/// Reads a message anew and puts its To after the others. It puts none of bytes that are no message.
fn put_read_to(alloc: Global, tos: &mut Tos, number: u64, bytes: &[u8]) -> Result<(), AllocError>
    ensures { (texts : Texts) → Keeps texts number → text_of texts number ≡ bytes.now → AreTos texts tos.old → AreTos texts tos.new }
{
    match Message::read(alloc, bytes) {
        Ok(message) => put_to(alloc, tos, number, &message),
        Err(ReadError::Memory) => Err(AllocError),
        _ => Ok(()),
    }
}

/// The Tos of these messages. Those that do not stand beside them yet are read anew.
fn tos_of(alloc: Global, kept: &[KeptMessage], beside: &Tos) -> Result<Tos, AllocError>
    requires book { IsBook (texts_of kept.now) }
    requires beside { AreTos (texts_of kept.now) beside.now }
    ensures { IfOk result (AreTos (texts_of kept.now)) }
{
    let mut tos = Tos::new(alloc);
    let mut near = 0;
    for at in 0..kept.len() {
        let message = &kept[at];
        let number = message.number;
        match beside.get(number, &mut near) {
            Some(text) => put_text(&mut tos, number, text.copy(alloc)?)?,
            None => put_read_to(alloc, &mut tos, number, message.bytes.as_slice())?,
        }
    }
    Ok(tos)
}

/// How many of the messages have numbers from `low` up to `high`.
fn kept_between(kept: &[KeptMessage], low: u64, high: u64) -> usize
    requires { AllPairs (λ a b. a.0 < b.0) (texts_of kept.now) }
    ensures { result ≡ count_between low high (map (λ k. k.0) (texts_of kept.now)) }
{
    let from = kept.partition_point(|kept| kept.number < low);
    let to = kept.partition_point(|kept| kept.number <= high);
    to.saturating_sub(from)
}

/// The position of the message with these bytes, and, where there is none, the gap of these bytes in the order.
fn find(kept: &[KeptMessage], runs: &[PlaceRun], hash: u64, bytes: &[u8]) -> Result<usize, Gap>
    requires { IsInRuns (texts_of kept.now) runs.now }
    ensures found { IfOk result (λ position. (position < length kept.now) × (bytes_at (texts_of kept.now) position ≡ bytes.now)) }
    ensures gap { IfErr result (λ gap. IsGap (texts_of kept.now) (hash, bytes.now) (places_of runs.now) (index_of runs.now gap)) }
    ensures inside { IfErr result (λ gap. 0 < length runs.now → IsInside runs.now gap) }
{
    if runs.is_empty() {
        return Err(Gap { run: 0, place: 0 });
    }
    let begun = runs.partition_point(|run| begins_by(kept, run, hash, bytes));
    let run = begun.saturating_sub(1);
    let places = &runs[run].places;
    match search(kept, places, hash, bytes) {
        Ok(at) => Ok(places[at].position),
        Err(place) => Err(Gap { run, place }),
    }
}

/// Whether the first place of the run is not after this hash and these bytes.
#[inline(always)]
fn begins_by(kept: &[KeptMessage], run: &PlaceRun, hash: u64, bytes: &[u8]) -> bool
    ensures { result ≡ begins_by (texts_of kept.now) (hash, bytes.now) run.now }
{
    standing(kept, run.first, hash, bytes).is_le()
}

/// A copy of these bytes, in a spare buffer if there is one. Where there is none, it asks for room in which the buffers of as
/// many messages as are kept can be set aside, and does without it where there is no memory.
fn copy(spare: &mut Vec<Vec<u8>>, kept: usize, bytes: &[u8]) -> Result<Vec<u8>, AllocError>
    ensures { IfOk result (λ copy. copy.items ≡ bytes.now) }
{
    let Some(mut copy) = spare.pop() else {
        let _ = spare.reserve(kept);
        return Vec::from_slice(*spare.allocator(), bytes);
    };
    copy.clear();
    copy.extend_from_slice(bytes)?;
    Ok(copy)
}

/// The elements for messages whose places stand in the order: all of them, or all but the newest, which comes last.
fn placed<T>(all: &[T], is_loose: bool) -> &[T]
    ensures { result.now ≡ placed is_loose all.now }
{
    if is_loose {
        &all[..all.len().saturating_sub(1)]
    } else {
        all
    }
}

/// Puts the place of the newest message among the others, if it stands in no run yet. On an error it stands in none.
fn place_newest(
    kept: &[KeptMessage],
    runs: &mut Vec<PlaceRun>,
    loose: &mut Option<Loose>,
) -> Result<(), AllocError>
    requires book { IsBook (texts_of kept.now) }
    requires order { StandInRuns (texts_of kept.now) runs.old.items loose.old }
    ensures ok { OnOk result ((loose.new ≡ None) × IsInRuns (texts_of kept.now) runs.new.items) }
    ensures err { OnErr result (StandInRuns (texts_of kept.now) runs.new.items loose.new) }
{
    let Some(newest) = *loose else {
        return Ok(());
    };
    // The newest message is the last one of the list.
    let place = Place {
        hash: newest.hash,
        position: kept.len().saturating_sub(1),
    };
    // Where memory is refused, a run may have been halved, and so the gap is looked for anew.
    if let Err(refused) = insert(runs, newest.gap, place) {
        *loose = loosened(kept, runs, true);
        return Err(refused);
    }
    *loose = None;
    Ok(())
}

/// The gap into which the place of the newest message goes, if it stands in no run.
fn loosened(kept: &[KeptMessage], runs: &[PlaceRun], is_loose: bool) -> Option<Loose>
    requires book { IsBook (texts_of kept.now) }
    requires order { IsInRuns (placed is_loose (texts_of kept.now)) runs.now }
    ensures { StandInRuns (texts_of kept.now) runs.now result }
{
    if !is_loose {
        return None;
    }
    let Some((newest, others)) = kept.split_last() else {
        return None;
    };
    let bytes = newest.bytes.as_slice();
    let hash = hash(bytes);
    match find(others, runs, hash, bytes) {
        Ok(_) => None,
        Err(gap) => Some(Loose { hash, gap }),
    }
}

/// Takes the newest message out, if it has this number.
fn pop_newest(kept: &mut Vec<KeptMessage>, number: u64) -> Option<KeptMessage>
    ensures none { IfNone result (kept.new.items ≡ kept.old.items) }
    ensures some { IfSome result (λ newest. (newest.number ≡ number) × (kept.old.items ≡ kept.new.items ++ newest ∷ [])) }
{
    match kept.last() {
        Some(newest) if newest.number == number => kept.pop(),
        _ => None,
    }
}

/// Puts a place into the gap. On an error the places are as before.
fn insert(runs: &mut Vec<PlaceRun>, gap: Gap, place: Place) -> Result<(), AllocError>
    requires led { All IsLed runs.old.items }
    requires short { All (λ run. length run.places.items ≤ most_places) runs.old.items }
    requires inside { 0 < length runs.old.items → IsInside runs.old.items gap }
    ensures ok { OnOk result (places_of runs.new.items ≡ insert (places_of runs.old.items) (index_of runs.old.items gap) place) }
    ensures err { OnErr result (places_of runs.new.items ≡ places_of runs.old.items) }
    ensures led { All IsLed runs.new.items }
    ensures short { All (λ run. length run.places.items ≤ most_places) runs.new.items }
{
    // The first place of all begins a run.
    if runs.is_empty() {
        let mut places = Vec::new(*runs.allocator());
        places.push(place)?;
        runs.push(PlaceRun {
            first: place,
            places,
        })?;
        return Ok(());
    }
    let gap = make_room(runs, gap)?;
    let run = &mut runs[gap.run];
    run.places.insert(gap.place, place)?;
    // A place at the front of a run is told as its first one.
    if gap.place == 0 {
        run.first = place;
    }
    Ok(())
}

/// Halves the run of a gap where the run is full, so that it has room, and gives the gap as it is then. On an error the places are as before.
fn make_room(runs: &mut Vec<PlaceRun>, gap: Gap) -> Result<Gap, AllocError>
    requires led { All IsLed runs.old.items }
    requires short { All (λ run. length run.places.items ≤ most_places) runs.old.items }
    requires inside { IsInside runs.old.items gap }
    ensures inside { IfOk result (λ next. IsInside runs.new.items next) }
    ensures room { IfOk result (λ next. HoldsAt (λ run. length run.places.items < most_places) runs.new.items next.run) }
    ensures index { IfOk result (λ next. index_of runs.new.items next ≡ index_of runs.old.items gap) }
    ensures places { places_of runs.new.items ≡ places_of runs.old.items }
    ensures led { All IsLed runs.new.items }
    ensures short { All (λ run. length run.places.items ≤ most_places) runs.new.items }
{
    if runs[gap.run].places.len() < MOST {
        return Ok(gap);
    }
    // The second half gets a run of its own, in which the gap may lie then.
    runs.reserve(1)?;
    let places = runs[gap.run].places.split_off(MOST / 2)?;
    let first = places[0];
    runs.insert(gap.run + 1, PlaceRun { first, places })?;
    // A gap in the first half, or at its end, stays where it is.
    if gap.place <= MOST / 2 {
        return Ok(gap);
    }
    Ok(Gap {
        run: gap.run + 1,
        place: gap.place - MOST / 2,
    })
}

/// The place of the message with these bytes and this hash among places in order, or where it would go. The clauses say that the one at the
/// place compares as equal, or, where the places are in order, that those before it compare as less and the others as greater.
fn search(kept: &[KeptMessage], places: &[Place], hash: u64, bytes: &[u8]) -> Result<usize, usize>
    ensures within { IsSearchInRange result (length places.now) }
    ensures found { IsBinarySearchResult (λ place. compare (key_of (texts_of kept.now) place) (hash, bytes.now)) places.now result }
{
    places.binary_search_by(|place| standing(kept, *place, hash, bytes))
}

/// How the message at a place compares with one of this hash and these bytes: by the hash, and then by the bytes.
#[inline(always)]
fn standing(kept: &[KeptMessage], place: Place, hash: u64, bytes: &[u8]) -> Ordering
    ensures { result ≡ compare (key_of (texts_of kept.now) place) (hash, bytes.now) }
{
    match place.hash.cmp(&hash) {
        Ordering::Equal => bytes_at(kept, place.position).cmp(bytes),
        unequal => unequal,
    }
}

/// The bytes of the message at a position, and no bytes past the last message.
fn bytes_at(kept: &[KeptMessage], position: usize) -> &[u8]
    ensures { result.now ≡ bytes_at (texts_of kept.now) position }
{
    match kept.get(position) {
        Some(kept) => kept.bytes.as_slice(),
        None => &[],
    }
}
