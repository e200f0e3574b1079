//! How a book forgets messages: places move, and messages go.
ghost use Rattle.std.specs.Prelude.{◌≡◌, ◌<◌, ◌≤◌, length, take, All, AllPairs};
ghost use Rattle.std.specs.List.{filter_map};
ghost use Rattle.sip_machine.specs.inner.Retain.{number_at, moved, merged};
ghost use Rattle.sip_machine.specs.inner.Order.{texts_of, places_of, most_places, IsLed};

use super::{KeptMessage, Place, PlaceRun};

/// The number of the message at a position, and 0 past the last one.
fn number_at(kept: &[KeptMessage], position: usize) -> u64
    ensures { result ≡ number_at (texts_of kept.now) position }
{
    match kept.get(position) {
        Some(kept) => kept.number,
        None => 0,
    }
}

/// The place of a message once the messages of these numbers alone are kept, if it is one of them.
fn moved(kept: &[KeptMessage], place: Place, numbers: &[u64]) -> Option<Place>
    requires { AllPairs (λ a b. a < b) numbers.now }
    ensures { result ≡ moved (texts_of kept.now) numbers.now place }
{
    let number = number_at(kept, place.position);
    match numbers.binary_search(&number) {
        Ok(position) => Some(Place { position, ..place }),
        Err(_) => None,
    }
}

/// Moves the places of the messages with these numbers, and drops those of the others.
fn move_places(places: &mut Vec<Place>, kept: &[KeptMessage], numbers: &[u64])
    requires { AllPairs (λ a b. a < b) numbers.now }
    ensures places { places.new.items ≡ filter_map (moved (texts_of kept.now) numbers.now) places.old.items }
    ensures fewer { length places.new.items ≤ length places.old.items }
{
    let mut left = 0;
    for i in 0..places.len() {
        // The places that stay are written one after another at the front, where `left` of them stand.
        if let Some(place) = moved(kept, places[i], numbers) {
            places[left] = place;
            left += 1;
        }
    }
    places.truncate(left);
}

/// Moves the places of one run, and drops those of messages that go. The run may be left without a place.
fn move_run(run: &mut PlaceRun, kept: &[KeptMessage], numbers: &[u64])
    requires { AllPairs (λ a b. a < b) numbers.now }
    ensures places { run.new.places.items ≡ filter_map (moved (texts_of kept.now) numbers.now) run.old.places.items }
    ensures fewer { length run.new.places.items ≤ length run.old.places.items }
    ensures led { 0 < length run.new.places.items → IsLed run.new }
{
    move_places(&mut run.places, kept, numbers);
    if !run.places.is_empty() {
        run.first = run.places[0];
    }
}

/// Moves the places of all runs, and drops the runs that are left without a place.
pub(super) fn move_all(runs: &mut Vec<PlaceRun>, kept: &[KeptMessage], numbers: &[u64])
    requires rising { AllPairs (λ a b. a < b) numbers.now }
    requires short { All (λ run. length run.places.items ≤ most_places) runs.old.items }
    ensures places { places_of runs.new.items ≡ filter_map (moved (texts_of kept.now) numbers.now) (places_of runs.old.items) }
    ensures led { All IsLed runs.new.items }
    ensures short { All (λ run. length run.places.items ≤ most_places) runs.new.items }
{
    for i in 0..runs.len() {
        move_run(&mut runs[i], kept, numbers);
    }
    runs.retain(|run| !run.places.is_empty());
}

/// Keeps the messages with these numbers alone, and sets buffers of the others aside.
pub(super) fn keep_only(kept: &mut Vec<KeptMessage>, spare: &mut Vec<Vec<u8>>, numbers: &[u64])
    ensures { texts_of kept.new.items ≡ merged numbers.now (texts_of kept.old.items) }
{
    let mut left = 0;
    for i in 0..kept.len() {
        // Messages and numbers rise, so the next message that stays is the one with the number at `left`.
        if left < numbers.len() && kept[i].number == numbers[left] {
            kept.swap(left, i);
            left += 1;
        }
    }
    set_aside(kept, spare, left);
    kept.truncate(left);
}

/// How many more buffers are set aside than messages stay.
const MORE: usize = 64;

/// Sets the buffers of the last messages aside until `left` messages are left, but only as many as there are to be, and as
/// there is room for.
fn set_aside(kept: &mut Vec<KeptMessage>, spare: &mut Vec<Vec<u8>>, left: usize)
    requires { left ≤ length kept.old.items }
    ensures { take left kept.new.items ≡ take left kept.old.items }
{
    let most = left.saturating_add(MORE);
    spare.truncate(most);
    for _ in spare.len()..most.min(spare.capacity()) {
        if kept.len() <= left {
            return;
        }
        if let Some(last) = kept.pop() {
            let _ = spare.push(last.bytes);
        }
    }
}

/// Sets the buffer of a message that was forgotten aside.
pub(super) fn lay_aside(spare: &mut Vec<Vec<u8>>, bytes: Vec<u8>) {
    if spare.len() < MORE {
        let _ = spare.push(bytes);
    }
}
