//! The work on the places of memory, each of which holds a record or none.
ghost use Rattle.std.specs.Prelude.{Bool, ◌≡◌, ◌<◌, ◌≤◌, ℕ, ◌/◌, ◌^◌, [], length, take, Some, None, Ok, Err, filter, MatchResult, slice_index_or, slice_set};
ghost use Rattle.ordered.specs.Answers.{equal_to, put_answer, Put, Replaced, Taken};
ghost use Rattle.ordered.specs.Places.{alike, full, present, records, Ordered};
ghost use Rattle.ordered.specs.Ranks.{held_before, rank, Fits};
ghost use Rattle.ordered.specs.Selected.{others, those, DecidedBy};
ghost use Rattle.ordered.specs.Staying.{staying};
ghost use Rattle.std.specs.Option.{is_some, option_map};
ghost use Rattle.std.specs.List.{list_all, prefix_len, slice_get};

use crate::list::PutRefusal;
use crate::order::Ranked;

// Empties every place.
pub(crate) fn clear<T: Ranked + Drop>(places: &mut [Option<T>])
    ensures none { records places.new ≡ [] }
    ensures stays { Ordered T.precedes places.new }
{
    places.fill_with(|| None);
}

// How many records stand before the first empty place.
pub(crate) fn count<T>(places: &[Option<T>]) -> usize
    ensures { result ≡ prefix_len is_some places.now }
{
    places.iter().take_while(|place| place.is_some()).count()
}

// Whether no place is empty.
pub(crate) fn is_full<T>(places: &[Option<T>]) -> bool
    ensures { result ≡ list_all is_some places.now }
{
    places.iter().all(|place| place.is_some())
}

// The record at a place.
pub(crate) fn record_at<T: Ranked>(places: &[Option<T>], place: usize) -> Option<&T>
    requires { Ordered T.precedes places.now }
    ensures { option_map (λ x. x.now) result ≡ slice_get (records places.now) place }
{
    places.get(place)?.as_ref()
}

// Whether two records are equal in the order.
fn is_alike<T: Ranked>(a: &T, b: &T) -> bool
    ensures { result ≡ alike T.precedes a.now b.now }
{
    !a.before(b) && !b.before(a)
}

// Whether a place holds a record that comes before another.
fn holds_before<T: Ranked>(place: &Option<T>, item: &T) -> bool
    ensures { result ≡ held_before T.precedes item.now place.now }
{
    place.as_ref().is_some_and(|held| held.before(item))
}

// Whether the record at a place is equal in the order to another.
fn is_equal_at<T: Ranked>(places: &[Option<T>], place: usize, item: &T) -> bool
    requires { Ordered T.precedes places.now }
    ensures { result ≡ equal_to T.precedes item.now (slice_get (records places.now) place) }
{
    record_at(places, place).is_some_and(|held| is_alike(item, held))
}

// The least power of two that is greater than the place of an item.
#[tactic(auto, using(crate::proofs::Reading::rank_in_places))]
fn reach_of<T: Ranked>(places: &[Option<T>], item: &T) -> usize
    requires { Ordered T.precedes places.now }
    ensures power { (k : ℕ) × (result ≡ 2 ^ k) }
    ensures past { rank T.precedes item.now (records places.now) < result }
    ensures half { result / 2 ≤ rank T.precedes item.now (records places.now) }
{
    // No method of a slice searches it from the front by doubling.
    let mut reach = 1;
    while reach <= places.len() && holds_before(&places[reach - 1], item) {
        reach *= 2;
    }
    reach
}

// How many records come before an item: the place where it belongs. The front that is searched doubles until it ends behind that
// place, so that a place near the front of a long list is found at once.
#[tactic(auto, using(crate::proofs::Reading::rank_in_places))]
fn rank_of<T: Ranked>(places: &[Option<T>], item: &T) -> usize
    requires { Ordered T.precedes places.now }
    ensures { result ≡ rank T.precedes item.now (records places.now) }
{
    // The records before `low` come before the item, and none from `high` on does.
    let reach = reach_of(places, item);
    let low = reach / 2;
    let high = (reach - 1).min(places.len());
    low + places[low..high].partition_point(|place| holds_before(place, item))
}

// Whether a record equal in the order stands there: it would stand where the item belongs.
fn is_present<T: Ranked>(places: &[Option<T>], at: usize, item: &T) -> bool
    requires ordered { Ordered T.precedes places.now }
    requires belongs { at ≡ rank T.precedes item.now (records places.now) }
    ensures { result ≡ present T.precedes item.now (records places.now) }
{
    is_equal_at(places, at, item)
}

// The place where an item can be put in, or why it is refused.
#[tactic(auto, using(crate::proofs::Reading::filled))]
fn place_for<T: Ranked>(places: &[Option<T>], item: &T) -> Result<usize, PutRefusal>
    requires { Ordered T.precedes places.now }
    ensures { MatchResult result (λ at. Fits T.precedes item.now places.now at) (λ e. Err e ≡ put_answer T.precedes item.now places.now) }
{
    let at = rank_of(places, item);
    if is_present(places, at, item) {
        return Err(PutRefusal::Present);
    }
    if is_full(places) {
        return Err(PutRefusal::Full);
    }
    Ok(at)
}

// Puts a record in at its place, and moves those from there on back by one.
fn open_at<T: Ranked + Drop>(places: &mut [Option<T>], at: usize, item: T)
    requires ordered { Ordered T.precedes places.old }
    requires fits { Fits T.precedes item places.old at }
    requires within { at < length places.old }
    ensures { Put T.precedes item places.old (Ok tt) places.new }
{
    let rest = &mut places[at..];
    rest.rotate_right(1);
    rest[0] = Some(item);
}

// Takes out what stands at a place, and moves those behind it up by one.
fn close_at<T: Ranked + Drop>(places: &mut [Option<T>], at: usize) -> Option<T>
    requires ordered { Ordered T.precedes places.old }
    requires within { at < length places.old }
    ensures { Taken T.precedes at places.old result places.new }
{
    let rest = &mut places[at..];
    let taken = rest[0].take();
    rest.rotate_left(1);
    taken
}

// Writes a record at a place, and answers what stood there.
fn write_at<T: Drop>(places: &mut [Option<T>], place: usize, item: T) -> Option<T>
    requires { place < length places.old }
    ensures value { result ≡ slice_index_or places.old place None }
    ensures after { places.new ≡ slice_set places.old place (Some item) }
{
    places[place].replace(item)
}

// Puts a record in where it belongs.
#[tactic(auto, using(crate::proofs::Steps::fits_within))]
pub(crate) fn put_in<T: Ranked + Drop>(places: &mut [Option<T>], item: T) -> Result<(), PutRefusal>
    requires { Ordered T.precedes places.old }
    ensures { Put T.precedes item places.old result places.new }
{
    let at = place_for(places, &item)?;
    open_at(places, at, item);
    Ok(())
}

// Takes out the record at a place.
pub(crate) fn take_out<T: Ranked + Drop>(places: &mut [Option<T>], place: usize) -> Option<T>
    requires { Ordered T.precedes places.old }
    ensures { Taken T.precedes place places.old result places.new }
{
    if place < places.len() {
        close_at(places, place)
    } else {
        None
    }
}

// Writes a record over the one at a place, if the two are equal in the order.
pub(crate) fn write_over<T: Ranked + Drop>(
    places: &mut [Option<T>],
    place: usize,
    item: T,
) -> Option<T>
    requires { Ordered T.precedes places.old }
    ensures { Replaced T.precedes place item places.old result places.new }
{
    if !is_equal_at(places, place, &item) {
        return None;
    }
    write_at(places, place, item)
}

// Whether a place holds a record that stays.
fn is_staying<T, F: Fn(&T) -> bool>(place: &Option<T>, leaves: &F) -> bool
    requires { F.IsAlwaysCallable leaves.now }
    ensures { (test : T → Bool) → DecidedBy F.Fn leaves.now test → result ≡ staying test place.now }
{
    place.as_ref().is_some_and(|held| !leaves(held))
}

// Moves the records that stay to the front, in their order, and answers how many they are.
fn gather<T: Drop, F: Fn(&T) -> bool>(places: &mut [Option<T>], leaves: F) -> usize
    requires callable { F.IsAlwaysCallable leaves }
    requires decided { (test : T → Bool) × DecidedBy F.Fn leaves test }
    ensures front { (test : T → Bool) → DecidedBy F.Fn leaves test → take result places.new ≡ filter (staying test) places.old }
    ensures within { result ≤ length places.new }
{
    // No method of a slice drops records and keeps the order of the others, so the place to move to is counted here.
    let mut to = 0;
    for at in 0..places.len() {
        if is_staying(&places[at], &leaves) {
            places.swap(to, at);
            to += 1;
        }
    }
    to
}

// Takes out every record that leaves, and answers how many they were.
pub(crate) fn remove_those<T: Ranked + Drop, F: Fn(&T) -> bool>(
    places: &mut [Option<T>],
    leaves: F,
) -> usize
    requires ordered { Ordered T.precedes places.old }
    requires callable { F.IsAlwaysCallable leaves }
    requires decided { (test : T → Bool) × DecidedBy F.Fn leaves test }
    ensures removed { (test : T → Bool) → DecidedBy F.Fn leaves test → records places.new ≡ others test (records places.old) }
    ensures count { (test : T → Bool) → DecidedBy F.Fn leaves test → result ≡ length (those test (records places.old)) }
    ensures stays { Ordered T.precedes places.new }
{
    let before = count(places);
    let after = gather(places, leaves);
    clear(&mut places[after..]);
    before - after
}
