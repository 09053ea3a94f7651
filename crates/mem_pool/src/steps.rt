//! The kinds of step, each as a function of the word and of a seat's place at it.

ghost use Rattle.std.specs.Prelude.{◌≡◌, ◌+◌, ◌^◌, ◌<◌, ◌≤◌, []};
ghost use Rattle.mem_pool.specs.Rule.{greatest_take};
ghost use Rattle.mem_pool.specs.Seats.{IsResting, Sees, seated_of};
ghost use Rattle.mem_pool.specs.Steps.{granted, joined_view, left_view, new_view, refused, released, undone};

use crate::rule::{Looking, Place, Releasing, Sharers, Taking, Undoing, Word};

/// Adds `k` and tells what the word was: a take, which fits or is to be undone.
pub(crate) fn add(word: &Word, place: &mut Place, k: u64) -> u64
    requires table { place.old.table_id ≡ word.now.shared.table_id }
    requires words { word.now.shared.table_id.words ≡ 1 }
    requires rest { IsResting place.old.me }
    requires most { k ≤ greatest_take }
    ensures table { place.new.table_id ≡ place.old.table_id }
    ensures small { result < 2 ^ 61 }
    ensures sees { Sees result (seated_of place.old.table_id place.old.me.0) }
    ensures fits { result + k ≤ place.old.me.0.cap → place.new.me.0 ≡ granted k place.old.me.0 }
    ensures passes { place.old.me.0.cap < result + k → place.new.me.0 ≡ refused k result place.old.me.0 }
    ensures bare { place.new.me.1 ≡ [] }
{
    word.shared.fetch_add::<Taking>(place, 0, k)
}

/// Takes off again what a take that didn't fit had added.
pub(crate) fn undo(word: &Word, place: &mut Place, k: u64)
    requires table { place.old.table_id ≡ word.now.shared.table_id }
    requires words { word.now.shared.table_id.words ≡ 1 }
    requires live { place.old.me.0.live ≡ 1 }
    requires pending { k ≤ place.old.me.0.pending }
    ensures table { place.new.table_id ≡ place.old.table_id }
    ensures undone { place.new.me ≡ (undone k place.old.me.0, place.old.me.1) }
{
    word.shared.fetch_sub::<Undoing>(place, 0, k);
}

/// Takes off what the seat holds.
pub(crate) fn give_back(word: &Word, place: &mut Place, k: u64)
    requires table { place.old.table_id ≡ word.now.shared.table_id }
    requires words { word.now.shared.table_id.words ≡ 1 }
    requires live { place.old.me.0.live ≡ 1 }
    requires held { k ≤ place.old.me.0.held }
    ensures table { place.new.table_id ≡ place.old.table_id }
    ensures released { place.new.me ≡ (released k place.old.me.0, place.old.me.1) }
{
    word.shared.fetch_sub::<Releasing>(place, 0, k);
}

pub(crate) fn look(word: &Word, place: &mut Place) -> u64
    requires table { place.old.table_id ≡ word.now.shared.table_id }
    requires words { word.now.shared.table_id.words ≡ 1 }
    requires rest { IsResting place.old.me }
    ensures table { place.new.table_id ≡ place.old.table_id }
    ensures same { place.new.me ≡ place.old.me }
    ensures sees { Sees result (seated_of place.new.table_id place.new.me.0) }
{
    word.shared.load::<Looking>(place, 0)
}

pub(crate) fn split(word: &Word, place: &mut Place) -> Place
    requires table { place.old.table_id ≡ word.now.shared.table_id }
    requires words { word.now.shared.table_id.words ≡ 1 }
    requires live { place.old.me.0.live ≡ 1 }
    requires may_split { 1 ≤ place.old.me.0.may_split }
    ensures table { place.new.table_id ≡ place.old.table_id }
    ensures left { place.new.me ≡ (left_view place.old.me.0, place.old.me.1) }
    ensures new_table { result.table_id ≡ place.old.table_id }
    ensures new { result.me ≡ (new_view place.old.me.0, []) }
{
    word.shared.split_seat::<Sharers>(place)
}

pub(crate) fn join(word: &Word, place: &mut Place, other: Place)
    requires table { place.old.table_id ≡ word.now.shared.table_id }
    requires other_table { other.table_id ≡ word.now.shared.table_id }
    requires words { word.now.shared.table_id.words ≡ 1 }
    requires rest { IsResting place.old.me }
    requires other_rest { IsResting other.me }
    ensures table { place.new.table_id ≡ place.old.table_id }
    ensures joined { place.new.me ≡ (joined_view place.old.me.0 other.me.0, place.old.me.1) }
{
    word.shared.join_seat::<Sharers>(place, other);
}

/// Ends the word, and tells what it was.
pub(crate) fn end(word: Word, place: Place) -> u64
    requires table { place.table_id ≡ word.shared.table_id }
    requires words { word.shared.table_id.words ≡ 1 }
    requires slots { word.shared.table_id.slots ≡ 0 }
    requires rest { IsResting place.me }
    ensures sees { Sees result (seated_of place.table_id place.me.0) }
{
    let closed = word.close_with(place);
    let last = closed.word(0);
    closed.free();
    last
}
