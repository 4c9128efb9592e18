//! The turns delivered, and how far each caller has collected the replies in them.
ghost use Rattle.std.specs.Prelude.{◌≡◌, ◌+◌, ◌++◌, ◌∷◌, ◌<◌, ℕ, [], IfNone, IfSome, None, Some, length, slice_get};
ghost use Rattle.std.specs.Prelude.{slice_index_or, slice_set, vec_capacity, vec_len};
ghost use Rattle.turn_model.specs.inner.Runs.{HasCome, beginning, replies_to};

use posts::{CallerReplies, Reply, TurnPosts};

/// A turn that is delivered: its posts, and the replies to them.
#[derive(Drop)]
pub(crate) struct DeliveredTurn {
    pub posts: TurnPosts,
    pub replies: CallerReplies,
}

/// Where the next reply to a caller is looked for: in this one of the turns delivered, from this place on among the
/// replies to the caller.
#[derive(Clone, Copy)]
pub(crate) struct ReplyPlace {
    pub turn: usize,
    pub place: usize,
}

impl ReplyPlace {
    /// The place of the first reply in the first turn.
    pub(crate) fn beginning() -> ReplyPlace
        ensures { result ≡ beginning }
    {
        ReplyPlace { turn: 0, place: 0 }
    }
}

/// The place for a caller, or the beginning where there is no such caller.
pub(crate) fn place_of(places: &[ReplyPlace], caller: usize) -> ReplyPlace
    ensures { result ≡ slice_index_or places.now caller beginning }
{
    match places.get(caller) {
        Some(place) => *place,
        None => ReplyPlace::beginning(),
    }
}

/// Puts the place for a caller.
pub(crate) fn put_place(places: &mut Vec<ReplyPlace>, caller: usize, place: ReplyPlace)
    requires { caller < length places.old.items }
    ensures { places.new.items ≡ slice_set places.old.items caller place }
{
    places[caller] = place;
}

/// The next reply to a caller who has come to a place, and the place behind it. No turn before that place is looked at.
pub(crate) fn next_reply(
    delivered: &[DeliveredTurn],
    caller: usize,
    from: ReplyPlace,
) -> Option<(&Reply, ReplyPlace)>
    ensures reply { IfSome result (λ next. (count : ℕ) → HasCome delivered.now caller count from
        → Some next.0.now ≡ slice_get (replies_to caller delivered.now) count) }
    ensures place { IfSome result (λ next. (count : ℕ) → HasCome delivered.now caller count from
        → HasCome delivered.now caller (count + 1) next.1) }
    ensures none { IfNone result ((count : ℕ) → HasCome delivered.now caller count from
        → slice_get (replies_to caller delivered.now) count ≡ None) }
{
    let mut at = from;
    while at.turn < delivered.len() {
        let replies = replies_of(&delivered[at.turn], caller);
        if at.place < replies.len() {
            let behind = ReplyPlace {
                turn: at.turn,
                place: at.place + 1,
            };
            return Some((&replies[at.place], behind));
        }
        at = ReplyPlace {
            turn: at.turn + 1,
            place: at.place - replies.len(),
        };
    }
    None
}

/// The replies of a turn to a caller.
fn replies_of(turn: &DeliveredTurn, caller: usize) -> &[Reply]
    ensures { result.now ≡ slice_index_or turn.now.replies caller [] }
{
    match turn.replies.get(caller) {
        Some(replies) => replies.as_slice(),
        None => &[],
    }
}

/// Appends a turn, for which there is room.
pub(crate) fn push_turn(delivered: &mut Vec<DeliveredTurn>, turn: DeliveredTurn)
    requires { vec_len delivered.old < vec_capacity delivered.old }
    ensures { delivered.new.items ≡ delivered.old.items ++ turn ∷ [] }
{
    let Ok(()) = delivered.push(turn) else {
        unreachable!();
    };
}
