// The open requests of a start.
ghost use Rattle.std.specs.Prelude.{◌≡◌, ◌<◌, ◌≤◌, ◌+◌, ◌++◌, ◌∷◌, [], IfOk, OnOk, MatchOption};
ghost use Rattle.id_rewrite.specs.Tables.{IsInOrder, pending_of, with_cancelled, without};

use id_rewrite::{IdTable, Pending};
use message_body::Memory;

// One request more, under the next number.
pub fn keep(ids: &mut IdTable, pending: Pending) -> Result<u32, Memory>
    requires { ids.old.next < ids.old.limit }
    ensures number { IfOk result (λ n. n ≡ ids.old.next) }
    ensures requests { OnOk result (ids.new.requests ≡ ids.old.requests ++ record { number = ids.old.next; pending = pending } ∷ []) }
    ensures next { OnOk result (ids.new.next ≡ ids.old.next + 1) }
    ensures limit { OnOk result (ids.new.limit ≡ ids.old.limit) }
    ensures order { OnOk result (IsInOrder ids.new) }
{
    ids.reserve()?;
    Ok(ids.put(pending))
}

// The request of this number is marked as cancelled, if it is open.
#[tactic(auto, using(crate::proofs::IdMoves::unmarked))]
pub fn mark(ids: &mut IdTable, n: u32)
    ensures requests { ids.new.requests ≡ with_cancelled n ids.old.requests }
    ensures next { ids.new.next ≡ ids.old.next }
    ensures limit { ids.new.limit ≡ ids.old.limit }
    ensures order { IsInOrder ids.new }
{
    if ids.get(n).is_some() {
        ids.cancel(n);
    }
}

// The request of this number is taken out, if one is named and open.
pub fn answer(ids: &mut IdTable, n: Option<u32>) -> Option<Pending>
    ensures value { MatchOption n (result ≡ None) (λ n. result ≡ pending_of n ids.old.requests) }
    ensures requests { MatchOption n (ids.new.requests ≡ ids.old.requests) (λ n. ids.new.requests ≡ without n ids.old.requests) }
    ensures next { ids.new.next ≡ ids.old.next }
    ensures limit { ids.new.limit ≡ ids.old.limit }
    ensures order { IsInOrder ids.old → IsInOrder ids.new }
{
    match n {
        None => None,
        Some(n) => ids.take(n),
    }
}

// The same where nothing is made of it.
pub fn forget(ids: &mut IdTable, n: Option<u32>)
    ensures requests { MatchOption n (ids.new.requests ≡ ids.old.requests) (λ n. ids.new.requests ≡ without n ids.old.requests) }
    ensures next { ids.new.next ≡ ids.old.next }
    ensures limit { ids.new.limit ≡ ids.old.limit }
    ensures order { IsInOrder ids.old → IsInOrder ids.new }
{
    answer(ids, n);
}
