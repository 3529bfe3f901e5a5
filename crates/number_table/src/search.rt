// Where a number is among those that are kept.
ghost use Rattle.std.specs.Prelude.{◌≡◌, ◌<◌, ℕ, None, IfNone, IfSome, length};
ghost use Rattle.std.specs.List.{remove};
ghost use Rattle.number_table.specs.Numbers.{IsAt, Rise, held};

use crate::numbered::Numbered;

/// The place of a number among those that are kept, by a bisection.
pub fn place_of<T>(kept: &[Numbered<T>], number: u64) -> Option<usize>
    requires { (count : ℕ) × Rise 0 count kept.now }
    ensures found { IfSome result (λ k. IsAt kept.now number k) }
    ensures none { IfNone result (held number kept.now ≡ None) }
{
    match kept.binary_search_by_key(&number, |one| one.number) {
        Ok(at) => Some(at),
        Err(_) => None,
    }
}

/// What is kept in a place is forgotten; what lies behind it moves by one place.
pub fn forget<T: Drop>(kept: &mut Vec<Numbered<T>>, at: usize)
    requires { at < length kept.old.items }
    ensures { kept.new.items ≡ remove kept.old.items at }
{
    kept.remove(at);
}
