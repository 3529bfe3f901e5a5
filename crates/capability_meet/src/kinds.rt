// How two values stand to each other by their kinds.
ghost use Rattle.std.specs.Prelude.{◌≡◌};
ghost use Rattle.capability_meet.specs.Kinds.{pair_of};

use json_text::Kind;

// Two kinds: the first is null or false, both are arrays, both are objects, or anything else.
#[derive(Clone, Copy)]
pub enum Pair {
    Least,
    Arrays,
    Objects,
    Others,
}

pub fn pair_of(kind: Kind, other: Kind) -> Pair
    ensures { result ≡ pair_of kind other }
{
    match (kind, other) {
        (Kind::Null | Kind::False, _) => Pair::Least,
        (Kind::Array, Kind::Array) => Pair::Arrays,
        (Kind::Object, Kind::Object) => Pair::Objects,
        _ => Pair::Others,
    }
}
