//! Sums by which texts are told apart without a look at all their bytes.
ghost use Rattle.std.specs.Prelude.{◌≡◌, ◌++◌, ℕ, List, [], IfSome};
ghost use Rattle.text_pieces.specs.Sums.{sums_of};

/// What the bytes of a text sum up to.
#[derive(Clone, Copy)]
pub struct Sums {
    /// How many there are.
    pub length: u64,
    pub total: u64,
    /// Each byte as often as its place says, from 1.
    pub weighted: u64,
}

impl Sums {
    /// The sums of no bytes.
    pub fn none() -> Sums
        ensures { result ≡ sums_of [] }
    {
        Sums {
            length: 0,
            total: 0,
            weighted: 0,
        }
    }

    /// The sums of the text and another one behind it; none where they are too great.
    pub fn before(self, behind: Sums) -> Option<Sums>
        ensures { (a b : List ℕ) → self ≡ sums_of a → behind ≡ sums_of b → IfSome result (λ sums. sums ≡ sums_of (a ++ b)) }
    {
        let shift = self.length.checked_mul(behind.total)?;
        let moved = shift.checked_add(behind.weighted)?;
        let length = self.length.checked_add(behind.length)?;
        let total = self.total.checked_add(behind.total)?;
        let weighted = self.weighted.checked_add(moved)?;
        Some(Sums {
            length,
            total,
            weighted,
        })
    }

    /// The sums of these bytes; none where they are too great. The time is linear in them.
    pub fn of(bytes: &[u8]) -> Option<Sums>
        ensures { IfSome result (λ sums. sums ≡ sums_of bytes.now) }
    {
        let mut sums = Sums::none();
        for byte in bytes {
            let value = u64::from(*byte);
            let one = Sums {
                length: 1,
                total: value,
                weighted: value,
            };
            sums = sums.before(one)?;
        }
        Some(sums)
    }
}
