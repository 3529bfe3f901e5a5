// A source of bytes.
ghost use Rattle.std.specs.Prelude.{◌≡◌, ℕ, ◌<◌, List, [], length, take, IfOk, OnErr, IfSome, Option};
ghost use Rattle.std.specs.Io.{ReadsAtMost};
ghost use Rattle.std.specs.Io.KnownBytes.{append_known, prepend_known};
ghost use Rattle.outside_io.specs.Faults.{HasCause};

/// A read that took nothing, because the outside failed.
#[derive(Clone, Copy, Debug, PartialEq, Eq)]
pub enum ReadFault {
    Failed,
}

/// Where bytes come from.
///
/// A source may tell its bytes: those taken and those that are left. It tells after a call exactly where it told
/// before. Its count of faults never falls; it stands still at 2^64 - 1.
pub trait Source {
    /// The bytes that reads gave, where they are told.
    ghost taken: { Self → Option (List ℕ) };

    /// The bytes that are left, where they are told.
    ghost left: { Self → Option (List ℕ) };

    /// How many reads failed.
    ghost faults: { Self → ℕ };

    /// Puts the next bytes at the front of `buf` and answers how many; 0 for a `buf` that isn't empty is the end.
    fn read(&mut self, buf: &mut [u8]) -> Result<usize, ReadFault>
        ensures bound { ReadsAtMost result buf.new }
        ensures left { IfOk result (λ n. left self.old ≡ prepend_known (take n buf.new) (left self.new)) }
        ensures taken { IfOk result (λ n. taken self.new ≡ append_known (taken self.old) (take n buf.new)) }
        ensures left_kept { OnErr result (left self.new ≡ left self.old) }
        ensures taken_kept { OnErr result (taken self.new ≡ taken self.old) }
        ensures end { result ≡ Ok 0 → 0 < length buf.new → IfSome (left self.new) (λ bytes. bytes ≡ []) }
        ensures cause { HasCause (faults self.old) (faults self.new) result };
}
