//! The first of several faults.
ghost use Rattle.std.specs.Prelude.{◌≡◌, ◌||◌, ◌&&◌, nat_lt, nat_eq, option_map, string_bytes, None};
ghost use Rattle.std.specs.Ordering.{nat_cmp, is_lt};
ghost use Rattle.std.specs.Cmp.Lexicographic.{slice_cmp};
ghost use Rattle.mux_config.specs.Faults.{Fault, first_of, goes_first, rank};

use std::marker::Model;

/// What is wrong with a path.
#[derive(Clone, Copy, Debug, PartialEq, Eq)]
pub enum Sort {
    Unknown,
    Missing,
    Range,
}

fn rank(sort: Sort) -> u8
    ensures { result ≡ rank sort }
{
    match sort {
        Sort::Unknown => 0,
        Sort::Missing => 1,
        Sort::Range => 2,
    }
}

/// The first of the faults that were noted: the unknown before the missing, these before those out of range, and of one
/// sort the least path in byte order.
#[derive(Debug, Drop)]
pub struct First {
    fault: Option<(Sort, String)>,
}

impl Model for First {
    ghost use Rattle.std.specs.Prelude.{Option, option_map, string_bytes};
    ghost use Rattle.mux_config.specs.Faults.{Fault};

    ghost Value = { Option Fault };

    ghost view = { λ f. option_map (λ p. record { sort = p.0; path = string_bytes p.1 }) f.fault };
}

impl First {
    pub fn new() -> First
        ensures { result ≡ None }
    {
        First { fault: None }
    }

    pub fn note(&mut self, sort: Sort, path: String)
        ensures { self.new ≡ first_of self.old (record { sort = sort; path = string_bytes path }) }
    {
        if self.goes_behind(sort, path.as_str()) {
            self.fault = Some((sort, path));
        }
    }

    // Whether a fault comes before the noted one, or none was noted.
    fn goes_behind(&self, sort: Sort, path: &str) -> bool
        ensures { result ≡ goes_first (record { sort = sort; path = path.now }) self.now }
    {
        match &self.fault {
            None => true,
            Some((noted, at)) => {
                rank(sort) < rank(*noted) || (rank(sort) == rank(*noted) && path < at.as_str())
            }
        }
    }

    pub fn fault(self) -> Option<(Sort, String)>
        ensures { option_map (λ p. record { sort = p.0; path = string_bytes p.1 }) result ≡ self }
    {
        self.fault
    }
}
