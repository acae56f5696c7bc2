//! Whether sections share a byte.

ghost use Rattle.std.specs.Prelude.{◌≡◌, ◌+◌, ◌≤◌, ◌<◌, ◌^◌, All};
ghost use Rattle.std.specs.Bool.{OnTrue};
ghost use Rattle.std.specs.List.Sorted.{IsNonDecreasingBy};
ghost use Rattle.perf_sections.specs.Sections.{are_apart, ShareNothing, IsSmall};

use crate::section::Section;

// Whether none of these, which begin in rising order, shares a byte with another.
pub fn sorted_are_apart(sections: &[Section]) -> bool
    requires small { All IsSmall sections.now }
    requires sorted { IsNonDecreasingBy (λ (s : Section). s.start) sections.now }
    ensures value { result ≡ are_apart sections.now }
    ensures nothing { OnTrue result (ShareNothing sections.now) }
{
    let mut reach = 0;
    for section in sections {
        if section.size > 0 {
            if section.start < reach {
                return false;
            }
            reach = section.start + section.size;
        }
    }
    true
}

/// Whether none of these sections shares a byte with another. They are sorted for this.
pub fn sections_are_apart(mut sections: Vec<Section>) -> bool
    requires { All IsSmall sections.items }
    ensures value { result ≡ are_apart sections.items }
    ensures nothing { OnTrue result (ShareNothing sections.items) }
{
    sections.sort_unstable_by_key(|section| section.start);
    sorted_are_apart(&sections)
}
