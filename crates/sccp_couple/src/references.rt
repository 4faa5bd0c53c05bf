//! The two smallest local references that no section has.
ghost use Rattle.std.specs.Prelude.{◌≡◌, ◌==◌, ◌+◌, ◌<◌, ◌≤◌, ℕ, length, filter, false, slice_index, get_or, All};
ghost use Rattle.std.specs.List.{list_any, range_with_len};
ghost use Rattle.sccp_couple.specs.Sections.{first_new, second_new};
ghost use Rattle.sccp_couple.specs.Marked.{is_unmarked};

use crate::section::Section;
use sccp_base::Reference;

/// Sets the mark of each own reference, if there is a mark for it.
fn mark_own(marks: &mut [bool], sections: &[Section])
    requires fresh { All (λ mark. mark ≡ false) marks.old }
    ensures count { length marks.new ≡ length marks.old }
    ensures marks { (n : ℕ) → n < length marks.new → get_or marks.new n false ≡ list_any (λ s. s.own == n) sections.now }
{
    for section in sections.iter() {
        let own = section.own.value() as usize;
        if own < marks.len() {
            marks[own] = true;
        }
    }
}

/// Whether the mark of a number is not set.
fn is_unmarked(marks: &[bool], number: u32) -> bool
    requires { number < length marks.now }
    ensures { result ≡ is_unmarked marks.now number }
{
    !marks[number as usize]
}

/// The least number without a mark, of `count` numbers that begin at `from`.
fn least_unmarked(marks: &[bool], from: u32, count: u32) -> Reference
    requires marks { from + count ≤ length marks.now }
    requires small { length marks.now ≤ 4097 }
    requires some { 0 < length (filter (is_unmarked marks.now) (range_with_len from count)) }
    ensures { result ≡ slice_index (filter (is_unmarked marks.now) (range_with_len from count)) 0 }
{
    for number in from..from + count {
        if let Some(own) = Reference::new(number) {
            if is_unmarked(marks, number) {
                return own;
            }
        }
    }
    unreachable!()
}

/// The two smallest references that no section has, the smaller one first. No mark is set at the start.
fn new_by_marks(marks: &mut [bool], sections: &[Section]) -> (Reference, Reference)
    requires few { length sections.now ≤ 4094 }
    requires count { length marks.old ≡ 4097 }
    requires fresh { All (λ mark. mark ≡ false) marks.old }
    ensures near { result.0 ≡ first_new sections.now }
    ensures far { result.1 ≡ second_new sections.now }
{
    mark_own(marks, sections);
    let count = sections.len() as u32 + 2;
    let near = least_unmarked(marks, 1, count);
    let number = near.value();
    let far = least_unmarked(marks, number + 1, count - number);
    (near, far)
}

/// The two smallest references that no section has, the smaller one first.
pub(crate) fn new_references(sections: &[Section]) -> (Reference, Reference)
    requires { length sections.now ≤ 4094 }
    ensures near { result.0 ≡ first_new sections.now }
    ensures far { result.1 ≡ second_new sections.now }
{
    new_by_marks(&mut [false; 4097], sections)
}
