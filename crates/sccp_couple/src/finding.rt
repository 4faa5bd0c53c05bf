//! Sections of a list, looked up and changed by their own reference.
ghost use Rattle.std.specs.Prelude.{◌≡◌, ◌==◌, Some, IfSome};
ghost use Rattle.std.specs.List.{list_any};
ghost use Rattle.std.specs.Option.{option_copied};
ghost use Rattle.sccp_couple.specs.Invariant.{OwnDiffer};
ghost use Rattle.sccp_couple.specs.Sections.{section_at, is_near_of, change, changed, confirmed, released, without};

use crate::section::Section;
use sccp_base::{PointCode, Reference};

/// The section with an own reference, if there is one.
fn found_at(sections: &[Section], own: Reference) -> Option<&Section>
    ensures { option_copied result ≡ section_at sections.now own }
{
    sections.iter().find(|s| s.own == own)
}

/// A copy of the section with an own reference, if there is one.
pub fn section_at(sections: &[Section], own: Reference) -> Option<Section>
    ensures { result ≡ section_at sections.now own }
{
    match found_at(sections, own) {
        Some(section) => Some(*section),
        None => None,
    }
}

/// The section at a place of the list, if it is the one with that own reference.
pub(crate) fn section_here(sections: &[Section], place: usize, own: Reference) -> Option<Section>
    requires { OwnDiffer sections.now }
    ensures { IfSome result (λ s. section_at sections.now own ≡ Some s) }
{
    let section = *sections.get(place)?;
    if section.own == own {
        Some(section)
    } else {
        None
    }
}

/// Whether some near section has this point and remote.
pub(crate) fn has_near(sections: &[Section], point: PointCode, remote: Reference) -> bool
    ensures { result ≡ list_any (is_near_of point remote) sections.now }
{
    sections
        .iter()
        .any(|s| s.near && s.point == point && s.remote == Some(remote))
}

/// Ends one section.
pub(crate) fn end(sections: &mut Vec<Section>, own: Reference)
    ensures { sections.new.items ≡ without own sections.old.items }
{
    sections.retain(|s| !(s.own == own));
}

/// The section with this remote reference, if it is the one meant; otherwise as it was.
fn confirmed(section: Section, own: Reference, remote: Reference) -> Section
    ensures { result ≡ change (confirmed remote) own section }
{
    if section.own == own {
        Section {
            remote: Some(remote),
            ..section
        }
    } else {
        section
    }
}

/// Notes the remote reference of one section of a slice.
fn confirm_among(sections: &mut [Section], own: Reference, remote: Reference)
    ensures { sections.new ≡ changed (confirmed remote) own sections.old }
{
    for section in sections.iter_mut() {
        *section = confirmed(*section, own, remote);
    }
}

/// Notes the remote reference of one section.
pub(crate) fn confirm(sections: &mut Vec<Section>, own: Reference, remote: Reference)
    ensures { sections.new.items ≡ changed (confirmed remote) own sections.old.items }
{
    confirm_among(sections.as_mut_slice(), own, remote);
}

/// The section without its other, if it is the one meant; otherwise as it was.
fn released(section: Section, own: Reference) -> Section
    ensures { result ≡ change released own section }
{
    if section.own == own {
        Section {
            other: None,
            ..section
        }
    } else {
        section
    }
}

/// Begins the release of one section of a slice.
fn release_among(sections: &mut [Section], own: Reference)
    ensures { sections.new ≡ changed released own sections.old }
{
    for section in sections.iter_mut() {
        *section = released(*section, own);
    }
}

/// Begins the release of one section.
pub(crate) fn release(sections: &mut Vec<Section>, own: Reference)
    ensures { sections.new.items ≡ changed released own sections.old.items }
{
    release_among(sections.as_mut_slice(), own);
}
