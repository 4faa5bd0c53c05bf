//! The connection sections of a node, with a table that finds each one by its own reference.
ghost use Rattle.std.specs.Prelude.{◌≡◌, [], Some, OnOk, OnErr, IfOk, IfSome};
ghost use Rattle.std.specs.List.{list_any};
ghost use Rattle.sccp_couple.specs.Invariant.{OwnDiffer};
ghost use Rattle.sccp_couple.specs.Sections.{section_at, known, other_of, is_established, is_near_of, changed, confirmed, released};
ghost use Rattle.sccp_couple.specs.Sections.{without, without_both, with_pair, first_new, second_new};

use crate::finding::{confirm, end, has_near, release, section_at, section_here};
use crate::making::make_pair;
use crate::section::Section;
use sccp_base::{List, OutOfMemory, PointCode, Reference};
use std::alloc::Global;
use std::marker::Model;
use std::mem::replace;

/// The connection sections of a node, in the order in which they were made. Contracts see them as that list.
///
/// `places` holds the place that each own reference had when the list last changed. So a section is found there without a
/// search of the list.
#[derive(Drop)]
pub(crate) struct Sections {
    alloc: Global,
    list: List<Section>,
    places: Vec<usize>,
}

impl Model for Sections {
    ghost use Rattle.std.specs.Prelude.{List};
    ghost use Rattle.sccp_couple.specs.declared.section.Section.{Section};
    ghost use Rattle.sccp_couple.specs.Invariant.{OwnDiffer};

    ghost Value = { List Section };

    ghost view = { λ s. s.list };

    ghost invariant = { λ s. OwnDiffer s.list };
}

impl Sections {
    /// No sections. It takes no memory.
    pub(crate) fn new(alloc: Global) -> Sections
        ensures { result ≡ [] }
    {
        Sections {
            alloc,
            list: List::new(alloc),
            places: Vec::new(alloc),
        }
    }

    /// A copy of the sections in memory of its own.
    pub(crate) fn try_clone(&self) -> Result<Sections, OutOfMemory>
        ensures { IfOk result (λ copy. copy ≡ self.now) }
    {
        let list = List::from_vec(Vec::from_slice(self.alloc, self.list.as_slice())?);
        let places = Vec::from_slice(self.alloc, self.places.as_slice())?;
        Ok(Sections {
            alloc: self.alloc,
            list,
            places,
        })
    }

    /// The sections as a list.
    pub(crate) fn list(&self) -> &List<Section>
        ensures { result.now ≡ self.now }
    {
        &self.list
    }

    /// The section at the place noted for this own reference, if it is still the section with that reference.
    fn seen_at(&self, own: Reference) -> Option<Section>
        ensures { IfSome result (λ s. section_at self.now own ≡ Some s) }
    {
        let place = *self.places.get(own.value() as usize)?;
        section_here(self.list.as_slice(), place, own)
    }

    /// The section with an own reference.
    pub(crate) fn at(&self, own: Reference) -> Option<Section>
        ensures { result ≡ section_at self.now own }
    {
        match self.seen_at(own) {
            Some(section) => Some(section),
            None => section_at(self.list.as_slice(), own),
        }
    }

    /// The section to which a message from this point with this destination local reference belongs.
    pub(crate) fn known(&self, origin: PointCode, dlr: Reference) -> Option<Section>
        ensures { result ≡ known self.now origin dlr }
    {
        let section = self.at(dlr)?;
        if section.point == origin {
            Some(section)
        } else {
            None
        }
    }

    /// The section that this one is coupled with.
    pub(crate) fn other_of(&self, section: &Section) -> Option<Section>
        ensures { result ≡ other_of self.now section.now }
    {
        let own = section.other?;
        self.at(own)
    }

    /// Whether the section and its other section both have a remote reference.
    pub(crate) fn is_established(&self, section: &Section) -> bool
        ensures { result ≡ is_established self.now section.now }
    {
        if section.remote.is_none() {
            return false;
        }
        match self.other_of(section) {
            Some(other) => other.remote.is_some(),
            None => false,
        }
    }

    /// Whether some near section has this point and remote.
    pub(crate) fn has_near(&self, point: PointCode, remote: Reference) -> bool
        ensures { result ≡ list_any (is_near_of point remote) self.now }
    {
        has_near(self.list.as_slice(), point, remote)
    }

    /// Takes the list out, to be changed and given back with `put`.
    fn take(&mut self) -> Vec<Section>
        ensures list { result.items ≡ self.old }
        ensures differ { OwnDiffer result.items }
        ensures left { self.new ≡ [] }
    {
        replace(&mut self.list, List::new(self.alloc)).into_vec()
    }

    /// Gives the changed list back, and notes the places of its own references.
    fn put(&mut self, list: Vec<Section>)
        requires { OwnDiffer list.items }
        ensures { self.new ≡ list.items }
    {
        note_places(self.places.as_mut_slice(), list.as_slice());
        self.list = List::from_vec(list);
    }

    /// Ends one section.
    #[tactic(auto, using(crate::proofs::Lookups::differ_without))]
    pub(crate) fn end(&mut self, own: Reference)
        ensures { self.new ≡ without own self.old }
    {
        let mut list = self.take();
        end(&mut list, own);
        self.put(list);
    }

    /// Ends a section, and its other section if it has one.
    pub(crate) fn end_both(&mut self, section: &Section)
        ensures { self.new ≡ without_both section.now self.old }
    {
        self.end(section.own);
        match section.other {
            None => {}
            Some(other) => self.end(other),
        }
    }

    /// Notes the remote reference of one section.
    #[tactic(auto, using(crate::proofs::Lookups::differ_confirmed))]
    pub(crate) fn confirm(&mut self, own: Reference, remote: Reference)
        ensures { self.new ≡ changed (confirmed remote) own self.old }
    {
        let mut list = self.take();
        confirm(&mut list, own, remote);
        self.put(list);
    }

    /// Begins the release of one section.
    #[tactic(auto, using(crate::proofs::Lookups::differ_released))]
    pub(crate) fn release(&mut self, own: Reference)
        ensures { self.new ≡ changed released own self.old }
    {
        let mut list = self.take();
        release(&mut list, own);
        self.put(list);
    }

    /// Makes a pair of sections, with the two smallest references that no section has.
    #[tactic(auto, using(crate::proofs::Keeping::differ_pair))]
    pub(crate) fn couple(
        &mut self,
        near: Reference,
        far: Reference,
        point: PointCode,
        remote: Reference,
        to: PointCode,
    ) -> Result<(), OutOfMemory>
        requires near { near ≡ first_new self.old }
        requires far { far ≡ second_new self.old }
        ensures ok { OnOk result (self.new ≡ with_pair near far point remote to self.old) }
        ensures err { OnErr result (self.new ≡ self.old) }
    {
        lengthen(&mut self.places, far.value() as usize + 1)?;
        let mut list = self.take();
        match make_pair(&mut list, near, far, point, remote, to) {
            Ok(()) => {
                self.put(list);
                Ok(())
            }
            Err(fault) => {
                self.put(list);
                Err(fault)
            }
        }
    }
}

/// Makes room for at least this number of places.
fn lengthen(places: &mut Vec<usize>, count: usize) -> Result<(), OutOfMemory> {
    if places.len() < count {
        places.resize(count, 0)?;
    }
    Ok(())
}

/// Notes the place of each own reference in the list.
fn note_places(places: &mut [usize], sections: &[Section]) {
    for (place, section) in sections.iter().enumerate() {
        let own = section.own.value() as usize;
        if own < places.len() {
            places[own] = place;
        }
    }
}
