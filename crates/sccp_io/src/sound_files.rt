//! Files in memory that fail only at an absent name.
ghost use Rattle.std.specs.Prelude.{◌≡◌, ◌<◌, Some, [], true, false, OnOk, OnErr, IsErrOf};
ghost use Rattle.std.proofs.Common.{refl};
ghost use Rattle.sccp_io.specs.Faults.{Rose, HasCause};
ghost use Rattle.sccp_io.specs.Files.{BeginsFile};
ghost use Rattle.sccp_io.specs.Memory.{SoundFilesView, file_named, files_in, left_of};

use crate::bookmark::Bookmark;
use crate::count::raised;
use crate::{Files, IoFault};
use std::marker::Model;

/// Files in memory, with their octets by name. They fail only at the begin of an absent name, and count it. Of two files
/// with the same name, the first counts.
#[derive(Drop)]
pub struct SoundFiles {
    files: Vec<(String, Vec<u8>)>,
    reading: Bookmark,
    beside: Bookmark,
    faults: u64,
}

impl Model for SoundFiles {
    ghost Value = { SoundFilesView };

    ghost view = { λ m. record {
      files = files_in m.files.items;
      left = left_of (files_in m.files.items) m.reading.place m.reading.from;
      left_beside = left_of (files_in m.files.items) m.beside.place m.beside.from;
      faults = m.faults;
    } };
}

impl SoundFiles {
    /// The files, with none open and no fault counted.
    pub fn new(files: Vec<(String, Vec<u8>)>) -> Self
        ensures { result ≡ record { files = files_in files.items; left = []; left_beside = []; faults = 0 } }
    {
        SoundFiles {
            files,
            reading: Bookmark::new(),
            beside: Bookmark::new(),
            faults: 0,
        }
    }
}

impl Files for SoundFiles {
    ghost contents = { λ m. Some (file_named m.files) };

    ghost left = { λ m. Some m.left };

    ghost left_beside = { λ m. Some m.left_beside };

    ghost faults = { λ m. m.faults };

    ghost sound = { λ _. true };

    ghost both_told = { λ _. refl };

    ghost both_told_beside = { λ _. refl };

    fn begin(&mut self, name: &str) -> Result<(), IoFault>
        ensures begins { BeginsFile name.now result (Some (file_named self.old.files)) true (Some self.old.left) (Some self.new.left)
            self.old.faults self.new.faults }
        ensures beside { self.new.left_beside ≡ self.old.left_beside }
        ensures contents { self.new.files ≡ self.old.files }
        ensures memory { IsErrOf result IoFault.OutOfMemory → ⊥ }
    {
        let found = self.reading.begin(&self.files, name);
        found_or_counted(found, &mut self.faults)
    }

    fn take(&mut self, buffer: &mut [u8]) -> Result<usize, IoFault> {
        Ok(self.reading.take(&self.files, buffer))
    }

    fn begin_beside(&mut self, name: &str) -> Result<(), IoFault>
        ensures begins { BeginsFile name.now result (Some (file_named self.old.files)) true (Some self.old.left_beside)
            (Some self.new.left_beside)
            self.old.faults self.new.faults }
        ensures other { self.new.left ≡ self.old.left }
        ensures contents { self.new.files ≡ self.old.files }
        ensures memory { IsErrOf result IoFault.OutOfMemory → ⊥ }
    {
        let found = self.beside.begin(&self.files, name);
        found_or_counted(found, &mut self.faults)
    }

    fn take_beside(&mut self, buffer: &mut [u8]) -> Result<usize, IoFault> {
        Ok(self.beside.take(&self.files, buffer))
    }
}

/// If the file was not found, `Failed`, and the count of faults is raised.
fn found_or_counted(found: bool, faults: &mut u64) -> Result<(), IoFault>
    ensures found { OnOk result ((found ≡ true) × (faults.new ≡ faults.old)) }
    ensures absent { OnErr result (found ≡ false) }
    ensures cause { HasCause faults.old faults.new result }
    ensures counted { OnErr result (Rose faults.old faults.new) }
    ensures memory { IsErrOf result IoFault.OutOfMemory → ⊥ }
{
    if found {
        Ok(())
    } else {
        *faults = raised(*faults);
        Err(IoFault::Failed)
    }
}
