//! Files in memory of which chosen calls fail.
ghost use Rattle.std.specs.Prelude.{◌≡◌, ◌<◌, Some, [], true, false, length, IsErrOf};
ghost use Rattle.std.proofs.Common.{refl};
ghost use Rattle.sccp_io.specs.Calls.{is_listed, CountsCall, FailsCounted, Succeeds};
ghost use Rattle.sccp_io.specs.Files.{lacks, BeginsFile, TakesNext};
ghost use Rattle.sccp_io.specs.Memory.{MemoryFilesView, file_named, files_in, left_of};

use crate::bookmark::Bookmark;
use crate::schedule::Schedule;
use crate::{Files, IoFault};
use std::marker::Model;

/// Files in memory, with their octets by name. The calls with the listed numbers fail and are counted as faults. The calls
/// of all four kinds are numbered together, from 0. Any other call fails only at the begin of an absent name. Of two files
/// with the same name, the first counts.
#[derive(Drop)]
pub struct MemoryFiles {
    files: Vec<(String, Vec<u8>)>,
    reading: Bookmark,
    beside: Bookmark,
    schedule: Schedule,
}

impl Model for MemoryFiles {
    ghost Value = { MemoryFilesView };

    ghost view = { λ m. record {
      files = files_in m.files.items;
      left = left_of (files_in m.files.items) m.reading.place m.reading.from;
      left_beside = left_of (files_in m.files.items) m.beside.place m.beside.from;
      failing = m.schedule.failing.items;
      calls = m.schedule.calls;
      faults = m.schedule.faults;
    } };
}

impl MemoryFiles {
    /// The files, with none open, no call made and no fault counted. `failing` lists the numbers of the calls that fail.
    pub fn new(files: Vec<(String, Vec<u8>)>, failing: Vec<u64>) -> Self
        ensures { result ≡ record {
          files = files_in files.items;
          left = [];
          left_beside = [];
          failing = failing.items;
          calls = 0;
          faults = 0;
        } }
    {
        MemoryFiles {
            files,
            reading: Bookmark::new(),
            beside: Bookmark::new(),
            schedule: Schedule::new(failing),
        }
    }
}

impl Files for MemoryFiles {
    ghost contents = { λ m. Some (file_named m.files) };

    ghost left = { λ m. Some m.left };

    ghost left_beside = { λ m. Some m.left_beside };

    ghost faults = { λ m. m.faults };

    ghost sound = { λ _. false };

    ghost both_told = { λ _. refl };

    ghost both_told_beside = { λ _. refl };

    fn begin(&mut self, name: &str) -> Result<(), IoFault>
        ensures begins { BeginsFile name.now result (Some (file_named self.old.files)) false (Some self.old.left) (Some self.new.left)
            self.old.faults self.new.faults }
        ensures beside { self.new.left_beside ≡ self.old.left_beside }
        ensures contents { self.new.files ≡ self.old.files }
        // Which calls fail.
        ensures call { CountsCall self.old.failing self.new.failing self.old.calls self.new.calls }
        ensures listed { is_listed self.old.failing self.old.calls ≡ true
            → FailsCounted result self.old.faults self.new.faults }
        ensures unlisted { is_listed self.old.failing self.old.calls ≡ false
            → lacks (Some (file_named self.old.files)) name.now ≡ false → Succeeds result self.old.faults self.new.faults }
        ensures memory { IsErrOf result IoFault.OutOfMemory → ⊥ }
    {
        self.schedule.next()?;
        if self.reading.begin(&self.files, name) {
            Ok(())
        } else {
            Err(self.schedule.fail())
        }
    }

    fn take(&mut self, buffer: &mut [u8]) -> Result<usize, IoFault>
        requires { 0 < length buffer.old }
        ensures takes { TakesNext buffer.new result false (Some self.old.left) (Some self.new.left)
            self.old.faults self.new.faults }
        ensures beside { self.new.left_beside ≡ self.old.left_beside }
        ensures contents { self.new.files ≡ self.old.files }
        // Which calls fail.
        ensures call { CountsCall self.old.failing self.new.failing self.old.calls self.new.calls }
        ensures listed { is_listed self.old.failing self.old.calls ≡ true
            → FailsCounted result self.old.faults self.new.faults }
        ensures unlisted { is_listed self.old.failing self.old.calls ≡ false
            → Succeeds result self.old.faults self.new.faults }
    {
        self.schedule.next()?;
        Ok(self.reading.take(&self.files, buffer))
    }

    fn begin_beside(&mut self, name: &str) -> Result<(), IoFault>
        ensures begins { BeginsFile name.now result (Some (file_named self.old.files)) false (Some self.old.left_beside)
            (Some self.new.left_beside)
            self.old.faults self.new.faults }
        ensures other { self.new.left ≡ self.old.left }
        ensures contents { self.new.files ≡ self.old.files }
        // Which calls fail.
        ensures call { CountsCall self.old.failing self.new.failing self.old.calls self.new.calls }
        ensures listed { is_listed self.old.failing self.old.calls ≡ true
            → FailsCounted result self.old.faults self.new.faults }
        ensures unlisted { is_listed self.old.failing self.old.calls ≡ false
            → lacks (Some (file_named self.old.files)) name.now ≡ false → Succeeds result self.old.faults self.new.faults }
        ensures memory { IsErrOf result IoFault.OutOfMemory → ⊥ }
    {
        self.schedule.next()?;
        if self.beside.begin(&self.files, name) {
            Ok(())
        } else {
            Err(self.schedule.fail())
        }
    }

    fn take_beside(&mut self, buffer: &mut [u8]) -> Result<usize, IoFault>
        requires { 0 < length buffer.old }
        ensures takes { TakesNext buffer.new result false (Some self.old.left_beside) (Some self.new.left_beside)
            self.old.faults self.new.faults }
        ensures other { self.new.left ≡ self.old.left }
        ensures contents { self.new.files ≡ self.old.files }
        // Which calls fail.
        ensures call { CountsCall self.old.failing self.new.failing self.old.calls self.new.calls }
        ensures listed { is_listed self.old.failing self.old.calls ≡ true
            → FailsCounted result self.old.faults self.new.faults }
        ensures unlisted { is_listed self.old.failing self.old.calls ≡ false
            → Succeeds result self.old.faults self.new.faults }
    {
        self.schedule.next()?;
        Ok(self.beside.take(&self.files, buffer))
    }
}
