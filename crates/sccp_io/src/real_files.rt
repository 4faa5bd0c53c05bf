//! The files of the system.
ghost use Rattle.std.specs.Prelude.{◌≡◌, ℕ, ◌<◌, ◌≤◌, None, false, length, IfOk, OnOk, OnErr, IsErrOf};
ghost use Rattle.std.proofs.Common.{refl};
ghost use Rattle.sccp_io.specs.Faults.{Rose};
ghost use Rattle.sccp_io.specs.Files.{BeginsFile, TakesNext};

use crate::count::raised;
use crate::{Files, IoFault};
use std::io::{ErrorKind, Read};
use std::marker::Model;
use std::{fs, rt};

/// The system's files by std, of which at most two are open. They show no contents. Each fault is counted, want of memory
/// too.
#[derive(Drop)]
pub struct RealFiles<R: rt::Files> {
    rt: R,
    reading: Option<R::File>,
    beside: Option<R::File>,
    faults: u64,
}

/// Contracts see only its count of faults.
impl<R: rt::Files> Model for RealFiles<R> {
    ghost Value = { ℕ };

    ghost view = { λ m. m.faults };
}

impl<R: rt::Files> RealFiles<R> {
    /// The files of that runtime, with none open.
    pub fn new(rt: R) -> Self
        ensures { result ≡ 0 }
    {
        RealFiles {
            rt,
            reading: None,
            beside: None,
            faults: 0,
        }
    }
}

impl<R: rt::Files> Files for RealFiles<R> {
    ghost contents = { λ _. None };

    ghost left = { λ _. None };

    ghost left_beside = { λ _. None };

    ghost faults = { λ count. count };

    ghost sound = { λ _. false };

    ghost both_told = { λ _. refl };

    ghost both_told_beside = { λ _. refl };

    fn begin(&mut self, name: &str) -> Result<(), IoFault>
        ensures begins { BeginsFile name.now result None false None None
            self.old self.new }
        ensures counted { OnErr result (Rose self.old self.new) }
        ensures uncounted { OnOk result (self.new ≡ self.old) }
    {
        self.reading = Some(open_file(&self.rt, name, &mut self.faults)?);
        Ok(())
    }

    fn take(&mut self, buffer: &mut [u8]) -> Result<usize, IoFault>
        ensures takes { TakesNext buffer.new result false None None
            self.old self.new }
        ensures counted { OnErr result (Rose self.old self.new) }
        ensures uncounted { OnOk result (self.new ≡ self.old) }
    {
        read_some(&mut self.reading, buffer, &mut self.faults)
    }

    fn begin_beside(&mut self, name: &str) -> Result<(), IoFault>
        ensures begins { BeginsFile name.now result None false None None
            self.old self.new }
        ensures counted { OnErr result (Rose self.old self.new) }
        ensures uncounted { OnOk result (self.new ≡ self.old) }
    {
        self.beside = Some(open_file(&self.rt, name, &mut self.faults)?);
        Ok(())
    }

    fn take_beside(&mut self, buffer: &mut [u8]) -> Result<usize, IoFault>
        ensures takes { TakesNext buffer.new result false None None
            self.old self.new }
        ensures counted { OnErr result (Rose self.old self.new) }
        ensures uncounted { OnOk result (self.new ≡ self.old) }
    {
        read_some(&mut self.beside, buffer, &mut self.faults)
    }
}

/// Opens a file, or counts a fault.
fn open_file<R: rt::Files>(rt: &R, name: &str, faults: &mut u64) -> Result<R::File, IoFault>
    ensures counted { OnErr result (Rose faults.old faults.new) }
    ensures later { faults.old ≤ faults.new }
    ensures uncounted { OnOk result (faults.new ≡ faults.old) }
{
    match fs::open(rt, name) {
        Ok(file) => Ok(file),
        Err(error) => {
            *faults = raised(*faults);
            Err(fault_of(error.kind()))
        }
    }
}

/// Reads from the open file, if there is one, and counts a fault.
fn read_some<F: Read>(
    file: &mut Option<F>,
    buffer: &mut [u8],
    faults: &mut u64,
) -> Result<usize, IoFault>
    ensures bound { IfOk result (λ count. count ≤ length buffer.new) }
    ensures counted { OnErr result (Rose faults.old faults.new) }
    ensures later { faults.old ≤ faults.new }
    ensures uncounted { OnOk result (faults.new ≡ faults.old) }
    ensures memory { IsErrOf result IoFault.OutOfMemory → ⊥ }
{
    let Some(file) = file else {
        return Ok(0);
    };
    match file.read(buffer) {
        Ok(count) => Ok(count),
        Err(_) => {
            *faults = raised(*faults);
            Err(IoFault::Failed)
        }
    }
}

/// The answer for an error of the system. Want of memory has an answer of its own.
fn fault_of(kind: ErrorKind) -> IoFault {
    match kind {
        ErrorKind::OutOfMemory => IoFault::OutOfMemory,
        _ => IoFault::Failed,
    }
}
