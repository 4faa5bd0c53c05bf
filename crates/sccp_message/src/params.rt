//! Optional parameters: their names, and the test of their contents.
ghost use Rattle.std.specs.Prelude.{◌≡◌, IfOk};
ghost use Rattle.std.specs.Option.{option_copied};
ghost use Rattle.sccp_message.specs.Fields.{param as param_of, field_reads};
ghost use Rattle.sccp_message.specs.Reading.{Gives, fields_in};

use crate::fault::DecodeFault;
use sccp_address::AddressFault;
use sccp_base::{List, OutOfMemory};
use sccp_layout::Param;
use std::alloc::Global;

/// The name of the called party address (Q.713 section 3.4).
pub const CALLED: u8 = 0x03;

/// The name of the calling party address (Q.713 section 3.5).
pub const CALLING: u8 = 0x04;

/// The name of the credit (Q.713 section 3.10).
pub const CREDIT: u8 = 0x09;

/// The name of the data (Q.713 section 3.16).
pub const DATA: u8 = 0x0F;

/// The name of the segmentation (Q.713 section 3.17).
pub const SEGMENTATION: u8 = 0x10;

/// The name of the hop counter (Q.713 section 3.18).
pub const HOPS: u8 = 0x11;

/// The name of the importance (Q.713 section 3.19).
pub const IMPORTANCE: u8 = 0x12;

/// The contents of the first parameter of a name. `None` if no parameter has it.
pub fn param(params: &List<Param>, name: u8) -> Option<&[u8]>
    ensures { option_copied result ≡ param_of params.now name }
{
    params
        .as_slice()
        .iter()
        .find(|param| param.name() == name)
        .map(|param| param.octets())
}

// Whether contents read as what the name says.
fn reads(alloc: Global, name: u8, octets: &[u8]) -> Result<bool, OutOfMemory>
    ensures { IfOk result (λ yes. yes ≡ field_reads name octets.now) }
{
    match name {
        CALLED | CALLING => match sccp_address::read(alloc, octets) {
            Ok(_) => Ok(true),
            Err(AddressFault::OutOfMemory) => Err(OutOfMemory),
            Err(_) => Ok(false),
        },
        CREDIT | HOPS | IMPORTANCE => Ok(octets.len() == 1),
        SEGMENTATION => Ok(octets.len() == 4),
        _ => Ok(true),
    }
}

// Tests the first parameter of each of these names, in the order of the names.
fn test(alloc: Global, names: &[u8], params: &List<Param>) -> Result<(), DecodeFault>
    ensures { Gives (λ _. params.now) result (fields_in names.now params.now) }
{
    for name in names {
        if let Some(octets) = param(params, *name) {
            if !reads(alloc, *name, octets)? {
                return Err(DecodeFault::Field(*name));
            }
        }
    }
    Ok(())
}

/// All parameters, once those whose names are known to the type are tested. `Field` names the first one that does not read.
pub fn tested(alloc: Global, names: &[u8], params: List<Param>) -> Result<List<Param>, DecodeFault>
    ensures { Gives (λ tested. tested) result (fields_in names.now params) }
{
    test(alloc, names, &params)?;
    Ok(params)
}
