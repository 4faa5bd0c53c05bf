//! The messages of SCCP management (Q.713 section 5).
ghost use Rattle.std.specs.Prelude.{◌≡◌, ◌+◌, ◌*◌, IfOk};
ghost use Rattle.sccp_base.specs.Bits.{bits};
ghost use Rattle.sccp_manage.specs.Statuses.{code_of, kind_of, management, status_data, status_octets, status_of, status_unitdata};

use sccp_address::{Address, Title};
use sccp_base::{Octets, OutOfMemory, PointCode};
use sccp_message::{EncodeFault, Message, encode};
use std::alloc::Global;

/// The kinds of status message (Q.713 section 5), in the order of their numbers, which go from 1 to 6.
#[derive(Clone, Copy)]
pub enum StatusKind {
    /// Subsystem allowed, SSA.
    Allowed,
    /// Subsystem prohibited, SSP.
    Prohibited,
    /// Subsystem status test, SST.
    Test,
    /// Subsystem out-of-service request, SOR.
    OutOfServiceRequest,
    /// Subsystem out-of-service grant, SOG.
    OutOfServiceGrant,
    /// SCCP or subsystem congested, SSC.
    Congested,
}

/// What a message of SCCP management says of a subsystem at a point (Q.713 section 5).
#[derive(Clone, Copy)]
pub struct StatusMessage {
    pub kind: StatusKind,
    /// The affected subsystem number. 1 is management itself, and means the SCCP there.
    pub ssn: u8,
    /// The affected point code.
    pub pc: PointCode,
}

impl StatusMessage {
    /// Reads the data of a message for management (Q.713 section 5): kind (1 octet), affected subsystem number (1), affected
    /// point code (2) and multiplicity (1). The point code has its least significant octet first, and two spare bits on top.
    /// The multiplicity and what follows it are ignored. `None` for fewer than five octets, and for a kind that is not 1 to
    /// 6.
    pub fn read(payload: &[u8]) -> Option<StatusMessage>
        ensures { result ≡ status_of payload.now }
    {
        let [kind, ssn, low, high, _, ..] = payload else {
            return None;
        };
        match kind_of(*kind) {
            Some(kind) => Some(StatusMessage {
                kind,
                ssn: *ssn,
                pc: point_code(*low, *high),
            }),
            None => None,
        }
    }
}

// The kind of a number.
fn kind_of(code: u8) -> Option<StatusKind>
    ensures { result ≡ kind_of code }
{
    match code {
        1 => Some(StatusKind::Allowed),
        2 => Some(StatusKind::Prohibited),
        3 => Some(StatusKind::Test),
        4 => Some(StatusKind::OutOfServiceRequest),
        5 => Some(StatusKind::OutOfServiceGrant),
        6 => Some(StatusKind::Congested),
        _ => None,
    }
}

// The number of a kind.
fn code_of(kind: &StatusKind) -> u8
    ensures { result ≡ code_of kind.now }
{
    match kind {
        StatusKind::Allowed => 1,
        StatusKind::Prohibited => 2,
        StatusKind::Test => 3,
        StatusKind::OutOfServiceRequest => 4,
        StatusKind::OutOfServiceGrant => 5,
        StatusKind::Congested => 6,
    }
}

// A point code from its two octets, whose two top bits are spare.
fn point_code(low: u8, high: u8) -> PointCode
    ensures { result ≡ low + 256 * bits high 1 6 }
{
    PointCode::new(u16::from(low) + 256 * u16::from(high & 0x3F)).unwrap()
}

// The address of management: by subsystem number, to subsystem 1.
fn management() -> Address
    ensures { result ≡ management }
{
    Address {
        national: false,
        by_ssn: true,
        pc: None,
        ssn: Some(1),
        title: Title::Absent,
    }
}

// The data of a status message, with the multiplicity 0.
fn data(alloc: Global, status: &StatusMessage) -> Result<Octets, OutOfMemory>
    ensures { IfOk result (λ octets. octets ≡ status_data status.now) }
{
    let pc = status.pc.value();
    Ok(Octets::from_vec(Vec::from_slice(
        alloc,
        &[
            code_of(&status.kind),
            status.ssn,
            (pc % 256) as u8,
            (pc / 256) as u8,
            0,
        ],
    )?))
}

/// The octets of the message that carries a status message: unitdata of class 0 from management to management. Its parts
/// always fit.
#[tactic(auto, unfolding(crate::specs::Statuses::status_octets))]
pub fn octets_of(alloc: Global, status: &StatusMessage) -> Result<Octets, OutOfMemory>
    ensures { IfOk result (λ octets. octets ≡ status_octets status.now) }
{
    let payload = data(alloc, status)?;
    let message = Message::Udt {
        class: 0,
        called: management(),
        calling: management(),
        payload,
    };
    let octets = encode(alloc, &message);
    drop(message);
    match octets {
        Ok(octets) => Ok(octets),
        Err(EncodeFault::OutOfMemory) => Err(OutOfMemory),
        Err(_) => unreachable!(),
    }
}
