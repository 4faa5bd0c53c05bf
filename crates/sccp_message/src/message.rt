//! The message of SCCP as a value.
use sccp_address::Address;
use sccp_base::{List, Octets, Reference, Seven};
use sccp_layout::Param;

/// A message of SCCP, one variant for each type (Q.713 section 4).
///
/// `dlr` and `slr` are the destination and the source local reference (3.2, 3.3). `class` is the octet of the protocol
/// class with its options (3.6). `cause` is the octet of the release, return, reset, error or refusal cause (3.11 to
/// 3.15), and `hops` the hop counter (3.18). `payload` is the data (3.16, 3.20). `params` are the optional parameters in
/// the order of the message, repeats and unknown ones included.
#[derive(Drop)]
pub enum Message {
    /// Connection request.
    Cr {
        slr: Reference,
        class: u8,
        called: Address,
        params: List<Param>,
    },
    /// Connection confirm.
    Cc {
        dlr: Reference,
        slr: Reference,
        class: u8,
        params: List<Param>,
    },
    /// Connection refused.
    Cref {
        dlr: Reference,
        cause: u8,
        params: List<Param>,
    },
    /// Released.
    Rlsd {
        dlr: Reference,
        slr: Reference,
        cause: u8,
        params: List<Param>,
    },
    /// Release complete.
    Rlc {
        dlr: Reference,
        slr: Reference,
    },
    /// Data form 1, for class 2. `more` is the M bit, which says that more data follow (3.7).
    Dt1 {
        dlr: Reference,
        more: bool,
        payload: Octets,
    },
    /// Data form 2, for class 3. `send` and `receive` are the sequence numbers P(S) and P(R) (3.9).
    Dt2 {
        dlr: Reference,
        send: Seven,
        receive: Seven,
        more: bool,
        payload: Octets,
    },
    /// Data acknowledgement, with P(R) (3.8) and the credit (3.10).
    Ak {
        dlr: Reference,
        receive: Seven,
        credit: u8,
    },
    /// Unitdata.
    Udt {
        class: u8,
        called: Address,
        calling: Address,
        payload: Octets,
    },
    /// Unitdata service: a unitdata that is returned, with the return cause.
    Udts {
        cause: u8,
        called: Address,
        calling: Address,
        payload: Octets,
    },
    /// Expedited data.
    Ed {
        dlr: Reference,
        payload: Octets,
    },
    /// Expedited data acknowledgement.
    Ea {
        dlr: Reference,
    },
    /// Reset request.
    Rsr {
        dlr: Reference,
        slr: Reference,
        cause: u8,
    },
    /// Reset confirmation.
    Rsc {
        dlr: Reference,
        slr: Reference,
    },
    /// Protocol data unit error.
    Err {
        dlr: Reference,
        cause: u8,
    },
    /// Inactivity test.
    It {
        dlr: Reference,
        slr: Reference,
        class: u8,
        send: Seven,
        receive: Seven,
        more: bool,
        credit: u8,
    },
    /// Extended unitdata.
    Xudt {
        class: u8,
        hops: u8,
        called: Address,
        calling: Address,
        payload: Octets,
        params: List<Param>,
    },
    /// Extended unitdata service.
    Xudts {
        cause: u8,
        hops: u8,
        called: Address,
        calling: Address,
        payload: Octets,
        params: List<Param>,
    },
    /// Long unitdata.
    Ludt {
        class: u8,
        hops: u8,
        called: Address,
        calling: Address,
        payload: Octets,
        params: List<Param>,
    },
    /// Long unitdata service.
    Ludts {
        cause: u8,
        hops: u8,
        called: Address,
        calling: Address,
        payload: Octets,
        params: List<Param>,
    },
}
