//! Point codes, and how one is read from a text.
ghost use Rattle.std.specs.Prelude.{◌≡◌, ◌<◌};
ghost use Rattle.std.specs.Option.{SomeIff};
ghost use Rattle.sccp_base.specs.Text.{point_code_of, point_code_by};

use crate::text::{cut, decimal};
use std::marker::Model;

/// A signalling point code of 14 bits, a number from 0 to 16383 (Q.713 section 3.4.2.1).
#[derive(Clone, Copy, Debug, PartialEq, Eq, PartialOrd, Ord)]
pub struct PointCode {
    value: u16,
}

impl Model for PointCode {
    ghost use Rattle.std.specs.Prelude.{ℕ, ◌<◌};

    ghost Value = { ℕ };

    ghost view = { λ p. p.value };

    ghost invariant = { λ p. p.value < 16384 };

    ghost inverse = { λ n. record { value = n } };
}

impl PointCode {
    /// The point code of a number. `None` above 16383.
    pub fn new(value: u16) -> Option<PointCode>
        ensures { SomeIff result (value < 16384) value }
    {
        if value < 16384 {
            Some(PointCode { value })
        } else {
            None
        }
    }

    /// The number, from 0 to 16383.
    pub fn value(&self) -> u16
        ensures same { result ≡ self.now }
        ensures below { self.now < 16384 }
    {
        self.value
    }

    /// Reads one to five decimal digits of a value up to 16383, or zone, area and point as `z-a-p`. Each of these has one to
    /// three decimal digits, up to 7, 255 and 7: the top 3, the middle 8 and the low 3 bits. `None` for another text.
    pub fn parse(text: &[u8]) -> Option<PointCode>
        ensures { result ≡ point_code_of text.now }
    {
        match cut(text, b'-') {
            Some((zone, rest)) => match cut(rest, b'-') {
                Some((area, point)) => PointCode::of_parts(zone, area, point),
                None => None,
            },
            None => match decimal(text, 5) {
                Some(value) if value < 16384 => PointCode::new(value as u16),
                _ => None,
            },
        }
    }

    /// The point code of a zone, an area and a point. `None` if one of them is no such number.
    fn of_parts(zone: &[u8], area: &[u8], point: &[u8]) -> Option<PointCode>
        ensures { result ≡ point_code_by zone.now area.now point.now }
    {
        let zone = decimal(zone, 3)?;
        let area = decimal(area, 3)?;
        let point = decimal(point, 3)?;
        if zone < 8 && area < 256 && point < 8 {
            PointCode::new((2048 * zone + 8 * area + point) as u16)
        } else {
            None
        }
    }
}
