//! What may be prohibited or allowed, and its order.
ghost use Rattle.std.specs.Cmp.{partial_equiv_from_equiv, partial_order_from_agreeing_total};
ghost use Rattle.std.specs.Ordering.{as_partial_cmp};
ghost use Rattle.sccp_base.specs.Marks.{mark_cmp, same_mark};
ghost use Rattle.sccp_base.specs.MarkOrder.{mark_cmp_total, same_mark_agrees, same_mark_equiv};
ghost use Rattle.std.proofs.Common.{refl};

use crate::point_code::PointCode;
use std::cmp::Ordering;

/// What may be prohibited (Q.714 section 5): a signalling point, the SCCP at a point, or a subsystem at a point with its
/// subsystem number. Marks are ordered by point code, then in this order of variants, then by subsystem number.
#[derive(Clone, Copy, Debug)]
pub enum Mark {
    PointCode(PointCode),
    Sccp(PointCode),
    Subsystem(PointCode, u8),
}

impl Mark {
    ghost use Rattle.std.specs.Prelude.{◌≡◌};
    ghost use Rattle.sccp_base.specs.Marks.{IsMark, point_of, place_at_point};

    /// The point at which the mark is.
    pub fn point(&self) -> PointCode
        ensures { result ≡ point_of self.now }
    {
        match self {
            Mark::PointCode(point) | Mark::Sccp(point) | Mark::Subsystem(point, _) => *point,
        }
    }

    /// Shows what the types of a mark's parts keep, for a contract that names marks only. It does nothing when it runs.
    pub(crate) fn vouch(&self)
        ensures { IsMark self.now }
    {
        match self {
            Mark::PointCode(point) | Mark::Sccp(point) => {
                let _value = point.value();
            }
            Mark::Subsystem(point, ssn) => {
                let _value = point.value();
                let _number = *ssn;
            }
        }
    }

    /// The place of the mark among the marks of its point.
    fn place_at_point(&self) -> u16
        ensures { result ≡ place_at_point self.now }
    {
        match self {
            Mark::PointCode(_) => 0,
            Mark::Sccp(_) => 1,
            Mark::Subsystem(_, ssn) => 2 + u16::from(*ssn),
        }
    }
}

impl PartialEq for Mark {
    ghost eq = { same_mark };

    ghost laws = { partial_equiv_from_equiv same_mark_equiv };

    fn eq(&self, other: &Mark) -> bool {
        match (self, other) {
            (Mark::PointCode(a), Mark::PointCode(b)) | (Mark::Sccp(a), Mark::Sccp(b)) => a == b,
            (Mark::Subsystem(a, s), Mark::Subsystem(b, t)) => a == b && s == t,
            _ => false,
        }
    }
}

impl Eq for Mark {
    ghost laws = { same_mark_equiv };
}

impl Ord for Mark {
    ghost cmp = { mark_cmp };

    ghost total = { mark_cmp_total };

    ghost matches_partial_cmp = { λ _ _. refl };

    ghost matches_eq = { same_mark_agrees };

    fn cmp(&self, other: &Mark) -> Ordering {
        match self.point().cmp(&other.point()) {
            Ordering::Equal => self.place_at_point().cmp(&other.place_at_point()),
            apart => apart,
        }
    }
}

impl PartialOrd for Mark {
    ghost partial_cmp = { as_partial_cmp mark_cmp };

    ghost laws = { partial_order_from_agreeing_total mark_cmp mark_cmp_total (λ _ _. refl) same_mark_agrees };

    fn partial_cmp(&self, other: &Mark) -> Option<Ordering> {
        Some(self.cmp(other))
    }
}
