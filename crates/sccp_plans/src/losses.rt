//! The number of losses that is asked for.
ghost use Rattle.std.specs.Prelude.{◌≡◌, ◌≤◌, option_map};
ghost use Rattle.sccp_plans.specs.Margin.{limit_in};

use crate::loss_limit::LossLimit;
use plan_margin::LossKinds;
use sccp_base::decimal;

/// Up to how many losses are asked for, and of which kinds.
#[derive(Drop)]
pub struct Losses {
    limit: LossLimit,
    ghost few: { limit.most ≤ 99 },
}

impl Losses {
    /// The number that one or two decimal digits spell, or none for another word.
    pub fn parse(word: &[u8], kinds: LossKinds) -> Option<Losses>
        ensures { option_map (λ (l : _). l.limit) result ≡ limit_in kinds word.now }
    {
        match decimal(word, 2) {
            Some(count) => {
                if count < 100 {
                    Some(Losses {
                        limit: LossLimit {
                            kinds,
                            most: count as u8,
                        },
                    })
                } else {
                    None
                }
            }
            None => None,
        }
    }

    /// The number of losses, at most 99, and their kinds.
    pub fn limit(&self) -> &LossLimit
        ensures value { result.now ≡ self.now.limit }
        ensures few { result.now.most ≤ 99 }
    {
        &self.limit
    }
}
