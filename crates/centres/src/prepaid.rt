// The rule of a prepaid centre: an account's lots, at a margin for each, are covered by its deposit.
ghost use Rattle.std.specs.Prelude.{◌≡◌, ◌≤◌, true, false, MatchResult};
ghost use Rattle.clearing.specs.Cause.{denied};
ghost use Rattle.centres.specs.Rules.{deposit_max, margin_fits, prepaid_admits};
ghost use Rattle.clearing.specs.declared.cause.Cause.TheVariants.{BadSetting};

use clearing::account_rule::AccountRule;
use clearing::cause::{Cause, Denial};
use clearing::line::Line;
use clearing::side::Side;

#[derive(Clone, Copy)]
pub struct Prepaid {
    margin: u64,
    ghost small: { margin ≤ 1000000 },
}

impl Prepaid {
    // The margin for each lot is 1 to 1,000,000.
    pub fn new(margin: u64) -> Result<Prepaid, Denial>
        ensures { MatchResult result (λ p. (margin_fits margin ≡ true) × (p.margin ≡ margin)) (λ d. (margin_fits margin ≡ false) × (d ≡ denied BadSetting 0)) }
    {
        if !(1..=1_000_000).contains(&margin) {
            return Err(Denial::new(Cause::BadSetting, 0));
        }
        Ok(Prepaid { margin })
    }

    pub fn margin(&self) -> u64
        ensures { result ≡ self.now.margin }
    {
        self.margin
    }
}

impl AccountRule for Prepaid {
    ghost admits = { λ p deposit line _ lots. prepaid_admits p.margin deposit line lots };

    ghost top = { deposit_max };

    fn admits(&self, allowance: u64, line: &Line, _side: Side, lots: u64) -> bool {
        let all = line.total() + u128::from(lots);
        let margin = u128::from(self.margin);
        margin * all <= u128::from(allowance)
    }

    fn top() -> u64 {
        1_000_000_000_000_000
    }
}
