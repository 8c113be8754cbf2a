// Whether the centre's line of an account is in step with the market's queues.
ghost use Rattle.clearing.specs.Centre.{holds};
ghost use Rattle.std.specs.Prelude.{◌≡◌};

use clearing::centre::Centre;
use clearing::side::Side;

// Whether the account has a line that holds the lots which it has resting on a side.
pub(crate) fn in_step<C: Centre>(centre: &C, account: i64, side: Side, resting: u128) -> bool
    ensures { result ≡ holds (C.Centre.lines centre.now account) side resting }
{
    centre
        .line(account)
        .is_some_and(|line| resting <= u128::from(line.on(side).held))
}
