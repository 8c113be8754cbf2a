// The numbers that an account may have.
ghost use Rattle.clearing.specs.Account.{account_fits};
ghost use Rattle.std.specs.Prelude.{◌≡◌};

/// An account is a number from 1 to 999,999.
pub fn is_account(account: i64) -> bool
    ensures { result ≡ account_fits account }
{
    (1..=999_999).contains(&account)
}
