// Rows by account, written once for every kind of item that belongs to one.
ghost use Rattle.std.specs.Prelude.{◌≡◌, ℤ, int_lt};
ghost use Rattle.std.proofs.Common.{rules};

use ordered::Standing;

/// An item that belongs to an account.
pub trait OfAccount {
    ghost account: { Self → ℤ };

    fn account(&self) -> i64
        ensures { result ≡ account self.now };
}

/// Items stand by account, the smaller first.
#[derive(Clone, Copy)]
pub struct ByAccount;

impl<T: OfAccount> Standing<T> for ByAccount {
    ghost key = { T.account };

    ghost stands = { λ _ x y. int_lt (T.account x) (T.account y) };

    ghost irreflexive = { Prim.search rules };

    ghost transitive = { Prim.search rules };

    ghost decided = { Prim.search rules };

    fn before(&self, a: &T, b: &T) -> bool {
        a.account() < b.account()
    }

    fn key_of(&self, item: &T) -> i64 {
        item.account()
    }
}
