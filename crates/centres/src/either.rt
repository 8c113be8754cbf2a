// A house's choice between two kinds of centre, made at run time.
ghost use Rattle.centres.specs.Either.{SameKind, either_of, for_either};
ghost use Rattle.std.proofs.Common.{rules};

use clearing::cause::Denial;
use clearing::centre::{Centre, Unsettled};
use clearing::grant::Grant;
use clearing::line::Line;
use clearing::side::Side;

/// One of two centres, and itself a centre: each call goes to the one that is there.
#[derive(Drop)]
pub enum Either<A, B> {
    First(A),
    Second(B),
}

impl<A: Centre, B: Centre> Centre for Either<A, B> {
    ghost lines = { either_of A.Centre.lines B.Centre.lines };

    ghost own = { either_of A.Centre.own B.Centre.own };

    ghost depth = { either_of A.Centre.depth B.Centre.depth };

    // The same one of the two, with the same settings.
    ghost same_settings = { SameKind A.Centre.same_settings B.Centre.same_settings };

    ghost sound = { Prim.search rules };

    ghost denies = { for_either _ A.Centre.denies B.Centre.denies };

    ghost shallow = { Prim.search rules };

    ghost same_own = { Prim.search rules };

    ghost same_depth = { Prim.search rules };

    ghost same_self = { Prim.search rules };

    ghost same_on = { Prim.search rules };

    fn depth(&self) -> u8 {
        match self {
            Either::First(centre) => centre.depth(),
            Either::Second(centre) => centre.depth(),
        }
    }

    fn question(&self, account: i64, side: Side, lots: u64) -> Result<(), Denial> {
        match self {
            Either::First(centre) => centre.question(account, side, lots),
            Either::Second(centre) => centre.question(account, side, lots),
        }
    }

    fn reserve(&mut self, account: i64, side: Side, lots: u64) -> Result<Grant, Denial> {
        match self {
            Either::First(centre) => centre.reserve(account, side, lots),
            Either::Second(centre) => centre.reserve(account, side, lots),
        }
    }

    fn settle(&mut self, grant: Grant, lots: u64) -> Result<Grant, Unsettled> {
        match self {
            Either::First(centre) => centre.settle(grant, lots),
            Either::Second(centre) => centre.settle(grant, lots),
        }
    }

    fn give_back(&mut self, grant: Grant) -> Result<(), Denial> {
        match self {
            Either::First(centre) => centre.give_back(grant),
            Either::Second(centre) => centre.give_back(grant),
        }
    }

    fn line(&self, account: i64) -> Option<Line> {
        match self {
            Either::First(centre) => centre.line(account),
            Either::Second(centre) => centre.line(account),
        }
    }
}
