// What becomes of grants: settled, given back, or refused by cause 5 at depth 0.
use crate::scene::{Answer, NOT_HELD, capped, with_accounts};
use centres::position::Position;
use centres::prepaid::Prepaid;
use clearing::centre::{Centre, Unsettled};
use clearing::grant::Grant;
use clearing::resting::Resting;
use clearing::side::Side::{self, Buy, Sell};
use std::process::Abort;
use std::test::Fail;

// Held and settled lots.
type Held = (u64, u64);

// Lots that are to be settled, the answer, the lots that the grant has then, and what the account has on its side.
type Row = (u64, Answer, u64, Option<Held>);

// More than the grant has is refused though the line holds it, and 0 lots move nothing.
const IN_PARTS: [Row; 7] = [
    (31, NOT_HELD, 30, Some((70, 0))),
    (u64::MAX, NOT_HELD, 30, Some((70, 0))),
    (0, Ok(()), 30, Some((70, 0))),
    (10, Ok(()), 20, Some((60, 10))),
    (21, NOT_HELD, 20, Some((60, 10))),
    (20, Ok(()), 0, Some((40, 30))),
    (1, NOT_HELD, 0, Some((40, 30))),
];

// Where the account has no line, not even 0 lots are settled.
const NO_LINE: [Row; 3] = [
    (0, NOT_HELD, 5, None),
    (5, NOT_HELD, 5, None),
    (6, NOT_HELD, 5, None),
];

// The account holds 4 lots to buy and 10 to sell. Settled lots and lots of the other side are not held.
const TOO_FEW: [Row; 6] = [
    (5, NOT_HELD, 10, Some((4, 0))),
    (10, NOT_HELD, 10, Some((4, 0))),
    (3, Ok(()), 7, Some((1, 3))),
    (2, NOT_HELD, 7, Some((1, 3))),
    (1, Ok(()), 6, Some((0, 4))),
    (0, Ok(()), 6, Some((0, 4))),
];

fn settle<C: Centre>(centre: &mut C, grant: Grant, lots: u64) -> (Grant, Answer) {
    match centre.settle(grant, lots) {
        Ok(rest) => (rest, Ok(())),
        Err(Unsettled { grant, denial }) => (grant, Err(denial)),
    }
}

fn on<C: Centre>(centre: &C, account: i64, side: Side) -> Option<Held> {
    let counts = centre.line(account)?.on(side);
    Some((counts.held, counts.settled))
}

// Settles lots of a grant, row by row: what is left of it, and whether each row came as it is written.
fn settles<C: Centre>(centre: &mut C, grant: Grant, rows: &[Row]) -> (Grant, bool) {
    let account = grant.account();
    let side = grant.side();
    let mut left = grant;
    let mut came = true;
    for row in rows {
        let (lots, answer, wanted, after) = *row;
        let (rest, said) = settle(centre, left, lots);
        left = rest;
        came = came
            && said == answer
            && left.account() == account
            && left.side() == side
            && left.lots() == wanted
            && on(centre, account, side) == after;
    }
    (left, came)
}

// The same, and then gives back what is left: the grant is spent even at a no.
fn moves<C: Centre>(
    centre: &mut C,
    grant: Grant,
    rows: &[Row],
    answer: Answer,
    after: Option<Held>,
) -> bool {
    let account = grant.account();
    let side = grant.side();
    let (left, came) = settles(centre, grant, rows);
    let said = centre.give_back(left);
    came && said == answer && on(centre, account, side) == after
}

fn reserved<C: Centre>(
    rt: &impl Abort,
    centre: &mut C,
    account: i64,
    side: Side,
    lots: u64,
) -> Grant {
    centre.reserve(account, side, lots).expect(rt, "room")
}

fn of_one_centre<C: Centre>(rt: &impl Abort, home: &mut C) {
    let held = reserved(rt, home, 2, Buy, 40);
    let bought = reserved(rt, home, 2, Buy, 30);
    assert!(rt; moves(home, bought, &IN_PARTS, Ok(()), Some((40, 30))));
    let sold = reserved(rt, home, 2, Sell, 8);
    let in_part = [(3, Ok(()), 5, Some((5, 3)))];
    assert!(rt; moves(home, sold, &in_part, Ok(()), Some((0, 3))));
    assert!(rt; moves(home, held, &[], Ok(()), Some((0, 30))));
}

// What an order gives of its 10 lots, and what it has left: nothing where it has fewer. What it gave is given back.
fn gives<C: Centre>(centre: &mut C, order: &mut Resting, lots: u64) -> (u64, u64) {
    let Some(grant) = order.call_up(lots) else {
        return (0, order.lots());
    };
    let given = grant.lots();
    let _answer = centre.give_back(grant);
    (given, order.lots())
}

fn of_one_order<C: Centre>(rt: &impl Abort, home: &mut C) {
    let mut order = reserved(rt, home, 1, Sell, 10).rest();
    assert!(rt;
        gives(home, &mut order, 11) == (0, 10) && gives(home, &mut order, u64::MAX) == (0, 10)
    );
    assert!(rt; gives(home, &mut order, 4) == (4, 6) && on(home, 1, Sell) == Some((6, 0)));
    assert!(rt; gives(home, &mut order, 7) == (0, 6) && gives(home, &mut order, 0) == (0, 6));
    let rest = order.call_up(order.lots()).unwrap();
    assert!(rt; order.lots() == 0 && moves(home, rest, &[], Ok(()), Some((0, 0))));
}

// Account 2 has a line at the first centre alone. At the end the second centre's own grants are for lots that are gone.
fn of_another_centre<C: Centre>(rt: &impl Abort, home: &mut C, away: &mut C) {
    let sold = reserved(rt, home, 2, Sell, 5);
    assert!(rt; moves(away, sold, &NO_LINE, NOT_HELD, None));
    let sold = reserved(rt, home, 2, Sell, 5);
    let (empty, _said) = settle(home, sold, 5);
    let no_lots = [(0, NOT_HELD, 0, None)];
    assert!(rt; moves(away, empty, &no_lots, NOT_HELD, None));
    let four = reserved(rt, away, 1, Buy, 4);
    let ten = reserved(rt, away, 1, Sell, 10);
    let bought = reserved(rt, home, 1, Buy, 10);
    assert!(rt; moves(away, bought, &TOO_FEW, NOT_HELD, Some((0, 4))));
    let sold = reserved(rt, home, 1, Sell, 11);
    assert!(rt; moves(away, sold, &[], NOT_HELD, Some((10, 0))));
    let sold = reserved(rt, home, 1, Sell, 10);
    assert!(rt; moves(away, sold, &[], Ok(()), Some((0, 0))));
    assert!(rt; moves(away, four, &[], NOT_HELD, Some((0, 4))));
    assert!(rt; moves(away, ten, &[], NOT_HELD, Some((0, 0))));
    assert!(rt; on(home, 1, Buy) == Some((10, 0)) && on(home, 1, Sell) == Some((21, 0)));
    assert!(rt; on(home, 2, Buy) == Some((0, 30)) && on(home, 2, Sell) == Some((5, 8)));
}

// At the first centre two accounts have a line with room for 100 lots, at the second the first of them.
fn only_what_is_held_moves<C: Centre + Drop>(rt: &impl Abort, mut home: C, mut away: C) {
    of_one_order(rt, &mut home);
    of_one_centre(rt, &mut home);
    of_another_centre(rt, &mut home, &mut away);
}

#[test]
fn only_what_a_prepaid_centre_holds_moves(rt: HostRuntime) -> Result<(), Fail> {
    let rule = Prepaid::new(200)?;
    let home = with_accounts(rt.alloc(), rule, &[(1, 20_000), (2, 20_000)])?;
    let away = with_accounts(rt.alloc(), rule, &[(1, 20_000)])?;
    only_what_is_held_moves(&rt, home, away);
    Ok(())
}

// Under two caps.
#[test]
fn only_what_a_position_centre_holds_moves(rt: HostRuntime) -> Result<(), Fail> {
    let heap = rt.alloc();
    let home = with_accounts(heap, Position, &[(1, 100), (2, 100)])?;
    let home = capped(heap, capped(heap, home, &[1, 2], 999)?, &[1, 2], 999)?;
    let away = with_accounts(heap, Position, &[(1, 100)])?;
    let away = capped(heap, capped(heap, away, &[1, 2], 999)?, &[1, 2], 999)?;
    only_what_is_held_moves(&rt, home, away);
    Ok(())
}
