// Firm caps over one another: which says no, and what each takes of accounts, firms and caps, up to the 100th layer.
ghost use Rattle.std.specs.Prelude.{◌≡◌, ◌≤◌, None};
ghost use Rattle.std.proofs.Common.{rules};

use crate::scene::{Answer, NO_LINE, RULE, capped, first_wrong, over, with_accounts};
use centres::PositionCentre;
use centres::firm_cap::FirmCap;
use centres::firm_table::FirmTable;
use centres::position::Position;
use clearing::cause::{Cause, Denial};
use clearing::centre::{Centre, Unsettled};
use clearing::grant::Grant;
use clearing::line::Line;
use clearing::side::Side::{self, Buy, Sell};
use std::alloc::{AllocError, Global};
use std::process::Abort;
use std::test::Fail;

// Account 1 is in all three layers, 2 in the upper two, 3 in the third, and 4 in none.
#[test]
fn the_lowest_of_three_caps_answers_first(rt: HostRuntime) -> Result<(), Fail> {
    let heap = rt.alloc();
    let centre = with_accounts(heap, Position, &[(1, 50), (2, 50), (3, 50), (4, 50)])?;
    let first = capped(heap, centre, &[1], 30)?;
    let second = capped(heap, first, &[1, 2], 20)?;
    let mut third = capped(heap, second, &[1, 2, 3], 10)?;
    let rows = [
        (1, Buy, 51, RULE),
        (1, Buy, 50, over(1)),
        (1, Buy, 31, over(1)),
        (1, Sell, 30, over(2)),
        (1, Buy, 11, over(3)),
        (1, Buy, 10, Ok(())),
        (2, Buy, 21, over(2)),
        (3, Buy, 11, over(3)),
        (4, Sell, 50, Ok(())),
        (5, Buy, 1, NO_LINE),
    ];
    assert_eq!(rt; first_wrong(&mut third, &rows), None);
    Ok(())
}

// A house's own centre, which has no accounts and says how many layers are below it. What is given back goes to a sink,
// a centre with no accounts either, since a grant can't be let go with lots.
#[derive(Drop)]
struct Deep {
    layers: u8,
    sink: PositionCentre,
    ghost few: { layers ≤ 99 },
}

impl Centre for Deep {
    ghost lines = { λ _ _. None };

    ghost own = { λ _ _ _ _ _. None };

    ghost depth = { λ s. s.layers };

    ghost same_settings = { λ s t. s.layers ≡ t.layers };

    ghost sound = { Prim.search rules };

    ghost denies = { Prim.search rules };

    ghost shallow = { λ s. s.few };

    ghost same_own = { Prim.search rules };

    ghost same_depth = { Prim.search rules };

    ghost same_self = { Prim.search rules };

    ghost same_on = { Prim.search rules };

    fn depth(&self) -> u8 {
        self.layers
    }

    fn question(&self, _account: i64, _side: Side, _lots: u64) -> Result<(), Denial> {
        Err(Denial::new(Cause::NoLine, 0))
    }

    fn reserve(&mut self, _account: i64, _side: Side, _lots: u64) -> Result<Grant, Denial> {
        Err(Denial::new(Cause::NoLine, 0))
    }

    fn settle(&mut self, grant: Grant, _lots: u64) -> Result<Grant, Unsettled> {
        let denial = Denial::new(Cause::NotHeld, 0);
        Err(Unsettled { grant, denial })
    }

    fn give_back(&mut self, grant: Grant) -> Result<(), Denial> {
        let _refused = self.sink.give_back(grant);
        Err(Denial::new(Cause::NotHeld, 0))
    }

    fn line(&self, _account: i64) -> Option<Line> {
        None
    }
}

// Accounts and firms, and whether a layer with no firms yet places them.
const PLACES: [(i64, u64, bool); 16] = [
    (0, 1, false),
    (-1, 1, false),
    (i64::MIN, 1, false),
    (i64::MAX, 1, false),
    (1_000_000, 1, false),
    (1, 0, false),
    (1, 9, false),
    (1, u64::MAX, false),
    (1, 1, true),
    (1, 1, false),
    (1, 2, false),
    (999_999, 8, true),
    (999_999, 8, false),
    (999_999, 1, false),
    (0, 0, false),
    (7, 8, true),
];

// Firms and caps, and whether the layer takes them.
const CAPS: [(u64, u64, bool); 11] = [
    (0, 5, false),
    (9, 5, false),
    (u64::MAX, 5, false),
    (1, 1_000_000_000, false),
    (1, 999_999_999, true),
    (1, 1_000_000_000, false),
    (1, u64::MAX, false),
    (8, 0, true),
    (8, 999_999_999, true),
    (2, 1, true),
    (2, 0, true),
];

// Whether each of them is answered so, and then 29 accounts more, the greatest first, are placed and no other.
fn takes<C: Centre>(layer: &mut FirmCap<C>, refusal: Answer) -> bool {
    for (account, firm, fits) in PLACES {
        if layer.place(account, firm) != (if fits { Ok(()) } else { refusal }) {
            return false;
        }
    }
    for (firm, cap, fits) in CAPS {
        if layer.set_cap(firm, cap) != (if fits { Ok(()) } else { refusal }) {
            return false;
        }
    }
    for account in (8i64..37).rev() {
        if layer.place(account, 5).is_err() {
            return false;
        }
    }
    layer.place(37, 5) == refusal && layer.place(8, 5) == refusal
}

// What those settings have left, and nothing of those that were refused.
fn is_set(firms: &FirmTable) -> bool {
    firms.members().len() == 32
        && firms.firm(0).is_none()
        && firms.firm(1) == Some(1)
        && firms.firm(7) == Some(8)
        && firms.firm(8) == Some(5)
        && firms.firm(36) == Some(5)
        && firms.firm(37).is_none()
        && firms.firm(999_999) == Some(8)
        && firms.cap(0) == 0
        && firms.cap(1) == 999_999_999
        && firms.cap(2) == 0
        && firms.cap(8) == 999_999_999
        && firms.cap(9) == 0
}

// A layer that takes all that it can.
fn full<C: Centre + Drop>(
    rt: &impl Abort,
    heap: Global,
    below: C,
    depth: u8,
) -> Result<FirmCap<C>, AllocError> {
    let mut layer = FirmCap::new(below, FirmTable::new(heap)?);
    assert_eq!(rt; layer.depth(), depth);
    assert!(rt; takes(&mut layer, Err(Denial::new(Cause::BadSetting, depth))));
    let (below, firms) = layer.into_parts();
    assert!(rt; is_set(&firms));
    Ok(FirmCap::new(below, firms))
}

// The same accounts are placed in each layer.
#[test]
fn each_layer_up_to_the_100th_takes_32_accounts_and_settings_in_range(
    rt: HostRuntime,
) -> Result<(), Fail> {
    let heap = rt.alloc();
    let sink = PositionCentre::new(heap, Position)?;
    let layer_98 = full(&rt, heap, Deep { layers: 97, sink }, 98)?;
    let layer_99 = full(&rt, heap, layer_98, 99)?;
    let _layer_100 = full(&rt, heap, layer_99, 99)?;
    Ok(())
}
