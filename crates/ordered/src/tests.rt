// The ordered row on examples.
ghost use Rattle.std.specs.Prelude.{if◌then◌else◌, int_lt};
ghost use Rattle.std.proofs.Common.{rules};

use super::row::Row;
use super::*;
use std::test::Fail;

#[derive(Clone, Copy, PartialEq, Debug)]
struct Item {
    id: i64,
    mark: u8,
}

// By id, from the least or from the greatest.
#[derive(Drop)]
struct ById {
    descending: bool,
}

impl Standing<Item> for ById {
    ghost key = { λ x. x.id };

    ghost stands = { λ s x y. (if s.descending then int_lt y.id x.id else int_lt x.id y.id) };

    ghost irreflexive = { Prim.search rules };

    ghost transitive = { Prim.search rules };

    ghost decided = { Prim.search rules };

    fn before(&self, a: &Item, b: &Item) -> bool {
        if self.descending {
            b.id < a.id
        } else {
            a.id < b.id
        }
    }

    fn key_of(&self, item: &Item) -> i64 {
        item.id
    }
}

fn numbered(id: i64) -> Item {
    Item { id, mark: 0 }
}

#[test]
fn inserts_at_front_middle_and_end(rt: HostRuntime) {
    let by = ById { descending: false };
    let mut row = [numbered(2), numbered(5), numbered(-1)];
    assert_eq!(rt; insert(&by, &mut row), 0);
    assert_eq!(rt; row, [numbered(-1), numbered(2), numbered(5)]);
    row = [numbered(2), numbered(5), numbered(4)];
    assert_eq!(rt; insert(&by, &mut row), 1);
    assert_eq!(rt; row, [numbered(2), numbered(4), numbered(5)]);
    row = [numbered(2), numbered(5), numbered(9)];
    assert_eq!(rt; insert(&by, &mut row), 2);
    assert_eq!(rt; row, [numbered(2), numbered(5), numbered(9)]);
}

#[test]
fn inserts_by_the_state_of_the_order(rt: HostRuntime) {
    let mut row = [numbered(5), numbered(2), numbered(4)];
    assert_eq!(rt; insert(&ById { descending: true }, &mut row), 1);
    assert_eq!(rt; row, [numbered(5), numbered(4), numbered(2)]);
}

#[test]
fn inserts_into_an_empty_row(rt: HostRuntime) {
    let by = ById { descending: false };
    let mut none: [Item; 0] = [];
    assert_eq!(rt; insert(&by, &mut none), 0);
    let mut one = [numbered(3)];
    assert_eq!(rt; insert(&by, &mut one), 0);
    assert_eq!(rt; one, [numbered(3)]);
}

// Neither of two items with one key stands before the other, so the new one goes ahead.
#[test]
fn inserts_ahead_of_its_equal(rt: HostRuntime) {
    let new = Item { id: 5, mark: 1 };
    let mut row = [numbered(2), numbered(5), new];
    assert_eq!(rt; insert(&ById { descending: false }, &mut row), 1);
    assert_eq!(rt; row, [numbered(2), new, numbered(5)]);
}

#[test]
fn finds_the_first_with_a_key(rt: HostRuntime) {
    let by = ById { descending: false };
    let row = [numbered(2), numbered(5), Item { id: 5, mark: 1 }];
    assert_eq!(rt; find(&by, &row, 5), Some(1));
    assert_eq!(rt; find(&by, &row, -5), None);
    assert_eq!(rt; find(&by, &row[0..0], 2), None);
}

#[test]
fn removes_first_and_last_and_none_past_the_end(rt: HostRuntime) {
    let mut row = [numbered(2), numbered(5), numbered(7)];
    assert!(rt; remove(&mut row, 0));
    assert_eq!(rt; row, [numbered(5), numbered(7), numbered(2)]);
    assert!(rt; remove(&mut row, 2));
    assert_eq!(rt; row, [numbered(5), numbered(7), numbered(2)]);
    assert!(rt; !remove(&mut row, 3));
    assert_eq!(rt; row, [numbered(5), numbered(7), numbered(2)]);
}

#[test]
fn keeps_a_row_within_its_room(rt: HostRuntime) -> Result<(), Fail> {
    let by = ById { descending: false };
    let mut row: Row<Item, 2> = Row::new(rt.alloc())?;
    assert!(rt; !row.is_full());
    assert_eq!(rt; row.add(&by, numbered(5)), Ok(0));
    assert_eq!(rt; row.add(&by, numbered(2)), Ok(0));
    assert!(rt; row.is_full());
    assert_eq!(rt; row.add(&by, numbered(3)), Err(numbered(3)));
    assert_eq!(rt; row.push(numbered(3)), Err(numbered(3)));
    assert_eq!(rt; row.len(), 2);
    row.item_mut(1).unwrap().mark = 1;
    assert_eq!(rt;
        row.as_slice(),
        [numbered(2), Item { id: 5, mark: 1 }].as_slice()
    );
    assert_eq!(rt; row.take(2), None);
    assert_eq!(rt; row.take(0), Some(numbered(2)));
    assert_eq!(rt;
        lookup(&by, row.as_slice(), 5),
        Some(Item { id: 5, mark: 1 })
    );
    assert_eq!(rt; lookup(&by, row.as_slice(), 2), None);
    assert_eq!(rt; row.push(numbered(9)), Ok(()));
    assert_eq!(rt; row.as_slice().len(), 2);
    Ok(())
}
