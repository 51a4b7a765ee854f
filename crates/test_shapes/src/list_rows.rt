//! What edits of a list of five items are for the list after another edit.

/// An edit of a list.
#[derive(Clone, Copy)]
pub enum Step {
    /// This number of items more at the end.
    Ins(u32),
    /// This number of items less at the end.
    Del(u32),
    /// The item at the first place to the second place.
    Move(u64, u64),
    /// The items in another order of five: at each place the item of this one.
    Order(&'static [u64]),
}

/// The order that turns five items round.
pub const ROUND: &[u64] = &[4, 3, 2, 1, 0];
/// The order that exchanges the first two of five items.
pub const FIRST_TWO: &[u64] = &[1, 0, 2, 3, 4];

/// The edit of the far list, edits of the near list, and what these are for the far one: the edits, and behind them
/// where each item of the near list then is. A stroke says that only the far list has moved it, and a dash that it is
/// nowhere. `Gone` says that an edit is refused, since the far list does not have the item that it moves.
pub const CARRIED: [(Step, &[Step], &str); 30] = [
    (Step::Ins(2), &[Step::Ins(1)], "ins 1: 0 1 2 3 4 7"),
    (Step::Ins(2), &[Step::Move(1, 4)], "move 1 6: 0 1 2 3 6"),
    (Step::Ins(2), &[Step::Move(4, 0)], "move 4 0: 0 1 2 3 4"),
    (
        Step::Ins(2),
        &[Step::Del(2)],
        "move 4 6, move 3 5, del 2: 0 1 2",
    ),
    (
        Step::Ins(2),
        &[Step::Order(ROUND)],
        "reorder 4 3 2 1 0 5 6: 0 1 2 3 4",
    ),
    (Step::Del(2), &[Step::Ins(1)], "ins 1: 0 1 2 - - 3"),
    (Step::Del(2), &[Step::Move(4, 0)], "Gone"),
    (Step::Del(2), &[Step::Move(4, 4)], "Gone"),
    (Step::Del(2), &[Step::Move(0, 4)], "move 0 2: 0 1 - - 2"),
    (Step::Del(2), &[Step::Del(1)], "nothing: 0 1 2 -"),
    (Step::Del(2), &[Step::Del(3)], "del 1: 0 1"),
    (
        Step::Del(2),
        &[Step::Order(ROUND)],
        "reorder 2 1 0: - - 0 1 2",
    ),
    (Step::Move(0, 4), &[Step::Ins(1)], "ins 1: 4' 0 1 2 3 5"),
    (Step::Move(0, 4), &[Step::Move(0, 2)], "move 4 2: 0 1 2 3 4"),
    (Step::Move(0, 4), &[Step::Move(1, 0)], "nothing: 0 4' 1 2 3"),
    (
        Step::Move(0, 4),
        &[Step::Move(3, 1)],
        "move 2 0: 4' 0 1 2 3",
    ),
    (
        Step::Move(3, 0),
        &[Step::Move(1, 3)],
        "move 2 3: 1 2 0' 3 4",
    ),
    (
        Step::Move(0, 4),
        &[Step::Del(2)],
        "move 3 4, move 2 3, del 2: 2' 0 1",
    ),
    (Step::Move(4, 1), &[Step::Del(2)], "move 1 4, del 2: 0 1 2"),
    (
        Step::Move(0, 4),
        &[Step::Order(ROUND)],
        "reorder 3 2 1 0 4: 0 1 2 3 4",
    ),
    (Step::Order(ROUND), &[Step::Ins(1)], "ins 1: 4 3 2 1 0 5"),
    (
        Step::Order(ROUND),
        &[Step::Move(0, 2)],
        "move 4 1: 4 3 1 2 0",
    ),
    (
        Step::Order(ROUND),
        &[Step::Del(2)],
        "move 0 4, move 0 3, del 2: 2 1 0",
    ),
    (
        Step::Order(ROUND),
        &[Step::Order(FIRST_TWO)],
        "reorder 3 4 2 1 0: 0 1 2 3 4",
    ),
    (Step::Move(0, 1), &[Step::Move(0, 1)], "nothing: 0 1 2 3 4"),
    (Step::Move(2, 3), &[Step::Move(1, 1)], "nothing: 0 1 3' 2 4"),
    (
        Step::Move(0, 2),
        &[Step::Move(0, 1), Step::Ins(1), Step::Move(5, 1)],
        "move 2 1, ins 1, move 5 1: 0 1 2 3 4 5",
    ),
    (
        Step::Ins(1),
        &[Step::Ins(1), Step::Move(5, 2), Step::Del(1)],
        "ins 1, move 6 2, move 5 6, del 1: 0 1 2 3 4",
    ),
    (
        Step::Del(3),
        &[Step::Order(ROUND), Step::Order(FIRST_TWO)],
        "reorder 1 0: - - - 0 1",
    ),
    (
        Step::Del(3),
        &[Step::Ins(1), Step::Move(3, 0)],
        "ins 1, Gone",
    ),
];

/// An edit of the near list that has no plan, and the cause.
pub const REFUSED: [(Step, &str); 5] = [
    (Step::Ins(0), "Range"),
    (Step::Del(6), "Range"),
    (Step::Move(5, 0), "Place"),
    (Step::Order(&[0, 1]), "Length"),
    (Step::Order(&[0, 1, 2, 3, 3]), "Range"),
];

/// The edit of the far list, a place of the near one, and the far place that a change there is carried to.
pub const CHANGED: [(Step, u64, Option<u64>); 4] = [
    (Step::Ins(2), 4, Some(4)),
    (Step::Del(2), 4, None),
    (Step::Move(0, 4), 0, Some(4)),
    (Step::Order(ROUND), 1, Some(3)),
];
