//! Edits of lists that are carried: each row, and each public call that no row makes, once.
use crate::list_rows::{CARRIED, CHANGED, REFUSED, Step};
use bridge_links::{Link, Links};
use bridge_lists::{CarriedEdits, CarryFault, ListBridge};
use hold_shapes::{Places, ShapeEdit};
use std::alloc::{AllocError, Global};
use texts::Name;

// The bridge between a list of five items and what an edit makes of it.
fn bridge_after(alloc: Global, step: Step) -> Result<ListBridge, AllocError> {
    let same = ListBridge::between_the_same(alloc, 5)?;
    match step {
        Step::Ins(count) => same.after_insertion(alloc, count as u64),
        Step::Del(count) if count <= 5 => same.after_deletion(alloc, count as u64),
        Step::Move(from, to) if from < 5 && to < 5 => same.after_move(alloc, from, to),
        Step::Order(places) => same.after_reorder(alloc, &order(alloc, places)?),
        _ => Err(AllocError),
    }
}

fn order(alloc: Global, places: &[u64]) -> Result<Places, AllocError> {
    Ok(Places::from_vec(Vec::from_slice(alloc, places)?))
}

fn edit(alloc: Global, step: Step) -> Result<ShapeEdit, AllocError> {
    match step {
        Step::Ins(count) => Ok(ShapeEdit::Ins(count)),
        Step::Del(count) => Ok(ShapeEdit::Del(count)),
        Step::Move(from, to) => Ok(ShapeEdit::MoveItem(from, to)),
        Step::Order(places) => Ok(ShapeEdit::Reorder(order(alloc, places)?)),
    }
}

// What edits of the near list are for the far one, or the cause for which one of them has no plan.
fn carried(alloc: Global, far: Step, near: &[Step]) -> Result<String, AllocError> {
    let mut bridge = bridge_after(alloc, far)?;
    let mut out = String::new(alloc);
    for step in near {
        let Some(next) = push_carried(alloc, &mut out, &bridge, edit(alloc, *step)?)? else {
            return Ok(out);
        };
        bridge = next;
    }
    if out.as_str().is_empty() {
        out.push_str("nothing")?;
    }
    out.push_str(":")?;
    push_links(alloc, &mut out, bridge.links())?;
    Ok(out)
}

// Writes what an edit of the near list is for the far one, and gives the bridge after both; or writes the cause for
// which it has no plan.
fn push_carried(
    alloc: Global,
    out: &mut String,
    bridge: &ListBridge,
    edit: ShapeEdit,
) -> Result<Option<ListBridge>, AllocError> {
    let found = bridge.carry(alloc, &edit);
    drop(edit);
    match found {
        Ok(carried) => {
            push_edits(alloc, out, &carried)?;
            Ok(Some(carried.bridge))
        }
        Err(fault) => {
            push_fault(alloc, out, fault)?;
            Ok(None)
        }
    }
}

fn push_fault(alloc: Global, out: &mut String, fault: CarryFault) -> Result<(), AllocError> {
    push_comma(out)?;
    match fault {
        CarryFault::Gone => out.push_str("Gone"),
        CarryFault::NoPlan(cause) => out.push_str(format!(in alloc; "{cause:?}")?.as_str()),
    }
}

fn push_comma(out: &mut String) -> Result<(), AllocError> {
    if !out.as_str().is_empty() {
        out.push_str(", ")?;
    }
    Ok(())
}

fn push_edits(alloc: Global, out: &mut String, carried: &CarriedEdits) -> Result<(), AllocError> {
    for edit in &carried.edits {
        push_comma(out)?;
        push_edit(alloc, out, edit)?;
    }
    Ok(())
}

fn push_edit(alloc: Global, out: &mut String, edit: &ShapeEdit) -> Result<(), AllocError> {
    match edit {
        ShapeEdit::Ins(count) => out.push_str(format!(in alloc; "ins {count}")?.as_str()),
        ShapeEdit::Del(count) => out.push_str(format!(in alloc; "del {count}")?.as_str()),
        ShapeEdit::MoveItem(from, to) => {
            out.push_str(format!(in alloc; "move {from} {to}")?.as_str())
        }
        ShapeEdit::Reorder(places) => push_order(alloc, out, places.as_slice()),
        _ => out.push_str("another"),
    }
}

fn push_order(alloc: Global, out: &mut String, places: &[u64]) -> Result<(), AllocError> {
    out.push_str("reorder")?;
    for place in places {
        out.push_str(format!(in alloc; " {place}")?.as_str())?;
    }
    Ok(())
}

fn push_links(alloc: Global, out: &mut String, links: &Links) -> Result<(), AllocError> {
    for place in 0..links.len() {
        push_link(alloc, out, links.get(place))?;
    }
    Ok(())
}

fn push_link(alloc: Global, out: &mut String, link: Link) -> Result<(), AllocError> {
    match link {
        Link::Stays(place) => out.push_str(format!(in alloc; " {place}")?.as_str()),
        Link::Moved(place) => out.push_str(format!(in alloc; " {place}'")?.as_str()),
        Link::Gone | Link::Missed => out.push_str(" -"),
    }
}

// The far place that a change of an item is carried to.
fn changed(alloc: Global, far: Step, place: u64) -> Result<Option<u64>, AllocError> {
    let bridge = bridge_after(alloc, far)?;
    Ok(bridge.far_place(place))
}

// An edit of a keyed map, given to a bridge between lists.
fn put_key(alloc: Global) -> Result<String, AllocError> {
    let bridge = ListBridge::between_the_same(alloc, 5)?;
    let mut out = String::new(alloc);
    let name = Name::from_string(String::from_str(alloc, "k")?);
    push_carried(alloc, &mut out, &bridge, ShapeEdit::PutKey(name))?;
    Ok(out)
}

// Where two far places came from, of which the second is fresh.
fn near_places(alloc: Global) -> Result<(Option<u64>, Option<u64>), AllocError> {
    let mut links = Links::empty(alloc);
    links.push_run(Link::Moved(3), 2)?;
    links.push_run(Link::Gone, 1)?;
    links.push_run(Link::Stays(0), 2)?;
    let copy = links.copy(alloc)?;
    Ok((copy.place_in_near(4).place(), copy.place_in_near(2).place()))
}

#[test]
fn lists(rt: HostRuntime) {
    let alloc = rt.alloc();
    for (far, near, text) in CARRIED {
        let found = carried(alloc, far, near).expect(&rt, "memory");
        assert_eq!(rt; found.as_str(), text);
    }
    for (near, cause) in REFUSED {
        let found = carried(alloc, Step::Ins(1), &[near]).expect(&rt, "memory");
        assert_eq!(rt; found.as_str(), cause);
    }
    for (far, place, there) in CHANGED {
        assert_eq!(rt; changed(alloc, far, place), Ok(there));
    }
    let found = put_key(alloc).expect(&rt, "memory");
    assert_eq!(rt; found.as_str(), "Kind");
    assert_eq!(rt; near_places(alloc), Ok((Some(1), None)));
}
