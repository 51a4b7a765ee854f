//! The one test of this library. It takes a list of tags apart, which no other module can do: the patterns name every
//! field of the list, of its nodes and of their counts, so a list that kept anything else would not compile here.

use super::*;
use crate::seq::TagSeq;
use std::test::Fail;

// Appends the tags of a tree in order. Returns whether the tags of each node's counts strictly rise.
fn take_apart(tree: &TagTree, tags: &mut Vec<u32>) -> Result<bool, AllocError> {
    match tree {
        TagTree::Empty => Ok(true),
        TagTree::Node(node) => {
            let node: &TagNode = node;
            let TagNode {
                tag,
                left,
                right,
                height,
                left_size: _,
                left_counts,
            } = node;
            let Counts { pairs } = left_counts;
            let counts_rise = rise(pairs.as_slice());
            let left_rises = take_apart(left, tags)?;
            tags.push(*tag)?;
            let right_rises = take_apart(right, tags)?;
            Ok(*height > 0 && counts_rise && left_rises && right_rises)
        }
    }
}

// Whether the tags of pairs strictly rise.
fn rise(pairs: &[(u32, u64)]) -> bool {
    for place in 1..pairs.len() {
        if pairs[place - 1].0 >= pairs[place].0 {
            return false;
        }
    }
    true
}

#[test]
fn nodes_hold_the_tags_in_order(rt: HostRuntime) -> Result<(), Fail> {
    let alloc = rt.alloc();
    let mut wanted = Vec::new(alloc);
    for place in 0..1000u32 {
        wanted.push(place / 3 % 7)?;
    }
    let list = TagSeq::from_list(alloc, &wanted)?;
    let TagSeq {
        root,
        len,
        alloc: _,
    } = &list;
    let mut tags = Vec::new(alloc);
    let counts_rise = take_apart(root, &mut tags)?;
    assert!(rt; counts_rise);
    assert_eq!(rt; *len, 1000);
    assert_eq!(rt; tags.as_slice(), wanted.as_slice());
    Ok(())
}
