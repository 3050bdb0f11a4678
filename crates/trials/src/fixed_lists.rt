// A list in fixed memory, up to its end.
use fixed::FixedList;
use std::process::Abort;
use std::test::Fail;

// A list after three pushes, of which the last finds it full.
fn full_list(rt: &impl Abort) -> FixedList<u8, 2> {
    let mut list = FixedList::new(0);
    for (item, place, full) in &[(7, Some(0), false), (8, Some(1), true), (9, None, true)] {
        assert_eq!(rt;
            (list.push(*item), list.is_full()),
            (*place, *full),
            "item {item}"
        );
    }
    list
}

#[test]
fn a_full_list_takes_no_more(rt: HostRuntime) -> Result<(), Fail> {
    let list = full_list(&rt);
    assert_eq!(rt; list.clone()?.as_slice(), b"\x07\x08".as_slice());
    assert_eq!(rt; list.len(), 2);
    Ok(())
}

#[test]
fn no_items_and_too_many(rt: HostRuntime) {
    assert!(rt; FixedList::<u8, 2>::new(0).is_empty());
    assert!(rt; FixedList::<u8, 2>::from_slice(0, b"\x01\x02\x03").is_none());
}
