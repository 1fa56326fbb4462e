//! The edges of the size classes, by the calls.
use classes::{Class, pages_of_long};
use std::test::Fail;

fn class_of(length: u32) -> Option<u32> {
    Class::of_length(length).map(Class::number)
}

#[test]
fn classes_of_lengths(rt: HostRuntime) {
    let cases = [
        (0, None),
        (1, Some(0)),
        (8, Some(0)),
        (9, Some(1)),
        (224, Some(19)),
        (225, Some(20)),
        (1791, Some(31)),
        (1792, Some(31)),
        (1793, None),
        (u32::MAX, None),
    ];
    for (length, class) in cases {
        assert_eq!(rt; class_of(length), class);
    }
}

#[test]
fn pages_of_long_requests(rt: HostRuntime) {
    let cases = [
        (0, None),
        (1792, None),
        (1793, Some(4)),
        (2048, Some(4)),
        (2049, Some(5)),
        (130048, Some(254)),
        (130049, Some(255)),
        (130560, Some(255)),
        (130561, None),
        (u32::MAX, None),
    ];
    for (bytes, pages) in cases {
        assert_eq!(rt; pages_of_long(bytes), pages);
    }
}

#[test]
fn slots_of_size_20(rt: HostRuntime) -> Result<(), Fail> {
    let Some(class) = Class::new(5) else {
        return Err(Fail::new("class 5 is not known"));
    };
    assert_eq!(rt; class.size(), 20);
    assert_eq!(rt; class.pages(), 5);
    assert_eq!(rt; class.slots(), 128);
    assert_eq!(rt; class.slot_of(60), Some(3));
    assert_eq!(rt; class.slot_at(60), Some(3));
    assert_eq!(rt; class.slot_of(50), Some(2));
    assert_eq!(rt; class.slot_at(50), None);
    assert_eq!(rt; class.slot_of(2559), Some(127));
    assert_eq!(rt; class.slot_of(2560), None);
    assert_eq!(rt; class.slot_at(2560), None);
    Ok(())
}

#[test]
fn classes_by_number(rt: HostRuntime) {
    assert!(rt; Class::new(31).is_some());
    assert!(rt; Class::new(32).is_none());
    assert!(rt; Class::new(u32::MAX).is_none());
}
