use mb_kinds::NoMemory;
use mb_room::Roomy;

#[test]
fn elements_stand_in_the_order_of_their_pushes(rt: HostRuntime) -> Result<(), NoMemory> {
    let mut list = Roomy::new(rt.alloc());
    list.reserve(3)?;
    list.push(7);
    list.push(8);
    list.push(9);
    list.set(1, 5);
    assert_eq!(rt; list.as_slice(), [7, 5, 9].as_slice());
    assert_eq!(rt; list.pop(), Some(9));
    assert_eq!(rt; list.len(), 2);
    list.clear();
    assert_eq!(rt; list.pop(), None);
    Ok(())
}
