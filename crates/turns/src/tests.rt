// An input that comes in parts.
use crate::filling::fill;
use std::io::Read;
use std::test::Fail;

const FIRST: &[u8] = b"party call a code ";

const SECOND: &[u8] = b"number d e f\n";

#[test]
fn both_parts_of_an_input_are_read(rt: HostRuntime) -> Result<(), Fail> {
    let mut buffer = [0; 40];
    let length = fill(&mut FIRST.chain(SECOND), &mut buffer)?;
    assert_eq!(rt; length, 31);
    assert!(rt; buffer.starts_with(b"party call a code number d e f\n"));
    Ok(())
}

#[test]
fn no_more_is_read_than_there_is_room_for(rt: HostRuntime) -> Result<(), Fail> {
    let mut buffer = [0; 20];
    let length = fill(&mut FIRST.chain(SECOND), &mut buffer)?;
    assert_eq!(rt; length, 20);
    assert!(rt; buffer.starts_with(b"party call a code nu"));
    Ok(())
}
