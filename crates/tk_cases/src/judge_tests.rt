use crate::cases::{first_wrong, first_wrong_of_groups};
use crate::number_rows::NUMBERS;
use crate::shape_rows::{ORDERS, ROUTINES, THREADS, WORKED};
use std::test::Fail;

#[test]
fn worked_certificates(rt: HostRuntime) -> Result<(), Fail> {
    assert_eq!(rt; first_wrong(rt.alloc(), WORKED), Some(""));
    Ok(())
}

#[test]
fn each_sentence_on_the_shape(rt: HostRuntime) -> Result<(), Fail> {
    assert_eq!(rt; first_wrong(rt.alloc(), THREADS), Some(""));
    assert_eq!(rt; first_wrong(rt.alloc(), ROUTINES), Some(""));
    Ok(())
}

#[test]
fn each_number_one_less(rt: HostRuntime) -> Result<(), Fail> {
    assert_eq!(rt; first_wrong_of_groups(rt.alloc(), NUMBERS), Some(""));
    Ok(())
}

#[test]
fn the_first_of_two_demands(rt: HostRuntime) -> Result<(), Fail> {
    assert_eq!(rt; first_wrong(rt.alloc(), ORDERS), Some(""));
    Ok(())
}
