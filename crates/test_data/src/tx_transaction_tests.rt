//! Words of a plain memory, written and read in turn, added up and counted.
use crate::shared::zeros;
use std::test::Fail;
use tx_transaction::words::{read_count, read_sum, read_words, sum_of, write_words};

#[test]
fn words_come_back_in_turn(rt: HostRuntime) -> Result<(), Fail> {
    let mut memory = zeros(rt.alloc(), 4)?;
    assert_eq!(rt; write_words(&mut memory, [(3, 9)]), Ok(()));
    assert_eq!(rt; read_words(&mut memory, [3, 0]), Ok([9, 0]));
    assert_eq!(rt; write_words(&mut memory, [(1, 5), (0, u64::MAX)]), Ok(()));
    assert_eq!(rt; read_words(&mut memory, [0, 1, 2]), Ok([u64::MAX, 5, 0]));
    assert_eq!(rt; write_words(&mut memory, [(2, 6), (2, 7), (3, 8)]), Ok(()));
    assert_eq!(rt; read_words(&mut memory, [2, 2, 3, 1]), Ok([7, 7, 8, 5]));
    Ok(())
}

#[test]
fn a_range_is_added_up_and_counted(rt: HostRuntime) -> Result<(), Fail> {
    let mut memory = zeros(rt.alloc(), 4)?;
    assert_eq!(rt;
        write_words(&mut memory, [(0, u64::MAX), (1, 5), (2, 7), (3, 8)]),
        Ok(())
    );
    assert_eq!(rt; read_sum(&mut memory, 0..3), Ok(11));
    assert_eq!(rt; read_sum(&mut memory, 1..4), Ok(20));
    assert_eq!(rt; read_count(&mut memory, 0..4, &|word| word > 6), Ok(3));
    assert_eq!(rt; read_count(&mut memory, 1..3, &|word| word > 7), Ok(0));
    Ok(())
}

#[test]
fn a_sum_of_words_is_modulo_two_to_the_64(rt: HostRuntime) -> Result<(), Fail> {
    assert_eq!(rt; sum_of(&[]), 0);
    assert_eq!(rt; sum_of(&[3, 4, 5]), 12);
    assert_eq!(rt; sum_of(&[u64::MAX, 2]), 1);
    Ok(())
}
