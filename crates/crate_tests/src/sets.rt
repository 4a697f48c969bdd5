//! Sets of more than one word, of which the program has none: it has 64 slots.

use bit_words::{Bits, and_all};

#[test]
fn a_set_of_four_words_has_what_was_put_in(rt: HostRuntime) {
    let mut set: Bits<4> = Bits::empty();
    for i in [255, 64, 63, 0] {
        set.set(i);
    }
    let mut other = set;
    other.clear(64);
    assert!(rt; set.has(63) && set.has(64) && !set.has(65) && !other.has(64));
    assert_eq!(rt; set.and(&other).ones(), 3);
    assert_eq!(rt; set.and_not(&other).least(), Some(64));
    assert!(rt; set != other && !set.without_least().has(0));
}

#[test]
fn rows_of_two_words_keep_what_the_vector_has(rt: HostRuntime) {
    let mut vector: Bits<2> = Bits::empty();
    vector.set(1);
    vector.set(64);
    let mut rows = [7; 6];
    and_all(&mut rows, &vector);
    assert_eq!(rt; rows, [2, 1, 2, 1, 2, 1]);
}
