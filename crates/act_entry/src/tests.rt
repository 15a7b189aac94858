//! Words as they are written elsewhere.

use crate::{Entry, Ref, chain, chain_key, chain_next, decode, encode, pack, unpack};

const CANDIDATE: Ref = Ref { row: 9, hit: false };

const HIT: Ref = Ref { row: 5, hit: true };

#[test]
fn entries(rt: HostRuntime) {
    assert_eq!(rt; encode(&Entry::Child(3)), 12);
    assert_eq!(rt; encode(&Entry::One(HIT)), 45);
    assert_eq!(rt; encode(&Entry::Two(HIT, CANDIDATE)), 154_618_822_702);
    assert_eq!(rt; encode(&Entry::Table { row: 4, place: 10 }), 4139);
    assert_eq!(rt; decode(0), Some(Entry::Empty));
    assert_eq!(rt; decode(12), Some(Entry::Child(3)));
    assert_eq!(rt; decode(45), Some(Entry::One(HIT)));
    assert_eq!(rt; decode(154_618_822_702), Some(Entry::Two(HIT, CANDIDATE)));
    assert_eq!(rt; decode(4139), Some(Entry::Table { row: 4, place: 10 }));
    // a row 0, a row past the last, a place past the last, a reference that is too great
    for word in [1, 5, 1 << 32, 2, 3, 4139 + 4 * 244, (1 << 33) + 9] {
        assert_eq!(rt; decode(word), None, "at {word}");
    }
}

#[test]
fn lists_and_chains(rt: HostRuntime) {
    let both = pack(HIT, Some(CANDIDATE));
    assert_eq!(rt; both, 11 + (18 << 31));
    assert_eq!(rt; unpack(both), Some((HIT, Some(CANDIDATE))));
    assert_eq!(rt; unpack(pack(CANDIDATE, None)), Some((CANDIDATE, None)));
    for word in [0, 1, 11 + (1 << 31), 1 << 62] {
        assert_eq!(rt; unpack(word), None, "at {word}");
    }
    let word = chain(0, 7);
    assert_eq!(rt; word, 30_064_771_072);
    assert_eq!(rt; (chain_next(word), chain_key(word)), (0, 7));
}
