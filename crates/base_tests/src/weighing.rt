// Weights of a collection of three documents, and their impacts.

use weights::{Bits, Range, Rule, idf, impact_of, length_norm, lg, weight_of};

/// The weights of a term in three documents go from 401 to 572.
const OF_THREE: Range = Range {
    least: 401,
    greatest: 572,
};

const ONE_WEIGHT: Range = Range {
    least: 7,
    greatest: 7,
};

#[test]
fn impacts(rt: HostRuntime) {
    assert!(rt; impact_of(Bits::Of(8), OF_THREE, 572) == 255);
    assert!(rt; impact_of(Bits::Of(8), OF_THREE, 549) == 220);
    assert!(rt; impact_of(Bits::Of(8), OF_THREE, 401) == 1);
    assert!(rt; impact_of(Bits::Of(8), ONE_WEIGHT, 7) == 1);
    assert!(rt; impact_of(Bits::Raw, Range::new(), 70_000) == 65_535);
}

#[test]
fn ends_of_a_range_get_the_ends_of_the_bits(rt: HostRuntime) {
    for b in 1..17u8 {
        assert!(rt; impact_of(Bits::Of(b), OF_THREE, 401) == 1);
        assert!(rt; u32::from(impact_of(Bits::Of(b), OF_THREE, 572)) + 1 == 1u32 << b);
    }
}

#[test]
fn a_range_of_three_weights(rt: HostRuntime) {
    let mut range = Range::new();
    range.widen(549);
    range.widen(572);
    range.widen(401);
    assert!(rt; range == OF_THREE);
}

#[test]
fn logarithms(rt: HostRuntime) {
    assert!(rt; lg(1) == 0);
    assert!(rt; lg(3) == 1_536);
    assert!(rt; lg(1_365) == 10_581);
    assert!(rt; lg(u64::MAX) == 65_535);
}

/// Three documents of 9, 5 and 1 terms, each of which has no term but one that they share.
#[test]
fn weights_of_three_documents(rt: HostRuntime) {
    assert!(rt; idf(3, 3) == 341);
    assert!(rt; length_norm(3, 15, 9) == 1_188);
    assert!(rt; length_norm(3, 15, 5) == 900);
    assert!(rt; length_norm(3, 15, 1) == 612);
    assert!(rt; weight_of(Rule::Bm25, 3, 15, 3, 9, 9) == 572);
    assert!(rt; weight_of(Rule::Bm25, 3, 15, 3, 5, 5) == 549);
    assert!(rt; weight_of(Rule::Bm25, 3, 15, 3, 1, 1) == 401);
    assert!(rt; weight_of(Rule::Tf, 3, 15, 3, 9, 9) == 9);
}
