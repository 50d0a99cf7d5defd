//! Indexes of more than 65,536 pages.

use crate::calls::alone;
use bl_index::{Config, Index, KeyReply, OpenFault};

#[test]
fn an_index_has_more_pages_than_65_536(rt: HostRuntime) {
    let (index, mut pass) = alone(rt.alloc(), 65_537).expect(&rt, "it is opened");
    let none = index.find(&mut pass, 7, 9);
    assert!(rt; none == Ok(KeyReply::Absent));
}

#[test]
fn limits_of_both_doors(rt: HostRuntime) {
    let small = Config {
        pages: 65_537,
        passes: 1,
    };
    let few = Config {
        pages: 3,
        passes: 1,
    };
    let many = Config {
        pages: 268_435_457,
        passes: 1,
    };
    assert!(rt; matches!(Index::open(rt.alloc(), small), Err(OpenFault::Pages)));
    assert!(rt; matches!(Index::open_large(rt.alloc(), few), Err(OpenFault::Pages)));
    assert!(rt; matches!(Index::open_large(rt.alloc(), many), Err(OpenFault::Pages)));
}
