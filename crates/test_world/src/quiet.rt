//! The laws by which an index may begin with a sound image do nothing when they run.

use bl_check_laws::{begins_with_rows, has_rows, may_begin};

#[test]
fn the_laws_do_nothing() {
    may_begin();
    has_rows();
    begins_with_rows();
}
