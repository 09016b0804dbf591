use crate::what_is_touched_is_moved;

#[test]
fn the_law_is_named_by_calling_it() {
    what_is_touched_is_moved();
}
