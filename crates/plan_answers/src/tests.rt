use crate::{
    checks_give_no_memory, cycles_have_one_named_path, graphs_have_one_path,
    origins_are_resolved_in_one_way, statements_have_one_answer, two_checks_tell_the_same,
};

#[test]
fn a_law_is_named_by_calling_it() {
    graphs_have_one_path();
    cycles_have_one_named_path();
    origins_are_resolved_in_one_way();
    statements_have_one_answer();
    checks_give_no_memory();
    two_checks_tell_the_same();
}
