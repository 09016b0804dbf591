use crate::{checked_plans_are_sound, checked_plans_keep_text, flows_of_checked_plans_differ};

#[test]
fn laws_are_named_by_calling_them() {
    checked_plans_are_sound();
    checked_plans_keep_text();
    flows_of_checked_plans_differ();
}
