use crate::{
    a_row_is_read_in_any_order, current_rows_are_told_in_any_order, stamps_take_any_order,
};

#[test]
fn laws_are_named_by_calling_them() {
    stamps_take_any_order();
    a_row_is_read_in_any_order();
    current_rows_are_told_in_any_order();
}
