ghost use Rattle.std.specs.Prelude.{◌≡◌, true, List, Ok, Some};
ghost use Rattle.value_core.specs.declared.value.Kind.{Kind};
ghost use Rattle.value_core.specs.declared.value.Value.{Value};
ghost use Rattle.value_core.specs.declared.value.Value.TheVariants.{Null};
ghost use Rattle.value_core.specs.Fits.{row_fits, value_fits};
ghost use Rattle.value_core.specs.Order.{Row};
ghost use Rattle.row_expr.specs.declared.expr.Expr.{Expr};
ghost use Rattle.row_expr.specs.declared.sort.Sort.TheVariants.{Any};
ghost use Rattle.row_expr.specs.Columns.{reads_within};
ghost use Rattle.row_expr.specs.Eval.{val};
ghost use Rattle.row_expr.specs.Kinds.{kind_in, sort_of};

/// A law: over a row that fits the columns that an expression reads, its value is NULL or of the
/// expression's kind, and NULL where any kind does (Databricks SQL reference, data types).
pub fn a_typed_value_fits_its_kind()
    ensures of_its_kind { (columns : List Kind) (row : Row) (e : Expr) (k : Kind) (value : Value)
        → row_fits columns row ≡ true
        → reads_within columns e ≡ true
        → kind_in (sort_of e) ≡ Some k
        → val e row ≡ Ok value
        → value_fits k value ≡ true }
    ensures of_any_kind { (columns : List Kind) (row : Row) (e : Expr) (value : Value)
        → row_fits columns row ≡ true
        → reads_within columns e ≡ true
        → sort_of e ≡ Any
        → val e row ≡ Ok value
        → value ≡ Null }
{}
