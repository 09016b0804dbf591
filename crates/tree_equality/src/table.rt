//! Expressions under their codes.

ghost use Rattle.std.specs.Prelude.{◌≡◌, ◌≤◌, List, ℕ, IfOk, OnOk, OnErr};
ghost use Rattle.std.specs.Option.{option_copied, option_or};
ghost use Rattle.tree_equality.specs.TreeCodes.{ArePlaced, equal_place};
ghost use Rattle.tree_equality.specs.TreeCodes as spec;

use crate::codes::tree_code;
use indexmap::IndexMap;
use sql_tree::SqlExpr;
use std::alloc::{AllocError, Global};
use std::marker::Model;

/// Expressions, which contracts see as their list, with the place of the first that has each code.
#[derive(Debug, Drop)]
pub struct TreeTable<'a> {
    trees: &'a [SqlExpr],
    places: IndexMap<Vec<u64>, u32>,
}

impl<'a> Model for TreeTable<'a> {
    ghost use Rattle.std.specs.Coded.{coded_list};
    ghost use Rattle.std.specs.Prelude.{List};
    ghost use Rattle.sql_tree.specs.declared.expr.SqlExpr.{SqlExpr};
    ghost use Rattle.sql_tree.specs.contracts.expr.SqlExpr as tree;
    ghost use Rattle.tree_equality.specs.TreeCodes.{ArePlaced};

    ghost Value = { List SqlExpr };

    ghost coded = { coded_list tree.the_row.coded };

    ghost view = { λ table. table.trees.now };

    ghost invariant = { λ table. ArePlaced (λ key. key.items) table.places.entries table.trees.now };
}

/// The place of what has a code.
fn place_under(places: &IndexMap<Vec<u64>, u32>, code: &[u64]) -> Option<u32>
    ensures { result ≡ spec.under_code (λ key. key.items) code.now places.now.entries }
{
    places.get(code).copied()
}

/// Puts a place under a code, unless one stands there.
fn put_first(
    places: &mut IndexMap<Vec<u64>, u32>,
    code: Vec<u64>,
    place: u32,
) -> Result<(), AllocError>
    ensures { OnOk result ((sought : List ℕ) → spec.under_code (λ key. key.items) sought places.new.entries ≡ option_or (spec.under_code (λ key. key.items) sought places.old.entries) (spec.place_if_same sought code.items place)) }
{
    if place_under(places, code.as_slice()).is_some() {
        return Ok(());
    }
    places.insert(code, place)?;
    Ok(())
}

/// A place in 32 bits. A list so long that they don't hold it has no place in memory.
fn narrow(place: usize) -> Result<u32, AllocError>
    ensures { IfOk result (λ narrowed. narrowed ≡ place) }
{
    match u32::try_from(place) {
        Ok(place) => Ok(place),
        Err(_) => Err(AllocError),
    }
}

fn put_tree(
    alloc: Global,
    places: &mut IndexMap<Vec<u64>, u32>,
    tree: &SqlExpr,
    place: usize,
) -> Result<(), AllocError>
    ensures { OnOk result ((sought : List ℕ) → spec.under_code (λ key. key.items) sought places.new.entries ≡ option_or (spec.under_code (λ key. key.items) sought places.old.entries) (spec.place_if_same sought (spec.tree_code tree.now) place)) }
{
    let code = tree_code(alloc, tree)?.into_vec();
    let place = narrow(place)?;
    put_first(places, code, place)
}

fn places_of(alloc: Global, trees: &[SqlExpr]) -> Result<IndexMap<Vec<u64>, u32>, AllocError>
    ensures { IfOk result (λ places. ArePlaced (λ key. key.items) places.entries trees.now) }
{
    let mut places = IndexMap::new(alloc);
    for place in 0..trees.len() {
        put_tree(alloc, &mut places, &trees[place], place)?;
    }
    Ok(places)
}

impl<'a> TreeTable<'a> {
    /// A table of expressions. The work is that of writing each once. Fails for want of memory, and
    /// for so many expressions that 32 bits don't number them.
    pub fn new(alloc: Global, trees: &'a [SqlExpr]) -> Result<TreeTable<'a>, AllocError>
        ensures { IfOk result (λ table. table ≡ trees.now) }
    {
        let places = places_of(alloc, trees)?;
        Ok(TreeTable { trees, places })
    }

    /// The place from 0 of the first of the expressions that is the same as this one: form by form,
    /// and names but for the case of ASCII letters. The work is that of writing this expression once.
    /// Fails for want of memory alone.
    pub fn place(&self, alloc: Global, tree: &SqlExpr) -> Result<Option<u32>, AllocError>
        ensures { IfOk result (λ place. place ≡ equal_place self.now tree.now) }
    {
        let code = tree_code(alloc, tree)?;
        Ok(place_under(&self.places, code.as_slice()))
    }
}
