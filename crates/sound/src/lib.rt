// Refusal 16: whether a lent table is sound.
#![tactic(auto)]

ghost use Rattle.std.specs.Prelude.{◌≡◌, ◌-◌, eqb};
ghost use Rattle.ast.specs.Tests.{need, run};
ghost use Rattle.error.specs.Refusals.{refusal_of};
ghost use Rattle.sound.specs.Sound.{has_name, is_symbol, parent_below, row_sound, test_sound};

use ast::NodeId;
use error::Refusal;
use table::{ScopeId, Symbol};

// An optional name that is present: a rule's or an argument's. By the image's word, 0 for none: by `typed` it would be two reads.
fn has_name(image: &[u8], node: NodeId) -> bool
    ensures { result ≡ has_name image.now node.0 }
{
    ast::field(image, node, 0) != 0
}

// A node whose kind is a symbol's, and that has a name.
fn is_symbol(image: &[u8], node: NodeId) -> bool
    ensures { result ≡ is_symbol image.now node.0 }
{
    if ast::node_count(image) <= node.0 {
        return false;
    }
    let Some(symbol) = table::symbol_of(ast::kind_at(image, node)) else {
        return false;
    };
    match symbol {
        Symbol::Rule | Symbol::Arg => has_name(image, node),
        _ => true,
    }
}

// Each scope but the first has a parent below it.
fn parents_below(image: &[u8], table: &[u32], scopes: u32) -> bool
    ensures { need 16 result ≡ run (parent_below image.now table.now) (scopes - 1) 1 }
{
    (1..scopes).all(|scope| table::parent_of(image, table, ScopeId(scope)).0 < scope)
}

// A symbol row: a scope below K and a named node.
fn row_sound(image: &[u8], table: &[u32], j: u32) -> bool
    ensures { result ≡ eqb (row_sound image.now table.now j) 0 }
{
    table::symbol_scope(image, table, j).0 < table::get(table, table::SCOPES_PLACE)
        && is_symbol(image, table::symbol_node(image, table, j))
}

fn rows_sound(image: &[u8], table: &[u32], symbols: u32) -> bool
    ensures { need 16 result ≡ run (row_sound image.now table.now) symbols 0 }
{
    (0..symbols).all(|j| row_sound(image, table, j))
}

// Refusal 16: a table that is not sound.
pub fn test_sound(image: &[u8], table: &[u32]) -> Result<(), Refusal>
    ensures { refusal_of result ≡ test_sound image.now table.now }
{
    let n = ast::node_count(image);
    let scopes = table::get(table, table::SCOPES_PLACE);
    let symbols = table::get(table, table::SYMBOLS_PLACE);
    if table::get(table, table::NODES_PLACE) != n || scopes == 0 || n < scopes || n < symbols {
        return Err(Refusal::UnsoundTable);
    }
    if table::parent_of(image, table, ScopeId(0)) != table::NO_SCOPE
        || !parents_below(image, table, scopes)
        || !rows_sound(image, table, symbols)
    {
        return Err(Refusal::UnsoundTable);
    }
    Ok(())
}
