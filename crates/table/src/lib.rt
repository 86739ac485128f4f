// The lent table: its words, find in one scope, and lookup by climbing. Image and table go as two, since C lends them so.
#![tactic(auto)]

ghost use Rattle.std.specs.Prelude.{◌≡◌, suc, ◌+◌, ◌<◌, ◌^◌, get_or, set};
ghost use Rattle.ast.specs.Image as ImageSpec;
ghost use Rattle.table.specs.Layout as LayoutSpec;
ghost use Rattle.table.specs.Layout.{parent_place, scope_place, node_place, arrays, table_length};
ghost use Rattle.table.specs.Table as TableSpec;
ghost use Rattle.table.specs.Table.{found_node};
ghost use Rattle.table.specs.Values.{found_at, found_of, rank_of, number_of, number_or_zero, is_symbol};

use ast::NodeId;
use ast::kind::Kind;

#[derive(Clone, Copy, Debug, PartialEq, Eq)]
pub struct ScopeId(pub u32);

// The word for no scope, as the parent of the first has it, and the places of an AppHeadMember: C reads it so, since the table's words
// have room for no Option.
pub const NO_SCOPE: ScopeId = ScopeId(4294967295);

// A symbol as it is found: its node, and the scope that holds it.
#[derive(Clone, Copy, Debug, PartialEq, Eq)]
pub struct Found {
    pub node: NodeId,
    pub scope: ScopeId,
}

// What a symbol declares: the cases of the Rust's Symbol, without the nodes that they carry there.
#[derive(Clone, Copy, Debug, PartialEq, Eq)]
pub enum Symbol {
    Type,
    Pred,
    Func,
    Const,
    Enum,
    Ctor,
    Model,
    Rule,
    Arg,
    Var,
}

// The layout, as specs/Layout has it: the places of N, K and Y, and how many such counts there are.
pub const NODES_PLACE: usize = 0;

pub const SCOPES_PLACE: usize = 1;

pub const SYMBOLS_PLACE: usize = 2;

pub const COUNTS: usize = 3;

pub const ARRAYS: usize = 5;

// The table of the largest image has so many words.
pub const MOST_WORDS: usize = COUNTS + ARRAYS * ast::NODES;

// The arrays, all in one slice, since C lends the table so: a node's entry and exit, a scope's parent, a symbol's scope and node.
#[derive(Clone, Copy, Debug, PartialEq, Eq)]
pub enum Array {
    Entries,
    Exits,
    Parents,
    SymbolScopes,
    SymbolNodes,
}

impl Array {
    // How many arrays stand before it.
    fn rank(self) -> usize
        ensures is { result ≡ rank_of self }
        ensures few { result < arrays }
    {
        self as usize
    }
}

// The place of the i-th word of an array, in the table of an image of n nodes.
pub fn place(array: Array, n: u32, i: u32) -> usize
    ensures { result ≡ LayoutSpec.place (rank_of array) n i }
{
    COUNTS + array.rank() * n as usize + i as usize
}

// How many words a table needs for an image of n nodes.
pub fn words_for(n: u32) -> usize
    ensures { result ≡ table_length n }
{
    COUNTS + ARRAYS * n as usize
}

// The word at a place; 0 where there is none, as ast::word.
pub fn get(table: &[u32], i: usize) -> u32
    ensures { result ≡ get_or table.now i 0 }
{
    if i < table.len() { table[i] } else { 0 }
}

pub fn put(table: &mut [u32], i: usize, value: u32)
    ensures { table.new ≡ set table.old i value }
{
    if i < table.len() {
        table[i] = value;
    }
}

// The i-th word of an array of the table. Each reader below names its array and what it holds, which says more than the rank.
fn word_of(image: &[u8], table: &[u32], array: Array, i: u32) -> u32
    ensures { result ≡ get_or table.now (LayoutSpec.place (rank_of array) (ImageSpec.nodes image.now) i) 0 }
{
    get(table, place(array, ast::node_count(image), i))
}

pub fn parent_of(image: &[u8], table: &[u32], scope: ScopeId) -> ScopeId
    ensures { result.0 ≡ get_or table.now (parent_place (ImageSpec.nodes image.now) scope.0) 0 }
{
    ScopeId(word_of(image, table, Array::Parents, scope.0))
}

pub fn symbol_scope(image: &[u8], table: &[u32], j: u32) -> ScopeId
    ensures { result.0 ≡ get_or table.now (scope_place (ImageSpec.nodes image.now) j) 0 }
{
    ScopeId(word_of(image, table, Array::SymbolScopes, j))
}

pub fn symbol_node(image: &[u8], table: &[u32], j: u32) -> NodeId
    ensures { result.0 ≡ get_or table.now (node_place (ImageSpec.nodes image.now) j) 0 }
{
    NodeId(word_of(image, table, Array::SymbolNodes, j))
}

// The symbol of row j.
pub fn symbol_at(image: &[u8], table: &[u32], j: u32) -> Found
    ensures { found_at result ≡ TableSpec.symbol_at image.now table.now j }
{
    Found {
        node: symbol_node(image, table, j),
        scope: symbol_scope(image, table, j),
    }
}

// Row j is a symbol of the scope with the name.
pub fn row_is(image: &[u8], table: &[u32], j: u32, scope: ScopeId, name: u32) -> bool
    ensures { result ≡ TableSpec.row_is image.now table.now j scope.0 name }
{
    symbol_scope(image, table, j) == scope
        && ast::name_of(image, symbol_node(image, table, j)) == name
}

// The first symbol of the name in the scope.
pub fn find(image: &[u8], table: &[u32], symbols: u32, scope: ScopeId, name: u32) -> Option<Found>
    ensures { found_of result ≡ TableSpec.find_from image.now symbols table.now 0 scope.0 name }
{
    for j in 0..symbols {
        if row_is(image, table, j, scope, name) {
            return Some(symbol_at(image, table, j));
        }
    }
    None
}

// The symbol of the name in the scope, or in the nearest scope above it that has one.
pub fn lookup(image: &[u8], table: &[u32], symbols: u32, scope: ScopeId, name: u32) -> Option<Found>
    ensures { found_of result ≡ TableSpec.climb image.now (suc scope.0) table.now symbols scope.0 name }
{
    match find(image, table, symbols, scope, name) {
        Some(found) => Some(found),
        None => {
            let parent = parent_of(image, table, scope);
            if parent.0 < scope.0 {
                lookup(image, table, symbols, parent, name)
            } else {
                None
            }
        }
    }
}

// Of a kind, by the kind's number: any may be asked for.
pub fn is_kind(image: &[u8], found: Option<Found>, kind: u32) -> bool
    ensures { result ≡ TableSpec.is_kind image.now kind (found_node (found_of found)) }
{
    match found {
        Some(found) => ast::kind_at(image, found.node) == kind,
        None => false,
    }
}

// A Var.
pub fn is_var(image: &[u8], found: Option<Found>) -> bool
    ensures { result ≡ TableSpec.is_var image.now (found_node (found_of found)) }
{
    is_kind(image, found, u32::from(Kind::IdentTerm))
}

// A Var or a Const.
pub fn is_value(image: &[u8], found: Option<Found>) -> bool
    ensures { result ≡ TableSpec.is_value image.now (found_node (found_of found)) }
{
    is_var(image, found) || is_kind(image, found, u32::from(Kind::ConstDecl))
}

// The scope that a node is entered at, and the one that it is left at.
pub fn entry_of(image: &[u8], table: &[u32], node: NodeId) -> ScopeId
    ensures { result.0 ≡ TableSpec.entry_at image.now table.now node.0 }
{
    ScopeId(word_of(image, table, Array::Entries, node.0))
}

pub fn exit_of(image: &[u8], table: &[u32], node: NodeId) -> ScopeId
    ensures { result.0 ≡ TableSpec.exit_at image.now table.now node.0 }
{
    ScopeId(word_of(image, table, Array::Exits, node.0))
}

// What a node of the kind declares, if it is a symbol's. The kind as its number: an image may hold any.
#[tactic(auto, unfolding(crate::specs::Table::symbol_of, crate::specs::Table::declares))]
pub fn symbol_of(kind: u32) -> Option<Symbol>
    ensures number { number_or_zero result ≡ TableSpec.symbol_of kind }
    ensures some { is_symbol result ≡ TableSpec.declares kind }
{
    match Kind::try_from(kind) {
        Ok(Kind::TypeDecl) => Some(Symbol::Type),
        Ok(Kind::PredDecl) => Some(Symbol::Pred),
        Ok(Kind::FuncDecl) => Some(Symbol::Func),
        Ok(Kind::ConstDecl) => Some(Symbol::Const),
        Ok(Kind::RuleDecl) => Some(Symbol::Rule),
        Ok(Kind::EnumDecl) => Some(Symbol::Enum),
        Ok(Kind::ModelDecl) => Some(Symbol::Model),
        Ok(Kind::CtorDecl) => Some(Symbol::Ctor),
        Ok(Kind::ArgDecl) => Some(Symbol::Arg),
        Ok(Kind::IdentTerm) => Some(Symbol::Var),
        _ => None,
    }
}

// The symbol's number, as the cases go.
impl From<Symbol> for u32 {
    ghost from_gives = { λ symbol number. number ≡ number_of symbol };

    fn from(symbol: Symbol) -> u32 {
        symbol as u32
    }
}
