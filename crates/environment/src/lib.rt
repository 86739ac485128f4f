// What names stand for along a walk, so that no lookup climbs: by name the row of its symbol here, by row what it hides, by node
// what was noted there. And the steps that a walk makes, on the table and on what names stand for.
#![tactic(auto)]

ghost use Rattle.std.specs.Prelude.{◌≡◌, suc, ◌+◌, ◌-◌, ◌<◌, ◌≤◌, ◌^◌, replicate, get_or, set};
ghost use Rattle.std.proofs.Math.Option.{none, some};
ghost use Rattle.ast.specs.Image as ImageSpec;
ghost use Rattle.table.specs.Rising.{scope_of, node_at, parent_at};
ghost use Rattle.table.specs.State as StateSpec;
ghost use Rattle.table.specs.Table as TableSpec;
ghost use Rattle.table.specs.Values.{found_of};
ghost use Rattle.environment.specs.Layout.{environment_length, hidden, names_most, nodes_most, noted_entry, noted_exit, standing, standing_of};
ghost use Rattle.environment.specs.Layout as LayoutSpec;
ghost use Rattle.environment.specs.Asked.{asked};
ghost use Rattle.environment.specs.Builder.{Keeps, table_of, walked_of, walked_in};
ghost use Rattle.environment.specs.Stands.{told, Stands, Opens, above, First, Path, Noted, Named, Asking};

use ast::{NAMES, NODES, NodeId};
use std::marker::Model;
use table::{Array, Found, NO_SCOPE, ScopeId};

mod reading;

// What a name stands for: 0 for nothing, or a symbol row plus 1. A word of 16 bits and no Option, which would double the memory
// that is fixed and zeroed for each call.
#[derive(Clone, Copy)]
pub struct Standing(pub u16);

impl Model for Standing {
    ghost use Rattle.std.specs.Prelude.{ℕ};

    ghost Value = { ℕ };

    ghost view = { λ s. s.0 };

    ghost inverse = { λ w. record { 0 = w } };
}

impl Standing {
    // The symbol row that it is.
    pub fn row(self) -> Option<u32>
        ensures { standing_of result ≡ self }
    {
        let row = self.0.checked_sub(1)?;
        Some(u32::from(row))
    }
}

// What the name asked for at a node stands for at the node's entry, and at its exit.
#[derive(Clone, Copy)]
pub struct Note {
    pub entry: Standing,
    pub exit: Standing,
}

// By name what it stands for here, by symbol row what the row hides, by node what was noted there: any words may stand there, and the
// steps of a walk say in their clauses which they take.
#[derive(Clone, Copy)]
pub struct Environment {
    pub names: [Standing; NAMES],
    pub hidden: [Standing; NODES],
    pub notes: [Note; NODES],
}

impl Model for Environment {
    ghost use Rattle.std.specs.Prelude.{◌≡◌, List, ℕ, ◌++◌, length, map, take, drop};
    ghost use Rattle.std.specs.Simd.Lanes.{zip2};
    ghost use Rattle.environment.specs.Layout.{names_most, nodes_most};
    ghost use Rattle.environment.specs.Back.{note, first_back, second_back, notes_back};

    ghost Value = { List ℕ };

    ghost view = { λ e. e.names ++ (e.hidden ++ (map (λ n. n.entry) e.notes ++ map (λ n. n.exit) e.notes)) };

    // its arrays' lengths, which a proof is not told of arrays of a struct with a model
    ghost invariant = { λ e. (length e.names ≡ names_most) × (length e.hidden ≡ nodes_most) × (length e.notes ≡ nodes_most) };

    ghost inverse = { λ ws. record { names = take 1024 ws; hidden = take 2048 (drop 1024 ws); notes = zip2 (λ a b. note a b) (take 2048 (drop 3072 ws)) (drop 5120 ws) } };

    ghost inverse_ok = { λ e h. λ i. record { names = first_back e.names e.hidden e.notes h.0 i; hidden = second_back e.names e.hidden e.notes h.0 h.1 i; notes = notes_back e.names e.hidden e.notes h.0 h.1 h.2 i } };
}

impl Environment {
    // Nothing stands for anything yet.
    pub fn new() -> Environment
        ensures { result ≡ replicate environment_length 0 }
    {
        let nothing = Standing(0);
        Environment {
            names: [nothing; NAMES],
            hidden: [nothing; NODES],
            notes: [Note {
                entry: nothing,
                exit: nothing,
            }; NODES],
        }
    }

    // What a name stands for here.
    pub fn stands(&self, name: u32) -> Standing
        requires { name < names_most }
        ensures { result ≡ standing self.now name }
    {
        self.names[name as usize]
    }

    // What was noted for a node's entry, and for its exit.
    fn entry(&self, node: NodeId) -> Standing
        requires { node.0 < nodes_most }
        ensures { result ≡ noted_entry self.now node.0 }
    {
        self.notes[node.0 as usize].entry
    }

    fn exit(&self, node: NodeId) -> Standing
        requires { node.0 < nodes_most }
        ensures { result ≡ noted_exit self.now node.0 }
    {
        self.notes[node.0 as usize].exit
    }

    // The name stands for the row from here on.
    fn bind(&mut self, name: u32, row: u32)
        requires { (name < names_most) × (row < nodes_most) }
        ensures { self.new ≡ LayoutSpec.bound self.old name row }
    {
        self.hidden[row as usize] = self.names[name as usize];
        self.names[name as usize] = Standing((row + 1) as u16);
    }

    // What a node is entered and left with.
    fn note(&mut self, node: NodeId, before: Standing, after: Standing)
        requires { node.0 < nodes_most }
        ensures { self.new ≡ LayoutSpec.noted self.old node.0 before after }
    {
        self.notes[node.0 as usize] = Note {
            entry: before,
            exit: after,
        };
    }

    // The name, which is the row's, stands for what it did before the row.
    fn restore(&mut self, name: u32, row: u32)
        requires { (name < names_most) × (row < nodes_most) }
        ensures { self.new ≡ set self.old name (hidden self.old row) }
    {
        self.names[name as usize] = self.hidden[row as usize];
    }
}

// The symbol that a name stands for.
pub fn found(image: &[u8], table: &[u32], standing: Standing) -> Option<Found>
    ensures { found_of result ≡ told image.now table.now standing }
{
    let row = standing.row()?;
    Some(table::symbol_at(image, table, row))
}

// The way back for who is lent the table, of so many scopes and symbols, to read alone. A builder has it to write, and its two methods
// have their own loops, since it cannot lend the table out of itself to be read while the environment is written.

// The names of the scope, whose rows start with `first`, stand for what they do above it.
pub fn leave_scope(
    image: &[u8],
    table: &[u32],
    env: &mut Environment,
    scopes: u32,
    symbols: u32,
    at: ScopeId,
    first: u32,
)
    requires { Stands image.now (walked_in table.now scopes symbols at) env.old × First image.now (walked_in table.now scopes symbols at).table at.0 first }
    ensures { Stands image.now (above image.now (walked_in table.now scopes symbols at)) env.new }
{
    for row in first..symbols {
        if table::symbol_scope(image, table, row) != at {
            return;
        }
        let name = ast::name_of(image, table::symbol_node(image, table, row));
        env.restore(name, row);
    }
}

// The walk back in the scope `to`: what was introduced below it is put back, the last first. Scopes and rows go in step there.
pub fn put_back(
    image: &[u8],
    table: &[u32],
    env: &mut Environment,
    scopes: u32,
    symbols: u32,
    from: ScopeId,
    to: ScopeId,
) -> ScopeId
    requires { Stands image.now (walked_in table.now scopes symbols from) env.old × Path image.now (walked_in table.now scopes symbols from).table to.0 from.0 }
    ensures walk { walked_in table.now scopes symbols result ≡ StateSpec.back image.now to.0 (walked_in table.now scopes symbols from) }
    ensures stands { Stands image.now (walked_in table.now scopes symbols result) env.new }
{
    // no range of numbers: it climbs from parent to parent
    let mut inner = from;
    while to.0 < inner.0 {
        let row = symbols - (scopes - inner.0);
        let outer = table::parent_of(image, table, inner);
        leave_scope(image, table, env, scopes, symbols, inner, row);
        inner = outer;
    }
    inner
}

// What a walk reads and fills: the image, the lent table, what names stand for, and how many scopes and symbols the table has.
#[derive(Drop)]
pub struct ScopeBuilder<'a> {
    pub image: &'a [u8],
    pub table: &'a mut [u32],
    pub env: &'a mut Environment,
    pub scopes: u32,
    pub symbols: u32,
}

// What is read along the walk is read by methods: a call that is lent the table out of a builder that may be changed is not known
// to leave the words as they are.
impl<'a> ScopeBuilder<'a> {
    // The symbol that a name stands for.
    pub fn found(&self, standing: Standing) -> Option<Found>
        ensures { found_of result ≡ told self.now.image.now self.now.table.now standing }
    {
        found(self.image, self.table, standing)
    }

    // The first symbol of the name in the scope.
    pub fn find(&self, scope: ScopeId, name: u32) -> Option<Found>
        ensures { found_of result ≡ TableSpec.find_from self.now.image.now self.now.symbols self.now.table.now 0 scope.0 name }
    {
        table::find(self.image, self.table, self.symbols, scope, name)
    }

    // The scope of a row, and its name.
    fn symbol_scope(&self, row: u32) -> ScopeId
        ensures { result.0 ≡ scope_of (ImageSpec.nodes self.now.image.now) self.now.table.now row }
    {
        table::symbol_scope(self.image, self.table, row)
    }

    fn symbol_name(&self, row: u32) -> u32
        ensures { result ≡ ImageSpec.name_of self.now.image.now (node_at (ImageSpec.nodes self.now.image.now) self.now.table.now row) }
    {
        ast::name_of(self.image, table::symbol_node(self.image, self.table, row))
    }

    // The parent of a scope.
    fn parent_of(&self, scope: ScopeId) -> ScopeId
        ensures { result.0 ≡ parent_at (ImageSpec.nodes self.now.image.now) self.now.table.now scope.0 }
    {
        table::parent_of(self.image, self.table, scope)
    }

    // A new scope, whose parent is the one that the walk stands in.
    pub fn new_scope(&mut self, at: ScopeId) -> ScopeId
        requires { self.old.scopes + 1 < 2 ^ 32 }
        ensures keeps { Keeps self.old self.new }
        ensures env { self.new.env.now ≡ self.old.env.now }
        ensures walk { walked_of self.new result ≡ StateSpec.child_scope self.old.image.now (walked_of self.old at) }
    {
        let n = ast::node_count(self.image);
        let scope = self.scopes;
        table::put(self.table, table::place(Array::Parents, n, scope), at.0);
        self.scopes += 1;
        ScopeId(scope)
    }

    // The scope in both places of the node.
    pub fn insert_unordered(&mut self, id: NodeId, scope: ScopeId)
        ensures keeps { Keeps self.old self.new }
        ensures env { self.new.env.now ≡ self.old.env.now }
        ensures walk { walked_of self.new scope ≡ StateSpec.marked self.old.image.now id.0 scope.0 (walked_of self.old scope) }
    {
        self.insert_ordered(id, scope, scope);
    }

    fn insert_ordered(&mut self, id: NodeId, entry: ScopeId, exit: ScopeId)
        ensures keeps { Keeps self.old self.new }
        ensures env { self.new.env.now ≡ self.old.env.now }
        ensures table { table_of self.new ≡ TableSpec.mark self.old.image.now id.0 entry.0 exit.0 (table_of self.old) }
    {
        let n = ast::node_count(self.image);
        let table = &mut *self.table;
        table::put(table, table::place(Array::Entries, n, id.0), entry.0);
        table::put(table, table::place(Array::Exits, n, id.0), exit.0);
    }

    // The node as a symbol of the scope that the walk stands in.
    pub fn insert_symbol(&mut self, at: ScopeId, node: NodeId)
        requires { self.old.symbols + 1 < 2 ^ 32 }
        ensures keeps { Keeps self.old self.new }
        ensures env { self.new.env.now ≡ self.old.env.now }
        ensures walk { walked_of self.new at ≡ StateSpec.own_symbol self.old.image.now node.0 (walked_of self.old at) }
    {
        let n = ast::node_count(self.image);
        let row = self.symbols;
        let table = &mut *self.table;
        table::put(table, table::place(Array::SymbolScopes, n, row), at.0);
        table::put(table, table::place(Array::SymbolNodes, n, row), node.0);
        self.symbols = row + 1;
    }

    // A new scope and its one symbol.
    fn insert_var_symbol(&mut self, at: ScopeId, ident: NodeId) -> ScopeId
        requires { (self.old.scopes + 1 < 2 ^ 32) × (self.old.symbols + 1 < 2 ^ 32) }
        ensures keeps { Keeps self.old self.new }
        ensures env { self.new.env.now ≡ self.old.env.now }
        ensures walk { walked_of self.new result ≡ StateSpec.introduce self.old.image.now ident.0 (walked_of self.old at) }
    {
        let scope = self.new_scope(at);
        self.insert_symbol(scope, ident);
        scope
    }

    // The node left: entered at one scope, left at the other.
    pub fn leave(&mut self, node: NodeId, entry: ScopeId, exit: ScopeId) -> ScopeId
        ensures keeps { Keeps self.old self.new }
        ensures env { self.new.env.now ≡ self.old.env.now }
        ensures walk { walked_of self.new result ≡ StateSpec.marked self.old.image.now node.0 entry.0 (walked_of self.old exit) }
    {
        self.insert_ordered(node, entry, exit);
        exit
    }

    // The node left as an AppHeadMember is: no scope in both places.
    pub fn leave_bare(&mut self, node: NodeId, exit: ScopeId) -> ScopeId
        ensures keeps { Keeps self.old self.new }
        ensures env { self.new.env.now ≡ self.old.env.now }
        ensures walk { walked_of self.new result ≡ StateSpec.unmarked self.old.image.now node.0 (walked_of self.old exit) }
    {
        self.insert_ordered(node, NO_SCOPE, NO_SCOPE);
        exit
    }

    // The node as the symbol of a new scope below the one that the walk stands in.
    pub fn introduce(&mut self, at: ScopeId, node: NodeId, name: u32) -> ScopeId
        requires { Stands self.old.image.now (walked_of self.old at) self.old.env.now × Named self.old.image.now node.0 name × (self.old.scopes < ImageSpec.nodes self.old.image.now) × (self.old.symbols < ImageSpec.nodes self.old.image.now) }
        ensures keeps { Keeps self.old self.new }
        ensures walk { walked_of self.new result ≡ StateSpec.introduce self.old.image.now node.0 (walked_of self.old at) }
        ensures stands { Stands self.old.image.now (walked_of self.new result) self.new.env.now }
    {
        self.env.bind(name, self.symbols);
        self.insert_var_symbol(at, node)
    }

    // The node as one more symbol of the newest scope, which has none of that name.
    pub fn enter(&mut self, at: ScopeId, node: NodeId, name: u32)
        requires { Opens self.old.image.now (walked_of self.old at) self.old.env.now × Named self.old.image.now node.0 name × (TableSpec.find self.old.image.now (table_of self.old) at.0 name ≡ none) × (self.old.symbols < ImageSpec.nodes self.old.image.now) }
        ensures keeps { Keeps self.old self.new }
        ensures walk { walked_of self.new at ≡ StateSpec.own_symbol self.old.image.now node.0 (walked_of self.old at) }
        ensures stands { Opens self.old.image.now (walked_of self.new at) self.new.env.now }
    {
        self.env.bind(name, self.symbols);
        self.insert_symbol(at, node);
    }

    // The node left; the name is asked for there, and `before` is what it stood for at the node's entry.
    pub fn leave_asked(
        &mut self,
        node: NodeId,
        name: u32,
        before: Standing,
        entry: ScopeId,
        exit: ScopeId,
    ) -> ScopeId
        requires { Asking self.old.image.now node.0 name before entry.0 (walked_of self.old exit) self.old.env.now }
        ensures keeps { Keeps self.old self.new }
        ensures walk { walked_of self.new result ≡ StateSpec.marked self.old.image.now node.0 entry.0 (walked_of self.old exit) }
        ensures stands { Stands self.old.image.now (walked_of self.new result) self.new.env.now }
    {
        let after = self.env.stands(name);
        self.env.note(node, before, after);
        self.leave(node, entry, exit)
    }

    // The names of the scope, whose rows start with `first`, stand for what they do above it.
    // Inlined: as a call it makes the way back over many variables slower.
    #[inline(always)]
    pub fn leave_scope(&mut self, at: ScopeId, first: u32)
        requires { Stands self.old.image.now (walked_of self.old at) self.old.env.now × First self.old.image.now (table_of self.old) at.0 first }
        ensures keeps { Keeps self.old self.new }
        ensures table { table_of self.new ≡ table_of self.old }
        ensures stands { Stands self.old.image.now (above self.old.image.now (walked_of self.old at)) self.new.env.now }
    {
        for row in first..self.symbols {
            if self.symbol_scope(row) != at {
                return;
            }
            let name = self.symbol_name(row);
            self.env.restore(name, row);
        }
    }

    // The walk back in the scope `to`: what was introduced below it is put back, the last first. Scopes and rows go in step there.
    pub fn put_back(&mut self, from: ScopeId, to: ScopeId) -> ScopeId
        requires { Stands self.old.image.now (walked_of self.old from) self.old.env.now × Path self.old.image.now (table_of self.old) to.0 from.0 }
        ensures keeps { Keeps self.old self.new }
        ensures walk { walked_of self.new result ≡ StateSpec.back self.old.image.now to.0 (walked_of self.old from) }
        ensures stands { Stands self.old.image.now (walked_of self.new result) self.new.env.now }
    {
        // no range of numbers: it climbs from parent to parent
        let mut inner = from;
        while to.0 < inner.0 {
            let row = self.symbols - (self.scopes - inner.0);
            let outer = self.parent_of(inner);
            self.leave_scope(inner, row);
            inner = outer;
        }
        inner
    }
}

// A resolved image as the checks read it. How many scopes and symbols there are no code reads: they stand here for the ghost field,
// which says of which table the notes are.
#[derive(Clone, Copy)]
pub struct Scopes<'a> {
    pub image: &'a [u8],
    pub table: &'a [u32],
    pub env: &'a Environment,
    pub scopes: u32,
    pub symbols: u32,
    ghost noted: { Noted image.now (record { words = table.now; scopes = scopes; symbols = symbols }) env.now },
}
