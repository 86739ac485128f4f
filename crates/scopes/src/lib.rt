// The unordered part of scopes.rs: Lookup, Resolve and the declaration lists.
#![tactic(auto)]

ghost use Rattle.std.specs.Prelude.{◌≡◌, true, ◌+◌, ◌<◌, ◌^◌, [], ◌∷◌, replicate, IfOk};
ghost use Rattle.std.proofs.Math.Option.{some};
ghost use Rattle.ast.specs.Image as ImageSpec;
ghost use Rattle.ast.specs.Kinds.{kind_of};
ghost use Rattle.ast.specs.Named.{decl_kind, enum_decl_kind, model_decl_kind, rule_decl_kind};
ghost use Rattle.ast.specs.Tree.{tree_at};
ghost use Rattle.error.specs.Refusals.{refusal_of};
ghost use Rattle.table.specs.Table.{declares};
ghost use Rattle.table.specs.Values.{found_at};
ghost use Rattle.environment.specs.Builder.{Keeps, table_of, walked_of};
ghost use Rattle.environment.specs.Layout.{environment_length, names_most};
ghost use Rattle.environment.specs.Stands.{Stands};
ghost use Rattle.scopes.specs.Walk.{done, enter_name, visit, resolve_tree};
ghost use Rattle.scopes.specs.Promises.{enter, whole_list, Naming, Enters, Visits, Signature, MayEnter, MayVisit, MayWalkAll, Lent, NotedBy, Stamped};
ghost use Rattle.scopes.specs.Resolve.{test_table, headed, resolve};
ghost use Rattle.scopes.specs.Calls.{test_rows};
ghost use Rattle.scopes.specs.Lookup as LookupSpec;
ghost use Rattle.scopes.specs.Answers.{resolved_answer, Resolves, looked_answer};

use ast::NodeId;
use environment::{Environment, ScopeBuilder};
use error::{Refusal, SymbolDeclaredTwice, Unresolved};
use names::AcceptedImage;
use std::marker::Model;
use table::{Found, NO_SCOPE, ScopeId, Symbol};
use typed::nodes::*;

// What Lookup finds: the symbol of a name, its node, and the scope that holds it. C is handed number and node: ten cases with ids
// would be taken apart again at once.
#[derive(Clone, Copy, Debug, PartialEq, Eq)]
pub struct Looked {
    pub symbol: Symbol,
    pub node: NodeId,
    pub scope: ScopeId,
}

// Lookup: the symbol of a name given by its bytes, and the scope that holds it.
pub fn lookup(
    image: &[u8],
    table: &[u32],
    scope: ScopeId,
    name: &[u8],
) -> Result<Option<Looked>, Refusal>
    ensures { looked_answer result ≡ LookupSpec.lookup_call image.now table.now scope.0 name.now }
{
    let accepted = test_lookup(image, table, scope)?;
    match names::number_of(&accepted, name) {
        Some(number) => Ok(lookup_number(image, table, scope, number)),
        None => Ok(None),
    }
}

// The refusals of Lookup: 1 to 13, 16, 17.
pub fn test_lookup<'a>(
    image: &'a [u8],
    table: &[u32],
    scope: ScopeId,
) -> Result<AcceptedImage<'a>, Refusal>
    ensures refusal { refusal_of result ≡ LookupSpec.test_lookup image.now table.now scope.0 }
    ensures image { IfOk result (λ accepted. accepted.sized.image.now ≡ image.now) }
{
    let accepted = test_table(image, table)?;
    sound::test_sound(image, table)?;
    if table::get(table, table::SCOPES_PLACE) <= scope.0 {
        return Err(Refusal::UnknownScope);
    }
    Ok(accepted)
}

// The symbol of a name number, from a scope of a sound table on upwards.
fn lookup_number(image: &[u8], table: &[u32], scope: ScopeId, name: u32) -> Option<Looked>
    requires { LookupSpec.test_lookup image.now table.now scope.0 ≡ 0 }
    ensures { looked_answer (Ok result) ≡ LookupSpec.symbol_answer image.now (LookupSpec.found_by image.now table.now scope.0 (some name)) }
{
    let symbols = table::get(table, table::SYMBOLS_PLACE);
    let found = table::lookup(image, table, symbols, scope, name)?;
    looked_up(image, found)
}

// What is found, as Lookup hands it back.
pub fn looked_up(image: &[u8], found: Found) -> Option<Looked>
    requires { declares (ImageSpec.kind_at image.now found.node.0) ≡ true }
    ensures { looked_answer (Ok result) ≡ LookupSpec.symbol_answer image.now (some (found_at found)) }
{
    let symbol = table::symbol_of(ast::kind_at(image, found.node))?;
    Some(Looked {
        symbol,
        node: found.node,
        scope: found.scope,
    })
}

// What Resolve hands back: K and Y.
#[derive(Clone, Copy, Debug, PartialEq, Eq)]
pub struct Resolved {
    pub scopes: u32,
    pub symbols: u32,
}

// Resolve: fills the lent table with the scopes and symbols of the image.
pub fn resolve_scopes(image: &[u8], table: &mut [u32]) -> Result<Resolved, Unresolved>
    ensures { (resolved_answer result ≡ (resolve image.now table.old).answer) × (table.new ≡ (resolve image.now table.old).table) }
{
    test_table(image, table)?;
    let mut env = Environment::new();
    let resolved = resolve_into(image, table, &mut env)?;
    Ok(resolved)
}

// The refusals of a call that is lent an image and a table: 1 to 13; or else the accepted image.
pub fn test_table<'a>(image: &'a [u8], table: &[u32]) -> Result<AcceptedImage<'a>, Refusal>
    ensures refusal { refusal_of result ≡ test_table image.now table.now }
    ensures image { IfOk result (λ accepted. accepted.sized.image.now ≡ image.now) }
{
    let accepted = names::verdict(image)?;
    if table.len() < table::words_for(ast::node_count(image)) {
        return Err(Refusal::ShortTable);
    }
    Ok(accepted)
}

// Resolve, where 1 to 13 refuse nothing: K and Y, or the name that is declared twice. The environment has what was noted then,
// for the checks.
pub fn resolve_into(
    image: &[u8],
    table: &mut [u32],
    env: &mut Environment,
) -> Result<Resolved, SymbolDeclaredTwice>
    requires { (test_table image.now table.old ≡ 0) × (env.old ≡ replicate environment_length 0) }
    ensures resolves { Resolves image.now table.old result table.new }
    ensures noted { NotedBy image.now result table.new env.new }
{
    let words = table::words_for(ast::node_count(image));
    rows::clear(table, words);
    let mut builder = ScopeBuilder {
        image,
        table,
        env,
        scopes: 0,
        symbols: 0,
    };
    match walk_module(&mut builder) {
        Ok(()) => Ok(insert_counts(&mut builder)),
        Err(twice) => {
            rows::clear(builder.table, words);
            Err(twice)
        }
    }
}

// The whole module, in a table with no scope and no symbol. Its scope is the first.
fn walk_module(builder: &mut ScopeBuilder) -> Result<(), SymbolDeclaredTwice>
    requires { Lent builder.old.image.now builder.old }
    ensures keeps { Keeps builder.old builder.new }
    ensures walk { Visits (λ _. resolve_tree builder.old.image.now (tree_at builder.old.image.now (ImageSpec.last builder.old.image.now)) (table_of builder.old)) builder.old (record { 0 = 0 }) result builder.new }
{
    let module = ModuleId(NodeId(ast::node_count(builder.image) - 1));
    let module_scope = builder.new_scope(NO_SCOPE);
    builder.insert_unordered(module.0, module_scope);
    let Module { decls } = typed::module(builder.image, module);
    let mut seen = Stamps::new();
    walk_decls(builder, &mut seen, module_scope, decls)
}

// N, K and Y, in front; K and Y are handed back.
fn insert_counts(builder: &mut ScopeBuilder) -> Resolved
    ensures keeps { Keeps builder.old builder.new }
    ensures words { builder.new.table.now ≡ headed builder.old.image.now (table_of builder.old) }
    ensures env { builder.new.env.now ≡ builder.old.env.now }
    ensures scopes { result.scopes ≡ builder.old.scopes }
    ensures symbols { result.symbols ≡ builder.old.symbols }
{
    table::put(
        builder.table,
        table::NODES_PLACE,
        ast::node_count(builder.image),
    );
    table::put(builder.table, table::SCOPES_PLACE, builder.scopes);
    table::put(builder.table, table::SYMBOLS_PLACE, builder.symbols);
    Resolved {
        scopes: builder.scopes,
        symbols: builder.symbols,
    }
}

// The refusals of a call that is lent rows too: 1 to 14.
pub fn test_rows(image: &[u8], table: &[u32], rows: &[u32]) -> Result<(), Refusal>
    ensures { refusal_of result ≡ test_rows image.now table.now rows.now }
{
    test_table(image, table)?;
    if rows.len() < rows::words_for(ast::node_count(image)) {
        return Err(Refusal::ShortRows);
    }
    Ok(())
}

// By name one more than the list that it was last met in, or 0: that a list does not have a name yet is told without a search. A
// declaration list goes by the number of its scope, and strict mode has an argument list by its node. No options, which would take
// twice the fixed memory that is zeroed for each call. Handed on beside the builder, since the walks inside the declarations take the
// builder and have no use for this.
#[derive(Drop)]
pub struct Stamps {
    lists: [u32; ast::NAMES],
}

impl Model for Stamps {
    ghost use Rattle.std.specs.Prelude.{List, ℕ};

    ghost Value = { List ℕ };

    ghost view = { λ s. s.lists };
}

impl Stamps {
    pub fn new() -> Stamps
        ensures { result ≡ replicate names_most 0 }
    {
        Stamps {
            lists: [0; ast::NAMES],
        }
    }

    // Stamps the name for the list: true where it was not stamped yet, so that the list does not have it.
    pub fn stamp(&mut self, name: u32, list: u32) -> bool
        requires { (name < names_most) × (list + 1 < 2 ^ 32) }
        ensures { Stamped self.old name list result self.new }
    {
        if self.lists[name as usize] == list + 1 {
            return false;
        }
        self.lists[name as usize] = list + 1;
        true
    }
}

// The node's name in the scope that the walk stands in, unless it is there already.
fn insert_decl_symbol(
    builder: &mut ScopeBuilder,
    seen: &mut Stamps,
    current: ScopeId,
    name: u32,
    id: NodeId,
) -> Result<(), SymbolDeclaredTwice>
    requires { Naming seen.old name id.0 builder.old current }
    ensures keeps { Keeps builder.old builder.new }
    ensures walk { Enters (enter_name builder.old.image.now id.0) builder.old current result seen.new builder.new }
{
    if !seen.stamp(name, current.0) {
        if let Some(first) = builder.find(current, name) {
            return Err(SymbolDeclaredTwice {
                name,
                first: first.node,
                second: id,
            });
        }
    }
    builder.enter(current, id, name);
    Ok(())
}

// A declaration list: all its names first, then each declaration.
#[cycle(decls)]
fn walk_decls(
    builder: &mut ScopeBuilder,
    seen: &mut Stamps,
    current: ScopeId,
    decls: Ids<DeclId>,
) -> Result<(), SymbolDeclaredTwice>
    requires { MayWalkAll decls.list builder.old current }
    ensures keeps { Keeps builder.old builder.new }
    ensures walk { Visits (whole_list builder.old.image.now decls.list) builder.old current result builder.new }
{
    for decl in decls.of(builder.image) {
        enter_decl(builder, seen, current, decl)?;
    }
    for decl in decls.of(builder.image) {
        visit_decl(builder, seen, current, decl)?;
    }
    Ok(())
}

// A model's node records its own scope, when it is visited.
fn enter_decl(
    builder: &mut ScopeBuilder,
    seen: &mut Stamps,
    current: ScopeId,
    decl: DeclId,
) -> Result<(), SymbolDeclaredTwice>
    requires { MayEnter (kind_of decl_kind) decl.0.0 seen.old builder.old current }
    ensures keeps { Keeps builder.old builder.new }
    ensures walk { Enters (enter builder.old.image.now (tree_at builder.old.image.now decl.0.0)) builder.old current result seen.new builder.new }
{
    builder.insert_unordered(decl.0, current);
    match typed::decl(builder.image, decl) {
        Decl::Type(id) => {
            let name = typed::type_decl(builder.image, id).name;
            enter_signature(builder, seen, current, name, id.0)
        }
        Decl::Pred(id) => {
            let name = typed::pred_decl(builder.image, id).name;
            enter_signature(builder, seen, current, name, id.0)
        }
        Decl::Func(id) => {
            let name = typed::func_decl(builder.image, id).name;
            enter_signature(builder, seen, current, name, id.0)
        }
        Decl::Const(id) => {
            let name = typed::const_decl(builder.image, id).name;
            enter_signature(builder, seen, current, name, id.0)
        }
        Decl::Rule(id) => enter_rule(builder, seen, current, id),
        Decl::Enum(id) => enter_enum(builder, seen, current, id),
        Decl::Model(id) => {
            let name = typed::model_decl(builder.image, id).name;
            insert_decl_symbol(builder, seen, current, name, id.0)
        }
    }
}

// A type, pred, func, const or constructor.
fn enter_signature(
    builder: &mut ScopeBuilder,
    seen: &mut Stamps,
    current: ScopeId,
    name: u32,
    id: NodeId,
) -> Result<(), SymbolDeclaredTwice>
    requires { (Signature builder.old.image.now id.0) × (Naming seen.old name id.0 builder.old current) }
    ensures keeps { Keeps builder.old builder.new }
    ensures walk { Enters (enter builder.old.image.now (tree_at builder.old.image.now id.0)) builder.old current result seen.new builder.new }
{
    builder.insert_unordered(id, current);
    insert_decl_symbol(builder, seen, current, name, id)
}

// An unnamed rule is not entered.
fn enter_rule(
    builder: &mut ScopeBuilder,
    seen: &mut Stamps,
    current: ScopeId,
    id: RuleDeclId,
) -> Result<(), SymbolDeclaredTwice>
    requires { MayEnter (kind_of rule_decl_kind) id.0.0 seen.old builder.old current }
    ensures keeps { Keeps builder.old builder.new }
    ensures walk { Enters (enter builder.old.image.now (tree_at builder.old.image.now id.0.0)) builder.old current result seen.new builder.new }
{
    builder.insert_unordered(id.0, current);
    let RuleDecl { name, .. } = typed::rule_decl(builder.image, id);
    match name {
        Some(name) => insert_decl_symbol(builder, seen, current, name, id.0),
        None => Ok(()),
    }
}

// An enum's own name, then its constructors'.
fn enter_enum(
    builder: &mut ScopeBuilder,
    seen: &mut Stamps,
    current: ScopeId,
    id: EnumDeclId,
) -> Result<(), SymbolDeclaredTwice>
    requires { MayEnter (kind_of enum_decl_kind) id.0.0 seen.old builder.old current }
    ensures keeps { Keeps builder.old builder.new }
    ensures walk { Enters (enter builder.old.image.now (tree_at builder.old.image.now id.0.0)) builder.old current result seen.new builder.new }
{
    builder.insert_unordered(id.0, current);
    let EnumDecl { name, ctors } = typed::enum_decl(builder.image, id);
    insert_decl_symbol(builder, seen, current, name, id.0)?;
    for ctor in ctors.of(builder.image) {
        let name = typed::ctor_decl(builder.image, ctor).name;
        enter_signature(builder, seen, current, name, ctor.0)?;
    }
    Ok(())
}

// What the trees of a declaration add is dropped: one way back, after the match.
#[cycle(decls)]
fn visit_decl(
    builder: &mut ScopeBuilder,
    seen: &mut Stamps,
    current: ScopeId,
    decl: DeclId,
) -> Result<(), SymbolDeclaredTwice>
    requires { MayVisit (kind_of decl_kind) decl.0.0 builder.old current }
    ensures keeps { Keeps builder.old builder.new }
    ensures walk { Visits (visit builder.old.image.now (tree_at builder.old.image.now decl.0.0)) builder.old current result builder.new }
{
    let end = match typed::decl(builder.image, decl) {
        Decl::Type(_) => current,
        Decl::Pred(id) => {
            let args = typed::pred_decl(builder.image, id).args;
            ordered::walk_arg_decl_list(builder, current, args)
        }
        Decl::Func(id) => {
            let FuncDecl { args, result, .. } = typed::func_decl(builder.image, id);
            let after_args = ordered::walk_arg_decl_list(builder, current, args);
            ordered::walk_type_expr(builder, after_args, result)
        }
        Decl::Const(id) => {
            let result = typed::const_decl(builder.image, id).result;
            ordered::walk_type_expr(builder, current, result)
        }
        Decl::Rule(id) => {
            let body = typed::rule_decl(builder.image, id).body;
            ordered::walk_stmt_block(builder, current, body)
        }
        Decl::Enum(id) => {
            visit_enum_decl(builder, current, id);
            current
        }
        Decl::Model(id) => return visit_model_decl(builder, seen, current, id),
    };
    builder.put_back(end, current);
    Ok(())
}

// The constructors of an enum.
fn visit_enum_decl(builder: &mut ScopeBuilder, current: ScopeId, id: EnumDeclId)
    requires { MayVisit (kind_of enum_decl_kind) id.0.0 builder.old current }
    ensures keeps { Keeps builder.old builder.new }
    ensures walk { done (walked_of builder.new current) ≡ visit builder.old.image.now (tree_at builder.old.image.now id.0.0) (walked_of builder.old current) }
    ensures stands { Stands builder.old.image.now (walked_of builder.new current) builder.new.env.now }
{
    let ctors = typed::enum_decl(builder.image, id).ctors;
    for ctor in ctors.of(builder.image) {
        let args = typed::ctor_decl(builder.image, ctor).args;
        let after_args = ordered::walk_arg_decl_list(builder, current, args);
        builder.put_back(after_args, current);
    }
}

// A model: its list in a scope of its own, which its node records.
#[cycle(decls)]
fn visit_model_decl(
    builder: &mut ScopeBuilder,
    seen: &mut Stamps,
    current: ScopeId,
    id: ModelDeclId,
) -> Result<(), SymbolDeclaredTwice>
    requires { MayVisit (kind_of model_decl_kind) id.0.0 builder.old current }
    ensures keeps { Keeps builder.old builder.new }
    ensures walk { Visits (visit builder.old.image.now (tree_at builder.old.image.now id.0.0)) builder.old current result builder.new }
{
    let body = typed::model_decl(builder.image, id).body;
    let first = builder.symbols;
    let body_scope = builder.new_scope(current);
    builder.insert_unordered(id.0, body_scope);
    walk_decls(builder, seen, body_scope, body)?;
    builder.leave_scope(body_scope, first);
    Ok(())
}
