// The walkers of scopes.rs for argument lists and rule bodies. What a walk fills is the builder, and a walker hands back the scope
// that the walk ends in. The scope that it begins in goes beside the builder, as in the Rust: a node is left at both. Each list has a
// loop of its own, and each enum a match, as in the Rust: they differ in the walker that they call and in its rows.
#![tactic(auto)]

ghost use Rattle.std.specs.Prelude.{◌≡◌, refl};
ghost use Rattle.ast.specs.Image as ImageSpec;
ghost use Rattle.ast.specs.Items.{blocks};
ghost use Rattle.ast.specs.Is.{one_term, two_terms};
ghost use Rattle.ast.specs.Kinds.{kind_of};
ghost use Rattle.ast.specs.Named.{app_head_kind, app_head_member_kind, arg_decl_kind, arg_decl_list_kind, branch_stmt_kind, if_atom_kind, match_case_kind, match_stmt_kind, pred_atom_kind, pred_expr_kind, stmt_kind, term_kind, term_list_kind, term_member_kind, then_atom_kind, type_expr_kind, var_if_atom_kind};
ghost use Rattle.ast.specs.Tree.{tree_at};
ghost use Rattle.typed.specs.RowShapes.{One, Two};
ghost use Rattle.table.specs.State.{Walked};
ghost use Rattle.table.specs.Table.{found_node};
ghost use Rattle.table.specs.Values.{found_of};
ghost use Rattle.environment.specs.Builder.{Keeps};
ghost use Rattle.environment.specs.Stands.{told};
ghost use Rattle.ordered.specs.Walk.{occurs, declares, walk, walk_seq};
ghost use Rattle.ordered.specs.Walk as WalkSpec;
ghost use Rattle.ordered.specs.Promises.{asks, from, over, inside, over_all, Starts, StartsAll, StartsVariable, Walks, Defining};

use ast::NodeId;
use environment::ScopeBuilder;
use table::{Found, ScopeId};
use typed::nodes::*;

pub fn walk_arg_decl_list(
    builder: &mut ScopeBuilder,
    current: ScopeId,
    list: ArgDeclListId,
) -> ScopeId
    requires { Starts (kind_of arg_decl_list_kind) list.0.0 builder.old current }
    ensures keeps { Keeps builder.old builder.new }
    ensures walk { Walks (over builder.old.image.now list.0.0) builder.old current builder.new result }
{
    let ArgDeclList { args } = typed::arg_decl_list(builder.image, list);
    let mut cur = current;
    for arg in args.of(builder.image) {
        cur = walk_arg_decl(builder, cur, arg);
    }
    builder.leave(list.0, current, cur)
}

fn walk_arg_decl(builder: &mut ScopeBuilder, current: ScopeId, arg: ArgDeclId) -> ScopeId
    requires { Starts (kind_of arg_decl_kind) arg.0.0 builder.old current }
    ensures keeps { Keeps builder.old builder.new }
    ensures walk { Walks (over builder.old.image.now arg.0.0) builder.old current builder.new result }
{
    let ArgDecl { name, typ } = typed::arg_decl(builder.image, arg);
    let after_type = walk_type_expr(builder, current, typ);
    let exit = match name {
        Some(name) => builder.introduce(after_type, arg.0, name),
        None => after_type,
    };
    builder.leave(arg.0, current, exit)
}

// Each statement from where the one before ends.
#[cycle(stmts)]
pub fn walk_stmt_block(builder: &mut ScopeBuilder, current: ScopeId, stmts: Ids<StmtId>) -> ScopeId
    requires { StartsAll stmt_kind stmts.list builder.old current }
    ensures keeps { Keeps builder.old builder.new }
    ensures walk { Walks (over_all builder.old.image.now occurs stmts.list) builder.old current builder.new result }
{
    let mut cur = current;
    for stmt in stmts.of(builder.image) {
        cur = walk_stmt(builder, cur, stmt);
    }
    cur
}

#[cycle(stmts)]
fn walk_stmt(builder: &mut ScopeBuilder, current: ScopeId, stmt: StmtId) -> ScopeId
    requires { Starts (kind_of stmt_kind) stmt.0.0 builder.old current }
    ensures keeps { Keeps builder.old builder.new }
    ensures walk { Walks (over builder.old.image.now stmt.0.0) builder.old current builder.new result }
{
    let exit = walk_stmt_case(builder, current, stmt);
    builder.leave(stmt.0, current, exit)
}

// What stands below a statement.
#[cycle(stmts)]
#[inline(always)]
fn walk_stmt_case(builder: &mut ScopeBuilder, current: ScopeId, stmt: StmtId) -> ScopeId
    requires { Starts (kind_of stmt_kind) stmt.0.0 builder.old current }
    ensures keeps { Keeps builder.old builder.new }
    ensures walk { Walks (inside builder.old.image.now occurs stmt.0.0) builder.old current builder.new result }
{
    match typed::stmt(builder.image, stmt) {
        Stmt::If(id) => {
            let IfStmt { atom } = typed::if_stmt(builder.image, id);
            let after_if = walk_if_atom(builder, current, atom);
            builder.leave(id.0, current, after_if)
        }
        Stmt::Then(id) => {
            let ThenStmt { atom } = typed::then_stmt(builder.image, id);
            let after_then = walk_then_atom(builder, current, atom);
            builder.leave(id.0, current, after_then)
        }
        Stmt::Branch(id) => walk_branch(builder, current, id),
        Stmt::Match(id) => walk_match(builder, current, id),
    }
}

#[cycle(stmts)]
fn walk_branch(builder: &mut ScopeBuilder, current: ScopeId, id: BranchStmtId) -> ScopeId
    requires { Starts (kind_of branch_stmt_kind) id.0.0 builder.old current }
    ensures keeps { Keeps builder.old builder.new }
    ensures walk { Walks (over builder.old.image.now id.0.0) builder.old current builder.new result }
{
    let exit = walk_blocks(builder, current, id);
    builder.leave(id.0, current, exit)
}

// Each block from the branch's entry; what a block adds is dropped.
#[cycle(stmts)]
#[inline(always)]
fn walk_blocks(builder: &mut ScopeBuilder, current: ScopeId, id: BranchStmtId) -> ScopeId
    requires { Starts (kind_of branch_stmt_kind) id.0.0 builder.old current }
    ensures keeps { Keeps builder.old builder.new }
    ensures walk { Walks (walk_seq builder.old.image.now occurs (blocks builder.old.image.now id.0.0 (ImageSpec.field builder.old.image.now id.0.0 0) 1)) builder.old current builder.new result }
{
    let BranchStmt { blocks } = typed::branch_stmt(builder.image, id);
    let mut cur = current;
    for block in blocks.of(builder.image) {
        let end = walk_stmt_block(builder, cur, block);
        cur = builder.put_back(end, cur);
    }
    cur
}

// Each case from the scope after the matched term.
#[cycle(stmts)]
fn walk_match(builder: &mut ScopeBuilder, current: ScopeId, id: MatchStmtId) -> ScopeId
    requires { Starts (kind_of match_stmt_kind) id.0.0 builder.old current }
    ensures keeps { Keeps builder.old builder.new }
    ensures walk { Walks (over builder.old.image.now id.0.0) builder.old current builder.new result }
{
    let MatchStmt { term, cases } = typed::match_stmt(builder.image, id);
    let after_term = walk_term(builder, current, term);
    let mut cur = after_term;
    for case in cases.of(builder.image) {
        cur = walk_match_case(builder, cur, case);
    }
    builder.leave(id.0, current, cur)
}

// What a case adds is dropped.
#[cycle(stmts)]
fn walk_match_case(builder: &mut ScopeBuilder, current: ScopeId, case: MatchCaseId) -> ScopeId
    requires { Starts (kind_of match_case_kind) case.0.0 builder.old current }
    ensures keeps { Keeps builder.old builder.new }
    ensures walk { Walks (over builder.old.image.now case.0.0) builder.old current builder.new result }
{
    let MatchCase { pattern, body } = typed::match_case(builder.image, case);
    let after_pattern = walk_term(builder, current, pattern);
    let end = walk_stmt_block(builder, after_pattern, body);
    let exit = builder.put_back(end, current);
    builder.leave(case.0, current, exit)
}

fn walk_if_atom(builder: &mut ScopeBuilder, current: ScopeId, atom: IfAtomId) -> ScopeId
    requires { Starts (kind_of if_atom_kind) atom.0.0 builder.old current }
    ensures keeps { Keeps builder.old builder.new }
    ensures walk { Walks (over builder.old.image.now atom.0.0) builder.old current builder.new result }
{
    let exit = walk_if_atom_case(builder, current, atom);
    builder.leave(atom.0, current, exit)
}

// What stands below an if-atom.
#[inline(always)]
fn walk_if_atom_case(builder: &mut ScopeBuilder, current: ScopeId, atom: IfAtomId) -> ScopeId
    requires { Starts (kind_of if_atom_kind) atom.0.0 builder.old current }
    ensures keeps { Keeps builder.old builder.new }
    ensures walk { Walks (inside builder.old.image.now occurs atom.0.0) builder.old current builder.new result }
{
    match typed::if_atom(builder.image, atom) {
        IfAtom::Equal(id) => {
            let EqualAtom { lhs, rhs } = typed::equal_atom(builder.image, id);
            walk_two_terms(builder, current, id.0, lhs, rhs)
        }
        IfAtom::Defined(id) => {
            let DefinedIfAtom { term } = typed::defined_if_atom(builder.image, id);
            walk_one_term(builder, current, id.0, term)
        }
        IfAtom::Pred(id) => walk_pred_atom(builder, current, id),
        IfAtom::Var(id) => walk_var_atom(builder, current, id),
    }
}

// The variable is not visible inside its own annotation.
fn walk_var_atom(builder: &mut ScopeBuilder, current: ScopeId, id: VarIfAtomId) -> ScopeId
    requires { Starts (kind_of var_if_atom_kind) id.0.0 builder.old current }
    ensures keeps { Keeps builder.old builder.new }
    ensures walk { Walks (over builder.old.image.now id.0.0) builder.old current builder.new result }
{
    let VarIfAtom { term, typ } = typed::var_if_atom(builder.image, id);
    let after_type = walk_type_expr(builder, current, typ);
    let after_var = walk_var_term(builder, after_type, term);
    builder.leave(id.0, current, after_var)
}

fn walk_then_atom(builder: &mut ScopeBuilder, current: ScopeId, atom: ThenAtomId) -> ScopeId
    requires { Starts (kind_of then_atom_kind) atom.0.0 builder.old current }
    ensures keeps { Keeps builder.old builder.new }
    ensures walk { Walks (over builder.old.image.now atom.0.0) builder.old current builder.new result }
{
    let exit = match typed::then_atom(builder.image, atom) {
        ThenAtom::Equal(id) => {
            let EqualAtom { lhs, rhs } = typed::equal_atom(builder.image, id);
            walk_two_terms(builder, current, id.0, lhs, rhs)
        }
        ThenAtom::Defined(id) => return walk_then_defined_atom(builder, current, atom, id),
        ThenAtom::Pred(id) => walk_pred_atom(builder, current, id),
    };
    builder.leave(atom.0, current, exit)
}

// A ThenAtom of case Defined: the term, then the variable.
fn walk_then_defined_atom(
    builder: &mut ScopeBuilder,
    current: ScopeId,
    atom: ThenAtomId,
    id: DefinedThenAtomId,
) -> ScopeId
    requires { Starts (kind_of then_atom_kind) atom.0.0 builder.old current × Two builder.old.image.now atom.0.0 1 id.0.0 }
    ensures keeps { Keeps builder.old builder.new }
    ensures walk { Walks (over builder.old.image.now atom.0.0) builder.old current builder.new result }
{
    let DefinedThenAtom { var, term } = typed::defined_then_atom(builder.image, id);
    match var {
        Some(var) => match typed::term(builder.image, var) {
            Term::Ident(ident) => {
                walk_then_defined_var(builder, current, atom, id, var, term, ident)
            }
            _ => {
                let after_term = walk_term(builder, current, term);
                let exit = walk_term(builder, after_term, var);
                let defined = builder.leave(id.0, current, exit);
                builder.leave(atom.0, current, defined)
            }
        },
        None => {
            let after_term = walk_term(builder, current, term);
            let defined = builder.leave(id.0, current, after_term);
            builder.leave(atom.0, current, defined)
        }
    }
}

fn walk_pred_atom(builder: &mut ScopeBuilder, current: ScopeId, id: PredAtomId) -> ScopeId
    requires { Starts (kind_of pred_atom_kind) id.0.0 builder.old current }
    ensures keeps { Keeps builder.old builder.new }
    ensures walk { Walks (over builder.old.image.now id.0.0) builder.old current builder.new result }
{
    let PredAtom { pred, args } = typed::pred_atom(builder.image, id);
    let after_pred = walk_pred_expr(builder, current, pred);
    let after_args = walk_term_list(builder, after_pred, args);
    builder.leave(id.0, current, after_args)
}

#[cycle(terms)]
fn walk_term(builder: &mut ScopeBuilder, current: ScopeId, term: TermId) -> ScopeId
    requires { Starts (kind_of term_kind) term.0.0 builder.old current }
    ensures keeps { Keeps builder.old builder.new }
    ensures walk { Walks (over builder.old.image.now term.0.0) builder.old current builder.new result }
{
    if let Term::Ident(id) = typed::term(builder.image, term) {
        return walk_ident_term::<Occurs>(builder, current, term, id);
    }
    let exit = walk_term_case(builder, current, term);
    builder.leave(term.0, current, exit)
}

// What stands below a term that is no ident.
#[cycle(terms)]
#[inline(always)]
fn walk_term_case(builder: &mut ScopeBuilder, current: ScopeId, term: TermId) -> ScopeId
    requires { Starts (kind_of term_kind) term.0.0 builder.old current × (ImageSpec.field builder.old.image.now term.0.0 0 ≡ 0 → ⊥) }
    ensures keeps { Keeps builder.old builder.new }
    ensures walk { Walks (inside builder.old.image.now occurs term.0.0) builder.old current builder.new result }
{
    match typed::term(builder.image, term) {
        Term::Ident(_) | Term::Wildcard => current,
        Term::App(id) => {
            let AppTerm { head, args } = typed::app_term(builder.image, id);
            // App heads never introduce variables.
            let after_head = walk_app_head(builder, current, head);
            let after_args = walk_term_list(builder, after_head, args);
            builder.leave(id.0, current, after_args)
        }
        Term::Member(id) => walk_term_member(builder, current, id),
        Term::Dom(id) => {
            let DomTerm { arg } = typed::dom_term(builder.image, id);
            walk_one_term(builder, current, id.0, arg)
        }
        Term::Cod(id) => {
            let CodTerm { arg } = typed::cod_term(builder.image, id);
            walk_one_term(builder, current, id.0, arg)
        }
        Term::Id(id) => {
            let IdTerm { arg } = typed::id_term(builder.image, id);
            walk_one_term(builder, current, id.0, arg)
        }
        Term::Comp(id) => {
            let CompTerm { first, second } = typed::comp_term(builder.image, id);
            walk_two_terms(builder, current, id.0, first, second)
        }
    }
}

// A Dom, Cod or Id term, or a Defined atom: one term.
#[cycle(terms)]
fn walk_one_term(builder: &mut ScopeBuilder, current: ScopeId, id: NodeId, arg: TermId) -> ScopeId
    requires { Starts one_term id.0 builder.old current × One builder.old.image.now id.0 arg.0.0 }
    ensures keeps { Keeps builder.old builder.new }
    ensures walk { Walks (over builder.old.image.now id.0) builder.old current builder.new result }
{
    let after = walk_term(builder, current, arg);
    builder.leave(id, current, after)
}

// A Comp term, or an Equal atom: two terms.
#[cycle(terms)]
fn walk_two_terms(
    builder: &mut ScopeBuilder,
    current: ScopeId,
    id: NodeId,
    first: TermId,
    second: TermId,
) -> ScopeId
    requires { Starts two_terms id.0 builder.old current × Two builder.old.image.now id.0 first.0.0 second.0.0 }
    ensures keeps { Keeps builder.old builder.new }
    ensures walk { Walks (over builder.old.image.now id.0) builder.old current builder.new result }
{
    let after_first = walk_term(builder, current, first);
    let after = walk_term(builder, after_first, second);
    builder.leave(id, current, after)
}

#[cycle(terms)]
fn walk_app_head(builder: &mut ScopeBuilder, current: ScopeId, head: AppHeadId) -> ScopeId
    requires { Starts (kind_of app_head_kind) head.0.0 builder.old current }
    ensures keeps { Keeps builder.old builder.new }
    ensures walk { Walks (over builder.old.image.now head.0.0) builder.old current builder.new result }
{
    let exit = match typed::app_head(builder.image, head) {
        AppHead::Ident(id) => return walk_head_ident(builder, current, head, id),
        AppHead::Member(id) => walk_app_head_member(builder, current, id),
        AppHead::Term(term) => walk_term(builder, current, term),
    };
    builder.leave(head.0, current, exit)
}

// An app head that is an ident introduces nothing, whatever its name stands for.
fn walk_head_ident(
    builder: &mut ScopeBuilder,
    current: ScopeId,
    head: AppHeadId,
    ident: IdentTermId,
) -> ScopeId
    requires { Starts (kind_of app_head_kind) head.0.0 builder.old current × Two builder.old.image.now head.0.0 0 ident.0.0 }
    ensures keeps { Keeps builder.old builder.new }
    ensures walk { Walks (over builder.old.image.now head.0.0) builder.old current builder.new result }
{
    let IdentTerm { name } = typed::ident_term(builder.image, ident);
    let before = builder.env.stands(name);
    let named = builder.leave(ident.0, current, current);
    builder.leave_asked(head.0, name, before, current, named)
}

// Its names are recorded, and introduce nothing.
#[cycle(terms)]
fn walk_app_head_member(
    builder: &mut ScopeBuilder,
    current: ScopeId,
    id: AppHeadMemberId,
) -> ScopeId
    requires { Starts (kind_of app_head_member_kind) id.0.0 builder.old current }
    ensures keeps { Keeps builder.old builder.new }
    ensures walk { Walks (over builder.old.image.now id.0.0) builder.old current builder.new result }
{
    let AppHeadMember { receiver, names } = typed::app_head_member(builder.image, id);
    let mut scope = walk_term(builder, current, receiver);
    for name in names.of(builder.image) {
        scope = builder.leave(name.0, scope, scope);
    }
    builder.leave_bare(id.0, scope)
}

// How an ident stands at its place, and so what its name must be for it to introduce nothing.
trait Role {
    ghost role: { WalkSpec.Role };

    fn is_known(image: &[u8], found: Option<Found>) -> bool
        ensures { result ≡ asks image.now role (found_node (found_of found)) };

    // It asks from where the walk stands.
    ghost here: { (e : Walked) → from role e ≡ e.scope };
}

// In an ordinary term: a Var or a Const.
struct Occurs;

impl Role for Occurs {
    ghost role = { occurs };

    ghost here = { λ e. refl };

    fn is_known(image: &[u8], found: Option<Found>) -> bool {
        table::is_value(image, found)
    }
}

// As the variable of an if-var: a Var.
struct Declares;

impl Role for Declares {
    ghost role = { declares };

    ghost here = { λ e. refl };

    fn is_known(image: &[u8], found: Option<Found>) -> bool {
        table::is_var(image, found)
    }
}

// An ident in its role: introduced, unless it is known.
fn walk_ident_term<R: Role>(
    builder: &mut ScopeBuilder,
    current: ScopeId,
    term: TermId,
    ident: IdentTermId,
) -> ScopeId
    requires { StartsVariable R.role term.0.0 builder.old current × Two builder.old.image.now term.0.0 0 ident.0.0 }
    ensures keeps { Keeps builder.old builder.new }
    ensures walk { Walks (walk builder.old.image.now R.role (tree_at builder.old.image.now term.0.0)) builder.old current builder.new result }
{
    let IdentTerm { name } = typed::ident_term(builder.image, ident);
    let before = builder.env.stands(name);
    let exit = if R::is_known(builder.image, builder.found(before)) {
        current
    } else {
        builder.introduce(current, ident.0, name)
    };
    let named = builder.leave(ident.0, current, exit);
    builder.leave_asked(term.0, name, before, current, named)
}

// The term of an if-var, which is looked up from where it stands.
fn walk_var_term(builder: &mut ScopeBuilder, current: ScopeId, term: TermId) -> ScopeId
    requires { StartsVariable declares term.0.0 builder.old current }
    ensures keeps { Keeps builder.old builder.new }
    ensures walk { Walks (walk builder.old.image.now declares (tree_at builder.old.image.now term.0.0)) builder.old current builder.new result }
{
    match typed::term(builder.image, term) {
        Term::Ident(id) => walk_ident_term::<Declares>(builder, current, term, id),
        _ => walk_term(builder, current, term),
    }
}

// The initializer does not see a binding introduced by the variable slot of the same atom: the variable is asked for before
// the term is walked, and introduced after it, unless it was a Var before.
fn walk_then_defined_var(
    builder: &mut ScopeBuilder,
    current: ScopeId,
    atom: ThenAtomId,
    id: DefinedThenAtomId,
    var: TermId,
    term: TermId,
    ident: IdentTermId,
) -> ScopeId
    requires { Starts (kind_of then_atom_kind) atom.0.0 builder.old current × Defining builder.old.image.now atom.0.0 id.0.0 var.0.0 term.0.0 ident.0.0 }
    ensures keeps { Keeps builder.old builder.new }
    ensures walk { Walks (over builder.old.image.now atom.0.0) builder.old current builder.new result }
{
    let IdentTerm { name } = typed::ident_term(builder.image, ident);
    let at_atom = builder.env.stands(name);
    let after_term = walk_term(builder, current, term);
    let entry = builder.env.stands(name);
    let exit = if table::is_var(builder.image, builder.found(at_atom)) {
        after_term
    } else {
        builder.introduce(after_term, ident.0, name)
    };
    let named = builder.leave(ident.0, after_term, exit);
    let defined = builder.leave_asked(var.0, name, entry, after_term, named);
    let left = builder.leave(id.0, current, defined);
    builder.leave_asked(atom.0, name, at_atom, current, left)
}

#[cycle(terms)]
fn walk_term_member(builder: &mut ScopeBuilder, current: ScopeId, id: TermMemberId) -> ScopeId
    requires { Starts (kind_of term_member_kind) id.0.0 builder.old current }
    ensures keeps { Keeps builder.old builder.new }
    ensures walk { Walks (over builder.old.image.now id.0.0) builder.old current builder.new result }
{
    let TermMember { term, name } = typed::term_member(builder.image, id);
    let after = walk_term(builder, current, term);
    let named = builder.leave(name.0, after, after);
    builder.leave(id.0, current, named)
}

#[cycle(terms)]
fn walk_term_list(builder: &mut ScopeBuilder, current: ScopeId, list: TermListId) -> ScopeId
    requires { Starts (kind_of term_list_kind) list.0.0 builder.old current }
    ensures keeps { Keeps builder.old builder.new }
    ensures walk { Walks (over builder.old.image.now list.0.0) builder.old current builder.new result }
{
    let TermList { terms } = typed::term_list(builder.image, list);
    let mut cur = current;
    for term in terms.of(builder.image) {
        cur = walk_term(builder, cur, term);
    }
    builder.leave(list.0, current, cur)
}

pub fn walk_type_expr(builder: &mut ScopeBuilder, current: ScopeId, typ: TypeExprId) -> ScopeId
    requires { Starts (kind_of type_expr_kind) typ.0.0 builder.old current }
    ensures keeps { Keeps builder.old builder.new }
    ensures walk { Walks (over builder.old.image.now typ.0.0) builder.old current builder.new result }
{
    let exit = walk_type_expr_case(builder, current, typ);
    builder.leave(typ.0, current, exit)
}

// What stands below a type.
#[inline(always)]
fn walk_type_expr_case(builder: &mut ScopeBuilder, current: ScopeId, typ: TypeExprId) -> ScopeId
    requires { Starts (kind_of type_expr_kind) typ.0.0 builder.old current }
    ensures keeps { Keeps builder.old builder.new }
    ensures walk { Walks (inside builder.old.image.now occurs typ.0.0) builder.old current builder.new result }
{
    match typed::type_expr(builder.image, typ) {
        TypeExpr::Ambient(id) => builder.leave(id.0, current, current),
        TypeExpr::Member(id) => walk_term_member(builder, current, id),
        TypeExpr::Mor(id) => builder.leave(id.0, current, current),
    }
}

fn walk_pred_expr(builder: &mut ScopeBuilder, current: ScopeId, pred: PredExprId) -> ScopeId
    requires { Starts (kind_of pred_expr_kind) pred.0.0 builder.old current }
    ensures keeps { Keeps builder.old builder.new }
    ensures walk { Walks (over builder.old.image.now pred.0.0) builder.old current builder.new result }
{
    let exit = walk_pred_expr_case(builder, current, pred);
    builder.leave(pred.0, current, exit)
}

// What stands below a predicate expression.
#[inline(always)]
fn walk_pred_expr_case(builder: &mut ScopeBuilder, current: ScopeId, pred: PredExprId) -> ScopeId
    requires { Starts (kind_of pred_expr_kind) pred.0.0 builder.old current }
    ensures keeps { Keeps builder.old builder.new }
    ensures walk { Walks (inside builder.old.image.now occurs pred.0.0) builder.old current builder.new result }
{
    match typed::pred_expr(builder.image, pred) {
        PredExpr::Ambient(id) => builder.leave(id.0, current, current),
        PredExpr::Member(id) => walk_term_member(builder, current, id),
    }
}
