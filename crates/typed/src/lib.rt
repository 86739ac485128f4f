// The rows of the 41 kinds, under the names of ast.rs: `ast.term(id)` is `typed::term(image, id)`.
// Each kind keeps a read of its own, as in ast.rs, which has a struct for each: the ids tell the kinds apart. A trait of rows would only
// move each body into an impl.
#![tactic(auto)]

ghost use Rattle.std.specs.Prelude.{◌≡◌, ◌+◌, ◌^◌, ◌<◌, ◌≤◌};
ghost use Rattle.ast.specs.Image as ImageSpec;
ghost use Rattle.typed.specs.RowShapes.{One, Two, Three, Listed, WordList};
ghost use Rattle.typed.specs.Nodes.{name_word, term_word, decl_at, term_at, app_head_at, type_expr_at, pred_expr_at, if_atom_at, then_atom_at, stmt_at};

use crate::nodes::*;
use ast::{NodeId, field};

pub mod items;
pub mod nodes;

// An absent option is 0, a present one its number plus 1.
fn option(word: u32) -> Option<u32>
    ensures { name_word result ≡ word }
{
    word.checked_sub(1)
}

// The list whose count is at a place of a node's row, its items after it.
fn list<T>(image: &[u8], node: NodeId, place: usize) -> Ids<T>
    requires { place + 1 < 2 ^ 64 }
    ensures so { Listed image.now node.0 place result.list }
    ensures word { result.list.count < 2 ^ 32 }
{
    Ids::from(NodeList {
        node,
        first: place + 1,
        count: field(image, node, place) as usize,
    })
}

// 0
pub fn module(image: &[u8], id: ModuleId) -> Module
    ensures { Listed image.now id.0.0 0 result.decls.list }
{
    Module {
        decls: list(image, id.0, 0),
    }
}

// 1
#[tactic(auto, unfolding(crate::specs::Nodes::decl_of))]
pub fn decl(image: &[u8], id: DeclId) -> Decl
    ensures { result ≡ decl_at image.now id.0.0 }
{
    let case = field(image, id.0, 0);
    let child = NodeId(field(image, id.0, 1));
    match case {
        0 => Decl::Type(TypeDeclId(child)),
        1 => Decl::Pred(PredDeclId(child)),
        2 => Decl::Func(FuncDeclId(child)),
        3 => Decl::Const(ConstDeclId(child)),
        4 => Decl::Rule(RuleDeclId(child)),
        5 => Decl::Enum(EnumDeclId(child)),
        _ => Decl::Model(ModelDeclId(child)),
    }
}

// 2
pub fn type_decl(image: &[u8], id: TypeDeclId) -> TypeDecl
    ensures { One image.now id.0.0 result.name }
{
    TypeDecl {
        name: field(image, id.0, 0),
    }
}

// 3
pub fn pred_decl(image: &[u8], id: PredDeclId) -> PredDecl
    ensures { Two image.now id.0.0 result.name result.args.0.0 }
{
    PredDecl {
        name: field(image, id.0, 0),
        args: ArgDeclListId(NodeId(field(image, id.0, 1))),
    }
}

// 4
pub fn func_decl(image: &[u8], id: FuncDeclId) -> FuncDecl
    ensures { Three image.now id.0.0 result.name result.args.0.0 result.result.0.0 }
{
    FuncDecl {
        name: field(image, id.0, 0),
        args: ArgDeclListId(NodeId(field(image, id.0, 1))),
        result: TypeExprId(NodeId(field(image, id.0, 2))),
    }
}

// 5
pub fn const_decl(image: &[u8], id: ConstDeclId) -> ConstDecl
    ensures { Two image.now id.0.0 result.name result.result.0.0 }
{
    ConstDecl {
        name: field(image, id.0, 0),
        result: TypeExprId(NodeId(field(image, id.0, 1))),
    }
}

// 6
pub fn rule_decl(image: &[u8], id: RuleDeclId) -> RuleDecl
    ensures { WordList image.now id.0.0 (name_word result.name) result.body.list }
{
    RuleDecl {
        name: option(field(image, id.0, 0)),
        body: list(image, id.0, 1),
    }
}

// 7
pub fn enum_decl(image: &[u8], id: EnumDeclId) -> EnumDecl
    ensures { WordList image.now id.0.0 result.name result.ctors.list }
{
    EnumDecl {
        name: field(image, id.0, 0),
        ctors: list(image, id.0, 1),
    }
}

// 8
pub fn model_decl(image: &[u8], id: ModelDeclId) -> ModelDecl
    ensures { WordList image.now id.0.0 result.name result.body.list }
{
    ModelDecl {
        name: field(image, id.0, 0),
        body: list(image, id.0, 1),
    }
}

// 9
pub fn ctor_decl(image: &[u8], id: CtorDeclId) -> CtorDecl
    ensures { Two image.now id.0.0 result.name result.args.0.0 }
{
    CtorDecl {
        name: field(image, id.0, 0),
        args: ArgDeclListId(NodeId(field(image, id.0, 1))),
    }
}

// 10
pub fn arg_decl(image: &[u8], id: ArgDeclId) -> ArgDecl
    ensures { Two image.now id.0.0 (name_word result.name) result.typ.0.0 }
{
    ArgDecl {
        name: option(field(image, id.0, 0)),
        typ: TypeExprId(NodeId(field(image, id.0, 1))),
    }
}

// 11
pub fn arg_decl_list(image: &[u8], id: ArgDeclListId) -> ArgDeclList
    ensures { Listed image.now id.0.0 0 result.args.list }
{
    ArgDeclList {
        args: list(image, id.0, 0),
    }
}

// 12
#[tactic(auto, unfolding(crate::specs::Nodes::term_of))]
pub fn term(image: &[u8], id: TermId) -> Term
    ensures { result ≡ term_at image.now id.0.0 }
{
    let case = field(image, id.0, 0);
    let child = NodeId(field(image, id.0, 1));
    match case {
        0 => Term::Ident(IdentTermId(child)),
        1 => Term::Wildcard,
        2 => Term::App(AppTermId(child)),
        3 => Term::Member(TermMemberId(child)),
        4 => Term::Dom(DomTermId(child)),
        5 => Term::Cod(CodTermId(child)),
        6 => Term::Id(IdTermId(child)),
        _ => Term::Comp(CompTermId(child)),
    }
}

// The one term below a Term of case Dom, Cod or Id, whichever it is.
pub fn argument(image: &[u8], id: TermId) -> TermId
    ensures { result.0.0 ≡ ImageSpec.field image.now (ImageSpec.field image.now id.0.0 1) 0 }
{
    let child = NodeId(field(image, id.0, 1));
    TermId(NodeId(field(image, child, 0)))
}

// 13
pub fn ident_term(image: &[u8], id: IdentTermId) -> IdentTerm
    ensures { One image.now id.0.0 result.name }
{
    IdentTerm {
        name: field(image, id.0, 0),
    }
}

// 14
pub fn app_term(image: &[u8], id: AppTermId) -> AppTerm
    ensures { Two image.now id.0.0 result.head.0.0 result.args.0.0 }
{
    AppTerm {
        head: AppHeadId(NodeId(field(image, id.0, 0))),
        args: TermListId(NodeId(field(image, id.0, 1))),
    }
}

// 15
#[tactic(auto, unfolding(crate::specs::Nodes::app_head_of))]
pub fn app_head(image: &[u8], id: AppHeadId) -> AppHead
    ensures { result ≡ app_head_at image.now id.0.0 }
{
    let case = field(image, id.0, 0);
    let child = NodeId(field(image, id.0, 1));
    match case {
        0 => AppHead::Ident(IdentTermId(child)),
        1 => AppHead::Member(AppHeadMemberId(child)),
        _ => AppHead::Term(TermId(child)),
    }
}

// 16
pub fn app_head_member(image: &[u8], id: AppHeadMemberId) -> AppHeadMember
    ensures { WordList image.now id.0.0 result.receiver.0.0 result.names.list }
{
    AppHeadMember {
        receiver: TermId(NodeId(field(image, id.0, 0))),
        names: list(image, id.0, 1),
    }
}

// 17
pub fn term_member(image: &[u8], id: TermMemberId) -> TermMember
    ensures { Two image.now id.0.0 result.term.0.0 result.name.0.0 }
{
    TermMember {
        term: TermId(NodeId(field(image, id.0, 0))),
        name: IdentTermId(NodeId(field(image, id.0, 1))),
    }
}

// 18
pub fn dom_term(image: &[u8], id: DomTermId) -> DomTerm
    ensures { One image.now id.0.0 result.arg.0.0 }
{
    DomTerm {
        arg: TermId(NodeId(field(image, id.0, 0))),
    }
}

// 19
pub fn cod_term(image: &[u8], id: CodTermId) -> CodTerm
    ensures { One image.now id.0.0 result.arg.0.0 }
{
    CodTerm {
        arg: TermId(NodeId(field(image, id.0, 0))),
    }
}

// 20
pub fn id_term(image: &[u8], id: IdTermId) -> IdTerm
    ensures { One image.now id.0.0 result.arg.0.0 }
{
    IdTerm {
        arg: TermId(NodeId(field(image, id.0, 0))),
    }
}

// 21
pub fn comp_term(image: &[u8], id: CompTermId) -> CompTerm
    ensures { Two image.now id.0.0 result.first.0.0 result.second.0.0 }
{
    CompTerm {
        first: TermId(NodeId(field(image, id.0, 0))),
        second: TermId(NodeId(field(image, id.0, 1))),
    }
}

// 22
pub fn term_list(image: &[u8], id: TermListId) -> TermList
    ensures { Listed image.now id.0.0 0 result.terms.list }
{
    TermList {
        terms: list(image, id.0, 0),
    }
}

// 23
#[tactic(auto, unfolding(crate::specs::Nodes::type_expr_of))]
pub fn type_expr(image: &[u8], id: TypeExprId) -> TypeExpr
    ensures { result ≡ type_expr_at image.now id.0.0 }
{
    let case = field(image, id.0, 0);
    let child = NodeId(field(image, id.0, 1));
    match case {
        0 => TypeExpr::Ambient(AmbientTypeExprId(child)),
        1 => TypeExpr::Member(TermMemberId(child)),
        _ => TypeExpr::Mor(MorTypeExprId(child)),
    }
}

// 24
pub fn ambient_type_expr(image: &[u8], id: AmbientTypeExprId) -> AmbientTypeExpr
    ensures { One image.now id.0.0 result.name }
{
    AmbientTypeExpr {
        name: field(image, id.0, 0),
    }
}

// 25
pub fn mor_type_expr(image: &[u8], id: MorTypeExprId) -> MorTypeExpr
    ensures { One image.now id.0.0 result.name }
{
    MorTypeExpr {
        name: field(image, id.0, 0),
    }
}

// 26
#[tactic(auto, unfolding(crate::specs::Nodes::pred_expr_of))]
pub fn pred_expr(image: &[u8], id: PredExprId) -> PredExpr
    ensures { result ≡ pred_expr_at image.now id.0.0 }
{
    let case = field(image, id.0, 0);
    let child = NodeId(field(image, id.0, 1));
    match case {
        0 => PredExpr::Ambient(AmbientPredExprId(child)),
        _ => PredExpr::Member(TermMemberId(child)),
    }
}

// 27
pub fn ambient_pred_expr(image: &[u8], id: AmbientPredExprId) -> AmbientPredExpr
    ensures { One image.now id.0.0 result.name }
{
    AmbientPredExpr {
        name: field(image, id.0, 0),
    }
}

// 28
#[tactic(auto, unfolding(crate::specs::Nodes::if_atom_of))]
pub fn if_atom(image: &[u8], id: IfAtomId) -> IfAtom
    ensures { result ≡ if_atom_at image.now id.0.0 }
{
    let case = field(image, id.0, 0);
    let child = NodeId(field(image, id.0, 1));
    match case {
        0 => IfAtom::Equal(EqualAtomId(child)),
        1 => IfAtom::Defined(DefinedIfAtomId(child)),
        2 => IfAtom::Pred(PredAtomId(child)),
        _ => IfAtom::Var(VarIfAtomId(child)),
    }
}

// 29
#[tactic(auto, unfolding(crate::specs::Nodes::then_atom_of))]
pub fn then_atom(image: &[u8], id: ThenAtomId) -> ThenAtom
    ensures { result ≡ then_atom_at image.now id.0.0 }
{
    let case = field(image, id.0, 0);
    let child = NodeId(field(image, id.0, 1));
    match case {
        0 => ThenAtom::Equal(EqualAtomId(child)),
        1 => ThenAtom::Defined(DefinedThenAtomId(child)),
        _ => ThenAtom::Pred(PredAtomId(child)),
    }
}

// 30
pub fn equal_atom(image: &[u8], id: EqualAtomId) -> EqualAtom
    ensures { Two image.now id.0.0 result.lhs.0.0 result.rhs.0.0 }
{
    EqualAtom {
        lhs: TermId(NodeId(field(image, id.0, 0))),
        rhs: TermId(NodeId(field(image, id.0, 1))),
    }
}

// 31
pub fn pred_atom(image: &[u8], id: PredAtomId) -> PredAtom
    ensures { Two image.now id.0.0 result.pred.0.0 result.args.0.0 }
{
    PredAtom {
        pred: PredExprId(NodeId(field(image, id.0, 0))),
        args: TermListId(NodeId(field(image, id.0, 1))),
    }
}

// 32
pub fn defined_if_atom(image: &[u8], id: DefinedIfAtomId) -> DefinedIfAtom
    ensures { One image.now id.0.0 result.term.0.0 }
{
    DefinedIfAtom {
        term: TermId(NodeId(field(image, id.0, 0))),
    }
}

// 33
pub fn var_if_atom(image: &[u8], id: VarIfAtomId) -> VarIfAtom
    ensures { Two image.now id.0.0 result.term.0.0 result.typ.0.0 }
{
    VarIfAtom {
        term: TermId(NodeId(field(image, id.0, 0))),
        typ: TypeExprId(NodeId(field(image, id.0, 1))),
    }
}

// 34
pub fn defined_then_atom(image: &[u8], id: DefinedThenAtomId) -> DefinedThenAtom
    ensures { Two image.now id.0.0 (term_word result.var) result.term.0.0 }
{
    DefinedThenAtom {
        var: option(field(image, id.0, 0)).map(|node| TermId(NodeId(node))),
        term: TermId(NodeId(field(image, id.0, 1))),
    }
}

// 35
pub fn match_case(image: &[u8], id: MatchCaseId) -> MatchCase
    ensures { WordList image.now id.0.0 result.pattern.0.0 result.body.list }
{
    MatchCase {
        pattern: TermId(NodeId(field(image, id.0, 0))),
        body: list(image, id.0, 1),
    }
}

// 36
#[tactic(auto, unfolding(crate::specs::Nodes::stmt_of))]
pub fn stmt(image: &[u8], id: StmtId) -> Stmt
    ensures { result ≡ stmt_at image.now id.0.0 }
{
    let case = field(image, id.0, 0);
    let child = NodeId(field(image, id.0, 1));
    match case {
        0 => Stmt::If(IfStmtId(child)),
        1 => Stmt::Then(ThenStmtId(child)),
        2 => Stmt::Branch(BranchStmtId(child)),
        _ => Stmt::Match(MatchStmtId(child)),
    }
}

// 37
pub fn if_stmt(image: &[u8], id: IfStmtId) -> IfStmt
    ensures { One image.now id.0.0 result.atom.0.0 }
{
    IfStmt {
        atom: IfAtomId(NodeId(field(image, id.0, 0))),
    }
}

// 38
pub fn then_stmt(image: &[u8], id: ThenStmtId) -> ThenStmt
    ensures { One image.now id.0.0 result.atom.0.0 }
{
    ThenStmt {
        atom: ThenAtomId(NodeId(field(image, id.0, 0))),
    }
}

// 39
pub fn branch_stmt(image: &[u8], id: BranchStmtId) -> BranchStmt
    ensures { Listed image.now id.0.0 0 result.blocks.list }
{
    BranchStmt {
        blocks: list(image, id.0, 0),
    }
}

// 40
pub fn match_stmt(image: &[u8], id: MatchStmtId) -> MatchStmt
    ensures { WordList image.now id.0.0 result.term.0.0 result.cases.list }
{
    MatchStmt {
        term: TermId(NodeId(field(image, id.0, 0))),
        cases: list(image, id.0, 1),
    }
}
