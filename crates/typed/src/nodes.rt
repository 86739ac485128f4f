// The types of ast.rs: an id for each kind of node, and what its row holds. A name is its number. Nothing prints them, so they derive
// no Debug, and nothing compares rows.
ghost use Rattle.std.specs.Prelude.{◌≡◌};

use ast::NodeId;
use std::marker::PhantomData;

// An id is a node of its kind; `id.0` is the node. The seven that lists hold are made `From` a node: each impl is written out, since
// none may come from a macro of the repository.
#[derive(Clone, Copy, PartialEq, Eq)]
pub struct ModuleId(pub NodeId);

#[derive(Clone, Copy, PartialEq, Eq)]
pub struct DeclId(pub NodeId);

impl From<NodeId> for DeclId {
    ghost from_gives = { λ node id. id.0.0 ≡ node.0 };

    fn from(node: NodeId) -> DeclId {
        DeclId(node)
    }
}

#[derive(Clone, Copy, PartialEq, Eq)]
pub struct TypeDeclId(pub NodeId);

#[derive(Clone, Copy, PartialEq, Eq)]
pub struct PredDeclId(pub NodeId);

#[derive(Clone, Copy, PartialEq, Eq)]
pub struct FuncDeclId(pub NodeId);

#[derive(Clone, Copy, PartialEq, Eq)]
pub struct ConstDeclId(pub NodeId);

#[derive(Clone, Copy, PartialEq, Eq)]
pub struct RuleDeclId(pub NodeId);

#[derive(Clone, Copy, PartialEq, Eq)]
pub struct EnumDeclId(pub NodeId);

#[derive(Clone, Copy, PartialEq, Eq)]
pub struct ModelDeclId(pub NodeId);

#[derive(Clone, Copy, PartialEq, Eq)]
pub struct CtorDeclId(pub NodeId);

impl From<NodeId> for CtorDeclId {
    ghost from_gives = { λ node id. id.0.0 ≡ node.0 };

    fn from(node: NodeId) -> CtorDeclId {
        CtorDeclId(node)
    }
}

#[derive(Clone, Copy, PartialEq, Eq)]
pub struct ArgDeclId(pub NodeId);

impl From<NodeId> for ArgDeclId {
    ghost from_gives = { λ node id. id.0.0 ≡ node.0 };

    fn from(node: NodeId) -> ArgDeclId {
        ArgDeclId(node)
    }
}

#[derive(Clone, Copy, PartialEq, Eq)]
pub struct ArgDeclListId(pub NodeId);

#[derive(Clone, Copy, PartialEq, Eq)]
pub struct TermId(pub NodeId);

impl From<NodeId> for TermId {
    ghost from_gives = { λ node id. id.0.0 ≡ node.0 };

    fn from(node: NodeId) -> TermId {
        TermId(node)
    }
}

#[derive(Clone, Copy, PartialEq, Eq)]
pub struct IdentTermId(pub NodeId);

impl From<NodeId> for IdentTermId {
    ghost from_gives = { λ node id. id.0.0 ≡ node.0 };

    fn from(node: NodeId) -> IdentTermId {
        IdentTermId(node)
    }
}

#[derive(Clone, Copy, PartialEq, Eq)]
pub struct AppTermId(pub NodeId);

#[derive(Clone, Copy, PartialEq, Eq)]
pub struct AppHeadId(pub NodeId);

#[derive(Clone, Copy, PartialEq, Eq)]
pub struct AppHeadMemberId(pub NodeId);

#[derive(Clone, Copy, PartialEq, Eq)]
pub struct TermMemberId(pub NodeId);

#[derive(Clone, Copy, PartialEq, Eq)]
pub struct DomTermId(pub NodeId);

#[derive(Clone, Copy, PartialEq, Eq)]
pub struct CodTermId(pub NodeId);

#[derive(Clone, Copy, PartialEq, Eq)]
pub struct IdTermId(pub NodeId);

#[derive(Clone, Copy, PartialEq, Eq)]
pub struct CompTermId(pub NodeId);

#[derive(Clone, Copy, PartialEq, Eq)]
pub struct TermListId(pub NodeId);

#[derive(Clone, Copy, PartialEq, Eq)]
pub struct TypeExprId(pub NodeId);

#[derive(Clone, Copy, PartialEq, Eq)]
pub struct AmbientTypeExprId(pub NodeId);

#[derive(Clone, Copy, PartialEq, Eq)]
pub struct MorTypeExprId(pub NodeId);

#[derive(Clone, Copy, PartialEq, Eq)]
pub struct PredExprId(pub NodeId);

#[derive(Clone, Copy, PartialEq, Eq)]
pub struct AmbientPredExprId(pub NodeId);

#[derive(Clone, Copy, PartialEq, Eq)]
pub struct IfAtomId(pub NodeId);

#[derive(Clone, Copy, PartialEq, Eq)]
pub struct ThenAtomId(pub NodeId);

#[derive(Clone, Copy, PartialEq, Eq)]
pub struct EqualAtomId(pub NodeId);

#[derive(Clone, Copy, PartialEq, Eq)]
pub struct PredAtomId(pub NodeId);

#[derive(Clone, Copy, PartialEq, Eq)]
pub struct DefinedIfAtomId(pub NodeId);

#[derive(Clone, Copy, PartialEq, Eq)]
pub struct VarIfAtomId(pub NodeId);

#[derive(Clone, Copy, PartialEq, Eq)]
pub struct DefinedThenAtomId(pub NodeId);

#[derive(Clone, Copy, PartialEq, Eq)]
pub struct MatchCaseId(pub NodeId);

impl From<NodeId> for MatchCaseId {
    ghost from_gives = { λ node id. id.0.0 ≡ node.0 };

    fn from(node: NodeId) -> MatchCaseId {
        MatchCaseId(node)
    }
}

#[derive(Clone, Copy, PartialEq, Eq)]
pub struct StmtId(pub NodeId);

impl From<NodeId> for StmtId {
    ghost from_gives = { λ node id. id.0.0 ≡ node.0 };

    fn from(node: NodeId) -> StmtId {
        StmtId(node)
    }
}

#[derive(Clone, Copy, PartialEq, Eq)]
pub struct IfStmtId(pub NodeId);

#[derive(Clone, Copy, PartialEq, Eq)]
pub struct ThenStmtId(pub NodeId);

#[derive(Clone, Copy, PartialEq, Eq)]
pub struct BranchStmtId(pub NodeId);

#[derive(Clone, Copy, PartialEq, Eq)]
pub struct MatchStmtId(pub NodeId);

// Some nodes in a row: `count` of them, in the row of `node` from the place `first` among its fields on: words
// of the image as C lends it, so no slice of ids.
#[derive(Clone, Copy)]
pub struct NodeList {
    pub node: NodeId,
    pub first: usize,
    pub count: usize,
}

// The same of one type: ids of a kind, or the lists of a branch, each of which is a list of ids itself.
#[derive(Clone, Copy, Drop)]
pub struct Ids<T> {
    pub list: NodeList,
    of: PhantomData<T>,
}

impl<T> From<NodeList> for Ids<T> {
    ghost from_gives = { λ list ids. ids.list ≡ list };

    fn from(list: NodeList) -> Ids<T> {
        Ids {
            list,
            of: PhantomData,
        }
    }
}

// 0
#[derive(Clone, Copy)]
pub struct Module {
    pub decls: Ids<DeclId>,
}

// 1
#[derive(Clone, Copy)]
pub enum Decl {
    Type(TypeDeclId),
    Pred(PredDeclId),
    Func(FuncDeclId),
    Const(ConstDeclId),
    Rule(RuleDeclId),
    Enum(EnumDeclId),
    Model(ModelDeclId),
}

// 2
#[derive(Clone, Copy)]
pub struct TypeDecl {
    pub name: u32,
}

// 3
#[derive(Clone, Copy)]
pub struct PredDecl {
    pub name: u32,
    pub args: ArgDeclListId,
}

// 4
#[derive(Clone, Copy)]
pub struct FuncDecl {
    pub name: u32,
    pub args: ArgDeclListId,
    pub result: TypeExprId,
}

// 5
#[derive(Clone, Copy)]
pub struct ConstDecl {
    pub name: u32,
    pub result: TypeExprId,
}

// 6
#[derive(Clone, Copy)]
pub struct RuleDecl {
    pub name: Option<u32>,
    pub body: Ids<StmtId>,
}

// 7
#[derive(Clone, Copy)]
pub struct EnumDecl {
    pub name: u32,
    pub ctors: Ids<CtorDeclId>,
}

// 8
#[derive(Clone, Copy)]
pub struct ModelDecl {
    pub name: u32,
    pub body: Ids<DeclId>,
}

// 9
#[derive(Clone, Copy)]
pub struct CtorDecl {
    pub name: u32,
    pub args: ArgDeclListId,
}

// 10
#[derive(Clone, Copy)]
pub struct ArgDecl {
    pub name: Option<u32>,
    pub typ: TypeExprId,
}

// 11
#[derive(Clone, Copy)]
pub struct ArgDeclList {
    pub args: Ids<ArgDeclId>,
}

// 12
#[derive(Clone, Copy)]
pub enum Term {
    Ident(IdentTermId),
    Wildcard,
    App(AppTermId),
    Member(TermMemberId),
    Dom(DomTermId),
    Cod(CodTermId),
    Id(IdTermId),
    Comp(CompTermId),
}

// 13
#[derive(Clone, Copy)]
pub struct IdentTerm {
    pub name: u32,
}

// 14
#[derive(Clone, Copy)]
pub struct AppTerm {
    pub head: AppHeadId,
    pub args: TermListId,
}

// 15
#[derive(Clone, Copy)]
pub enum AppHead {
    Ident(IdentTermId),
    Member(AppHeadMemberId),
    Term(TermId),
}

// 16
#[derive(Clone, Copy)]
pub struct AppHeadMember {
    pub receiver: TermId,
    pub names: Ids<IdentTermId>,
}

// 17
#[derive(Clone, Copy)]
pub struct TermMember {
    pub term: TermId,
    pub name: IdentTermId,
}

// 18
#[derive(Clone, Copy)]
pub struct DomTerm {
    pub arg: TermId,
}

// 19
#[derive(Clone, Copy)]
pub struct CodTerm {
    pub arg: TermId,
}

// 20
#[derive(Clone, Copy)]
pub struct IdTerm {
    pub arg: TermId,
}

// 21
#[derive(Clone, Copy)]
pub struct CompTerm {
    pub first: TermId,
    pub second: TermId,
}

// 22
#[derive(Clone, Copy)]
pub struct TermList {
    pub terms: Ids<TermId>,
}

// 23
#[derive(Clone, Copy)]
pub enum TypeExpr {
    Ambient(AmbientTypeExprId),
    Member(TermMemberId),
    Mor(MorTypeExprId),
}

// 24
#[derive(Clone, Copy)]
pub struct AmbientTypeExpr {
    pub name: u32,
}

// 25
#[derive(Clone, Copy)]
pub struct MorTypeExpr {
    pub name: u32,
}

// 26
#[derive(Clone, Copy)]
pub enum PredExpr {
    Ambient(AmbientPredExprId),
    Member(TermMemberId),
}

// 27
#[derive(Clone, Copy)]
pub struct AmbientPredExpr {
    pub name: u32,
}

// 28
#[derive(Clone, Copy)]
pub enum IfAtom {
    Equal(EqualAtomId),
    Defined(DefinedIfAtomId),
    Pred(PredAtomId),
    Var(VarIfAtomId),
}

// 29
#[derive(Clone, Copy)]
pub enum ThenAtom {
    Equal(EqualAtomId),
    Defined(DefinedThenAtomId),
    Pred(PredAtomId),
}

// 30
#[derive(Clone, Copy)]
pub struct EqualAtom {
    pub lhs: TermId,
    pub rhs: TermId,
}

// 31
#[derive(Clone, Copy)]
pub struct PredAtom {
    pub pred: PredExprId,
    pub args: TermListId,
}

// 32
#[derive(Clone, Copy)]
pub struct DefinedIfAtom {
    pub term: TermId,
}

// 33
#[derive(Clone, Copy)]
pub struct VarIfAtom {
    pub term: TermId,
    pub typ: TypeExprId,
}

// 34
#[derive(Clone, Copy)]
pub struct DefinedThenAtom {
    pub var: Option<TermId>,
    pub term: TermId,
}

// 35
#[derive(Clone, Copy)]
pub struct MatchCase {
    pub pattern: TermId,
    pub body: Ids<StmtId>,
}

// 36
#[derive(Clone, Copy)]
pub enum Stmt {
    If(IfStmtId),
    Then(ThenStmtId),
    Branch(BranchStmtId),
    Match(MatchStmtId),
}

// 37
#[derive(Clone, Copy)]
pub struct IfStmt {
    pub atom: IfAtomId,
}

// 38
#[derive(Clone, Copy)]
pub struct ThenStmt {
    pub atom: ThenAtomId,
}

// 39
#[derive(Clone, Copy)]
pub struct BranchStmt {
    pub blocks: Ids<Ids<StmtId>>,
}

// 40
#[derive(Clone, Copy)]
pub struct MatchStmt {
    pub term: TermId,
    pub cases: Ids<MatchCaseId>,
}
