// The 41 kinds of node, the cases of `Node` in ast.rs in declared order, and their numbers in an image.
ghost use Rattle.std.specs.Prelude.{◌≡◌};
ghost use Rattle.ast.specs.KindNumbers.{kind_number, Decodes};

// What a node is.
#[derive(Clone, Copy, Debug, PartialEq, Eq)]
pub enum Kind {
    Module,
    Decl,
    TypeDecl,
    PredDecl,
    FuncDecl,
    ConstDecl,
    RuleDecl,
    EnumDecl,
    ModelDecl,
    CtorDecl,
    ArgDecl,
    ArgDeclList,
    Term,
    IdentTerm,
    AppTerm,
    AppHead,
    AppHeadMember,
    TermMember,
    DomTerm,
    CodTerm,
    IdTerm,
    CompTerm,
    TermList,
    TypeExpr,
    AmbientTypeExpr,
    MorTypeExpr,
    PredExpr,
    AmbientPredExpr,
    IfAtom,
    ThenAtom,
    EqualAtom,
    PredAtom,
    DefinedIfAtom,
    VarIfAtom,
    DefinedThenAtom,
    MatchCase,
    Stmt,
    IfStmt,
    ThenStmt,
    BranchStmt,
    MatchStmt,
}

// A number that no kind has.
#[derive(Clone, Copy, Debug, PartialEq, Eq)]
pub struct UnknownKind(pub u32);

impl TryFrom<u32> for Kind {
    type Error = UnknownKind;

    ghost try_from_gives = { Decodes };

    fn try_from(number: u32) -> Result<Kind, UnknownKind> {
        match number {
            0 => Ok(Kind::Module),
            1 => Ok(Kind::Decl),
            2 => Ok(Kind::TypeDecl),
            3 => Ok(Kind::PredDecl),
            4 => Ok(Kind::FuncDecl),
            5 => Ok(Kind::ConstDecl),
            6 => Ok(Kind::RuleDecl),
            7 => Ok(Kind::EnumDecl),
            8 => Ok(Kind::ModelDecl),
            9 => Ok(Kind::CtorDecl),
            10 => Ok(Kind::ArgDecl),
            11 => Ok(Kind::ArgDeclList),
            12 => Ok(Kind::Term),
            13 => Ok(Kind::IdentTerm),
            14 => Ok(Kind::AppTerm),
            15 => Ok(Kind::AppHead),
            16 => Ok(Kind::AppHeadMember),
            17 => Ok(Kind::TermMember),
            18 => Ok(Kind::DomTerm),
            19 => Ok(Kind::CodTerm),
            20 => Ok(Kind::IdTerm),
            21 => Ok(Kind::CompTerm),
            22 => Ok(Kind::TermList),
            23 => Ok(Kind::TypeExpr),
            24 => Ok(Kind::AmbientTypeExpr),
            25 => Ok(Kind::MorTypeExpr),
            26 => Ok(Kind::PredExpr),
            27 => Ok(Kind::AmbientPredExpr),
            28 => Ok(Kind::IfAtom),
            29 => Ok(Kind::ThenAtom),
            30 => Ok(Kind::EqualAtom),
            31 => Ok(Kind::PredAtom),
            32 => Ok(Kind::DefinedIfAtom),
            33 => Ok(Kind::VarIfAtom),
            34 => Ok(Kind::DefinedThenAtom),
            35 => Ok(Kind::MatchCase),
            36 => Ok(Kind::Stmt),
            37 => Ok(Kind::IfStmt),
            38 => Ok(Kind::ThenStmt),
            39 => Ok(Kind::BranchStmt),
            40 => Ok(Kind::MatchStmt),
            _ => Err(UnknownKind(number)),
        }
    }
}

// The number that stands for the kind in an image.
impl From<Kind> for u32 {
    ghost from_gives = { λ kind number. number ≡ kind_number kind };

    fn from(kind: Kind) -> u32 {
        kind as u32
    }
}
