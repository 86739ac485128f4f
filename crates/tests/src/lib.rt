// The image test without the names: refusals 1 to 3 and 6 to 12.
#![tactic(auto)]

ghost use Rattle.std.specs.Prelude.{◌≡◌, ◌<◌, ◌≤◌, IfOk, replicate};
ghost use Rattle.ast.specs.Image as ImageSpec;
ghost use Rattle.ast.specs.Rows.{kids_to};
ghost use Rattle.ast.specs.Tests as TestsSpec;
ghost use Rattle.ast.specs.Promises.{claim_all};
ghost use Rattle.error.specs.Refusals.{refusal_of};
ghost use Rattle.ast.specs.Times.{counts};
ghost use Rattle.tests.specs.Steps.{KnownBelow, NodeTested, NodesTested};

use ast::kind::Kind;
use ast::times::Times;
use ast::{NODES, NodeId, SizedImage};
use error::Refusal;
use typed::nodes::{DefinedThenAtom, DefinedThenAtomId, Term, TermId, VarIfAtom, VarIfAtomId};

pub mod grid;

// Refusals 1, 2, 3.
pub fn test_sizes(image: &[u8]) -> Result<SizedImage<'_>, Refusal>
    ensures code { refusal_of result ≡ TestsSpec.test_sizes image.now }
    ensures image { IfOk result (λ s. s.image.now ≡ image.now) }
{
    let sizes = ast::sizes_of(image);
    let n = image.len();
    if n < 16 {
        return Err(Refusal::ShortImage);
    }
    if sizes.nodes == 0
        || 2048 < sizes.nodes
        || 8192 < sizes.operands
        || 1024 < sizes.names
        || 8192 < sizes.bytes
    {
        return Err(Refusal::SizesTooLarge);
    }
    if n != 16
        + 8 * sizes.nodes as usize
        + 4 * sizes.operands as usize
        + 4 * sizes.names as usize
        + sizes.bytes as usize
    {
        return Err(Refusal::ImageLength);
    }
    Ok(SizedImage { image, sizes })
}

// The case of Term that has no child.
const WILDCARD: u32 = 1;

// Where a node's row goes on: `at` is the place of its next word. The test of a field gives the row after it. The places of children
// are the grid's. The claims go beside it: with a `&mut` in here each method would owe that the same claims stay lent.
#[derive(Clone, Copy)]
struct Row<'a> {
    image: &'a SizedImage<'a>,
    node: NodeId,
    at: usize,
    ghost there: { node.0 < image.now.sizes.nodes },
    ghost low: { at ≤ image.now.sizes.operands },
    ghost known: { KnownBelow image.now.image.now node.0 },
}

impl Row<'_> {
    ghost use Rattle.ast.specs.Kinds.{name, opt_name, child, opt_child, list, lists, cases};
    ghost use Rattle.ast.specs.KindNumbers.{kind_number};
    ghost use Rattle.tests.specs.Grid.{places_of, admitted, Wraps};
    ghost use Rattle.tests.specs.Rows.{WordRead, NumberRead, ChildTested, FieldTested, NameTested, FieldsTested, After};

    // The next word.
    fn word(self) -> Result<u32, Refusal>
        ensures { WordRead self.entry result }
    {
        if self.image.sizes.operands as usize <= self.at {
            return Err(Refusal::RowOutside);
        }
        Ok(self.image.op_at(self.at))
    }

    // The same as a number, of which there are `count`.
    fn number(self, count: usize) -> Result<u32, Refusal>
        ensures { NumberRead count self.entry result }
    {
        let number = self.word()?;
        if count <= number as usize {
            return Err(Refusal::UnknownNumber);
        }
        Ok(number)
    }

    // After a word that is there.
    fn next(self) -> Self
        requires { self.at < self.image.now.sizes.operands }
        ensures { After self.entry result }
    {
        Row {
            image: self.image,
            node: self.node,
            at: self.at + 1,
        }
    }

    // A name number.
    fn name(self) -> Result<Self, Refusal>
        ensures { NameTested name self.entry result }
    {
        self.number(self.image.sizes.names as usize)?;
        Ok(self.next())
    }

    // 0 for none, or a name number plus 1.
    fn opt_name(self) -> Result<Self, Refusal>
        ensures { NameTested opt_name self.entry result }
    {
        self.number(self.image.sizes.names as usize + 1)?;
        Ok(self.next())
    }

    // A node as a child at a place of the parent's kind.
    fn check(
        self,
        parent: Kind,
        place: u32,
        node: NodeId,
        claims: &mut [Times; NODES],
    ) -> Result<(), Refusal>
        requires { place < 8 }
        ensures { ChildTested self.entry (admitted (kind_number parent) place) node.0 claims.old result claims.new }
    {
        if self.node.0 <= node.0 || !grid::admits(parent, place, self.image.kind_at(node)) {
            return Err(Refusal::WrongChild);
        }
        let i = node.0 as usize;
        claims[i] = claims[i].more();
        Ok(())
    }

    // A child at the place.
    fn child(self, parent: Kind, place: u32, claims: &mut [Times; NODES]) -> Result<Self, Refusal>
        requires { place < 8 }
        ensures { FieldTested (child (admitted (kind_number parent) place)) self.entry claims.old result claims.new }
    {
        let word = self.word()?;
        self.check(parent, place, NodeId(word), claims)?;
        Ok(self.next())
    }

    // 0 for none, or the number of a child plus 1.
    fn opt_child(
        self,
        parent: Kind,
        place: u32,
        claims: &mut [Times; NODES],
    ) -> Result<Self, Refusal>
        requires { place < 8 }
        ensures { FieldTested (opt_child (admitted (kind_number parent) place)) self.entry claims.old result claims.new }
    {
        if let Some(child) = self.word()?.checked_sub(1) {
            self.check(parent, place, NodeId(child), claims)?;
        }
        Ok(self.next())
    }

    // A count and its items.
    fn list(self, parent: Kind, place: u32, claims: &mut [Times; NODES]) -> Result<Self, Refusal>
        requires { place < 8 }
        ensures { FieldTested (list (admitted (kind_number parent) place)) self.entry claims.old result claims.new }
    {
        let count = self.word()?;
        let mut row = self.next();
        for i in 0..count {
            row = row.child(parent, place, claims)?;
        }
        Ok(row)
    }

    // A count and its lists. The loop of `list` with another step: a closure for the step would be no shorter.
    fn lists(self, parent: Kind, place: u32, claims: &mut [Times; NODES]) -> Result<Self, Refusal>
        requires { place < 8 }
        ensures { FieldTested (lists (admitted (kind_number parent) place)) self.entry claims.old result claims.new }
    {
        let count = self.word()?;
        let mut row = self.next();
        for i in 0..count {
            row = row.list(parent, place, claims)?;
        }
        Ok(row)
    }

    // The case number of an enum of `count` cases, and the child, which the case `bare` has not.
    fn cases(
        self,
        parent: Kind,
        count: u32,
        bare: Option<u32>,
        claims: &mut [Times; NODES],
    ) -> Result<Self, Refusal>
        requires { Wraps (kind_number parent) count bare }
        ensures { FieldTested (cases (places_of (kind_number parent))) self.entry claims.old result claims.new }
    {
        let case = self.number(count as usize)?;
        if bare == Some(case) {
            return Ok(self.next());
        }
        self.next().child(parent, case, claims)
    }

    // The fields that the kind says: one arm for all kinds whose rows have one form. The numbers are the places of children.
    fn fields(self, kind: Kind, claims: &mut [Times; NODES]) -> Result<Self, Refusal>
        ensures { FieldsTested kind self.entry claims.old result claims.new }
    {
        use Kind::*;

        match kind {
            TypeDecl | IdentTerm | AmbientTypeExpr | MorTypeExpr | AmbientPredExpr => self.name(),
            PredDecl | ConstDecl | CtorDecl => self.name()?.child(kind, 0, claims),
            FuncDecl => self.name()?.child(kind, 0, claims)?.child(kind, 1, claims),
            EnumDecl | ModelDecl => self.name()?.list(kind, 0, claims),
            RuleDecl => self.opt_name()?.list(kind, 0, claims),
            ArgDecl => self.opt_name()?.child(kind, 0, claims),
            Module | ArgDeclList | TermList => self.list(kind, 0, claims),
            Decl => self.cases(kind, 7, None, claims),
            Term => self.cases(kind, 8, Some(WILDCARD), claims),
            AppHead | TypeExpr | ThenAtom => self.cases(kind, 3, None, claims),
            PredExpr => self.cases(kind, 2, None, claims),
            IfAtom | Stmt => self.cases(kind, 4, None, claims),
            DomTerm | CodTerm | IdTerm | DefinedIfAtom | IfStmt | ThenStmt => {
                self.child(kind, 0, claims)
            }
            AppTerm | TermMember | CompTerm | EqualAtom | PredAtom | VarIfAtom => {
                self.child(kind, 0, claims)?.child(kind, 1, claims)
            }
            DefinedThenAtom => self.opt_child(kind, 0, claims)?.child(kind, 1, claims),
            AppHeadMember | MatchCase | MatchStmt => {
                self.child(kind, 0, claims)?.list(kind, 1, claims)
            }
            BranchStmt => self.lists(kind, 0, claims),
        }
    }
}

// Refusals 6 to 9 of a node; `end` is where the row before ends. Gives the end of its row. The words of the location lie in the rows
// where the word after them does, which each kind has. That is tested together with the start, by an `|`: a branch less for each node.
fn check_node(
    image: &SizedImage,
    node: NodeId,
    end: usize,
    claims: &mut [Times; NODES],
) -> Result<usize, Refusal>
    requires { node.0 < image.now.sizes.nodes × KnownBelow image.now.image.now node.0 × (end ≤ 8192) × (end ≡ TestsSpec.end_before image.now.image.now node.0) }
    ensures { NodeTested image.now.image.now node.0 (counts claims.old) (counts claims.new) result }
{
    let Ok(kind) = Kind::try_from(image.kind_at(node)) else {
        return Err(Refusal::UnknownKind);
    };
    let at = end + 2;
    if (image.start_at(node) as usize != end) | (image.sizes.operands as usize <= at) {
        return Err(Refusal::RowOutside);
    }
    let row = Row {
        image: &*image,
        node,
        at,
    };
    Ok(row.fields(kind, claims)?.at)
}

// Refusals 6 to 9. Gives the end of the last row.
fn check_nodes(image: &SizedImage, claims: &mut [Times; NODES]) -> Result<usize, Refusal>
    ensures { NodesTested image.now.image.now (counts claims.old) (counts claims.new) result }
{
    let mut end = 0;
    for n in 0..image.sizes.nodes {
        end = check_node(image, NodeId(n), end, claims)?;
    }
    Ok(end)
}

// Refusal 11: each node but the last is a child once. The loop does not stop at the first that is not, so that its machine code tests
// several at once.
fn test_parents(image: &SizedImage, claims: &[Times; NODES]) -> Result<(), Refusal>
    requires { counts claims.now ≡ claim_all (kids_to image.now.image.now (ImageSpec.nodes image.now.image.now)) (replicate 2048 0) }
    ensures { refusal_of result ≡ TestsSpec.test_parents image.now.image.now }
{
    let last = image.sizes.nodes as usize - 1;
    let mut parents = Ok(());
    for claim in &claims[..last] {
        if *claim != Times::Once {
            parents = Err(Refusal::Parents);
        }
    }
    parents
}

// The term is Ident or Wildcard.
fn test_term(image: &[u8], id: TermId) -> Result<(), Refusal>
    ensures { refusal_of result ≡ TestsSpec.is_var image.now id.0.0 }
{
    match typed::term(image, id) {
        Term::Ident(_) | Term::Wildcard => Ok(()),
        _ => Err(Refusal::WrongVariable),
    }
}

// Refusal 12 of a node: of an if-var its term, of a defined-then its variable, if it has one. The two kinds are tested by an `|`: a
// branch less for each other node.
fn test_var(image: &SizedImage, node: NodeId) -> Result<(), Refusal>
    requires { node.0 < image.now.sizes.nodes }
    ensures { refusal_of result ≡ TestsSpec.test_var image.now.image.now node.0 }
{
    let if_var = image.is_kind(node, Kind::VarIfAtom);
    if !(if_var | image.is_kind(node, Kind::DefinedThenAtom)) {
        return Ok(());
    }
    if if_var {
        let VarIfAtom { term, .. } = typed::var_if_atom(image.image, VarIfAtomId(node));
        return test_term(image.image, term);
    }
    match typed::defined_then_atom(image.image, DefinedThenAtomId(node)).var {
        Some(var) => test_term(image.image, var),
        None => Ok(()),
    }
}

// Refusal 12.
fn test_vars(image: &SizedImage) -> Result<(), Refusal>
    ensures { refusal_of result ≡ TestsSpec.run (TestsSpec.test_var image.now.image.now) (ImageSpec.nodes image.now.image.now) 0 }
{
    for n in 0..image.sizes.nodes {
        test_var(image, NodeId(n))?;
    }
    Ok(())
}

// Refusals 10, 11 and 12; `end` is where the last row ends. Not inlined, so that its loops take no registers from that of the nodes.
#[inline(never)]
fn test_tree(image: &SizedImage, end: usize, claims: &[Times; NODES]) -> Result<(), Refusal>
    requires end { end ≡ TestsSpec.end_before image.now.image.now (ImageSpec.nodes image.now.image.now) }
    requires claims { counts claims.now ≡ claim_all (kids_to image.now.image.now (ImageSpec.nodes image.now.image.now)) (replicate 2048 0) }
    ensures { refusal_of result ≡ TestsSpec.test_tree image.now.image.now }
{
    let last = NodeId(image.sizes.nodes - 1);
    if end != image.sizes.operands as usize || !image.is_kind(last, Kind::Module) {
        return Err(Refusal::LastRow);
    }
    test_parents(image, claims)?;
    test_vars(image)
}

// Refusals 6 to 12: each node by rising number, then the whole tree.
pub fn test_nodes(image: &SizedImage) -> Result<(), Refusal>
    ensures { refusal_of result ≡ TestsSpec.◌▸◌ (TestsSpec.run (TestsSpec.test_node image.now.image.now) (ImageSpec.nodes image.now.image.now) 0) (TestsSpec.test_tree image.now.image.now) }
{
    // fixed memory, since there is no heap
    let mut claims = [Times::Never; NODES];
    let end = check_nodes(image, &mut claims)?;
    test_tree(image, end, &claims)
}
