// Position-local binding checks on rule bodies: the error rows.
#![tactic(auto)]

ghost use Rattle.std.specs.Prelude.{◌≡◌, true, false, [], ◌∷◌, ◌+◌, ◌<◌, ◌≤◌, ◌/◌, ◌^◌, ℕ, length, get_or, set, replicate, IfOk};
ghost use Rattle.std.proofs.Math.Option.{some};
ghost use Rattle.ast.specs.Is.{Is};
ghost use Rattle.ast.specs.Image as ImageSpec;
ghost use Rattle.ast.specs.Kinds.{kind_of};
ghost use Rattle.ast.specs.Named.{module_kind, decl_kind, stmt_kind, branch_stmt_kind, match_stmt_kind, match_case_kind, then_atom_kind, defined_then_atom_kind, term_kind, term_list_kind, app_head_kind, arg_decl_kind, arg_decl_list_kind};
ghost use Rattle.ast.specs.Tests as TestsSpec;
ghost use Rattle.error.specs.Kinds.{row_number};
ghost use Rattle.error.specs.Refusals.{refusal_of};
ghost use Rattle.table.specs.Table as TableSpec;
ghost use Rattle.environment.specs.Layout.{nodes_most};
ghost use Rattle.environment.specs.Asked.{Asks};
ghost use Rattle.environment.specs.Reading.{seen};
ghost use Rattle.rows.specs.Rows.{row, rows_length, Appends, Wrote};
ghost use Rattle.scopes.specs.Answers.{rowed_answer};
ghost use Rattle.bindings.specs.Errors.{same_node, introduces, introduced_row, strict_rows, repeated_in, repeated_to, test_errors, errors};
ghost use Rattle.bindings.specs.Promises.{Ready, ReadyAll, Defines, PlainVariable, IsMode, mode_of, Earlier, inside, of_stmts, of_decl, of_decls, of_defined, of_variable, of_head, of_pattern, of_case, of_args, of_arg, names_ctor, mode_rows, all_rows, marked, MarkedOne, AllMarked, group_nodes, groups_most, group_rows};

use ast::kind::Kind;
use ast::{NODES, NodeId, SizedImage};
use environment::{Environment, Scopes};
use error::{ErrorKind, Refusal, Unresolved};
use rows::Rows;
use scopes::Stamps;
use std::marker::Model;
use typed::nodes::*;

// The modes of Errors.
#[derive(Clone, Copy, Debug, PartialEq, Eq)]
enum Mode {
    Plain,
    Strict,
}

impl TryFrom<u32> for Mode {
    type Error = Refusal;

    ghost try_from_gives = { IsMode };

    // 1 is plain; 0, the default, and 2 are strict.
    fn try_from(number: u32) -> Result<Mode, Refusal> {
        match number {
            1 => Ok(Mode::Plain),
            0 | 2 => Ok(Mode::Strict),
            _ => Err(Refusal::UnknownMode),
        }
    }
}

// Errors: resolves, then writes the error rows. The mode as C hands it over. It begins as Once and Occurrences do: a function of
// what the three share would lend the words on in `Scopes`, and no clause could say what is in them where a name is declared twice.
pub fn check_bindings(
    image: &[u8],
    table: &mut [u32],
    rows: &mut [u32],
    mode: u32,
) -> Result<u32, Unresolved>
    ensures { errors image.now table.old rows.old mode ≡ record { answer = rowed_answer result; table = table.new; rows = rows.new } }
{
    let mode = test_errors(image, table, rows, mode)?;
    let mut env = Environment::new();
    let resolved = scopes::resolve_into(image, table, &mut env)?;
    let scopes = Scopes {
        image,
        table,
        env: &env,
        scopes: resolved.scopes,
        symbols: resolved.symbols,
    };
    Ok(BindingsChecker { scopes }.write_rows(rows, mode))
}

// The refusals of Errors: 1 to 15.
fn test_errors(image: &[u8], table: &[u32], rows: &[u32], mode: u32) -> Result<Mode, Refusal>
    ensures refusal { refusal_of result ≡ test_errors image.now table.now rows.now mode }
    ensures mode { IfOk result (λ m. Ok m ≡ mode_of mode) }
{
    scopes::test_rows(image, table, rows)?;
    Mode::try_from(mode)
}

// A row of the kind, at the node.
fn report(rows: &mut Rows, kind: ErrorKind, node: NodeId)
    requires { rows.old.count + 1 < 2 ^ 32 }
    ensures { Appends (row (row_number kind) node.0 ∷ []) rows.old rows.new }
{
    rows.put(kind.row_number(), node.0);
}

// The marks are gone through by groups of so many nodes: a group of which none is marked is passed over.
const GROUP: usize = 32;

const GROUPS: usize = NODES / GROUP;

// Strict mode's marks, by node, and by group whether it may have one. In fixed memory, since there is no heap.
#[derive(Drop)]
struct Marks {
    nodes: [bool; NODES],
    groups: [bool; GROUPS],
}

impl Model for Marks {
    ghost use Rattle.std.specs.Prelude.{◌≡◌, Bool, true, false, List, ℕ, ◌/◌, length, get_or};
    ghost use Rattle.environment.specs.Layout.{nodes_most};
    ghost use Rattle.bindings.specs.Promises.{group_nodes, groups_most};

    ghost Value = { List Bool };

    ghost view = { λ m. m.nodes };

    ghost invariant = { λ m. (length m.nodes ≡ nodes_most) × (length m.groups ≡ groups_most) × ((n : ℕ) → get_or m.nodes n false ≡ true → get_or m.groups (n / group_nodes) false ≡ true) };
}

impl Marks {
    fn new() -> Marks
        ensures { result ≡ replicate nodes_most false }
    {
        Marks {
            nodes: [false; NODES],
            groups: [false; GROUPS],
        }
    }

    fn mark(&mut self, node: NodeId)
        requires { node.0 < nodes_most }
        ensures { self.new ≡ set self.old node.0 true }
    {
        self.nodes[node.0 as usize] = true;
        self.groups[node.0 as usize / GROUP] = true;
    }

    fn is_marked(&self, node: NodeId) -> bool
        requires { node.0 < nodes_most }
        ensures { result ≡ get_or self.now node.0 false }
    {
        self.nodes[node.0 as usize]
    }

    // Whether a node of the group may be marked.
    fn has(&self, group: usize) -> bool
        requires { group < groups_most }
        ensures { result ≡ false → (n : ℕ) → n / group_nodes ≡ group → get_or self.now n false ≡ false }
    {
        self.groups[group]
    }
}

// Walks the rule bodies of a resolved image. The rows, in the Rust a field, stand beside it: with them in here each step would owe
// that the scopes are the same.
#[derive(Drop)]
struct BindingsChecker<'a> {
    scopes: Scopes<'a>,
    ghost accepted: { TestsSpec.verdict scopes.image.now ≡ 0 },
}

impl<'a> BindingsChecker<'a> {
    // The error rows, with their count in front.
    fn write_rows(&self, words: &mut [u32], mode: Mode) -> u32
        requires { rows_length (ImageSpec.nodes self.now.scopes.image.now) ≤ length words.old }
        ensures { Wrote (ImageSpec.nodes self.now.scopes.image.now) (seen all_rows self.now.scopes mode) words.old result words.new }
    {
        let n = ast::node_count(self.scopes.image);
        let mut rows = Rows::begin(words, n);
        self.walk_module(&mut rows, ModuleId(NodeId(n - 1)));
        self.check_mode(&mut rows, mode);
        rows.finish()
    }

    fn walk_module(&self, rows: &mut Rows, module: ModuleId)
        requires { Ready self.now.scopes (kind_of module_kind) «module».0.0 (seen of_decl self.now.scopes «module».0.0) rows.old.count }
        ensures { Appends (seen of_decl self.now.scopes «module».0.0) rows.old rows.new }
    {
        let Module { decls } = typed::module(self.scopes.image, module);
        self.walk_decls(rows, decls);
    }

    // A loop over declarations, and one over statements, is a function, since several call it; the Rust has the loop in each.
    #[cycle(decls)]
    fn walk_decls(&self, rows: &mut Rows, decls: Ids<DeclId>)
        requires { ReadyAll self.now.scopes decl_kind decls.list (seen of_decls self.now.scopes decls.list) rows.old.count }
        ensures { Appends (seen of_decls self.now.scopes decls.list) rows.old rows.new }
    {
        for decl in decls.of(self.scopes.image) {
            self.walk_decl(rows, decl);
        }
    }

    #[cycle(decls)]
    fn walk_decl(&self, rows: &mut Rows, decl: DeclId)
        requires { Ready self.now.scopes (kind_of decl_kind) decl.0.0 (seen of_decl self.now.scopes decl.0.0) rows.old.count }
        ensures { Appends (seen of_decl self.now.scopes decl.0.0) rows.old rows.new }
    {
        match typed::decl(self.scopes.image, decl) {
            Decl::Type(_) | Decl::Pred(_) | Decl::Func(_) | Decl::Const(_) | Decl::Enum(_) => {}
            Decl::Rule(id) => {
                let RuleDecl { body, .. } = typed::rule_decl(self.scopes.image, id);
                self.walk_stmt_block(rows, body);
            }
            Decl::Model(id) => {
                let ModelDecl { body, .. } = typed::model_decl(self.scopes.image, id);
                self.walk_decls(rows, body);
            }
        }
    }

    #[cycle(stmts)]
    fn walk_stmt_block(&self, rows: &mut Rows, stmts: Ids<StmtId>)
        requires { ReadyAll self.now.scopes stmt_kind stmts.list (seen of_stmts self.now.scopes stmts.list) rows.old.count }
        ensures { Appends (seen of_stmts self.now.scopes stmts.list) rows.old rows.new }
    {
        for stmt in stmts.of(self.scopes.image) {
            self.walk_stmt(rows, stmt);
        }
    }

    #[cycle(stmts)]
    fn walk_stmt(&self, rows: &mut Rows, stmt: StmtId)
        requires { Ready self.now.scopes (kind_of stmt_kind) stmt.0.0 (seen inside self.now.scopes false stmt.0.0) rows.old.count }
        ensures { Appends (seen inside self.now.scopes false stmt.0.0) rows.old rows.new }
    {
        match typed::stmt(self.scopes.image, stmt) {
            Stmt::If(_) => {}
            Stmt::Then(id) => {
                let ThenStmt { atom } = typed::then_stmt(self.scopes.image, id);
                self.check_then_atom(rows, atom);
            }
            Stmt::Branch(id) => self.walk_branch(rows, id),
            Stmt::Match(id) => self.walk_match(rows, id),
        }
    }

    #[cycle(stmts)]
    fn walk_branch(&self, rows: &mut Rows, id: BranchStmtId)
        requires { Ready self.now.scopes (kind_of branch_stmt_kind) id.0.0 (seen inside self.now.scopes false id.0.0) rows.old.count }
        ensures { Appends (seen inside self.now.scopes false id.0.0) rows.old rows.new }
    {
        let BranchStmt { blocks } = typed::branch_stmt(self.scopes.image, id);
        for block in blocks.of(self.scopes.image) {
            self.walk_stmt_block(rows, block);
        }
    }

    #[cycle(stmts)]
    fn walk_match(&self, rows: &mut Rows, id: MatchStmtId)
        requires { Ready self.now.scopes (kind_of match_stmt_kind) id.0.0 (seen inside self.now.scopes false id.0.0) rows.old.count }
        ensures { Appends (seen inside self.now.scopes false id.0.0) rows.old rows.new }
    {
        let MatchStmt { cases, .. } = typed::match_stmt(self.scopes.image, id);
        for case in cases.of(self.scopes.image) {
            self.walk_match_case(rows, case);
        }
    }

    #[cycle(stmts)]
    fn walk_match_case(&self, rows: &mut Rows, case: MatchCaseId)
        requires { Ready self.now.scopes (kind_of match_case_kind) case.0.0 (seen of_case self.now.scopes case.0.0) rows.old.count }
        ensures { Appends (seen of_case self.now.scopes case.0.0) rows.old rows.new }
    {
        self.check_match_case_pattern(rows, case);
        let MatchCase { body, .. } = typed::match_case(self.scopes.image, case);
        self.walk_stmt_block(rows, body);
    }

    fn check_then_atom(&self, rows: &mut Rows, atom: ThenAtomId)
        requires { Ready self.now.scopes (kind_of then_atom_kind) atom.0.0 (seen inside self.now.scopes true atom.0.0) rows.old.count }
        ensures { Appends (seen inside self.now.scopes true atom.0.0) rows.old rows.new }
    {
        match typed::then_atom(self.scopes.image, atom) {
            ThenAtom::Equal(id) => {
                let EqualAtom { lhs, rhs } = typed::equal_atom(self.scopes.image, id);
                self.check_epic_term(rows, lhs);
                self.check_epic_term(rows, rhs);
            }
            ThenAtom::Defined(id) => self.check_then_defined(rows, atom, id),
            ThenAtom::Pred(id) => {
                // A member predicate's receiver is not asked.
                let PredAtom { args, .. } = typed::pred_atom(self.scopes.image, id);
                self.check_epic_terms(rows, args);
            }
        }
    }

    fn check_then_defined(&self, rows: &mut Rows, atom: ThenAtomId, id: DefinedThenAtomId)
        requires { Ready self.now.scopes (kind_of defined_then_atom_kind) id.0.0 (seen of_defined self.now.scopes atom.0.0 id.0.0) rows.old.count × Defines self.now.scopes.image.now atom.0.0 id.0.0 }
        ensures { Appends (seen of_defined self.now.scopes atom.0.0 id.0.0) rows.old rows.new }
    {
        let DefinedThenAtom { var, term } = typed::defined_then_atom(self.scopes.image, id);
        if let Some(var) = var {
            self.check_then_defined_var(rows, atom, var);
        }
        self.check_epic_term(rows, term);
    }

    // A term of a then-atom, down to the subterms that determine the value being constructed. A variable there is an
    // error unless it was bound earlier.
    #[cycle(epic)]
    fn check_epic_term(&self, rows: &mut Rows, term: TermId)
        requires { Ready self.now.scopes (kind_of term_kind) term.0.0 (seen inside self.now.scopes true term.0.0) rows.old.count }
        ensures { Appends (seen inside self.now.scopes true term.0.0) rows.old rows.new }
    {
        match typed::term(self.scopes.image, term) {
            Term::Ident(id) => self.check_epic_ident(rows, term, id),
            Term::Member(id) => {
                let TermMember { term, .. } = typed::term_member(self.scopes.image, id);
                self.check_epic_term(rows, term);
            }
            Term::Wildcard => {}
            Term::App(id) => {
                let AppTerm { head, args } = typed::app_term(self.scopes.image, id);
                self.check_epic_app_head(rows, head);
                self.check_epic_terms(rows, args);
            }
            Term::Dom(_) | Term::Cod(_) => {}
            Term::Id(id) => {
                let IdTerm { arg } = typed::id_term(self.scopes.image, id);
                self.check_epic_term(rows, arg);
            }
            Term::Comp(id) => {
                let CompTerm { first, second } = typed::comp_term(self.scopes.image, id);
                self.check_epic_term(rows, first);
                self.check_epic_term(rows, second);
            }
        }
    }

    // Row 1, at an ident term that introduces its name.
    fn check_epic_ident(&self, rows: &mut Rows, term: TermId, id: IdentTermId)
        requires { (rows.old.count + length (seen introduced_row self.now.scopes true term.0.0 id.0.0) < 2 ^ 32) × Asks self.now.scopes.image.now term.0.0 id.0.0 }
        ensures { Appends (seen introduced_row self.now.scopes true term.0.0 id.0.0) rows.old rows.new }
    {
        if self.is_introduced(term, id) {
            report(rows, ErrorKind::VariableIntroducedInThenStmt, term.0);
        }
    }

    // The ident term introduces its name.
    fn is_introduced(&self, term: TermId, id: IdentTermId) -> bool
        requires { Asks self.now.scopes.image.now term.0.0 id.0.0 }
        ensures { result ≡ seen introduces self.now.scopes term.0.0 id.0.0 }
    {
        let found = self.scopes.at_exit(term.0, id.0);
        let Some(binding) = found else {
            return false;
        };
        table::is_var(self.scopes.image, found)
            && !self.binding_visible_before(term, id, IdentTermId(binding.node))
    }

    // Not one with `check_pattern_args`: the loop would take as a parameter which check of a term it calls.
    #[cycle(epic)]
    fn check_epic_terms(&self, rows: &mut Rows, args: TermListId)
        requires { Ready self.now.scopes (kind_of term_list_kind) args.0.0 (seen inside self.now.scopes true args.0.0) rows.old.count }
        ensures { Appends (seen inside self.now.scopes true args.0.0) rows.old rows.new }
    {
        let TermList { terms } = typed::term_list(self.scopes.image, args);
        for arg in terms.of(self.scopes.image) {
            self.check_epic_term(rows, arg);
        }
    }

    // An app head that is an ident has the same scope at its entry and its exit, so it introduces nothing and gets no row.
    #[cycle(epic)]
    fn check_epic_app_head(&self, rows: &mut Rows, head: AppHeadId)
        requires { Ready self.now.scopes (kind_of app_head_kind) head.0.0 (seen of_head self.now.scopes head.0.0) rows.old.count }
        ensures { Appends (seen of_head self.now.scopes head.0.0) rows.old rows.new }
    {
        match typed::app_head(self.scopes.image, head) {
            AppHead::Ident(_) => {}
            AppHead::Member(id) => {
                let AppHeadMember { receiver, .. } = typed::app_head_member(self.scopes.image, id);
                self.check_epic_term(rows, receiver);
            }
            AppHead::Term(term) => self.check_epic_term(rows, term),
        }
    }

    fn binding_visible_before(&self, term: TermId, id: IdentTermId, binding: IdentTermId) -> bool
        requires { Asks self.now.scopes.image.now term.0.0 id.0.0 }
        ensures { result ≡ same_node (some binding.0.0) (seen TableSpec.at_entry self.now.scopes term.0.0 id.0.0) }
    {
        match self.scopes.at_entry(term.0, id.0) {
            Some(found) => found.node == binding.0,
            None => false,
        }
    }

    // The variable of a defined-then. A wildcard is fine; an identifier must not be in scope before the term is resolved.
    fn check_then_defined_var(&self, rows: &mut Rows, atom: ThenAtomId, var: TermId)
        requires { PlainVariable self.now.scopes.image.now atom.0.0 var.0.0 (seen of_variable self.now.scopes atom.0.0 var.0.0) rows.old.count }
        ensures { Appends (seen of_variable self.now.scopes atom.0.0 var.0.0) rows.old rows.new }
    {
        // An image with a variable of another case than Ident and Wildcard is refused.
        let Term::Ident(id) = typed::term(self.scopes.image, var) else {
            return;
        };
        let found = self.scopes.at_entry(atom.0, id.0);
        if table::is_var(self.scopes.image, found) {
            report(rows, ErrorKind::ThenDefinedVarNotNew, var.0);
        }
    }

    // Variables that are arguments of a constructor in a pattern must be fresh. A pattern whose head names no constructor is
    // an ordinary term.
    fn check_match_case_pattern(&self, rows: &mut Rows, case: MatchCaseId)
        requires { Ready self.now.scopes (kind_of match_case_kind) case.0.0 (seen of_pattern self.now.scopes case.0.0) rows.old.count }
        ensures { Appends (seen of_pattern self.now.scopes case.0.0) rows.old rows.new }
    {
        let MatchCase { pattern, .. } = typed::match_case(self.scopes.image, case);
        let Term::App(app) = typed::term(self.scopes.image, pattern) else {
            return;
        };
        let AppTerm { head, args } = typed::app_term(self.scopes.image, app);
        if self.is_ctor_head(head) {
            self.check_pattern_args(rows, args);
        }
    }

    // The head of a pattern is an ident that names a constructor.
    fn is_ctor_head(&self, head: AppHeadId) -> bool
        requires { Is self.now.scopes.image.now (kind_of app_head_kind) head.0.0 }
        ensures { result ≡ seen names_ctor self.now.scopes head.0.0 }
    {
        match typed::app_head(self.scopes.image, head) {
            AppHead::Ident(id) => {
                let found = self.scopes.at_exit(head.0, id.0);
                table::is_kind(self.scopes.image, found, u32::from(Kind::CtorDecl))
            }
            AppHead::Member(_) | AppHead::Term(_) => false,
        }
    }

    fn check_pattern_args(&self, rows: &mut Rows, args: TermListId)
        requires { Ready self.now.scopes (kind_of term_list_kind) args.0.0 (seen of_args self.now.scopes args.0.0) rows.old.count }
        ensures { Appends (seen of_args self.now.scopes args.0.0) rows.old rows.new }
    {
        let TermList { terms } = typed::term_list(self.scopes.image, args);
        for arg in terms.of(self.scopes.image) {
            self.check_pattern_arg(rows, arg);
        }
    }

    // Row 3, at an ident argument that is a Var at its own entry. (The Rust asks for a Var at the exit first: what is one at
    // the entry is one at the exit.)
    fn check_pattern_arg(&self, rows: &mut Rows, arg: TermId)
        requires { Ready self.now.scopes (kind_of term_kind) arg.0.0 (seen of_arg self.now.scopes arg.0.0) rows.old.count }
        ensures { Appends (seen of_arg self.now.scopes arg.0.0) rows.old rows.new }
    {
        let Term::Ident(id) = typed::term(self.scopes.image, arg) else {
            return;
        };
        let found = self.scopes.at_entry(arg.0, id.0);
        if table::is_var(self.scopes.image, found) {
            report(rows, ErrorKind::MatchPatternArgVarIsNotFresh, arg.0);
        }
    }

    // The rows that the mode adds.
    fn check_mode(&self, rows: &mut Rows, mode: Mode)
        requires { rows.old.count + length (strict_rows self.now.scopes.image.now) < 2 ^ 32 }
        ensures { Appends (mode_rows self.now.scopes.image.now mode) rows.old rows.new }
    {
        match mode {
            Mode::Plain => {}
            Mode::Strict => self.check_strict(rows),
        }
    }

    fn check_strict(&self, rows: &mut Rows)
        requires { rows.old.count + length (strict_rows self.now.scopes.image.now) < 2 ^ 32 }
        ensures { Appends (strict_rows self.now.scopes.image.now) rows.old rows.new }
    {
        let mut marks = Marks::new();
        self.mark_lists(&mut marks);
        self.put_marked(&marks, rows);
    }

    // The argument lists, by rising node number. The image is taken as the sized one that it is, so that no read of a kind tests
    // whether it is there.
    fn mark_lists(&self, marks: &mut Marks)
        ensures { marks.new ≡ marked (repeated_to self.now.scopes.image.now (ImageSpec.nodes self.now.scopes.image.now)) marks.old }
    {
        let sized = SizedImage {
            image: self.scopes.image,
            sizes: ast::sizes_of(self.scopes.image),
        };
        let mut stamps = Stamps::new();
        for m in 0..sized.sizes.nodes {
            if sized.is_kind(NodeId(m), Kind::ArgDeclList) {
                self.mark_list(marks, &mut stamps, ArgDeclListId(NodeId(m)));
            }
        }
    }

    // The arguments of a list.
    fn mark_list(&self, marks: &mut Marks, stamps: &mut Stamps, list: ArgDeclListId)
        requires { (list.0.0 < ImageSpec.nodes self.now.scopes.image.now) × (ImageSpec.kind_at self.now.scopes.image.now list.0.0 ≡ arg_decl_list_kind) × Earlier list.0.0 stamps.old }
        ensures marks { marks.new ≡ marked (repeated_in self.now.scopes.image.now list.0.0) marks.old }
        ensures stamps { Earlier (list.0.0 + 1) stamps.new }
    {
        let ArgDeclList { args } = typed::arg_decl_list(self.scopes.image, list);
        for arg in args.of(self.scopes.image) {
            self.mark_argument(marks, stamps, list.0, arg);
        }
    }

    // An argument is marked where its name was seen in its list before.
    fn mark_argument(&self, marks: &mut Marks, stamps: &mut Stamps, list: NodeId, arg: ArgDeclId)
        requires { Is self.now.scopes.image.now (kind_of arg_decl_kind) arg.0.0 × (list.0 < nodes_most) }
        ensures { MarkedOne self.now.scopes.image.now list.0 arg.0.0 marks.old stamps.old marks.new stamps.new }
    {
        let ArgDecl { name, .. } = typed::arg_decl(self.scopes.image, arg);
        let Some(name) = name else {
            return;
        };
        if !stamps.stamp(name, list.0) {
            marks.mark(arg.0);
        }
    }

    // Row 4 at each marked node, by rising node number.
    fn put_marked(&self, marks: &Marks, rows: &mut Rows)
        requires { AllMarked self.now.scopes.image.now marks.now rows.old.count (strict_rows self.now.scopes.image.now) }
        ensures { Appends (strict_rows self.now.scopes.image.now) rows.old rows.new }
    {
        for group in 0..GROUPS {
            if marks.has(group) {
                self.put_group(marks, rows, group);
            }
        }
    }

    // The same at those of a group.
    fn put_group(&self, marks: &Marks, rows: &mut Rows, group: usize)
        requires { AllMarked self.now.scopes.image.now marks.now rows.old.count (group_rows self.now.scopes.image.now group) × (group < groups_most) }
        ensures { Appends (group_rows self.now.scopes.image.now group) rows.old rows.new }
    {
        let start = (group * GROUP) as u32;
        let end = (start + GROUP as u32).min(ast::node_count(self.scopes.image));
        for m in start..end {
            if marks.is_marked(NodeId(m)) {
                report(rows, ErrorKind::RepeatedArgument, NodeId(m));
            }
        }
    }
}
