// Variable occurrences: Occurrences and Once, by scope_checks/occurrences.rs. The list of a rule's occurrences is rows in lent
// words. The walks of declarations, blocks and atoms stand here and in bindings, as the Rust has them in two passes: each has rows of
// its own, and a walk for both would take as a parameter all that it does.
#![tactic(auto)]

ghost use Rattle.std.specs.Prelude.{◌≡◌, ◌≤◌, length, get_or, set, replicate, ltb};
ghost use Rattle.ast.specs.Image as ImageSpec;
ghost use Rattle.ast.specs.Kinds.{kind_of};
ghost use Rattle.ast.specs.Named.{app_head_kind, branch_stmt_kind, decl_kind, if_atom_kind, match_case_kind, match_stmt_kind, pred_expr_kind, rule_decl_kind, stmt_kind, term_kind, term_list_kind, then_atom_kind, type_expr_kind};
ghost use Rattle.ast.specs.Promises.{bump, claim_all};
ghost use Rattle.ast.specs.Rules.{module_rules};
ghost use Rattle.ast.specs.Times.{counts};
ghost use Rattle.environment.specs.Asked.{Asks};
ghost use Rattle.environment.specs.Reading.{seen};
ghost use Rattle.rows.specs.Rows.{rights, rows_length, Appends, Wrote, shown};
ghost use Rattle.scopes.specs.Answers.{rowed_answer};
ghost use Rattle.occurrences.specs.Answers.{once_answer};
ghost use Rattle.occurrences.specs.Occurrences as OccurrencesSpec;
ghost use Rattle.occurrences.specs.Occurrences.{occurrence_rows, lone};
ghost use Rattle.occurrences.specs.Promises.{ident_rows, rows_in, rows_of, Room, Ready, ReadyAll, joined, lists_in, lists_of, module_lists, Listing, ListingAll, Whole, under, uncounted, lone_of};

use ast::times::Times;
use ast::{NODES, NodeId};
use environment::{Environment, Scopes};
use error::Unresolved;
use rows::{Rows, Written};
use scopes::Resolved;
use typed::nodes::*;

// A lone occurrence: its node, and its binding.
#[derive(Clone, Copy, Debug, PartialEq, Eq)]
pub struct Lone {
    pub node: NodeId,
    pub binding: NodeId,
}

// Once: resolves, then looks for the first lone occurrence. It begins as Occurrences and Errors do: a function of what the three
// share would lend the words on in `Scopes`, and no clause could say what is in them where a name is declared twice.
pub fn check_occurrences(image: &[u8], table: &mut [u32]) -> Result<Option<Lone>, Unresolved>
    ensures { OccurrencesSpec.once image.now table.old ≡ record { answer = once_answer result; table = table.new } }
{
    scopes::test_table(image, table)?;
    let mut env = Environment::new();
    let Resolved { scopes, symbols } = scopes::resolve_into(image, table, &mut env)?;
    let env = &env;
    let scopes = Scopes {
        image,
        table,
        env,
        scopes,
        symbols,
    };
    let checker = OccurrencesChecker { scopes };
    Ok(checker.check_module().err())
}

// Walks the rules of a resolved image. Rows and scratch words stand beside it: in here each step would owe that the scopes are the
// same.
#[derive(Drop)]
struct OccurrencesChecker<'a> {
    scopes: Scopes<'a>,
    ghost whole: { seen Whole scopes },
}

// What the check of a rule works in: words for its rows, and by binding how often it stands in them. Arrays, since the memory is
// fixed. That all counts are 0 between two rules is no fact of the struct, since it fails while a rule is counted.
#[derive(Drop)]
struct Scratch {
    rows: [u32; rows::MOST_WORDS],
    counts: [Times; NODES],
}

impl<'a> OccurrencesChecker<'a> {
    fn check_module(&self) -> Result<(), Lone>
        ensures { lone_of result ≡ lone (seen module_lists self.now.scopes) }
    {
        let module = ModuleId(NodeId(ast::node_count(self.scopes.image) - 1));
        let Module { decls } = typed::module(self.scopes.image, module);
        let mut scratch = Scratch {
            rows: [0; rows::MOST_WORDS],
            counts: [Times::Never; NODES],
        };
        self.check_decls(&mut scratch, decls)
    }

    // A loop over declarations, and one over statements, is a function, since several call it; the Rust has the loop in each.
    #[cycle(check)]
    fn check_decls(&self, scratch: &mut Scratch, decls: Ids<DeclId>) -> Result<(), Lone>
        requires listing { seen ListingAll self.now.scopes decls.list 0 }
        requires clean { counts scratch.old.counts ≡ replicate 2048 0 }
        ensures lone { lone_of result ≡ lone (seen lists_of self.now.scopes decls.list) }
        ensures clean { counts scratch.new.counts ≡ counts scratch.old.counts }
    {
        for decl in decls.of(self.scopes.image) {
            self.check_decl(scratch, decl)?;
        }
        Ok(())
    }

    #[cycle(check)]
    fn check_decl(&self, scratch: &mut Scratch, decl: DeclId) -> Result<(), Lone>
        requires listing { seen Listing self.now.scopes (kind_of decl_kind) decl.0.0 0 }
        requires clean { counts scratch.old.counts ≡ replicate 2048 0 }
        ensures lone { lone_of result ≡ lone (seen lists_in self.now.scopes decl.0.0) }
        ensures clean { counts scratch.new.counts ≡ counts scratch.old.counts }
    {
        match typed::decl(self.scopes.image, decl) {
            Decl::Type(_) | Decl::Pred(_) | Decl::Func(_) | Decl::Const(_) | Decl::Enum(_) => Ok(
                (),
            ),
            Decl::Rule(id) => self.check_rule(scratch, id),
            Decl::Model(id) => {
                let ModelDecl { body, .. } = typed::model_decl(self.scopes.image, id);
                self.check_decls(scratch, body)
            }
        }
    }

    // Counts are per binding and per rule: the rule's rows are collected and counted, the first lone one is found, and all
    // counts are 0 again.
    fn check_rule(&self, scratch: &mut Scratch, rule: RuleDeclId) -> Result<(), Lone>
        requires listing { seen Listing self.now.scopes (kind_of rule_decl_kind) rule.0.0 0 }
        requires clean { counts scratch.old.counts ≡ replicate 2048 0 }
        ensures lone { lone_of result ≡ lone (seen lists_in self.now.scopes rule.0.0) }
        ensures clean { counts scratch.new.counts ≡ counts scratch.old.counts }
    {
        let RuleDecl { body, .. } = typed::rule_decl(self.scopes.image, rule);
        let mut rows = Rows::empty(&mut scratch.rows, ast::node_count(self.scopes.image));
        self.collect_stmts(&mut rows, body);
        let rows = rows.written();
        count_bindings(rows, &mut scratch.counts);
        let found = first_lone(rows, &scratch.counts);
        clear_bindings(rows, &mut scratch.counts);
        found
    }

    #[cycle(stmts)]
    fn collect_stmts(&self, rows: &mut Rows, stmts: Ids<StmtId>)
        requires { seen ReadyAll self.now.scopes stmt_kind stmts.list rows.old.count }
        ensures { Appends (seen rows_of self.now.scopes stmts.list) rows.old rows.new }
    {
        for stmt in stmts.of(self.scopes.image) {
            self.collect_stmt(rows, stmt);
        }
    }

    #[cycle(stmts)]
    fn collect_stmt(&self, rows: &mut Rows, stmt: StmtId)
        requires { seen Ready self.now.scopes (kind_of stmt_kind) stmt.0.0 rows.old.count }
        ensures { Appends (seen rows_in self.now.scopes stmt.0.0) rows.old rows.new }
    {
        match typed::stmt(self.scopes.image, stmt) {
            Stmt::If(id) => {
                let IfStmt { atom } = typed::if_stmt(self.scopes.image, id);
                self.collect_if_atom(rows, atom);
            }
            Stmt::Then(id) => {
                let ThenStmt { atom } = typed::then_stmt(self.scopes.image, id);
                self.collect_then_atom(rows, atom);
            }
            Stmt::Branch(id) => self.collect_branch(rows, id),
            Stmt::Match(id) => self.collect_match(rows, id),
        }
    }

    #[cycle(stmts)]
    fn collect_branch(&self, rows: &mut Rows, id: BranchStmtId)
        requires { seen Ready self.now.scopes (kind_of branch_stmt_kind) id.0.0 rows.old.count }
        ensures { Appends (seen rows_in self.now.scopes id.0.0) rows.old rows.new }
    {
        let BranchStmt { blocks } = typed::branch_stmt(self.scopes.image, id);
        for block in blocks.of(self.scopes.image) {
            self.collect_stmts(rows, block);
        }
    }

    #[cycle(stmts)]
    fn collect_match(&self, rows: &mut Rows, id: MatchStmtId)
        requires { seen Ready self.now.scopes (kind_of match_stmt_kind) id.0.0 rows.old.count }
        ensures { Appends (seen rows_in self.now.scopes id.0.0) rows.old rows.new }
    {
        let MatchStmt { term, cases } = typed::match_stmt(self.scopes.image, id);
        self.collect_term(rows, term);
        for case in cases.of(self.scopes.image) {
            self.collect_match_case(rows, case);
        }
    }

    #[cycle(stmts)]
    fn collect_match_case(&self, rows: &mut Rows, case: MatchCaseId)
        requires { seen Ready self.now.scopes (kind_of match_case_kind) case.0.0 rows.old.count }
        ensures { Appends (seen rows_in self.now.scopes case.0.0) rows.old rows.new }
    {
        let MatchCase { pattern, body } = typed::match_case(self.scopes.image, case);
        self.collect_term(rows, pattern);
        self.collect_stmts(rows, body);
    }

    // Atoms, and below types and predicates: an arm for each case, as in the Rust; two enums share no arm but by its text.
    fn collect_if_atom(&self, rows: &mut Rows, atom: IfAtomId)
        requires { seen Ready self.now.scopes (kind_of if_atom_kind) atom.0.0 rows.old.count }
        ensures { Appends (seen rows_in self.now.scopes atom.0.0) rows.old rows.new }
    {
        match typed::if_atom(self.scopes.image, atom) {
            IfAtom::Equal(id) => {
                let EqualAtom { lhs, rhs } = typed::equal_atom(self.scopes.image, id);
                self.collect_term(rows, lhs);
                self.collect_term(rows, rhs);
            }
            IfAtom::Defined(id) => {
                let DefinedIfAtom { term } = typed::defined_if_atom(self.scopes.image, id);
                self.collect_term(rows, term);
            }
            IfAtom::Pred(id) => {
                let PredAtom { pred, args } = typed::pred_atom(self.scopes.image, id);
                self.collect_pred_expr(rows, pred);
                self.collect_term_list(rows, args);
            }
            IfAtom::Var(id) => {
                let VarIfAtom { term, typ } = typed::var_if_atom(self.scopes.image, id);
                self.collect_type_expr(rows, typ);
                self.collect_term(rows, term);
            }
        }
    }

    fn collect_then_atom(&self, rows: &mut Rows, atom: ThenAtomId)
        requires { seen Ready self.now.scopes (kind_of then_atom_kind) atom.0.0 rows.old.count }
        ensures { Appends (seen rows_in self.now.scopes atom.0.0) rows.old rows.new }
    {
        match typed::then_atom(self.scopes.image, atom) {
            ThenAtom::Equal(id) => {
                let EqualAtom { lhs, rhs } = typed::equal_atom(self.scopes.image, id);
                self.collect_term(rows, lhs);
                self.collect_term(rows, rhs);
            }
            ThenAtom::Defined(id) => {
                let DefinedThenAtom { var, term } = typed::defined_then_atom(self.scopes.image, id);
                if let Some(var) = var {
                    self.collect_term(rows, var);
                }
                self.collect_term(rows, term);
            }
            ThenAtom::Pred(id) => {
                let PredAtom { pred, args } = typed::pred_atom(self.scopes.image, id);
                self.collect_pred_expr(rows, pred);
                self.collect_term_list(rows, args);
            }
        }
    }

    #[cycle(terms)]
    fn collect_term(&self, rows: &mut Rows, term: TermId)
        requires { seen Ready self.now.scopes (kind_of term_kind) term.0.0 rows.old.count }
        ensures { Appends (seen rows_in self.now.scopes term.0.0) rows.old rows.new }
    {
        match typed::term(self.scopes.image, term) {
            Term::Ident(id) => self.collect_ident(rows, term.0, id),
            Term::Wildcard => {}
            Term::App(id) => {
                let AppTerm { head, args } = typed::app_term(self.scopes.image, id);
                self.collect_app_head(rows, head);
                self.collect_term_list(rows, args);
            }
            Term::Member(id) => {
                let TermMember { term, .. } = typed::term_member(self.scopes.image, id);
                self.collect_term(rows, term);
            }
            // in one arm, because a nest of all three is then walked without a wrong guess
            Term::Dom(_) | Term::Cod(_) | Term::Id(_) => {
                let arg = typed::argument(self.scopes.image, term);
                self.collect_term(rows, arg);
            }
            Term::Comp(id) => {
                let CompTerm { first, second } = typed::comp_term(self.scopes.image, id);
                self.collect_term(rows, first);
                self.collect_term(rows, second);
            }
        }
    }

    // An ident directly under a Term or AppHead: a row if it is a Var.
    fn collect_ident(&self, rows: &mut Rows, node: NodeId, id: IdentTermId)
        requires { Room (seen ident_rows self.now.scopes node.0 id.0.0) rows.old.count × Asks self.now.scopes.image.now node.0 id.0.0 }
        ensures { Appends (seen ident_rows self.now.scopes node.0 id.0.0) rows.old rows.new }
    {
        let found = self.scopes.at_exit(node, id.0);
        let Some(binding) = found else {
            return;
        };
        if table::is_var(self.scopes.image, found) {
            rows.put(node.0, binding.node.0);
        }
    }

    #[cycle(terms)]
    fn collect_app_head(&self, rows: &mut Rows, head: AppHeadId)
        requires { seen Ready self.now.scopes (kind_of app_head_kind) head.0.0 rows.old.count }
        ensures { Appends (seen rows_in self.now.scopes head.0.0) rows.old rows.new }
    {
        match typed::app_head(self.scopes.image, head) {
            AppHead::Ident(id) => self.collect_ident(rows, head.0, id),
            AppHead::Member(id) => {
                let AppHeadMember { receiver, .. } = typed::app_head_member(self.scopes.image, id);
                self.collect_term(rows, receiver);
            }
            AppHead::Term(term) => self.collect_term(rows, term),
        }
    }

    #[cycle(terms)]
    fn collect_term_list(&self, rows: &mut Rows, list: TermListId)
        requires { seen Ready self.now.scopes (kind_of term_list_kind) list.0.0 rows.old.count }
        ensures { Appends (seen rows_in self.now.scopes list.0.0) rows.old rows.new }
    {
        let TermList { terms } = typed::term_list(self.scopes.image, list);
        for term in terms.of(self.scopes.image) {
            self.collect_term(rows, term);
        }
    }

    fn collect_type_expr(&self, rows: &mut Rows, typ: TypeExprId)
        requires { seen Ready self.now.scopes (kind_of type_expr_kind) typ.0.0 rows.old.count }
        ensures { Appends (seen rows_in self.now.scopes typ.0.0) rows.old rows.new }
    {
        match typed::type_expr(self.scopes.image, typ) {
            TypeExpr::Ambient(_) | TypeExpr::Mor(_) => {}
            TypeExpr::Member(id) => {
                let TermMember { term, .. } = typed::term_member(self.scopes.image, id);
                self.collect_term(rows, term);
            }
        }
    }

    fn collect_pred_expr(&self, rows: &mut Rows, pred: PredExprId)
        requires { seen Ready self.now.scopes (kind_of pred_expr_kind) pred.0.0 rows.old.count }
        ensures { Appends (seen rows_in self.now.scopes pred.0.0) rows.old rows.new }
    {
        match typed::pred_expr(self.scopes.image, pred) {
            PredExpr::Ambient(_) => {}
            PredExpr::Member(id) => {
                let TermMember { term, .. } = typed::term_member(self.scopes.image, id);
                self.collect_term(rows, term);
            }
        }
    }
}

// The binding of each row counted. A loop here and in `clear_bindings`: a closure for the one call is no shorter.
fn count_bindings(rows: Written, times: &mut [Times; NODES])
    ensures { counts times.new ≡ claim_all (rights (shown rows.entry)) (counts times.old) }
{
    for (_, binding) in rows.pairs() {
        count_binding(times, binding as usize);
    }
}

// The binding counted once more.
fn count_binding(times: &mut [Times; NODES], binding: usize)
    ensures { counts times.new ≡ set (counts times.old) binding (bump (get_or (counts times.old) binding 0)) }
{
    if binding < times.len() {
        times[binding] = times[binding].more();
    }
}

// No binding of a row counted any more.
fn clear_bindings(rows: Written, times: &mut [Times; NODES])
    ensures { counts times.new ≡ uncounted (rights (shown rows.entry)) (counts times.old) }
{
    for (_, binding) in rows.pairs() {
        clear_binding(times, binding as usize);
    }
}

// The binding not counted any more.
fn clear_binding(times: &mut [Times; NODES], binding: usize)
    ensures { counts times.new ≡ set (counts times.old) binding 0 }
{
    if binding < times.len() {
        times[binding] = Times::Never;
    }
}

// Whether the binding is counted under two times.
fn is_lone(times: &[Times; NODES], binding: usize) -> bool
    ensures { result ≡ ltb (get_or (counts times.now) binding 0) 2 }
{
    times.len() <= binding || times[binding] != Times::Several
}

// The first row whose binding is counted under two times.
fn first_lone(rows: Written, times: &[Times; NODES]) -> Result<(), Lone>
    ensures { lone_of result ≡ under (counts times.now) (shown rows.entry) }
{
    match rows
        .pairs()
        .find(|&(_, binding)| is_lone(times, binding as usize))
    {
        Some((node, binding)) => Err(Lone {
            node: NodeId(node),
            binding: NodeId(binding),
        }),
        None => Ok(()),
    }
}

// Occurrences: resolves, then lists every variable occurrence with its binding. It begins as Once and Errors do: a function of
// what the three share would lend the words on in `Scopes`, and no clause could say what is in them where a name is declared twice.
pub fn occurrences(image: &[u8], table: &mut [u32], rows: &mut [u32]) -> Result<u32, Unresolved>
    ensures { OccurrencesSpec.occurrences image.now table.old rows.old ≡ record { answer = rowed_answer result; table = table.new; rows = rows.new } }
{
    scopes::test_rows(image, table, rows)?;
    let mut env = Environment::new();
    let Resolved { scopes, symbols } = scopes::resolve_into(image, table, &mut env)?;
    let env = &env;
    let scopes = Scopes {
        image,
        table,
        env,
        scopes,
        symbols,
    };
    let checker = OccurrencesChecker { scopes };
    Ok(checker.write_rows(rows))
}

impl<'a> OccurrencesChecker<'a> {
    // The rows of all rules in the lent words: a count, then two arrays of N words, unused places 0.
    fn write_rows(&self, words: &mut [u32]) -> u32
        requires { rows_length (ImageSpec.nodes self.now.scopes.image.now) ≤ length words.old }
        ensures { Wrote (ImageSpec.nodes self.now.scopes.image.now) (seen occurrence_rows self.now.scopes) words.old result words.new }
    {
        let mut rows = Rows::begin(words, ast::node_count(self.scopes.image));
        self.collect_module(&mut rows);
        rows.finish()
    }

    // The rows of all rules, in the list's order.
    fn collect_module(&self, rows: &mut Rows)
        requires { rows.old.count ≡ 0 }
        ensures { Appends (seen occurrence_rows self.now.scopes) rows.old rows.new }
    {
        let module = ModuleId(NodeId(ast::node_count(self.scopes.image) - 1));
        let Module { decls } = typed::module(self.scopes.image, module);
        self.collect_decls(rows, decls);
    }

    // Not one with check_decls: a trait for what is done at a rule was tried; its two predicates and five laws are longer.
    #[cycle(decls)]
    fn collect_decls(&self, rows: &mut Rows, decls: Ids<DeclId>)
        requires { seen ListingAll self.now.scopes decls.list rows.old.count }
        ensures { Appends (joined (seen lists_of self.now.scopes decls.list)) rows.old rows.new }
    {
        for decl in decls.of(self.scopes.image) {
            self.collect_decl(rows, decl);
        }
    }

    #[cycle(decls)]
    fn collect_decl(&self, rows: &mut Rows, decl: DeclId)
        requires { seen Listing self.now.scopes (kind_of decl_kind) decl.0.0 rows.old.count }
        ensures { Appends (joined (seen lists_in self.now.scopes decl.0.0)) rows.old rows.new }
    {
        match typed::decl(self.scopes.image, decl) {
            Decl::Type(_) | Decl::Pred(_) | Decl::Func(_) | Decl::Const(_) | Decl::Enum(_) => {}
            Decl::Rule(id) => {
                let RuleDecl { body, .. } = typed::rule_decl(self.scopes.image, id);
                self.collect_stmts(rows, body);
            }
            Decl::Model(id) => {
                let ModelDecl { body, .. } = typed::model_decl(self.scopes.image, id);
                self.collect_decls(rows, body);
            }
        }
    }
}
