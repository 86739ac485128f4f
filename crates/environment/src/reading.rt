// What the checks ask of a resolved image. Apart from the struct, whose ghost field may not lead to its own definitions.
ghost use Rattle.std.specs.Prelude.{◌≡◌, ◌<◌};
ghost use Rattle.ast.specs.Image as ImageSpec;
ghost use Rattle.table.specs.Table as TableSpec;
ghost use Rattle.table.specs.Values.{found_of};
ghost use Rattle.environment.specs.Layout.{names_most, standing};
ghost use Rattle.environment.specs.Asked.{Asks};
ghost use Rattle.environment.specs.Reading.{seen};
ghost use Rattle.environment.specs.Stands.{told};

use crate::{Scopes, Standing, found};
use ast::NodeId;
use table::{Found, ScopeId};

impl<'a> Scopes<'a> {
    // What the name of an IdentTerm is at a node's entry, and at its exit, where it is asked for there. Two methods: which end it is
    // would be a switch handed over. Inlined, all three: the checks look at the node alone, and a call would read the scope for nothing.
    #[inline(always)]
    pub fn at_entry(&self, node: NodeId, ident: NodeId) -> Option<Found>
        requires { Asks self.now.image.now node.0 ident.0 }
        ensures { found_of result ≡ seen TableSpec.found_entry self.now node.0 ident.0 }
    {
        let scope = table::entry_of(self.image, self.table, node);
        self.found_at(scope, self.env.entry(node), ident)
    }

    #[inline(always)]
    pub fn at_exit(&self, node: NodeId, ident: NodeId) -> Option<Found>
        requires { Asks self.now.image.now node.0 ident.0 }
        ensures { found_of result ≡ seen TableSpec.found_exit self.now node.0 ident.0 }
    {
        let scope = table::exit_of(self.image, self.table, node);
        self.found_at(scope, self.env.exit(node), ident)
    }

    // The symbol that was noted; at the module's own scope, where nothing is noted, the one that the name stands for.
    #[inline(always)]
    fn found_at(&self, scope: ScopeId, noted: Standing, ident: NodeId) -> Option<Found>
        requires { ImageSpec.name_of self.now.image.now ident.0 < names_most }
        ensures module { (scope.0 ≡ 0) → (found_of result ≡ told self.now.image.now self.now.table.now (standing self.now.env.now (ImageSpec.name_of self.now.image.now ident.0))) }
        ensures below { (0 < scope.0) → (found_of result ≡ told self.now.image.now self.now.table.now noted) }
    {
        if scope == ScopeId(0) {
            let name = ast::name_of(self.image, ident);
            return found(self.image, self.table, self.env.stands(name));
        }
        found(self.image, self.table, noted)
    }
}
