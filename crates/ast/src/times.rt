// How often something stands: a node as a child, a binding in the rows of a rule.
#![tactic(auto)]

ghost use Rattle.std.specs.Prelude.{◌≡◌};
ghost use Rattle.ast.specs.Promises.{bump};
ghost use Rattle.ast.specs.Times.{times_number};

// Not at all, once, or several times.
#[derive(Clone, Copy, PartialEq, Eq)]
pub enum Times {
    Never,
    Once,
    Several,
}

impl Times {
    // One time more.
    pub fn more(self) -> Times
        ensures { times_number result ≡ bump (times_number self) }
    {
        match self {
            Times::Never => Times::Once,
            Times::Once | Times::Several => Times::Several,
        }
    }
}
