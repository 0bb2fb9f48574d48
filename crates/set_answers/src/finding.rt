use set_check::Finding;
use std::marker::Model;
use std::vec::IntoIter;

/// What was found out about places that are still to come, in their order.
#[derive(Drop)]
pub(crate) struct Findings<'a> {
    rest: IntoIter<Finding<'a>>,
}

impl<'a> Model for Findings<'a> {
    ghost use Rattle.std.specs.Prelude.{List};
    ghost use Rattle.std.specs.Vec.Iter.{into_iter_items};
    ghost use Rattle.set_check.specs.declared.finding.Finding.{Finding};
    ghost use Rattle.guide_tree.specs.contracts.node.Node as node;
    ghost use Rattle.std.specs.Coded.{codes};

    ghost Value = { List Finding };

    ghost coded = { Prim.hlevel (codes, node.the_row.coded) };

    ghost view = { λ f. into_iter_items f.rest };
}

impl<'a> Findings<'a> {
    ghost use Rattle.std.specs.Prelude.{◌≡◌, ◌≤◌, ◌<◌, ◌^◌, ◌∷◌, List, drop, length};
    ghost use Rattle.set_check.specs.declared.finding.Finding.{Finding};

    pub(crate) fn new(list: Vec<Finding<'a>>) -> Findings<'a>
        ensures { result ≡ list.entry.items }
    {
        Findings {
            rest: list.into_iter(),
        }
    }

    /// The next one.
    pub(crate) fn take(&mut self) -> Finding<'a>
        requires { (first : Finding) × (more : List Finding) × (self.old ≡ first ∷ more) }
        ensures first { self.old ≡ result ∷ self.new }
        ensures few { length self.new < 2 ^ 64 }
    {
        match self.rest.next() {
            Some(finding) => finding,
            None => unreachable!(),
        }
    }

    /// Passes over the next `count`.
    pub(crate) fn pass(&mut self, count: usize)
        requires { count ≤ length self.old }
        ensures { self.new ≡ drop count self.old }
    {
        for _ in 0..count {
            self.take();
        }
    }
}
