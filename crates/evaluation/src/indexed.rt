// A record whose index is that of its edges, lent: what evaluation reads of it.

ghost use Rattle.std.specs.Prelude.{◌≡◌, ◌≤◌, ◌<◌};
ghost use Rattle.common.specs.Limits.{most_formulas};
ghost use Rattle.common.specs.Lists.{at};
ghost use Rattle.vertices.specs.Passes.{edges_along, OfLabel};
ghost use Rattle.formula.specs.Formula.{formulas_of};
ghost use Rattle.formula.specs.Uses.{reads_slot};
ghost use Rattle.formula.specs.Evaluation.{turned_by, PlaceBelow};

use formula::{ContextNumbers, Line};
use policy::Record;
use std::marker::Model;
use vertices::Place;
use vertices::pass::{Direction, Pass};

// The record, lent.
#[derive(Drop)]
pub struct IndexedRecord<'a> {
    pub columns: &'a Record,
}

impl<'a> Model for IndexedRecord<'a> {
    ghost use Rattle.policy.specs.declared.Record.{Record};
    ghost use Rattle.formula.specs.Requests.{IsIndexed};

    ghost Value = { Record };

    ghost view = { λ rules. rules.columns.now };

    ghost invariant = { λ rules. IsIndexed rules.columns.now };
}

impl<'a> IndexedRecord<'a> {
    // The line of formula f.
    pub(crate) fn line_of(&self, f: usize) -> Line
        requires { f < most_formulas }
        ensures op { result.op ≡ at self.now.formula_ops f }
        ensures left { result.left ≡ at self.now.formula_lefts f }
        ensures right { result.right ≡ at self.now.formula_rights f }
    {
        formula::line_of(self.columns, f)
    }

    // Where formula f is true, if it is below n; nowhere if it is not; nothing of one below n that has parts.
    pub(crate) fn place_below(&self, q: ContextNumbers, n: usize, f: usize) -> Option<Place>
        requires { n ≤ most_formulas }
        ensures { PlaceBelow self.now q n f result }
    {
        formula::place_below(self.columns, q, n, f)
    }

    // Formula f, if it is below n, reads what slot a holds where f is evaluated.
    pub(crate) fn reads_slot(&self, n: usize, f: u8, a: u8) -> bool
        requires { n ≤ most_formulas }
        ensures { result ≡ reads_slot (formulas_of self.now) n f a }
    {
        formula::reads_slot(self.columns, n, f, a)
    }

    // The edges with a label, as a step in the direction goes along them.
    pub(crate) fn edges_with(&self, label: u8, direction: Direction) -> Pass<'a>
        ensures edges { edges_along result ≡ turned_by direction self.now }
        ensures label { result.label ≡ label }
        ensures positions { OfLabel result }
    {
        let rules = self.columns;
        let sides = match direction {
            Direction::Forward => (&rules.edge_sources, &rules.edge_targets),
            Direction::Backward => (&rules.edge_targets, &rules.edge_sources),
        };
        let span = rules.index.positions_of(label);
        Pass {
            edge_count: rules.edge_count,
            labels: &rules.edge_labels,
            starts: sides.0,
            ends: sides.1,
            places: &rules.index.places,
            direction,
            label,
            first: span.first,
            stop: span.stop,
        }
    }
}
