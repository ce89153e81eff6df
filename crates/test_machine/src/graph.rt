//! A graph of places with two moves each.

ghost use Rattle.std.specs.Prelude.{◌≡◌};
ghost use Rattle.test_machine.specs.Graph.{Edge, edge_of, move_of};

use cx_search::Space;
use std::alloc::AllocError;

/// Where the moves 0 and 1 from a place lead; None where one can't be made.
#[derive(Clone, Copy)]
pub struct Row {
    pub zero: Option<usize>,
    pub one: Option<usize>,
}

/// A graph: a row for each place, from 0 on.
#[derive(Drop)]
pub struct Graph {
    pub rows: Vec<Row>,
}

impl Row {
    /// Where a move leads.
    fn to(&self, number: usize) -> Option<usize>
        ensures { result ≡ move_of self.now number }
    {
        if number == 0 {
            self.zero
        } else if number == 1 {
            self.one
        } else {
            None
        }
    }
}

impl Graph {
    /// Where a move from a place leads.
    fn edge(&self, from: usize, number: usize) -> Option<usize>
        ensures { result ≡ edge_of self.now.rows.items from number }
    {
        let row = self.rows.get(from)?;
        row.to(number)
    }
}

impl Space for Graph {
    type State = usize;

    type Work = ();

    ghost goes = { λ graph from number to. Edge graph.rows.items from number to };

    #[tactic(auto, using(crate::proofs::GraphLemmas::edges_numbered))]
    fn count(&self, _from: &usize) -> usize {
        2
    }

    #[tactic(auto, using(crate::proofs::GraphLemmas::edges_lead))]
    fn go(&self, _work: &mut (), from: &usize, number: usize) -> Result<Option<usize>, AllocError> {
        Ok(self.edge(*from, number))
    }

    ghost use Rattle.std.proofs.lemmas.Bool.{eqb-true};

    ghost same = { eqb-true };
}
