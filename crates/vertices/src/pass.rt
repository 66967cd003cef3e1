// Steps along edges: where the edges with a label lead from the vertices of a set, and from which of them one leads to another set. A step
// passes over the edges of its own label only, forward in the edges' own order and backward in the index's. From a single vertex it passes
// over those that start there, which stand together and are found by halving.

ghost use Rattle.std.specs.Prelude.{◌≡◌, Bool, List, ℕ, ◌≤◌, ◌<◌, eqb};
ghost use Rattle.common.specs.Limits.{most_edges};
ghost use Rattle.edge_index.specs.Spans.{place_at};
ghost use Rattle.vertices.specs.Steps.{is_in, Among, leads, edges_in};
ghost use Rattle.vertices.specs.Places.{placed, OnlyEnd};
ghost use Rattle.vertices.specs.Directions.{is_backward};
ghost use Rattle.vertices.specs.Passes.{PositionsOf, OwnEdges, EndFrom};

use crate::{Place, Vertices, none};
use common::MOST_EDGES;
use std::marker::Model;

// The way of a step along edges: from where they start to where they end, or back.
#[derive(Clone, Copy)]
pub enum Direction {
    Forward,
    Backward,
}

// Edges in lent columns that a step may pass over: those at the positions from `first` to before `stop`, from `starts` to `ends`;
// backward in the order of `places`. Evaluation makes one of the edges with a label (`OfLabel`): their number, their labels and the label
// are what these positions are known by. No step reads them: it promises its result for any label whose positions these are.
#[derive(Drop)]
pub struct Pass<'a> {
    pub edge_count: usize,
    pub labels: &'a [u8; MOST_EDGES],
    pub starts: &'a [u8; MOST_EDGES],
    pub ends: &'a [u8; MOST_EDGES],
    pub places: &'a [u16; MOST_EDGES],
    pub direction: Direction,
    pub label: u8,
    pub first: usize,
    pub stop: usize,
}

impl<'a> Model for Pass<'a> {
    ghost use Rattle.edge_index.specs.Spans.{Passable};
    ghost use Rattle.vertices.specs.Passes.{Passed};
    ghost use Rattle.vertices.specs.Directions.{is_backward};

    ghost Value = { Passed };

    ghost view = { λ p. record {
      edge_count = p.edge_count;
      labels = p.labels.now;
      starts = p.starts.now;
      ends = p.ends.now;
      places = p.places.now;
      backward = is_backward p.direction;
      label = p.label;
      first = p.first;
      stop = p.stop;
    } };

    ghost invariant = { λ p. Passable p.starts.now p.places.now (is_backward p.direction) p.first p.stop };
}

// Where the edges with a label end that start at a vertex: nowhere, once at a vertex, or there are several.
#[derive(Clone, Copy)]
pub enum Ends {
    Nowhere,
    Once(u8),
    Several,
}

// The place of the edge at position p of the order that a pass goes by.
fn edge_at(direction: Direction, places: &[u16; MOST_EDGES], p: usize) -> usize
    requires low { p < most_edges }
    requires placed { place_at (is_backward direction) places.now p < most_edges }
    ensures place { result ≡ place_at (is_backward direction) places.now p }
    ensures few { result < most_edges }
{
    match direction {
        Direction::Forward => p,
        Direction::Backward => usize::from(places[p]),
    }
}

impl<'a> Pass<'a> {
    // The first position whose edge starts at x or a later vertex, or `stop`: found by halving, since the starts do not fall. By hand:
    // `partition_point` searches a slice, and backward the starts are in order only by way of `places`, so that each direction would need
    // a search of its own, and the backward one a test of every place.
    pub fn first_from(&self, x: u8) -> usize
        ensures { OwnEdges self.now x result }
    {
        let mut low = self.first;
        let mut high = self.stop;
        while low < high {
            let middle = low + (high - low) / 2;
            let k = edge_at(self.direction, self.places, middle);
            if self.starts[k] < x {
                low = middle + 1;
            } else {
                high = middle;
            }
        }
        low
    }

    // The vertices to which an edge with the label leads from an asked one: each edge is looked at.
    pub fn reached_from(&self, asked: &Vertices) -> Vertices
        ensures { (n : ℕ) (labels : List ℕ) (l : ℕ) → PositionsOf self.now n labels l
            → (v : ℕ) → is_in result v ≡ leads (edges_in n labels self.now.starts self.now.ends) 2 1 l (is_in asked.now) v }
    {
        let mut r = none();
        for p in self.first..self.stop {
            let k = edge_at(self.direction, self.places, p);
            if asked[usize::from(self.starts[k])] {
                r[usize::from(self.ends[k])] = true;
            }
        }
        r
    }

    // The vertices to which an edge with the label leads from x.
    pub fn reached_from_one(&self, x: u8) -> Vertices
        ensures { (n : ℕ) (labels : List ℕ) (l : ℕ) → PositionsOf self.now n labels l
            → (v : ℕ) → is_in result v ≡ leads (edges_in n labels self.now.starts self.now.ends) 2 1 l (λ u. eqb u x) v }
    {
        let mut r = none();
        for p in self.first_from(x)..self.stop {
            let k = edge_at(self.direction, self.places, p);
            if self.starts[k] != x {
                return r;
            }
            r[usize::from(self.ends[k])] = true;
        }
        r
    }

    // An edge with the label leads from x to that place.
    pub fn leads_to(&self, x: u8, place: Place) -> bool
        ensures { (n : ℕ) (labels : List ℕ) (l : ℕ) → PositionsOf self.now n labels l
            → result ≡ leads (edges_in n labels self.now.starts self.now.ends) 1 2 l (placed place) x }
    {
        for p in self.first_from(x)..self.stop {
            let k = edge_at(self.direction, self.places, p);
            if self.starts[k] != x {
                return false;
            }
            if place.has(self.ends[k]) {
                return true;
            }
        }
        false
    }

    // Where the edge at position p ends, if it is one of the pass and starts at x.
    fn end_from(&self, x: u8, p: usize) -> Option<u8>
        requires { self.now.first ≤ p }
        ensures { EndFrom self.now x p result }
    {
        if self.stop <= p {
            return None;
        }
        let k = edge_at(self.direction, self.places, p);
        if self.starts[k] == x {
            Some(self.ends[k])
        } else {
            None
        }
    }

    // Where the only edge with the label ends that starts at x, if there is one. That there are several nobody relies upon: it promises
    // nothing.
    pub fn only_end(&self, x: u8) -> Ends
        ensures { (n : ℕ) (labels : List ℕ) (l : ℕ) → PositionsOf self.now n labels l
            → OnlyEnd (edges_in n labels self.now.starts self.now.ends) l x result }
    {
        let own = self.first_from(x);
        let Some(end) = self.end_from(x, own) else {
            return Ends::Nowhere;
        };
        match self.end_from(x, own + 1) {
            None => Ends::Once(end),
            Some(_) => Ends::Several,
        }
    }

    // Of the asked vertices those from which an edge with the label leads to where P holds, which `found` says of every octet: each edge is
    // looked at. A table and not a closure: measured, a call for every edge makes a step on sets up to twice as slow.
    pub fn starts_to(&self, asked: &Vertices, found: &Vertices) -> Vertices
        ensures { (n : ℕ) (labels : List ℕ) (l : ℕ) → PositionsOf self.now n labels l
            → (P : ℕ → Bool) → ((v : ℕ) → v < 256 → is_in found.now v ≡ P v)
            → Among asked.now (leads (edges_in n labels self.now.starts self.now.ends) 1 2 l P) result }
    {
        let mut r = none();
        for p in self.first..self.stop {
            let k = edge_at(self.direction, self.places, p);
            let x = usize::from(self.starts[k]);
            if asked[x] & found[usize::from(self.ends[k])] {
                r[x] = true;
            }
        }
        r
    }
}
