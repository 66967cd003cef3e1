// The edges of a record, lent. What an index needs of them is known of each value of this type, so that no function asks for it.

ghost use Rattle.std.specs.Prelude.{◌≡◌, ◌↔◌, true, ◌+◌, ◌<◌};
ghost use Rattle.common.specs.Limits.{most_edges};
ghost use Rattle.common.specs.Lists.{at};
ghost use Rattle.rows.specs.Checks.{edge_key};
ghost use Rattle.edge_index.specs.Index.{first_among, backward_key};

use common::MOST_EDGES;
use std::marker::Model;

// So many edges, in columns: labels below 16, and rising by label, from, to.
#[derive(Drop)]
pub struct Edges<'a> {
    pub count: usize,
    pub labels: &'a [u8; MOST_EDGES],
    pub sources: &'a [u8; MOST_EDGES],
    pub targets: &'a [u8; MOST_EDGES],
}

impl<'a> Model for Edges<'a> {
    ghost use Rattle.edge_index.specs.Index.{EdgesRise};
    ghost use Rattle.edge_index.specs.Columns.{EdgeColumns};

    ghost Value = { EdgeColumns };

    ghost view = { λ e. record { count = e.count; labels = e.labels.now; sources = e.sources.now; targets = e.targets.now } };

    ghost invariant = { λ e. EdgesRise e.count e.labels.now e.sources.now e.targets.now };
}

impl Edges<'_> {
    // The key of the edge at a place by label, from, to: by it the edges rise.
    pub fn key(&self, place: usize) -> u32
        requires { place < most_edges }
        ensures { result ≡ edge_key (at self.now.labels place) (at self.now.sources place) (at self.now.targets place) }
    {
        rows::edge_key(self.labels[place], self.sources[place], self.targets[place])
    }

    // The key of the edge at a place by label, then to, then from.
    pub(crate) fn backward_key(&self, place: usize) -> u32
        requires { place < most_edges }
        ensures { result ≡ backward_key self.now.labels self.now.sources self.now.targets place }
    {
        rows::edge_key(self.labels[place], self.targets[place], self.sources[place])
    }

    // Whether the edges with labels up to this one end here. Labels rise, so that those beside the end tell.
    pub(crate) fn ends_at(&self, label: u8, end: usize) -> bool
        ensures { result ≡ true ↔ end ≡ first_among self.now.count self.now.labels (label + 1) }
    {
        if self.count < end {
            return false;
        }
        if 0 < end && label < self.labels[end - 1] {
            return false;
        }
        self.count == end || label < self.labels[end]
    }
}
