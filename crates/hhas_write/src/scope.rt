//! What the numbers within a body stand for.

ghost use Rattle.std.specs.Prelude.{◌≡◌, ◌≤◌, IfOk, length};
ghost use Rattle.type_lattice.specs.TypeText.{class_name};
ghost use Rattle.hhbc_repo.specs.Canonical.{firsts, how_many, label_at, lasts, local_name, mids};

use crate::tables::{firsts, labels, lasts, mids, tally};
use hack_values::{NoMemory, Seq, Text};
use hhbc_repo::{Body, Position};
use std::alloc::Global;
use std::marker::Model;

/// A body, the names of all classes, the numbers of its labels, and how many catch bodies end, catch
/// bodies begin and try bodies begin at each position.
#[derive(Drop)]
pub(crate) struct Scope<'a> {
    classes: &'a [Text],
    body: &'a Body,
    labels: Seq<Option<usize>>,
    ends: Vec<usize>,
    catches: Vec<usize>,
    tries: Vec<usize>,
}

impl<'a> Model for Scope<'a> {
    ghost use Rattle.std.specs.Prelude.{suc, length};
    ghost use Rattle.std.specs.Coded.{codes};
    ghost use Rattle.hack_values.specs.Code.{coded_val, coded_key};
    ghost use Rattle.hhas_write.specs.Scope.{Within};
    ghost use Rattle.hhas_write.specs.Tables.{Labels, Tallied};
    ghost use Rattle.hhbc_repo.specs.Canonical.{firsts, lasts, mids};

    ghost Value = { Within };

    ghost coded = { Prim.hlevel (codes, coded_val, coded_key) };

    ghost view = { λ s. record { classes = s.classes.now; body = s.body.now } };

    ghost invariant = { λ s. Labels s.body.now.positions s.labels × (Tallied (suc (length s.body.now.positions)) (lasts s.body.now.regions) s.ends.items × (Tallied (suc (length s.body.now.positions)) (mids s.body.now.regions) s.catches.items × Tallied (suc (length s.body.now.positions)) (firsts s.body.now.regions) s.tries.items)) };
}

impl<'a> Scope<'a> {
    pub(crate) fn new(
        alloc: Global,
        classes: &'a [Text],
        body: &'a Body,
    ) -> Result<Scope<'a>, NoMemory>
        ensures { IfOk result (λ s. s ≡ record { classes = classes.now; body = body.now }) }
    {
        let positions = body.positions.as_slice();
        let regions = body.regions.as_slice();
        let size = positions.len() + 1;
        let labels = labels(alloc, positions)?;
        let lasts = lasts(alloc, regions)?;
        let mids = mids(alloc, regions)?;
        let firsts = firsts(alloc, regions)?;
        let ends = tally(alloc, size, lasts.as_slice())?;
        let catches = tally(alloc, size, mids.as_slice())?;
        let tries = tally(alloc, size, firsts.as_slice())?;
        Ok(Scope {
            classes,
            body,
            labels,
            ends,
            catches,
            tries,
        })
    }

    /// The names of all classes.
    pub(crate) fn classes(&self) -> &[Text]
        ensures { result.now ≡ self.now.classes }
    {
        self.classes
    }

    /// The positions of the body.
    pub(crate) fn positions(&self) -> &[Position]
        ensures { result.now ≡ self.now.body.positions }
    {
        self.body.positions.as_slice()
    }

    /// The name of a class.
    pub(crate) fn class(&self, class: u32) -> &[u8]
        ensures { result.now ≡ class_name self.now.classes class }
    {
        match self.classes.get(class as usize) {
            Some(name) => name.bytes(),
            None => b"",
        }
    }

    /// The name of a local.
    pub(crate) fn local(&self, local: u8) -> &[u8]
        ensures { result.now ≡ local_name self.now.body local }
    {
        match self.body.locals.as_slice().get(local as usize) {
            Some(name) => name.bytes(),
            None => b"",
        }
    }

    /// The number of the label at a position.
    pub(crate) fn label(&self, position: usize) -> Option<usize>
        ensures { result ≡ label_at self.now.body.positions position }
    {
        match self.labels.as_slice().get(position) {
            Some(label) => *label,
            None => None,
        }
    }

    /// How many catch bodies end before a position.
    pub(crate) fn ends(&self, position: usize) -> usize
        requires { position ≤ length self.now.body.positions }
        ensures { result ≡ how_many position (lasts self.now.body.regions) }
    {
        self.ends[position]
    }

    /// How many catch bodies begin at a position.
    pub(crate) fn catches(&self, position: usize) -> usize
        requires { position ≤ length self.now.body.positions }
        ensures { result ≡ how_many position (mids self.now.body.regions) }
    {
        self.catches[position]
    }

    /// How many try bodies begin at a position.
    pub(crate) fn tries(&self, position: usize) -> usize
        requires { position ≤ length self.now.body.positions }
        ensures { result ≡ how_many position (firsts self.now.body.regions) }
    {
        self.tries[position]
    }
}
