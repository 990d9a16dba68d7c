//! The walk over the steps of a test.

use crate::changing::change;
use crate::large::take_many;
use crate::loading::go;
use crate::making::{kill, make};
use crate::steps::Step;
use crate::telling::tells;
use mesh_core::Mesh;
use mesh_model::NoMemory;
use std::alloc::Global;
use std::process::Abort;

/// How a walk goes.
#[derive(Clone, Copy)]
pub(crate) struct Walked {
    taken: usize,
    // The first step that came out otherwise, counted from 1.
    wrong: Option<usize>,
    // The calls that found no memory and were made again.
    refused: usize,
}

impl Walked {
    /// No step yet.
    pub(crate) fn new() -> Walked {
        Walked {
            taken: 0,
            wrong: None,
            refused: 0,
        }
    }

    /// Counts a step that came out as it is told, or didn't.
    pub(crate) fn note(&mut self, right: bool) {
        self.taken = self.taken.saturating_add(1);
        if !right && self.wrong.is_none() {
            self.wrong = Some(self.taken);
        }
    }

    /// Takes a step, and takes it once more where there was no memory, since a mesh is then as it was before.
    pub(crate) fn take(&mut self, mesh: &mut Mesh, alloc: Global, step: &Step) {
        match take(mesh, alloc, step) {
            Ok(right) => self.note(right),
            Err(NoMemory) => self.take_again(mesh, alloc, step),
        }
    }

    // Takes a step for which there was no memory.
    fn take_again(&mut self, mesh: &mut Mesh, alloc: Global, step: &Step) {
        self.refused = self.refused.saturating_add(1);
        match take(mesh, alloc, step) {
            Ok(right) => self.note(right),
            Err(NoMemory) => self.note(false),
        }
    }

    /// Stops the test where a step came out otherwise, or a call found no memory.
    pub(crate) fn confirm(&self, rt: &impl Abort) {
        if let Some(k) = self.wrong {
            assert!(rt; false, "step {k} came out otherwise");
        }
        let refused = self.refused;
        assert!(rt;
            refused == 0,
            "no memory at {refused} steps; taken again they came out as they are told"
        );
    }
}

// Takes a step. The answer is whether it came out as it is told.
fn take(mesh: &mut Mesh, alloc: Global, step: &Step) -> Result<bool, NoMemory> {
    match step {
        Step::Make(what) => make(mesh, what),
        Step::Kill(x) => kill(mesh, *x),
        Step::Change(what) => change(mesh, alloc, what),
        Step::Way(way) => go(mesh, alloc, way),
        Step::Tell(what) => tells(mesh, alloc, what),
        Step::Many(_) => Ok(false),
    }
}

// Takes a step, or many of one kind.
fn advance(walked: &mut Walked, mesh: &mut Mesh, alloc: Global, step: &Step) {
    match step {
        Step::Many(many) => take_many(walked, mesh, alloc, many),
        _ => walked.take(mesh, alloc, step),
    }
}

// Takes steps one after another.
fn take_all(mesh: &mut Mesh, alloc: Global, steps: &[Step]) -> Walked {
    let mut walked = Walked::new();
    for step in steps {
        advance(&mut walked, mesh, alloc, step);
    }
    walked
}

/// Takes the steps of a test on a new mesh.
pub(crate) fn walk(alloc: Global, steps: &[Step]) -> Walked {
    let mut mesh = Mesh::new(alloc);
    take_all(&mut mesh, alloc, steps)
}
