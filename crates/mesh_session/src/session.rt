//! The session.
ghost use Rattle.std.specs.Prelude.{◌≡◌, true, None, OnErr, OnOk, IfOk, length};
ghost use Rattle.mesh_model.specs.Declaring.{first_declaration_fault, with_all_declared};
ghost use Rattle.mesh_model.specs.Valid.{IsSound};
ghost use Rattle.mesh_session.specs.Operators.{op_row};
ghost use Rattle.mesh_session.specs.State.{fresh_state, first_state, IsSoundState, CyclesHoldIn, is_new};
ghost use Rattle.mesh_session.specs.Steps.{binding_of, newest, redone, step, undone, with_result};

use crate::history::{History, is_new};
use crate::reply::{Reply, unable};
use crate::stepping;
use mesh_core::Mesh;
use mesh_model::{Draft, LayerDecl, Shape};
use op_slots::{Command, Op, What};
use sequence::{NoMemory, Text};
use std::alloc::Global;
use std::marker::Model;

/// A complex under edit, with the complexes that undo and redo go to. Each is always valid and simple.
///
/// The complex is kept as a mesh: every disk, radial and loop cycle visits exactly its members, each once.
#[derive(Drop)]
pub struct Session {
    alloc: Global,
    pub(crate) mesh: Mesh,
    history: History,
}

impl Model for Session {
    ghost use Rattle.mesh_session.specs.State.{View, IsSoundSession, view_with};

    ghost Value = { View };

    ghost view = { λ s. view_with s.mesh s.history.bindings.bound s.history.undo.items s.history.redo.items };

    ghost invariant = { λ s.
        IsSoundSession (view_with s.mesh s.history.bindings.bound s.history.undo.items s.history.redo.items) };
}

impl Session {
    /// A fresh session: nothing is there, and nothing can be undone. Takes no memory.
    pub fn new(alloc: Global) -> Session
        ensures fresh { result.state ≡ fresh_state }
        ensures sound { IsSoundState result.state }
        ensures cycles { CyclesHoldIn result }
    {
        let session = Session {
            alloc,
            mesh: Mesh::new(alloc),
            history: History::new(alloc),
        };
        session.cycles_hold();
        session
    }

    /// Loads a complex into a fresh session, with further layers, declared one after another, in which each element
    /// has zeros. In time proportional to the complex. After `NoMemory` the session is fresh.
    pub fn load(&mut self, draft: &Draft, layers: &[LayerDecl]) -> Result<(), NoMemory>
        requires fresh { self.old.state ≡ fresh_state }
        requires sound { IsSound draft.now }
        requires layers { first_declaration_fault draft.now.layers layers.now ≡ None }
        ensures ok { OnOk result (self.new.state ≡ first_state (with_all_declared draft.now layers.now)) }
        ensures err { OnErr result (self.new.state ≡ fresh_state) }
        ensures sound { IsSoundState self.new.state }
        ensures cycles { CyclesHoldIn self.new }
    {
        let loaded = self.mesh.load(draft, layers);
        let _ = self.mesh.counters();
        self.cycles_hold();
        loaded
    }

    /// Runs one command, and binds what it gives back to its name, if it has one. After `Refused` and after
    /// `NoMemory` the state is as before. A command that can't be done so far, and one whose name is bound, are
    /// refused `BadValue`; `undo` and `redo` are refused `NothingToUndo` and `NothingToRedo` where there is nothing to go
    /// to, and give back no element.
    ///
    /// In time proportional to the complex, which undo keeps as a whole copy.
    pub fn step(&mut self, c: &Command) -> Result<Reply, NoMemory>
        ensures ok { IfOk result (λ reply. (reply, self.new.state) ≡ step self.old.state c.now) }
        ensures err { OnErr result (self.new.state ≡ self.old.state) }
        ensures sound { IsSoundState self.new.state }
        ensures cycles { CyclesHoldIn self.new }
    {
        let reply = self.take(c);
        self.cycles_hold();
        reply
    }

    // The same, without a word on cycles.
    fn take(&mut self, c: &Command) -> Result<Reply, NoMemory>
        ensures ok { IfOk result (λ reply. (reply, self.new.state) ≡ step self.old.state c.now) }
        ensures err { OnErr result (self.new.state ≡ self.old.state) }
    {
        if !is_new(&self.history.bindings, &c.bind) {
            return Ok(Reply::Refused(unable()));
        }
        match &c.what {
            What::Run(op) => self.run(op, &c.bind),
            What::Undo => self.undo(),
            What::Redo => self.redo(),
        }
    }

    // Runs an operator, and binds what it gives back to a name, if there is one.
    fn run(&mut self, op: &Op, name: &Option<Text>) -> Result<Reply, NoMemory>
        requires { is_new self.old.state.bindings name.now ≡ true }
        ensures ok { IfOk result (λ reply. (reply, self.new.state) ≡ with_result self.old.state (binding_of name.now)
            (op_row op.now self.old.state.bindings self.old.state.now)) }
        ensures err { OnErr result (self.new.state ≡ self.old.state) }
    {
        let reply = stepping::run(self.alloc, &mut self.mesh, &mut self.history, op, name)?;
        Ok(reply)
    }

    // Goes back to the complex before, and takes the binding away.
    fn undo(&mut self) -> Result<Reply, NoMemory>
        ensures ok { IfOk result (λ reply. (reply, self.new.state)
            ≡ undone self.old.state (newest self.old.state.undo)) }
        ensures err { OnErr result (self.new.state ≡ self.old.state) }
    {
        let reply = stepping::undo(self.alloc, &mut self.mesh, &mut self.history)?;
        Ok(reply)
    }

    // Goes on to the complex after, and gives the binding back.
    fn redo(&mut self) -> Result<Reply, NoMemory>
        ensures ok { IfOk result (λ reply. (reply, self.new.state)
            ≡ redone self.old.state (newest self.old.state.redo)) }
        ensures err { OnErr result (self.new.state ≡ self.old.state) }
    {
        let reply = stepping::redo(self.alloc, &mut self.mesh, &mut self.history)?;
        Ok(reply)
    }

    /// The mesh, which stands for the complex now, and whose way back leads to it.
    pub fn mesh(&self) -> &Mesh
        ensures mesh { result.now ≡ self.now.mesh }
        ensures cycles { CyclesHoldIn self.now }
    {
        self.cycles_hold();
        &self.mesh
    }

    /// Does nothing. Every disk, radial and loop cycle visits exactly its members, each once.
    pub fn cycles_hold(&self)
        ensures cycles { CyclesHoldIn self.now }
        ensures sound { IsSoundState self.now.state }
    {
        self.mesh.cycles_hold();
    }

    /// The number of commands that can be undone.
    pub fn undo_len(&self) -> usize
        ensures { result ≡ length self.now.state.undo }
    {
        self.history.undo.len()
    }

    /// The number of commands that can be redone.
    pub fn redo_len(&self) -> usize
        ensures { result ≡ length self.now.state.redo }
    {
        self.history.redo.len()
    }
}
