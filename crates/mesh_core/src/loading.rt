//! A mesh made from a draft.
ghost use Rattle.std.specs.Prelude.{◌≡◌, [], None, IfOk, OnOk, OnErr};
ghost use Rattle.cust_data.specs.Faults.{refusal_of};
ghost use Rattle.mesh_model.specs.Complex.{layers_of};
ghost use Rattle.mesh_model.specs.Declaring.{with_layers_of, first_declaration_fault, with_declared, with_all_declared};
ghost use Rattle.mesh_model.specs.Valid.{IsLinked, IsValid};
ghost use Rattle.mesh_records.specs.Loading.{only_layers};
ghost use Rattle.mesh_records.specs.Places.{CanBecome};
ghost use Rattle.mesh_core.specs.Seen.{now, IsAsBefore};

use crate::mesh::Mesh;
use mesh_model::{Draft, Kind, LayerDecl, NoMemory, Rule, Shape, libraries_of, materials_of};
use mesh_records::part_of;
use std::alloc::Global;

/// Loading.
impl Mesh {
    /// Makes the mesh the complex of a valid draft, with further layers, declared one after another, in which each
    /// element has zeros. There is a way back to it. The mesh may hold anything before, and is as before after
    /// `NoMemory`. It takes time that grows with the draft's names and corners.
    pub fn load(&mut self, draft: &Draft, layers: &[LayerDecl]) -> Result<(), NoMemory>
        requires valid { IsValid draft.now }
        requires layers { first_declaration_fault draft.now.layers layers.now ≡ None }
        ensures now { OnOk result (now self.new ≡ with_all_declared draft.now layers.now) }
        ensures base { OnOk result (self.new.base ≡ now self.new) }
        ensures err { OnErr result (IsAsBefore self.old self.new) }
    {
        *self = Mesh::loaded(self.alloc, draft, layers)?;
        Ok(())
    }

    // The mesh of a valid draft with further layers, to which there is a way back.
    fn loaded(alloc: Global, draft: &Draft, layers: &[LayerDecl]) -> Result<Mesh, NoMemory>
        requires valid { IsValid draft.now }
        requires layers { first_declaration_fault draft.now.layers layers.now ≡ None }
        ensures now { IfOk result (λ m. now m ≡ with_all_declared draft.now layers.now) }
        ensures base { IfOk result (λ m. m.base ≡ now m) }
    {
        let mut made = Mesh::made_of(alloc, draft)?;
        made.declare(layers)?;
        made.mark()?;
        Ok(made)
    }

    // The mesh of a draft's complex. There is a way back to the empty complex.
    fn made_of(alloc: Global, draft: &Draft) -> Result<Mesh, NoMemory>
        requires { IsValid draft.now }
        ensures { IfOk result (λ m. now m ≡ draft.now) }
    {
        let mut made = Mesh::begun_of(alloc, draft)?;
        made.refill(draft);
        Ok(made)
    }

    // The layers and the lists of names of a draft, no element, and room for those of the draft.
    fn begun_of(alloc: Global, draft: &Draft) -> Result<Mesh, NoMemory>
        requires { IsValid draft.now }
        ensures { IfOk result (λ m. CanBecome m.stored m.lists draft.now) }
    {
        let mut made = Mesh::layered_of(alloc, draft)?;
        made.load_names(draft)?;
        let next = draft.counters();
        made.reserve(
            next.verts as usize,
            next.edges as usize,
            next.corners as usize,
            next.faces as usize,
        )?;
        Ok(made)
    }

    // The layers of a draft, and nothing else.
    fn layered_of(alloc: Global, draft: &Draft) -> Result<Mesh, NoMemory>
        requires { IsLinked draft.now }
        ensures { IfOk result (λ m. now m ≡ only_layers draft.now.layers) }
    {
        let mut made = Mesh::new(alloc);
        made.load_layers(draft, Kind::Verts)?;
        made.load_layers(draft, Kind::Edges)?;
        made.load_layers(draft, Kind::Corners)?;
        made.load_layers(draft, Kind::Faces)?;
        Ok(made)
    }
}

/// Layers and names.
impl Mesh {
    // Adds a layer that can be added, in which each element has zeros. There is a way back to the empty complex alone.
    fn add_layer(&mut self, kind: Kind, name: &[u8], width: u8, rule: Rule) -> Result<(), NoMemory>
        requires { refusal_of (layers_of (now self.old).layers kind) name.now width ≡ None }
        ensures { OnOk result (now self.new ≡ with_declared (now self.old)
            (record { kind = kind; name = name.now; width = width; rule = rule })) }
    {
        self.base = None;
        match self.store.add_layer(part_of(kind), name, width, rule) {
            Ok(()) => Ok(()),
            Err(_) => Err(NoMemory),
        }
    }

    // Adds layers that can be added, one after another.
    fn declare(&mut self, layers: &[LayerDecl]) -> Result<(), NoMemory>
        requires { first_declaration_fault (now self.old).layers layers.now ≡ None }
        ensures { OnOk result (now self.new ≡ with_all_declared (now self.old) layers.now) }
    {
        for layer in layers {
            self.add_layer(layer.kind, layer.name.as_slice(), layer.width, layer.rule)?;
        }
        Ok(())
    }

    // Adds a draft's layers of a kind to a mesh that has layers of other kinds, and nothing else.
    fn load_layers(&mut self, draft: &Draft, kind: Kind) -> Result<(), NoMemory>
        requires linked { IsLinked draft.now }
        requires none { layers_of (now self.old).layers kind ≡ [] }
        requires bare { now self.old ≡ only_layers (now self.old).layers }
        ensures { OnOk result (now self.new
            ≡ only_layers (with_layers_of (now self.old).layers kind (layers_of draft.now.layers kind))) }
    {
        for k in 0..draft.layers(kind) {
            self.add_layer(
                kind,
                draft.layer_name(kind, k),
                draft.layer_width(kind, k),
                draft.layer_rule(kind, k),
            )?;
        }
        Ok(())
    }

    // Replaces the lists of names. There is a way back to the empty complex alone.
    fn load_names(&mut self, draft: &Draft) -> Result<(), NoMemory>
        ensures { OnOk result (now self.new ≡ record (now self.old) {
          materials = draft.now.materials;
          libraries = draft.now.libraries;
        }) }
    {
        self.base = None;
        self.materials = materials_of(self.alloc, draft)?;
        self.libraries = libraries_of(self.alloc, draft)?;
        Ok(())
    }
}
