//! Laws of the definitions of incidence, and of the tests of a complex.

ghost use Rattle.std.specs.Prelude.{◌≡◌, ◌↔◌, true, []};
ghost use Rattle.mesh_model.specs.Complex.{Complex};
ghost use Rattle.mesh_model.specs.Incidence.{corners_at_edge, edges_at, is_bare, is_loose};
ghost use Rattle.mesh_model.specs.Tests.{is_linked, is_simple, is_sound, is_valid};
ghost use Rattle.mesh_model.specs.Valid.{IsLinked, IsSimple, IsSound, IsValid};
ghost use Rattle.mesh_model.specs.declared.names.EdgeName.{EdgeName};
ghost use Rattle.mesh_model.specs.declared.names.VertName.{VertName};

/// An edge is loose exactly where no corner is along it.
pub fn loose()
    ensures { (c : Complex) (e : EdgeName) → (is_loose c e ≡ true) ↔ (corners_at_edge c e ≡ []) }
{}

/// A vertex is bare exactly where it has no edge.
pub fn bare()
    ensures { (c : Complex) (v : VertName) → (is_bare c v ≡ true) ↔ (edges_at c v ≡ []) }
{}

/// The test of what is linked tells it.
pub fn linked()
    ensures { (c : Complex) → (is_linked c ≡ true) ↔ IsLinked c }
{}

/// The test of what is valid tells it.
pub fn valid()
    ensures { (c : Complex) → (is_valid c ≡ true) ↔ IsValid c }
{}

/// The test of what is simple tells it.
pub fn simple()
    ensures { (c : Complex) → (is_simple c ≡ true) ↔ IsSimple c }
{}

/// The test of what is sound tells it.
pub fn sound()
    ensures { (c : Complex) → (is_sound c ≡ true) ↔ IsSound c }
{}
