//! Each law once.

use mesh_model::laws::{changes, closure, euler, incidence, kernel, models, splice};

#[test]
fn laws_of_changes(_rt: HostRuntime) {
    changes::leads_back();
    changes::joined();
    changes::turned();
    changes::trimmed();
    changes::rows();
}

#[test]
fn laws_of_closure(_rt: HostRuntime) {
    closure::closures();
    closure::new_elements();
    closure::closure_rises();
    closure::closure_is_live();
    closure::closure_is_closed();
    closure::rank_is_position();
    closure::no_limit_passed();
}

#[test]
fn laws_of_euler(_rt: HostRuntime) {
    euler::square();
    euler::fin();
    euler::values();
    euler::refusals();
    euler::long_faces();
    euler::kept();
}

#[test]
fn laws_of_incidence(_rt: HostRuntime) {
    incidence::loose();
    incidence::bare();
    incidence::linked();
    incidence::valid();
    incidence::simple();
    incidence::sound();
}

#[test]
fn laws_of_kernel(_rt: HostRuntime) {
    kernel::made();
    kernel::killed();
    kernel::rewired();
    kernel::set();
    kernel::turned_over();
    kernel::turned_twice();
    kernel::killed_alone();
}

#[test]
fn laws_of_models(_rt: HostRuntime) {
    models::square();
    models::strip();
    models::fin();
    models::bow();
    models::words();
    models::values();
    models::tests();
}

#[test]
fn laws_of_splice(_rt: HostRuntime) {
    splice::changes();
    splice::refusals();
    splice::kept();
}
