//! Laws of the definitions, and small models worked out. The checker proves each statement, and no call does anything.

pub mod changes;
pub mod closure;
pub mod euler;
pub mod incidence;
pub mod kernel;
pub mod models;
pub mod splice;
