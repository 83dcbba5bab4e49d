//! What `crm_parse` reads.

mod marks;
mod meanings;
mod refused;
mod values;
