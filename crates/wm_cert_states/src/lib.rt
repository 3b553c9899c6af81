//! Certificates read from their texts.
#![tactic(auto)]

mod heads;
mod reading;

pub use reading::read_text;
pub use wm_cert_fault::CertFault;
