use mac_base::Bytes;
use mac_io::Form;

/// A header, as an `#include` names it.
#[derive(Debug, Drop)]
pub struct HeaderName {
    pub form: Form,
    /// At least one byte.
    pub name: Bytes,
}
